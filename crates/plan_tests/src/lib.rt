//! Worked examples of the calls on blocks, plans, moves and traces of accesses, as tests.
#![tactic(auto)]

#[cfg(test)]
mod blocks;
#[cfg(test)]
mod judging;
#[cfg(test)]
mod limits;
#[cfg(test)]
mod plans;
#[cfg(test)]
mod showing;
#[cfg(test)]
mod values;
