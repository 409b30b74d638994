//! Worked examples of races, as tests: agents in threads, by a lock and by rings.
#![tactic(auto)]

#[cfg(test)]
mod adders;
#[cfg(test)]
mod adding;
#[cfg(test)]
mod alone;
#[cfg(test)]
mod calls;
#[cfg(test)]
mod feeding;
#[cfg(test)]
mod joining;
#[cfg(test)]
mod meeting;
#[cfg(test)]
mod mixed;
#[cfg(test)]
mod order;
#[cfg(test)]
mod refusals;
#[cfg(test)]
mod rounds;
#[cfg(test)]
mod slow;
#[cfg(test)]
mod turning;
#[cfg(test)]
mod watching;
#[cfg(test)]
mod way;
