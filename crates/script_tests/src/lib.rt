//! Worked examples of the calls on scripts and reports, as tests. They are no case of `tests/scripts`, and the built
//! program can't show them.
#![tactic(auto)]

#[cfg(test)]
mod accesses;
#[cfg(test)]
mod changed_bytes;
#[cfg(test)]
mod devices;
#[cfg(test)]
mod faults;
#[cfg(test)]
mod functions;
#[cfg(test)]
mod keeping;
#[cfg(test)]
mod limits;
#[cfg(test)]
mod racing;
#[cfg(test)]
mod reading;
#[cfg(test)]
mod reports;
#[cfg(test)]
mod run;
#[cfg(test)]
mod stepping;
