//! Worked examples of jobs, races, verdicts and searches between a reader and a writer, as tests.

#[cfg(test)]
mod flushing;
