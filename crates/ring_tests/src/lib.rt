//! Tests of a report's rings with threads: a later table waits for its turn and for space, a spare
//! is reused, and two workers send three tables.
#![tactic(auto)]

#[cfg(test)]
mod tests;
