//! Tests of the records of a CSV file: with readers of their own, and each call once with ample
//! memory.
#![tactic(auto)]

#[cfg(test)]
mod tests_calls;
#[cfg(test)]
mod tests_readers;
