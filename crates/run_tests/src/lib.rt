//! Tests of runs, with their own folders and writers: readers that fail at each place of the
//! built-in report's files, writers whose flush fails, and settings that no command line gives.
//!
//! Also each public name of `oim_places`, `oim_explain` and `oim_run` in one call, in the form in
//! which an outside caller writes it. The first call of `places`, `explained` and `runs` is the one
//! on its library's own page (`tests/public_calls.py` compares them).
//!
//! Tests that need only files are left to the scripts over the built program.
#![tactic(auto)]

#[cfg(test)]
mod explained;
#[cfg(test)]
mod places;
#[cfg(test)]
mod runs;
#[cfg(test)]
mod tests_flushes;
#[cfg(test)]
mod tests_folders;
#[cfg(test)]
mod words;
