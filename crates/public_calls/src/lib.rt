//! The published names of the libraries below `oim_pieces` and `oim_places`, and those that the
//! program does not use. Each is in one call, in the form in which an outside caller writes it. The
//! first call of a file is the example on its library's own page. The crates `conversion_tests` and
//! `run_tests` have the others. `tests/public_calls.py` has the rules and checks them.
#![tactic(auto)]

#[cfg(test)]
mod bad_rows;
#[cfg(test)]
mod blocks;
#[cfg(test)]
mod cells;
#[cfg(test)]
mod crews;
#[cfg(test)]
mod facts;
#[cfg(test)]
mod fast_rows;
#[cfg(test)]
mod files;
#[cfg(test)]
mod ghost_values;
#[cfg(test)]
mod held;
#[cfg(test)]
mod merges;
#[cfg(test)]
mod metadata;
#[cfg(test)]
mod names;
#[cfg(test)]
mod periods;
#[cfg(test)]
mod pieces;
#[cfg(test)]
mod records;
#[cfg(test)]
mod reports;
#[cfg(test)]
mod rings;
#[cfg(test)]
mod row_answers;
#[cfg(test)]
mod rows;
#[cfg(test)]
mod schema;
#[cfg(test)]
mod tables;
#[cfg(test)]
mod texts;
#[cfg(test)]
mod waiting;
#[cfg(test)]
mod words;
