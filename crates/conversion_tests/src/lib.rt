//! Tests of conversions, with their own readers and writers: readers that fail at each place of a
//! file or never end; tables that wait for one another; writers that fail after each number of
//! bytes; workers that are not started; full rings; and a table in pieces of each size.
//!
//! Also each public name of `keyed`, `oim_pieces` and `oim_convert` in one call, in the form in
//! which an outside caller writes it. The first call of `channels`, `pieces` and `conversions` is
//! the one on its library's own page (`tests/public_calls.py` compares them).
//!
//! Tests that need only files are left to the scripts over the built program.
#![tactic(auto)]

#[cfg(test)]
mod channels;
#[cfg(test)]
mod conversions;
#[cfg(test)]
mod endings;
#[cfg(test)]
mod pieces;
#[cfg(test)]
mod readers;
#[cfg(test)]
mod reports;
#[cfg(test)]
mod tests_readers;
#[cfg(test)]
mod tests_rings;
#[cfg(test)]
mod tests_threads;
#[cfg(test)]
mod tests_writers;
#[cfg(test)]
mod trials;
#[cfg(test)]
mod writers;
