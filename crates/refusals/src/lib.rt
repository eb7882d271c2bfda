//! Tests of calls that run out of memory.
//!
//! Each call is made with no memory left, then with a little more, and so on until it has enough.
//! So its first allocation is refused, then its second, and so on. `tests/test_refused.py` shows
//! the same of the built program, with its threads and its command line.
#![tactic(auto)]

#[cfg(test)]
mod calls;
#[cfg(test)]
mod cells;
#[cfg(test)]
mod conversions;
#[cfg(test)]
mod metadata;
#[cfg(test)]
mod names;
#[cfg(test)]
mod report;
#[cfg(test)]
mod rings;
#[cfg(test)]
mod rows;
#[cfg(test)]
mod scarcity;
