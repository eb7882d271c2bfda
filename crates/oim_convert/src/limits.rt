//! The largest number of workers.

/// The largest number of workers.
pub const MOST_WORKERS: usize = 64;
