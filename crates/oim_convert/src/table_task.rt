//! The task that a worker draws, and the result for it.

use oim_pieces::AtWork;
use oim_ring::{Closed, Feed};
use std::sync::Arc;

/// A table to decode: its place in the report, its reader if it has a file, the feed of its ring,
/// and the count of threads at work.
#[derive(Drop)]
pub(crate) struct TableTask<R> {
    pub(crate) table: usize,
    pub(crate) reader: Option<R>,
    pub(crate) feed: Feed,
    pub(crate) at_work: Arc<AtWork>,
}

/// The result for a table: its place in the report, and the token of its closed feed, or `None` if
/// the token was lost.
#[derive(Drop)]
pub(crate) struct TaskResult {
    pub(crate) table: usize,
    pub(crate) closed: Option<Closed>,
}
