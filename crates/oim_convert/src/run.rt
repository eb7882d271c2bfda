//! The result of a conversion.

use oim_merge::MergeEnd;
use oim_ring::Drained;
use oim_rows::TableFault;

/// The result of a conversion: the history of each table, in table order, the fault of each refused
/// table, and the end of the merge. A history is the blocks of facts that were sent for its table,
/// followed by one ending.
#[derive(Drop)]
pub struct Run {
    /// The drains of the tables, in table order, which have taken everything that was sent. A
    /// conversion on one thread has none.
    pub drains: Vec<Drained>,
    /// The fault of each refused table, in table order.
    pub faults: Vec<TableFault>,
    /// How the merge ended.
    pub end: MergeEnd,
}
