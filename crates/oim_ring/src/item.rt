//! The items of a ring.

use oim_json::Block;
use oim_rows::TableFault;

/// How a table ends.
#[derive(Clone, Copy, PartialEq, Eq, Debug)]
pub enum Ending {
    /// The table has no fault.
    Closed,
    /// The table is refused.
    Refused(TableFault),
}

/// An item of a ring.
#[derive(Drop)]
pub enum Item {
    /// Facts of the table, before its ending.
    Block(Block),
    /// The table's ending, its last item.
    Ending(Ending),
}
