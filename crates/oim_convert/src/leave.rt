//! A runtime's permission to wait and to start threads, for threads that decode pieces of a table.

use ghost_value::GhostValue;
use std::sync::Wait;
use std::thread::Threads;

/// The permission to start threads and to wait. It has no bytes, so threads may share it even if
/// they may not share the runtime: `GhostValue` is `Sync` for every type.
#[derive(Drop)]
pub(crate) struct Leave<T> {
    of: GhostValue<T>,
}

impl<T: Threads> Threads for Leave<T> {}

impl<T: Wait> Wait for Leave<T> {}

impl<T> Leave<T> {
    /// Returns the permission of this runtime.
    pub(crate) fn of(rt: &T) -> Leave<T> {
        Leave {
            of: GhostValue::seen(rt),
        }
    }
}
