//! The memory of a written block, which another block uses.

ghost use Rattle.std.specs.Prelude.{◌≡◌, []};

use std::alloc::Global;

/// The memory of a written block, for the texts of another block. Its contents
/// have no meaning.
#[derive(Drop)]
pub struct Spare {
    /// The vector of the texts.
    pub bytes: Vec<u8>,
    /// The vector of the ends of the texts.
    pub ends: Vec<usize>,
}

impl Spare {
    /// Makes an empty spare, without taking memory.
    pub fn new(alloc: Global) -> Spare
        ensures bytes { result.bytes.items ≡ [] }
        ensures ends { result.ends.items ≡ [] }
    {
        Spare {
            bytes: Vec::new(alloc),
            ends: Vec::new(alloc),
        }
    }
}
