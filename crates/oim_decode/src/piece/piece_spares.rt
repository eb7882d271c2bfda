//! The memory of blocks, kept for a piece.

use oim_json::Spare;
use std::alloc::Global;

/// The memory of blocks to which texts are written.
#[derive(Drop)]
pub(crate) struct PieceSpares {
    spares: Vec<Spare>,
}

impl PieceSpares {
    /// Makes an empty list, without taking memory.
    pub(crate) fn new(alloc: Global) -> PieceSpares {
        PieceSpares {
            spares: Vec::new(alloc),
        }
    }

    /// Takes the spare that was kept last, or an empty one.
    pub(crate) fn take(&mut self, alloc: Global) -> Spare {
        match self.spares.pop() {
            Some(spare) => spare,
            None => Spare::new(alloc),
        }
    }

    /// Takes the spare that was kept last, if there is one.
    pub(crate) fn free(&mut self) -> Option<Spare> {
        self.spares.pop()
    }

    /// Keeps a spare, or drops it if memory runs out.
    pub(crate) fn keep(&mut self, spare: Spare) {
        let _ = self.spares.push(spare);
    }
}
