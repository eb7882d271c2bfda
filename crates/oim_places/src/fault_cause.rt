//! Where a fault of a table comes from.

ghost use Rattle.std.specs.Prelude.{◌≡◌, IfOk};
ghost use Rattle.oim_places.specs.FaultRows.{no_cause};

use oim_names::Text;
use std::alloc::{AllocError, Global};

/// The place that causes a fault, and what is there. All is empty if that is the fault's own place.
#[derive(Drop)]
pub struct FaultCause {
    /// The path of the file.
    pub file: Text,
    /// The line of the file at which the record begins, if it is known.
    pub line: Option<u64>,
    /// The cell in the record, from 1. In the metadata it is a JSON pointer.
    pub cell: Text,
    /// What is there.
    pub text: Text,
}

impl FaultCause {
    /// Returns the cause of a fault that comes from its own place.
    pub fn none(alloc: Global) -> Result<FaultCause, AllocError>
        ensures { IfOk result (λ c. c ≡ no_cause) }
    {
        Ok(FaultCause {
            file: Text::new(String::new(alloc)),
            line: None,
            cell: Text::new(String::new(alloc)),
            text: Text::new(String::new(alloc)),
        })
    }
}
