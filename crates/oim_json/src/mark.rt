//! A sink's record of its failures.

ghost use Rattle.std.specs.Prelude.{◌≡◌};
ghost use Rattle.oim_json.specs.FaultNames.{number_of, name_of};

use thiserror::Error;

/// Whether writes to a sink have failed.
#[derive(Debug, Clone, Copy, PartialEq, Eq)]
pub enum Mark {
    /// No write failed.
    Fine,
    /// The last write that took nothing returned an error.
    Failed,
    /// The last write that took nothing returned 0.
    Zero,
}

/// Why bytes could not be written.
#[derive(Debug, Clone, Copy, PartialEq, Eq, Error)]
#[error("{}", self.name())]
pub enum WriteFault {
    /// A write returned an error.
    Failed,
    /// A write returned 0.
    Zero,
}

impl WriteFault {
    /// Returns the fault's number: 63 if a write returned an error, 64 if it returned 0.
    pub fn number(&self) -> u32
        ensures { result ≡ number_of self.now }
    {
        match self {
            WriteFault::Failed => 63,
            WriteFault::Zero => 64,
        }
    }

    /// Returns the fault's name.
    pub fn name(&self) -> &'static str
        ensures { result.now ≡ name_of self.now }
    {
        match self {
            WriteFault::Failed => "Failed",
            WriteFault::Zero => "Zero",
        }
    }

    /// Returns an explanation for people, as a sentence without capital and full stop.
    pub fn explanation(&self) -> &'static str {
        match self {
            WriteFault::Failed => "a write failed",
            WriteFault::Zero => "a write took no bytes",
        }
    }
}
