//! The counts of a run, and why writes to its outputs failed.

use crate::counts::Counts;
use crate::write_failure::WriteFailure;
use oim_run::Outcome;

/// What is noted during a run for what is told after it.
#[derive(Drop)]
pub struct Noted<'a> {
    /// The counts, if the command line asks for them.
    pub counts: Option<&'a Counts>,
    /// Why a write of the document failed, if one did.
    pub document: &'a WriteFailure,
    /// Why a write of the file of the faults or of the counts failed, if one did.
    pub beside: &'a WriteFailure,
}

impl<'a> Noted<'a> {
    /// Returns why the write failed that this outcome of the run is about, if one did.
    pub fn failure_of(&self, outcome: &Outcome) -> &'a WriteFailure {
        match outcome {
            Outcome::Output(_) => self.document,
            _ => self.beside,
        }
    }
}
