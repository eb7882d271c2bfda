//! The end of a run's output, and the outcome after it.

ghost use Rattle.std.specs.Prelude.{◌≡◌, ◌⊎◌};
ghost use Rattle.oim_run.specs.Outputs.{IsToldBy, IsUnwritten, IsUnwrittenAt};

use crate::buffered::after_flush;
use crate::early::no_memory;
use crate::outcome::Outcome;
use crate::request::Request;
use oim_names::Text;
use std::alloc::Global;

/// How an output ended, after a run wrote to it.
#[derive(Clone, Copy)]
pub enum RunEnd {
    /// The written bytes are in their place. With `--whole`, an unfinished document is not put
    /// there.
    Kept,
    /// The written bytes could not be brought to their place.
    NotKept,
    /// The document's file is one that the report reads. It is unchanged.
    IsRead,
    /// The file for the faults is one that the report reads.
    FaultsAreRead,
    /// The file for the counts is one that the report reads.
    CountsAreRead,
}

/// Returns the outcome of a run that cannot write the file at this path: `CannotWrite`, or Memory
/// if memory runs out for the path.
pub fn cannot_write(alloc: Global, path: &str) -> Outcome
    ensures { IsUnwritten path.now result }
{
    match Text::from_str(alloc, path) {
        Ok(path) => Outcome::CannotWrite(path),
        Err(_) => no_memory(),
    }
}

/// Returns the outcome for a file at `path` that cannot be written. Without a path, returns the
/// run's own outcome.
fn unwritten_at(alloc: Global, path: &Option<Text>, ran: Outcome) -> Outcome
    ensures { IsUnwrittenAt path.now ran result }
{
    match path {
        Some(path) => cannot_write(alloc, path.as_str()),
        None => ran,
    }
}

/// Returns the outcome to report after a run with this outcome and this end of its output.
pub(crate) fn told_by(alloc: Global, request: &Request, how: RunEnd, ran: Outcome) -> Outcome
    ensures { IsToldBy request.now.settings.out request.now.faults request.now.counts how ran result }
{
    match how {
        RunEnd::Kept => ran,
        RunEnd::NotKept => after_flush(ran, false),
        RunEnd::IsRead => unwritten_at(alloc, &request.settings.out, ran),
        RunEnd::FaultsAreRead => unwritten_at(alloc, &request.faults, ran),
        RunEnd::CountsAreRead => unwritten_at(alloc, &request.counts, ran),
    }
}
