//! Writes the file of `--counts`, after a run that ended well.
//!
//! Not proved: what is written to the system's files.

ghost use Rattle.std.specs.Prelude.{IfSome};
ghost use Rattle.oim_run.specs.Outputs.{IsLeftUncounted};

use crate::counts::Counts;
use crate::faults::{document_path, is_taken};
use crate::target::Target;
use crate::whole_file::{Content, can_be_made, write_whole};
use crate::write_failure::WriteFailure;
use oim_run::{Outcome, Request, cannot_write, status};
use std::alloc::Global;
use std::io;
use std::io::Write;

/// The text of the file.
#[derive(Drop)]
struct CountsText<'a> {
    text: &'a [u8],
}

impl<'a> Content for CountsText<'a> {
    fn write_to<W: Write + Drop>(&mut self, to: W) -> io::Result<()> {
        let mut to = to;
        to.write_all(self.text)?;
        to.flush()
    }
}

/// Whether a path leads to the file of the faults.
fn is_of_faults(rt: &HostRuntime, request: &Request, path: &str) -> bool {
    match &request.faults {
        Some(faults) => Target::of(rt, path).is_at(rt, faults.as_str()),
        None => false,
    }
}

/// Returns the outcome of a run that cannot write the file of the counts, if that is known before
/// the run. It must not be the metadata, the types table, the document or the file of the faults.
pub fn uncounted_before(rt: &HostRuntime, alloc: Global, request: &Request) -> Option<Outcome> {
    let path = request.counts.as_ref()?;
    let path = path.as_str();
    if !is_taken(rt, &request.settings, path)
        && !is_of_faults(rt, request, path)
        && can_be_made(rt, alloc, path)
    {
        return None;
    }
    Some(cannot_write(alloc, path))
}

/// Writes the file, and returns whether it is whole. `failure` gets why a write failed.
fn write_file(
    rt: &HostRuntime,
    alloc: Global,
    request: &Request,
    counts: Option<&Counts>,
    path: &str,
    failure: &WriteFailure,
) -> bool {
    if Target::of(rt, path).is_at(rt, document_path(&request.settings))
        || is_of_faults(rt, request, path)
    {
        return false;
    }
    let Some(counts) = counts else {
        return false;
    };
    match counts.text() {
        Some(text) => {
            let content = &mut CountsText {
                text: text.as_slice(),
            };
            write_whole(rt, alloc, content, path, failure)
        }
        None => false,
    }
}

/// Writes the file of the counts, if the command line names one and the exit status is 0.
///
/// It is replaced only by a whole one. Returns the outcome that it cannot be written, if so;
/// `failure` then gets why a write failed.
pub fn write_counts(
    rt: &HostRuntime,
    alloc: Global,
    request: &Request,
    outcome: &Outcome,
    counts: Option<&Counts>,
    failure: &WriteFailure,
) -> Option<Outcome>
    ensures { IfSome result (λ last. IsLeftUncounted request.now.counts outcome.now last) }
{
    let path = request.counts.as_ref()?;
    let path = path.as_str();
    if status(outcome) != 0 || write_file(rt, alloc, request, counts, path, failure) {
        return None;
    }
    Some(cannot_write(alloc, path))
}
