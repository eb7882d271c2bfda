//! Runs that write their document to a writer through a buffer, which is flushed at the end.
//!
//! Not proved, only tested (`crates/run_tests/src/tests_flushes.rt`): that a failed flush is
//! noticed.

ghost use Rattle.std.specs.Prelude.{◌≡◌, if◌then◌else◌};
ghost use Rattle.oim_json.specs.declared.mark.WriteFault.TheVariants as writes;
ghost use Rattle.oim_run.specs.Buffers.{flushed};
ghost use Rattle.oim_run.specs.Outputs.{RunsTo};
ghost use Rattle.oim_run.specs.declared.outcome.Outcome.TheVariants as outcomes;

use crate::buffer::Buffer;
use crate::early::no_memory;
use crate::outcome::Outcome;
use crate::running::run;
use crate::settings::Settings;
use oim_files::Folder;
use oim_json::WriteFault;
use std::alloc::Global;
use std::io::{Read, Write};
use std::sync::Wait;
use std::thread::Threads;

/// The capacity of the buffer, in bytes.
const ROOM: usize = 8192;

/// Returns whether a document was written, whole or unfinished.
fn has_document(outcome: &Outcome) -> bool
    ensures { flushed outcome.now ≡ (if result then outcomes.Output writes.Failed else outcome.now) }
{
    matches!(outcome, Outcome::Done | Outcome::Tables(_))
}

/// Returns the outcome after the flush of the output. A failed flush after a document, whole or
/// unfinished, is a failed write.
pub(crate) fn after_flush(outcome: Outcome, is_flushed: bool) -> Outcome
    ensures { result ≡ (if is_flushed then outcome else flushed outcome) }
{
    if !is_flushed && has_document(&outcome) {
        Outcome::Output(WriteFault::Failed)
    } else {
        outcome
    }
}

/// Runs over the files of a folder as [`run`] does, writes the document to a writer through a
/// buffer, and flushes it. Returns the outcome and the writer. A failed flush after a document is
/// reported as a failed write.
///
/// If contracts see the writer's bytes, the clause allows three ends:
///
/// - The outcome is that of the run, and the writer holds all that the run wrote, after its earlier
///   bytes: with `Done` the whole document, with `Tables` the unfinished one, and nothing more if
///   the report has an early fault.
/// - The outcome is that of the run, or `Output` if that was `Done` or `Tables`, and the writer
///   holds a prefix of these bytes. This is the end after a failed flush or a failed write before
///   it. The clause neither requires it after a failed flush nor forbids it after another.
/// - Memory ran out for the buffer: the outcome is Memory, there was no run, and the writer holds
///   its earlier bytes.
pub fn run_to<R: Read + Drop + Send, F: Folder<R>, T: Threads + Wait + Sync, W: Write>(
    rt: &T,
    alloc: Global,
    settings: &Settings,
    folder: &mut F,
    to: W,
) -> (Outcome, W)
    // If contracts see the folder's files: how the run ends, and what the writer then holds. For
    // every folder: what each outcome leaves in the writer.
    ensures { RunsTo (F.files folder.old) settings.now (W.contents to) (W.contents result.1) result.0 }
{
    let Ok(waiting) = Vec::with_capacity(alloc, ROOM) else {
        return (no_memory(), to);
    };
    let mut buffer = Buffer::new(to, waiting);
    let outcome = run(rt, alloc, settings, folder, &mut buffer);
    let (writer, is_flushed) = buffer.finish();
    (after_flush(outcome, is_flushed), writer)
}
