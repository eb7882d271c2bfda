//! One run, to standard output or to the file that `--out` names.
//!
//! Not proved, only trusted and tested: what the system does with the bytes that a writer takes,
//! and whether a file gets its name.

ghost use Rattle.std.specs.Prelude.{◌≡◌, ◌⊎◌, ℕ, List, [], ◌∷◌, Option, Some, None, option_map};
ghost use Rattle.oim_run.specs.Outputs.{Deed, Did, Ended, EndsFor, IntoFile, Opened};
ghost use Rattle.oim_run.specs.state.Outputs.{RunsInto};

use crate::buffered::run_to;
use crate::outcome::Outcome;
use crate::request::Request;
use crate::run_end::{RunEnd, cannot_write, told_by};
use oim_files::Folder;
use std::alloc::Global;
use std::io::{Read, Write};
use std::sync::Wait;
use std::thread::Threads;

/// The outputs that a document can go to. They open writers, and start no thread. Contracts ask of
/// them only a true record of what was done with them, if they keep one.
pub trait Outputs<W: Write> {
    /// The record of what was done with the outputs so far, in order, if they keep one.
    ghost done: { Self → Option (List Deed) } = { λ _. None };

    /// Opens standard output, and returns its writer.
    fn standard_output(&mut self) -> W
        ensures { Did (done self.old) (Opened None (Some (W.contents result)) ∷ []) (done self.new) };

    /// Opens the file at a path, and returns its writer. Returns `None` if the file cannot be
    /// written, or the report reads it; then it is unchanged.
    fn file(&mut self, path: &str) -> Option<W>
        ensures { Did (done self.old) (Opened (Some path.now) (option_map W.contents result) ∷ []) (done self.new) };

    /// Ends the open output after a run with outcome `ran`: brings the written bytes to their
    /// place.
    fn end(&mut self, writer: W, ran: &Outcome) -> RunEnd
        ensures { Did (done self.old) (Ended (W.contents writer) ran.now result ∷ []) (done self.new) };
}

/// Makes one run to the writer of an open output, ends the output, and returns the outcome to
/// report.
fn run_into<R: Read + Drop + Send, F: Folder<R>, T: Threads + Wait + Sync, W: Write, O: Outputs<W>>(
    rt: &T,
    alloc: Global,
    request: &Request,
    folder: &mut F,
    outputs: &mut O,
    to: W,
) -> Outcome
    ensures { RunsInto (F.files folder.old) request.now (W.contents to) (O.done outputs.old) (O.done outputs.new) result }
{
    let (ran, writer) = run_to(rt, alloc, &request.settings, folder, to);
    let how = outputs.end(writer, &ran);
    told_by(alloc, request, how, ran)
}

/// Converts to the file at a path. If that is the path of the metadata or of the types table as
/// written, it does nothing and returns `CannotWrite`.
fn convert_into<
    R: Read + Drop + Send,
    F: Folder<R>,
    T: Threads + Wait + Sync,
    W: Write,
    O: Outputs<W>,
>(rt: &T, alloc: Global, request: &Request, folder: &mut F, outputs: &mut O, path: &str) -> Outcome
    ensures { IntoFile (F.files folder.old) request.now path.now (O.done outputs.old) (O.done outputs.new) result }
{
    if request.settings.reads(path) {
        return cannot_write(alloc, path);
    }
    match outputs.file(path) {
        Some(to) => run_into(rt, alloc, request, folder, outputs, to),
        None => cannot_write(alloc, path),
    }
}

/// Converts once, to the file `settings.out` or to standard output: makes one run over the folder,
/// as [`run_to`] does, to the writer that the outputs open for it. Returns the outcome to report.
///
/// That is the run's own outcome if its output ended well. Otherwise it is a failed write, or
/// `CannotWrite` if the report reads that file, or the file of the faults or of the counts. It is
/// also `CannotWrite` if the file cannot be opened, or if `settings.out` is the path of the
/// metadata or of the types table as written; then nothing is done. `Memory` may replace
/// `CannotWrite`.
pub fn convert_as<
    R: Read + Drop + Send,
    F: Folder<R>,
    T: Threads + Wait + Sync,
    W: Write,
    O: Outputs<W>,
>(rt: &T, alloc: Global, request: &Request, folder: &mut F, outputs: &mut O) -> Outcome
    ensures { EndsFor (F.files folder.old) request.now (O.done outputs.old) (O.done outputs.new) result }
{
    match &request.settings.out {
        Some(path) => convert_into(rt, alloc, request, folder, outputs, path.as_str()),
        None => {
            let to = outputs.standard_output();
            run_into(rt, alloc, request, folder, outputs, to)
        }
    }
}
