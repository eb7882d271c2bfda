//! The lines that the program prints when a run ends, and its exit status.

ghost use Rattle.std.specs.Prelude.{◌≡◌, ◌⊎◌, IfSome};
ghost use Rattle.clap.specs.Values.{kind_of};
ghost use Rattle.oim_run.specs.Lines.{status_of, unprinted_status, words_status};
ghost use Rattle.oim_run.specs.Outputs.{EndsFor, EndsTold, IsLeftOut, IsLeftUnwritten, Says, SaysLast};

use crate::colours::Colours;
use crate::counts_file::write_counts;
use crate::explain::Explainer;
use crate::faults::write_faults;
use crate::known::{Known, Reread};
use crate::noted::Noted;
use crate::write_failure::WriteFailure;
use oim_run::{Folder, Outcome, Outputs, Request, Teller, convert_as, shown, status, tell};
use std::alloc::{AllocError, Global};
use std::fs;
use std::io::{Eprint, IsTerminal, Print, Read, Write};
use std::sync::Wait;
use std::thread::Threads;

/// The system's file that holds nothing.
const NOTHING: &str = "/dev/null";

/// The line to print if the help or the version cannot be written to standard output.
const UNPRINTED: &str = "xbrl-json: output: Write (56)\n";

/// Standard error. What is said there is coloured if it is a terminal with colours.
#[derive(Drop)]
pub struct StandardError<'a> {
    rt: &'a HostRuntime,
    colours: Colours,
}

impl<'a> StandardError<'a> {
    /// Makes it.
    pub fn new(rt: &'a HostRuntime) -> StandardError<'a> {
        StandardError {
            rt,
            colours: Colours::of(rt),
        }
    }
}

impl<'a> Teller for StandardError<'a> {
    fn is_terminal(&self) -> bool {
        self.rt.stderr().is_terminal()
    }

    fn say(&mut self, text: &str) {
        self.colours.print_faults(self.rt, text);
    }
}

/// Tells the lines of an outcome, and explains its faults if `Request::explains` says so. In that
/// case it prints the lines of tables one by one, past the teller. `reread` has what is known of
/// the faults.
fn told_as_asked<L: Teller>(
    rt: &HostRuntime,
    alloc: Global,
    request: &Request,
    failure: &WriteFailure,
    outcome: &Outcome,
    reread: &mut Reread<'_>,
    to: &mut L,
)
    ensures says { Says (L.terminal to.old) outcome.now (L.said to.old) (L.said to.new) }
    ensures same { L.terminal to.new ≡ L.terminal to.old }
{
    if !request.explains(to.is_terminal()) {
        tell(to, alloc, outcome);
        return;
    }
    let explainer = Explainer::new(rt, alloc, request, failure);
    if let Outcome::Tables(tables) = outcome {
        explainer.explain_tables(reread, tables.as_slice());
        return;
    }
    tell(to, alloc, outcome);
    explainer.explain_fault(reread, outcome);
}

/// Prints of how many tables the file of the faults has only the first ones, if there are any.
fn tell_cut(rt: &HostRuntime, alloc: Global, request: &Request, known: &Known) {
    let (Some(path), count) = (&request.faults, known.cut_tables()) else {
        return;
    };
    if count == 0 {
        return;
    }
    if let Ok(path) = shown(alloc, path.as_str()) {
        let (path, most) = (path.as_str(), request.most_faults);
        let _ = eprint!(rt;
            "xbrl-json: {path} is cut: more than {most} faults in {count} of the tables\n"
        );
    }
}

/// Writes the file of the counts of a run with this outcome, unless that of the faults could not be
/// written: then `unwritten` is the outcome that says so. `noted` gets why a write failed. Returns
/// the outcome that one of them cannot be written, if so.
fn left_out(
    rt: &HostRuntime,
    alloc: Global,
    request: &Request,
    outcome: &Outcome,
    unwritten: Option<Outcome>,
    noted: &Noted<'_>,
) -> Option<Outcome>
    requires { IfSome unwritten (λ last. IsLeftUnwritten request.now.faults outcome.now last) }
    ensures { IfSome result (λ last. IsLeftOut request.now.faults request.now.counts outcome.now last) }
{
    match unwritten {
        Some(unwritten) => Some(unwritten),
        None => write_counts(rt, alloc, request, outcome, noted.counts, noted.beside),
    }
}

/// Tells the lines of an outcome, and explains its faults if `Request::explains` says so. Returns
/// its exit status. The files are read again only for explanations. `failure` is why a write
/// failed, if one did.
fn told_alone<L: Teller>(
    rt: &HostRuntime,
    alloc: Global,
    request: &Request,
    failure: &WriteFailure,
    outcome: &Outcome,
    to: &mut L,
) -> u8
    ensures status { result ≡ status_of outcome.now }
    ensures says { Says (L.terminal to.old) outcome.now (L.said to.old) (L.said to.new) }
{
    let reread = &mut Reread::new(rt, alloc);
    told_as_asked(rt, alloc, request, failure, outcome, reread, to);
    status(outcome)
}

/// Returns the exit status of a run with this outcome. If a file is left out after it, tells so and
/// returns the exit status of that. `failure` is why a write of that file failed, if one did.
fn last_told<L: Teller>(
    rt: &HostRuntime,
    alloc: Global,
    request: &Request,
    outcome: &Outcome,
    left: Option<Outcome>,
    failure: &WriteFailure,
    to: &mut L,
) -> u8
    requires { IfSome left (λ last. IsLeftOut request.now.faults request.now.counts outcome.now last) }
    ensures { SaysLast (L.terminal to.old) request.now.faults request.now.counts outcome.now (L.said to.old) (L.said to.new) result }
{
    let Some(unwritten) = left else {
        return status(outcome);
    };
    told_alone(rt, alloc, request, failure, &unwritten, to)
}

/// Tells the outcome of a run that was not begun, and returns its exit status.
pub fn told_before(rt: &HostRuntime, alloc: Global, request: &Request, outcome: &Outcome) -> u8 {
    let errors = &mut StandardError::new(rt);
    told_alone(rt, alloc, request, &WriteFailure::none(), outcome, errors)
}

/// Converts as `convert_as` does, with the file descriptors 0, 1 and 2 occupied.
///
/// If the program was started without one of these, the first file that it opens would get that
/// descriptor, and what is printed would go into the document. So each free one is occupied by
/// `/dev/null`, opened for reading, so that printing fails.
fn convert_apart<
    R: Read + Drop + Send,
    F: Folder<R>,
    T: Threads + Wait + Sync,
    W: Write,
    O: Outputs<W>,
>(
    rt: &HostRuntime,
    threads: &T,
    alloc: Global,
    request: &Request,
    folder: &mut F,
    outputs: &mut O,
) -> Outcome
    ensures { EndsFor (F.files folder.old) request.now (O.done outputs.old) (O.done outputs.new) result }
{
    let _input = fs::open(rt, NOTHING);
    let _output = fs::open(rt, NOTHING);
    let _error = fs::open(rt, NOTHING);
    convert_as(threads, alloc, request, folder, outputs)
}

/// Converts as the command line asks, writes the file of the faults, tells the outcome, and writes
/// the file of the counts. Returns the exit status of what was told last. `threads` starts the
/// workers, and `noted` is what folder and outputs note.
pub fn convert_and_tell<
    R: Read + Drop + Send,
    F: Folder<R>,
    T: Threads + Wait + Sync,
    W: Write,
    O: Outputs<W>,
    L: Teller,
>(
    rt: &HostRuntime,
    threads: &T,
    request: &Request,
    folder: &mut F,
    outputs: &mut O,
    noted: &Noted<'_>,
    to: &mut L,
) -> u8
    ensures { EndsTold (F.files folder.old) request.now (O.done outputs.old) (O.done outputs.new) (L.terminal to.old) (L.said to.old) (L.said to.new) result }
{
    let alloc = rt.alloc();
    let outcome = convert_apart(rt, threads, alloc, request, folder, outputs);
    let reread = &mut Reread::new(rt, alloc);
    let unwritten = write_faults(rt, alloc, request, &outcome, reread, noted.beside);
    let failure = noted.failure_of(&outcome);
    told_as_asked(rt, alloc, request, failure, &outcome, reread, to);
    tell_cut(rt, alloc, request, &reread.known);
    let left = left_out(rt, alloc, request, &outcome, unwritten, noted);
    last_told(rt, alloc, request, &outcome, left, noted.beside, to)
}

/// Appends a line with its control and invisible characters escaped.
fn put_line(alloc: Global, lines: &mut String, line: &str) -> Result<(), AllocError> {
    let line = shown(alloc, line)?;
    lines.push_str(line.as_str())?;
    lines.push('\n')
}

/// Returns a text with its control and invisible characters escaped, except for line ends.
fn lines_shown(alloc: Global, text: &str) -> Result<String, AllocError> {
    let mut lines = String::new(alloc);
    for line in text.lines() {
        put_line(alloc, &mut lines, line)?;
    }
    Ok(lines)
}

/// Prints on a terminal why the command line was refused.
fn explained_there(rt: &HostRuntime, alloc: Global, error: &clap::Error) {
    let text = match format!(in alloc; "{error}") {
        Ok(text) => lines_shown(alloc, text.as_str()),
        Err(error) => Err(error),
    };
    let _ = match text {
        Ok(text) => rt.eprint(text.as_str()),
        Err(_) => error.print(rt),
    };
}

/// Returns the exit status for a command line of this kind: refused, or a request for the help or
/// the version.
fn status_of_words(error: &clap::Error) -> u8
    ensures { result ≡ words_status (kind_of error.now) }
{
    match error.kind() {
        clap::error::ErrorKind::DisplayHelp | clap::error::ErrorKind::DisplayVersion => 0,
        clap::error::ErrorKind::OutOfMemory => 3,
        _ => 2,
    }
}

/// Prints why the command line was refused, or the help or the version if it asks for them. Returns
/// the exit status, which is 3 if the help or the version cannot be printed.
pub fn explained(rt: &HostRuntime, alloc: Global, error: &clap::Error) -> u8
    ensures { (result ≡ words_status (kind_of error.now)) ⊎ (result ≡ unprinted_status (kind_of error.now)) }
{
    let status = status_of_words(error);
    if status != 0 && rt.stderr().is_terminal() {
        explained_there(rt, alloc, error);
        return status;
    }
    let is_printed = error.print(rt).is_ok();
    if is_printed || status != 0 {
        return status;
    }
    let _ = rt.eprint(UNPRINTED);
    3
}
