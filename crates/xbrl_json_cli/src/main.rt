//! `xbrl-json`: converts a report in xBRL-CSV 1.0 to xBRL-JSON 1.0.
//!
//! `xbrl-json META --types FILE [--workers N] [--ring K] [--out FILE] [--whole] [--layout LAYOUT]
//! [--progress] [--explain] [--no-explain] [--faults FILE] [--most-faults N] [--counts FILE]`
//! converts the report whose metadata file is META, to standard output or to the file of `--out`.
//! Without arguments it converts its built-in report to standard output.
//!
//! The crate `oim_run` proves what a run writes and which faults it answers. This crate is the
//! edge: it opens the system's files, shows the progress, and prints. Proved here:
//!
//! - `convert_and_tell`, over any files, outputs and teller: exactly one run is made, to the output
//!   that the command line names. No run is made if that output is written as the path of the
//!   metadata or of the types table, or cannot be opened. The outcome, or that the output did not
//!   end well, is told at most once. The exit status is that of the outcome, or of the file of the
//!   faults or of the counts if that cannot be written afterwards.
//! - `fitted`: the run has the workers that the command line asks for, or fewer, and everything
//!   else as it asks.
//! - What each byte of a document, of a table and of a JSON text tells `--counts`
//!   (`specs/{DocumentMarks,RecordCounts,JsonPlaces}.antt`).
//! - `explained`: the exit status for a refused command line follows from the kind of its fault.
//!   For the help and the version it is 0 or 3.
//!
//! Not proved:
//!
//! - what the system's files contain, and what `SystemOutputs` does. Tests show that no file of the
//!   report is written by any path, and that a file gets its name only once it is whole;
//! - that `converted` passes these to one call, and what the system gives as arguments;
//! - that the outcome is printed: memory may run out for its lines. If the faults are explained
//!   (`explains` of `oim_run/specs/CommandLine.antt`: with `--explain`, and on a terminal without
//!   `--no-explain`), the lines of refused tables are printed past the teller. On a terminal so are
//!   the codes of colours;
//! - that the status is 3 exactly if the help or the version cannot be printed (tested);
//! - the line of `--progress`, and what the file of `--counts` has.
#![tactic(auto)]

mod busy_processors;
mod colours;
mod counts;
mod counts_file;
mod disk;
mod document_counts;
mod document_marks;
mod explain;
mod faults;
mod files_again;
mod json_place;
mod known;
mod new_file;
mod noted;
mod output;
mod over;
mod paths;
mod processors;
mod progress;
mod reason;
mod record_count;
mod row_counter;
mod said;
mod table_names;
mod target;
mod whole_file;
mod write_failure;
mod written;

use counts::Counts;
use counts_file::uncounted_before;
use disk::Disk;
use faults::refused_before;
use noted::Noted;
use oim_convert::ConvertFault;
use oim_run::{Outcome, Request, built_in_told, request_of, tell};
use output::SystemOutputs;
use processors::fitted;
use progress::Progress;
use said::{StandardError, convert_and_tell, explained, told_before};
use std::alloc::{AllocError, Global};
use std::io;
use std::io::{ErrorKind, IsTerminal};
use std::process::ExitCode;
use std::sync::Wait;
use std::thread::Threads;
use write_failure::WriteFailure;
use written::WrittenFiles;

/// Returns the counts of a run, if the command line asks for them.
fn counts_of(alloc: Global, request: &Request) -> Option<Counts> {
    match request.counts {
        Some(_) => Some(Counts::new(alloc)),
        None => None,
    }
}

/// Converts from the system's files to its outputs, with a progress and with counts if the command
/// line asks for them. Returns the exit status.
fn converted<T: Threads + Wait + Sync>(
    rt: &HostRuntime,
    threads: &T,
    alloc: Global,
    request: &Request,
) -> u8 {
    let document = &WriteFailure::new(alloc);
    let beside = &WriteFailure::new(alloc);
    let written = &WrittenFiles::new(rt, request, document.shared());
    let progress = if request.progress {
        Progress::start(rt, rt.stderr().is_terminal())
    } else {
        None
    };
    let progress = progress.as_ref();
    let counts = counts_of(alloc, request);
    let counts = counts.as_ref();
    let disk = &mut Disk {
        rt,
        written,
        progress,
        meta: request.settings.meta.as_str(),
        counts,
    };
    let outputs = &mut SystemOutputs {
        rt,
        request,
        written,
        progress,
        counts,
    };
    let noted = &Noted {
        counts,
        document,
        beside,
    };
    let errors = &mut StandardError::new(rt);
    convert_and_tell(rt, threads, request, disk, outputs, noted, errors)
}

/// Checks what the arguments ask for and runs it. Returns the exit status.
fn asked<T: Threads + Wait + Sync>(
    rt: &HostRuntime,
    threads: &T,
    alloc: Global,
    request: &Request,
) -> u8 {
    if request.whole && request.settings.out.is_none() {
        let _ = rt.eprint("error: --whole wants --out FILE\n");
        return 2;
    }
    let refused = match refused_before(rt, alloc, request) {
        Some(outcome) => Some(outcome),
        None => uncounted_before(rt, alloc, request),
    };
    match refused {
        Some(outcome) => told_before(rt, alloc, request, &outcome),
        None => converted(rt, threads, alloc, request),
    }
}

/// Runs with these arguments, without the program's name. Returns the exit status.
fn started<T: Threads + Wait + Sync>(
    rt: &HostRuntime,
    threads: &T,
    alloc: Global,
    words: &[&str],
) -> u8 {
    if words.is_empty() {
        let (status, _) = built_in_told(
            threads,
            alloc,
            io::writer(rt),
            &mut StandardError::new(rt),
        );
        return status;
    }
    match request_of(alloc, words) {
        Ok(request) => asked(rt, threads, alloc, &fitted(rt, threads, request)),
        Err(error) => explained(rt, alloc, &error),
    }
}

/// Prints that memory ran out. Returns the exit status.
fn no_memory(rt: &HostRuntime) -> u8 {
    let outcome = Outcome::Run(ConvertFault::Memory);
    tell(&mut StandardError::new(rt), rt.alloc(), &outcome)
}

/// Returns the arguments as slices.
fn words_of(alloc: Global, args: &[String]) -> Result<Vec<&str>, AllocError> {
    let mut words = Vec::new(alloc);
    for arg in args {
        words.push(arg.as_str())?;
    }
    Ok(words)
}

/// Runs with these arguments. Returns the exit status.
fn with_args<T: Threads + Wait + Sync>(rt: &HostRuntime, threads: &T, args: &[String]) -> u8 {
    let alloc = rt.alloc();
    match words_of(alloc, args) {
        Ok(words) => started(rt, threads, alloc, words.as_slice()),
        Err(_) => no_memory(rt),
    }
}

/// Runs with the arguments of the process. Returns the exit status.
fn program<T: Threads + Wait + Sync>(rt: &HostRuntime, threads: &T) -> u8 {
    let args = match std::env::args(rt) {
        Ok(args) => args,
        Err(error) if error.kind() == ErrorKind::OutOfMemory => return no_memory(rt),
        Err(_) => {
            let _ = rt.eprintln("error: an argument is not UTF-8");
            return 2;
        }
    };
    match args.skip(1).collect::<Vec<String>>(rt.alloc()) {
        Ok(args) => with_args(rt, threads, args.as_slice()),
        Err(_) => no_memory(rt),
    }
}

fn main(rt: HostRuntime) -> ExitCode {
    ExitCode::from(program(&rt, &rt))
}
