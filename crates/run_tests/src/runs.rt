//! Calls of `oim_run`.

use crate::words::{SettingTrial, WORDS, holds};
use oim_files::{folder_of, report_of};
use oim_json::{Layout, Marked};
use oim_meta::{Limits, Report};
use oim_run::{
    Course, EarlyFault, Folder, METADATA, Outcome, Outputs, Request, RunEnd, Settings, Source,
    TABLE, TYPES, Teller, Texts, VERSION, built_in_told, cannot_write, convert_as, convert_report,
    convert_to, line, request_of, run, run_alone, run_to, shown, status, tell, terminal_line,
};
use std::alloc::{AllocError, Global};
use std::sync::Wait;
use std::thread::Threads;

/// A caller's own folder: it opens the files of the built-in report.
#[derive(Clone, Copy)]
struct BuiltIn;

impl Folder<&'static [u8]> for BuiltIn {
    fn open(&mut self, path: &str) -> Option<&'static [u8]> {
        match path {
            "m.json" => Some(METADATA.as_bytes()),
            "t.csv" => Some(TYPES.as_bytes()),
            "t1.csv" => Some(TABLE.as_bytes()),
            _ => None,
        }
    }
}

/// Runs over a folder with these settings, and checks the end of the document.
fn runs(
    rt: &(impl AllocGlobal + Threads + Wait + Sync),
    settings: &Settings,
) -> Result<bool, AllocError> {
    let mut document = Vec::new(rt.alloc());
    let sink = &mut Marked::new(&mut document);
    let outcome = run(rt, rt.alloc(), settings, &mut BuiltIn, sink);
    let line = line(rt.alloc(), &outcome)?;
    Ok(status(&outcome) == 0 && line.as_str() == "" && document.as_slice().ends_with(b"}}\n"))
}

/// Returns whether the built-in report is converted without a runtime, as the program of this
/// version converts it.
fn runs_alone(alloc: Global) -> bool {
    let mut document = Vec::new(alloc);
    let sink = &mut Marked::new(&mut document);
    let outcome = run_alone(alloc, "m.json", "t.csv", Layout::Lines, &mut BuiltIn, sink);
    status(&outcome) == 0 && document.as_slice().ends_with(b"}}\n") && !VERSION.is_empty()
}

/// Returns whether a request is for a whole document, and explains faults on a terminal only.
fn is_whole(request: &Request) -> bool {
    request.whole && !request.progress && request.explains(true) && !request.explains(false)
}

/// Returns whether the options ask for a whole document, apart from the settings.
fn asks(alloc: Global) -> bool {
    match request_of(alloc, &["m.json", "--types", "t.csv", "--whole"]) {
        Ok(request) => is_whole(&request),
        Err(_) => false,
    }
}

/// Returns whether a path is shown, as a line for a terminal has it.
fn shows(alloc: Global, path: &str) -> bool {
    match shown(alloc, path) {
        Ok(path) => terminal_line(alloc, &Outcome::CannotRead(path)).is_ok(),
        Err(_) => false,
    }
}

/// Returns whether a report is refused for a bad record of its types table.
fn is_of_types(outcome: &Outcome) -> bool {
    match outcome {
        Outcome::Report(Source::Types, fault) => fault.entry.is_some() && status(outcome) == 1,
        _ => false,
    }
}

/// Returns whether a report without types is refused, by a run to a writer after a buffer.
fn refuses(rt: &(impl AllocGlobal + Threads + Wait + Sync), settings: &Settings) -> bool {
    let files = [("m.json", METADATA.as_bytes()), ("t.csv", b"".as_slice())];
    let folder = &mut Texts { files: &files };
    let (refused, _) = run_to(rt, rt.alloc(), settings, folder, Vec::new(rt.alloc()));
    is_of_types(&refused)
}

/// Returns whether the built-in report is converted to a writer.
fn converts_to(rt: &(impl AllocGlobal + Threads + Wait + Sync)) -> bool {
    let (outcome, document) = convert_to(rt, rt.alloc(), Vec::new(rt.alloc()));
    status(&outcome) == 0 && document.as_slice().ends_with(b"}}\n")
}

/// A caller's own outputs, which count the whole documents that were ended.
#[derive(Clone, Copy)]
struct Counting {
    alloc: Global,
    whole: usize,
}

impl Outputs<Vec<u8>> for Counting {
    fn standard_output(&mut self) -> Vec<u8> {
        Vec::new(self.alloc)
    }

    fn file(&mut self, _path: &str) -> Option<Vec<u8>> {
        None
    }

    fn end(&mut self, writer: Vec<u8>, ran: &Outcome) -> RunEnd {
        if matches!(ran, Outcome::Done) && writer.as_slice().ends_with(b"}}\n") {
            self.whole = self.whole.saturating_add(1);
        }
        RunEnd::Kept
    }
}

/// Returns whether one document is converted, to the output of the request.
fn converts(rt: &(impl AllocGlobal + Threads + Wait + Sync), request: &Request) -> bool {
    let mut outputs = Counting {
        alloc: rt.alloc(),
        whole: 0,
    };
    let outcome = convert_as(rt, rt.alloc(), request, &mut BuiltIn, &mut outputs);
    status(&outcome) == 0 && outputs.whole == 1
}

/// Returns whether one document is converted, for the arguments of the built-in report.
fn converts_once(rt: &(impl AllocGlobal + Threads + Wait + Sync)) -> bool {
    match request_of(rt.alloc(), WORDS) {
        Ok(request) => converts(rt, &request),
        Err(_) => false,
    }
}

/// A caller's own teller, which counts the bytes that it was given.
#[derive(Clone, Copy)]
struct Listening {
    bytes: usize,
}

impl Teller for Listening {
    fn is_terminal(&self) -> bool {
        false
    }

    fn say(&mut self, text: &str) {
        self.bytes = self.bytes.saturating_add(text.len());
    }
}

/// Returns whether the teller is given the line of a file that cannot be written.
fn is_told(alloc: Global) -> bool {
    let mut teller = Listening { bytes: 0 };
    tell(&mut teller, alloc, &cannot_write(alloc, "d.json")) == 3 && teller.bytes == 31
}

/// Returns whether the built-in report is converted, and the teller is given nothing.
fn is_silent(rt: &(impl AllocGlobal + Threads + Wait + Sync)) -> bool {
    let mut teller = Listening { bytes: 0 };
    let (status, document) = built_in_told(rt, rt.alloc(), Vec::new(rt.alloc()), &mut teller);
    status == 0 && teller.bytes == 0 && document.as_slice().ends_with(b"}}\n")
}

/// Returns whether the calls with settings answer as they must.
pub(crate) fn hold(rt: &(impl AllocGlobal + Threads + Wait + Sync), settings: &Settings) -> bool {
    matches!(runs(rt, settings), Ok(true)) && refuses(rt, settings)
}

#[test]
fn calls_of_runs(rt: HostRuntime) {
    assert!(rt; holds(&rt, WORDS, SettingTrial::Runs));
}

/// Returns whether the calls without settings answer as they must.
fn hold_without(rt: &(impl AllocGlobal + Threads + Wait + Sync)) -> bool {
    asks(rt.alloc())
        && shows(rt.alloc(), "m.json")
        && is_told(rt.alloc())
        && runs_alone(rt.alloc())
        && converts_to(rt)
        && converts_once(rt)
        && is_silent(rt)
}

#[test]
fn calls_of_other_runs(rt: HostRuntime) {
    assert!(rt; hold_without(&rt));
}

/// Returns whether a report whose tables are given by readers is converted.
fn converts_tables(
    rt: &(impl AllocGlobal + Threads + Wait + Sync),
    report: &Report,
    tables: Vec<Option<&[u8]>>,
) -> bool {
    let mut document = Vec::new(rt.alloc());
    let sink = &mut Marked::new(&mut document);
    let course = Course {
        workers: 1,
        ring: 1,
        limits: Limits::profile(),
        layout: Layout::Compact,
    };
    let outcome = convert_report(rt, rt.alloc(), report, tables, course, sink);
    status(&outcome) == 0 && document.as_slice().ends_with(b"}}\n")
}

/// Returns whether the built-in report is converted.
fn converts_a_report(rt: &(impl AllocGlobal + Threads + Wait + Sync), report: &Report) -> bool {
    match vec![in rt.alloc(); Some(TABLE.as_bytes())] {
        Ok(tables) => converts_tables(rt, report, tables),
        Err(_) => false,
    }
}

/// Returns whether it is converted after its files are read.
fn converts_the_built_in(rt: &(impl AllocGlobal + Threads + Wait + Sync)) -> bool {
    let folder = &mut BuiltIn;
    let report: Result<Report, EarlyFault> = report_of(
        rt.alloc(),
        folder,
        folder_of("m.json"),
        "m.json",
        "t.csv",
    );
    match report {
        Ok(report) => converts_a_report(rt, &report),
        Err(_) => false,
    }
}

#[test]
fn calls_of_conversions_to_outcomes(rt: HostRuntime) {
    assert!(rt; converts_the_built_in(&rt));
}
