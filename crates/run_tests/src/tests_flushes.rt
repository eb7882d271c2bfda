//! Runs over files in memory, to a writer whose flush fails.

use crate::words::{SettingTrial, WORDS, has_lines, holds};
use oim_run::{METADATA, Settings, TYPES, Texts, convert_to, run_to, status};
use std::io;
use std::io::Write;
use std::sync::Wait;
use std::thread::Threads;

/// A writer that takes all bytes, and whose flush fails.
#[derive(Clone, Copy)]
struct Unflushed;

impl Write for Unflushed {
    fn write(&mut self, bytes: &[u8]) -> io::Result<usize> {
        Ok(bytes.len())
    }

    fn flush(&mut self) -> io::Result<()> {
        Err(io::Error::from(io::ErrorKind::Other))
    }
}

/// The line for a failed flush.
const NOT_FLUSHED: &str = "xbrl-json: output: Write (56)\n";

/// The path of the types table, the bytes of the table, and the line: the document is whole, or a
/// table is refused, or there is no types table.
type FlushCase = (&'static str, &'static [u8], &'static str);

const CASES: &[FlushCase] = &[
    ("t.csv", b"cash\n1\n", NOT_FLUSHED),
    ("t.csv", b"cash\nx\n", NOT_FLUSHED),
    ("none.csv", b"cash\n1\n", "xbrl-json: cannot read t.csv\n"),
];

/// Returns whether a run over these files has this line.
fn ends_unflushed(
    rt: &(impl AllocGlobal + Threads + Wait + Sync),
    settings: &Settings,
    case: &FlushCase,
) -> bool {
    let files = [
        ("m.json", METADATA.as_bytes()),
        (case.0, TYPES.as_bytes()),
        ("t1.csv", case.1),
    ];
    let folder = &mut Texts { files: &files };
    let (outcome, _) = run_to(rt, rt.alloc(), settings, folder, Unflushed);
    has_lines(rt.alloc(), &outcome, case.2) && status(&outcome) == 3
}

/// Returns whether the conversion of the built-in report reports the failed flush.
fn is_built_in_unflushed(rt: &(impl AllocGlobal + Threads + Wait + Sync)) -> bool {
    let (outcome, _) = convert_to(rt, rt.alloc(), Unflushed);
    has_lines(rt.alloc(), &outcome, NOT_FLUSHED) && status(&outcome) == 3
}

/// Returns whether each run has its line.
pub(crate) fn end_unflushed(
    rt: &(impl AllocGlobal + Threads + Wait + Sync),
    settings: &Settings,
) -> bool {
    for case in CASES {
        if !ends_unflushed(rt, settings, case) {
            return false;
        }
    }
    is_built_in_unflushed(rt)
}

#[test]
fn runs_whose_flush_fails(rt: HostRuntime) {
    assert!(rt; holds(&rt, WORDS, SettingTrial::Flushes));
}
