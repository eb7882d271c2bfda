//! Runs over the test's own folder, which only opens files, and whose readers fail.

use crate::words::{SettingTrial, has_lines, holds};
use oim_json::Marked;
use oim_run::{Folder, METADATA, Settings, TABLE, TYPES, run};
use std::io;
use std::io::Read;
use std::sync::Wait;
use std::thread::Threads;

/// A reader of bytes that fails after this many of them were read.
#[derive(Clone, Copy)]
struct Failing {
    bytes: &'static [u8],
    left: usize,
}

impl Read for Failing {
    fn read(&mut self, buf: &mut [u8]) -> io::Result<usize> {
        if self.left == 0 {
            return Err(io::Error::from(io::ErrorKind::Other));
        }
        let most = self.left.min(self.bytes.len()).min(buf.len());
        let (now, later) = self.bytes.split_at(most);
        buf[..most].copy_from_slice(now);
        self.bytes = later;
        self.left -= most;
        Ok(most)
    }
}

/// The built-in report as a folder: the reader of the file at `path` fails after `left` bytes were
/// read.
#[derive(Clone, Copy)]
struct Opening {
    path: &'static str,
    left: usize,
}

impl Folder<Failing> for Opening {
    fn open(&mut self, path: &str) -> Option<Failing> {
        let bytes = match path {
            "m.json" => METADATA.as_bytes(),
            "t.csv" => TYPES.as_bytes(),
            "t1.csv" => TABLE.as_bytes(),
            _ => return None,
        };
        let left = if path == self.path {
            self.left
        } else {
            usize::MAX
        };
        Some(Failing { bytes, left })
    }
}

/// A file, its length, and the line for a failed read of it.
type FailingFile = (&'static str, usize, &'static str);

const FILES: &[FailingFile] = &[
    ("m.json", METADATA.len(), "xbrl-json: report: Read (17)\n"),
    ("t.csv", TYPES.len(), "xbrl-json: types: Read (17)\n"),
    (
        "t1.csv",
        TABLE.len(),
        "xbrl-json: table t1, row 0, column 0: Read (21)\n",
    ),
];

/// Returns whether a run has these lines if its reader of this file fails after this many bytes.
fn says(
    rt: &(impl AllocGlobal + Threads + Wait + Sync),
    settings: &Settings,
    path: &'static str,
    left: usize,
    lines: &str,
) -> bool {
    let mut document = Vec::new(rt.alloc());
    let folder = &mut Opening { path, left };
    let sink = &mut Marked::new(&mut document);
    let outcome = run(rt, rt.alloc(), settings, folder, sink);
    has_lines(rt.alloc(), &outcome, lines)
}

/// Returns whether it has if the reader fails anywhere in a file, and no lines if it does not fail.
fn fails_anywhere(
    rt: &(impl AllocGlobal + Threads + Wait + Sync),
    settings: &Settings,
    file: &FailingFile,
) -> bool {
    for left in 0..=file.1 {
        if !says(rt, settings, file.0, left, file.2) {
            return false;
        }
    }
    says(rt, settings, file.0, usize::MAX, "")
}

/// Does the same for each file.
pub(crate) fn fail(rt: &(impl AllocGlobal + Threads + Wait + Sync), settings: &Settings) -> bool {
    for file in FILES {
        if !fails_anywhere(rt, settings, file) {
            return false;
        }
    }
    true
}

/// The arguments for this number of workers.
const ONE: &[&str] = &["m.json", "--types", "t.csv", "--workers", "1"];

const TWO: &[&str] = &["m.json", "--types", "t.csv", "--workers", "2"];

#[test]
fn readers_that_fail_after_each_byte(rt: HostRuntime) {
    assert!(rt; holds(&rt, ONE, SettingTrial::Folders) && holds(&rt, TWO, SettingTrial::Folders));
}
