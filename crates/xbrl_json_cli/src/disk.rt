//! The system's files, as the files of a report.
//!
//! Not proved: all of this file. Tests over real files show what it does.

ghost use Rattle.std.specs.Io.{ReadsAtMost};

use crate::counts::Counts;
use crate::progress::Progress;
use crate::row_counter::RowCounter;
use crate::written::WrittenFiles;
use oim_run::Folder;
use std::fs::File;
use std::io::{ErrorKind, Read};
use std::{fs, io};

/// An open file of the system, or the path of one.
#[derive(Drop)]
enum DiskFileState<'a> {
    /// The open file.
    Open(File),
    /// The path of a file that is not open yet.
    Named(&'a HostRuntime, String),
}

/// Reads from a file. If a signal interrupts the read before any byte, it reads again.
fn read_through_signals<F: Read>(file: &mut F, buf: &mut [u8]) -> io::Result<usize>
    ensures { ReadsAtMost result buf.new }
{
    for _ in 0..u64::MAX {
        match file.read(buf) {
            Ok(count) => return Ok(count),
            Err(error) => {
                if error.kind() != ErrorKind::Interrupted {
                    return Err(error);
                }
            }
        }
    }
    Err(io::Error::from(ErrorKind::Interrupted))
}

impl<'a> DiskFileState<'a> {
    /// Reads from the file, and opens it first if it is not open.
    fn read(&mut self, buf: &mut [u8]) -> io::Result<usize>
        ensures { ReadsAtMost result buf.new }
    {
        if let DiskFileState::Named(rt, path) = self {
            *self = DiskFileState::Open(fs::open(*rt, path.as_str())?);
        }
        match self {
            DiskFileState::Open(file) => read_through_signals(file, buf),
            DiskFileState::Named(_, _) => Err(io::Error::from(ErrorKind::NotFound)),
        }
    }
}

/// What is counted in the bytes of a file, for `--counts`.
#[derive(Drop)]
enum Counted<'a> {
    /// Nothing.
    Nothing,
    /// The identifiers of the report's tables: the file is the metadata.
    Names(&'a Counts),
    /// The rows of a table.
    Rows(RowCounter),
}

impl<'a> Counted<'a> {
    /// Takes the first bytes of a buffer, as many as were read.
    fn take(&mut self, buf: &[u8], count: usize) {
        let bytes = match self {
            Counted::Nothing => return,
            _ => buf.get(..count).unwrap_or(b""),
        };
        match self {
            Counted::Nothing => {}
            Counted::Names(counts) => counts.take_metadata(bytes),
            Counted::Rows(counter) => counter.take(bytes),
        }
    }
}

/// A file of the system, which is opened at its first read unless it is already open.
///
/// If it has a progress, its bytes are counted, and dropping it counts its table as done.
pub struct DiskFile<'a> {
    source: DiskFileState<'a>,
    /// The progress that counts its bytes, if any.
    progress: Option<&'a Progress<'a>>,
    /// What `--counts` counts in its bytes.
    counted: Counted<'a>,
}

impl<'a> DiskFile<'a> {
    /// Makes it from an open file, whose bytes are not counted.
    pub fn of(file: File) -> DiskFile<'a> {
        DiskFile {
            source: DiskFileState::Open(file),
            progress: None,
            counted: Counted::Nothing,
        }
    }
}

impl<'a> Drop for DiskFile<'a> {
    fn drop(self) {
        let Self {
            source: _,
            progress,
            counted: _,
        } = self;
        if let Some(progress) = progress {
            progress.table_done();
        }
    }
}

impl<'a> Read for DiskFile<'a> {
    fn read(&mut self, buf: &mut [u8]) -> io::Result<usize> {
        let count = self.source.read(buf)?;
        if let Some(progress) = self.progress {
            progress.count_read(count);
        }
        self.counted.take(buf, count);
        Ok(count)
    }
}

/// The system's files.
///
/// `open` returns `None` for a file that cannot be opened or that the run writes. `find` returns
/// `None` only if the system reports that the file does not exist. Any other file that cannot be
/// opened fails at its first read.
#[derive(Drop)]
pub struct Disk<'a> {
    /// The system.
    pub rt: &'a HostRuntime,
    /// The files that the run writes, to compare each file of the report with.
    pub written: &'a WrittenFiles<'a>,
    /// The progress that counts each file found as a table, if any.
    pub progress: Option<&'a Progress<'a>>,
    /// The path of the metadata.
    pub meta: &'a str,
    /// The counts of the tables, if they are asked for.
    pub counts: Option<&'a Counts>,
}

/// Returns whether the system reports that a file does not exist: it was not found, or a part of
/// its path is not a folder.
fn is_missing(metadata: &io::Result<fs::Metadata>) -> bool {
    match metadata {
        Ok(_) => false,
        Err(error) => matches!(error.kind(), ErrorKind::NotFound | ErrorKind::NotADirectory),
    }
}

impl<'a> Disk<'a> {
    /// Returns what is counted in a table's file at a path.
    fn counted_table(&self, path: &str, is_missing: bool) -> Counted<'a> {
        let Some(counts) = self.counts else {
            return Counted::Nothing;
        };
        if is_missing {
            counts.table_missing(self.meta, path);
            return Counted::Nothing;
        }
        match counts.table_found(self.meta, path) {
            Some(counter) => Counted::Rows(counter),
            None => Counted::Nothing,
        }
    }
}

impl<'a> Folder<DiskFile<'a>> for Disk<'a> {
    fn open(&mut self, path: &str) -> Option<DiskFile<'a>> {
        let Ok(file) = fs::open(self.rt, path) else {
            return None;
        };
        if self.written.look_at_path(path, &file.metadata()) {
            return None;
        }
        let counted = match self.counts {
            Some(counts) if counts.opens_metadata() => Counted::Names(counts),
            _ => Counted::Nothing,
        };
        Some(DiskFile {
            source: DiskFileState::Open(file),
            progress: None,
            counted,
        })
    }

    fn find(&mut self, path: String) -> Option<DiskFile<'a>> {
        let metadata = fs::metadata(self.rt, path.as_str());
        self.written.look_at_path(path.as_str(), &metadata);
        let is_missing = is_missing(&metadata);
        if let Some(progress) = self.progress {
            let size = match &metadata {
                Ok(metadata) if metadata.is_file() => Some(metadata.len()),
                _ => None,
            };
            progress.table_found(is_missing, size);
        }
        let counted = self.counted_table(path.as_str(), is_missing);
        if is_missing {
            return None;
        }
        Some(DiskFile {
            source: DiskFileState::Named(self.rt, path),
            progress: self.progress,
            counted,
        })
    }
}
