//! The system's outputs: standard output, and the file of `--out`.

ghost use Rattle.std.specs.Io.{WritesAtMost};

use crate::counts::Counts;
use crate::new_file::{NewFile, replaced};
use crate::over::Over;
use crate::paths::reached;
use crate::progress::Progress;
use crate::target::FileId;
use crate::written::WrittenFiles;
use oim_run::{Outcome, Outputs, Request, RunEnd};
use std::fs::Metadata;
use std::io::{Printer, Write};
use std::{fs, io};

/// Where the document is written.
#[derive(Drop)]
enum To<'a> {
    /// Standard output.
    Standard(Printer<'a, HostRuntime>),
    /// The file at the path, which keeps its old content until the first write.
    Over(Over),
    /// A new file, which gets the path once it holds the whole document.
    Beside(NewFile),
}

/// An open output. Its bytes are counted. It refuses every write once the report was seen to read a
/// file that the run writes.
#[derive(Drop)]
pub struct Output<'a> {
    to: To<'a>,
    /// The files that the run writes.
    written: &'a WrittenFiles<'a>,
    /// The progress that counts its bytes, if any.
    progress: Option<&'a Progress<'a>>,
    /// The counts of its facts, if they are asked for.
    counts: Option<&'a Counts>,
}

impl<'a> Output<'a> {
    /// Prepares for more bytes.
    fn prepare(&mut self) -> io::Result<()> {
        self.written.allow()?;
        match &mut self.to {
            To::Over(over) => over.empty(),
            _ => Ok(()),
        }
    }

    /// Writes bytes, as many as the system takes.
    fn write_some(&mut self, buf: &[u8]) -> io::Result<usize>
        ensures { WritesAtMost result buf.now }
    {
        self.prepare()?;
        match &mut self.to {
            To::Standard(to) => to.write(buf),
            To::Over(over) => over.file.write(buf),
            To::Beside(new) => new.file.write(buf),
        }
    }

    /// Writes out what the system holds back.
    fn flush_all(&mut self) -> io::Result<()> {
        self.prepare()?;
        match &mut self.to {
            To::Standard(to) => to.flush(),
            To::Over(over) => over.file.flush(),
            To::Beside(new) => new.file.flush(),
        }
    }
}

impl<'a> Write for Output<'a> {
    fn write(&mut self, buf: &[u8]) -> io::Result<usize> {
        let count = match self.write_some(buf) {
            Ok(count) => count,
            Err(error) => {
                self.written.failure.note(&error);
                return Err(error);
            }
        };
        if let Some(progress) = self.progress {
            progress.count_written(count);
        }
        if let Some(counts) = self.counts {
            counts.take_document(buf.get(..count).unwrap_or(b""));
        }
        Ok(count)
    }

    fn flush(&mut self) -> io::Result<()> {
        match self.flush_all() {
            Ok(()) => Ok(()),
            Err(error) => {
                self.written.failure.note(&error);
                Err(error)
            }
        }
    }
}

/// Removes a file that was made here, because the report reads it: it did not exist before.
fn unmake(rt: &HostRuntime, path: &str) {
    if let Some(path) = reached(rt, rt.alloc(), path) {
        let _ = fs::remove_file(rt, path.as_str());
    }
}

/// The outputs of a run over the system's files.
///
/// Not proved: what they do.
#[derive(Drop)]
pub struct SystemOutputs<'a> {
    /// The system.
    pub rt: &'a HostRuntime,
    /// What the command line asks for.
    pub request: &'a Request,
    /// The files that the run writes, to compare the report's files with.
    pub written: &'a WrittenFiles<'a>,
    /// The progress that counts the bytes written, if any.
    pub progress: Option<&'a Progress<'a>>,
    /// The counts of the facts written, if they are asked for.
    pub counts: Option<&'a Counts>,
}

impl<'a> SystemOutputs<'a> {
    /// Returns the writer to this.
    fn writer(&self, to: To<'a>) -> Output<'a> {
        Output {
            to,
            written: self.written,
            progress: self.progress,
            counts: self.counts,
        }
    }

    /// Whether the file at a path is one of the document's.
    fn reads(&self, path: &str) -> bool {
        self.written.look_at(&fs::metadata(self.rt, path))
    }

    /// Whether the metadata or the types table is one of the document's files.
    fn reads_one(&self) -> bool {
        let settings = &self.request.settings;
        let meta = self.reads(settings.meta.as_str());
        let types = self.reads(settings.types.as_str());
        meta || types
    }

    /// Opens the file at a path for writing over it, and makes it if it does not exist. Returns
    /// `None` if it cannot be written, or if it is the metadata or the types table. Then it is
    /// unchanged.
    fn over(&self, path: &str) -> Option<To<'a>> {
        let over = Over::open(self.rt, path)?;
        self.written.are(over.id, None);
        if !self.reads_one() {
            return Some(To::Over(over));
        }
        if over.is_new {
            unmake(self.rt, path);
        }
        None
    }

    /// Makes a new file next to the one at a path. Returns `None` if no such file can be made, or
    /// if the one at the path is the metadata or the types table.
    fn beside(&self, path: &str, old: &Option<Metadata>) -> Option<To<'a>> {
        let id = match old {
            Some(old) => FileId::of(old),
            None => None,
        };
        let new = NewFile::make(self.rt, self.rt.alloc(), path, old)?;
        self.written.are(id, new.id());
        if !self.reads_one() {
            return Some(To::Beside(new));
        }
        new.remove(self.rt);
        None
    }

    /// Opens the file at a path. With `--whole`, a regular file or one that does not exist is
    /// replaced only once the document is whole.
    fn open(&self, path: &str) -> Option<To<'a>> {
        if !self.request.whole {
            return self.over(path);
        }
        match replaced(self.rt, path) {
            Some(old) => self.beside(path, &old),
            None => self.over(path),
        }
    }

    /// Removes the file that was written over, if it was made here and the report reads a file that
    /// the run writes.
    fn end_over(&self, is_new: bool) -> RunEnd {
        let how = self.written.ending();
        if is_new && !matches!(how, RunEnd::Kept) {
            if let Some(path) = &self.request.settings.out {
                unmake(self.rt, path.as_str());
            }
        }
        how
    }

    /// Gives the new file the document's name if the run ended well, otherwise removes it.
    fn end_beside(&self, new: NewFile, ran: &Outcome) -> RunEnd {
        let how = self.written.ending();
        if !matches!(how, RunEnd::Kept) || !matches!(ran, Outcome::Done) {
            new.remove(self.rt);
            return how;
        }
        match new.take_name(self.rt) {
            Ok(()) => RunEnd::Kept,
            Err(error) => {
                self.written.failure.note(&error);
                RunEnd::NotKept
            }
        }
    }
}

impl<'a> Outputs<Output<'a>> for SystemOutputs<'a> {
    fn standard_output(&mut self) -> Output<'a> {
        self.writer(To::Standard(io::writer(self.rt)))
    }

    fn file(&mut self, path: &str) -> Option<Output<'a>> {
        match self.open(path) {
            Some(to) => Some(self.writer(to)),
            None => None,
        }
    }

    fn end(&mut self, writer: Output<'a>, ran: &Outcome) -> RunEnd {
        if let Some(progress) = self.progress {
            progress.end();
        }
        let Output {
            to,
            written: _,
            progress: _,
            counts: _,
        } = writer;
        match to {
            To::Standard(_) => self.written.ending(),
            To::Over(over) => self.end_over(over.is_new),
            To::Beside(new) => self.end_beside(new, ran),
        }
    }
}
