//! The system's files, read a second time. One of up to 64 MiB is opened once for all its readers.
//!
//! Not proved: all of this file.

ghost use Rattle.std.specs.Prelude.{◌≤◌, length};

use crate::disk::DiskFile;
use oim_run::Folder;
use std::alloc::{AllocError, Global};
use std::fs::File;
use std::io::Read;
use std::rc::Rc;
use std::{fs, io};

/// How many bytes of files are held at most: those of the longest metadata.
const MOST: u64 = 67_108_864;

/// A file that is read a second time.
#[derive(Drop)]
pub enum FileAgain<'a> {
    /// The bytes of a file that is held, and how many of them were read.
    Held(Rc<Vec<u8>>, usize),
    /// A file that is too long to hold.
    Open(DiskFile<'a>),
}

/// Copies bytes into the buffer, from a place on. Returns how many.
fn read_held(bytes: &[u8], at: usize, buf: &mut [u8]) -> usize
    ensures { result ≤ length buf.new }
{
    let rest = if at < bytes.len() { &bytes[at..] } else { b"" };
    let most = rest.len().min(buf.len());
    buf[..most].copy_from_slice(&rest[..most]);
    most
}

impl<'a> Read for FileAgain<'a> {
    fn read(&mut self, buf: &mut [u8]) -> io::Result<usize> {
        match self {
            FileAgain::Held(bytes, at) => {
                let count = read_held(bytes.as_ref().as_slice(), *at, buf);
                *at = at.saturating_add(count);
                Ok(count)
            }
            FileAgain::Open(file) => file.read(buf),
        }
    }
}

/// A file that is held.
#[derive(Drop)]
struct HeldFile {
    path: String,
    bytes: Rc<Vec<u8>>,
}

/// The system's files that can be read a second time: only regular files.
///
/// A pipe is not opened, because that could wait for ever.
#[derive(Drop)]
pub struct FilesAgain<'a> {
    rt: &'a HostRuntime,
    alloc: Global,
    held: Vec<HeldFile>,
    /// How many bytes more may be held.
    space: u64,
}

/// Returns the bytes of a file, if there are at most `MOST`.
fn bytes_of(alloc: Global, file: File) -> Option<Rc<Vec<u8>>> {
    let mut bytes = Vec::new(alloc);
    let mut first = DiskFile::of(file).take(MOST + 1);
    match first.read_to_end(&mut bytes) {
        Ok(count) if count as u64 <= MOST => Rc::new(alloc, bytes).ok(),
        _ => None,
    }
}

impl<'a> FilesAgain<'a> {
    /// Holds no file yet.
    pub fn new(rt: &'a HostRuntime, alloc: Global) -> FilesAgain<'a> {
        FilesAgain {
            rt,
            alloc,
            held: Vec::new(alloc),
            space: MOST,
        }
    }

    /// Returns the bytes of the file at this path, if it is held.
    fn held_at(&self, path: &str) -> Option<Rc<Vec<u8>>> {
        for file in &self.held {
            if file.path.as_str() == path {
                return file.bytes.clone().ok();
            }
        }
        None
    }

    /// Holds the bytes of the file at this path. Lets all other files go if there is no space.
    fn hold(&mut self, path: &str, bytes: &Rc<Vec<u8>>) -> Result<(), AllocError> {
        let len = bytes.as_ref().len() as u64;
        if len > self.space {
            self.held.clear();
            self.space = MOST;
        }
        self.held.push(HeldFile {
            path: String::from_str(self.alloc, path)?,
            bytes: bytes.clone()?,
        })?;
        self.space = self.space.saturating_sub(len);
        Ok(())
    }

    /// Opens the file at this path.
    fn opened(&self, path: &str) -> Option<File> {
        fs::open(self.rt, path).ok()
    }
}

impl<'a> Folder<FileAgain<'a>> for FilesAgain<'a> {
    fn open(&mut self, path: &str) -> Option<FileAgain<'a>> {
        if let Some(bytes) = self.held_at(path) {
            return Some(FileAgain::Held(bytes, 0));
        }
        let metadata = fs::metadata(self.rt, path).ok()?;
        if !metadata.is_file() {
            return None;
        }
        if metadata.len() <= MOST {
            if let Some(bytes) = bytes_of(self.alloc, self.opened(path)?) {
                let _ = self.hold(path, &bytes);
                return Some(FileAgain::Held(bytes, 0));
            }
        }
        Some(FileAgain::Open(DiskFile::of(self.opened(path)?)))
    }
}
