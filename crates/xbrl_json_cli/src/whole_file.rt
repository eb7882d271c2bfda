//! Files that are written after a run, and replaced only by whole ones.
//!
//! Not proved: what is written to the system's files.

use crate::new_file::{NewFile, replaced};
use crate::write_failure::WriteFailure;
use std::alloc::Global;
use std::fs::OpenOptions;
use std::io::Write;
use std::{fs, io};

/// What such a file gets.
pub trait Content {
    /// Writes all of it.
    fn write_to<W: Write + Drop>(&mut self, to: W) -> io::Result<()>;
}

/// Makes a new file next to the one at a path, if that is a regular file or does not exist.
///
/// Returns `Some(None)` for any other file, which is written directly, and `None` if no new file
/// can be made.
fn file_beside(rt: &HostRuntime, alloc: Global, path: &str) -> Option<Option<NewFile>> {
    let Some(old) = replaced(rt, path) else {
        return Some(None);
    };
    match NewFile::make(rt, alloc, path, &old) {
        Some(new) => Some(Some(new)),
        None => None,
    }
}

/// Whether the file at a path can be written, as far as can be known before the run: a new file can
/// be made next to it, or it is neither a regular file nor a folder.
///
/// A pipe is not opened to find out, because closing it again would end its reader's input.
pub fn can_be_made(rt: &HostRuntime, alloc: Global, path: &str) -> bool {
    match file_beside(rt, alloc, path) {
        Some(Some(new)) => {
            new.remove(rt);
            true
        }
        Some(None) => match fs::metadata(rt, path) {
            Ok(metadata) => !metadata.is_dir(),
            Err(_) => true,
        },
        None => false,
    }
}

/// Writes a new file, and gives it its name.
fn write_new<C: Content>(rt: &HostRuntime, content: &mut C, new: NewFile) -> io::Result<()> {
    let mut new = new;
    match content.write_to(&mut new.file) {
        Ok(()) => new.take_name(rt),
        Err(error) => {
            new.remove(rt);
            Err(error)
        }
    }
}

/// Writes the file at a path directly.
fn write_straight<C: Content>(rt: &HostRuntime, content: &mut C, path: &str) -> io::Result<()> {
    let mut file = OpenOptions::new().write(true).create(true).open(rt, path)?;
    content.write_to(&mut file)
}

/// Writes the file at a path, and returns whether it is whole. `failure` gets why a write failed.
pub fn write_whole<C: Content>(
    rt: &HostRuntime,
    alloc: Global,
    content: &mut C,
    path: &str,
    failure: &WriteFailure,
) -> bool {
    let written = match file_beside(rt, alloc, path) {
        Some(Some(new)) => write_new(rt, content, new),
        Some(None) => write_straight(rt, content, path),
        None => return false,
    };
    match written {
        Ok(()) => true,
        Err(error) => {
            failure.note(&error);
            false
        }
    }
}
