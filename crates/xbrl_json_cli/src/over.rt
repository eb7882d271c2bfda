//! The file of a document, which keeps its old content until the document is written.

use crate::target::FileId;
use std::fs::{File, OpenOptions};
use std::io::ErrorKind;
use std::{fs, io};

/// A file that is open for writing, with its old content.
#[derive(Drop)]
pub struct Over {
    /// The file, open at its start.
    pub file: File,
    /// Its identity, if it is a regular file.
    pub id: Option<FileId>,
    /// Whether it is empty, or cannot be emptied.
    is_empty: bool,
    /// Whether it was made when it was opened.
    pub is_new: bool,
}

impl Over {
    /// Makes it from a file that was opened or made.
    fn of(file: File, is_new: bool) -> Option<Over> {
        let metadata = file.metadata().ok()?;
        let id = FileId::of(&metadata);
        let is_empty = !metadata.is_file() || metadata.len() == 0;
        Some(Over {
            file,
            id,
            is_empty,
            is_new,
        })
    }

    /// Opens the file at a path without changing it, or makes it if it does not exist. Returns
    /// `None` if the system refuses that.
    pub fn open(rt: &HostRuntime, path: &str) -> Option<Over> {
        match OpenOptions::new().write(true).open(rt, path) {
            Ok(file) => Over::of(file, false),
            Err(error) if error.kind() == ErrorKind::NotFound => {
                Over::of(fs::create(rt, path).ok()?, true)
            }
            Err(_) => None,
        }
    }

    /// Empties the file before the first byte is written, or when it is flushed.
    pub fn empty(&mut self) -> io::Result<()> {
        if !self.is_empty {
            self.file.set_len(0)?;
            self.is_empty = true;
        }
        Ok(())
    }
}
