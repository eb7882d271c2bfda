//! The file that a path leads to.

use crate::paths::true_path;
use std::fs::Metadata;
use std::os::unix::fs::MetadataExt;
use std::{fs, io};

/// The identity of a file, whatever its path: its device and its number there.
#[derive(Clone, Copy)]
pub struct FileId {
    device: u64,
    inode: u64,
}

impl FileId {
    /// Returns the identity of the regular file with this metadata. `None` for other files, because
    /// a write removes nothing from them.
    pub fn of(metadata: &Metadata) -> Option<FileId> {
        if metadata.is_file() {
            Some(FileId {
                device: metadata.dev(),
                inode: metadata.ino(),
            })
        } else {
            None
        }
    }

    /// Whether this metadata is that of the file.
    pub fn has(self, metadata: &Metadata) -> bool {
        metadata.is_file() && self.device == metadata.dev() && self.inode == metadata.ino()
    }
}

/// What a path leads to.
#[derive(Drop)]
pub enum Target {
    /// A regular file.
    File(FileId),
    /// A file that does not exist, by its path with links resolved.
    Missing(String),
    /// Something else, or unknown.
    Other,
}

impl Target {
    /// Returns what a path leads to.
    pub fn of(rt: &HostRuntime, path: &str) -> Target {
        match fs::metadata(rt, path) {
            Ok(metadata) => match FileId::of(&metadata) {
                Some(file) => Target::File(file),
                None => Target::Other,
            },
            Err(_) => match true_path(rt, rt.alloc(), path) {
                Some(path) => Target::Missing(path),
                None => Target::Other,
            },
        }
    }

    /// Whether a path with this metadata leads to the same regular file, or to the same one that
    /// does not exist.
    pub fn is(&self, rt: &HostRuntime, path: &str, metadata: &io::Result<Metadata>) -> bool {
        match (self, metadata) {
            (Target::File(file), Ok(metadata)) => file.has(metadata),
            (Target::Missing(place), Err(_)) => match true_path(rt, rt.alloc(), path) {
                Some(path) => path.as_str() == place.as_str(),
                None => false,
            },
            _ => false,
        }
    }

    /// Whether a path leads to the same file. Looks up its metadata.
    pub fn is_at(&self, rt: &HostRuntime, path: &str) -> bool {
        self.is(rt, path, &fs::metadata(rt, path))
    }
}
