//! A new file next to an output's, which takes its name once it is whole.

use crate::paths::{reached, sync_folder};
use crate::target::FileId;
use std::alloc::{AllocError, Global};
use std::fs::{File, Metadata, OpenOptions};
use std::io::ErrorKind;
use std::os::unix::fs::OpenOptionsExt;
use std::{fs, io};

/// The number of names that are tried for a new file.
const MOST_NAMES: u32 = 100;

/// The permissions of a file that only its owner reads and writes.
const PRIVATE: u32 = 0o600;

/// The permissions of a file that everyone reads and writes, before the system's mask applies.
const PUBLIC: u32 = 0o666;

/// The new file, and the path that it will get.
#[derive(Drop)]
pub struct NewFile {
    /// The file, open for writing.
    pub file: File,
    /// Its path.
    path: String,
    /// The path of the output's file, which it will get.
    target: String,
}

/// Returns the path of a new file next to an output's, the `n`th that is tried.
fn path_beside(alloc: Global, target: &str, n: u32) -> Result<String, AllocError> {
    if n == 0 {
        format!(in alloc; "{target}.new")
    } else {
        format!(in alloc; "{target}.new{n}")
    }
}

/// Returns the metadata of the regular file at a path, which a new one can replace. `Some(None)` if
/// nothing is there, and `None` if something else is.
pub fn replaced(rt: &HostRuntime, path: &str) -> Option<Option<Metadata>> {
    match fs::metadata(rt, path) {
        Ok(old) if old.is_file() => Some(Some(old)),
        Err(_) if fs::symlink_metadata(rt, path).is_err() => Some(None),
        _ => None,
    }
}

/// Makes a file that does not exist yet with these permissions, less what the system's mask takes
/// away, and returns it with its path.
fn made(rt: &HostRuntime, alloc: Global, target: &str, mode: u32) -> Option<(File, String)> {
    for n in 0..MOST_NAMES {
        let path = path_beside(alloc, target, n).ok()?;
        match OpenOptions::new()
            .write(true)
            .create_new(true)
            .mode(mode)
            .open(rt, path.as_str())
        {
            Ok(file) => return Some((file, path)),
            Err(error) if error.kind() == ErrorKind::AlreadyExists => {}
            Err(_) => return None,
        }
    }
    None
}

impl NewFile {
    /// Makes a new file next to the one at a path, with the permissions of that one if it exists.
    ///
    /// At no moment can anyone read it who could not read the old one. Returns `None` if the system
    /// refuses it, or memory runs out.
    pub fn make(
        rt: &HostRuntime,
        alloc: Global,
        path: &str,
        old: &Option<Metadata>,
    ) -> Option<NewFile> {
        let target = reached(rt, alloc, path)?;
        let mode = if old.is_some() { PRIVATE } else { PUBLIC };
        let (file, path) = made(rt, alloc, target.as_str(), mode)?;
        let new = NewFile { file, path, target };
        if let Some(old) = old {
            if new.file.set_permissions(old.permissions()).is_err() {
                new.remove(rt);
                return None;
            }
        }
        Some(new)
    }

    /// Returns its identity, if the system gives it.
    pub fn id(&self) -> Option<FileId> {
        match self.file.metadata() {
            Ok(metadata) => FileId::of(&metadata),
            Err(_) => None,
        }
    }

    /// Writes it to the disk, then gives it the output's name.
    fn rename(&self, rt: &HostRuntime) -> io::Result<()> {
        self.file.sync_all()?;
        fs::rename(rt, self.path.as_str(), self.target.as_str())
    }

    /// Writes it to the disk, and gives it the output's name. If that fails, removes it.
    pub fn take_name(self, rt: &HostRuntime) -> io::Result<()> {
        let named = self.rename(rt);
        if named.is_ok() {
            sync_folder(rt, self.target.as_str());
        } else {
            self.remove(rt);
        }
        named
    }

    /// Removes it. If the system refuses that, it stays.
    pub fn remove(self, rt: &HostRuntime) {
        let _ = fs::remove_file(rt, self.path.as_str());
    }
}
