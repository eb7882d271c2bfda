//! Reasons why a file cannot be read or written, as far as the system gives them afterwards.
//!
//! Not proved: all of this file.

use crate::paths::parts_of;
use oim_run::Settings;
use std::fs;
use std::fs::OpenOptions;
use std::io::ErrorKind;

/// Returns why nothing can be seen at a path.
fn why_unseen(kind: ErrorKind) -> &'static str {
    match kind {
        ErrorKind::NotFound => "there is no such file",
        ErrorKind::NotADirectory => "a part of its path is not a folder",
        ErrorKind::PermissionDenied => "the system does not let you look into a folder of its path",
        _ => "the system does not find it by this path",
    }
}

/// Returns why a regular file that could not be read cannot be opened. It can be opened if the run
/// writes it.
fn why_closed(rt: &HostRuntime, path: &str) -> &'static str {
    match fs::open(rt, path) {
        Ok(_) => "the run writes it, or it has changed meanwhile",
        Err(error) if error.kind() == ErrorKind::PermissionDenied => "you may not read it",
        Err(_) => "the system does not open it",
    }
}

/// Returns why the file at a path could not be opened for reading. A pipe is not opened again,
/// because that could wait for ever.
pub fn why_unread(rt: &HostRuntime, path: &str) -> &'static str {
    match fs::metadata(rt, path) {
        Ok(metadata) if metadata.is_file() => why_closed(rt, path),
        Ok(_) => "it is not an ordinary file, and the system did not open it",
        Err(error) => why_unseen(error.kind()),
    }
}

/// Returns why a regular file that could not be written cannot be opened for that. It can be opened
/// if the run also reads it.
fn why_kept(rt: &HostRuntime, path: &str) -> &'static str {
    match OpenOptions::new().write(true).open(rt, path) {
        Ok(_) => "the run reads it or writes it twice, or no file can be made beside it",
        Err(error) if error.kind() == ErrorKind::PermissionDenied => "you may not write it",
        Err(_) => "the system does not open it for writing",
    }
}

/// Returns why a file that does not exist could not be made.
fn why_unmade(rt: &HostRuntime, path: &str) -> &'static str {
    let (folder, _) = parts_of(path);
    match fs::metadata(rt, folder) {
        Ok(metadata) if metadata.is_dir() => {
            "no file can be made in its folder, or the run reads it"
        }
        Ok(_) => "a part of its path is not a folder",
        Err(error) if error.kind() == ErrorKind::NotFound => "its folder is not there",
        Err(error) => why_unseen(error.kind()),
    }
}

/// Returns why the file at a path could not be written.
pub fn why_unwritten(rt: &HostRuntime, settings: &Settings, path: &str) -> &'static str {
    if settings.reads(path) {
        return "it is a file of the report, which is only read";
    }
    match fs::metadata(rt, path) {
        Ok(metadata) if metadata.is_file() => why_kept(rt, path),
        Ok(metadata) if metadata.is_dir() => "it is a folder",
        Ok(_) => "it is not an ordinary file, and the system did not open it",
        Err(error) if error.kind() == ErrorKind::NotFound => why_unmade(rt, path),
        Err(error) => why_unseen(error.kind()),
    }
}
