//! Why a write to an output failed.
//!
//! Not proved: all of this file.

use std::alloc::Global;
use std::cell::Cell;
use std::io;
use std::io::ErrorKind;
use std::rc::Rc;

/// What is said where the kind of an error says no more.
const UNKNOWN: &str = "the system refused a write, or it is closed";

/// The kind of the first error of an output.
#[derive(Drop)]
pub struct WriteFailure {
    /// The kind, which all that are shared have; `None` if memory ran out for it.
    kind: Option<Rc<Cell<Option<ErrorKind>>>>,
}

impl WriteFailure {
    /// Stays without an error.
    pub fn none() -> WriteFailure {
        WriteFailure { kind: None }
    }

    /// Starts without an error.
    pub fn new(alloc: Global) -> WriteFailure {
        WriteFailure {
            kind: Rc::new(alloc, Cell::new(None)).ok(),
        }
    }

    /// Returns one that has the same error at all times.
    pub fn shared(&self) -> WriteFailure {
        match &self.kind {
            Some(kind) => WriteFailure {
                kind: kind.clone().ok(),
            },
            None => WriteFailure::none(),
        }
    }

    /// Returns the kind of the error, if there is one.
    fn first(&self) -> Option<ErrorKind> {
        match &self.kind {
            Some(kind) => kind.as_ref().get(),
            None => None,
        }
    }

    /// Keeps the kind of an error, if it is the first.
    pub fn note(&self, error: &io::Error) {
        if let Some(kind) = &self.kind {
            if kind.as_ref().get().is_none() {
                kind.as_ref().set(Some(error.kind()));
            }
        }
    }

    /// Returns why the write failed, as a sentence without capital and full stop, or None if no
    /// error was noted.
    pub fn noted(&self) -> Option<&'static str> {
        Some(match self.first()? {
            ErrorKind::StorageFull => "no space is left on its device",
            ErrorKind::QuotaExceeded => "its owner's quota of the device is used up",
            ErrorKind::FileTooLarge => {
                "the file grew past the largest size that is allowed (ulimit -f)"
            }
            ErrorKind::BrokenPipe => "the program that reads it has ended: its pipe is closed",
            ErrorKind::ReadOnlyFilesystem => "its device is only for reading",
            ErrorKind::PermissionDenied => "the system does not let you write it",
            _ => UNKNOWN,
        })
    }

    /// Returns why the write failed, as `noted` does, also if no error was noted.
    pub fn why(&self) -> &'static str {
        self.noted().unwrap_or(UNKNOWN)
    }
}
