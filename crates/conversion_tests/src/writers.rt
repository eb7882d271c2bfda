//! The writer of these tests, which takes no memory.

use std::io;
use std::io::Write;
use std::sync::atomic::{AtomicUsize, Ordering};

/// A writer that compares the bytes that it takes with a document: at most `most` bytes per call,
/// and `room` bytes in all. After that it fails, or answers 0, and counts its calls.
#[derive(Clone, Copy)]
pub(crate) struct Narrow<'a> {
    left: &'a [u8],
    most: usize,
    room: usize,
    fails: bool,
    refused: u32,
    is_same: bool,
    taken: Option<&'a AtomicUsize>,
}

/// Returns such a writer that took nothing yet.
pub(crate) fn taking(document: &[u8], most: usize, room: usize, fails: bool) -> Narrow<'_> {
    Narrow {
        left: document,
        most,
        room,
        fails,
        refused: 0,
        is_same: true,
        taken: None,
    }
}

/// Returns a writer that takes the whole document.
pub(crate) fn taking_all(document: &[u8]) -> Narrow<'_> {
    taking(document, usize::MAX, usize::MAX, true)
}

/// Returns a writer that does, and counts the bytes where others see it.
pub(crate) fn counting<'a>(document: &'a [u8], taken: &'a AtomicUsize) -> Narrow<'a> {
    Narrow {
        taken: Some(taken),
        ..taking_all(document)
    }
}

impl Narrow<'_> {
    /// Takes these bytes.
    fn take(&mut self, bytes: &[u8]) {
        match self.left.strip_prefix(bytes) {
            Some(left) => self.left = left,
            None => self.is_same = false,
        }
        if let Some(taken) = self.taken {
            taken.fetch_add(bytes.len(), Ordering::SeqCst);
        }
    }

    /// Returns whether it took the document except this many bytes at its end, and refused this
    /// often.
    pub(crate) fn has_left(&self, left: usize, refused: u32) -> bool {
        self.is_same && self.left.len() == left && self.refused == refused
    }
}

impl Write for Narrow<'_> {
    fn write(&mut self, bytes: &[u8]) -> io::Result<usize> {
        let count = bytes.len().min(self.most).min(self.room);
        if count > 0 {
            self.room -= count;
            self.take(&bytes[..count]);
            return Ok(count);
        }
        self.refused = self.refused.saturating_add(1);
        if self.fails {
            return Err(io::Error::from(io::ErrorKind::Other));
        }
        Ok(0)
    }

    fn flush(&mut self) -> io::Result<()> {
        Ok(())
    }
}
