//! The reader of these tests, and lists of readers.

use std::alloc::{AllocError, Global};
use std::io::Read;
use std::sync::atomic::{AtomicUsize, Ordering};
use std::{io, thread};

/// A reader's behaviour at its end: it ends; it fails; it counts itself and waits until this many
/// are counted; or it waits until a count is this.
#[derive(Clone, Copy)]
pub(crate) enum AtEnd<'a> {
    Ends,
    Fails,
    Meets(&'a AtomicUsize, usize),
    Waits(&'a AtomicUsize, usize),
}

/// A reader of these bytes and then of the same row forever, if there is one, which gives at most
/// `step` bytes per call.
#[derive(Clone, Copy)]
pub(crate) struct Slow<'a> {
    pub(crate) bytes: &'a [u8],
    pub(crate) row: &'a [u8],
    pub(crate) step: usize,
    pub(crate) at_end: AtEnd<'a>,
}

/// Returns a reader of these bytes that does this at its end.
pub(crate) fn ending<'a>(bytes: &'a [u8], step: usize, at_end: AtEnd<'a>) -> Slow<'a> {
    Slow {
        bytes,
        row: b"",
        step,
        at_end,
    }
}

/// The number of turns that a reader may wait. Then the test fails, so that a broken schedule shows
/// within the minute that a test has.
const TURNS: u32 = 20_000_000;

/// Returns whether a count reaches this value in time.
fn comes_to(count: &AtomicUsize, wanted: usize) -> bool {
    for _ in 0..TURNS {
        if count.load(Ordering::SeqCst) >= wanted {
            return true;
        }
        thread::yield_now();
    }
    false
}

impl Slow<'_> {
    /// Returns whether the reader may end.
    fn may_end(&mut self) -> bool {
        match self.at_end {
            AtEnd::Ends => true,
            AtEnd::Fails => false,
            AtEnd::Waits(count, wanted) => comes_to(count, wanted),
            AtEnd::Meets(count, wanted) => {
                self.at_end = AtEnd::Ends;
                count.fetch_add(1, Ordering::SeqCst);
                comes_to(count, wanted)
            }
        }
    }
}

impl Read for Slow<'_> {
    fn read(&mut self, buf: &mut [u8]) -> io::Result<usize> {
        if self.bytes.is_empty() {
            self.bytes = self.row;
        }
        if self.bytes.is_empty() && !self.may_end() {
            return Err(io::Error::from(io::ErrorKind::Other));
        }
        let most = buf.len().min(self.step);
        self.bytes.read(&mut buf[..most])
    }
}

/// Returns these readers, as those of a report's tables.
pub(crate) fn readers_of<R: Drop + Copy>(
    alloc: Global,
    readers: &[R],
) -> Result<Vec<Option<R>>, AllocError> {
    let mut list = Vec::new(alloc);
    for reader in readers {
        list.push(Some(*reader))?;
    }
    Ok(list)
}
