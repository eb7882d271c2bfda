//! The progress of a run, shown on standard error while it works.

use std::sync::atomic::{AtomicBool, AtomicU64, Ordering};
use std::time::Instant;

/// Milliseconds between updates of the line on a terminal.
const ON_A_TERMINAL: u64 = 200;

/// Milliseconds between lines if standard error is not a terminal.
const ELSEWHERE: u64 = 10_000;

/// Returns a count of bytes in megabytes (1,000,000 bytes), and the first decimal place.
fn megabytes(bytes: &AtomicU64) -> (u64, u64) {
    let bytes = bytes.load(Ordering::SeqCst);
    (bytes / 1_000_000, bytes / 100_000 % 10)
}

/// The progress of a run: its tables, the bytes read from their files, and the bytes of the
/// document.
///
/// The threads of the run share it. Any of them that counts something when a line is due writes the
/// line.
///
/// Not proved: the counts.
#[derive(Drop)]
pub struct Progress<'a> {
    /// The system.
    rt: &'a HostRuntime,
    /// When the run began.
    start: Instant,
    /// Whether standard error is a terminal, where one line is rewritten in place.
    terminal: bool,
    /// When the next line is due, in milliseconds since the start.
    due: AtomicU64,
    /// The number of tables.
    tables: AtomicU64,
    /// The number of tables that are done.
    done: AtomicU64,
    /// The size of the tables' files in bytes, as the system reports it.
    size: AtomicU64,
    /// Whether a table's file has no size, as a pipe, so that the whole size is unknown.
    is_endless: AtomicBool,
    /// The number of bytes read from them.
    read: AtomicU64,
    /// The number of bytes of the document that were written.
    written: AtomicU64,
}

impl<'a> Progress<'a> {
    /// Starts with nothing done. Returns `None` if the system has no clock.
    pub fn start(rt: &'a HostRuntime, terminal: bool) -> Option<Progress<'a>> {
        let Ok(start) = Instant::now(rt) else {
            return None;
        };
        Some(Progress {
            rt,
            start,
            terminal,
            due: AtomicU64::new(if terminal { 0 } else { ELSEWHERE }),
            tables: AtomicU64::new(0),
            done: AtomicU64::new(0),
            size: AtomicU64::new(0),
            is_endless: AtomicBool::new(false),
            read: AtomicU64::new(0),
            written: AtomicU64::new(0),
        })
    }

    /// Counts a table with the size of its file in bytes, if it has one. A table without a file is
    /// done at once.
    pub fn table_found(&self, is_missing: bool, size: Option<u64>) {
        self.tables.fetch_add(1, Ordering::SeqCst);
        if is_missing {
            self.table_done();
            return;
        }
        match size {
            Some(size) => {
                self.size.fetch_add(size, Ordering::SeqCst);
            }
            None => self.is_endless.store(true, Ordering::SeqCst),
        }
    }

    /// Counts one more table as done.
    pub fn table_done(&self) {
        self.done.fetch_add(1, Ordering::SeqCst);
    }

    /// Counts bytes that were read from a table's file.
    pub fn count_read(&self, bytes: usize) {
        self.read.fetch_add(bytes as u64, Ordering::SeqCst);
        self.show_if_due();
    }

    /// Counts bytes of the document that were written.
    pub fn count_written(&self, bytes: usize) {
        self.written.fetch_add(bytes as u64, Ordering::SeqCst);
        self.show_if_due();
    }

    /// Writes the line if it is due and no other thread is writing it.
    fn show_if_due(&self) {
        let Ok(elapsed) = self.start.elapsed(self.rt) else {
            return;
        };
        let now = u64::try_from(elapsed.as_millis()).unwrap_or(u64::MAX);
        let due = self.due.load(Ordering::SeqCst);
        if now < due {
            return;
        }
        let next = now.saturating_add(if self.terminal {
            ON_A_TERMINAL
        } else {
            ELSEWHERE
        });
        let order = Ordering::SeqCst;
        if self.due.compare_exchange(due, next, order, order).is_ok() {
            self.show(if self.terminal { "" } else { "\n" });
        }
    }

    /// Writes the last line, unless the run ended before it looked for any table.
    pub fn end(&self) {
        if self.tables.load(Ordering::SeqCst) > 0 {
            self.show("\n");
        }
    }

    /// Writes the line, or leaves it out if it cannot be written.
    fn show(&self, end: &str) {
        let begin = if self.terminal { "\r" } else { "" };
        let done = self.done.load(Ordering::SeqCst);
        let tables = self.tables.load(Ordering::SeqCst);
        let (read, read_tenth) = megabytes(&self.read);
        let (size, size_tenth) = megabytes(&self.size);
        let (written, written_tenth) = megabytes(&self.written);
        let _ = if self.is_endless.load(Ordering::SeqCst) {
            eprint!(self.rt;
                "{begin}xbrl-json: {done} of {tables} tables, {read}.{read_tenth} MB read, {written}.{written_tenth} MB written{end}"
            )
        } else {
            eprint!(self.rt;
                "{begin}xbrl-json: {done} of {tables} tables, {read}.{read_tenth} of {size}.{size_tenth} MB read, {written}.{written_tenth} MB written{end}"
            )
        };
    }
}
