//! The rows of a table, counted in the bytes of its file as they are read.
//!
//! Not proved: that these are the file's rows. The parts are: `last_cut` counts the records up to
//! the last one that ends, and `record_count` counts those before and after.

use crate::record_count::{NO_RECORDS, RecordCount, RecordState, after_byte, after_bytes, records};
use oim_records::last_cut;
use std::alloc::Global;
use std::sync::Arc;
use std::sync::atomic::{AtomicU64, Ordering};

/// Counts the rows of a table's file for those that read them elsewhere.
#[derive(Drop)]
pub struct RowCounter {
    count: RecordCount,
    rows: Arc<AtomicU64, Global>,
}

/// Returns the count after the bytes up to the end of the record that has begun, and how many bytes
/// these are.
fn to_record_end(count: RecordCount, bytes: &[u8]) -> (RecordCount, usize) {
    let mut now = count;
    for (at, byte) in bytes.iter().enumerate() {
        if now.state == RecordState::Between {
            return (now, at);
        }
        now = after_byte(now, *byte);
    }
    (now, bytes.len())
}

/// Returns the count after bytes that begin between two records.
fn from_record_start(count: RecordCount, bytes: &[u8]) -> RecordCount {
    let cut = last_cut(bytes);
    let at = usize::try_from(cut.at).unwrap_or(bytes.len());
    let whole = RecordCount {
        state: RecordState::Between,
        ended: count.ended.saturating_add(cut.rows),
    };
    match bytes.get(at..) {
        Some(rest) => after_bytes(whole, rest),
        None => whole,
    }
}

impl RowCounter {
    /// Starts before the file's first byte.
    pub fn new(rows: Arc<AtomicU64, Global>) -> RowCounter {
        RowCounter {
            count: NO_RECORDS,
            rows,
        }
    }

    /// Counts the next bytes of the file.
    pub fn take(&mut self, bytes: &[u8]) {
        let (count, at) = to_record_end(self.count, bytes);
        self.count = match bytes.get(at..) {
            Some(rest) if !rest.is_empty() => from_record_start(count, rest),
            _ => count,
        };
        let rows = records(self.count).saturating_sub(1);
        self.rows.store(rows, Ordering::SeqCst);
    }
}
