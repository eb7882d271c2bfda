//! Conversions while memory runs out, and a writer that takes no memory.

use crate::report::{DOCUMENT, FIRST, HEAD, SECOND, TAIL};
use crate::scarcity::CallOutcome;
use oim_convert::{ConvertFault, Layout, convert_serial};
use oim_json::Marked;
use oim_meta::{Limits, Report};
use oim_rows::{TableFault, TableKind};
use std::alloc::Global;
use std::io;
use std::io::Write;

/// A writer that compares what it takes with a document.
#[derive(Clone, Copy)]
struct Compared<'a> {
    document: &'a [u8],
    left: &'a [u8],
    is_same: bool,
}

/// Returns a writer for a document that took nothing yet.
fn comparing(document: &[u8]) -> Compared<'_> {
    Compared {
        document,
        left: document,
        is_same: true,
    }
}

impl Write for Compared<'_> {
    fn write(&mut self, bytes: &[u8]) -> io::Result<usize> {
        match self.left.strip_prefix(bytes) {
            Some(left) => self.left = left,
            None => self.is_same = false,
        }
        Ok(bytes.len())
    }

    fn flush(&mut self) -> io::Result<()> {
        Ok(())
    }
}

impl Compared<'_> {
    /// Returns whether it took nothing.
    fn is_untouched(&self) -> bool {
        self.is_same && self.left.len() == self.document.len()
    }

    /// Returns whether it took the whole document.
    fn is_whole(&self) -> bool {
        self.is_same && self.left.is_empty()
    }

    /// Returns whether it took only the head.
    fn is_head(&self) -> bool {
        self.is_same && self.left.len().saturating_add(HEAD.len()) == self.document.len()
    }

    /// Returns whether it took the document up to a place where a fact of this table, of the two,
    /// begins or ends.
    fn is_cut_at(&self, table: usize) -> bool {
        let left = self.left;
        let is_before_second = left.starts_with(b",\"t2.");
        let is_place = match table {
            0 => self.is_head() || left.starts_with(b",\"t1.") || is_before_second,
            1 => is_before_second || left == TAIL,
            _ => false,
        };
        self.is_same && is_place
    }
}

/// Returns the number after that of a fault's table, if memory refused the table as a whole, and
/// the number is not below `least`.
fn after(fault: &TableFault, least: usize) -> Option<usize> {
    let is_whole = fault.row == 0 && fault.column == 0;
    if is_whole && fault.kind == TableKind::Memory && fault.table >= least {
        Some(fault.table.saturating_add(1))
    } else {
        None
    }
}

/// Returns the first of these tables, if only memory refused them, in table order.
fn first_of(faults: &[TableFault]) -> Option<usize> {
    let mut least = 0usize;
    for fault in faults {
        least = after(fault, least)?;
    }
    Some(faults.first()?.table)
}

/// Returns what a conversion did whose refused tables were refused only for memory, of which
/// `table` is the first.
fn of_first(table: Option<usize>, writer: &Compared<'_>) -> CallOutcome {
    match table {
        Some(table) if writer.is_cut_at(table) => CallOutcome::Refused,
        _ => CallOutcome::Wrong,
    }
}

/// Returns what a conversion did that was refused memory before it began.
fn of_nothing(writer: &Compared<'_>) -> CallOutcome {
    CallOutcome::refused(writer.is_untouched())
}

/// Returns what a conversion on one thread did.
fn of_serial(answer: &Result<(), ConvertFault>, writer: &Compared<'_>) -> CallOutcome {
    match answer {
        Ok(()) => CallOutcome::same(writer.is_whole()),
        Err(ConvertFault::Memory) => of_nothing(writer),
        Err(ConvertFault::Tables(faults)) => of_first(first_of(faults.as_slice()), writer),
        Err(_) => CallOutcome::Wrong,
    }
}

/// Converts a report on one thread.
pub(crate) fn converts(alloc: Global, report: &Report) -> CallOutcome {
    let Ok(readers) = vec![in alloc; Some(FIRST), Some(SECOND)] else {
        return CallOutcome::Refused;
    };
    let mut writer = comparing(DOCUMENT);
    let limits = Limits::profile();
    let sink = &mut Marked::new(&mut writer);
    let answer = convert_serial(alloc, report, readers, limits, Layout::Compact, sink);
    of_serial(&answer, &writer)
}
