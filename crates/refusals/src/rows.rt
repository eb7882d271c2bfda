//! The rows of a table, its blocks and its texts while memory runs out.

use crate::report::{DOCUMENT, FIRST, HEAD};
use crate::scarcity::CallOutcome;
use oim_decode::TableBlocks;
use oim_json::{Block, Spare, block_of, head, member_of};
use oim_meta::{Limits, Report};
use oim_resolve::Fact;
use oim_rows::{Rows, TableFault, TableKind};
use std::alloc::Global;

/// Returns what a call did that gave this fault of the first table.
fn of_fault(fault: TableFault) -> CallOutcome {
    let is_whole = fault.table == 0 && fault.row == 0 && fault.column == 0;
    CallOutcome::refused(is_whole && fault.kind == TableKind::Memory)
}

/// Returns what a reader of rows did that gave this fault, if it gives the same again.
fn of_settled(rows: &mut Rows<'_, &[u8]>, fault: TableFault) -> CallOutcome {
    match rows.next() {
        Err(again) if again == fault => of_fault(fault),
        _ => CallOutcome::Wrong,
    }
}

/// Returns what reading two rows of two facts did.
fn read_rows(rows: &mut Rows<'_, &[u8]>) -> CallOutcome {
    for place in 0..3usize {
        match rows.next() {
            Ok(Some(facts)) => {
                if facts.len() != 2 || place == 2 {
                    return CallOutcome::Wrong;
                }
            }
            Ok(None) => return CallOutcome::same(place == 2),
            Err(fault) => return of_settled(rows, fault),
        }
    }
    CallOutcome::Wrong
}

/// Returns the rest of a document's facts after a block's text, if that text is a prefix of what is
/// left. A comma precedes the text if it is not the first.
fn without<'a>(left: &'a [u8], whole: &[u8], block: &Block) -> Option<&'a [u8]> {
    let left = if left.len() == whole.len() {
        left
    } else {
        left.strip_prefix(b",".as_slice())?
    };
    left.strip_prefix(block.bytes())
}

/// Returns what reading all blocks did, if their facts are the document's up to the second table.
/// Facts that were read before memory was refused may be first.
fn read_blocks(alloc: Global, blocks: &mut TableBlocks<'_, &[u8]>, whole: &[u8]) -> CallOutcome {
    let mut left = whole;
    for _ in 0..5u32 {
        match blocks.next_block(Spare::new(alloc)) {
            Ok(Some(block)) => match without(left, whole, &block) {
                Some(rest) => left = rest,
                None => return CallOutcome::Wrong,
            },
            Ok(None) => return CallOutcome::same(left.starts_with(b",\"t2.")),
            Err(fault) => return of_fault(fault),
        }
    }
    CallOutcome::Wrong
}

/// Returns the document after its head.
fn facts_and_tail() -> &'static [u8] {
    DOCUMENT.strip_prefix(HEAD).unwrap_or(b"")
}

/// Reads the first table of a report, row by row or in blocks.
pub(crate) fn reads(alloc: Global, report: &Report, in_blocks: bool) -> CallOutcome {
    if report.tables() == 0 {
        return CallOutcome::Wrong;
    }
    if in_blocks {
        return match TableBlocks::open(alloc, report, 0, FIRST, Limits::profile()) {
            Ok(mut blocks) => read_blocks(alloc, &mut blocks, facts_and_tail()),
            Err(fault) => of_fault(fault),
        };
    }
    match Rows::open(alloc, report, 0, FIRST, Limits::profile()) {
        Ok(mut rows) => read_rows(&mut rows),
        Err(fault) => of_fault(fault),
    }
}

/// Writes the head of a report's document.
pub(crate) fn writes_the_head(alloc: Global, report: &Report) -> CallOutcome {
    match head(alloc, report) {
        Ok(head) => CallOutcome::same(head.as_slice() == HEAD),
        Err(_) => CallOutcome::Refused,
    }
}

/// Writes the text of the first of these facts.
fn writes_one(alloc: Global, facts: &[Fact]) -> CallOutcome {
    let Some(fact) = facts.first() else {
        return CallOutcome::Wrong;
    };
    match member_of(alloc, fact) {
        Ok(member) => CallOutcome::same(facts_and_tail().starts_with(member.bytes())),
        Err(_) => CallOutcome::Refused,
    }
}

/// Writes the text of the first row's facts, or of the first of them.
pub(crate) fn writes(alloc: Global, facts: &[Fact], are_two: bool) -> CallOutcome {
    if !are_two {
        return writes_one(alloc, facts);
    }
    if facts.len() != 2 {
        return CallOutcome::Wrong;
    }
    match block_of(alloc, facts) {
        Ok(block) => {
            CallOutcome::same(block.count() == 2 && facts_and_tail().starts_with(block.bytes()))
        }
        Err(_) => CallOutcome::Refused,
    }
}
