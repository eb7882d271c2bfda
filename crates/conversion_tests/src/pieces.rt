//! A table in pieces, which threads decode while workers are idle, and calls of `oim_pieces`.

use crate::readers::{AtEnd, Slow, ending};
use crate::reports::{HEAD, file_of};
use crate::trials::{Case, Trial, holds};
use oim_decode::TableBlocks;
use oim_json::{Block, Spare};
use oim_meta::{Limits, Report};
use oim_pieces::{AtWork, PIECE_SIZE, SmallReads, TablePieces, TextGrowth};
use oim_rows::TableFault;
use std::alloc::{AllocError, Global};
use std::sync::Wait;
use std::thread::{Scope, Threads};
use std::{mem, thread};

/// Returns the number of blocks in the first piece of a report's first table, whose file has these
/// bytes.
fn first_piece<'s, E, T: Threads + Wait + Sync + 's>(
    scope: &Scope<'s, E>,
    at_work: &'s AtWork,
    rt: &'s T,
    alloc: Global,
    report: &'s Report,
    file: &[u8],
) -> Result<usize, TableFault> {
    if report.tables() == 0 {
        return Ok(0);
    }
    let (growth, limits) = (TextGrowth::none(), Limits::profile());
    let mut table = TablePieces::open(alloc, at_work, growth, report, 0, file, limits)?;
    let first = table.next_blocks(scope, rt);
    mem::drop(table);
    match first? {
        Some(blocks) => Ok(blocks.len()),
        None => Ok(0),
    }
}

/// Returns whether a table that was just opened needs no spares, and gives back what it was
/// given.
fn keeps_spares(rt: &(impl AllocGlobal + Wait), report: &Report, file: &[u8]) -> bool {
    let alloc = rt.alloc();
    if report.tables() == 0 {
        return false;
    }
    let at_work = AtWork::new(4, PIECE_SIZE);
    let (growth, limits) = (TextGrowth::none(), Limits::profile());
    let Ok(mut table) = TablePieces::open(alloc, &at_work, growth, report, 0, file, limits) else {
        return false;
    };
    let needs_none = table.wanted_spares() == 0;
    table.want(true);
    table.note_left(0);
    table.keep_spare(rt, Spare::new(alloc));
    let has_one = table.free_spares(rt).len() == 1;
    let has_none = table.free_spares(rt).is_empty();
    mem::drop(table);
    needs_none && has_one && has_none
}

/// Returns whether the first pieces of a table are cut ahead, and its rest is not given to one
/// worker, since no facts are far longer than their rows.
fn keeps_pieces<'s, E, T: Threads + Wait + Sync + 's>(
    scope: &Scope<'s, E>,
    at_work: &'s AtWork,
    rt: &'s T,
    alloc: Global,
    report: &'s Report,
    file: &'s [u8],
) -> bool {
    if report.tables() == 0 {
        return false;
    }
    let (growth, limits) = (TextGrowth::none(), Limits::profile());
    let Ok(mut table) = TablePieces::open(alloc, at_work, growth, report, 0, file, limits) else {
        return false;
    };
    table.cut_ahead(scope, rt);
    if table.is_long() {
        return false;
    }
    let rest: Result<TableBlocks<'s, SmallReads<&[u8]>>, TablePieces<'s, &[u8]>> =
        table.into_rest();
    rest.is_err()
}

/// Appends the texts of blocks to a document's prefix.
fn put_blocks(document: &mut Vec<u8>, blocks: &[Block]) -> Result<(), AllocError> {
    for block in blocks {
        if document.len() > HEAD.len() {
            document.push(b',')?;
        }
        document.extend_from_slice(block.bytes())?;
    }
    Ok(())
}

/// Appends the facts of a table to a document's prefix, piece by piece. Returns whether the table
/// has no fault.
fn put_pieces<'s, E, T: Threads + Wait + Sync + 's>(
    scope: &Scope<'s, E>,
    rt: &'s T,
    table: &mut TablePieces<'s, Slow<'_>>,
    document: &mut Vec<u8>,
) -> bool {
    for _ in 0..u64::MAX {
        match table.next_blocks(scope, rt) {
            Ok(Some(blocks)) => {
                if put_blocks(document, blocks.as_slice()).is_err() {
                    return false;
                }
            }
            Ok(None) => return true,
            Err(_) => return false,
        }
    }
    false
}

/// Does the same for a report's first table.
fn put_table<'s, E, T: Threads + Wait + Sync + 's>(
    scope: &Scope<'s, E>,
    rt: &'s T,
    alloc: Global,
    at_work: &'s AtWork,
    report: &'s Report,
    file: Slow<'_>,
    document: &mut Vec<u8>,
) -> bool {
    if report.tables() == 0 {
        return false;
    }
    match TablePieces::open(
        alloc,
        at_work,
        TextGrowth::none(),
        report,
        0,
        file,
        Limits::profile(),
    ) {
        Ok(mut table) => {
            table.want(true);
            let is_good = put_pieces(scope, rt, &mut table, document);
            table.leave();
            is_good
        }
        Err(_) => false,
    }
}

/// Returns whether a table gives this prefix of a document, after the head.
fn begins(
    rt: &(impl AllocGlobal + Threads + Wait + Sync),
    at_work: &AtWork,
    report: &Report,
    file: Slow<'_>,
    document: &mut Vec<u8>,
    expected: &[u8],
) -> bool {
    let alloc = rt.alloc();
    let lent = &mut *document;
    let is_good = thread::scope(thread::scope_env(), rt, move |scope| {
        put_table(scope, rt, alloc, at_work, report, file, lent)
    });
    is_good && document.as_slice() == expected
}

/// The count of bytes per read, the size of the pieces (one record, two records, 64 bytes, and that
/// of a conversion), and the number of workers.
const SIZES: &[(usize, usize, usize)] = &[
    (2, 1, 1),
    (2, 1, 4),
    (4, 1, 1),
    (4, 1, 4),
    (64, 64, 1),
    (64, 64, 4),
    (65_536, PIECE_SIZE, 1),
    (65_536, PIECE_SIZE, 4),
];

/// Returns whether a file does, in pieces of one size.
fn begins_in(
    rt: &(impl AllocGlobal + Threads + Wait + Sync),
    report: &Report,
    bytes: &[u8],
    size: &(usize, usize, usize),
    expected: &[u8],
) -> bool {
    let at_work = AtWork::new(size.2, size.1);
    let file = ending(bytes, size.0, AtEnd::Ends);
    let mut document = Vec::new(rt.alloc());
    document.extend_from_slice(HEAD.as_bytes()).is_ok()
        && begins(rt, &at_work, report, file, &mut document, expected)
}

/// Returns whether it does, in pieces of each size.
fn begins_in_each(
    rt: &(impl AllocGlobal + Threads + Wait + Sync),
    report: &Report,
    bytes: &[u8],
    expected: &[u8],
) -> bool {
    for size in SIZES {
        if !begins_in(rt, report, bytes, size, expected) {
            return false;
        }
    }
    true
}

/// Returns whether a table of 200 rows does.
pub(crate) fn begin(
    rt: &(impl AllocGlobal + Threads + Wait + Sync),
    report: &Report,
    expected: &[u8],
) -> bool {
    match file_of(rt.alloc(), 200) {
        Ok(file) => begins_in_each(rt, report, file.as_bytes(), expected),
        Err(_) => false,
    }
}

/// A table of 200 rows, without an end.
const ROWS: Case = Case {
    tables: 1,
    written: 1,
    rows: 200,
    end: "",
    trial: Trial::Pieces,
};

#[test]
fn pieces_of_each_size(rt: HostRuntime) {
    assert!(rt; holds(&rt, &ROWS));
}

/// Returns whether the first piece of a table has one block, and its pieces are kept.
fn has_a_block(
    rt: &(impl AllocGlobal + Threads + Wait + Sync),
    at_work: &AtWork,
    report: &Report,
    file: &[u8],
) -> bool {
    let alloc = rt.alloc();
    let given = thread::scope(thread::scope_env(), rt, move |scope| {
        first_piece(scope, at_work, rt, alloc, report, file)
    });
    let keeps = thread::scope(thread::scope_env(), rt, move |scope| {
        keeps_pieces(scope, at_work, rt, alloc, report, file)
    });
    given == Ok(1) && keeps
}

/// Returns whether the calls over a report answer as they must.
pub(crate) fn hold(rt: &(impl AllocGlobal + Threads + Wait + Sync), report: &Report) -> bool {
    let at_work = AtWork::new(4, PIECE_SIZE);
    at_work.start();
    let are_good = keeps_spares(rt, report, b"cash\n1\n")
        && has_a_block(rt, &at_work, report, b"cash\n1\n");
    at_work.rest();
    are_good
}

/// A table of one row.
const ONE_ROW: Case = Case {
    tables: 1,
    written: 1,
    rows: 1,
    end: "",
    trial: Trial::Piece,
};

#[test]
fn calls_of_table_pieces(rt: HostRuntime) {
    assert!(rt; holds(&rt, &ONE_ROW));
}
