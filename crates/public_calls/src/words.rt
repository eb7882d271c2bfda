//! The names of faults: each fault prints its name. `tests/fault_table.py` checks that each
//! explains itself in a sentence.

use oim_meta::MetaFault;
use oim_names::NameFault;
use oim_resolve::CellFault;
use oim_rows::{TableFault, TableKind};
use std::alloc::Global;
use std::fmt::Display;

/// Returns whether a fault prints this text.
fn prints<F: Display>(alloc: Global, fault: &F, words: &str) -> bool {
    match format!(in alloc; "{fault}") {
        Ok(printed) => printed.as_str() == words,
        Err(_) => false,
    }
}

/// Returns whether a fault of each file prints its name.
fn print_their_names(alloc: Global) -> bool {
    prints(alloc, &NameFault::BadPrefix, "BadPrefix")
        && prints(alloc, &MetaFault::UnknownTemplate, "UnknownTemplate")
        && prints(alloc, &TableKind::RepeatedRowId, "RepeatedRowId")
        && prints(alloc, &CellFault::BadNumber, "BadNumber")
}

/// A fault with its place, and the text that it prints.
const PLACED: TableFault = TableFault {
    table: 1,
    row: 2,
    column: 3,
    kind: TableKind::BadNumber,
};

const PLACED_WORDS: &str = "table 1, row 2, column 3: BadNumber";

#[test]
fn faults_print_their_names(rt: HostRuntime) {
    assert!(rt; print_their_names(rt.alloc()) && prints(rt.alloc(), &PLACED, PLACED_WORDS));
}

/// Returns whether a kind is that of a number's cell, by its name as a pattern and in a comparison.
fn is_of_number(kind: TableKind) -> bool {
    match kind {
        TableKind::BadNumber => true,
        TableKind::UnknownSpecial | TableKind::BadFactValue => false,
        _ => kind == TableKind::BadNumber,
    }
}

#[test]
fn a_cells_fault_has_a_name_as_a_tables_kind(rt: HostRuntime) {
    assert!(rt; is_of_number(PLACED.kind) && is_of_number(TableKind::Cell(CellFault::BadNumber)));
    assert!(rt; !is_of_number(TableKind::BadFactValue) && !is_of_number(TableKind::Memory));
}
