//! The first bad record of a types table or a parameters file, for a person.

use crate::headers::wrong_header;
use csv::ByteRecord;
use oim_entries::{EntryFault, EntryProblem};
use oim_files::Source;
use oim_places::{cell_shown, excerpt, record_shown, text_at};
use std::alloc::{AllocError, Global};

/// Returns what is wrong with a types table.
fn types_cause(problem: EntryProblem) -> &'static str {
    match problem {
        EntryProblem::NoHeader => "the file has no header",
        EntryProblem::BadHeader => {
            "the header is not namespace,name, then type, type2 or type3,period,values"
        }
        EntryProblem::TooMany => "there are more than 1,048,576 records behind the header",
        EntryProblem::CellCount => "the record has another number of cells than the header",
        EntryProblem::NotUtf8 => "this is not UTF-8",
        EntryProblem::BadName => "this name is not an NCName",
        EntryProblem::RepeatedName => "an earlier record has this name in this namespace",
        EntryProblem::UnknownType => "this is not one of the types that the header allows",
        EntryProblem::UnknownPeriod => "this must be empty, or for a concept instant or duration",
        EntryProblem::UnknownValues => {
            "this must be empty, or for a typed dimension a simple type such as integer"
        }
    }
}

/// Returns what is wrong with a file.
fn entry_cause(source: Source, problem: EntryProblem) -> &'static str {
    match (source, problem) {
        (Source::Parameters, EntryProblem::BadHeader) => "the header is not name,value",
        (Source::Parameters, EntryProblem::TooMany) => {
            "there are more than 65,536 records behind the header"
        }
        (Source::Parameters, EntryProblem::BadName) => "this name is not an identifier",
        (Source::Parameters, EntryProblem::RepeatedName) => "an earlier record has this name",
        _ => types_cause(problem),
    }
}

/// Returns what is wrong with a file whose first bad record is this one.
pub(crate) fn wrong_entry(source: Source, fault: &EntryFault, row: &ByteRecord) -> &'static str {
    let cause = entry_cause(source, fault.problem);
    if fault.number == 0 {
        wrong_header(row).unwrap_or(cause)
    } else {
        cause
    }
}

/// Returns the cells of a record with commas between them, in one line.
fn joined(alloc: Global, row: &ByteRecord) -> Result<String, AllocError> {
    let mut out = String::new(alloc);
    for place in 0..row.len() {
        if place > 0 {
            out.push(',')?;
        }
        out.push_str(text_at(row, place).unwrap_or("?"))?;
    }
    Ok(out)
}

/// Returns what is at the place of a fault: the cell, or the record as a whole.
pub(crate) fn entry_found(
    alloc: Global,
    fault: &EntryFault,
    row: &ByteRecord,
) -> Result<String, AllocError> {
    match (fault.column, fault.problem) {
        (Some(column), _) => cell_shown(alloc, row, column),
        (None, EntryProblem::NoHeader) => String::from_str(alloc, "(nothing)"),
        (None, EntryProblem::BadHeader) => excerpt(alloc, joined(alloc, row)?.as_str()),
        _ => record_shown(alloc, row),
    }
}
