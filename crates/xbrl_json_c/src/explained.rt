//! The faults of a run, for people and for programs. No contract says anything about these texts.

use crate::answer::FaultTexts;
use crate::files::Files;
use oim_names::Text;
use oim_rows::TableFault;
use oim_run::{
    EarlyFault, Explanation, FileFault, MOST_TABLES, Outcome, ReportAgain, Source,
    explained_faults, explanation_text, fault_header, line, lines_below, report_again,
    report_explanation, status, table_line, write_report_fault, write_table_faults,
};
use std::alloc::{AllocError, Global};

/// The line after a fault if the files give no report when they are read again.
const CHANGED: &str = "    the report cannot be read again, or has changed\n";

/// Returns the text, or none if memory ran out for it.
fn or_nothing(alloc: Global, text: Result<Vec<u8>, AllocError>) -> Vec<u8> {
    match text {
        Ok(text) => text,
        Err(_) => Vec::new(alloc),
    }
}

/// Appends a text.
fn put(to: &mut Vec<u8>, text: Result<String, AllocError>) -> Result<(), AllocError> {
    match text {
        Ok(text) => to.extend_from_slice(text.as_str().as_bytes()),
        Err(_) => Err(AllocError),
    }
}

/// Appends the line of each refused table, and after each of the first 100 what is told of it.
fn put_tables(
    alloc: Global,
    mut files: Files<'_>,
    meta: &str,
    again: &Result<ReportAgain, EarlyFault>,
    tables: &[(Text, TableFault)],
    to: &mut Vec<u8>,
) -> Result<(), AllocError> {
    let told = match again {
        Ok(again) => explained_faults(alloc, meta, &mut files, again, tables)?,
        Err(_) => Vec::new(alloc),
    };
    for (index, (id, fault)) in tables.iter().enumerate() {
        put(to, table_line(alloc, id.as_str(), fault))?;
        if index < told.len() {
            put(to, lines_below(alloc, tables, told.as_slice(), &[], index))?;
        } else if index < MOST_TABLES {
            to.extend_from_slice(CHANGED.as_bytes())?;
        }
    }
    Ok(())
}

/// Returns the lines of refused tables, and how many of these are not explained.
fn lines_of_tables(
    alloc: Global,
    files: Files<'_>,
    meta: &str,
    again: &Result<ReportAgain, EarlyFault>,
    tables: &[(Text, TableFault)],
) -> Result<Vec<u8>, AllocError> {
    let mut lines = Vec::new(alloc);
    put_tables(alloc, files, meta, again, tables, &mut lines)?;
    if tables.len() > MOST_TABLES {
        let more = tables.len() - MOST_TABLES;
        put(&mut lines, format!(in alloc; "    (and {more} more)\n"))?;
    }
    Ok(lines)
}

/// How many faults of one table are listed at most, as without `--most-faults`.
const MOST_FAULTS: usize = 1_000_000;

/// Returns the header and the records of refused tables.
fn records_of_tables(
    alloc: Global,
    mut files: Files<'_>,
    meta: &str,
    again: &Result<ReportAgain, EarlyFault>,
    tables: &[(Text, TableFault)],
) -> Result<Vec<u8>, AllocError> {
    let mut records = Vec::from_slice(alloc, fault_header().as_bytes())?;
    let to = &mut records;
    match write_table_faults(alloc, meta, &mut files, again, tables, MOST_FAULTS, to) {
        Ok(_) => Ok(records),
        Err(_) => Err(AllocError),
    }
}

/// Returns the texts of refused tables. The report is read again.
fn texts_of_tables(
    alloc: Global,
    mut files: Files<'_>,
    meta: &str,
    types: &str,
    tables: &[(Text, TableFault)],
) -> FaultTexts {
    let again = report_again(alloc, meta, types, &mut files);
    let lines = lines_of_tables(alloc, files, meta, &again, tables);
    let faults = records_of_tables(alloc, files, meta, &again, tables);
    FaultTexts {
        lines: or_nothing(alloc, lines),
        faults: or_nothing(alloc, faults),
    }
}

/// Returns the line of a run that has no refused tables, and the fault's explanation.
fn lines_of_report(
    alloc: Global,
    outcome: &Outcome,
    explanation: Result<String, AllocError>,
) -> Result<Vec<u8>, AllocError> {
    let mut lines = Vec::new(alloc);
    put(&mut lines, line(alloc, outcome))?;
    put(&mut lines, explanation)?;
    Ok(lines)
}

/// Returns the header and the record of a fault of the metadata, the types table or the parameters
/// file, by its explanation.
fn record_of_report(
    alloc: Global,
    fault: &FileFault,
    told: &Explanation,
) -> Result<Vec<u8>, AllocError> {
    let mut records = Vec::from_slice(alloc, fault_header().as_bytes())?;
    match write_report_fault(alloc, fault, told, &mut records) {
        Ok(()) => Ok(records),
        Err(_) => Err(AllocError),
    }
}

/// Returns the texts of a fault of the metadata, the types table or the parameters file.
fn texts_of_report(
    alloc: Global,
    mut files: Files<'_>,
    meta: &str,
    types: &str,
    outcome: &Outcome,
    source: Source,
    fault: &FileFault,
) -> FaultTexts {
    let Ok(told) = report_explanation(alloc, meta, types, &mut files, source, fault) else {
        return FaultTexts {
            lines: Vec::new(alloc),
            faults: Vec::new(alloc),
        };
    };
    let lines = lines_of_report(alloc, outcome, explanation_text(alloc, &told));
    let faults = record_of_report(alloc, fault, &told);
    FaultTexts {
        lines: or_nothing(alloc, lines),
        faults: or_nothing(alloc, faults),
    }
}

/// Returns the texts of an outcome that has no refused tables and no fault of the report's other
/// files. There is a header with status 0, and no file of faults with status 3.
fn plain_texts(alloc: Global, outcome: &Outcome) -> FaultTexts {
    let lines = lines_of_report(alloc, outcome, Ok(String::new(alloc)));
    let header = if status(outcome) > 1 {
        Ok(Vec::new(alloc))
    } else {
        Vec::from_slice(alloc, fault_header().as_bytes())
    };
    FaultTexts {
        lines: or_nothing(alloc, lines),
        faults: or_nothing(alloc, header),
    }
}

/// Returns the texts of the faults of a run over these files, which ended with this outcome.
pub(crate) fn texts_of(
    alloc: Global,
    files: Files<'_>,
    meta: &str,
    types: &str,
    outcome: &Outcome,
) -> FaultTexts {
    match outcome {
        Outcome::Tables(tables) => texts_of_tables(alloc, files, meta, types, tables.as_slice()),
        Outcome::Report(source, fault) => {
            texts_of_report(alloc, files, meta, types, outcome, *source, fault)
        }
        _ => plain_texts(alloc, outcome),
    }
}
