//! Calls of `oim_explain`, and those of `oim_run` that are its own.

use crate::words::FAULT;
use oim_meta::{Finding, MetaFault};
use oim_names::{Items, Text};
use oim_run::{
    EarlyFault, ExplainedFault, Explanation, FaultCause, FaultPlace, FileFault, METADATA,
    MOST_TABLES, ReportAgain, Source, TYPES, Texts, explain_metadata, explained_fault,
    explained_faults, explanation_text, fault_header, fault_row, lines_are_of_records, lines_below,
    report_again, report_explanation, report_fault_row, table_line, write_report_fault,
    write_table_faults,
};
use std::alloc::{AllocError, Global};
use std::io;

/// Returns whether the fault of a metadata without a document type is explained at the missing
/// key.
fn explains_the_key(
    alloc: Global,
    folder: &mut Texts<'_>,
    fault: &FileFault,
) -> Result<bool, AllocError> {
    let told = report_explanation(alloc, "m.json", "t.csv", folder, Source::Report, fault)?;
    let text = explanation_text(alloc, &told)?;
    let place = "    /documentInfo/documentType\n";
    Ok(text.as_str().starts_with(place))
}

/// Returns the record of that fault in the file of faults.
fn row_of_the_key(
    alloc: Global,
    folder: &mut Texts<'_>,
    fault: &FileFault,
) -> Result<Vec<u8>, AllocError> {
    let told = report_explanation(alloc, "m.json", "t.csv", folder, Source::Report, fault)?;
    report_fault_row(
        alloc,
        fault.finding.fault,
        told.place.as_str(),
        told.found.as_str(),
    )
}

/// Writes the record of that fault.
fn write_the_key(
    alloc: Global,
    folder: &mut Texts<'_>,
    fault: &FileFault,
    to: &mut Vec<u8>,
) -> io::Result<()> {
    let told = report_explanation(alloc, "m.json", "t.csv", folder, Source::Report, fault)?;
    write_report_fault(alloc, fault, &told, to)
}

/// Returns whether it has its place, and is written.
fn writes_the_key(alloc: Global, folder: &mut Texts<'_>, fault: &FileFault) -> bool {
    let mut record = Vec::new(alloc);
    if write_the_key(alloc, folder, fault, &mut record).is_err() {
        return false;
    }
    match row_of_the_key(alloc, folder, fault) {
        Ok(row) => {
            row.as_slice() == record.as_slice()
                && row.as_slice()
                    == b",0,0,2,NotReport,,,(nothing),/documentInfo/documentType,,,,\n".as_slice()
        }
        Err(_) => false,
    }
}

/// Returns whether the fault is explained, and has its record, over a folder.
fn explains_a_report(alloc: Global, fault: &FileFault) -> bool {
    let files = [("m.json", b"{}".as_slice()), ("t.csv", TYPES.as_bytes())];
    let folder = &mut Texts { files: &files };
    matches!(explains_the_key(alloc, folder, fault), Ok(true))
        && writes_the_key(alloc, folder, fault)
}

/// Returns whether an explanation has a text.
fn has_text(alloc: Global, explanation: &Explanation) -> bool {
    explanation_text(alloc, explanation).is_ok()
}

/// Returns whether a finding is explained, over the bytes of its metadata.
fn explains(alloc: Global, metadata: &[u8], finding: &Finding) -> bool {
    match explain_metadata(alloc, "m.json", metadata, finding) {
        Ok(explanation) => has_text(alloc, &explanation),
        Err(_) => false,
    }
}

/// Returns the place of the document type.
fn place_of_type(alloc: Global) -> Result<Items<Text>, AllocError> {
    let mut keys = Vec::new(alloc);
    keys.push(Text::from_str(alloc, "documentInfo")?)?;
    keys.push(Text::from_str(alloc, "documentType")?)?;
    Ok(Items::from_vec(keys))
}

/// Returns whether the calls for a metadata without a document type answer as they must.
fn hold_of_reports(alloc: Global) -> bool {
    let Ok(place) = place_of_type(alloc) else {
        return false;
    };
    let fault = FileFault {
        finding: Finding {
            fault: MetaFault::NotReport,
            place,
        },
        path: None,
        entry: None,
    };
    explains_a_report(alloc, &fault) && explains(alloc, b"{}", &fault.finding)
}

#[test]
fn calls_of_explanations_of_reports(rt: HostRuntime) {
    assert!(rt; hold_of_reports(rt.alloc()));
}

/// Returns whether the fault has this record in the file of faults.
fn is_written(alloc: Global, place: &FaultPlace, record: &[u8]) -> bool {
    let Ok(cause) = FaultCause::none(alloc) else {
        return false;
    };
    match fault_row(alloc, "t1", &FAULT, place, &cause) {
        Ok(row) => row.as_slice() == record,
        Err(_) => false,
    }
}

/// Returns whether it has a record if its place is not known.
fn is_written_without_a_place(alloc: Global) -> bool {
    match FaultPlace::unknown(alloc) {
        Ok(place) => is_written(alloc, &place, b"t1,1,1,40,BadNumber,,,,,,,,\n"),
        Err(_) => false,
    }
}

/// Returns whether it is explained with its place, which is read again, and has a record with that.
fn explains_at_once(alloc: Global, folder: &mut Texts<'_>, again: &ReportAgain) -> bool {
    let explained: Result<ExplainedFault, AllocError> = explained_fault(
        alloc, "m.json", folder, again, &FAULT,
    );
    match explained {
        Ok(explained) => {
            has_text(alloc, &explained.explanation)
                && is_written(
                    alloc,
                    &explained.place,
                    b"t1,1,1,40,BadNumber,2,cash,x,,,,,\n",
                )
        }
        Err(_) => false,
    }
}

/// Returns whether two tables with one cause have it told once.
fn tells_once(alloc: Global, folder: &mut Texts<'_>, again: &ReportAgain) -> bool {
    let (Ok(one), Ok(two)) = (Text::from_str(alloc, "t1"), Text::from_str(alloc, "t2")) else {
        return false;
    };
    let tables = [(one, FAULT), (two, FAULT)];
    let Ok(told) = explained_faults(alloc, "m.json", folder, again, &tables) else {
        return false;
    };
    if told.len() != tables.len().min(MOST_TABLES) {
        return false;
    }
    match lines_below(alloc, &tables, told.as_slice(), &[], 1) {
        Ok(line) => line.as_str() == "    the same cause as in table t1: t1.csv, line 2, cell 1\n",
        Err(_) => false,
    }
}

/// Returns whether the table has this record in the file of faults.
fn lists(
    alloc: Global,
    folder: &mut Texts<'_>,
    again: &Result<ReportAgain, EarlyFault>,
    record: &[u8],
) -> bool {
    let Ok(id) = Text::from_str(alloc, "t1") else {
        return false;
    };
    let tables = [(id, FAULT)];
    let mut records = Vec::new(alloc);
    match write_table_faults(alloc, "m.json", folder, again, &tables, 1, &mut records) {
        Ok(listed) => listed.len() == 1 && records.as_slice() == record,
        Err(_) => false,
    }
}

/// Returns whether it has one with its place, and without that if the report is not read again.
fn lists_a_table(alloc: Global) -> bool {
    let files = [
        ("m.json", METADATA.as_bytes()),
        ("t.csv", TYPES.as_bytes()),
        ("t1.csv", b"cash\nx\n".as_slice()),
    ];
    let folder = &mut Texts { files: &files };
    let again = report_again(alloc, "m.json", "t.csv", folder);
    let unread = Err(EarlyFault::Memory);
    let record = b"t1,1,1,40,BadNumber,2,cash,x,,,,,\n";
    lists(alloc, folder, &again, record)
        && lists(alloc, folder, &unread, b"t1,1,1,40,BadNumber,,,,,,,,\n")
}

#[test]
fn calls_of_records_of_tables(rt: HostRuntime) {
    assert!(rt; lists_a_table(rt.alloc()));
}

/// Returns whether it is explained over a folder, and has a record with its place.
fn explains_a_table(alloc: Global) -> bool {
    let files = [
        ("m.json", METADATA.as_bytes()),
        ("t.csv", TYPES.as_bytes()),
        ("t1.csv", b"cash\nx\n".as_slice()),
    ];
    let folder = &mut Texts { files: &files };
    match report_again(alloc, "m.json", "t.csv", folder) {
        Ok(again) => {
            tells_once(alloc, folder, &again) && explains_at_once(alloc, folder, &again)
        }
        Err(_) => false,
    }
}

/// Returns whether the calls for a fault of a table answer as they must.
fn hold(alloc: Global) -> bool {
    explains_a_table(alloc)
        && is_written_without_a_place(alloc)
        && table_line(alloc, "t1", &FAULT).is_ok()
        && !fault_header().is_empty()
}

#[test]
fn calls_of_explanations_of_tables(rt: HostRuntime) {
    lines_are_of_records();
    assert!(rt; hold(rt.alloc()));
}
