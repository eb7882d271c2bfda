//! Calls of `oim_places`.

use crate::words::FAULT;
use csv::ByteRecord;
use oim_files::Texts;
use oim_meta::Records;
use oim_names::Text;
use oim_places::{
    BadRows, FaultPlace, FaultRecord, LocatedFault, ParameterLines, ReportAgain, RowAgain,
    after_mark, bad_rows_at, cell_shown, excerpt, fault_record, fault_records_are_by_row,
    field_as_text, first_record_with, is_of_file, line_again, more_faults_row, place_in_file,
    place_in_record, pointer, pointer_to, quoted, record_shown, report_again, standing, table_path,
    text_at,
};
use oim_rows::TableFault;
use oim_run::{ListedFaults, METADATA, RefusedTable, TYPES, list_faults};
use serde_json::Value;
use std::alloc::{AllocError, Global};

/// Returns whether the first cell of a row is `x`.
fn has_the_cell(cells: &RowAgain) -> bool {
    text_at(&cells.row, 0) == Some("x")
}

/// Returns whether a place is the cell `x` under the header `cash`, in line 2.
fn is_the_cell(place: &FaultPlace) -> bool {
    place.header.as_str() == "cash" && place.cell.as_str() == "x" && place.line == Some(2)
}

/// Returns whether a fault's record is found, with that cell and that place.
fn is_of_the_cell(found: &Option<FaultRecord>) -> bool {
    match found {
        Some(record) => has_the_cell(&record.cells) && is_the_cell(&record.place),
        None => false,
    }
}

/// Returns whether the fault of a table's first row is in line 2 of its file, at a cell `x` under
/// the header `cash`.
fn finds_the_cell(
    alloc: Global,
    folder: &mut Texts<'_>,
    again: &ReportAgain,
    fault: &TableFault,
) -> Result<bool, AllocError> {
    if fault.table >= again.report.tables() {
        return Ok(false);
    }
    let path = table_path(alloc, "f/m.json", &again.report, fault.table)?;
    let found = fault_record(alloc, folder, path.as_str(), &again.report, fault)?;
    Ok(is_of_the_cell(&found))
}

/// Returns whether these are one fault in the second line.
fn is_in_the_second_line(located: &[LocatedFault]) -> bool {
    match located.first() {
        Some(first) => located.len() == 1 && first.place.line == Some(2),
        None => false,
    }
}

/// Returns whether a copy of the records at hand has that cell.
fn copies_the_cell(rows: &BadRows<'_, &[u8]>) -> bool {
    match rows.cells().copied() {
        Ok(cells) => has_the_cell(&cells),
        Err(_) => false,
    }
}

/// Returns whether the rows are one bad row in the second line, with that cell.
fn is_one_row(alloc: Global, rows: &mut BadRows<'_, &[u8]>) -> bool {
    let is_there = match rows.next_row(alloc) {
        Ok(Some(located)) => is_in_the_second_line(located.as_slice()),
        _ => false,
    };
    is_there && copies_the_cell(rows) && matches!(rows.next_row(alloc), Ok(None))
}

/// Returns whether the table's file has one bad row.
fn lists_the_row(alloc: Global, folder: &mut Texts<'_>, again: &ReportAgain) -> bool {
    if again.report.tables() == 0 {
        return false;
    }
    match bad_rows_at(alloc, folder, "f/t1.csv", &again.report, 0) {
        Some(mut rows) => is_one_row(alloc, &mut rows),
        None => false,
    }
}

/// Returns whether a list has one fault and is whole.
fn is_of_one(listed: ListedFaults) -> bool {
    listed.count == 1 && !listed.is_cut
}

/// Returns whether the table has one record in the file of faults.
fn lists_the_record(alloc: Global, folder: &mut Texts<'_>, again: &ReportAgain) -> bool {
    let table = RefusedTable {
        meta: "f/m.json",
        id: "t1",
        fault: &FAULT,
        most: 1,
    };
    let mut records = Vec::new(alloc);
    let is_listed = match list_faults(alloc, folder, again, table, &mut records) {
        Ok(listed) => is_of_one(listed),
        Err(_) => false,
    };
    is_listed && records.as_slice() == b"t1,1,1,40,BadNumber,2,cash,x,,,,,\n".as_slice()
}

/// Returns whether the record of a cut list is this one.
fn ends_a_list(alloc: Global) -> bool {
    fault_records_are_by_row();
    match more_faults_row(alloc, "t1") {
        Ok(record) => record.as_slice() == b"t1,0,0,0,MoreFaults,,,,,,,,\n".as_slice(),
        Err(_) => false,
    }
}

/// Returns whether both are found in the files of a folder.
fn finds_the_fault(alloc: Global, folder: &mut Texts<'_>) -> bool {
    match report_again(alloc, "f/m.json", "t.csv", folder) {
        Ok(again) => {
            let is_there = matches!(finds_the_cell(alloc, folder, &again, &FAULT), Ok(true));
            is_there
                && lists_the_row(alloc, folder, &again)
                && lists_the_record(alloc, folder, &again)
        }
        Err(_) => false,
    }
}

/// Returns whether a text is this one.
fn is_text(text: Result<String, AllocError>, expected: &str) -> bool {
    match text {
        Ok(text) => text.as_str() == expected,
        Err(_) => false,
    }
}

/// Returns whether the line of the fault is found, and the place has its number.
fn tells_the_line(alloc: Global, folder: &mut Texts<'_>) -> bool {
    let line = line_again(alloc, folder, "f/t1.csv", 1);
    let place = place_in_file(alloc, "f/t1.csv", line, place_in_record(&FAULT));
    is_text(place, "f/t1.csv, line 2, cell 1") && !is_of_file(FAULT.kind)
}

/// Returns whether the calls over these answer as they must.
fn hold(alloc: Global) -> bool {
    let files = [
        ("f/m.json", METADATA.as_bytes()),
        ("t.csv", TYPES.as_bytes()),
        ("f/t1.csv", b"cash\nx\n".as_slice()),
    ];
    let folder = &mut Texts { files: &files };
    finds_the_fault(alloc, folder) && tells_the_line(alloc, folder) && ends_a_list(alloc)
}

#[test]
fn calls_of_places_of_faults(rt: HostRuntime) {
    assert!(rt; hold(rt.alloc()));
}

/// Returns whether a parameter's line is that of the file's third line.
fn is_in_the_third_line(lines: &ParameterLines) -> bool {
    lines.path() == "f/p.csv" && lines.line("b") == Some(3)
}

/// Returns whether a parameter is found in the file that a metadata names.
fn finds_a_parameter(alloc: Global, metadata: &str) -> bool {
    let files = [
        ("f/m.json", metadata.as_bytes()),
        ("t.csv", TYPES.as_bytes()),
        ("f/t1.csv", b"cash\nx\n".as_slice()),
        ("f/p.csv", b"name,value\na,x\nb,y\n".as_slice()),
    ];
    match report_again(alloc, "f/m.json", "t.csv", &mut Texts { files: &files }) {
        Ok(again) => match &again.parameters {
            Some(lines) => is_in_the_third_line(lines),
            None => false,
        },
        Err(_) => false,
    }
}

/// Returns the metadata with a parameters file.
fn with_parameters(alloc: Global) -> Result<String, AllocError> {
    let rest = METADATA.strip_prefix("{").unwrap_or("");
    let mut text = String::from_str(alloc, "{\"parameterURL\":\"p.csv\",")?;
    text.push_str(rest)?;
    Ok(text)
}

#[test]
fn calls_of_a_parameters_file(rt: HostRuntime) {
    let alloc = rt.alloc();
    let is_found = match with_parameters(alloc) {
        Ok(text) => finds_a_parameter(alloc, text.as_str()),
        Err(_) => false,
    };
    assert!(rt; is_found);
}

/// Returns whether the first cell of a record is read as the text `a`.
fn reads_a_cell(alloc: Global, row: &ByteRecord) -> bool {
    match field_as_text(alloc, row, Some(0)) {
        Ok(text) => text.as_str() == "a",
        Err(_) => false,
    }
}

/// Returns whether a record of one cell is shown, and its cell.
fn shows_a_record(alloc: Global, row: &ByteRecord) -> bool {
    reads_a_cell(alloc, row)
        && is_text(cell_shown(alloc, row, 0), "\"a\"")
        && is_text(record_shown(alloc, row), "(a record of 1)")
}

/// Returns whether the first record of a file is shown.
fn shows_the_first(alloc: Global, file: &[u8]) -> bool {
    let mut records = Records::new(alloc, file);
    let mut row = ByteRecord::new(alloc);
    matches!(records.read(&mut row), Ok(true)) && shows_a_record(alloc, &row)
}

/// Returns whether the first record with a cell is found in a file.
fn finds_the_first(alloc: Global, file: &[u8]) -> bool {
    matches!(first_record_with(alloc, file, 0, b"x"), Ok(Some(1)))
}

#[test]
fn calls_of_records_read_again(rt: HostRuntime) {
    assert!(rt; finds_the_first(rt.alloc(), b"a\nx\n") && shows_the_first(rt.alloc(), b"a\n"));
}

/// Returns whether a JSON text after its byte-order mark is shown.
fn shows_a_text(alloc: Global, json: &[u8]) -> bool {
    match Value::from_slice(alloc, after_mark(json)) {
        Ok(value) => is_text(standing(alloc, Some(&value)), "\"b\""),
        Err(_) => false,
    }
}

/// Returns whether the calls for this key answer as they must.
fn hold_of_key(alloc: Global, keys: &[Text]) -> bool {
    shows_a_text(alloc, b"\xef\xbb\xbf\"b\"")
        && is_text(pointer(alloc, keys), "/a")
        && is_text(pointer_to(alloc, &["a"]), "/a")
        && is_text(excerpt(alloc, "/a"), "/a")
        && is_text(quoted(alloc, "b"), "\"b\"")
}

/// Returns whether the calls for a key answer as they must.
fn hold_of_json(alloc: Global) -> bool {
    match Text::from_str(alloc, "a") {
        Ok(key) => hold_of_key(alloc, &[key]),
        Err(_) => false,
    }
}

#[test]
fn calls_of_places_in_json(rt: HostRuntime) {
    assert!(rt; hold_of_json(rt.alloc()));
}
