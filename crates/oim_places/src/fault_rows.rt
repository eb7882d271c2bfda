//! The file of faults (`--faults`): its header, and a record for each fault.

ghost use Rattle.std.specs.Prelude.{◌≡◌, ◌++◌, [], IfOk};
ghost use Rattle.std.specs.Fmt.{decimal};
ghost use Rattle.csv.specs.Records.{fields_of, partial_of};
ghost use Rattle.csv.specs.Writing.{default_writer, row_text};
ghost use Rattle.oim_places.specs.FaultRows.{IsRecordText, cause_fields, fault_fields, fault_names, line_field, more_fields, no_cause, report_fault_fields};
ghost use Rattle.oim_places.specs.state.FaultRows.{PutsField};

use crate::fault_cause::FaultCause;
use crate::fault_places::FaultPlace;
use csv::{ByteRecord, WriterBuilder};
use oim_meta::MetaFault;
use oim_rows::TableFault;
use std::alloc::{AllocError, Global};

/// Returns the first record of the file: the names of the fields, with its line feed.
pub fn fault_header() -> &'static str
    ensures { IsRecordText fault_names result.now }
{
    "table_id,table_row,table_column,fault_number,fault_name,line,header_cell,row_cell,place,\
        cause_file,cause_line,cause_cell,cause_text\n"
}

/// Returns the text of a record.
fn record_text(alloc: Global, row: &ByteRecord) -> Result<Vec<u8>, AllocError>
    ensures { IfOk result (λ v. v.items ≡ row_text default_writer (fields_of row.now)) }
{
    let mut writer = WriterBuilder::new().from_writer(Vec::new(alloc));
    if writer.write_byte_record(row).is_err() {
        return Err(AllocError);
    }
    match writer.into_inner() {
        Ok(text) => Ok(text),
        Err(_) => Err(AllocError),
    }
}

/// Appends a number in decimal digits to the fields of a record.
fn put_number(alloc: Global, row: &mut ByteRecord, number: u64) -> Result<(), AllocError>
    requires { partial_of row.old ≡ [] }
    ensures { IfOk result (λ u. PutsField row.old row.new (decimal number)) }
{
    let digits = format!(in alloc; "{number}")?;
    row.push_field(digits.as_bytes())
}

/// Appends a line's number to the fields of a record, or an empty field if it is not known.
fn put_line(alloc: Global, row: &mut ByteRecord, line: Option<u64>) -> Result<(), AllocError>
    requires { partial_of row.old ≡ [] }
    ensures { IfOk result (λ u. PutsField row.old row.new (line_field line)) }
{
    match line {
        Some(line) => put_number(alloc, row, line),
        None => row.push_field(b""),
    }
}

/// Appends the fields of a cause to the fields of a record.
fn put_cause(alloc: Global, row: &mut ByteRecord, cause: &FaultCause) -> Result<(), AllocError>
    requires { partial_of row.old ≡ [] }
    ensures { IfOk result (λ u. fields_of row.new ≡ fields_of row.old ++ cause_fields cause.now) }
{
    row.push_field(cause.file.as_str().as_bytes())?;
    put_line(alloc, row, cause.line)?;
    row.push_field(cause.cell.as_str().as_bytes())?;
    row.push_field(cause.text.as_str().as_bytes())
}

/// Appends the fields of a record without a cause.
fn put_no_cause(row: &mut ByteRecord) -> Result<(), AllocError>
    requires { partial_of row.old ≡ [] }
    ensures { IfOk result (λ u. fields_of row.new ≡ fields_of row.old ++ cause_fields no_cause) }
{
    row.push_field(b"")?;
    row.push_field(b"")?;
    row.push_field(b"")?;
    row.push_field(b"")
}

/// Puts the fields of a fault's record into an empty one.
fn put_fields(
    alloc: Global,
    row: &mut ByteRecord,
    id: &str,
    fault: &TableFault,
    place: &FaultPlace,
    cause: &FaultCause,
) -> Result<(), AllocError>
    requires { (fields_of row.old ≡ []) × (partial_of row.old ≡ []) }
    ensures { IfOk result (λ u. fields_of row.new ≡ fault_fields id.now fault.now place.now cause.now) }
{
    row.push_field(id.as_bytes())?;
    put_number(alloc, row, u64::from(fault.row))?;
    put_number(alloc, row, u64::from(fault.column))?;
    put_number(alloc, row, u64::from(fault.number()))?;
    row.push_field(fault.name().as_bytes())?;
    put_line(alloc, row, place.line)?;
    row.push_field(place.header.as_str().as_bytes())?;
    row.push_field(place.cell.as_str().as_bytes())?;
    row.push_field(b"")?;
    put_cause(alloc, row, cause)
}

/// Puts the fields of a record for a fault of the report's other files into an empty one.
fn put_report_fields(
    alloc: Global,
    row: &mut ByteRecord,
    fault: MetaFault,
    place: &str,
    found: &str,
) -> Result<(), AllocError>
    requires { (fields_of row.old ≡ []) × (partial_of row.old ≡ []) }
    ensures { IfOk result (λ u. fields_of row.new ≡ report_fault_fields fault place.now found.now) }
{
    row.push_field(b"")?;
    put_number(alloc, row, 0)?;
    put_number(alloc, row, 0)?;
    put_number(alloc, row, u64::from(fault.number()))?;
    row.push_field(fault.name().as_bytes())?;
    row.push_field(b"")?;
    row.push_field(b"")?;
    row.push_field(found.as_bytes())?;
    row.push_field(place.as_bytes())?;
    put_no_cause(row)
}

/// Returns the record of a table's fault: the table's identifier, the row, the column, the fault's
/// number and name, the line, the header's cell, the row's cell, an empty field, and the cause's
/// file, line, cell and text, with a line feed.
///
/// Commas separate fields. A field with a comma, a quote, CR or LF is in quotes, and a quote in it
/// is doubled (RFC 4180).
pub fn fault_row(
    alloc: Global,
    id: &str,
    fault: &TableFault,
    place: &FaultPlace,
    cause: &FaultCause,
) -> Result<Vec<u8>, AllocError>
    ensures { IfOk result (λ v. IsRecordText (fault_fields id.now fault.now place.now cause.now) v.items) }
{
    let mut row = ByteRecord::new(alloc);
    put_fields(alloc, &mut row, id, fault, place, cause)?;
    record_text(alloc, &row)
}

/// Puts the fields of the record that ends the list of a table with more faults into an empty one.
fn put_more_fields(alloc: Global, row: &mut ByteRecord, id: &str) -> Result<(), AllocError>
    requires { (fields_of row.old ≡ []) × (partial_of row.old ≡ []) }
    ensures { IfOk result (λ u. fields_of row.new ≡ more_fields id.now) }
{
    row.push_field(id.as_bytes())?;
    put_number(alloc, row, 0)?;
    put_number(alloc, row, 0)?;
    put_number(alloc, row, 0)?;
    row.push_field(b"MoreFaults")?;
    row.push_field(b"")?;
    row.push_field(b"")?;
    row.push_field(b"")?;
    row.push_field(b"")?;
    put_no_cause(row)
}

/// Returns the record that ends the list of a table with more faults than are listed: the table's
/// identifier, 0, 0 and 0, the name MoreFaults, and eight empty fields, with a line feed.
pub fn more_faults_row(alloc: Global, id: &str) -> Result<Vec<u8>, AllocError>
    ensures { IfOk result (λ v. IsRecordText (more_fields id.now) v.items) }
{
    let mut row = ByteRecord::new(alloc);
    put_more_fields(alloc, &mut row, id)?;
    record_text(alloc, &row)
}

/// Returns the record of a fault of the metadata, the types table or the parameters file: an empty
/// field, 0 and 0 for table, row and column, the fault's number and name, two empty fields, what is
/// at the place, the place, and four empty fields, with a line feed. It is written as `fault_row`
/// writes it.
pub fn report_fault_row(
    alloc: Global,
    fault: MetaFault,
    place: &str,
    found: &str,
) -> Result<Vec<u8>, AllocError>
    ensures { IfOk result (λ v. IsRecordText (report_fault_fields fault place.now found.now) v.items) }
{
    let mut row = ByteRecord::new(alloc);
    put_report_fields(alloc, &mut row, fault, place, found)?;
    record_text(alloc, &row)
}
