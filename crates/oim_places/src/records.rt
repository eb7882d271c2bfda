//! Records of a file that is read again.

ghost use Rattle.std.specs.Prelude.{◌≡◌, [], IfOk, IfSome, OnOk, true};
ghost use Rattle.csv.specs.Records.{fields_of};
ghost use Rattle.oim_records.specs.Reads.{TakesRecord};
ghost use Rattle.oim_places.specs.state.FaultLists.{HasHeader};

use csv::ByteRecord;
use oim_meta::{ReadFault, Records};
use oim_records::Fields;
use std::alloc::{AllocError, Global};
use std::io::Read;

/// A table's header and one of its records.
#[derive(Drop)]
pub struct RowAgain {
    /// The header.
    pub header: ByteRecord,
    /// The record, which is empty if the header itself was asked for.
    pub row: ByteRecord,
}

impl RowAgain {
    /// Copies both.
    pub fn copied(&self) -> Result<RowAgain, AllocError>
        ensures { IfOk result (λ copy. copy ≡ self.now) }
    {
        Ok(RowAgain {
            header: self.header.clone()?,
            row: self.row.clone()?,
        })
    }
}

/// Reads the next record, and returns whether it exists. A reader that fails has none.
fn next_record<R: Read>(records: &mut Records<R>, row: &mut ByteRecord) -> Result<bool, AllocError>
    ensures { IfOk result (λ found. found ≡ true → TakesRecord records.old true (fields_of row.new) records.new) }
{
    match records.read(row) {
        Ok(found) => Ok(found),
        Err(ReadFault::Read) => Ok(false),
        Err(ReadFault::Memory) => Err(AllocError),
    }
}

/// Returns the header of a file without a row, or `None` if it has none or cannot be read.
pub(crate) fn header_of<R: Read + Drop>(alloc: Global, reader: R) -> Option<RowAgain>
    ensures { IfSome result (λ cells. HasHeader (R.remaining reader) (fields_of cells.header) × (fields_of cells.row ≡ [])) }
{
    let mut records = Records::new(alloc, reader);
    let mut header = ByteRecord::new(alloc);
    match next_record(&mut records, &mut header) {
        Ok(true) => Some(RowAgain {
            header,
            row: ByteRecord::new(alloc),
        }),
        _ => None,
    }
}

/// Copies the fields of a record into `row`. If memory runs out, it has the first of them.
pub(crate) fn copy_fields(fields: &Fields<'_>, row: &mut ByteRecord) -> Result<(), AllocError>
    ensures { OnOk result (fields_of row.new ≡ fields.now) }
{
    row.clear();
    for place in 0..fields.len() {
        match fields.get(place) {
            Some(field) => row.push_field(field)?,
            None => return Ok(()),
        }
    }
    Ok(())
}

/// Returns the number of the first of these records after their header that has this text at a
/// place.
fn number_with<R: Read>(
    records: &mut Records<R>,
    row: &mut ByteRecord,
    place: usize,
    text: &[u8],
) -> Result<Option<usize>, AllocError> {
    for number in 0..u32::MAX as usize {
        if !next_record(records, row)? {
            return Ok(None);
        }
        match row.get(place) {
            Some(cell) if number > 0 && cell == text => return Ok(Some(number)),
            _ => {}
        }
    }
    Ok(None)
}

/// Returns the number of the first record after the header that has this text at a place, or
/// `None`.
pub fn first_record_with<R: Read + Drop>(
    alloc: Global,
    reader: R,
    place: usize,
    text: &[u8],
) -> Result<Option<usize>, AllocError> {
    let mut records = Records::new(alloc, reader);
    let mut row = ByteRecord::new(alloc);
    number_with(&mut records, &mut row, place, text)
}
