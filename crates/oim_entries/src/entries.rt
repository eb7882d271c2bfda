//! Files of entries, such as the parameters file and the types table: a header, then one record
//! each.

ghost use Rattle.std.specs.Prelude.{◌≡◌, Option, IfSome};
ghost use Rattle.std.specs.Option.{option_map};
ghost use Rattle.csv.specs.Records.{fields_of};
ghost use Rattle.oim_entries.specs.BadEntries.{entries_of, entry_after, file_entries};
ghost use Rattle.oim_entries.specs.CsvFiles.{EntryFile};
ghost use Rattle.oim_entries.specs.state.Held.{Answers, AnswersWith};
ghost use Rattle.oim_records.specs.Grids.{Record, grid};

use crate::entry_fault::{EntryFault, EntryProblem, Refused};
use csv::ByteRecord;
use oim_records::Records;
use std::alloc::Global;
use std::io::Read;

/// A way to read the records after the header, chosen by the header.
pub(crate) trait Entries: Sized + Drop {
    /// The value that the file gives.
    type Read: Drop;

    ghost chosen: { Record → Option (EntryFile Self.Read) };

    ghost file: { Self → EntryFile Self.Read };

    /// Returns the way that a header chooses, or `None` if the header is bad.
    fn chosen(header: &ByteRecord) -> Option<Self>
        ensures { option_map file result ≡ chosen (fields_of header.now) };

    /// Returns the most entries that the file may have.
    fn limit(&self) -> u32
        ensures { result ≡ (file self.now).limit };

    /// Returns the value before the first entry.
    fn start(&self, alloc: Global) -> Self::Read
        ensures { result ≡ (file self.now).start };

    /// Returns the value after one more record, which has this number, or what is wrong with it.
    fn after(
        &self,
        alloc: Global,
        so_far: Self::Read,
        row: &ByteRecord,
        number: usize,
    ) -> Result<Self::Read, Refused>
        ensures { Answers result (entry_after (file self.now) number so_far (fields_of row.now)) };
}

/// Returns the value that the records after the header give, or what is wrong with the last one
/// that was read.
fn read_entries<E: Entries, R: Read>(
    entries: &E,
    alloc: Global,
    records: &mut Records<R>,
    row: &mut ByteRecord,
) -> Result<E::Read, Refused>
    ensures { IfSome records.old (λ rs. AnswersWith (fields_of row.new) result
        (entries_of (E.file entries.now) 0 (E.file entries.now).start rs)) }
{
    let mut so_far = entries.start(alloc);
    let limit = entries.limit();
    for before in 0..limit {
        if !records.read(row)? {
            return Ok(so_far);
        }
        so_far = entries.after(alloc, so_far, row, before as usize + 1)?;
    }
    if records.read(row)? {
        let number = limit as usize + 1;
        return Err(Refused::Bad(EntryFault::of_whole(number, EntryProblem::TooMany)));
    }
    Ok(so_far)
}

/// Returns the value that all records give, or what is wrong with the last one that was read.
fn read_records<E: Entries, R: Read>(
    alloc: Global,
    records: &mut Records<R>,
    row: &mut ByteRecord,
) -> Result<E::Read, Refused>
    ensures { IfSome records.old (λ rs. AnswersWith (fields_of row.new) result (file_entries E.chosen rs)) }
{
    if !records.read(row)? {
        row.clear();
        return Err(Refused::Bad(EntryFault::of_whole(0, EntryProblem::NoHeader)));
    }
    match E::chosen(row) {
        Some(entries) => read_entries(&entries, alloc, records, row),
        None => Err(Refused::Bad(EntryFault::of_whole(0, EntryProblem::BadHeader))),
    }
}

/// Returns the value of a whole file, or the fault of its first bad record. That record is then in
/// `row`.
pub(crate) fn read_file<E: Entries, R: Read + Drop>(
    alloc: Global,
    reader: R,
    row: &mut ByteRecord,
) -> Result<E::Read, Refused>
    ensures { IfSome (R.remaining reader)
        (λ bytes. AnswersWith (fields_of row.new) result (file_entries E.chosen (grid bytes))) }
{
    let mut records = Records::new(alloc, reader);
    read_records::<E, R>(alloc, &mut records, row)
}
