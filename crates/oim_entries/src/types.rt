//! The types table.

ghost use Rattle.std.specs.Prelude.{◌≡◌, IfSome};
ghost use Rattle.std.specs.Option.{option_map};
ghost use Rattle.oim_entries.specs.CsvFiles.{OrOutside};
ghost use Rattle.oim_records.specs.Grids.{grid};
ghost use Rattle.oim_entries.specs.TypesFile.{types_entries, types_result};
ghost use Rattle.oim_entries.specs.BadEntries.{GivesEntries};

use crate::entries::{Entries, read_file};
use crate::entry_fault::{EntryFault, EntryProblem, EntryRefusal, Refused, with_row};
use crate::fault::MetaFault;
use crate::type_words::TypeWords;
use csv::ByteRecord;
use oim_names::is_ncname;
use oim_report::Types;
use std::alloc::Global;
use std::io::Read;

/// The most records that a types table may have.
const MOST_TYPES: u32 = 1_048_576;

impl Entries for TypeWords {
    ghost use Rattle.oim_entries.specs.state.Held.{table_in};
    ghost use Rattle.oim_entries.specs.TypesFile.{types_chosen, types_file};

    type Read = Types;

    ghost chosen = { types_chosen };

    ghost file = { λ words. types_file (table_in words) };

    fn chosen(header: &ByteRecord) -> Option<TypeWords> {
        TypeWords::of_header(header)
    }

    fn limit(&self) -> u32 {
        MOST_TYPES
    }

    fn start(&self, alloc: Global) -> Types {
        Types::none(alloc)
    }

    fn after(
        &self,
        alloc: Global,
        so_far: Types,
        row: &ByteRecord,
        number: usize,
    ) -> Result<Types, Refused> {
        let texts = match self.texts_of(row, number) {
            Ok(texts) => texts,
            Err(fault) => return Err(Refused::Bad(fault)),
        };
        if !is_ncname(texts.local) {
            let fault = EntryFault::in_cell(number, 1, EntryProblem::BadName);
            return Err(Refused::Bad(fault));
        }
        if so_far.kind_of(texts.uri, texts.local).is_some() {
            let fault = EntryFault::in_cell(number, 1, EntryProblem::RepeatedName);
            return Err(Refused::Bad(fault));
        }
        match self.kind_of(texts) {
            Ok(kind) => Ok(so_far.with(alloc, texts.uri, texts.local, kind)?),
            Err((column, problem)) => {
                let fault = EntryFault::in_cell(number, column, problem);
                Err(Refused::Bad(fault))
            }
        }
    }
}

/// Reads a types table, as `read_types` does, and returns its types, or why it gives none.
///
/// # Errors
///
/// - `Bad`: the file has a fault. It is that of the header or of the earliest bad record. The first
///   bad cell of a record is the first that is not UTF-8, or else the name, the type name, the
///   period or the values, in this order. The whole record is bad if it has another number of
///   cells, if it is the header or if it is past the limit.
/// - `Unread`: the reader failed, or memory ran out.
pub fn read_types_at<R: Read + Drop>(alloc: Global, reader: R) -> Result<Types, EntryRefusal>
    ensures { IfSome (R.remaining reader) (λ bytes. GivesEntries result (types_entries (grid bytes))) }
{
    let mut row = ByteRecord::new(alloc);
    let read = read_file::<TypeWords, R>(alloc, reader, &mut row);
    with_row(read, row)
}

/// Reads a types table, a CSV file (RFC 4180) whose records each give the kind of a concept, of a
/// dimension or of a member.
///
/// The header is `namespace,name,type`, `namespace,name,type2` or
/// `namespace,name,type3,period,values`. One byte-order mark at the file's start is skipped. A
/// namespace is any text. A name is an NCName (Namespaces in XML 1.0) and occurs once in its
/// namespace.
///
/// The header chooses the type names. Under `type` these are `integer`, `decimal` and `double` for
/// concepts of numbers, `text` and `other` for other concepts, `explicit` and `typed` for
/// dimensions. Under `type2` they are also `boolean`, `date` and `qname` for concepts of such
/// values.
///
/// Under `type3` a concept has the name of one of 29 simple types (`integer` to `hexBinary`), or
/// `monetary`, `shares`, `text`, `enumeration`, `enumerations` or `other`. Its period is empty,
/// `instant` or `duration`. Dimensions are `explicit`, or `typed` with the name of a simple type
/// in `values` or none. A member of a dictionary is `member`. Other cells are empty.
///
/// # Errors
///
/// The fault of the header or of the earliest bad record, or the fault that ended the reading:
///
/// - `BadTypes`: the file has no record, or the header is another. Or a record has another number
///   of fields than the header, a field is not UTF-8, or a name is not an NCName or occurs twice in
///   its namespace. Or a type name is not one of the header's, or it may not have its period or
///   values.
/// - `TooLarge`: there is a record after the 1,048,576th data record, whatever it has.
/// - `Memory`: memory ran out.
/// - `Read`: the reader failed.
///
/// `read_types_at` also returns the bad record.
pub fn read_types<R: Read + Drop>(alloc: Global, reader: R) -> Result<Types, MetaFault>
    ensures { IfSome (R.remaining reader) (λ bytes. OrOutside result (types_result (grid bytes))) }
{
    match read_types_at(alloc, reader) {
        Ok(types) => Ok(types),
        Err(refusal) => Err(refusal.fault(MetaFault::BadTypes)),
    }
}
