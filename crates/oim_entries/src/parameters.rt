//! The parameters file.

ghost use Rattle.std.specs.Prelude.{◌≡◌, IfSome};
ghost use Rattle.std.specs.Option.{option_map};
ghost use Rattle.oim_entries.specs.CsvFiles.{OrOutside};
ghost use Rattle.oim_records.specs.Grids.{grid};
ghost use Rattle.oim_entries.specs.ParametersFile.{parameters_entries, parameters_result};
ghost use Rattle.oim_entries.specs.BadEntries.{GivesEntries};

use crate::entries::{Entries, read_file};
use crate::entry_fault::{EntryFault, EntryProblem, EntryRefusal, Refused, with_row};
use crate::fault::MetaFault;
use crate::fields::texts_of_two;
use csv::ByteRecord;
use oim_names::is_identifier;
use oim_report::Parameters;
use std::alloc::Global;
use std::io::Read;

/// The most parameters that a file may have.
const MOST_PARAMETERS: u32 = 65_536;

/// The entries of a parameters file: names with their values.
#[derive(Drop)]
struct NamesWithValues;

impl Entries for NamesWithValues {
    ghost use Rattle.oim_entries.specs.ParametersFile.{parameters_chosen, parameters_file};

    type Read = Parameters;

    ghost chosen = { parameters_chosen };

    ghost file = { λ _. parameters_file };

    fn chosen(header: &ByteRecord) -> Option<NamesWithValues> {
        match texts_of_two(header, 0) {
            Ok((name, value)) if name == "name" && value == "value" => Some(NamesWithValues),
            _ => None,
        }
    }

    fn limit(&self) -> u32 {
        MOST_PARAMETERS
    }

    fn start(&self, alloc: Global) -> Parameters {
        Parameters::none(alloc)
    }

    fn after(
        &self,
        alloc: Global,
        so_far: Parameters,
        row: &ByteRecord,
        number: usize,
    ) -> Result<Parameters, Refused> {
        let (name, value) = match texts_of_two(row, number) {
            Ok(texts) => texts,
            Err(fault) => return Err(Refused::Bad(fault)),
        };
        if !is_identifier(name) {
            let fault = EntryFault::in_cell(number, 0, EntryProblem::BadName);
            return Err(Refused::Bad(fault));
        }
        if so_far.has_name(name) {
            let fault = EntryFault::in_cell(number, 0, EntryProblem::RepeatedName);
            return Err(Refused::Bad(fault));
        }
        Ok(so_far.with(alloc, name, value)?)
    }
}

/// Reads a parameters file, as `read_parameters` does, and returns its parameters, or why it gives
/// none.
///
/// # Errors
///
/// - `Bad`: the file has a fault. It is that of the header or of the earliest bad record. The first
///   bad cell of a record is the first that is not UTF-8, or else the name. The whole record is bad
///   if it has another number of cells, if it is the header or if it is past the limit.
/// - `Unread`: the reader failed, or memory ran out.
pub fn read_parameters_at<R: Read + Drop>(
    alloc: Global,
    reader: R,
) -> Result<Parameters, EntryRefusal>
    ensures { IfSome (R.remaining reader) (λ bytes. GivesEntries result (parameters_entries (grid bytes))) }
{
    let mut row = ByteRecord::new(alloc);
    let read = read_file::<NamesWithValues, R>(alloc, reader, &mut row);
    with_row(read, row)
}

/// Reads a parameters file, a CSV file (RFC 4180) whose header is `name,value` and whose records
/// each give a parameter (xBRL-CSV 1.0, parameters).
///
/// One byte-order mark at its start is skipped. A name is an identifier and occurs once. A value is
/// any text.
///
/// # Errors
///
/// The fault of the header or of the earliest bad record, or the fault that ended the reading:
///
/// - `BadParameter`: the file has no record, or the header is another. Or a record does not have
///   two fields, a field is not UTF-8, or a name is not an identifier or occurs twice.
/// - `TooLarge`: there is a record after the 65,536th data record, whatever it has.
/// - `Memory`: memory ran out.
/// - `Read`: the reader failed.
///
/// `read_parameters_at` also returns the bad record.
pub fn read_parameters<R: Read + Drop>(alloc: Global, reader: R) -> Result<Parameters, MetaFault>
    ensures { IfSome (R.remaining reader) (λ bytes. OrOutside result (parameters_result (grid bytes))) }
{
    match read_parameters_at(alloc, reader) {
        Ok(parameters) => Ok(parameters),
        Err(refusal) => Err(refusal.fault(MetaFault::BadParameter)),
    }
}
