//! The records of a CSV file, one at a time, by the `csv` crate's reader. It is small, for files
//! that are small or of which few are read.

ghost use Rattle.std.specs.Prelude.{◌≡◌, [], option_map, MatchResult, Some, true};
ghost use Rattle.csv.specs.Reading.{stops_reader};
ghost use Rattle.csv.specs.Records.{fields_of};
ghost use Rattle.oim_records.specs.Grids.{grid};
ghost use Rattle.oim_records.specs.state.ReadFaults.{fault_of_kind};
ghost use Rattle.oim_records.specs.Reads.{TakesRecord};

use crate::read_fault::ReadFault;
use csv::{ByteRecord, ErrorKind, Reader, ReaderBuilder};
use std::alloc::Global;
use std::io::Read;
use std::marker::Model;

/// Returns the fault of an error that stops a reader.
fn fault_of(kind: &ErrorKind) -> ReadFault
    requires { stops_reader kind.now ≡ true }
    ensures { result ≡ fault_of_kind kind.now }
{
    match kind {
        ErrorKind::Io(_) => ReadFault::Read,
        ErrorKind::OutOfMemory => ReadFault::Memory,
        _ => unreachable!(),
    }
}

/// The records left in a CSV file (RFC 4180).
///
/// Commas separate fields, and inside quotes a quote is doubled. LF, CR or CRLF ends a record.
/// Records can differ in length, and an empty line is not a record.
///
/// A contract sees the list of the records left, if the reader's contract gives its bytes. After
/// the end or a fault the list is empty for any reader.
#[derive(Drop)]
pub struct Records<R: Read> {
    reader: Reader<R>,
    // kept here because `csv` does not specify what a read after the last record returns
    has_ended: bool,
}

impl<R: Read> Model for Records<R> {
    ghost use Rattle.std.specs.Prelude.{List, [], Option, Some, option_map, if◌then◌else◌};
    ghost use Rattle.csv.specs.Reading.{reader_state, source_of};
    ghost use Rattle.oim_records.specs.Grids.{Record, records_left};
    ghost use Rattle.oim_records.specs.state.PlainReaders.{IsPlainUnlessFailed};

    ghost Value = { Option (List Record) };

    ghost view = { λ a. if a.has_ended then Some [] else option_map (records_left (reader_state a.reader)) (source_of R.remaining a.reader) };

    ghost invariant = { λ a. IsPlainUnlessFailed a.reader };
}

impl<R: Read> Records<R> {
    /// Opens the records of a file, with the header.
    ///
    /// Skips one byte-order mark (EF BB BF) at the start. Reads nothing yet and takes no memory.
    pub fn new(alloc: Global, reader: R) -> Records<R>
        ensures { result ≡ option_map grid (R.remaining reader) }
    {
        Records {
            reader: ReaderBuilder::new()
                .has_headers(false)
                .flexible(true)
                .from_reader(alloc, reader),
            has_ended: false,
        }
    }

    /// Reads the next record into `row`, and returns whether there was one.
    ///
    /// After the end or a fault there are no more records, and nothing is read.
    ///
    /// - `Read`: the reader failed.
    /// - `Memory`: memory ran out.
    pub fn read(&mut self, row: &mut ByteRecord) -> Result<bool, ReadFault>
        ensures { MatchResult result (λ found. TakesRecord self.old found (fields_of row.new) self.new) (λ _. self.new ≡ Some []) }
    {
        if self.has_ended {
            row.clear();
            return Ok(false);
        }
        match self.reader.read_byte_record(row) {
            Ok(true) => Ok(true),
            Ok(false) => {
                self.has_ended = true;
                Ok(false)
            }
            Err(error) => {
                self.has_ended = true;
                Err(fault_of(error.kind()))
            }
        }
    }
}
