//! The faults of a table, and where they occur.

ghost use Rattle.std.specs.Prelude.{◌≡◌};
ghost use Rattle.std.specs.Prelude.{◌+◌};
ghost use Rattle.oim_rows.specs.FaultNames.{number_of, name_of};
ghost use Rattle.oim_rows.specs.Header.{fault_at, file_fault};
ghost use Rattle.oim_rows.specs.Streams.{fault_of_read};

use oim_records::ReadFault;
use oim_resolve::CellFault;
use std::error::Error;
use std::fmt;
use std::fmt::{Display, Formatter};

/// The kind of a table's fault.
#[derive(Clone, Copy, PartialEq, Eq, Debug)]
pub enum TableKind {
    /// 20: a table that is not optional has no file.
    NoFile,
    /// 21: the reader failed.
    Read,
    /// 22: the file has no record at all.
    NoHeader,
    /// 23: a header cell that is not empty does not name a column of the template.
    UnknownHeader,
    /// 24: a column occurs twice in the header.
    RepeatedHeader,
    /// 25: the template's column of row identifiers is not in the header.
    NoRowIdColumn,
    /// 26: a record and the header differ in length.
    Ragged,
    /// 27: a cell is not UTF-8.
    NotUtf8,
    /// 41: the table has more rows than the limit.
    TooManyRows,
    /// 28: the cell of the row identifier is empty.
    MissingRowId,
    /// 29: the cell of the row identifier is not well-formed.
    BadRowId,
    /// 30: an earlier row of the table has the same row identifier.
    RepeatedRowId,
    /// 31 to 40, and 44 to 47: a cell has this fault. If memory runs out for a cell, the fault is
    /// `Memory`.
    Cell(CellFault),
    /// 42: memory ran out.
    Memory,
    /// 43: no worker could be started.
    NoThread,
}

/// The faults of a cell, each under its own name. As a pattern each is the same as `Cell(..)`.
impl TableKind {
    /// 31: a text begins with a single `#` and is not a special value.
    pub const UnknownSpecial: TableKind = TableKind::Cell(CellFault::UnknownSpecial);

    /// 32: a group cell names no property group of its column.
    pub const UnknownGroup: TableKind = TableKind::Cell(CellFault::UnknownGroup);

    /// 33: no concept is given.
    pub const NoConcept: TableKind = TableKind::Cell(CellFault::NoConcept);

    /// 34: the concept is not the name of a concept in the types table.
    pub const UnknownName: TableKind = TableKind::Cell(CellFault::UnknownName);

    /// 35: a dimension that is not typed is nil or empty.
    pub const BadReference: TableKind = TableKind::Cell(CellFault::BadReference);

    /// 36: an entity, a unit, a language or a member of an explicit dimension is not well-formed,
    /// or a typed value is not of its type.
    pub const BadValue: TableKind = TableKind::Cell(CellFault::BadValue);

    /// 37: a period is not well-formed.
    pub const BadPeriod: TableKind = TableKind::Cell(CellFault::BadPeriod);

    /// 38: the start or the end of an instant is asked for.
    pub const NotDuration: TableKind = TableKind::Cell(CellFault::NotDuration);

    /// 39: decimals are neither an integer of 32 bits nor `INF`.
    pub const BadDecimals: TableKind = TableKind::Cell(CellFault::BadDecimals);

    /// 40: the cell of a number is not a numeral.
    pub const BadNumber: TableKind = TableKind::Cell(CellFault::BadNumber);

    /// 44: the cell of a boolean, a date, a name or another type with a form is not well-formed.
    pub const BadFactValue: TableKind = TableKind::Cell(CellFault::BadFactValue);

    /// 45: the unit is missing or not the one that the concept wants.
    pub const BadUnit: TableKind = TableKind::Cell(CellFault::BadUnit);

    /// 46: the period is missing or not of the type that the concept wants.
    pub const WrongPeriod: TableKind = TableKind::Cell(CellFault::WrongPeriod);

    /// 47: the types table names no such member.
    pub const UnknownMember: TableKind = TableKind::Cell(CellFault::UnknownMember);
}

impl Error for TableKind {}

impl TableKind {
    /// Returns an explanation for people, as a sentence without capital and full stop. A cell's
    /// fault has its own.
    pub fn explanation(&self) -> &'static str {
        match self {
            TableKind::NoFile => "a table that is not optional has no file",
            TableKind::Read => "the file cannot be opened or read to its end, or is a folder",
            TableKind::NoHeader => "the file has no record at all",
            TableKind::UnknownHeader => "a header cell does not name a column of the template",
            TableKind::RepeatedHeader => "a column stands twice in the header",
            TableKind::NoRowIdColumn => "the column of row identifiers is not in the header",
            TableKind::Ragged => "a record has another length than the header",
            TableKind::NotUtf8 => "a cell is not UTF-8",
            TableKind::TooManyRows => "the table has more rows than the limit",
            TableKind::MissingRowId => "the cell of the row identifier is empty",
            TableKind::BadRowId => "the cell of the row identifier is not well-formed",
            TableKind::RepeatedRowId => "an earlier row of the table has the same row identifier",
            TableKind::Memory => "memory ran out",
            TableKind::NoThread => "no worker could be started",
            TableKind::Cell(fault) => fault.explanation(),
        }
    }
}

/// Writes the kind's name.
impl Display for TableKind {
    fn fmt<W: fmt::Write>(&self, f: &mut Formatter<W>) -> fmt::Result {
        f.write_str(self.name())
    }
}

impl TableKind {
    /// Returns the fault's number, 20 to 47. A cell's fault has its own.
    pub fn number(&self) -> u32
        ensures { result ≡ number_of self.now }
    {
        match self {
            TableKind::NoFile => 20,
            TableKind::Read => 21,
            TableKind::NoHeader => 22,
            TableKind::UnknownHeader => 23,
            TableKind::RepeatedHeader => 24,
            TableKind::NoRowIdColumn => 25,
            TableKind::Ragged => 26,
            TableKind::NotUtf8 => 27,
            TableKind::MissingRowId => 28,
            TableKind::BadRowId => 29,
            TableKind::RepeatedRowId => 30,
            TableKind::Cell(fault) => fault.number(),
            TableKind::TooManyRows => 41,
            TableKind::Memory => 42,
            TableKind::NoThread => 43,
        }
    }

    /// Returns the fault's name, as it is printed. A cell's fault has its own.
    pub fn name(&self) -> &'static str
        ensures { result.now ≡ name_of self.now }
    {
        match self {
            TableKind::NoFile => "NoFile",
            TableKind::Read => "Read",
            TableKind::NoHeader => "NoHeader",
            TableKind::UnknownHeader => "UnknownHeader",
            TableKind::RepeatedHeader => "RepeatedHeader",
            TableKind::NoRowIdColumn => "NoRowIdColumn",
            TableKind::Ragged => "Ragged",
            TableKind::NotUtf8 => "NotUtf8",
            TableKind::MissingRowId => "MissingRowId",
            TableKind::BadRowId => "BadRowId",
            TableKind::RepeatedRowId => "RepeatedRowId",
            TableKind::Cell(fault) => fault.name(),
            TableKind::TooManyRows => "TooManyRows",
            TableKind::Memory => "Memory",
            TableKind::NoThread => "NoThread",
        }
    }
}

/// A fault of a table, and where it occurs.
#[derive(Clone, Copy, PartialEq, Eq, Debug, thiserror::Error)]
#[error("table {table}, row {row}, column {column}: {kind}")]
pub struct TableFault {
    /// The table's index in its report, from 0.
    pub table: usize,
    /// The row, from 1, or 0 for the file and its header.
    pub row: u32,
    /// The column's place in the header, from 1, or 0 for no column. A place above the greatest
    /// 32-bit number is given as that number.
    pub column: u32,
    /// The kind of the fault.
    pub kind: TableKind,
}

impl TableFault {
    /// Returns the number of its kind, 20 to 47.
    pub fn number(&self) -> u32
        ensures { result ≡ number_of (self.now).kind }
    {
        self.kind.number()
    }

    /// Returns the name of its kind, as it is printed.
    pub fn name(&self) -> &'static str
        ensures { result.now ≡ name_of (self.now).kind }
    {
        self.kind.name()
    }

    /// Returns the explanation of its kind.
    pub fn explanation(&self) -> &'static str {
        self.kind.explanation()
    }
}

/// Makes a fault of a table's file as a whole.
pub fn whole_fault(table: usize, kind: TableKind) -> TableFault
    ensures { result ≡ file_fault table kind }
{
    TableFault {
        table,
        row: 0,
        column: 0,
        kind,
    }
}

/// Makes a fault of a row as a whole.
pub(crate) fn fault_of_whole_row(table: usize, row: u32, kind: TableKind) -> TableFault
    ensures { result ≡ fault_at table row 0 kind }
{
    TableFault {
        table,
        row,
        column: 0,
        kind,
    }
}

/// Makes a fault of a row at a place in the header, from 0. A place above the greatest 32-bit
/// number is given as that number.
pub fn fault_at_place(table: usize, row: u32, place: usize, kind: TableKind) -> TableFault
    ensures { result ≡ fault_at table row (place + 1) kind }
{
    let column = if place < u32::MAX as usize {
        place as u32 + 1
    } else {
        u32::MAX
    };
    TableFault {
        table,
        row,
        column,
        kind,
    }
}

/// Makes the fault of a table whose reader failed: Read or Memory.
pub fn fault_of_read(table: usize, fault: ReadFault) -> TableFault
    ensures { result ≡ fault_of_read table fault }
{
    match fault {
        ReadFault::Read => whole_fault(table, TableKind::Read),
        ReadFault::Memory => whole_fault(table, TableKind::Memory),
    }
}
