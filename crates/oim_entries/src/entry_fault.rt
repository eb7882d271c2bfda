//! The first fault of a types table or a parameters file, with its place and its record.

ghost use Rattle.std.specs.Prelude.{◌≡◌, Result, Some};
ghost use Rattle.csv.specs.Records.{fields_of};
ghost use Rattle.oim_entries.specs.BadEntries.{BadRecord, GivesEntries, refusal_fault};
ghost use Rattle.oim_entries.specs.EntryFaults.{in_cell, meta_fault, of_whole};
ghost use Rattle.oim_entries.specs.state.Held.{AnswersWith};

use crate::fault::MetaFault;
use csv::ByteRecord;
use oim_records::ReadFault;
use std::alloc::AllocError;
use std::marker::Model;

/// What is wrong with a types table or a parameters file.
#[derive(Clone, Copy, Debug, PartialEq, Eq)]
pub enum EntryProblem {
    /// The file has no record.
    NoHeader,
    /// The header is not one that the file may have.
    BadHeader,
    /// The record is past the limit.
    TooMany,
    /// The record has another number of cells than the header.
    CellCount,
    /// The cell is not UTF-8.
    NotUtf8,
    /// The name is not an NCName, in a types table, or not an identifier, in a parameters file.
    BadName,
    /// An earlier record has this name, in a types table in this namespace.
    RepeatedName,
    /// The type name is not one of the header's.
    UnknownType,
    /// The period is not one that the record's type may have.
    UnknownPeriod,
    /// The values are not those of a type that the record's dimension may have.
    UnknownValues,
}

impl EntryProblem {
    /// Returns the published fault of a problem in a file whose bad records have this one.
    fn fault(self, bad: MetaFault) -> MetaFault
        ensures { result ≡ meta_fault bad self }
    {
        match self {
            EntryProblem::TooMany => MetaFault::TooLarge,
            EntryProblem::NoHeader
            | EntryProblem::BadHeader
            | EntryProblem::CellCount
            | EntryProblem::NotUtf8
            | EntryProblem::BadName
            | EntryProblem::RepeatedName
            | EntryProblem::UnknownType
            | EntryProblem::UnknownPeriod
            | EntryProblem::UnknownValues => bad,
        }
    }
}

/// The first fault of a types table or a parameters file.
#[derive(Clone, Copy, Debug, PartialEq, Eq)]
pub struct EntryFault {
    /// What is wrong.
    pub problem: EntryProblem,
    /// The number of the bad record. The header is 0.
    pub number: usize,
    /// The index of its bad cell, from 0. `None` if the record is bad as a whole.
    pub column: Option<usize>,
}

impl EntryFault {
    /// Makes the fault of a whole record.
    pub(crate) fn of_whole(number: usize, problem: EntryProblem) -> EntryFault
        ensures { result ≡ of_whole number problem }
    {
        EntryFault {
            problem,
            number,
            column: None,
        }
    }

    /// Makes the fault of a cell.
    pub(crate) fn in_cell(number: usize, column: usize, problem: EntryProblem) -> EntryFault
        ensures { result ≡ in_cell number (Some column) problem }
    {
        EntryFault {
            problem,
            number,
            column: Some(column),
        }
    }
}

/// The first bad record of a types table or a parameters file. Contracts see what is wrong with it,
/// and its fields.
#[derive(Drop)]
pub struct BadEntry {
    fault: EntryFault,
    row: ByteRecord,
}

impl Model for BadEntry {
    ghost use Rattle.std.specs.Prelude.{List, ℕ};
    ghost use Rattle.csv.specs.Records.{fields_of};
    ghost use Rattle.oim_entries.specs.declared.entry_fault.EntryFault.{EntryFault as FaultValue};

    ghost Value = { FaultValue × List (List ℕ) };

    ghost view = { λ b. (b.fault, fields_of b.row) };
}

impl BadEntry {
    /// Returns what is wrong, and where.
    pub fn fault(&self) -> EntryFault
        ensures { result ≡ (self.now).0 }
    {
        self.fault
    }

    /// Returns the record, which is empty if the file has no record.
    pub fn row(&self) -> &ByteRecord
        ensures { fields_of result.now ≡ (self.now).1 }
    {
        &self.row
    }
}

/// Why a types table or a parameters file gives no value.
#[derive(Drop)]
pub enum EntryRefusal {
    /// The file has a fault. This is its first bad record.
    Bad(BadEntry),
    /// Reading ended early.
    Unread(ReadFault),
}

impl EntryRefusal {
    /// Returns the published fault of a file whose bad records have this one.
    pub fn fault(&self, bad: MetaFault) -> MetaFault
        ensures { result ≡ refusal_fault bad self.now }
    {
        match self {
            EntryRefusal::Bad(entry) => entry.fault().problem.fault(bad),
            EntryRefusal::Unread(fault) => MetaFault::from(*fault),
        }
    }
}

/// Why a file of entries gives no value.
#[derive(Clone, Copy)]
pub(crate) enum Refused {
    /// Reading ended early.
    Unread(ReadFault),
    /// The file has this fault.
    Bad(EntryFault),
}

impl From<ReadFault> for Refused {
    ghost use Rattle.oim_entries.specs.declared.entry_fault.Refused.TheVariants.{Unread};

    ghost from_gives = { λ fault made. made ≡ Unread fault };

    fn from(fault: ReadFault) -> Refused {
        Refused::Unread(fault)
    }
}

impl From<AllocError> for Refused {
    ghost use Rattle.oim_entries.specs.declared.entry_fault.Refused.TheVariants.{Unread};
    ghost use Rattle.oim_records.specs.declared.read_fault.ReadFault.TheVariants.{Memory};

    ghost from_gives = { λ _ made. made ≡ Unread Memory };

    fn from(_error: AllocError) -> Refused {
        Refused::Unread(ReadFault::Memory)
    }
}

/// Returns the value of a file, or why it gives none. The last record that was read is `row`.
pub(crate) fn with_row<T: Drop>(
    read: Result<T, Refused>,
    row: ByteRecord,
) -> Result<T, EntryRefusal>
    ensures { (answer : Result T BadRecord) → AnswersWith (fields_of row) read answer → GivesEntries result answer }
{
    match read {
        Ok(value) => Ok(value),
        Err(Refused::Bad(fault)) => Err(EntryRefusal::Bad(BadEntry { fault, row })),
        Err(Refused::Unread(fault)) => Err(EntryRefusal::Unread(fault)),
    }
}
