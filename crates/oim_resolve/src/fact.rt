//! The input and results of reading a cell: a row of a table, a fact, or a fault.

ghost use Rattle.std.specs.Prelude.{◌≡◌, map};
ghost use Rattle.std.specs.Option.{option_map};
ghost use Rattle.oim_resolve.specs.Faults.{number_of, name_of};
ghost use Rattle.oim_resolve.specs.Order.{IsAscending};
ghost use Rattle.oim_resolve.specs.declared.fact.CellFault.TheVariants.{Memory};

use oim_names::{Items, Text};
use std::alloc::AllocError;
use std::error::Error;
use std::fmt;
use std::fmt::{Display, Formatter};
use std::marker::Model;

/// A row of a table: its number, from 1, its identifier, and a cell for each column of the
/// template.
///
/// The cells are in the template's order. A column that the file omits has the empty text.
#[derive(Drop)]
pub struct Row {
    pub number: u32,
    pub id: Text,
    pub cells: Items<Text>,
}

impl Row {
    /// Makes a row of these parts. It takes no memory.
    pub fn new(number: u32, id: Text, cells: Items<Text>) -> Row
        ensures { result ≡ record { number = number; id = id; cells = cells } }
    {
        Row { number, id, cells }
    }
}

/// A fact. Its dimensions are in byte order of name, without repeats. A contract sees its parts.
pub struct Fact {
    id: Text,
    value: Option<Text>,
    decimals: Option<i32>,
    dimensions: Items<(Text, Option<Text>)>,
}

// Written by hand so that each place that drops one makes a single call.
impl Drop for Fact {
    fn drop(self) {
        let Self {
            id: _,
            value: _,
            decimals: _,
            dimensions: _,
        } = self;
    }
}

impl Model for Fact {
    ghost use Rattle.std.specs.Prelude.{map};
    ghost use Rattle.oim_resolve.specs.FactParts.{FactParts};

    ghost Value = { FactParts };

    ghost use Rattle.oim_resolve.specs.Order.{IsAscending};

    ghost view = { λ f. record { id = f.id; value = f.value; decimals = f.decimals; dimensions = f.dimensions } };

    ghost invariant = { λ f. IsAscending (map (λ d. d.0) f.dimensions) };
}

impl Fact {
    /// Makes a fact of these parts. It takes no memory.
    ///
    /// The dimensions must be in byte order of name, without repeats.
    pub fn new(
        id: Text,
        value: Option<Text>,
        decimals: Option<i32>,
        dimensions: Items<(Text, Option<Text>)>,
    ) -> Fact
        requires { IsAscending (map (λ d. d.0) dimensions) }
        ensures { result ≡ record { id = id; value = value; decimals = decimals; dimensions = dimensions } }
    {
        Fact {
            id,
            value,
            decimals,
            dimensions,
        }
    }

    /// Returns the identifier.
    pub fn id(&self) -> &str
        ensures { result.now ≡ (self.now).id }
    {
        self.id.as_str()
    }

    /// Returns the text of the value, or `None` for nil.
    pub fn value(&self) -> Option<&Text>
        ensures { option_map (λ t. t.now) result ≡ (self.now).value }
    {
        self.value.as_ref()
    }

    /// Returns how many decimal places are accurate, below 0 for places before the point.
    ///
    /// `None` means that the value is exact, or that its accuracy is not given.
    pub fn decimals(&self) -> Option<i32>
        ensures { result ≡ (self.now).decimals }
    {
        self.decimals
    }

    /// Returns the dimensions in byte order of name, without repeats. A value of `None` is nil.
    pub fn dimensions(&self) -> &[(Text, Option<Text>)]
        ensures dimensions { result.now ≡ (self.now).dimensions }
        ensures order { IsAscending (map (λ d. d.0) result.now) }
    {
        self.dimensions.as_slice()
    }
}

/// A fault of a cell (xBRL-CSV 1.0).
#[derive(Clone, Copy, Debug, PartialEq, Eq)]
pub enum CellFault {
    /// A text begins with a single `#` and is not a special value.
    UnknownSpecial,
    /// A group cell names no property group of its column.
    UnknownGroup,
    /// No concept is given.
    NoConcept,
    /// The concept is not the name of a concept in the types table.
    UnknownName,
    /// A dimension that is not typed is nil or empty.
    BadReference,
    /// An entity, a unit, a language or a member of an explicit dimension is not well-formed, or a
    /// typed value is not of its type.
    BadValue,
    /// A period is not well-formed.
    BadPeriod,
    /// The start or the end of an instant is asked for.
    NotDuration,
    /// Decimals are neither an integer of 32 bits nor `INF`.
    BadDecimals,
    /// The cell of a number is not a numeral.
    BadNumber,
    /// Memory ran out.
    Memory,
    /// The cell of a boolean, a date, a name or another type with a form is not well-formed.
    BadFactValue,
    /// The unit is missing or not the one that the concept wants.
    BadUnit,
    /// The period is missing or not of the type that the concept wants.
    WrongPeriod,
    /// The types table names no such member.
    UnknownMember,
}

impl CellFault {
    /// Returns an explanation for people, as a sentence without capital and full stop.
    pub fn explanation(&self) -> &'static str {
        match self {
            CellFault::UnknownSpecial => "a text begins with # and is not a special value",
            CellFault::UnknownGroup => "a cell names no property group of its column",
            CellFault::NoConcept => "no concept is given",
            CellFault::UnknownName => {
                "the types table has no concept of this name, or its prefix is not declared"
            }
            CellFault::BadReference => "a dimension that is not typed is nil or empty",
            CellFault::BadValue => {
                "an entity, unit, language or explicit member is not well-formed, or its prefix is not declared"
            }
            CellFault::BadPeriod => "a period is not well-formed",
            CellFault::NotDuration => "the start or end of an instant is asked for",
            CellFault::BadDecimals => "decimals are neither a whole number of 32 bits nor INF",
            CellFault::BadNumber => "the cell of a number is not a numeral",
            CellFault::Memory => "memory ran out",
            CellFault::BadFactValue => {
                "the cell of a boolean, date or name is not well-formed, or its prefix is not declared"
            }
            CellFault::BadUnit => "the unit is not the one that the concept wants, or is missing",
            CellFault::WrongPeriod => {
                "the period is not of the type that the concept wants, or is missing"
            }
            CellFault::UnknownMember => "the types table names no such member",
        }
    }
}

/// Writes the fault's name.
impl Display for CellFault {
    fn fmt<W: fmt::Write>(&self, f: &mut Formatter<W>) -> fmt::Result {
        f.write_str(self.name())
    }
}

impl Error for CellFault {}

impl CellFault {
    /// Returns the number of the fault: 31 to 40, 42 or 44 to 47.
    pub fn number(&self) -> u32
        ensures { result ≡ number_of self.now }
    {
        match self {
            CellFault::UnknownSpecial => 31,
            CellFault::UnknownGroup => 32,
            CellFault::NoConcept => 33,
            CellFault::UnknownName => 34,
            CellFault::BadReference => 35,
            CellFault::BadValue => 36,
            CellFault::BadPeriod => 37,
            CellFault::NotDuration => 38,
            CellFault::BadDecimals => 39,
            CellFault::BadNumber => 40,
            CellFault::Memory => 42,
            CellFault::BadFactValue => 44,
            CellFault::BadUnit => 45,
            CellFault::WrongPeriod => 46,
            CellFault::UnknownMember => 47,
        }
    }

    /// Returns the name of the fault, as the variant is written.
    pub fn name(&self) -> &'static str
        ensures { result.now ≡ name_of self.now }
    {
        match self {
            CellFault::UnknownSpecial => "UnknownSpecial",
            CellFault::UnknownGroup => "UnknownGroup",
            CellFault::NoConcept => "NoConcept",
            CellFault::UnknownName => "UnknownName",
            CellFault::BadReference => "BadReference",
            CellFault::BadValue => "BadValue",
            CellFault::BadPeriod => "BadPeriod",
            CellFault::NotDuration => "NotDuration",
            CellFault::BadDecimals => "BadDecimals",
            CellFault::BadNumber => "BadNumber",
            CellFault::Memory => "Memory",
            CellFault::BadFactValue => "BadFactValue",
            CellFault::BadUnit => "BadUnit",
            CellFault::WrongPeriod => "WrongPeriod",
            CellFault::UnknownMember => "UnknownMember",
        }
    }
}

impl From<AllocError> for CellFault {
    ghost from_gives = { λ e f. f ≡ Memory };

    fn from(_error: AllocError) -> CellFault {
        CellFault::Memory
    }
}
