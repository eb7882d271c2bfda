//! The faults of a conversion.

ghost use Rattle.std.specs.Prelude.{◌≡◌};
ghost use Rattle.oim_convert.specs.FaultNames.{number_of, name_of};

use oim_json::WriteFault;
use oim_rows::TableFault;
use std::error::Error;
use std::fmt;
use std::fmt::{Display, Formatter};

/// Why a conversion ends without a whole document.
#[derive(Debug, PartialEq, Eq, Drop)]
pub enum ConvertFault {
    /// 50: the number of workers is not 1 to 64.
    BadWorkers,
    /// 51: the ring's size is not 1 to 65,536.
    BadSize,
    /// 52: the number of readers is not the number of tables.
    WrongReaders,
    /// 53: memory ran out before anything was written.
    Memory,
    /// 54: a ring's token was lost. The clauses allow it only for `convert`.
    Lost,
    /// 55: tables have faults. It has the first fault of each such table, in table order.
    Tables(Vec<TableFault>),
    /// 56: a write failed.
    Write(WriteFault),
}

impl ConvertFault {
    /// Returns a sentence for people, without a capital and a full stop.
    pub fn explanation(&self) -> &'static str {
        match self {
            ConvertFault::BadWorkers => "the number of workers is not 1 to 64",
            ConvertFault::BadSize => "the size of the rings is not 1 to 65,536",
            ConvertFault::WrongReaders => "the number of readers is not the number of tables",
            ConvertFault::Memory => "memory ran out before anything was written",
            ConvertFault::Lost => "the end of a ring was lost",
            ConvertFault::Tables(_) => "tables have faults",
            ConvertFault::Write(_) => "a write failed",
        }
    }
}

/// A fault prints its name.
impl Display for ConvertFault {
    fn fmt<W: fmt::Write>(&self, f: &mut Formatter<W>) -> fmt::Result {
        f.write_str(self.name())
    }
}

impl Error for ConvertFault {}

impl ConvertFault {
    /// Returns the fault's number, 50 to 56.
    pub fn number(&self) -> u32
        ensures { result ≡ number_of self.now }
    {
        match self {
            ConvertFault::BadWorkers => 50,
            ConvertFault::BadSize => 51,
            ConvertFault::WrongReaders => 52,
            ConvertFault::Memory => 53,
            ConvertFault::Lost => 54,
            ConvertFault::Tables(_) => 55,
            ConvertFault::Write(_) => 56,
        }
    }

    /// Returns the fault's name, as the program prints it.
    pub fn name(&self) -> &'static str
        ensures { result.now ≡ name_of self.now }
    {
        match self {
            ConvertFault::BadWorkers => "BadWorkers",
            ConvertFault::BadSize => "BadSize",
            ConvertFault::WrongReaders => "WrongReaders",
            ConvertFault::Memory => "Memory",
            ConvertFault::Lost => "Lost",
            ConvertFault::Tables(_) => "Tables",
            ConvertFault::Write(_) => "Write",
        }
    }
}
