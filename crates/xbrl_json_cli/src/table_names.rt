//! The identifiers of a report's tables, from the bytes of its metadata as they are read.
//!
//! Not proved: all of this file. Keys are read as the report's own reader does: escapes are
//! resolved, and of `tables` that are written twice the last one counts.

use crate::json_place::{JsonPlace, START, Within, after};
use serde_json::Value;
use std::alloc::{AllocError, Global};
use std::collections::BTreeSet;

/// The identifiers that were read so far.
#[derive(Drop)]
pub struct TableNames {
    alloc: Global,
    place: JsonPlace,
    /// The key that is being read, in quotes, as it is written.
    key: Vec<u8>,
    /// Whether the last key of the metadata's own object is `tables`.
    are_tables: bool,
    /// The keys of `tables`, which are the tables' identifiers, in byte order.
    names: BTreeSet<String>,
}

impl TableNames {
    /// Starts before the metadata's first byte.
    pub fn new(alloc: Global) -> TableNames {
        TableNames {
            alloc,
            place: START,
            key: Vec::new(alloc),
            are_tables: false,
            names: BTreeSet::new(alloc),
        }
    }

    /// Returns the identifiers, in byte order.
    pub fn names(&self) -> &BTreeSet<String> {
        &self.names
    }

    /// Whether the key at the place is read: one of the metadata's own object, or of `tables`.
    fn is_read(&self) -> bool {
        let depth = self.place.depth;
        self.place.is_key && (depth == 1 || (depth == 2 && self.are_tables))
    }

    /// Keeps what the key that has ended tells.
    fn end_key(&mut self) -> Result<(), AllocError> {
        let Ok(key) = Value::from_slice(self.alloc, self.key.as_slice()) else {
            return Err(AllocError);
        };
        let Some(key) = key.as_str() else {
            return Err(AllocError);
        };
        if self.place.depth == 1 {
            self.are_tables = key == "tables";
            if self.are_tables {
                self.names = BTreeSet::new(self.alloc);
            }
            return Ok(());
        }
        self.names.insert(String::from_str(self.alloc, key)?)?;
        Ok(())
    }

    /// Reads a byte of a key, or its first quote.
    fn take_of_key(&mut self, byte: u8) -> Result<(), AllocError> {
        match self.place.within {
            Within::Nothing if byte != b'"' => return Ok(()),
            Within::Nothing => self.key.clear(),
            _ => {}
        }
        self.key.push(byte)?;
        match self.place.within {
            Within::Text if byte == b'"' => self.end_key(),
            _ => Ok(()),
        }
    }

    /// Reads the next bytes of the metadata. After an error the identifiers are of no use.
    pub fn take(&mut self, bytes: &[u8]) -> Result<(), AllocError> {
        for byte in bytes {
            if self.is_read() {
                self.take_of_key(*byte)?;
            }
            self.place = after(self.place, *byte);
        }
        Ok(())
    }
}
