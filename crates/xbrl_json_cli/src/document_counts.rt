//! The facts of each table, counted in the document's bytes as they are written.
//!
//! What a byte tells is proved (`document_marks`); that the counts follow is tested.

use crate::document_marks::{DOCUMENT_START, DocumentMark, DocumentPlace, after, mark};
use std::alloc::{AllocError, Global};
use std::mem;

/// The facts of a table: their number, and how many have decimals, an entity, a period, a unit.
#[derive(Drop)]
pub struct TableFacts {
    /// The table's identifier.
    pub table: Vec<u8>,
    pub facts: u64,
    pub decimals: u64,
    pub entities: u64,
    pub periods: u64,
    pub units: u64,
}

impl TableFacts {
    /// Starts with the first fact of a table, of which nothing more is known.
    fn first_of(table: Vec<u8>) -> TableFacts {
        TableFacts {
            table,
            facts: 1,
            decimals: 0,
            entities: 0,
            periods: 0,
            units: 0,
        }
    }

    /// Counts what the last fact has.
    fn add(&mut self, told: DocumentMark) {
        let count = match told {
            DocumentMark::Decimals => &mut self.decimals,
            DocumentMark::Entity => &mut self.entities,
            DocumentMark::Period => &mut self.periods,
            DocumentMark::Unit => &mut self.units,
            _ => return,
        };
        *count = count.saturating_add(1);
    }
}

/// The counts of a document so far.
#[derive(Drop)]
pub struct DocumentCounts {
    alloc: Global,
    place: DocumentPlace,
    /// The identifier that is being read.
    name: Vec<u8>,
    /// The tables with facts, in the document's order.
    tables: Vec<TableFacts>,
}

impl DocumentCounts {
    /// Starts before the document's first byte.
    pub fn new(alloc: Global) -> DocumentCounts {
        DocumentCounts {
            alloc,
            place: DOCUMENT_START,
            name: Vec::new(alloc),
            tables: Vec::new(alloc),
        }
    }

    /// Returns the counts of the tables with facts, in the document's order.
    pub fn tables(&self) -> &[TableFacts] {
        self.tables.as_slice()
    }

    /// Whether the last table with facts has the identifier that was read.
    fn is_last(&self) -> bool {
        match self.tables.last() {
            Some(last) => last.table.as_slice() == self.name.as_slice(),
            None => false,
        }
    }

    /// Counts a fact of the table whose identifier was read.
    fn add_fact(&mut self) -> Result<(), AllocError> {
        if !self.is_last() {
            let name = mem::replace(&mut self.name, Vec::new(self.alloc));
            self.tables.push(TableFacts::first_of(name))?;
            return Ok(());
        }
        self.name.clear();
        if let Some(last) = self.tables.last_mut() {
            last.facts = last.facts.saturating_add(1);
        }
        Ok(())
    }

    /// Counts what a byte tells.
    #[inline(never)]
    fn add(&mut self, told: DocumentMark, byte: u8) -> Result<(), AllocError> {
        match told {
            DocumentMark::Nothing => {}
            DocumentMark::Name => self.name.push(byte)?,
            DocumentMark::Fact => self.add_fact()?,
            _ => {
                if let Some(last) = self.tables.last_mut() {
                    last.add(told);
                }
            }
        }
        Ok(())
    }

    /// Counts the next bytes of the document. After an error the counts are of no use.
    pub fn take(&mut self, bytes: &[u8]) -> Result<(), AllocError> {
        for byte in bytes {
            let told = mark(self.place, *byte);
            self.place = after(self.place, *byte);
            if told != DocumentMark::Nothing {
                self.add(told, *byte)?;
            }
        }
        Ok(())
    }
}
