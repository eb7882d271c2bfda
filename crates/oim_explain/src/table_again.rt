//! A table of a report whose file is read again.

ghost use Rattle.std.specs.Prelude.{◌<◌, length};

use csv::ByteRecord;
use oim_meta::Column;
use oim_names::{Items, Text};
use oim_places::{ReportAgain, RowAgain, text_at};
use oim_resolve::Row;
use std::alloc::{AllocError, Global};

/// A table, its file, and where the columns of its template are there.
#[derive(Drop)]
pub(crate) struct TableAgain<'r> {
    /// The report.
    pub(crate) again: &'r ReportAgain,
    /// The path of the metadata.
    pub(crate) meta: &'r str,
    /// The path of the table's file.
    pub(crate) path: &'r str,
    /// The line at which its header begins, if it is known.
    pub(crate) line: Option<u64>,
    /// The place of the table in the report.
    pub(crate) table: usize,
    /// The identifier of the table.
    pub(crate) id: &'r str,
    /// The columns of the template.
    pub(crate) columns: &'r [Column],
    /// The place of each of them in the file's records, if the header has it.
    places: Vec<Option<usize>>,
    /// The place of the header's empty cell, if it has exactly one.
    pub(crate) unnamed: Option<usize>,
}

/// Returns the place of a record's empty cell, if it has exactly one.
fn empty_cell(row: &ByteRecord) -> Option<usize> {
    let mut found = None;
    for place in 0..row.len() {
        if text_at(row, place) == Some("") {
            if found.is_some() {
                return None;
            }
            found = Some(place);
        }
    }
    found
}

impl<'r> TableAgain<'r> {
    /// Makes that of the table at a place of the report. `line` is the line of its header.
    pub(crate) fn new(
        alloc: Global,
        again: &'r ReportAgain,
        meta: &'r str,
        path: &'r str,
        table: usize,
        header: &ByteRecord,
        line: Option<u64>,
    ) -> Result<TableAgain<'r>, AllocError>
        requires { table < length again.now.report.tables }
    {
        let report = &again.report;
        let columns = report.template_columns(table);
        let mut places = Vec::new(alloc);
        for _ in columns {
            places.push(None)?;
        }
        for place in 0..header.len() {
            let name = text_at(header, place).unwrap_or("");
            match report.place_of_column(table, name.as_bytes()) {
                Some(column) if column < places.len() => places[column] = Some(place),
                _ => {}
            }
        }
        Ok(TableAgain {
            again,
            meta,
            path,
            line,
            table,
            id: report.table_id(table),
            columns,
            places,
            unnamed: empty_cell(header),
        })
    }

    /// Returns the parameter of this name.
    pub(crate) fn parameter(&self, name: &str) -> Option<&'r str> {
        let report = &self.again.report;
        if self.table < report.tables() {
            report.parameter(self.table, name)
        } else {
            None
        }
    }

    /// Returns the place of the column of this name in the template, if it has it.
    pub(crate) fn place_of(&self, name: &str) -> Option<usize> {
        let report = &self.again.report;
        if self.table < report.tables() {
            report.place_of_column(self.table, name.as_bytes())
        } else {
            None
        }
    }

    /// Returns the place in the file's records of the column of this name, if the header has it.
    pub(crate) fn place_in_file(&self, name: &str) -> Option<usize> {
        match self.place_of(name) {
            Some(column) if column < self.places.len() => self.places[column],
            _ => None,
        }
    }

    /// Returns the row of these records with this number, by the places of the template. A column
    /// that the file omits has the empty text, and the identifier is empty.
    pub(crate) fn row_of(
        &self,
        alloc: Global,
        cells: &RowAgain,
        number: u32,
    ) -> Result<Row, AllocError> {
        let mut texts = Items::new(alloc);
        for place in self.places.as_slice() {
            let text = match place {
                Some(place) => text_at(&cells.row, *place).unwrap_or(""),
                None => "",
            };
            texts.push(Text::from_str(alloc, text)?)?;
        }
        Ok(Row::new(number, Text::from_str(alloc, "")?, texts))
    }
}
