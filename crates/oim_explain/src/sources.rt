//! The sources of a fault of a cell: a cell that names a property group, a property of the
//! metadata, and the cell or the parameter that it refers to.

use crate::levels::RowOfFault;
use oim_meta::{Written, WrittenDecimals};
use oim_resolve::{CellSource, FaultOrigin, Writer};
use std::alloc::{AllocError, Global};

/// A place that leads to a fault.
#[derive(Drop)]
pub(crate) enum SourcePlace<'r> {
    /// The row's cell at this place of the file's records.
    Cell(usize),
    /// The header's cell at this place.
    HeaderCell(usize),
    /// The row, because the header has no column of this name.
    NoColumn(&'r str),
    /// The property of the metadata to which these keys lead.
    Property(Vec<&'r str>),
    /// The parameter with this name and this value in the parameters file.
    Given(&'r str, &'r str),
}

/// Lists the places that lead to a fault.
#[derive(Drop)]
struct Places<'r, 's> {
    alloc: Global,
    row: &'s RowOfFault<'r>,
    places: Vec<SourcePlace<'r>>,
}

impl<'r, 's> Places<'r, 's> {
    /// Puts a place.
    fn put(&mut self, place: SourcePlace<'r>) -> Result<(), AllocError> {
        self.places.push(place)?;
        Ok(())
    }

    /// Puts a cell of the fault's row, in the column of this name, if the file has it.
    fn put_cell(&mut self, column: &str) -> Result<(), AllocError> {
        match self.row.table.place_in_file(column) {
            Some(place) => self.put(SourcePlace::Cell(place)),
            None => Ok(()),
        }
    }

    /// Puts the same, or that the header has no such column.
    fn put_cell_or_none(&mut self, column: &'r str) -> Result<(), AllocError> {
        match self.row.table.place_in_file(column) {
            Some(place) => self.put(SourcePlace::Cell(place)),
            None => self.put(SourcePlace::NoColumn(column)),
        }
    }

    /// Puts the cells of the row that could name a property group and are absent: such a group
    /// could write what is missing.
    fn put_cells_without_group(&mut self) -> Result<(), AllocError> {
        let row = self.row;
        for place in row.from().iter().rev() {
            if row.is_group_absent(*place) {
                self.put_cell_or_none(row.column_id(*place))?;
            }
        }
        Ok(())
    }

    /// Puts the property of the metadata to which these keys lead.
    fn put_keys(&mut self, keys: &[&'r str]) -> Result<(), AllocError> {
        self.put(SourcePlace::Property(Vec::from_slice(self.alloc, keys)?))
    }

    /// Puts a property that a level writes, after the cell that names the level if that is a
    /// property group.
    fn put_property(&mut self, writer: Writer, property: &[&'r str]) -> Result<(), AllocError> {
        if let Writer::Group(place) = writer {
            self.put_cell(self.row.column_id(place))?;
        }
        let keys = self.row.keys_of(self.alloc, writer, property)?;
        self.put(SourcePlace::Property(keys))
    }

    /// Puts a parameter: of the table, else of the report, else of the parameters file.
    fn put_parameter(&mut self, name: &'r str, text: &'r str) -> Result<(), AllocError> {
        let table = self.row.table;
        let of_table = ["tables", table.id, "parameters", name];
        let of_report = ["parameters", name];
        if table.again.written_at(&of_table).is_some() {
            self.put_keys(&of_table)
        } else if table.again.written_at(&of_report).is_some() {
            self.put_keys(&of_report)
        } else {
            self.put(SourcePlace::Given(name, text))
        }
    }

    /// Puts what a reference names: the row's cell or the parameter.
    fn put_referred(&mut self, name: &'r str) -> Result<(), AllocError> {
        match self.row.cell.source_of(name) {
            CellSource::Cell(_) => self.put_cell(name),
            CellSource::Parameter => {
                let text = self.row.table.parameter(name).unwrap_or("");
                self.put_parameter(name, text)
            }
            CellSource::Nothing => self.put_missing(name),
        }
    }

    /// Puts the row's empty cell in the column of a name that refers to nothing. If the header
    /// lacks the column, it is the header's empty cell or the row.
    fn put_missing(&mut self, name: &'r str) -> Result<(), AllocError> {
        let table = self.row.table;
        if table.place_of(name).is_none() || table.place_in_file(name).is_some() {
            return self.put_cell(name);
        }
        match table.unnamed {
            Some(place) => self.put(SourcePlace::HeaderCell(place)),
            None => self.put(SourcePlace::NoColumn(name)),
        }
    }

    /// Puts the places of a dimension's value. If nothing writes it, the cells that name no
    /// property group are last: the first of these is to be mended.
    fn put_dimension(&mut self, name: &'r str) -> Result<(), AllocError> {
        let Some((writer, written)) = self.row.cell.writer_of(name) else {
            self.put_property(Writer::Column, &["dimensions", name])?;
            return self.put_cells_without_group();
        };
        self.put_property(writer, &["dimensions", name])?;
        match written {
            Written::Named(name, _) => self.put_referred(name.as_str()),
            _ => Ok(()),
        }
    }

    /// Puts the places of the decimals.
    fn put_decimals(&mut self) -> Result<(), AllocError> {
        let Some((writer, written)) = self.row.cell.decimals_writer() else {
            return Ok(());
        };
        self.put_property(writer, &["decimals"])?;
        match written {
            WrittenDecimals::Named(name) => self.put_referred(name.as_str()),
            _ => Ok(()),
        }
    }
}

/// Returns the places elsewhere that lead to a cell's fault. The last one is to be mended.
pub(crate) fn sources<'r>(
    alloc: Global,
    row: &RowOfFault<'r>,
    origin: Option<FaultOrigin<'r>>,
) -> Result<Vec<SourcePlace<'r>>, AllocError> {
    let mut found = Places {
        alloc,
        row,
        places: Vec::new(alloc),
    };
    match origin {
        Some(FaultOrigin::Cell) | None => {}
        Some(FaultOrigin::GroupCell(place)) => found.put_cell(row.column_id(place))?,
        Some(FaultOrigin::Dimension(name)) => found.put_dimension(name)?,
        Some(FaultOrigin::Decimals) => found.put_decimals()?,
    }
    Ok(found.places)
}
