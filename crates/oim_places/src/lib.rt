//! Places in the files of a report, which are read again: where the faults of a table are, what is
//! there, and their records in the file of faults. Places and what is at them are texts that are
//! safe to show on a terminal.
//!
//! What is proved:
//!
//! - `BadRows` gives all faults of a table's file in order, by the definition of
//!   `oim_table_faults`, row by row, each with its line and its cells of the header and of the row.
//!   It ends early only if a reader fails or memory runs out (`specs/FaultLists.antt`);
//! - over a folder whose files are known, `fault_record` gives a record of a table's file only if
//!   the file's first fault is that fault, by the definition of the table's stream. Its place has
//!   the line of the record, if that is known, and the cells of the header and of the row in the
//!   fault's column (`specs/FaultPlaces.antt`);
//! - `report_again` gives the report that the files give (`specs/Reports.antt`);
//! - the line of a record (`line_of_record`), which `line_again` and `BadRows` give, is that of its
//!   first byte (`lines_are_of_records`, `specs/LineNumbers.antt`);
//! - `fault_row` and `report_fault_row` give the record of a fault in the file of faults. It is
//!   read as its thirteen fields, whatever follows it (`specs/FaultRows.antt`);
//! - `shown` gives a text with an escape for each control or invisible character, and `excerpt` its
//!   first 80 characters (`specs/Shown.antt`). `pointer` gives the JSON pointer of keys
//!   (`specs/Pointers.antt`), `place_in_file` the text of a line and a cell
//!   (`specs/FilePlaces.antt`), `cell_shown` and `record_shown` what is in a cell and in a whole
//!   record (`specs/Cells.antt`).
//!
//! Not proved: the text of `standing` for a JSON value, what `after_mark` gives, the lines of
//! `ParameterLines`, and that `first_record_with` finds the first record. Tests cover them.
//!
//! A call, which returns whether the fault of a table's first row is in line 2 of its file, at a
//! cell `x` under the header `cash`:
//!
//! ```
//! fn finds_the_cell(
//!     alloc: Global,
//!     folder: &mut Texts<'_>,
//!     again: &ReportAgain,
//!     fault: &TableFault,
//! ) -> Result<bool, AllocError> {
//!     if fault.table >= again.report.tables() {
//!         return Ok(false);
//!     }
//!     let path = table_path(alloc, "f/m.json", &again.report, fault.table)?;
//!     let found = fault_record(alloc, folder, path.as_str(), &again.report, fault)?;
//!     Ok(is_of_the_cell(&found))
//! }
//! ```
#![tactic(auto)]

mod bad_rows;
mod cells;
mod excerpts;
mod fault_cause;
mod fault_places;
mod fault_rows;
mod file_places;
mod json_values;
mod line_number;
mod parameter_lines;
mod pointers;
mod record_lines;
mod records;
mod reread;
mod terminal;

pub use bad_rows::{BadRows, LocatedFault, fault_records_are_by_row};
pub use cells::{cell_shown, field_as_text, record_shown, text_at};
pub use excerpts::excerpt;
pub use fault_cause::FaultCause;
pub use fault_places::{
    FaultPlace, FaultRecord, bad_rows_at, fault_record, is_of_file, place_in_record, table_path,
};
pub use fault_rows::{fault_header, fault_row, more_faults_row, report_fault_row};
pub use file_places::{line_again, place_in_file};
pub use json_values::{after_mark, quoted, standing};
pub use line_number::lines_are_of_records;
pub use parameter_lines::ParameterLines;
pub use pointers::{pointer, pointer_to};
pub use records::{RowAgain, first_record_with};
pub use reread::{ReportAgain, report_again};
pub use terminal::shown;
