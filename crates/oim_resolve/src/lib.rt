//! Reads one cell of a table and returns its fact (xBRL-CSV 1.0; Open Information Model 1.0).
//!
//! A cell gives exactly `cell_result` of `specs/Facts.antt`, unless memory runs out. An absent cell
//! has no fact. Otherwise three steps follow each other: the first step with a fault gives its
//! fault with the least number, and if no step has one, the cell gives the fact. Its identifier is
//! that of the table, the row and the column, joined by dots. The dimensions of a `Fact` are in
//! byte order of name, without repeats.
//!
//! - `resolve` finds the fact of one cell. It keeps nothing for the next cell, so a cell costs what
//!   the levels of its own column write.
//! - `levels` tells what several levels write: names, dimensions and decimals.
//! - `read_value` reads one dimension, `read_concept` a concept, and `fact_value` the fact's cell
//!   by the kind of its concept. `read_set` reads a set of members.
//! - `fault_origin` finds the origin of a fault: the cell itself, the row's cell that names a
//!   property group, a dimension or the decimals (`specs/Origins.antt`). Each fault has one.
//! - `CellOf` is the cell of a fact. `writer_of` and `decimals_writer` find the level that writes a
//!   property (`specs/Writers.antt`), `source_of` the cell or the parameter that gives a reference
//!   its value (`specs/Sources.antt`), and `concept_kind` the kind of the concept.
//!
//! In `specs/`, the files named `Program..` define what contracts see of references and of the
//! value that is read from a cell. The others hold the rules. `specs/state/` describes what the
//! program keeps, and is read together with the code.
//!
//! A call:
//!
//! ```
//! /// Returns the fact of a row's first cell.
//! fn fact_of(alloc: Global, report: &Report, row: &Row) -> Result<Option<Fact>, CellFault> {
//!     if report.tables() == 0 || report.columns(0) == 0 || row.cells.len() != report.columns(0) {
//!         return Ok(None);
//!     }
//!     if report.column(0, 0).kind != ColumnKind::Fact {
//!         return Ok(None);
//!     }
//!     resolve(alloc, report, 0, row, 0)
//! }
//! ```
#![tactic(auto)]

mod cell;
mod dimension;
mod fact;
mod forms;
mod kinds;
mod language;
mod least;
pub mod levels;
mod reading;
mod role;

pub use cell::{CellOf, CellSource, FaultOrigin, Writer, fault_origin, resolve, side_of};
pub use dimension::{Entry, read_concept, read_value};
pub use fact::{CellFault, Fact, Row};
pub use kinds::is_known_member;
pub use reading::{FactValue, ValueText, fact_value, read_set};
pub use role::Role;
