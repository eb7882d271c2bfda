//! The metadata of a report in xBRL-CSV 1.0, read from its bytes into a `Report`.
//!
//! What is proved:
//!
//! - `read_report` returns a report exactly if the metadata has no fault, and then the report of
//!   its JSON (`specs/Value.antt`). Else it returns the first fault: of the bytes
//!   (`specs/Reading.antt`), then of their value in the order of `specs/FirstFault.antt`, which has
//!   one predicate for each fault number.
//! - `read_report_at` does the same, and also returns the keys that lead to the fault's place. It
//!   returns the first finding of a walk over the metadata (`specs/WalkReport.antt`,
//!   `a_walk_finds_all_faults`, `first_finding_is_least`).
//! - `parameter_url` returns a value exactly if the metadata has none of the four faults that it
//!   names, else the first of them.
//! - A `Metadata` is the JSON of a metadata, read once. Its `parameter_url` and `report_at` have
//!   the contracts of the calls above, for its value instead of bytes.
//! - A dimension's text has a fault exactly if it writes no value. Else it writes one value, which
//!   the report has (`a_text_writes_one_value`, `specs/Writes.antt`).
//! - A metadata has a fault of its document type, namespaces, taxonomy, extensions, identifiers,
//!   shape, kinds of columns or templates exactly if a part does not have its shape in
//!   `specs/Shapes.antt` (`faults_of_shape_are_parts_without_it`).
//!
//! If memory runs out, any of these calls may return `Memory` instead. `oim_entries` reads the
//! parameters file and the types table, and this crate re-exports its names.
//!
//! Example:
//!
//! ```
//! /// The report of a metadata file and a types table, without a parameters file.
//! fn reads_a_report(alloc: Global) -> Result<Report, MetaFault> {
//!     let types = read_types(alloc, TYPES.as_bytes())?;
//!     let parameters = Parameters::none(alloc);
//!     read_report(
//!         alloc,
//!         METADATA.as_bytes(),
//!         parameters,
//!         types,
//!         Limits::profile(),
//!     )
//! }
//! ```
#![tactic(auto)]

mod build;
mod counts;
mod decimals;
mod document;
mod fault_laws;
mod finding_laws;
mod findings;
mod json_path;
mod lookup;
mod metadata;
mod order;
mod read;
mod refusal;
mod report;
mod shape_laws;
mod shapes;
mod text_laws;
mod walk;
mod written;

pub use fault_laws::first_fault_is_least;
pub use finding_laws::{a_walk_finds_all_faults, first_finding_is_least};
pub use findings::Finding;
pub use metadata::Metadata;
pub use oim_entries::{
    MetaFault, fault_is_of_earliest_record, read_parameters, read_types, types_are_of_all_records,
};
pub use oim_records::{ReadFault, Records};
pub use oim_report::{
    Column, ColumnKind, Info, Kind, Level, Limits, Parameters, Report, Side, Table, Template,
    TypedName, Types, Written, WrittenDecimals,
};
pub use read::{parameter_url, read_report, read_report_at};
pub use refusal::Refusal;
pub use shape_laws::faults_of_shape_are_parts_without_it;
pub use text_laws::a_text_writes_one_value;
