//! Explanations of faults for a person: where a fault is, what is there, and what is wrong with it.
//! The files of a run that ended with a fault are read again for what the run does not keep.
//!
//! What is proved:
//!
//! - `explain_metadata` names the place of the finding that it is given
//!   (`specs/Explanations.antt`). That of a run is the first, by the contract of
//!   `oim_files::report_of`;
//! - over a folder whose files are known, `explained_fault` names a place in a table's file only if
//!   the file's first fault is that fault, by the definition of the table's stream. It gives the
//!   line of the fault's record, if that is known, and its column (`specs/TablePlaces.antt`);
//! - `explanation_text` gives all lines of an explanation;
//! - over a folder whose files are known, `list_faults` writes the records of all faults of a
//!   refused table, in their order and up to its limit. Each record has what is at its place and
//!   some cause (`specs/ListedFaults.antt`). If the file cannot be read to its end, it writes those
//!   of the first rows and then the failure. If the file's first fault is another one or it cannot
//!   be read again, it writes only the record of the run's fault.
//!
//! What causes a fault of a cell is found by `oim_resolve`, whose definitions say it exactly.
//!
//! It exports what `oim_places` has for the place of a fault and for the file of faults.
//!
//! Not proved, but tested: the sentences, what an explanation shows at a place, the sources of a
//! fault, which of them a record has as its cause, what could be meant, explanations of a types
//! table and a parameters file, all of `report_explanation`, and how a cause of several tables is
//! told.
//!
//! A call, which returns whether the fault of a metadata without a document type is explained at
//! the missing key:
//!
//! ```
//! fn explains_the_key(
//!     alloc: Global,
//!     folder: &mut Texts<'_>,
//!     fault: &FileFault,
//! ) -> Result<bool, AllocError> {
//!     let told = report_explanation(alloc, "m.json", "t.csv", folder, Source::Report, fault)?;
//!     let text = explanation_text(alloc, &told)?;
//!     let place = "    /documentInfo/documentType\n";
//!     Ok(text.as_str().starts_with(place))
//! }
//! ```
#![tactic(auto)]

mod again;
mod causes;
mod entries;
mod explanation;
mod facts;
mod fault_causes;
mod fault_list;
mod files;
mod filings;
mod forms;
mod groups;
mod headers;
mod levels;
mod metadata;
mod namespaces;
mod nearest;
mod numbers;
mod quotes;
mod rows;
mod shared_causes;
mod source_places;
mod sources;
mod spreadsheet;
mod table_again;
mod tables;

pub use again::report_explanation;
pub use explanation::{Explanation, explanation_text};
pub use fault_list::{ListedFaults, RefusedTable, list_faults};
pub use metadata::explain_metadata;
pub use oim_places::{
    FaultCause, FaultPlace, ReportAgain, fault_header, fault_row, lines_are_of_records,
    report_again, report_fault_row, shown,
};
pub use shared_causes::{MOST_TABLES, explained_faults, lines_below};
pub use tables::{ExplainedFault, explained_fault};
