//! The files of a report in a folder, and the report that they give.
//!
//! What is proved, for any folder whose files are known (`Folder::files`):
//!
//! - `report_of` returns the report that the files define, or the first fault in the order in which
//!   they are read (`specs/Steps.antt`). It reads the metadata, up to one byte past the limit, the
//!   types table and the parameters file that the metadata names. Last it makes the report of the
//!   metadata. Only a failed read or running out of memory may end it elsewhere, at a step where
//!   that is possible: with `Read` and the source of that step's file, or with `Memory`.
//! - A fault has its place (`specs/FileFaults.antt`): in the metadata that of the first finding of
//!   the walk over it (`specs/Metadata.antt`), in the types table and the parameters file the first
//!   bad record.
//! - `metadata_at`, `types_in`, `url_in` and `parameters_in` are its steps one by one, with the
//!   same clauses. `report_with` is `report_of` after the first of them.
//! - `folder_of` returns a path up to and including its last `/`, and `path_in` the path of a file
//!   in a folder (`specs/Folders.antt`).
//! - No step changes a file.
//!
//! Example:
//!
//! ```
//! /// Whether the files of a folder give a report of one table.
//! fn gives_one_table(alloc: Global, folder: &mut Texts<'_>) -> bool {
//!     let report: Result<Report, EarlyFault> = report_of(
//!         alloc,
//!         folder,
//!         folder_of("f/m.json"),
//!         "f/m.json",
//!         "t.csv",
//!     );
//!     report.is_ok_and(|report| report.tables() == 1)
//! }
//! ```
#![tactic(auto)]

mod early_fault;
mod folder;
mod steps;
mod watched;

pub use early_fault::{EarlyFault, FileFault, Source};
pub use folder::{Folder, Texts, folder_of};
pub use steps::{metadata_at, parameters_in, path_in, report_of, report_with, types_in, url_in};
