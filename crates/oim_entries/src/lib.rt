//! The parameters file and the types table of a report, which are CSV files of a header and a
//! record for each entry; and the faults of a report's metadata and of these files.
//!
//! What is proved:
//!
//! - `read_parameters` and `read_types` return a value exactly if the file has no fault, else the
//!   fault of its header or of its earliest bad record (`specs/ParametersFile.antt`,
//!   `specs/TypesFile.antt`, `specs/CsvFiles.antt`). This holds for readers whose bytes are known.
//!   Running out of memory and a failed read are the only exceptions.
//! - `read_parameters_at` and `read_types_at` return the same value, or else the first bad record
//!   itself, what is wrong with it, its number and which of its cells is bad
//!   (`specs/BadEntries.antt`, `specs/EntryFaults.antt`). The fault that the calls above return is
//!   that record's (`fault_is_of_first_bad_record`).
//! - Laws about all records after the header (`fault_is_of_earliest_record`,
//!   `types_are_of_all_records`, `specs/WholeFile.antt`).
//! - The number and the name of each fault (`specs/FaultNames.antt`).
//!
//! Example:
//!
//! ```
//! /// Whether a parameters file has this name.
//! fn has_parameter(alloc: Global, file: &[u8], name: &str) -> bool {
//!     match read_parameters(alloc, file) {
//!         Ok(parameters) => parameters.has_name(name),
//!         Err(_) => false,
//!     }
//! }
//! ```
#![tactic(auto)]

mod entries;
mod entry_fault;
mod fault;
mod fields;
mod file_laws;
mod kind_words;
mod parameters;
mod type_words;
mod types;

pub use entry_fault::{BadEntry, EntryFault, EntryProblem, EntryRefusal};
pub use fault::MetaFault;
pub use file_laws::{
    fault_is_of_earliest_record, fault_is_of_first_bad_record, types_are_of_all_records,
};
pub use parameters::{read_parameters, read_parameters_at};
pub use types::{read_types, read_types_at};
