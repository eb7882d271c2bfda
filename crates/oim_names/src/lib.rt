//! Names of an Open Information Model 1.0 report: identifiers, prefixes with their URIs, qualified
//! names, units, languages and file paths. The text and list types that the other crates share are
//! here too.
//!
//! What is proved:
//!
//! - [`is_identifier`], [`is_row_identifier`] and [`is_ncname`] accept exactly the texts whose
//!   first and other characters are in given sets of XML 1.0 fifth edition (`specs/Names.antt`).
//! - [`Namespaces`] is a finite map from prefixes, which are NCNames, to URIs. Each prefix and each
//!   URI occurs once, and the prefixes are in byte order. `add` returns `BadPrefix` and `Repeated`
//!   exactly when they apply, and a call that fails changes nothing.
//! - [`qname`], [`sqname`], [`unit`] and [`language`] return a value exactly if the grammar has the
//!   text. For a QName and an SQName it is the grammar's only value. For a unit it is `Pure`
//!   exactly for the unit of pure numbers. All four equal short functions that the contracts of
//!   other crates cite.
//! - [`is_plain_path`] accepts exactly the paths without a barred character and without a bad
//!   segment.
//!
//! `add`, `language` and the calls that copy or grow a text, a list or namespaces take memory. The
//! others take none.
//!
//! Example:
//!
//! ```
//! /// The concept that a name with a prefix names.
//! fn names_a_concept(alloc: Global) -> Result<bool, NameFault> {
//!     let mut names = Namespaces::new(alloc);
//!     names.add("eg", "http://example.com/eg")?;
//!     Ok(qname(&names, "eg:Cash") == Some(("http://example.com/eg", "Cash")))
//! }
//! ```
#![tactic(auto)]

mod languages;
mod names;
mod namespaces;
mod paths;
mod qnames;
mod text;
mod unit_kind;
mod units;

pub use languages::language;
pub use names::{is_identifier, is_ncname, is_row_identifier};
pub use namespaces::{NameFault, Namespaces};
pub use paths::is_plain_path;
pub use qnames::{qname, sqname};
pub use text::{Items, Text, find, find_in_order};
pub use unit_kind::UnitKind;
pub use units::unit;
