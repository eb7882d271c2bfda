//! A walk over the parts of a metadata, which makes each part and finds its faults.

mod columns;
mod dimensions;
mod groups;
mod kinds;
mod levels;
pub(crate) mod parameters;
pub(crate) mod report;
mod sources;
mod tables;
mod templates;

use oim_names::Namespaces;
use oim_report::{Limits, Parameters, Types};
use std::alloc::Global;

/// The input of a walk: the types and the prefixes, which dimensions are read by, the parameters of
/// the parameters file, and the limits.
#[derive(Drop)]
pub(crate) struct Walk<'a> {
    pub(crate) alloc: Global,
    pub(crate) types: &'a Types,
    pub(crate) names: &'a Namespaces,
    pub(crate) given: &'a Parameters,
    pub(crate) limits: Limits,
}
