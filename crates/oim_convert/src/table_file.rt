//! The file of a table that is to be decoded.

use oim_report::{Limits, Report};

/// A table's file: the table's report and its place there, the reader, and the limits for it.
#[derive(Drop)]
pub(crate) struct TableFile<'r, R> {
    pub(crate) report: &'r Report,
    pub(crate) table: usize,
    pub(crate) reader: R,
    pub(crate) limits: Limits,
}
