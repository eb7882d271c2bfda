//! The rows of a table.

pub(crate) mod cell_writer;
pub(crate) mod row_writer;
