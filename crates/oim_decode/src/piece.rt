//! Pieces to facts, each without the others, and their join.

pub(crate) mod first_records;
pub(crate) mod piece_answer;
mod piece_blocks;
pub(crate) mod piece_decoder;
pub(crate) mod piece_join;
mod piece_rows;
mod piece_spares;
mod written_rows;
