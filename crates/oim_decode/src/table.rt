//! Rows to facts, and facts to blocks.

pub(crate) mod fact_list;
pub(crate) mod pending_facts;
mod plain_rows;
mod row_rest;
pub(crate) mod row_texts;
pub(crate) mod table_blocks;
pub(crate) mod text_rows;
