//! A piece of a file that holds whole records.

/// A piece of a file, and the number of records in it.
#[derive(Drop)]
pub struct FilePiece {
    pub bytes: Vec<u8>,
    pub records: u64,
}
