//! Why a file could not be read on.

/// Why no next piece or record could be read.
#[derive(Clone, Copy, PartialEq, Eq, Debug, Drop)]
pub enum ReadFault {
    /// The reader failed.
    Read,
    /// Memory ran out.
    Memory,
}
