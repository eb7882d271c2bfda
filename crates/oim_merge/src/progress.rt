//! How far a document is written, and how a merge ends.

use oim_json::WriteFault;

/// How a merge ended.
#[derive(Clone, Copy, PartialEq, Eq, Debug)]
pub enum MergeEnd {
    /// Every table ended closed, and the document is whole.
    Complete,
    /// A table was refused. The facts before the first refusal are written.
    Refused,
    /// A write failed or took nothing before all was written. A prefix of the document is written.
    Write(WriteFault),
}

/// Whether the document is still being written.
#[derive(Clone, Copy)]
pub(crate) enum Standing {
    Open,
    Refused,
    Broken(WriteFault),
}

/// The progress of a document.
#[derive(Clone, Copy)]
pub(crate) struct DocumentProgress {
    pub(crate) standing: Standing,
    /// Whether a fact was written.
    pub(crate) any: bool,
}
