//! The layout of a document.

/// The layout of a document. A fact's member is on one line in both.
#[derive(Debug, Clone, Copy, PartialEq, Eq)]
pub enum Layout {
    /// The whole document on one line.
    Compact,
    /// The head, each member and the closing braces, each on a line of its own.
    Lines,
}
