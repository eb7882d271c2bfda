//! The name that is nearest to a text by spelling.

use oim_cells::trimmed;
use std::alloc::{AllocError, Global};
use strsim::levenshtein;

/// How many bytes a name has at most that is compared.
const LONGEST: usize = 64;

/// The nearest name so far.
#[derive(Clone, Copy)]
pub(crate) struct Nearest<'r> {
    /// The name, empty if none was offered.
    name: &'r str,
    /// How many edits lead to it.
    edits: usize,
}

/// Returns how many edits lead from a text to a name. Capitals and blanks at the ends count for
/// nothing if all else is the same.
fn edits(alloc: Global, text: &str, name: &str) -> Result<usize, AllocError> {
    if trimmed(text).eq_ignore_ascii_case(trimmed(name)) {
        return Ok(0);
    }
    levenshtein(alloc, text, name)
}

impl<'r> Nearest<'r> {
    /// Starts without a name.
    pub(crate) fn none() -> Nearest<'r> {
        Nearest {
            name: "",
            edits: usize::MAX,
        }
    }

    /// Takes a name if it is nearer to the text. Very long ones are not compared.
    pub(crate) fn offer(
        &mut self,
        alloc: Global,
        text: &str,
        name: &'r str,
    ) -> Result<(), AllocError> {
        if text.len() > LONGEST || name.len() > LONGEST {
            return Ok(());
        }
        let edits = edits(alloc, text, name)?;
        if edits < self.edits {
            *self = Nearest { name, edits };
        }
        Ok(())
    }

    /// Returns the name, if there is one.
    pub(crate) fn name(&self) -> Option<&'r str> {
        if self.name.is_empty() {
            None
        } else {
            Some(self.name)
        }
    }

    /// Returns the name if it is so near that it may be meant: two edits at most, and fewer than
    /// half of its characters.
    pub(crate) fn meant(&self) -> Option<&'r str> {
        if self.edits <= 2 && self.edits < self.name.len() / 2 {
            self.name()
        } else {
            None
        }
    }
}
