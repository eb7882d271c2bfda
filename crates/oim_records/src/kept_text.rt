//! A text as its file has it, kept before quotes are taken out of it in place.

ghost use Rattle.std.specs.Prelude.{◌≡◌, ◌<◌, ◌≤◌, List, ℕ, None, OnOk, Some, option_map};
ghost use Rattle.oim_records.specs.state.KeptTexts.{KeepsFile, file_text};

use std::alloc::{AllocError, Global};
use std::marker::Model;

/// Bytes that are copied at once. From 4,096 bytes on, glibc copies with one instruction that
/// repeats for each byte.
const PART: usize = 2048;

/// What is known of a text as its file has it.
#[derive(Clone, Copy, Drop)]
enum Kept {
    /// The text has not changed.
    Unchanged,
    /// The text was copied before it changed.
    Copied,
    /// Memory ran out before the text changed.
    Lost,
}

/// A text as its file has it, if quotes are taken out of the text in place. The vector is used
/// again for later texts.
///
/// Contracts see nothing if the text has not changed, and else the file's text, unless it is lost.
#[derive(Drop)]
pub(crate) struct KeptText {
    bytes: Vec<u8>,
    kept: Kept,
}

impl Model for KeptText {
    ghost use Rattle.std.specs.Prelude.{List, ℕ, Option};
    ghost use Rattle.oim_records.specs.state.KeptStates.{kept_in};

    ghost Value = { Option (Option (List ℕ)) };

    ghost view = { λ a. kept_in a.kept a.bytes.items };
}

/// Returns the end of the part of a text that begins at `at`.
fn part_end(length: usize, at: usize) -> usize
    requires { at < length }
    ensures some { at < result }
    ensures within { result ≤ length }
{
    if length - at < PART {
        length
    } else {
        at + PART
    }
}

/// Copies a text into a vector, over what it has.
fn copy_text(text: &[u8], bytes: &mut Vec<u8>) -> Result<(), AllocError>
    ensures { OnOk result (bytes.new.items ≡ text.now) }
{
    bytes.clear();
    bytes.reserve(text.len())?;
    let mut at = 0;
    while at < text.len() {
        let end = part_end(text.len(), at);
        bytes.extend_from_slice(&text[at..end])?;
        at = end;
    }
    Ok(())
}

impl KeptText {
    /// Begins with a text that has not changed. Takes no memory.
    pub(crate) fn new(alloc: Global) -> KeptText
        ensures { result ≡ None }
    {
        KeptText {
            bytes: Vec::new(alloc),
            kept: Kept::Unchanged,
        }
    }

    /// Begins with another text, which has not changed.
    pub(crate) fn forget(&mut self)
        ensures { self.new ≡ None }
    {
        self.kept = Kept::Unchanged;
    }

    /// Copies the text, which has not changed. If memory runs out, the file's text is lost.
    #[cold]
    #[inline(never)]
    fn copy(&mut self, text: &[u8])
        ensures { (now : List ℕ) → KeepsFile (Some text.now) (file_text self.new now) }
    {
        self.kept = match copy_text(text, &mut self.bytes) {
            Ok(()) => Kept::Copied,
            Err(_) => Kept::Lost,
        };
    }

    /// Keeps the text before it changes. If memory runs out, the file's text is lost.
    #[inline(always)]
    pub(crate) fn keep(&mut self, text: &[u8])
        ensures { (now : List ℕ) → KeepsFile (file_text self.old text.now) (file_text self.new now) }
    {
        match self.kept {
            Kept::Unchanged => self.copy(text),
            Kept::Copied => {}
            Kept::Lost => {}
        }
    }

    /// Returns the file's text, if it is not lost. `text` is the text as it is now.
    pub(crate) fn file<'a>(&'a self, text: &'a [u8]) -> Option<&'a [u8]>
        ensures { option_map (λ file. file.now) result ≡ file_text self.now text.now }
    {
        match self.kept {
            Kept::Unchanged => Some(text),
            Kept::Copied => Some(&self.bytes),
            Kept::Lost => None,
        }
    }
}
