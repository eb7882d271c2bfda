//! A text, and what it gives for a purpose.

ghost use Rattle.std.specs.Prelude.{◌≡◌, ◌≤◌, false, length, take, true};
ghost use Rattle.std.specs.String.{string_bytes};
ghost use Rattle.oim_cells.specs.Cells.{meaning_of};
ghost use Rattle.oim_row.specs.Answers.{IsAnswer};
ghost use Rattle.oim_row.specs.state.Kept.{IsCached, IsEmptyPlace};
ghost use Rattle.oim_row.specs.state.Reading.{IsTypedAnswer};

use crate::answer::Answer;
use crate::purpose::Purpose;
use crate::words::is_same;
use oim_cells::meaning;
use oim_report::Report;
use std::alloc::{AllocError, Global};

/// The most bytes of a text that is cached. A longer one seldom recurs.
const LONGEST: usize = 1 << 16;

/// A text, if it is cached, and what it gives for a purpose. At first none is cached.
#[derive(Drop)]
pub(crate) struct CachedAnswer {
    pub(crate) text: String,
    pub(crate) is_kept: bool,
    pub(crate) answer: Answer,
}

impl CachedAnswer {
    /// Makes an empty place. It takes no memory.
    pub(crate) fn new(alloc: Global) -> CachedAnswer
        ensures { IsEmptyPlace result }
    {
        CachedAnswer {
            text: String::new(alloc),
            is_kept: false,
            answer: Answer::new(alloc),
        }
    }

    /// Returns true only if `text` is cached here.
    #[inline(always)]
    pub(crate) fn is_of(&self, text: &str) -> bool
        ensures kept { result ≡ true → self.now.is_kept ≡ true }
        ensures text { result ≡ true → string_bytes self.now.text ≡ text.now }
    {
        self.is_kept && is_same(self.text.as_str(), text)
    }

    /// Reads a text and replaces the cached one. A long text is not cached. If memory runs out, the
    /// answer is not sound.
    #[inline(never)]
    pub(crate) fn read(
        &mut self,
        alloc: Global,
        report: &Report,
        purpose: Purpose,
        text: &str,
    ) -> Result<(), AllocError>
        ensures cached { IsCached report.now purpose self.new }
        ensures answer { IsAnswer report.now purpose (meaning_of text.now) self.new.answer }
    {
        self.answer.forget();
        self.is_kept = false;
        self.text.clear();
        if text.len() > LONGEST {
            return self.answer.read(alloc, report, purpose, meaning(text));
        }
        self.text.push_str(text)?;
        self.is_kept = true;
        self.answer.read(alloc, report, purpose, meaning(text))
    }

    /// Reads the first `len` bytes of a text as the value of a typed dimension, without caching it.
    /// If memory runs out, the answer is not sound.
    #[inline(always)]
    pub(crate) fn read_typed(&mut self, text: &[u8], len: usize) -> Result<(), AllocError>
        requires { len ≤ length text.now }
        ensures kept { self.new.is_kept ≡ false }
        ensures answer { IsTypedAnswer (take len text.now) self.new.answer }
    {
        self.is_kept = false;
        self.answer.read_typed(text, len)
    }
}
