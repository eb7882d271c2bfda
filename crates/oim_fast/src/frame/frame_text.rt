//! The text of a column's facts that is the same in each row, with places for what references give.

ghost use Rattle.std.specs.Prelude.{◌≡◌, ◌≤◌, ◌+◌, ◌++◌, [], IfOk, OnOk, length, slice_range, take, true};
ghost use Rattle.oim_resolve.specs.Facts.{is_numeric};
ghost use Rattle.oim_fast.specs.state.FrameTexts.{dimensions_start, is_ready, with_part, with_segment};

use crate::frame::frame_decimals::FrameDecimals;
use crate::frame::part::{FramePart, PartValue};
use crate::frame::value_form::{ValueForm, form_of};
use oim_report::Kind;
use oim_text::TextBuffer;
use std::alloc::{AllocError, Global};
use std::marker::Model;

/// A reference, and where the text before it ends: without and with the name of its dimension.
#[derive(Clone, Copy)]
pub(crate) struct TextRun {
    pub(crate) alone: usize,
    pub(crate) named: usize,
    pub(crate) reference: usize,
}

/// How many bytes a frame's text has room for at first.
const ROOM: usize = 512;

/// The text of a column's facts from the dot before its identifier up to the end of its dimensions:
/// the identifier, the settled decimals, and the dimensions with a comma after each.
///
/// Contracts see its parts.
#[derive(Drop)]
pub(crate) struct FrameText {
    pub(crate) text: TextBuffer,
    pub(crate) kind: Kind,
    /// How the cells of the kind are read.
    pub(crate) form: ValueForm,
    /// Where the decimals begin, even if there are none, and where they end.
    pub(crate) lead: usize,
    pub(crate) opening: usize,
    /// Where the dimensions begin.
    pub(crate) body: usize,
    pub(crate) decimals: FrameDecimals,
    pub(crate) runs: Vec<TextRun>,
}

impl Model for FrameText {
    ghost use Rattle.std.specs.Prelude.{slice_range, take};
    ghost use Rattle.oim_fast.specs.state.FrameTexts.{FrameValue, IsFilled, rest_from, segments_from};

    ghost Value = { FrameValue };

    ghost view = { λ a. record {
      kind = a.kind;
      lead = take a.lead a.text.items;
      settled = slice_range a.text.items a.lead a.opening;
      decimals = a.decimals;
      segments = segments_from a.text.items a.body a.runs.items;
      rest = rest_from a.text.items a.body a.runs.items;
    } };

    ghost invariant = { λ a. IsFilled a.kind a.form a.text.items a.lead a.opening a.body a.runs.items };
}

impl FrameText {
    /// Makes the text of an identifier and decimals, without dimensions.
    pub(crate) fn new(
        alloc: Global,
        kind: Kind,
        lead: &[u8],
        decimals: FrameDecimals,
        settled: &[u8],
    ) -> Result<FrameText, AllocError>
        ensures { IfOk result (λ t. t ≡ record { kind = kind; lead = lead.now; settled = settled.now; decimals = decimals; segments = []; rest = [] }) }
    {
        let mut text = TextBuffer::within(Vec::new(alloc), ROOM)?;
        text.put(lead)?;
        text.put(settled)?;
        let opening = text.len();
        text.put(b"\"dimensions\":{")?;
        let body = text.len();
        Ok(FrameText {
            text,
            kind,
            form: form_of(kind),
            lead: lead.len(),
            opening,
            body,
            decimals,
            runs: Vec::new(alloc),
        })
    }

    /// Returns whether facts of the kind have decimals.
    #[inline(always)]
    pub(crate) fn is_number(&self) -> bool
        ensures { result ≡ is_numeric self.now.kind }
    {
        self.form.is_number()
    }

    /// Moves text and references to memory of their own size. If memory runs out, they stay.
    pub(crate) fn fit(&mut self, alloc: Global)
        ensures { self.new ≡ self.old }
    {
        self.text.fit(alloc);
        let Ok(mut runs) = Vec::with_capacity(alloc, self.runs.len()) else {
            return;
        };
        if runs.extend_from_slice(self.runs.as_slice()).is_ok() {
            self.runs = runs;
        }
    }

    /// Adds what a reference gives, after the name of its dimension.
    pub(crate) fn add_reference(&mut self, name: &[u8], reference: usize) -> Result<(), AllocError>
        ensures { OnOk result (self.new ≡ with_segment self.old name.now reference) }
    {
        let alone = self.text.len();
        self.text.put(name)?;
        self.runs.push(TextRun {
            alone,
            named: self.text.len(),
            reference,
        })?;
        Ok(())
    }

    /// Adds a dimension, unless facts of this kind do not have it. Returns false if it is not
    /// known.
    pub(crate) fn add(&mut self, part: &FramePart<'_>) -> Result<bool, AllocError>
        ensures ready { IfOk result (λ added. added ≡ true → is_ready self.old part.now ≡ true) }
        ensures part { IfOk result (λ added. added ≡ true → self.new ≡ with_part self.old part.now) }
    {
        if part.role.is_dropped(self.kind) {
            return Ok(true);
        }
        match part.value {
            PartValue::Nothing => Ok(true),
            PartValue::Unknown => Ok(false),
            PartValue::Text => {
                self.text.put(part.text.as_slice())?;
                Ok(true)
            }
            PartValue::Reference(reference) => {
                self.add_reference(part.text.as_slice(), reference)?;
                Ok(true)
            }
        }
    }
}
