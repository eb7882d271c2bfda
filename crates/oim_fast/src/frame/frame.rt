//! A column of facts under the groups that a row names.

ghost use Rattle.std.specs.Prelude.{◌≡◌, IfSome};

use crate::frame::frame_text::FrameText;
use oim_report::Kind;
use oim_row::Choice;

/// What a frame holds.
#[derive(Drop)]
pub(crate) enum FrameBody {
    Text(FrameText),
    /// The reference at this place names the concept. Each kind of concept has a further frame.
    ByConcept(usize),
    /// Nothing is known: the fast way leaves its facts.
    Unknown,
}

/// A column of facts under some choices of groups, for one kind of concept or for none.
#[derive(Drop)]
pub(crate) struct Frame {
    pub(crate) column: usize,
    pub(crate) kind: Option<Kind>,
    pub(crate) choices: Vec<Choice>,
    pub(crate) body: FrameBody,
}

impl Frame {
    /// Returns the place of the reference that names its concept, if one does.
    pub(crate) fn concept(&self) -> Option<usize>
        ensures { IfSome result (λ i. self.now.body ≡ FrameBody.ByConcept i) }
    {
        match self.body {
            FrameBody::ByConcept(reference) => Some(reference),
            FrameBody::Text(_) | FrameBody::Unknown => None,
        }
    }

    /// Returns about how many bytes of memory the frame takes.
    pub(crate) fn size(&self) -> usize {
        let text = match &self.body {
            FrameBody::Text(text) => text
                .text
                .memory
                .len()
                .saturating_add(text.runs.len().saturating_mul(24)),
            FrameBody::ByConcept(_) | FrameBody::Unknown => 0,
        };
        text.saturating_add(self.choices.len().saturating_mul(16))
            .saturating_add(192)
    }
}
