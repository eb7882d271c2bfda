//! Writing the facts of a frame.

ghost use Rattle.std.specs.Prelude.{◌+◌, ◌-◌, ◌*◌, ◌<◌, ◌≤◌, MatchOption, length, slice_range};
ghost use Rattle.std.specs.List.{All};
ghost use Rattle.oim_fast.specs.state.FrameTexts.{AreRuns};
ghost use Rattle.oim_text.specs.Places.{Placed};
ghost use Rattle.oim_text.specs.state.Rooms.{Stays};
ghost use Rattle.oim_fast.specs.state.Writing.{WritesRun, WritesRuns};

use crate::frame::frame_text::TextRun;
use oim_row::References;
use oim_text::{TextBuffer, copy_padded, copy_some};

/// Copies `text[from..to]` to `memory` at `at`, and returns where it ends.
#[inline(always)]
pub(crate) fn copy_range(
    memory: &mut [u8],
    at: usize,
    text: &TextBuffer,
    from: usize,
    to: usize,
) -> usize
    requires some { 0 < length text.now.items }
    requires range { (from ≤ to) × (to ≤ length text.now.items) }
    requires memory { at + (to - from) + 32 ≤ length memory.old }
    ensures { Placed memory.old memory.new at (slice_range text.now.items from to) result }
{
    copy_padded(memory, at, &text.memory[from..], to - from)
}

/// Writes the text from `from` up to a run, and what the run's reference gives. Returns where it
/// ends, or None if the reference has a fault or gives more than `most` bytes.
#[inline(always)]
fn write_run(
    text: &TextBuffer,
    run: TextRun,
    references: &References<'_>,
    most: usize,
    memory: &mut [u8],
    at: usize,
    from: usize,
) -> Option<usize>
    requires some { 0 < length text.now.items }
    requires range { (from ≤ run.alone) × (run.alone ≤ run.named) × (run.named ≤ length text.now.items) }
    requires reference { run.reference < length references.now }
    requires memory { at + (run.named - from) + most + 32 ≤ length memory.old }
    ensures { MatchOption result (Stays memory.old memory.new at) (λ end. WritesRun references.now text.now.items from most run memory.old memory.new at end) }
{
    let answer = references.at(run.reference);
    if !answer.is_sound {
        return None;
    }
    let size = answer.json.len();
    if size > most {
        return None;
    }
    if size == 0 {
        return Some(copy_range(memory, at, text, from, run.alone));
    }
    let named = copy_range(memory, at, text, from, run.named);
    Some(copy_some(memory, named, &answer.json, size))
}

/// Writes the text from `start` on, with what its references give. Returns where it ends, or None
/// if a reference has a fault or gives more than `most` bytes.
#[inline(always)]
pub(crate) fn write_runs(
    text: &TextBuffer,
    runs: &[TextRun],
    references: &References<'_>,
    most: usize,
    memory: &mut [u8],
    at: usize,
    start: usize,
) -> Option<usize>
    requires some { 0 < length text.now.items }
    requires runs { AreRuns (length text.now.items) start runs.now }
    requires references { All (λ r. r.reference < length references.now) runs.now }
    requires memory { at + (length text.now.items - start) + length runs.now * most + 32 ≤ length memory.old }
    ensures { MatchOption result (Stays memory.old memory.new at) (λ end. WritesRuns references.now text.now.items start most runs.now memory.old memory.new at end) }
{
    let mut end = at;
    let mut from = start;
    for i in 0..runs.len() {
        let run = runs[i];
        end = write_run(text, run, references, most, memory, end, from)?;
        from = run.named;
    }
    Some(copy_range(memory, end, text, from, text.len()))
}
