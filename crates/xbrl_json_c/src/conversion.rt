//! The conversion of files in memory.

ghost use Rattle.std.specs.Prelude.{◌≡◌};
ghost use Rattle.xbrl_json_c.specs.Answers.{Answers, Gives, Runs, files_at, layout_at};

use crate::answer::CallAnswer;
use crate::explained::texts_of;
use crate::files::{File, Files};
use oim_json::{Layout, Marked};
use oim_run::{Outcome, run_alone, status};
use std::alloc::Global;
use std::str;

/// Returns the layout of this number.
fn layout_of(number: u32) -> Option<Layout>
    ensures { result ≡ layout_at number }
{
    match number {
        0 => Some(Layout::Compact),
        1 => Some(Layout::Lines),
        _ => None,
    }
}

/// Runs over these files. Returns the outcome and the document.
fn run_over(
    alloc: Global,
    files: Files<'_>,
    meta: &str,
    types: &str,
    layout: Layout,
) -> (Outcome, Vec<u8>)
    ensures { Runs (files_at files.entry.files.now) meta.now types.now layout result.0 result.1.items }
{
    let mut folder = files;
    let document = Vec::new(alloc);
    let mut sink = Marked::new(document);
    let outcome = run_alone(alloc, meta, types, layout, &mut folder, &mut sink);
    (outcome, sink.into_writer())
}

/// Converts the report at these paths of these files.
fn convert_at(
    alloc: Global,
    files: Files<'_>,
    meta: &str,
    types: &str,
    layout: Layout,
) -> CallAnswer
    ensures { Gives (files_at files.entry.files.now) meta.now types.now layout result }
{
    let (outcome, document) = run_over(alloc, files, meta, types, layout);
    let texts = texts_of(alloc, files, meta, types, &outcome);
    CallAnswer::of(status(&outcome), document, texts)
}

/// Converts the report at these paths of these files, in the layout of this number.
pub(crate) fn convert_files(
    alloc: Global,
    files: &[File<'_>],
    meta: &[u8],
    types: &[u8],
    number: u32,
) -> CallAnswer
    ensures { Answers (files_at files.now) meta.now types.now number result }
{
    let Ok(meta_path) = str::from_utf8(meta) else {
        return CallAnswer::refused();
    };
    let Ok(types_path) = str::from_utf8(types) else {
        return CallAnswer::refused();
    };
    let Some(layout) = layout_of(number) else {
        return CallAnswer::refused();
    };
    convert_at(alloc, Files { files }, meta_path, types_path, layout)
}
