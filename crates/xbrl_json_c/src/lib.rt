//! The conversion of a report for callers in C, and in languages that call C.
//!
//! `xbrl_json_convert` is one call over files in memory. Its theorem is that of the program
//! (`specs/Answers.antt`): status and document are those of a run, as `oim_run` defines it, over
//! exactly these files, with one worker. The status is 2 exactly if a path is not UTF-8 or the
//! layout is not one of the two; the answer is then empty.
//!
//! The call reads no file, starts no thread, waits for nothing and keeps no pointer that it was
//! given.
//!
//! Not proved, only tested: that the lines are those of the program with `--explain`, and the
//! records those of `--faults`.
#![tactic(auto)]

mod answer;
mod conversion;
mod explained;
mod files;

ghost use Rattle.std.specs.Prelude.{◌≡◌};
ghost use Rattle.xbrl_json_c.specs.Answers.{Answers, files_at};
ghost use Rattle.oim_run.specs.declared.settings.TheConstants.{VERSION as program_version};

use crate::conversion::convert_files;
pub use answer::CallAnswer;
pub use files::File;
use oim_run::VERSION;
use std::alloc::Global;

/// Gives the version of the program that this library is a part of, and the kit that proves it. The
/// text is never freed.
#[unsafe(no_mangle)]
pub extern "C" fn xbrl_json_version(text: &mut &'static [u8])
    ensures { text.new.now ≡ program_version.now }
{
    *text = VERSION.as_bytes();
}

/// Converts the report whose metadata file is at the path `meta` of these files, and whose types
/// table is at `types`. The layout is 0 for a document on one line, and 1 for one with a line for
/// each fact. Gives the answer, and returns its status.
///
/// The path of each table's file and of the parameters file is the folder of `meta` followed by
/// their URL. A file that is not among the files does not exist. The first of two files with the
/// same path counts. The whole document is in memory.
///
/// What a caller in C owes, which nothing checks: each pointer is not null, also with a length of
/// 0, and points to as many bytes or files as its length says. They stay unchanged until the call
/// returns. `answer` points to an answer whose texts are such pointers, and to which nothing else
/// points during the call. It is overwritten: texts of an earlier call are to be freed before.
/// Each text of an answer with a length above 0 is freed by `free`. Calls on different threads with
/// answers of their own need no order.
#[unsafe(no_mangle)]
pub extern "C" fn xbrl_json_convert(
    alloc: Global,
    files: &[File<'_>],
    meta: &[u8],
    types: &[u8],
    layout: u32,
    answer: &mut CallAnswer,
) -> u32
    ensures answers { Answers (files_at files.now) meta.now types.now layout answer.new }
    ensures status { result ≡ answer.new.status }
{
    *answer = convert_files(alloc, files, meta, types, layout);
    answer.status
}
