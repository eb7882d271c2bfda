//! A run of `xbrl-json`: from the command line's arguments and a folder of files to the document,
//! the lines of its faults and its exit status.
//!
//! The theorem is the contract of `run`, over any folder whose files contracts see, for every
//! number of workers, ring size and schedule of the threads. If the run returns, it has one of
//! these ends (`specs/Runs.antt`, `specs/Outcomes.antt`):
//!
//! - `Done`: exactly the whole document is written, in the given layout.
//! - `Tables`: every refused table in table order, each by its identifier with its first fault. The
//!   unfinished document is written, up to and including the first refused table.
//! - `Report` or `CannotRead`: the metadata, the types table or the parameters file has a fault. It
//!   is the first one, in the order in which the files are read, and nothing is written
//!   (`specs/Early.antt`).
//! - `Output`: a write failed. A prefix of the defined document is written, whatever faults
//!   occurred.
//! - `Run` with `Memory` (53): memory ran out, and nothing is written.
//! - `Run` with `BadWorkers` (50) or `BadSize` (51): the settings are out of range, and nothing is
//!   written.
//! - `Run` with `Lost` (54): a fault of the program itself. The document of some facts or a prefix
//!   of it is written, and no clause ties these facts to the files. It is impossible with one
//!   worker.
//!
//! A failed read, and running out of memory or threads, may end a run or a table at any point: then
//! the faults 16, 17, 21, 42, 43 and 53 are allowed. The bytes are still as above. With one worker
//! 43 (`NoThread`) is impossible.
//!
//! What else is proved:
//!
//! - if `job` or `request_of` succeeds, the settings have the values of the arguments, and the
//!   defaults for omitted ones. There are 1 to 64 workers, and a ring's size is 1 to 65,536. Apart
//!   from running out of memory, they fail for exactly the arguments that the definition of the
//!   command line refuses (`specs/CommandLine.antt`);
//! - `run_alone` ends as `run` does with one worker. It takes no runtime and reaches no thread: a
//!   library for other languages calls it. `run` with one worker is a call of it;
//! - `convert_report` ends as `run` does after the metadata, for a report whose tables are given by
//!   readers;
//! - `run_to` runs through a buffer: the writer after it holds all that the run wrote, or a prefix
//!   of that, and then the outcome after a document, whole or unfinished, is a failed write
//!   (`specs/Buffers.antt`). `convert_to` is such a run over the built-in report;
//! - `convert_as` makes exactly one such run, to the writer of the output that `--out` names, and
//!   ends that output. Its outcome is the run's, or that the output did not end well. It makes no
//!   run if the output's path is an input's or cannot be opened (`specs/Outputs.antt`);
//! - `status` and `line` return the exit status and the lines on standard error of each outcome,
//!   with one line for each refused table. `terminal_line` returns the same without a path's
//!   control and invisible characters (`specs/Lines.antt`). `tell` prints these lines at most once,
//!   and returns the status.
//!
//! The contracts of `oim_files` (the files of a report) and `oim_explain` (a fault) apply
//! unchanged.
//!
//! Not proved: that `run` returns if it waits for workers; that a refusal of memory, a thread or a
//! read was real, because a body that always returned Memory would meet these contracts; that
//! `tell` prints at all; and that a failed flush is noticed. Tests with ample memory and threads
//! check these cases.
//!
//! A call:
//!
//! ```
//! /// Runs over a folder with these settings, and checks the end of the document.
//! fn runs(
//!     rt: &(impl AllocGlobal + Threads + Wait + Sync),
//!     settings: &Settings,
//! ) -> Result<bool, AllocError> {
//!     let mut document = Vec::new(rt.alloc());
//!     let sink = &mut Marked::new(&mut document);
//!     let outcome = run(rt, rt.alloc(), settings, &mut BuiltIn, sink);
//!     let line = line(rt.alloc(), &outcome)?;
//!     Ok(status(&outcome) == 0 && line.as_str() == "" && document.as_slice().ends_with(b"}}\n"))
//! }
//! ```
#![tactic(auto)]

mod buffer;
mod buffered;
mod built_in;
mod conversion;
mod early;
mod fault_records;
mod outcome;
mod output;
mod request;
mod run_end;
mod running;
mod settings;
mod teller;

pub use buffered::run_to;
pub use built_in::{METADATA, TABLE, TYPES, built_in_told, convert_to};
pub use conversion::{Course, convert_report};
pub use fault_records::{write_report_fault, write_table_faults};
pub use oim_explain::{
    ExplainedFault, Explanation, FaultCause, FaultPlace, ListedFaults, MOST_TABLES, RefusedTable,
    ReportAgain, explain_metadata, explained_fault, explained_faults, explanation_text,
    fault_header, fault_row, lines_are_of_records, lines_below, list_faults, report_again,
    report_explanation, report_fault_row, shown,
};
pub use oim_files::{EarlyFault, FileFault, Folder, Source, Texts};
pub use outcome::{Outcome, line, status, table_line, terminal_line};
pub use output::{Outputs, convert_as};
pub use request::{Request, job, request_of};
pub use run_end::{RunEnd, cannot_write};
pub use running::{run, run_alone};
pub use settings::{Settings, VERSION};
pub use teller::{Teller, tell};
