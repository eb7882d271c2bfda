//! The outcomes of a run, with the exit status and the lines on standard error of each.

ghost use Rattle.std.specs.Prelude.{◌≡◌, IfOk, string_bytes};
ghost use Rattle.oim_run.specs.Lines.{fault_text, line_of, path_text, source_name, status_of, table_text, tables_text, terminal_line_of};

use oim_convert::ConvertFault;
use oim_explain::shown;
use oim_files::{FileFault, Source};
use oim_json::WriteFault;
use oim_names::{Items, Text};
use oim_rows::TableFault;
use std::alloc::{AllocError, Global};

/// How a run ended.
#[derive(Drop)]
pub enum Outcome {
    /// The whole document is written.
    Done,
    /// The metadata, the parameters file or the types table has a fault. Nothing is written.
    Report(Source, FileFault),
    /// Tables are refused, in table order, each by its identifier with its first fault. The
    /// document is unfinished.
    Tables(Items<(Text, TableFault)>),
    /// The metadata, the types table or the parameters file, which is at this path, cannot be
    /// opened. Nothing is written.
    CannotRead(Text),
    /// The document's file, at this path, cannot be created.
    CannotWrite(Text),
    /// The conversion could not begin, and nothing is written. Or a ring's token was lost (`Lost`),
    /// after a document of some facts or a prefix of it was written; this is impossible with one
    /// worker.
    Run(ConvertFault),
    /// A write failed. A prefix of the document is written.
    Output(WriteFault),
}

/// Returns the exit status: 0 if the document is written, 1 if the report has a fault or a table is
/// refused, 3 if a file, memory or the output failed.
pub fn status(outcome: &Outcome) -> u8
    ensures { result ≡ status_of outcome.now }
{
    match outcome {
        Outcome::Done => 0,
        Outcome::Report(_, _) | Outcome::Tables(_) => 1,
        Outcome::CannotRead(_) | Outcome::CannotWrite(_) | Outcome::Run(_) | Outcome::Output(_) => {
            3
        }
    }
}

/// Returns the name of a file in a line.
fn source_word(source: Source) -> &'static str
    ensures { result.now ≡ source_name source }
{
    match source {
        Source::Report => "report",
        Source::Parameters => "parameters",
        Source::Types => "types",
    }
}

/// Returns the line for a fault at a named place.
fn fault_line(alloc: Global, place: &str, name: &str, number: u32) -> Result<String, AllocError>
    ensures { IfOk result (λ s. string_bytes s ≡ fault_text place.now name.now number) }
{
    format!(in alloc; "xbrl-json: {place}: {name} ({number})\n")
}

/// Returns the line on standard error for a fault of the table with this identifier, with its line
/// feed.
pub fn table_line(alloc: Global, id: &str, fault: &TableFault) -> Result<String, AllocError>
    ensures { IfOk result (λ s. string_bytes s ≡ table_text id.now fault.now) }
{
    let row = fault.row;
    let column = fault.column;
    let place = format!(in alloc; "table {id}, row {row}, column {column}")?;
    fault_line(alloc, place.as_str(), fault.name(), fault.number())
}

/// Returns the lines for refused tables, in order.
fn table_lines(alloc: Global, named: &[(Text, TableFault)]) -> Result<String, AllocError>
    ensures { IfOk result (λ s. string_bytes s ≡ tables_text named.now) }
{
    let mut lines = String::new(alloc);
    for (id, fault) in named {
        let line = table_line(alloc, id.as_str(), fault)?;
        lines.push_str(line.as_str())?;
    }
    Ok(lines)
}

/// Returns the line for a file that cannot be read or written.
fn path_line(alloc: Global, what: &str, path: &str) -> Result<String, AllocError>
    ensures { IfOk result (λ s. string_bytes s ≡ path_text what.now path.now) }
{
    format!(in alloc; "xbrl-json: cannot {what} {path}\n")
}

/// Returns the lines on standard error, each with its line feed: none if the document is written,
/// one for each refused table, in table order, and one for any other outcome.
pub fn line(alloc: Global, outcome: &Outcome) -> Result<String, AllocError>
    ensures { IfOk result (λ s. string_bytes s ≡ line_of outcome.now) }
{
    match outcome {
        Outcome::Done => Ok(String::new(alloc)),
        Outcome::Report(source, file) => {
            let fault = file.finding.fault;
            fault_line(alloc, source_word(*source), fault.name(), fault.number())
        }
        Outcome::Tables(named) => table_lines(alloc, named.as_slice()),
        Outcome::CannotRead(path) => path_line(alloc, "read", path.as_str()),
        Outcome::CannotWrite(path) => path_line(alloc, "write", path.as_str()),
        Outcome::Run(fault) => fault_line(alloc, "run", fault.name(), fault.number()),
        Outcome::Output(_) => String::from_str(alloc, "xbrl-json: output: Write (56)\n"),
    }
}

/// Returns the lines for a terminal: those of `line`, with the control and invisible characters of
/// a path escaped, so that no file name can add a line or send the terminal a command.
pub fn terminal_line(alloc: Global, outcome: &Outcome) -> Result<String, AllocError>
    ensures { IfOk result (λ s. string_bytes s ≡ terminal_line_of outcome.now) }
{
    match outcome {
        Outcome::CannotRead(path) => {
            path_line(alloc, "read", shown(alloc, path.as_str())?.as_str())
        }
        Outcome::CannotWrite(path) => {
            path_line(alloc, "write", shown(alloc, path.as_str())?.as_str())
        }
        _ => line(alloc, outcome),
    }
}
