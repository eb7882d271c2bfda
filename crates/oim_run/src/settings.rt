//! The command line, as `clap` reads it, and the settings of a run.

ghost use Rattle.std.specs.Prelude.{◌≡◌, ◌≤◌, ◌↔◌, IfOk, IfSome, IsTrue, codes, false, option_map};
ghost use Rattle.clap.specs.Words.{App, Rule, app_of, first_of, found_of, one_of, rows_of, rule_of, with_rule};
ghost use Rattle.oim_convert.specs.Limits.{IsWorkerCount};
ghost use Rattle.oim_ring.specs.Limits.{IsRingSize};
ghost use Rattle.oim_run.specs.CommandLine as spec;
ghost use Rattle.oim_run.specs.CommandLine.{HasSettings, IsInput, IsLayoutOf, IsNumberOf, command_line};

use clap::builder::ValueParser;
use clap::{Arg, ArgAction, ArgMatches, Command};
use oim_convert::{LARGEST_RING, MOST_WORKERS};
use oim_json::Layout;
use oim_names::Text;
use std::alloc::{AllocError, Global};

/// The program's version, and the kit that proves it, as `rt version` prints it.
pub const VERSION: &str = "0.25.2 (proved with rattle-kit-13f logic dac8208d650f15bf)";

/// The help of each argument.
const META_HELP: &str = "The metadata file of the report";

const TYPES_HELP: &str = "The types table: the type of each concept and dimension";

const WORKERS_HELP: &str = "How many threads decode the tables";

const RING_HELP: &str = "How many blocks of up to 256 facts may\nwait for one table";

const OUT_HELP: &str =
    "The file of the document, which is emptied first\n[default: standard output]";

const WHOLE_HELP: &str =
    "FILE gets the document only once it is whole;\nat any other end it stays unchanged";

const LAYOUT_HELP: &str = "The document on one line, or each fact on its own\n";

const PROGRESS_HELP: &str = "Show on standard error how much is read and written";

const EXPLAIN_HELP: &str =
    "Print below each fault its place, text and cause\n[default: on a terminal]";

const NO_EXPLAIN_HELP: &str = "Print the faults alone, also on a terminal";

const FAULTS_HELP: &str = "The file for all faults of all tables, as CSV";

const MOST_FAULTS_HELP: &str = "How many faults of one table FILE of\n--faults gets";

const COUNTS_HELP: &str = "The file for the facts and rows of each table, as JSON";

/// The end of the help.
const MORE_HELP: &str = r#"Examples:
  xbrl-json report/meta.json --types report/types.csv --out report.json
  xbrl-json report/meta.json --types report/types.csv --out report.json \
      --whole --explain && mv report.json outbox/

The table files and the parameters file are at the paths that META names,
relative to its folder.

The types table is a CSV file with the header "namespace,name,type2" and one
line for each concept and dimension of the taxonomy. The type of a concept is
integer, decimal, double, text, boolean, date, qname or other, and that of a
dimension is explicit or typed. With the header "namespace,name,type", a
concept's type cannot be boolean, date or qname:
  http://example.com/eg,Cash,integer
The header "namespace,name,type3,period,values" has more types, such as monetary
and member, and the period of a concept; the manual lists them:
  http://example.com/eg,Cash,monetary,instant,

Exit status:
  0  the document is written
  1  the report has a fault, or the system refused a file, memory or a thread
     for it (Read, Memory or NoThread); standard error names which
  2  the command line is wrong
  3  META, the types table or the parameters file cannot be opened, an output
     cannot be written, or memory ran out"#;

/// The largest value of `--most-faults`.
pub(crate) const LARGEST_FAULT_COUNT: usize = 4_294_967_295;

/// The settings of a run.
#[derive(Drop)]
pub struct Settings {
    /// The path of the metadata file.
    pub meta: Text,
    /// The path of the types table.
    pub types: Text,
    /// The count of threads that decode the tables, 1 to 64.
    pub workers: usize,
    /// The count of blocks of facts of one table that may wait, 1 to 65,536.
    pub ring: usize,
    /// The path of the document, or `None` for standard output.
    pub out: Option<Text>,
    /// Whether the document is on one line, or has a line for each fact.
    pub layout: Layout,
}

impl Settings {
    /// Returns whether this is the path of the metadata or of the types table.
    pub fn reads(&self, path: &str) -> bool
        ensures { IsTrue result ↔ IsInput self.now path.now }
    {
        self.meta.as_str() == path || self.types.as_str() == path
    }
}

/// Returns an argument with one value.
fn one_value<'a>(alloc: Global, id: &'a str, value: &'a str, help: &'a str) -> Arg<'a>
    ensures rule { rule_of result ≡ spec.one_value id.entry.now }
    ensures local { result.global ≡ false }
{
    Arg::new(alloc, id)
        .value_name(value)
        .help(help)
        .action(ArgAction::Set)
}

/// Returns an option with one value.
fn option<'a>(alloc: Global, name: &'a str, value: &'a str, help: &'a str) -> Arg<'a>
    ensures rule { rule_of result ≡ spec.option name.entry.now }
    ensures local { result.global ≡ false }
{
    one_value(alloc, name, value, help).long(name)
}

/// Returns an option whose value is a number from 1 to `most`.
fn number_option<'a>(
    alloc: Global,
    name: &'a str,
    value: &'a str,
    most: u64,
    default: &'a str,
    help: &'a str,
) -> Arg<'a>
    ensures rule { rule_of result ≡ spec.number_option name.entry.now most default.entry.now }
    ensures local { result.global ≡ false }
{
    option(alloc, name, value, help)
        .value_parser(ValueParser::unsigned(1, most))
        .default_value(default)
}

/// Returns an option whose value is one of `words`.
fn word_option<'a>(
    alloc: Global,
    name: &'a str,
    words: &'a [&'a str],
    default: &'a str,
    help: &'a str,
) -> Arg<'a>
    ensures rule { rule_of result ≡ spec.word_option name.entry.now words.entry default.entry.now }
    ensures local { result.global ≡ false }
{
    option(alloc, name, "LAYOUT", help)
        .value_parser(ValueParser::Names(words))
        .default_value(default)
}

/// Returns an option without a value.
fn flag<'a>(alloc: Global, name: &'a str, help: &'a str) -> Arg<'a>
    ensures rule { rule_of result ≡ spec.flag name.entry.now }
    ensures local { result.global ≡ false }
{
    Arg::new(alloc, name)
        .long(name)
        .help(help)
        .action(ArgAction::SetTrue)
}

/// Returns the program with the arguments for its two files.
fn inputs<'a>(alloc: Global) -> Result<Command<'a>, AllocError>
    ensures { IfOk result (λ c. app_of c ≡ spec.inputs) }
{
    let meta = one_value(alloc, "meta", "META", META_HELP).required(true);
    let types = option(alloc, "types", "FILE", TYPES_HELP).required(true);
    Command::new(alloc, "xbrl-json")
        .about("Converts a report in xBRL-CSV to xBRL-JSON")
        .version(VERSION)
        .after_help(MORE_HELP)
        .no_binary_name(true)
        .arg(meta)?
        .arg(types)
}

/// Returns a command with one more argument. Fails also if the command had failed.
fn with<'a>(
    command: Result<Command<'a>, AllocError>,
    arg: Arg<'a>,
) -> Result<Command<'a>, AllocError>
    requires { arg.global ≡ false }
    ensures { (app : App) (rule : Rule) → IfOk command.entry (λ c. app_of c ≡ app) → rule_of arg.entry ≡ rule
        → IfOk result (λ c. app_of c ≡ with_rule app rule) }
{
    match command {
        Ok(command) => command.arg(arg),
        Err(error) => Err(error),
    }
}

/// Returns the program's arguments, as `clap` reads them, with the values `layouts` for `--layout`.
pub(crate) fn command<'a>(alloc: Global, layouts: &'a [&'a str]) -> Result<Command<'a>, AllocError>
    ensures { IfOk result (λ c. app_of c ≡ command_line layouts.entry) }
{
    let workers = number_option(
        alloc,
        "workers",
        "N",
        MOST_WORKERS as u64,
        "4",
        WORKERS_HELP,
    );
    let command = with(inputs(alloc), workers);
    let ring = number_option(alloc, "ring", "K", LARGEST_RING as u64, "1024", RING_HELP);
    let command = with(command, ring);
    let command = with(command, option(alloc, "out", "FILE", OUT_HELP));
    let whole = flag(alloc, "whole", WHOLE_HELP);
    let command = with(command, whole);
    let layout = word_option(alloc, "layout", layouts, "compact", LAYOUT_HELP);
    let command = with(command, layout);
    let progress = flag(alloc, "progress", PROGRESS_HELP);
    let command = with(command, progress);
    let explain = flag(alloc, "explain", EXPLAIN_HELP);
    let command = with(command, explain);
    let no_explain = flag(alloc, "no-explain", NO_EXPLAIN_HELP);
    let command = with(command, no_explain);
    let command = with(command, option(alloc, "faults", "FILE", FAULTS_HELP));
    let most_faults = number_option(
        alloc,
        "most-faults",
        "N",
        LARGEST_FAULT_COUNT as u64,
        "1000000",
        MOST_FAULTS_HELP,
    );
    let command = with(command, most_faults);
    with(command, option(alloc, "counts", "FILE", COUNTS_HELP))
}

/// Returns the value of the argument `id`.
fn value_of<'a>(matches: &ArgMatches<'a>, id: &str) -> Option<&'a str>
    ensures { option_map (λ s. s.now) result ≡ first_of id.now (rows_of (found_of matches.now)) }
{
    matches.get_str(id)
}

/// Returns the path that the option `id` has, if it is given.
pub(crate) fn path_of(
    alloc: Global,
    matches: &ArgMatches<'_>,
    id: &str,
) -> Result<Option<Text>, AllocError>
    ensures { IfOk result (λ o. o ≡ first_of id.now (rows_of (found_of matches.now))) }
{
    match value_of(matches, id) {
        Some(path) => Ok(Some(Text::from_str(alloc, path)?)),
        None => Ok(None),
    }
}

/// Returns whether the flag `id` is given.
pub(crate) fn is_given(matches: &ArgMatches<'_>, id: &str) -> bool
    ensures { result ≡ spec.is_given (first_of id.now (rows_of (found_of matches.now))) }
{
    match value_of(matches, id) {
        Some(text) => text == "true",
        None => false,
    }
}

/// Returns the number that the option `id` has, if it is between `least` and `most`.
pub(crate) fn number_between(
    matches: &ArgMatches<'_>,
    id: &str,
    least: usize,
    most: usize,
) -> Option<usize>
    ensures { IfSome result (λ n. (least ≤ n) × (n ≤ most)
        × IsNumberOf (one_of id.now (rows_of (found_of matches.now))) n) }
{
    let n = matches.get_one::<usize>(id)?;
    if least <= n && n <= most {
        Some(n)
    } else {
        None
    }
}

/// Returns the layout that the option `layout` has.
fn layout_in(matches: &ArgMatches<'_>) -> Option<Layout>
    ensures { IfSome result (IsLayoutOf (first_of (codes "layout") (rows_of (found_of matches.now)))) }
{
    let word = value_of(matches, "layout")?;
    if word == "compact" {
        Some(Layout::Compact)
    } else if word == "lines" {
        Some(Layout::Lines)
    } else {
        None
    }
}

/// Returns the settings in the matches. A parse of `command` always has them.
pub(crate) fn settings_in(
    alloc: Global,
    matches: &ArgMatches<'_>,
) -> Result<Option<Settings>, AllocError>
    ensures values { IfOk result (λ o. IfSome o (HasSettings (rows_of (found_of matches.now)))) }
    ensures workers { IfOk result (λ o. IfSome o (λ s. IsWorkerCount s.workers)) }
    ensures ring { IfOk result (λ o. IfSome o (λ s. IsRingSize s.ring)) }
{
    let (Some(meta), Some(types), Some(workers), Some(ring), Some(layout)) = (
        value_of(matches, "meta"),
        value_of(matches, "types"),
        number_between(matches, "workers", 1, MOST_WORKERS),
        number_between(matches, "ring", 1, LARGEST_RING),
        layout_in(matches),
    ) else {
        return Ok(None);
    };
    let out = path_of(alloc, matches, "out")?;
    Ok(Some(Settings {
        meta: Text::from_str(alloc, meta)?,
        types: Text::from_str(alloc, types)?,
        workers,
        ring,
        out,
        layout,
    }))
}
