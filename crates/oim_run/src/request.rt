//! The request of the command line: the settings of a run, and the options around it.

ghost use Rattle.std.specs.Prelude.{◌≡◌, IfOk, IfSome, map};
ghost use Rattle.clap.specs.Kinds.{FailsBy};
ghost use Rattle.clap.specs.Words.{fault_of, found_of, matches_of, rows_of};
ghost use Rattle.oim_convert.specs.Limits.{IsWorkerCount};
ghost use Rattle.oim_ring.specs.Limits.{IsRingSize};
ghost use Rattle.oim_run.specs.CommandLine as spec;
ghost use Rattle.oim_run.specs.CommandLine.{Answers, AreLayouts, HasRequest, HasSettings, Words, command_line};

use crate::settings::{
    LARGEST_FAULT_COUNT, Settings, command, is_given, number_between, path_of, settings_in,
};
use clap::{ArgMatches, Error};
use oim_names::Text;
use std::alloc::{AllocError, Global};

/// The values of `--layout`.
const LAYOUTS: &[&str] = &["compact", "lines"];

/// The request of the command line.
#[derive(Drop)]
pub struct Request {
    /// The settings of the run.
    pub settings: Settings,
    /// Whether the document's file gets the document only when it is whole (`--whole`).
    pub whole: bool,
    /// Whether standard error shows the run's progress (`--progress`).
    pub progress: bool,
    /// Whether each fault is to be explained for people (`--explain`).
    pub explain: bool,
    /// Whether no fault is to be explained (`--no-explain`).
    pub no_explain: bool,
    /// The path of the file for the faults (`--faults`), or `None`.
    pub faults: Option<Text>,
    /// How many faults of one table that file gets at most (`--most-faults`).
    pub most_faults: usize,
    /// The path of the file for the counts (`--counts`), or `None`.
    pub counts: Option<Text>,
}

impl Request {
    /// Returns whether each fault is explained on standard error, given whether that is a terminal.
    /// A terminal gets explanations unless `--no-explain` is given, anything else only if
    /// `--explain` is given without that.
    pub fn explains(&self, is_terminal: bool) -> bool
        ensures { result ≡ spec.explains self.now is_terminal }
    {
        !self.no_explain && (self.explain || is_terminal)
    }
}

/// Returns the request in the matches. A parse of `command` always has one.
fn request_in(alloc: Global, matches: &ArgMatches<'_>) -> Result<Option<Request>, AllocError>
    ensures values { IfOk result (λ o. IfSome o (HasRequest (rows_of (found_of matches.now)))) }
    ensures workers { IfOk result (λ o. IfSome o (λ q. IsWorkerCount q.settings.workers)) }
    ensures ring { IfOk result (λ o. IfSome o (λ q. IsRingSize q.settings.ring)) }
{
    let Some(most_faults) = number_between(matches, "most-faults", 1, LARGEST_FAULT_COUNT) else {
        return Ok(None);
    };
    match settings_in(alloc, matches)? {
        Some(settings) => Ok(Some(Request {
            settings,
            whole: is_given(matches, "whole"),
            progress: is_given(matches, "progress"),
            explain: is_given(matches, "explain"),
            no_explain: is_given(matches, "no-explain"),
            faults: path_of(alloc, matches, "faults")?,
            most_faults,
            counts: path_of(alloc, matches, "counts")?,
        })),
        None => Ok(None),
    }
}

/// Returns the request of the arguments `words`, with the values `layouts` for `--layout`.
fn request_by<'a>(
    alloc: Global,
    layouts: &'a [&'a str],
    words: &'a [&'a str],
) -> Result<Request, Error>
    ensures values { IfOk result (HasRequest (matches_of (command_line layouts.entry) (map (λ w. w.now) words.now))) }
    ensures workers { IfOk result (λ q. IsWorkerCount q.settings.workers) }
    ensures ring { IfOk result (λ q. IsRingSize q.settings.ring) }
    ensures fails { FailsBy (fault_of (command_line layouts.entry) (map (λ w. w.now) words.now)) result }
{
    let matches = match command(alloc, layouts)?.try_get_matches_from(words) {
        Ok(matches) => matches,
        Err(error) => return Err(error),
    };
    match request_in(alloc, &matches)? {
        Some(request) => Ok(request),
        // A parse that succeeds has every value, so this is never reached.
        None => Err(Error::from(AllocError)),
    }
}

/// Reads the command line's arguments, without the program's name: `META --types FILE [--workers N]
/// [--ring K] [--out FILE] [--whole] [--layout compact|lines] [--progress] [--explain]
/// [--no-explain] [--faults FILE] [--most-faults N] [--counts FILE]`. The defaults are 4 workers,
/// rings of 1,024 blocks, the compact layout and 1,000,000 faults. There are 1 to 64 workers, a
/// ring's size is 1 to 65,536 blocks, and the most faults are 1 to 4,294,967,295.
///
/// Fails exactly if the definition of the command line refuses the arguments, with one of its
/// kinds, if they ask for help or the version, or if memory runs out. The error has the text to
/// show.
pub fn request_of(alloc: Global, words: &[&str]) -> Result<Request, Error>
    ensures answers { (layouts : Words) × AreLayouts layouts × Answers HasRequest (command_line layouts) (map (λ w. w.now) words.now) result }
    ensures workers { IfOk result (λ q. IsWorkerCount q.settings.workers) }
    ensures ring { IfOk result (λ q. IsRingSize q.settings.ring) }
{
    request_by(alloc, LAYOUTS, words)
}

/// Returns the settings of the run, and fails, as `request_of` does.
pub fn job(alloc: Global, words: &[&str]) -> Result<Settings, Error>
    ensures answers { (layouts : Words) × AreLayouts layouts × Answers HasSettings (command_line layouts) (map (λ w. w.now) words.now) result }
    ensures workers { IfOk result (λ s. IsWorkerCount s.workers) }
    ensures ring { IfOk result (λ s. IsRingSize s.ring) }
{
    match request_of(alloc, words) {
        Ok(request) => Ok(request.settings),
        Err(error) => Err(error),
    }
}
