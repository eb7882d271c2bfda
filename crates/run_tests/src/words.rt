//! The settings of these tests and what is tried with each, a fault of a table, and the lines of
//! an outcome.

use crate::{runs, tests_flushes, tests_folders};
use oim_rows::{TableFault, TableKind};
use oim_run::{Outcome, Settings, job, line};
use std::alloc::Global;
use std::sync::Wait;
use std::thread::Threads;

/// The trials of settings.
#[derive(Clone, Copy)]
pub(crate) enum SettingTrial {
    /// Calls of `oim_run`.
    Runs,
    /// Writers whose flush fails.
    Flushes,
    /// Folders whose readers fail.
    Folders,
}

/// Returns whether a trial with settings ends as it must.
fn succeeds(
    rt: &(impl AllocGlobal + Threads + Wait + Sync),
    settings: &Settings,
    trial: SettingTrial,
) -> bool {
    match trial {
        SettingTrial::Runs => runs::hold(rt, settings),
        SettingTrial::Flushes => tests_flushes::end_unflushed(rt, settings),
        SettingTrial::Folders => tests_folders::fail(rt, settings),
    }
}

/// Returns whether a trial with the settings of these arguments does.
pub(crate) fn holds(
    rt: &(impl AllocGlobal + Threads + Wait + Sync),
    words: &[&str],
    trial: SettingTrial,
) -> bool {
    match job(rt.alloc(), words) {
        Ok(settings) => succeeds(rt, &settings, trial),
        Err(_) => false,
    }
}

/// A fault of the first row of the first table, `t1`.
pub(crate) const FAULT: TableFault = TableFault {
    table: 0,
    row: 1,
    column: 1,
    kind: TableKind::BadNumber,
};

/// The arguments with the files of the built-in report.
pub(crate) const WORDS: &[&str] = &["m.json", "--types", "t.csv"];

/// Returns whether an outcome has these lines.
pub(crate) fn has_lines(alloc: Global, outcome: &Outcome, lines: &str) -> bool {
    match line(alloc, outcome) {
        Ok(line) => line.as_str() == lines,
        Err(_) => false,
    }
}
