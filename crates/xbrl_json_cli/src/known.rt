//! What is known of a run's faults once the file of faults is written.

use crate::files_again::FilesAgain;
use oim_run::{EarlyFault, Explanation, ListedFaults, ReportAgain, Settings, report_again};
use std::alloc::Global;

/// What was found out about a run's faults for the file of faults.
#[derive(Drop)]
pub enum Known {
    /// Nothing.
    Nothing,
    /// The explanation of the fault of the metadata, the types table or the parameters file.
    Report(Explanation),
    /// What was found out about refused tables.
    Tables(KnownTables),
}

impl Known {
    /// Returns of how many tables the file of faults has only the first faults.
    pub fn cut_tables(&self) -> usize {
        let Known::Tables(known) = self else {
            return 0;
        };
        let mut count: usize = 0;
        for listed in &known.listed {
            if listed.is_cut {
                count = count.saturating_add(1);
            }
        }
        count
    }
}

/// What is known of a run's faults, and the files that are read again for them.
#[derive(Drop)]
pub struct Reread<'a> {
    /// The files.
    pub files: FilesAgain<'a>,
    /// What is known.
    pub known: Known,
}

impl<'a> Reread<'a> {
    /// Knows nothing yet.
    pub fn new(rt: &'a HostRuntime, alloc: Global) -> Reread<'a> {
        Reread {
            files: FilesAgain::new(rt, alloc),
            known: Known::Nothing,
        }
    }
}

/// The report of a run with refused tables, read again.
#[derive(Drop)]
pub struct KnownTables {
    /// The report, or why it cannot be read again.
    pub report: Result<ReportAgain, EarlyFault>,
    /// How many faults of each refused table the file of faults has.
    pub listed: Vec<ListedFaults>,
}

impl KnownTables {
    /// Reads the report again.
    pub fn read(alloc: Global, settings: &Settings, files: &mut FilesAgain<'_>) -> KnownTables {
        let (meta, types) = (settings.meta.as_str(), settings.types.as_str());
        KnownTables {
            report: report_again(alloc, meta, types, files),
            listed: Vec::new(alloc),
        }
    }
}
