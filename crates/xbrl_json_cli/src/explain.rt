//! Prints the places and causes of a run's faults, for which it reads the report's files again.
//!
//! Not proved: all of this file.

use crate::colours::Colours;
use crate::files_again::FilesAgain;
use crate::known::{Known, KnownTables, Reread};
use crate::reason::{why_unread, why_unwritten};
use crate::write_failure::WriteFailure;
use oim_meta::MetaFault;
use oim_names::Text;
use oim_rows::TableFault;
use oim_run::{
    ExplainedFault, FileFault, ListedFaults, MOST_TABLES, Outcome, Request, Settings, Source,
    explained_faults, explanation_text, lines_below, report_explanation, shown, table_line,
};
use std::alloc::{AllocError, Global};
use std::fs;

/// What is printed below a metadata that is a folder.
const OF_FOLDER: &str = "    if this folder is a filing, convert it with xbrl-filing\n";

/// What is printed if the files give no report any more.
const CHANGED: &str = "    the report cannot be read again, or has changed\n";

/// What is printed if memory runs out for an explanation.
const NO_MEMORY: &str = "    memory ran out for an explanation\n";

/// What explains the faults of a run.
#[derive(Drop)]
pub struct Explainer<'a> {
    rt: &'a HostRuntime,
    alloc: Global,
    settings: &'a Settings,
    /// The path of the file of faults, if there is one.
    faults: Option<&'a str>,
    colours: Colours,
    failure: &'a WriteFailure,
}

impl<'a> Explainer<'a> {
    /// Makes it. `failure` is why a write of the output that the outcome is about failed, if one
    /// did.
    pub fn new(
        rt: &'a HostRuntime,
        alloc: Global,
        request: &'a Request,
        failure: &'a WriteFailure,
    ) -> Explainer<'a> {
        let faults = match &request.faults {
            Some(path) => Some(path.as_str()),
            None => None,
        };
        Explainer {
            rt,
            alloc,
            settings: &request.settings,
            faults,
            colours: Colours::of(rt),
            failure,
        }
    }

    /// Prints an explanation, or that memory ran out for it.
    fn print(&self, lines: Result<String, AllocError>) {
        match lines {
            Ok(lines) => self.colours.print_explanation(self.rt, lines.as_str()),
            Err(_) => {
                let _ = self.rt.eprint(NO_MEMORY);
            }
        }
    }

    /// Returns the lines of the explanation of a fault of the metadata, the types table or the
    /// parameters file, which is made if it is not known.
    fn early_lines(
        &self,
        reread: &mut Reread<'_>,
        source: Source,
        fault: &FileFault,
    ) -> Result<String, AllocError> {
        if let Known::Report(explanation) = &reread.known {
            return explanation_text(self.alloc, explanation);
        }
        let (meta, types) = (self.settings.meta.as_str(), self.settings.types.as_str());
        let files = &mut reread.files;
        let told = report_explanation(self.alloc, meta, types, files, source, fault)?;
        explanation_text(self.alloc, &told)
    }

    /// Prints the explanation below the line of a fault of the metadata, the types table or the
    /// parameters file.
    fn explain_early(&self, reread: &mut Reread<'_>, source: Source, fault: &FileFault) {
        self.print(self.early_lines(reread, source, fault));
        if matches!(source, Source::Report) && fault.finding.fault == MetaFault::Read {
            self.explain_folder(self.settings.meta.as_str());
        }
    }

    /// Prints what to do with a metadata that is a folder.
    fn explain_folder(&self, meta: &str) {
        if let Ok(metadata) = fs::metadata(self.rt, meta) {
            if metadata.is_dir() {
                let _ = self.rt.eprint(OF_FOLDER);
            }
        }
    }

    /// Prints which output could not be written, and why.
    fn explain_write(&self) {
        let why = self.failure.why();
        let Some(path) = &self.settings.out else {
            let _ = eprint!(self.rt; "    standard output: {why}\n");
            return;
        };
        let line = match shown(self.alloc, path.as_str()) {
            Ok(path) => {
                let path = path.as_str();
                format!(in self.alloc; "    {path}: {why}\n")
            }
            Err(error) => Err(error),
        };
        self.print(line);
    }

    /// Prints the explanation below the line of an outcome without refused tables. `reread` has
    /// what is known of its fault.
    pub fn explain_fault(&self, reread: &mut Reread<'_>, outcome: &Outcome) {
        let reason = match outcome {
            Outcome::Done | Outcome::Tables(_) => return,
            Outcome::Report(source, fault) => {
                return self.explain_early(reread, *source, fault);
            }
            Outcome::Output(_) => return self.explain_write(),
            Outcome::CannotRead(path) => why_unread(self.rt, path.as_str()),
            Outcome::CannotWrite(path) => match self.failure.noted() {
                Some(why) => why,
                None => why_unwritten(self.rt, self.settings, path.as_str()),
            },
            Outcome::Run(fault) => fault.explanation(),
        };
        let _ = eprint!(self.rt; "    {reason}\n");
    }

    /// Returns the line that names how many more faults of a table the file of faults has.
    fn more_line(&self, path: &str, listed: ListedFaults) -> Result<String, AllocError> {
        let more = listed.count.saturating_sub(1);
        let path = shown(self.alloc, path)?;
        let path = path.as_str();
        if listed.is_cut {
            return format!(in self.alloc;
                "    and more than {more} others in this table: see {path}\n"
            );
        }
        format!(in self.alloc; "    and {more} more in this table: see {path}\n")
    }

    /// Prints how many more faults of a table the file of faults has, if that is known.
    fn print_more(&self, known: &KnownTables, index: usize) {
        let (Some(path), Some(listed)) = (self.faults, known.listed.get(index)) else {
            return;
        };
        if listed.count > 1 || listed.is_cut {
            match self.more_line(path, *listed) {
                Ok(line) => {
                    let _ = self.rt.eprint(line.as_str());
                }
                Err(_) => {
                    let _ = self.rt.eprint(NO_MEMORY);
                }
            }
        }
    }

    /// Returns what is told of each of the first `MOST_TABLES`, or nothing if the report cannot be
    /// read again or memory runs out.
    fn told_of(
        &self,
        files: &mut FilesAgain<'_>,
        known: &KnownTables,
        tables: &[(Text, TableFault)],
    ) -> Vec<ExplainedFault> {
        let meta = self.settings.meta.as_str();
        match &known.report {
            Ok(report) => match explained_faults(self.alloc, meta, files, report, tables) {
                Ok(told) => told,
                Err(_) => Vec::new(self.alloc),
            },
            Err(_) => Vec::new(self.alloc),
        }
    }

    /// Prints the line of each refused table, unless memory runs out for it, with what is told of
    /// each of the first `MOST_TABLES`.
    fn explain_each(
        &self,
        files: &mut FilesAgain<'_>,
        known: &KnownTables,
        tables: &[(Text, TableFault)],
    ) {
        let told = self.told_of(files, known, tables);
        let told = told.as_slice();
        for (index, (id, fault)) in tables.iter().enumerate() {
            if let Ok(line) = table_line(self.alloc, id.as_str(), fault) {
                self.colours.print_faults(self.rt, line.as_str());
            }
            if index < told.len() {
                let listed = known.listed.as_slice();
                self.print(lines_below(self.alloc, tables, told, listed, index));
            } else if index < MOST_TABLES {
                let is_read = known.report.is_ok();
                let _ = self.rt.eprint(if is_read { NO_MEMORY } else { CHANGED });
            }
            self.print_more(known, index);
        }
    }

    /// Prints the lines of all refused tables, and how many of them are not explained. The report
    /// is read again if nothing is known.
    pub fn explain_tables(&self, reread: &mut Reread<'_>, tables: &[(Text, TableFault)]) {
        let Reread { files, known } = reread;
        match known {
            Known::Tables(known) => self.explain_each(files, known, tables),
            _ => {
                let known = KnownTables::read(self.alloc, self.settings, files);
                self.explain_each(files, &known, tables);
            }
        }
        if tables.len() > MOST_TABLES {
            let more = tables.len() - MOST_TABLES;
            let _ = eprint!(self.rt; "    (and {more} more)\n");
        }
    }
}
