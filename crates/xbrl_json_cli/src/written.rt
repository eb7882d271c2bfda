//! The files that a run writes, and whether the report reads one of them.

use crate::target::{FileId, Target};
use crate::write_failure::WriteFailure;
use oim_names::Text;
use oim_run::{Request, RunEnd};
use std::cell::Cell;
use std::fs::Metadata;
use std::io;
use std::io::ErrorKind;
use std::sync::atomic::{AtomicBool, Ordering};

/// The files that a run writes, and which of them the report was seen to read.
#[derive(Drop)]
pub struct WrittenFiles<'a> {
    /// The system.
    rt: &'a HostRuntime,
    /// The document's file, if it is a regular file when the run begins.
    document: Cell<Option<FileId>>,
    /// The new file next to it, if the document is first written there.
    beside: Cell<Option<FileId>>,
    /// What the path of the document's file leads to when the run begins, if the command line names
    /// one.
    place: Target,
    /// The file of the faults, if the command line names one.
    faults: Target,
    /// The file of the counts, if the command line names one.
    counts: Target,
    /// Whether the report reads one of the document's files.
    is_read: AtomicBool,
    /// Whether the report reads the file of the faults.
    faults_are_read: AtomicBool,
    /// Whether the report reads the file of the counts.
    counts_are_read: AtomicBool,
    /// Why a write of the document failed, if one did.
    pub failure: WriteFailure,
}

/// Whether this metadata is that of the file, if there is one.
fn is_of(file: Option<FileId>, metadata: &Metadata) -> bool {
    match file {
        Some(file) => file.has(metadata),
        None => false,
    }
}

/// Returns what a path leads to, if there is one.
fn target_of(rt: &HostRuntime, path: &Option<Text>) -> Target {
    match path {
        Some(path) => Target::of(rt, path.as_str()),
        None => Target::Other,
    }
}

impl<'a> WrittenFiles<'a> {
    /// Starts with the files of the faults and of the counts, and without files of the document,
    /// because none is open yet. `failure` gets why a write of the document fails.
    pub fn new(rt: &'a HostRuntime, request: &Request, failure: WriteFailure) -> WrittenFiles<'a> {
        let place = target_of(rt, &request.settings.out);
        let faults = target_of(rt, &request.faults);
        let counts = target_of(rt, &request.counts);
        WrittenFiles {
            rt,
            document: Cell::new(None),
            beside: Cell::new(None),
            place,
            faults,
            counts,
            is_read: AtomicBool::new(false),
            faults_are_read: AtomicBool::new(false),
            counts_are_read: AtomicBool::new(false),
            failure,
        }
    }

    /// Records the document's file and the new one next to it, if they exist.
    pub fn are(&self, document: Option<FileId>, beside: Option<FileId>) {
        self.document.set(document);
        self.beside.set(beside);
    }

    /// Checks a file that the report reads, by its metadata, and returns whether it is one of the
    /// document's.
    pub fn look_at(&self, metadata: &io::Result<Metadata>) -> bool {
        let Ok(metadata) = metadata else {
            return false;
        };
        let is_one = is_of(self.document.get(), metadata) || is_of(self.beside.get(), metadata);
        if is_one {
            self.is_read.store(true, Ordering::SeqCst);
        }
        is_one
    }

    /// Returns whether a path leads to a target, and if so, keeps that in `is_read`.
    fn leads_to(
        &self,
        target: &Target,
        is_read: &AtomicBool,
        path: &str,
        metadata: &io::Result<Metadata>,
    ) -> bool {
        let is_one = target.is(self.rt, path, metadata);
        if is_one {
            is_read.store(true, Ordering::SeqCst);
        }
        is_one
    }

    /// Checks a file by its path as well, and returns whether it is one of the document's, or that
    /// of the faults or of the counts.
    pub fn look_at_path(&self, path: &str, metadata: &io::Result<Metadata>) -> bool {
        let are_faults = self.leads_to(&self.faults, &self.faults_are_read, path, metadata);
        let are_counts = self.leads_to(&self.counts, &self.counts_are_read, path, metadata);
        let is_place = self.leads_to(&self.place, &self.is_read, path, metadata);
        self.look_at(metadata) || are_faults || are_counts || is_place
    }

    /// Returns how an output ends, from the files that the report was seen to read.
    pub fn ending(&self) -> RunEnd {
        if self.is_read.load(Ordering::SeqCst) {
            RunEnd::IsRead
        } else if self.faults_are_read.load(Ordering::SeqCst) {
            RunEnd::FaultsAreRead
        } else if self.counts_are_read.load(Ordering::SeqCst) {
            RunEnd::CountsAreRead
        } else {
            RunEnd::Kept
        }
    }

    /// Fails if the report was seen to read one of the files. Then no more of the document is
    /// written.
    pub fn allow(&self) -> io::Result<()> {
        match self.ending() {
            RunEnd::Kept => Ok(()),
            _ => Err(io::Error::from(ErrorKind::PermissionDenied)),
        }
    }
}
