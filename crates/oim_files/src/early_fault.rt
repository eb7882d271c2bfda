//! Why the files of a folder give no report.

ghost use Rattle.std.specs.Prelude.{◌≡◌, None};
ghost use Rattle.oim_files.specs.FileFaults as spec;
ghost use Rattle.oim_files.specs.state.Refusals.{of_refusal};

use oim_entries::{BadEntry, EntryRefusal};
use oim_meta::{Finding, MetaFault};
use oim_names::{Items, Text};
use std::alloc::Global;

/// The file that has a fault.
#[derive(Clone, Copy)]
pub enum Source {
    /// The metadata.
    Report,
    /// The parameters file.
    Parameters,
    /// The types table.
    Types,
}

/// A fault of a file of a report, with all that is known of its place.
#[derive(Drop)]
pub struct FileFault {
    /// The fault. In the metadata, the keys lead to its place.
    pub finding: Finding,
    /// The path of the parameters file, if that has the fault.
    pub path: Option<Text>,
    /// The first bad record, if the types table or the parameters file has one.
    pub entry: Option<BadEntry>,
}

impl FileFault {
    /// Makes the fault of a finding in the metadata.
    pub(crate) fn of_metadata(finding: Finding) -> FileFault
        ensures { result ≡ spec.of_metadata finding }
    {
        FileFault {
            finding,
            path: None,
            entry: None,
        }
    }

    /// Makes the fault of the metadata or the types table as a whole.
    pub fn of_whole(alloc: Global, fault: MetaFault) -> FileFault
        ensures { result ≡ spec.of_file None fault }
    {
        let place = Items::new(alloc);
        FileFault::of_metadata(Finding { fault, place })
    }

    /// Makes the fault of a file of entries that gives no value. `bad` is the fault of its bad
    /// records, and `path` that of a parameters file.
    pub(crate) fn of_refusal(
        alloc: Global,
        path: Option<Text>,
        bad: MetaFault,
        refusal: EntryRefusal,
    ) -> FileFault
        ensures { result ≡ of_refusal path bad refusal }
    {
        let fault = refusal.fault(bad);
        let place = Items::new(alloc);
        let entry = match refusal {
            EntryRefusal::Bad(entry) => Some(entry),
            EntryRefusal::Unread(_) => None,
        };
        FileFault {
            finding: Finding { fault, place },
            path,
            entry,
        }
    }
}

/// Why the files of a folder give no report.
#[derive(Drop)]
pub enum EarlyFault {
    /// The metadata, the parameters file or the types table has a fault, or was not read to its
    /// end.
    Report(Source, FileFault),
    /// The metadata, the types table or the parameters file, which is at this path, cannot be
    /// opened.
    CannotRead(Text),
    /// Memory ran out.
    Memory,
}
