//! The parameters file of a report, and the lines of its parameters.
//!
//! Not proved: the lines. Tests cover them.

ghost use Rattle.std.specs.Prelude.{◌≡◌};

use crate::cells::text_at;
use crate::record_lines::RecordLines;
use csv::ByteRecord;
use oim_files::{Folder, path_in};
use oim_meta::{ReadFault, Records};
use serde_json::Value;
use std::alloc::{AllocError, Global};
use std::collections::BTreeMap;
use std::io::Read;

/// A parameters file, and the lines at which its records begin, by the names of the parameters.
#[derive(Drop)]
pub struct ParameterLines {
    path: String,
    lines: BTreeMap<String, u64>,
}

/// Reads the lines of a parameters file. The readers are two of it: one for the names, one for the
/// lines. What follows a failure is unknown.
fn read_lines<R: Read + Drop>(
    alloc: Global,
    names: R,
    lines: R,
) -> Result<BTreeMap<String, u64>, AllocError> {
    let mut found = BTreeMap::new(alloc);
    let mut records = Records::new(alloc, names);
    let mut row = ByteRecord::new(alloc);
    let Ok(mut lines) = RecordLines::open(alloc, lines) else {
        return Ok(found);
    };
    for number in 0..u32::MAX as usize {
        match records.read(&mut row) {
            Ok(true) => {}
            Ok(false) | Err(ReadFault::Read) => break,
            Err(ReadFault::Memory) => return Err(AllocError),
        }
        let name = text_at(&row, 0).unwrap_or("");
        if let Some(line) = lines.line_of(number)? {
            found.insert(String::from_str(alloc, name)?, line)?;
        }
    }
    Ok(found)
}

/// Returns the name of the parameters file that a metadata gives.
fn url_of(metadata: &Value) -> Option<&str> {
    match metadata.get("parameterURL") {
        Some(url) => url.as_str(),
        None => None,
    }
}

impl ParameterLines {
    /// Reads those of a report with this metadata, whose folder is `base`.
    pub(crate) fn read<R: Read + Drop, F: Folder<R>>(
        alloc: Global,
        folder: &mut F,
        base: &str,
        metadata: &Value,
    ) -> Result<Option<ParameterLines>, AllocError>
        ensures { F.files folder.new ≡ F.files folder.old }
    {
        let Some(url) = url_of(metadata) else {
            return Ok(None);
        };
        let path = path_in(alloc, base, url)?;
        let (Some(names), Some(lines)) = (folder.open(path.as_str()), folder.open(path.as_str()))
        else {
            return Ok(None);
        };
        let lines = read_lines(alloc, names, lines)?;
        Ok(Some(ParameterLines { path, lines }))
    }

    /// Returns the path of the file.
    pub fn path(&self) -> &str {
        self.path.as_str()
    }

    /// Returns the line at which the record of a parameter begins, if it is known.
    pub fn line(&self, name: &str) -> Option<u64> {
        self.lines.get(name).copied()
    }
}
