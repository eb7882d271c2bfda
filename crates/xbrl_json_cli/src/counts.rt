//! What a run counts for `--counts`, while it reads and writes.
//!
//! Nothing is read again for it: the tables' identifiers come from the metadata's bytes as they are
//! read, the rows from the bytes of the tables' files, and the facts from the document's bytes.
//!
//! Not proved: all of this file. A count that failed, or that does not fit the others, gives no
//! file.

use crate::document_counts::{DocumentCounts, TableFacts};
use crate::row_counter::RowCounter;
use crate::table_names::TableNames;
use std::alloc::{AllocError, Global};
use std::sync::atomic::{AtomicBool, AtomicU64, Ordering};
use std::sync::{Arc, Mutex};

/// A table, as its file was looked for.
#[derive(Drop)]
struct FoundTable {
    /// The path of its file in the folder of the metadata.
    url: String,
    /// The rows of its file, or `None` if it has none.
    rows: Option<Arc<AtomicU64, Global>>,
}

/// The counts of a run.
///
/// The threads that read tables share only the numbers of rows. Only the thread of the run uses a
/// lock, so no thread ever waits for one.
#[derive(Drop)]
pub struct Counts {
    alloc: Global,
    /// Whether the metadata, the first file of a run, was opened.
    is_metadata_open: AtomicBool,
    names: Mutex<TableNames>,
    /// The tables in the document's order, as they are looked for.
    found: Mutex<Vec<FoundTable>>,
    facts: Mutex<DocumentCounts>,
    /// Whether something could not be counted.
    has_failed: AtomicBool,
}

/// Returns the part of a table's path below the folder of the metadata.
fn url_in<'a>(meta: &str, path: &'a str) -> &'a str {
    let below = match meta.rsplit_once('/') {
        Some((folder, _)) => path
            .strip_prefix(folder)
            .and_then(|rest| rest.strip_prefix("/")),
        None => Some(path),
    };
    below.unwrap_or(path)
}

/// Appends a table.
fn put_found(
    found: &mut Vec<FoundTable>,
    url: String,
    rows: Option<Arc<AtomicU64, Global>>,
) -> Result<(), AllocError> {
    found.push(FoundTable { url, rows })?;
    Ok(())
}

/// Appends a text in quotes.
fn put_text(alloc: Global, out: &mut Vec<u8>, text: &str) -> Result<(), AllocError> {
    match serde_json::to_vec(alloc, &text) {
        Ok(bytes) => out.extend_from_slice(&bytes),
        Err(_) => Err(AllocError),
    }
}

/// Appends a further member with a number.
fn put_number(alloc: Global, out: &mut Vec<u8>, key: &str, number: u64) -> Result<(), AllocError> {
    let member = format!(in alloc; ",\"{key}\":{number}")?;
    out.extend_from_slice(member.as_bytes())
}

/// Appends the member of a table: what was found, and of its facts how many lack something.
fn put_table(
    alloc: Global,
    out: &mut Vec<u8>,
    name: &str,
    found: &FoundTable,
    facts: Option<&TableFacts>,
) -> Result<(), AllocError> {
    let (all, decimals, entities, periods, units) = match facts {
        Some(it) => (it.facts, it.decimals, it.entities, it.periods, it.units),
        None => (0, 0, 0, 0, 0),
    };
    let (read, rows) = match &found.rows {
        Some(rows) => (true, rows.load(Ordering::SeqCst)),
        None => (false, 0),
    };
    let without_unit = all.saturating_sub(units);
    let without_decimals = all.saturating_sub(decimals);
    let without_entity = all.saturating_sub(entities);
    let without_period = all.saturating_sub(periods);
    out.extend_from_slice(b"{\"table\":")?;
    put_text(alloc, out, name)?;
    out.extend_from_slice(b",\"url\":")?;
    put_text(alloc, out, found.url.as_str())?;
    let numbers = format!(in alloc; ",\"read\":{read},\"rows\":{rows},\"facts\":{all}")?;
    out.extend_from_slice(numbers.as_bytes())?;
    put_number(alloc, out, "withoutUnit", without_unit)?;
    put_number(alloc, out, "withoutDecimals", without_decimals)?;
    put_number(alloc, out, "withoutEntity", without_entity)?;
    put_number(alloc, out, "withoutPeriod", without_period)?;
    out.push(b'}')?;
    Ok(())
}

/// Returns the file's text, if the tables that were found are those of the metadata, and the facts
/// are of them.
fn text_of(
    alloc: Global,
    names: &TableNames,
    found: &[FoundTable],
    facts: &[TableFacts],
) -> Result<Option<Vec<u8>>, AllocError> {
    let mut out = Vec::new(alloc);
    let mut used = 0usize;
    out.extend_from_slice(b"{\"tables\":[")?;
    if names.names().len() != found.len() {
        return Ok(None);
    }
    for (index, (name, table)) in names.names().iter().zip(found.iter()).enumerate() {
        if index > 0 {
            out.push(b',')?;
        }
        let own = match facts.get(used) {
            Some(next) if next.table.as_slice() == name.as_bytes() => Some(next),
            _ => None,
        };
        used = used.saturating_add(usize::from(own.is_some()));
        put_table(alloc, &mut out, name.as_str(), table, own)?;
    }
    out.extend_from_slice(b"]}\n")?;
    Ok(if used == facts.len() { Some(out) } else { None })
}

impl Counts {
    /// Starts with nothing counted.
    pub fn new(alloc: Global) -> Counts {
        Counts {
            alloc,
            is_metadata_open: AtomicBool::new(false),
            names: Mutex::new(TableNames::new(alloc)),
            found: Mutex::new(Vec::new(alloc)),
            facts: Mutex::new(DocumentCounts::new(alloc)),
            has_failed: AtomicBool::new(false),
        }
    }

    /// Keeps whether something could not be counted.
    fn check(&self, how: Option<Result<(), AllocError>>) {
        match how {
            Some(Ok(())) => {}
            _ => self.has_failed.store(true, Ordering::SeqCst),
        }
    }

    /// Whether the file that is opened now is the metadata: it is the first one.
    pub fn opens_metadata(&self) -> bool {
        !self.is_metadata_open.swap(true, Ordering::SeqCst)
    }

    /// Reads the next bytes of the metadata.
    pub fn take_metadata(&self, bytes: &[u8]) {
        self.check(match self.names.try_lock() {
            Some(mut names) => Some(names.take(bytes)),
            None => None,
        });
    }

    /// Counts the next bytes of the document.
    pub fn take_document(&self, bytes: &[u8]) {
        self.check(match self.facts.try_lock() {
            Some(mut facts) => Some(facts.take(bytes)),
            None => None,
        });
    }

    /// Keeps a table with this path in the folder of the metadata.
    fn keep_at(&self, url: String, rows: Option<Arc<AtomicU64, Global>>) {
        self.check(match self.found.try_lock() {
            Some(mut found) => Some(put_found(&mut found, url, rows)),
            None => None,
        });
    }

    /// Keeps a table.
    fn keep(&self, meta: &str, path: &str, rows: Option<Arc<AtomicU64, Global>>) {
        match String::from_str(self.alloc, url_in(meta, path)) {
            Ok(url) => self.keep_at(url, rows),
            Err(_) => self.check(None),
        }
    }

    /// Keeps a table whose file does not exist.
    pub fn table_missing(&self, meta: &str, path: &str) {
        self.keep(meta, path, None);
    }

    /// Keeps a table whose file is at a path, and returns the counter of its rows.
    pub fn table_found(&self, meta: &str, path: &str) -> Option<RowCounter> {
        let counter = match Arc::new(self.alloc, AtomicU64::new(0)) {
            Ok(rows) => match Arc::try_clone(&rows) {
                Ok(shared) => Some((rows, RowCounter::new(shared))),
                Err(_) => None,
            },
            Err(_) => None,
        };
        match counter {
            Some((rows, counter)) => {
                self.keep(meta, path, Some(rows));
                Some(counter)
            }
            None => {
                self.check(None);
                None
            }
        }
    }

    /// Returns the text of the file of the counts, after a run that ended well. Returns `None` if
    /// something could not be counted.
    pub fn text(&self) -> Option<Vec<u8>> {
        if self.has_failed.load(Ordering::SeqCst) {
            return None;
        }
        let names = self.names.try_lock()?;
        let found = self.found.try_lock()?;
        let facts = self.facts.try_lock()?;
        match text_of(self.alloc, &names, found.as_slice(), facts.tables()) {
            Ok(text) => text,
            Err(_) => None,
        }
    }
}
