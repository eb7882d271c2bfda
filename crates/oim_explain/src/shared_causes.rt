//! The lines below those of refused tables: a cause that several of them have is told once.
//!
//! Not proved: all of this file.

use crate::explanation::{Explanation, explanation_text};
use crate::fault_list::ListedFaults;
use crate::tables::{ExplainedFault, explained_fault};
use oim_files::Folder;
use oim_names::Text;
use oim_places::{ReportAgain, excerpt};
use oim_rows::TableFault;
use std::alloc::{AllocError, Global};
use std::io::Read;

/// How many refused tables are explained.
pub const MOST_TABLES: usize = 100;

/// How many later tables with a cause are named before the last one.
const MOST_NAMED: usize = 3;

/// Returns the place to mend.
fn source_of(explanation: &Explanation) -> &str {
    match &explanation.source {
        Some(source) => source.as_str(),
        None => explanation.place.as_str(),
    }
}

/// How many rows have a cause.
#[derive(Clone, Copy)]
struct SharedRows {
    /// How many are counted.
    count: usize,
    /// Whether more faults were not looked at.
    is_cut: bool,
}

/// Returns how many rows of these tables have their cause, or `None` if that was not counted.
fn rows_of(listed: &[ListedFaults], tables: &[usize]) -> Option<SharedRows> {
    let mut all = SharedRows {
        count: 0,
        is_cut: false,
    };
    for table in tables {
        match listed.get(*table) {
            Some(faults) if faults.rows > 0 => {
                all.count = all.count.saturating_add(faults.rows);
                all.is_cut = all.is_cut || faults.is_cut;
            }
            _ => return None,
        }
    }
    Some(all)
}

/// Returns the line that says how many more rows of a table have the cause, if there are any.
fn rows_line(alloc: Global, rows: Option<SharedRows>) -> Result<String, AllocError> {
    match rows {
        Some(rows) if rows.count > 1 => {
            let least = if rows.is_cut { "at least " } else { "" };
            let more = rows.count - 1;
            let word = if more == 1 { "row" } else { "rows" };
            format!(in alloc; "    the same in {least}{more} more {word}\n")
        }
        _ => Ok(String::new(alloc)),
    }
}

/// Returns the line that names the later tables with a cause, and how many rows of all have it.
fn others_line(
    alloc: Global,
    others: &[String],
    rows: Option<SharedRows>,
) -> Result<String, AllocError> {
    let count = others.len();
    let last = count.saturating_sub(1);
    let word = if count == 1 { "table" } else { "tables" };
    let mut line = format!(in alloc; "    the same in {count} more {word}")?;
    for (index, id) in others.iter().enumerate() {
        let before = match index {
            0 => ": ",
            _ if index < MOST_NAMED => ", ",
            _ if index == last => " .. ",
            _ => continue,
        };
        line.push_str(before)?;
        line.push_str(id.as_str())?;
    }
    if let Some(SharedRows { count, is_cut }) = rows {
        let least = if is_cut { "at least " } else { "" };
        line.push_str(format!(in alloc; "; {least}{count} rows in all")?.as_str())?;
    }
    line.push('\n')?;
    Ok(line)
}

/// Explains the faults of the first `MOST_TABLES` refused tables of this report, whose metadata is
/// at `meta`. The tables' files are read again.
pub fn explained_faults<R: Read + Drop, F: Folder<R>>(
    alloc: Global,
    meta: &str,
    folder: &mut F,
    again: &ReportAgain,
    tables: &[(Text, TableFault)],
) -> Result<Vec<ExplainedFault>, AllocError> {
    let mut told = Vec::new(alloc);
    for (_, fault) in tables.iter().take(MOST_TABLES) {
        told.push(explained_fault(alloc, meta, folder, again, fault)?)?;
    }
    Ok(told)
}

/// Returns the lines below that of the refused table at this index: its explanation, and which
/// later tables have the same cause. If an earlier table has it, they are a line that names it.
///
/// `told` is what `explained_faults` gives. `listed` is what `list_faults` gives of each table; if
/// it is empty, no line counts rows. A table past those of `told` has no lines.
pub fn lines_below(
    alloc: Global,
    tables: &[(Text, TableFault)],
    told: &[ExplainedFault],
    listed: &[ListedFaults],
    index: usize,
) -> Result<String, AllocError> {
    let Some(ExplainedFault { explanation, .. }) = told.get(index) else {
        return Ok(String::new(alloc));
    };
    let source = source_of(explanation);
    let mut others = Vec::new(alloc);
    let mut same = vec![in alloc; index]?;
    for (place, ((id, _), other)) in tables.iter().zip(told.iter()).enumerate() {
        let other = &other.explanation;
        if place == index || source_of(other) != source || other.cause != explanation.cause {
            continue;
        }
        let id = excerpt(alloc, id.as_str())?;
        if place < index {
            let id = id.as_str();
            return format!(in alloc; "    the same cause as in table {id}: {source}\n");
        }
        others.push(id)?;
        same.push(place)?;
    }
    let rows = rows_of(listed, same.as_slice());
    let shared = if others.is_empty() {
        rows_line(alloc, rows)?
    } else {
        others_line(alloc, others.as_slice(), rows)?
    };
    let mut lines = explanation_text(alloc, explanation)?;
    lines.push_str(shared.as_str())?;
    Ok(lines)
}
