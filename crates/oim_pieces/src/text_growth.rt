//! How much longer than its rows the facts of a table can be.
//!
//! Not proved: that no fact is longer. The figures only decide how much of a table is decoded at
//! once and by whom, and no result depends on them.

ghost use Rattle.std.specs.Prelude.{◌<◌, length};

use oim_report::{Column, ColumnKind, Level, Report, Written};
use std::alloc::Global;

/// The most bytes that the metadata adds to a fact of a table in pieces.
const MOST_OF_FACT: usize = 2_048;

/// The most bytes that the metadata adds to the facts of a row of a table in pieces.
const MOST_OF_ROW: usize = 2_097_152;

/// The most copies of a cell in the facts of a row of a table in pieces.
const MOST_COPIES: usize = 256;

/// The most bytes of the beginnings of facts that a table in pieces may keep on each thread, one
/// for each column of facts and property group.
const MOST_KEPT: usize = 33_554_432;

/// The bytes that are kept with each beginning of a fact.
const KEPT_WITH: usize = 128;

/// The most bytes that the metadata adds to the facts of a piece. Ordinary metadata adds up to 256
/// bytes to a fact, and then a piece keeps its usual size.
const MOST_ADDED: usize = 8_388_608;

/// The most bytes that the metadata adds to the facts of all pieces under way, except one.
const MOST_UNDER_WAY: usize = 8_388_608;

/// The most bytes of cells that are copied to the facts of a piece.
const MOST_COPIED: usize = 2_097_152;

/// The least size of a piece if each fact copies a cell once. A row with many facts has more bytes.
const LEAST_COPIED: usize = 4_096;

/// The most bytes of the copies of cells in the facts of a piece. Only a cell that is longer than
/// an ordinary piece has more.
const MOST_OF_COPIES: usize = 8_388_608;

/// The bytes of a dimension in a fact's text, besides its name and value.
const AROUND: usize = 6;

/// How much longer than its rows the facts of a table can be.
#[derive(Drop)]
pub struct TextGrowth {
    // The most facts of a row.
    facts: usize,
    // The most bytes that the metadata adds to a fact.
    added: usize,
    // The most copies of a cell in the facts of a row.
    copies: usize,
    // For each column of the template, how many facts of a row copy its cell, if that is known.
    of_columns: Option<Vec<usize>>,
    // How many property groups the template has.
    groups: usize,
}

/// What levels add to a fact at most: bytes, and references to cells.
#[derive(Clone, Copy)]
struct Added {
    bytes: usize,
    references: usize,
}

impl Added {
    /// Returns what an empty level adds.
    fn nothing() -> Added {
        Added {
            bytes: 0,
            references: 0,
        }
    }

    /// Returns what both add together.
    fn and(self, other: Added) -> Added {
        Added {
            bytes: self.bytes.saturating_add(other.bytes),
            references: self.references.saturating_add(other.references),
        }
    }

    /// Returns what one of both adds at most.
    fn or(self, other: Added) -> Added {
        Added {
            bytes: self.bytes.max(other.bytes),
            references: self.references.max(other.references),
        }
    }
}

/// Returns what a dimension's value adds.
fn added_by_value(report: &Report, table: usize, value: &Written) -> Added
    requires { table < length report.now.tables }
{
    match value {
        Written::Text(text) => Added {
            bytes: text.as_str().len(),
            references: 0,
        },
        Written::Named(name, _) => match report.parameter(table, name.as_str()) {
            Some(text) => Added {
                bytes: text.len(),
                references: 0,
            },
            None => Added {
                bytes: 0,
                references: 1,
            },
        },
        Written::Absent | Written::Nil | Written::Empty | Written::RowNumber(_) => Added::nothing(),
    }
}

/// Returns what a level adds.
fn added_by(report: &Report, table: usize, level: &Level) -> Added
    requires { table < length report.now.tables }
{
    let mut added = Added::nothing();
    for dimension in level.dimensions.as_slice() {
        let name = Added {
            bytes: dimension.0.as_str().len().saturating_add(AROUND),
            references: 0,
        };
        let value = added_by_value(report, table, &dimension.1);
        added = added.and(name).and(value);
    }
    added
}

/// Returns what a property group of the column adds at most.
fn added_by_group(report: &Report, table: usize, column: &Column) -> Added
    requires { table < length report.now.tables }
{
    let mut added = Added::nothing();
    for group in column.groups.as_slice() {
        added = added.or(added_by(report, table, &group.1));
    }
    added
}

/// Returns how many groups and dimensions a column has, or more than `most` if it has more.
fn looks_at(column: &Column, most: usize) -> usize {
    let mut count = column.level.dimensions.len();
    for group in column.groups.as_slice() {
        if count > most {
            return count;
        }
        count = count
            .saturating_add(1)
            .saturating_add(group.1.dimensions.len());
    }
    count
}

/// Returns how many columns, groups and dimensions a table's template has, or more than `most` if
/// it has more.
pub(crate) fn looks_in(report: &Report, table: usize, most: usize) -> usize
    requires { table < length report.now.tables }
{
    let shared = report.report_level().dimensions.len();
    let mut count = shared.saturating_add(report.template_level(table).dimensions.len());
    for column in report.template_columns(table) {
        if count > most {
            return count;
        }
        count = count
            .saturating_add(1)
            .saturating_add(looks_at(column, most));
    }
    count
}

/// Counts that `times` facts copy the cells to which a level refers.
fn count_copies(report: &Report, table: usize, level: &Level, times: usize, copies: &mut Vec<usize>)
    requires { table < length report.now.tables }
{
    for dimension in level.dimensions.as_slice() {
        if let Written::Named(name, _) = &dimension.1 {
            if let Some(place) = report.place_of_column(table, name.as_str().as_bytes()) {
                if place < copies.len() {
                    copies[place] = copies[place].saturating_add(times);
                }
            }
        }
    }
}

/// Returns the greatest count.
fn greatest(counts: &[usize]) -> usize {
    let mut most = 0usize;
    for count in counts {
        most = most.max(*count);
    }
    most
}

/// Returns how many columns have facts.
fn facts_in(columns: &[Column]) -> usize {
    let mut count = 0usize;
    for column in columns {
        if column.kind == ColumnKind::Fact {
            count = count.saturating_add(1);
        }
    }
    count
}

/// Counts that the facts of a row copy the cells to which the levels of the report and the table
/// and those of its columns refer.
fn count_levels(report: &Report, table: usize, facts: usize, copies: &mut Vec<usize>)
    requires { table < length report.now.tables }
{
    count_copies(report, table, report.report_level(), facts, copies);
    count_copies(report, table, report.template_level(table), facts, copies);
    for column in report.template_columns(table) {
        count_copies(report, table, &column.level, 1, copies);
    }
}

/// Counts that all facts of a row copy the cells to which the property groups of a column refer.
fn count_groups(
    report: &Report,
    table: usize,
    column: &Column,
    facts: usize,
    copies: &mut Vec<usize>,
)
    requires { table < length report.now.tables }
{
    for group in column.groups.as_slice() {
        count_copies(report, table, &group.1, facts, copies);
    }
}

/// Returns how many copies the cell at `place` of a row has, if the header names these columns.
fn copies_at(copies: &[usize], columns: &[Option<usize>], place: usize) -> usize {
    match columns.get(place) {
        Some(Some(column)) => match copies.get(*column) {
            Some(count) => *count,
            None => 0,
        },
        _ => 0,
    }
}

/// Returns about how many bytes the copies of the cells of records have. A comma in quotes ends no
/// cell.
fn bytes_copied(records: &[u8], copies: &[usize], columns: &[Option<usize>]) -> usize {
    let mut bytes = 0usize;
    let mut place = 0usize;
    let mut times = copies_at(copies, columns, 0);
    let mut is_quoted = false;
    for byte in records {
        if *byte == b'"' {
            is_quoted = !is_quoted;
        }
        if is_quoted || !matches!(*byte, b',' | b'\n' | b'\r') {
            bytes = bytes.saturating_add(times);
        } else {
            place = if *byte == b',' {
                place.saturating_add(1)
            } else {
                0
            };
            times = copies_at(copies, columns, place);
        }
    }
    bytes
}

impl TextGrowth {
    /// Returns a growth of nothing, with which pieces have their usual size.
    pub fn none() -> TextGrowth {
        TextGrowth {
            facts: 0,
            added: 0,
            copies: 0,
            of_columns: None,
            groups: 0,
        }
    }

    /// Returns how much longer than its rows the facts of a table can be. If memory runs out, it
    /// counts no copies but those of references from property groups.
    pub(crate) fn of(alloc: Global, report: &Report, table: usize) -> TextGrowth
        requires { table < length report.now.tables }
    {
        let columns = report.template_columns(table);
        let mut own = Added::nothing();
        let mut by_groups = Added::nothing();
        let mut groups = 0usize;
        for column in columns {
            own = own.or(added_by(report, table, &column.level));
            by_groups = by_groups.and(added_by_group(report, table, column));
            groups = groups.saturating_add(column.groups.len());
        }
        let shared = added_by(report, table, report.report_level());
        let template = added_by(report, table, report.template_level(table));
        let facts = facts_in(columns);
        TextGrowth {
            facts,
            added: shared.and(template).and(own).and(by_groups).bytes,
            copies: facts.saturating_mul(by_groups.references),
            of_columns: None,
            groups,
        }
        .with_copies(alloc, report, table)
    }

    /// Adds the copies of cells, those of references from property groups column by column only.
    fn with_copies(self, alloc: Global, report: &Report, table: usize) -> TextGrowth
        requires { table < length report.now.tables }
    {
        let columns = report.template_columns(table);
        let Ok(mut copies) = vec![in alloc; 0usize; columns.len()] else {
            return self;
        };
        let mut growth = self;
        count_levels(report, table, growth.facts, &mut copies);
        growth.copies = growth.copies.saturating_add(greatest(copies.as_slice()));
        for column in columns {
            count_groups(report, table, column, growth.facts, &mut copies);
        }
        growth.of_columns = Some(copies);
        growth
    }

    /// Returns whether the facts can be so long that they are not decoded in pieces.
    pub(crate) fn is_long(&self) -> bool {
        self.added > MOST_OF_FACT
            || self.copies > MOST_COPIES
            || self.facts.saturating_mul(self.added) > MOST_OF_ROW
            || self.kept() > MOST_KEPT
    }

    /// Returns how many bytes of the beginnings of facts a thread may keep.
    fn kept(&self) -> usize {
        let each = self.added.saturating_add(KEPT_WITH);
        self.facts.saturating_mul(self.groups).saturating_mul(each)
    }

    /// Returns the size of pieces, at most the usual one: so small that their facts take little
    /// memory unless a cell is long.
    pub(crate) fn piece_size(&self, usual: usize) -> usize {
        let added = MOST_ADDED / self.added.max(1);
        let copies = self.copies.max(1);
        let once = LEAST_COPIED.saturating_mul(self.facts) / copies;
        let copied = (MOST_COPIED / copies).max(once.min(LEAST_COPIED));
        usual.min(added.min(copied).max(1))
    }

    /// Returns how many bytes are added at most to the facts of a piece of `bytes` bytes and `rows`
    /// rows: by the metadata, or by the copies of a cell if a cell of the piece may be long.
    fn added_to(&self, bytes: usize, rows: usize, may_be_long: bool) -> usize {
        let added = rows
            .saturating_mul(self.facts)
            .min(bytes)
            .saturating_mul(self.added);
        if may_be_long {
            added.max(bytes.saturating_mul(self.copies))
        } else {
            added
        }
    }

    /// Returns what is added to the longest of the last pieces: to the one of `bytes` bytes with
    /// `rows` rows, or to those before it, which count less with each piece.
    pub(crate) fn longest(
        &self,
        before: usize,
        bytes: usize,
        rows: usize,
        may_be_long: bool,
    ) -> usize {
        self.added_to(bytes, rows, may_be_long)
            .max(before.saturating_sub(before / 4))
    }

    /// Returns whether the copies of cells in the facts of a piece are so long that it is not
    /// decoded as a whole. The header names these columns.
    pub(crate) fn is_long_piece(&self, piece: &[u8], columns: &[Option<usize>]) -> bool {
        if piece.len().saturating_mul(self.copies) <= MOST_OF_COPIES {
            return false;
        }
        match &self.of_columns {
            Some(copies) => bytes_copied(piece, copies.as_slice(), columns) > MOST_OF_COPIES,
            None => false,
        }
    }
}

/// Returns whether one more piece may be under way in addition to `count`, if `longest` bytes are
/// added to the longest.
pub(crate) fn has_memory(count: usize, longest: usize) -> bool {
    count.saturating_mul(longest) < MOST_UNDER_WAY
}
