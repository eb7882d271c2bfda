//! The facts of one table, in blocks of text.
//!
//! Not proved: a block has whole rows if they fit.

ghost use Rattle.std.specs.Prelude.{◌≡◌, ◌⊎◌, ◌≤◌, ◌<◌, ◌+◌, [], IfErr, IfOk, IfSome, None, Some, false, length, true};
ghost use Rattle.oim_records.specs.Grids.{grid};
ghost use Rattle.oim_rows.specs.Header.{file_header_fault};
ghost use Rattle.oim_rows.specs.Streams.{IsOutside, answer_of, stream_of};
ghost use Rattle.oim_decode.specs.Blocks.{GivesBlock, KeepsAnswer, KeepsFound, LeavesNone, ReadsBehind};

use crate::piece::piece_decoder::PieceDecoder;
use crate::piece::piece_join::PieceJoin;
use crate::table::pending_facts::PendingFacts;
use crate::table::text_rows::TextRows;
use oim_json::{Block, Spare};
use oim_records::RecordReader;
use oim_report::{Limits, Report};
use oim_rows::{TableFault, TableKind, whole_fault};
use std::alloc::Global;
use std::io::Read;
use std::marker::Model;

/// The most facts that a block has.
pub(crate) const MOST: usize = 256;

/// The length of texts, in bytes, after which a block gets no further row. A block of ordinary
/// facts is shorter.
const LONG: usize = 131_072;

/// The remaining facts of one table, as blocks of text (xBRL-CSV 1.0, table files: the first record
/// is the header, and each record after it a row).
///
/// Contracts see the table's place and limit, how many rows were read, the facts that are read and
/// not given, and the answer of a settled table. For a reader whose bytes are known, they also see
/// the stream after these facts and the unread records.
pub struct TableBlocks<'a, R: Read + Drop> {
    alloc: Global,
    rows: TextRows<'a, R>,
    facts: PendingFacts,
    // The end or the fault after the facts that are read, once it was found.
    settled: Option<Option<TableFault>>,
}

// Written by hand so that dropping one elsewhere compiles to a single call.
impl<R: Read + Drop> Drop for TableBlocks<'_, R> {
    fn drop(self) {
        let Self {
            alloc: _,
            rows: _,
            facts: _,
            settled: _,
        } = self;
    }
}

impl<'a, R: Read + Drop> Model for TableBlocks<'a, R> {
    ghost use Rattle.std.specs.Prelude.{◌≡◌, IsSome, None};
    ghost use Rattle.oim_decode.specs.Blocks.{BlocksLeft};
    ghost use Rattle.oim_decode.specs.state.Blocks.{blocks_left};

    ghost Value = { BlocksLeft };

    ghost view = { λ a. blocks_left a.rows a.facts a.settled };

    ghost invariant = { λ a. IsSome a.settled → a.rows.rest ≡ None };
}

impl<'a, R: Read + Drop> TableBlocks<'a, R> {
    /// Opens the table at place `table` of the report: reads its header, after an optional
    /// byte-order mark.
    ///
    /// The table may have at most `limits.rows` rows. Fails with the header's first fault, in this
    /// order: NoHeader, UnknownHeader, RepeatedHeader, NoRowIdColumn. Fails with Read if the reader
    /// failed, and with Memory if memory runs out.
    pub fn open(
        alloc: Global,
        report: &'a Report,
        table: usize,
        reader: R,
        limits: Limits,
    ) -> Result<TableBlocks<'a, R>, TableFault>
        requires place { table < length report.now.tables }
        requires rows { limits.rows ≤ 4294967294 }

        // The facts of the table, if its header has no fault.
        ensures start { IfOk result (λ blocks. (blocks.table ≡ table) × (blocks.limit ≡ limits.rows)) }
        ensures begun { IfOk result (λ blocks. (blocks.given ≡ 0) × (blocks.pending ≡ []) × (blocks.answered ≡ None)) }
        ensures stream { IfSome (R.remaining reader) (λ bytes. IfOk result (λ blocks. blocks.left
            ≡ Some (stream_of report.now table limits.rows (grid bytes)))) }
        ensures header { IfSome (R.remaining reader) (λ bytes. IfOk result (λ _. file_header_fault report.now table (grid bytes) ≡ None)) }

        // Its fault, unless the reader failed or memory ran out.
        ensures fault { IfSome (R.remaining reader) (λ bytes. IfErr result (λ e. IsOutside table e
            ⊎ (file_header_fault report.now table (grid bytes) ≡ Some e))) }
    {
        match TextRows::open(alloc, report, table, reader, limits.rows) {
            Ok(rows) => Ok(TableBlocks {
                alloc,
                rows,
                facts: PendingFacts::new(alloc),
                settled: None,
            }),
            Err(fault) => Err(fault),
        }
    }
}

ghost use Rattle.std.specs.Prelude.{option_map};
ghost use Rattle.oim_rows.specs.Streams.{stream_from};

impl<'a, R: Read + Drop> TableBlocks<'a, R> {
    /// Continues a table whose first pieces are joined, row by row. Takes no memory.
    ///
    /// `decoder` is one for the table, `join` that of its pieces before row `next`, and `records`
    /// has this row and those after it.
    pub fn after_pieces(
        alloc: Global,
        decoder: PieceDecoder<'a>,
        join: PieceJoin,
        next: u32,
        records: RecordReader<R>,
    ) -> TableBlocks<'a, R>
        requires some { 1 ≤ next }
        requires few { next ≤ decoder.header.limit + 1 }
        ensures start { (result.table ≡ decoder.entry.header.table) × (result.limit ≡ decoder.entry.header.limit) }
        ensures begun { (result.given + 1 ≡ next) × (result.pending ≡ []) × (result.answered ≡ None) }
        ensures left { result.left ≡ option_map (stream_from decoder.entry.header next join) records.left }
        ensures unread { result.unread ≡ records.left }
    {
        TableBlocks {
            alloc,
            rows: decoder.into_rows(join.into_ids(), next - 1, records),
            facts: PendingFacts::new(alloc),
            settled: None,
        }
    }
}

ghost use Rattle.std.specs.Prelude.{Err, IsOk, IsSome, Ok, OnErr, OnOk, OnSome};
ghost use Rattle.oim_json.specs.Blocks.{behind_commas};
ghost use Rattle.oim_rows.specs.Header.{file_fault};
ghost use Rattle.oim_rows.specs.Streams.{ending};
ghost use Rattle.oim_rows.specs.declared.fault.TableKind.TheVariants as kind;
ghost use Rattle.oim_decode.specs.state.Blocks.{HasReadOn, blocks_left};
ghost use Rattle.oim_decode.specs.state.RowParts.{with_rest};

impl<R: Read + Drop> TableBlocks<'_, R> {
    /// Returns the next 1 to 256 facts in header order, row by row, or None at the end of the
    /// table.
    ///
    /// Further texts go to the memory of `spare`, which may be that of an earlier block. With
    /// each block a row was read or fewer facts wait, and at most `limits.rows` rows are read, so
    /// even an endless file ends. After the end or a fault each call answers the same and takes no
    /// record.
    ///
    /// After the facts of all earlier rows, fails with the first fault of the first bad row, in
    /// this order: Ragged, NotUtf8, TooManyRows, MissingRowId, BadRowId, RepeatedRowId, then the
    /// faults of its cells from left to right. Fails with Read if the reader failed, and with
    /// Memory if memory runs out.
    pub fn next_block(&mut self, spare: Spare) -> Result<Option<Block>, TableFault>
        ensures next { IfSome self.old.left (λ s. GivesBlock self.old.table self.old.pending s result self.new.pending self.new.left) }
        ensures kept { KeepsAnswer result self.new.answered }
        ensures again { IfSome self.old.answered (λ kept. self.old.pending ≡ [] → (result ≡ answer_of kept) × (self.new ≡ self.old)) }

        // What holds of any reader.
        ensures none { LeavesNone result self.new.pending }
        ensures found { KeepsFound self.old result self.new }
        ensures behind { self.old.answered ≡ None → ReadsBehind self.old self.new }
        ensures counts { (self.old.given ≤ self.new.given) × (self.new.given ≤ self.new.limit) }
        ensures moves { IfOk result (λ o. OnSome o ((self.old.given < self.new.given) ⊎ (length self.new.pending < length self.old.pending))) }

        ensures same { (self.new.table ≡ self.old.table) × (self.new.limit ≡ self.old.limit) }
    {
        let whole = match fill(&mut self.rows, &mut self.facts, &mut self.settled) {
            Ok(whole) => whole,
            Err(fault) => return self.lose(fault),
        };
        let count = self.facts.count();
        if count == 0 {
            return match self.settled {
                Some(Some(fault)) => Err(fault),
                Some(None) | None => Ok(None),
            };
        }
        match self.facts.take_block(share(count, whole), spare) {
            Ok(block) => Ok(Some(block)),
            Err(_) => {
                let fault = whole_fault(self.rows.table(), TableKind::Memory);
                self.lose(fault)
            }
        }
    }

    // Settles the table with a fault, and drops the facts that wait.
    #[cold]
    fn lose(&mut self, fault: TableFault) -> Result<Option<Block>, TableFault>
        ensures answer { result ≡ Err fault }
        ensures settled { self.new ≡ record self.old { pending = []; answered = Some (Some fault); left = Some (ending (Some fault)) } }
    {
        self.facts = PendingFacts::new(self.alloc);
        self.rows.close();
        self.settled = Some(Some(fault));
        Err(fault)
    }
}

// Adds facts of the last row that are left, and then rows, until one more might exceed a block.
// Returns how many facts there were before the last row.
#[inline(always)]
fn fill<R: Read + Drop>(
    rows: &mut TextRows<'_, R>,
    facts: &mut PendingFacts,
    settled: &mut Option<Option<TableFault>>,
) -> Result<usize, TableFault>
    requires { IsSome settled.old → rows.old.rest ≡ None }
    ensures reads { OnOk result (HasReadOn (blocks_left rows.old facts.old settled.old) (blocks_left rows.new facts.new settled.new)) }
    ensures some { OnOk result (settled.new ≡ None → 1 ≤ length facts.new) }
    ensures closed { IsSome settled.new → rows.new.rest ≡ None }
    ensures behind { OnOk result (settled.old ≡ None → ReadsBehind (blocks_left rows.old facts.old settled.old) (blocks_left rows.new facts.new settled.new)) }
    ensures counts { (rows.old.given ≤ rows.new.given) × (rows.new.given ≤ rows.new.header.limit) }
    ensures moves { OnOk result ((rows.old.given < rows.new.given) ⊎ (with_rest facts.new rows.new.rest ≡ with_rest facts.old rows.old.rest)) }
    ensures again { IsSome settled.old → IsOk result × (blocks_left rows.new facts.new settled.new ≡ blocks_left rows.old facts.old settled.old) }
    ensures fault { IfErr result (λ e. e ≡ file_fault rows.old.header.table kind.Memory) }
    ensures lost { OnErr result ((rows.new.given ≡ rows.old.given) × (rows.new.unread ≡ rows.old.unread) × (settled.new ≡ None)) }
    ensures same { (rows.new.header.table ≡ rows.old.header.table) × (rows.new.header.limit ≡ rows.old.header.limit) }
    ensures whole { IfOk result (λ whole. whole ≤ 256) }
{
    match fill_from_row(rows, facts) {
        Ok(()) => Ok(fill_with_rows(rows, facts, settled)),
        Err(fault) => Err(fault),
    }
}

// Adds more facts of the last row if some are left, unless the texts that wait are long.
#[inline(always)]
fn fill_from_row<R: Read + Drop>(
    rows: &mut TextRows<'_, R>,
    facts: &mut PendingFacts,
) -> Result<(), TableFault>
    ensures facts { OnOk result (with_rest facts.new rows.new.rest ≡ with_rest facts.old rows.old.rest) }
    ensures long { OnOk result (IsSome rows.new.rest → 131072 < length (behind_commas facts.new)) }
    ensures closed { rows.old.rest ≡ None → (result ≡ Ok tt) × (rows.new ≡ rows.old) × (facts.new ≡ facts.old) }
    ensures fault { IfErr result (λ e. e ≡ file_fault rows.old.header.table kind.Memory) }
    ensures lost { OnErr result (rows.new.rest ≡ None) }
    ensures same { rows.new ≡ record rows.old { rest = rows.new.rest } }
    ensures within { rows.new.given ≤ rows.new.header.limit }
{
    if !rows.is_open() || facts.bytes() > LONG {
        return Ok(());
    }
    rows.put_more(facts)
}

// Reads rows until one more might exceed a block, or the texts are long. Returns how many facts
// there were before the last row.
fn fill_with_rows<R: Read + Drop>(
    rows: &mut TextRows<'_, R>,
    facts: &mut PendingFacts,
    settled: &mut Option<Option<TableFault>>,
) -> usize
    requires long { IsSome rows.old.rest → 131072 < length (behind_commas facts.old) }
    requires closed { IsSome settled.old → rows.old.rest ≡ None }
    ensures reads { HasReadOn (blocks_left rows.old facts.old settled.old) (blocks_left rows.new facts.new settled.new) }
    ensures some { settled.new ≡ None → 1 ≤ length facts.new }
    ensures closed { IsSome settled.new → rows.new.rest ≡ None }
    ensures behind { settled.old ≡ None → ReadsBehind (blocks_left rows.old facts.old settled.old) (blocks_left rows.new facts.new settled.new) }
    ensures counts { (rows.old.given ≤ rows.new.given) × (rows.new.given ≤ rows.new.header.limit) }
    ensures moves { (rows.old.given < rows.new.given) ⊎ (with_rest facts.new rows.new.rest ≡ with_rest facts.old rows.old.rest) }
    ensures again { IsSome settled.old → blocks_left rows.new facts.new settled.new ≡ blocks_left rows.old facts.old settled.old }
    ensures same { (rows.new.header.table ≡ rows.old.header.table) × (rows.new.header.limit ≡ rows.old.header.limit) }
    ensures whole { result ≤ 256 }
{
    let mut whole = 0;
    let width = rows.width();
    while has_room(facts.count(), width, facts.bytes()) {
        match settled {
            Some(_) => return whole,
            None => {}
        }
        whole = facts.count();
        match rows.next_row(facts) {
            Ok(true) => {}
            Ok(false) => *settled = Some(None),
            Err(fault) => *settled = Some(Some(fault)),
        }
    }
    whole
}

// Returns whether to read a row of `width` cells before giving the `count` waiting facts, whose
// texts have `bytes` bytes: if none waits, or if a block still has room for one fact of each cell
// and the texts are not long.
pub(crate) fn has_room(count: usize, width: usize, bytes: usize) -> bool
    ensures some { result ≡ false → 1 ≤ count }
    ensures full { result ≡ false → bytes ≤ 131072 → 256 < count + width }
    ensures short { result ≡ true → 1 ≤ count → bytes ≤ 131072 }
    ensures most { result ≡ true → count ≤ 256 }
    ensures room { result ≡ true → 1 ≤ count → count + width ≤ 256 }
{
    count == 0 || (bytes <= LONG && width <= MOST && count <= MOST - width)
}

// Returns how many of `count` facts the next block gets, if `whole` of them are from before the
// last row: all if they fit, else those of the whole rows, else as many as fit.
fn share(count: usize, whole: usize) -> usize
    requires some { 1 ≤ count }
    requires whole { whole ≤ 256 }
    ensures some { 1 ≤ result }
    ensures most { result ≤ 256 }
    ensures there { result ≤ count }
    ensures all { count ≤ 256 → result ≡ count }
    ensures rows { 256 < count → 1 ≤ whole → result ≡ whole }
    ensures cut { 256 < count → whole ≡ 0 → result ≡ 256 }
{
    if count <= MOST {
        return count;
    }
    if whole > 0 { whole } else { MOST }
}
