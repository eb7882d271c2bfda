//! Decoders for helper threads.

ghost use Rattle.std.specs.Prelude.{◌≡◌, ◌≤◌, ◌<◌, List, IfSome, length};
ghost use Rattle.oim_decode.specs.Heads.{table_header_in};
ghost use Rattle.oim_records.specs.Grids.{Record};
ghost use Rattle.oim_pieces.specs.state.PiecesUnderWay.{IsPieceAnswer};

use oim_decode::{DecodedPart, FirstRecords, PieceDecoder};
use oim_report::Report;
use std::alloc::Global;
use std::marker::Model;

/// The head of a table, from which decoders of its pieces are made.
///
/// Contracts see the table's header.
#[derive(Drop)]
pub(crate) struct Decoders<'a> {
    alloc: Global,
    report: &'a Report,
    table: usize,
    limit: u32,
    head: FirstRecords,
}

impl<'a> Model for Decoders<'a> {
    ghost use Rattle.std.specs.Prelude.{◌≡◌, ◌≤◌, ◌<◌, length};
    ghost use Rattle.oim_decode.specs.Heads.{table_header_in};
    ghost use Rattle.oim_rows.specs.RowFacts.{TableHeaderValue};

    ghost Value = { TableHeaderValue };

    ghost view = { λ a. table_header_in a.report.now a.table a.limit a.head };

    ghost invariant = { λ a. (a.table < length a.report.now.tables) × (a.limit ≤ 4294967294) };
}

impl<'a> Decoders<'a> {
    /// Keeps what makes decoders of one table, with at most `limit` rows.
    pub(crate) fn new(
        alloc: Global,
        report: &'a Report,
        table: usize,
        limit: u32,
        head: FirstRecords,
    ) -> Decoders<'a>
        requires place { table < length report.now.tables }
        requires rows { limit ≤ 4294967294 }
        ensures { result ≡ table_header_in report.now table limit head }
    {
        Decoders {
            alloc,
            report,
            table,
            limit,
            head,
        }
    }

    /// Makes a decoder, or returns `None` if memory runs out.
    pub(crate) fn take(&self) -> Option<PieceDecoder<'a>>
        ensures { IfSome result (λ d. d.header ≡ self.now) }
    {
        match self
            .head
            .decoder(self.alloc, self.report, self.table, self.limit)
        {
            Ok(decoder) => Some(decoder),
            Err(_) => None,
        }
    }

    /// Returns Memory, without a row, for a piece whose answer never arrives.
    #[tactic(auto, using(crate::proofs::ChannelLaws::refused_answer))]
    pub(crate) fn no_answer(&self, first: u32) -> DecodedPart
        ensures { (rows : List Record) → IsPieceAnswer self.now first rows result }
    {
        DecodedPart::refused(self.alloc, self.table)
    }
}
