//! One piece that is under way.

ghost use Rattle.std.specs.Prelude.{◌≡◌, ◌≤◌, ◌+◌, IfErr, IfOk, Some};
ghost use Rattle.csv.specs.declared.parser.State.TheVariants as state;
ghost use Rattle.oim_records.specs.Grids.{records_left};
ghost use Rattle.oim_pieces.specs.state.PiecesUnderWay.{IsPieceAnswer};
ghost use Rattle.oim_pieces.specs.state.Channels.{IsOf};
ghost use Rattle.oim_pieces.specs.state.ComingAnswers.{IsKept};

use crate::cutter::CutPiece;
use crate::decoded::Asked;
use crate::in_channel::{Pending, PieceToDecode};
use crate::table_threads::TableThreads;
use oim_decode::PieceAnswer;
use std::marker::Model;
use std::sync::Wait;

/// The answer for a piece: it arrives through the piece's channel, or is here already, or the bytes
/// of the piece are kept here until it is asked for.
#[derive(Drop)]
pub(crate) enum ComingAnswer<'a> {
    Awaited(Pending<'a>),
    Here(PieceAnswer),
    Kept(Vec<u8>),
}

/// A piece that is under way.
///
/// Contracts see its table's header, its rows and the number of the first.
pub(crate) struct PieceUnderWay<'a> {
    asked: Asked<'a>,
    coming: ComingAnswer<'a>,
}

// Written by hand so that dropping one elsewhere compiles to a single call.
impl Drop for PieceUnderWay<'_> {
    fn drop(self) {
        let Self {
            asked: _,
            coming: _,
        } = self;
    }
}

impl<'a> Model for PieceUnderWay<'a> {
    ghost use Rattle.oim_pieces.specs.state.PiecesUnderWay.{PieceRowsLeft};
    ghost use Rattle.oim_pieces.specs.state.ComingAnswers.{Comes};

    ghost Value = { PieceRowsLeft };

    ghost view = { λ a. record { header = a.asked.header.value; first = a.asked.first; rows = a.asked.rows.value } };

    ghost invariant = { λ a. Comes a.asked a.coming };
}

impl<'a> PieceUnderWay<'a> {
    /// Makes a piece whose answer is here.
    pub(crate) fn here(asked: Asked<'a>, answer: PieceAnswer) -> PieceUnderWay<'a>
        requires { IsPieceAnswer asked.header.value asked.first asked.rows.value answer }
        ensures { (result.header ≡ asked.entry.header.value) × (result.first ≡ asked.entry.first) × (result.rows ≡ asked.entry.rows.value) }
    {
        PieceUnderWay {
            asked,
            coming: ComingAnswer::Here(answer),
        }
    }

    /// Makes a piece whose answer arrives through its channel.
    pub(crate) fn awaited(asked: Asked<'a>, pending: Pending<'a>) -> PieceUnderWay<'a>
        requires { IsOf asked pending }
        ensures { (result.header ≡ asked.entry.header.value) × (result.first ≡ asked.entry.first) × (result.rows ≡ asked.entry.rows.value) }
    {
        PieceUnderWay {
            asked,
            coming: ComingAnswer::Awaited(pending),
        }
    }

    /// Makes a piece of these bytes that is decoded when its answer is asked for.
    pub(crate) fn kept(asked: Asked<'a>, bytes: Vec<u8>) -> PieceUnderWay<'a>
        requires { IsKept asked bytes.items }
        ensures { (result.header ≡ asked.entry.header.value) × (result.first ≡ asked.entry.first) × (result.rows ≡ asked.entry.rows.value) }
    {
        PieceUnderWay {
            asked,
            coming: ComingAnswer::Kept(bytes),
        }
    }

    /// Returns whether the piece is decoded only when its answer is asked for.
    pub(crate) fn is_kept(&self) -> bool {
        matches!(&self.coming, ComingAnswer::Kept(_))
    }

    /// Returns the bytes of a piece that was kept, and the number of its first row. Returns any
    /// other piece as it is.
    pub(crate) fn into_cut(self) -> Result<CutPiece, PieceUnderWay<'a>>
        ensures first { IfOk result (λ piece. (piece.first ≡ self.entry.first) × (1 ≤ piece.first) × (piece.first ≤ self.entry.header.limit + 1)) }
        ensures rows { IfOk result (λ piece. records_left state.StartRecord piece.bytes.items ≡ self.entry.rows) }
        ensures other { IfErr result (λ piece. piece ≡ self.entry) }
    {
        let PieceUnderWay { asked, coming } = self;
        match coming {
            ComingAnswer::Kept(bytes) => Ok(CutPiece {
                bytes,
                first: asked.first,
                stays: true,
            }),
            coming => Err(PieceUnderWay { asked, coming }),
        }
    }

    /// Returns the number of the piece's first row.
    pub(crate) fn first(&self) -> u32
        ensures { result ≡ self.now.first }
    {
        self.asked.first
    }

    /// Drops the piece, and takes it from its channel if no thread has, so that none decodes it.
    pub(crate) fn draw<T: Wait>(self, rt: &T) {
        let PieceUnderWay { asked: _, coming } = self;
        if let ComingAnswer::Awaited(mut pending) = coming {
            let _ = pending.look(rt);
        }
    }

    /// Returns the answer for the piece. The worker decodes other pieces until it arrives.
    #[tactic(auto, using(crate::proofs::ChannelLaws::of_asked, crate::proofs::ChannelLaws::of_reads, crate::proofs::ChannelLaws::of_first, crate::proofs::ChannelLaws::may_kept, crate::proofs::ChannelLaws::kept_answer))]
    pub(crate) fn wait_for_answer<T: Wait>(
        self,
        rt: &T,
        threads: &mut TableThreads<'a>,
    ) -> PieceAnswer
        requires { self.header ≡ threads.old }
        ensures answer { IsPieceAnswer self.entry.header self.entry.first self.entry.rows result }
        ensures same { threads.new ≡ threads.old }
    {
        let PieceUnderWay { asked, coming } = self;
        match coming {
            ComingAnswer::Awaited(pending) => {
                let first = asked.first;
                threads.await_answer(rt, pending, first)
            }
            ComingAnswer::Here(answer) => answer,
            ComingAnswer::Kept(bytes) => threads.decode(PieceToDecode {
                asked,
                bytes,
                spares: 0,
            }),
        }
    }
}
