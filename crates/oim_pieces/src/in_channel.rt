//! What is in the channel of a piece: the piece until a thread takes it, and then its answer.

ghost use Rattle.std.specs.Prelude.{◌≡◌};
ghost use Rattle.oim_pieces.specs.state.Channels.{IsPiece};

use crate::decoded::Asked;
use keyed::{Fit, Giver, Taker};
use oim_decode::PieceAnswer;

/// A piece to decode: which rows it has, its bytes, and how many spares its texts may take.
#[derive(Drop)]
pub(crate) struct PieceToDecode<'a> {
    pub(crate) asked: Asked<'a>,
    pub(crate) bytes: Vec<u8>,
    pub(crate) spares: usize,
}

/// The answer for a piece, the vector of its bytes, and the number of the thread that decoded it.
#[derive(Drop)]
pub(crate) struct DecodedPiece {
    pub(crate) answer: PieceAnswer,
    pub(crate) bytes: Vec<u8>,
    pub(crate) by: usize,
}

/// What is in the channel of a piece: the piece to decode, or its answer.
#[derive(Drop)]
pub(crate) enum InChannel<'a> {
    ToDecode(PieceToDecode<'a>),
    Decoded(DecodedPiece),
}

/// The rule of a piece's channel: both ends know which piece it is.
pub(crate) struct OfPiece;

impl<'a> Fit<Asked<'a>, InChannel<'a>> for OfPiece {
    ghost use Rattle.oim_pieces.specs.state.Channels.{FitsPiece, asked_in};

    ghost key = { asked_in };

    ghost fits = { FitsPiece };
}

/// The end of a piece's channel that takes the piece and then sends its answer.
pub(crate) type Job<'a> = Giver<InChannel<'a>, Asked<'a>, OfPiece>;

/// The end of a piece's channel that receives its answer.
pub(crate) type Pending<'a> = Taker<InChannel<'a>, Asked<'a>, OfPiece>;

/// The rule of a table's queue: both ends know one of its pieces, and so the header that reads all.
pub(crate) struct OfTable;

impl<'a> Fit<Asked<'a>, Job<'a>> for OfTable {
    ghost use Rattle.oim_pieces.specs.state.Channels.{IsReadBy};

    ghost key = { λ job. job };

    ghost fits = { λ a job. IsReadBy a.header.value job };
}

/// The end of a table's queue that sends pieces to helper threads.
pub(crate) type PieceQueue<'a> = Giver<Job<'a>, Asked<'a>, OfTable>;

/// The end of a table's queue from which a helper thread takes pieces.
pub(crate) type PieceQueueEnd<'a> = Taker<Job<'a>, Asked<'a>, OfTable>;
