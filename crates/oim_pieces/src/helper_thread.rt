//! What a helper thread of a table does.

ghost use Rattle.std.specs.Prelude.{◌≡◌, ◌≤◌, ◌+◌, IfSome};
ghost use Rattle.csv.specs.declared.parser.State.TheVariants as state;
ghost use Rattle.oim_records.specs.Grids.{records_left};
ghost use Rattle.oim_pieces.specs.state.PiecesUnderWay.{IsPieceAnswer};
ghost use Rattle.oim_pieces.specs.state.Channels.{IsPiece, IsReadBy};

use crate::at_work::AtWork;
use crate::in_channel::{DecodedPiece, InChannel, Job, PieceQueueEnd, PieceToDecode};
use crate::thread_spares::ThreadSpares;
use crossbeam_channel::TryRecvError;
use oim_decode::PieceDecoder;
use std::marker::Model;
use std::sync::Wait;
use std::thread;

/// Where a helper thread works: its end of the queue, its spares, and its number.
#[derive(Drop)]
pub(crate) struct HelperSetup<'a> {
    pub(crate) share: PieceQueueEnd<'a>,
    pub(crate) kept: ThreadSpares,
    pub(crate) number: usize,
}

/// What a helper thread is started with: a decoder and its setup.
///
/// Contracts see the table's header.
#[derive(Drop)]
pub(crate) struct HelperThread<'a> {
    decoder: PieceDecoder<'a>,
    setup: HelperSetup<'a>,
}

impl<'a> Model for HelperThread<'a> {
    ghost use Rattle.oim_rows.specs.RowFacts.{TableHeaderValue};
    ghost use Rattle.oim_pieces.specs.state.Channels.{IsReadBy};

    ghost Value = { TableHeaderValue };

    ghost view = { λ a. a.decoder.header };

    ghost invariant = { λ a. IsReadBy a.decoder.header a.setup.share };
}

/// Takes the piece of a job from its channel, if no thread has taken it.
pub(crate) fn piece_of<'a, T: Wait>(rt: &T, job: &mut Job<'a>) -> Option<PieceToDecode<'a>>
    ensures piece { IfSome result (λ to_decode. IfSome job.old (λ a. IsPiece a to_decode)) }
    ensures same { job.new ≡ job.old }
{
    match job.look(rt) {
        Some(InChannel::ToDecode(to_decode)) => Some(to_decode),
        _ => None,
    }
}

/// Decodes pieces of a table until its queue closes. The thread has a place in the count while
/// there are pieces.
pub(crate) fn serve<'a, T: Wait>(rt: &T, at_work: &AtWork, helper: HelperThread<'a>) {
    let mut helper = helper;
    helper.work(rt, at_work);
}

impl<'a> HelperThread<'a> {
    /// Makes a helper thread of its parts.
    pub(crate) fn new(decoder: PieceDecoder<'a>, setup: HelperSetup<'a>) -> HelperThread<'a>
        requires { IsReadBy decoder.header setup.share }
    {
        HelperThread { decoder, setup }
    }

    /// Does the work of `serve`.
    fn work<T: Wait>(&mut self, rt: &T, at_work: &AtWork) {
        for _ in rt.forever() {
            match self.next_job(rt, at_work) {
                Some(job) => self.perform(rt, job),
                None => return,
            }
        }
        unreachable!()
    }

    /// Returns the next job, or `None` once the queue is closed.
    #[tactic(auto, using(crate::proofs::ChannelLaws::line_gives))]
    fn next_job<T: Wait>(&mut self, rt: &T, at_work: &AtWork) -> Option<Job<'a>>
        ensures job { IfSome result (λ job. IsReadBy self.old job) }
        ensures same { self.new ≡ self.old }
    {
        next_of(rt, at_work, &mut self.setup.share)
    }

    /// Decodes the piece of a job and sends its answer, unless another thread has taken it.
    #[tactic(auto, using(crate::proofs::ChannelLaws::may_decode, crate::proofs::ChannelLaws::decoded_here))]
    fn perform<T: Wait>(&mut self, rt: &T, job: Job<'a>)
        requires { IsReadBy self.old job }
        ensures { self.new ≡ self.old }
    {
        let mut job = job;
        if let Some(to_decode) = piece_of(rt, &mut job) {
            let decoded = self.reply_to(rt, to_decode);
            let _ = job.give(rt, InChannel::Decoded(decoded));
        }
    }

    /// Decodes a piece, and writes its texts to this thread's spares.
    fn reply_to<T: Wait>(&mut self, rt: &T, to_decode: PieceToDecode<'a>) -> DecodedPiece
        requires { to_decode.asked.first ≤ self.old.limit + 1 }
        ensures answer { IsPieceAnswer self.old to_decode.entry.asked.first (records_left state.StartRecord to_decode.entry.bytes.items) result.answer }
        ensures same { self.new ≡ self.old }
    {
        let first = to_decode.asked.first;
        let PieceToDecode {
            asked: _,
            bytes,
            spares,
        } = to_decode;
        self.setup.kept.lend(rt, &mut self.decoder, spares);
        let answer = self.decoder.decode(bytes, first);
        let bytes = self.decoder.take_spare();
        self.setup.kept.take_back(rt, &mut self.decoder);
        DecodedPiece {
            answer,
            bytes,
            by: self.setup.number,
        }
    }
}

/// Looks for a job again for a while, and lets other threads run meanwhile.
fn look_again<'a, T: Wait>(
    rt: &T,
    at_work: &AtWork,
    share: &mut PieceQueueEnd<'a>,
) -> Option<Job<'a>>
    ensures same { share.new ≡ share.old }
    ensures job { IfSome result (λ job. IfSome share.old (λ a. IsReadBy a.header.value job)) }
{
    for _ in 0..at_work.looks() {
        thread::yield_now();
        if let Ok(job) = share.look(rt) {
            return Some(job);
        }
    }
    None
}

/// Returns the next job. If none is queued, looks again for a while. Then it gives the thread's
/// place back and waits; after the wait the thread counts as at work even if no place is free.
///
/// Returns `None` once the queue is closed. The place is then given back.
fn next_of<'a, T: Wait>(rt: &T, at_work: &AtWork, share: &mut PieceQueueEnd<'a>) -> Option<Job<'a>>
    ensures same { share.new ≡ share.old }
    ensures job { IfSome result (λ job. IfSome share.old (λ a. IsReadBy a.header.value job)) }
{
    match share.look(rt) {
        Ok(job) => return Some(job),
        Err(TryRecvError::Disconnected) => {
            at_work.give_back();
            return None;
        }
        Err(TryRecvError::Empty) => {}
    }
    if let Some(job) = look_again(rt, at_work, share) {
        return Some(job);
    }
    at_work.give_back();
    let job = share.take(rt)?;
    at_work.start();
    Some(job)
}
