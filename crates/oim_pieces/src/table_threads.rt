//! The threads that decode a table's pieces: its worker, and helper threads that stay until the
//! table ends.

ghost use Rattle.std.specs.Prelude.{◌≡◌, ◌⊎◌, ◌≤◌, ◌<◌, ◌+◌, drop, IfErr, IfOk, IfSome, IsSome, None, Some, length};
ghost use Rattle.csv.specs.declared.parser.State.TheVariants as state;
ghost use Rattle.oim_decode.specs.Heads.{table_header_in};
ghost use Rattle.oim_records.specs.Grids.{records_left};
ghost use Rattle.oim_rows.specs.Header.{file_header_fault};
ghost use Rattle.oim_rows.specs.Streams.{IsOutside};
ghost use Rattle.oim_pieces.specs.state.PiecesUnderWay.{IsPieceAnswer};
ghost use Rattle.oim_pieces.specs.state.Channels.{FitsPiece, IsAnswerIn, IsOf, IsPiece, IsReadBy};

use crate::at_work::AtWork;
use crate::cutter::CutPiece;
use crate::decoded::Asked;
use crate::decoders::Decoders;
use crate::helper_thread::{HelperSetup, HelperThread, piece_of, serve};
use crate::in_channel::{
    DecodedPiece, InChannel, Job, OfPiece, OfTable, Pending, PieceQueue, PieceQueueEnd,
    PieceToDecode,
};
use crate::memory::Memory;
use crate::piece_under_way::PieceUnderWay;
use keyed::Giver;
use oim_decode::{FirstRecords, PieceAnswer, PieceDecoder};
use oim_report::Report;
use oim_rows::{SpareIds, TableFault, TableHeader};
use std::alloc::Global;
use std::marker::Model;
use std::sync::Wait;
use std::thread::{Scope, Threads};

/// The capacity of a table's queue. It counts pieces that the worker has since taken back, and
/// exceeds the pieces that are under way at once.
const MOST_JOBS: usize = 64;

/// The most cells of a header that is copied for helper threads.
const MOST_CELLS: usize = 65_536;

/// How many pieces of a table are under way while the writer has not reached it. Its worker decodes
/// that one.
const FEW_UNDER_WAY: usize = 1;

/// The threads that decode a table's pieces: the worker that drew it, and helper threads, which
/// take pieces from a queue once there is one. They end when this is dropped.
///
/// Contracts see the table's header.
pub(crate) struct TableThreads<'a> {
    alloc: Global,
    at_work: &'a AtWork,
    // The worker's own decoder.
    mine: PieceDecoder<'a>,
    // Makes decoders for helper threads.
    decoders: Decoders<'a>,
    // The queue from which helper threads take pieces. It opens with the first piece.
    line: Option<PieceQueue<'a>>,
    pub(crate) memory: Memory,
}

// Written by hand so that dropping one elsewhere compiles to a single call.
impl Drop for TableThreads<'_> {
    fn drop(self) {
        let Self {
            alloc: _,
            at_work: _,
            mine: _,
            decoders: _,
            line: _,
            memory: _,
        } = self;
    }
}

impl<'a> Model for TableThreads<'a> {
    ghost use Rattle.std.specs.Prelude.{◌≡◌};
    ghost use Rattle.oim_rows.specs.RowFacts.{TableHeaderValue};
    ghost use Rattle.oim_pieces.specs.state.Channels.{IsLine};

    ghost Value = { TableHeaderValue };

    ghost view = { λ a. a.decoders };

    ghost invariant = { λ a. (a.mine.header ≡ a.decoders) × IsLine a.decoders a.line };
}

/// Opens the channel of a piece, with the piece in it, and returns both ends. Returns the piece if
/// memory runs out.
fn open_piece<'a, T: Wait>(
    rt: &T,
    alloc: Global,
    to_decode: PieceToDecode<'a>,
) -> Result<(Job<'a>, Pending<'a>), PieceToDecode<'a>>
    requires { IsPiece to_decode.asked to_decode }
    ensures ends { IfOk result (λ ends. (ends.0 ≡ Some to_decode.entry.asked) × (ends.1 ≡ Some to_decode.entry.asked)) }
    ensures back { IfErr result (λ back. back ≡ to_decode.entry) }
{
    match Giver::<InChannel<'a>, Asked<'a>, OfPiece>::open(
        rt,
        alloc,
        1,
        InChannel::ToDecode(to_decode),
    ) {
        Ok(ends) => Ok(ends),
        Err(InChannel::ToDecode(back)) => Err(back),
        Err(InChannel::Decoded(_)) => unreachable!(),
    }
}

/// Decodes the rows that were read with the header. They are the table's first piece.
fn first_piece<'a>(decoder: &mut PieceDecoder<'a>, head: &FirstRecords) -> PieceUnderWay<'a>
    ensures piece { result ≡ record { header = decoder.old.header; first = 1; rows = drop 1 head.now } }
    ensures decoder { decoder.new.header ≡ decoder.old.header }
{
    let asked = Asked::of_head(decoder.header(), head);
    let answer = decoder.decode_head(head);
    PieceUnderWay::here(asked, answer)
}

/// Opens the table's queue with its first piece.
#[tactic(auto, using(crate::proofs::ChannelLaws::job_fits))]
fn open_line<'a, T: Wait>(rt: &T, alloc: Global, job: Job<'a>) -> Option<PieceQueue<'a>>
    requires { IsSome job }
    ensures { IfSome result (λ line. line ≡ job.entry) }
{
    match Giver::<Job<'a>, Asked<'a>, OfTable>::open(rt, alloc, MOST_JOBS, job) {
        Ok((line, _)) => Some(line),
        Err(_) => None,
    }
}

/// Starts a helper thread, and returns whether it started.
fn start<'a, E, T: Wait + Sync + 'a>(
    scope: &Scope<'a, E>,
    rt: &'a T,
    at_work: &'a AtWork,
    helper: HelperThread<'a>,
) -> bool {
    scope.spawn(move || serve(rt, at_work, helper)).is_ok()
}

impl<'a> TableThreads<'a> {
    /// Opens the threads of a table, without a helper thread, and decodes the rows of `head`.
    ///
    /// Fails with the header's first fault, and with Memory if memory runs out.
    pub(crate) fn open(
        alloc: Global,
        at_work: &'a AtWork,
        report: &'a Report,
        table: usize,
        limit: u32,
        head: FirstRecords,
    ) -> Result<(TableThreads<'a>, PieceUnderWay<'a>), TableFault>
        requires place { table < length report.now.tables }
        requires rows { limit ≤ 4294967294 }
        ensures threads { IfOk result (λ opened. opened.0 ≡ table_header_in report.now table limit head) }
        ensures piece { IfOk result (λ opened. opened.1 ≡ record { header = table_header_in report.now table limit head; first = 1; rows = drop 1 head }) }
        ensures header { IfOk result (λ _. file_header_fault report.now table head ≡ None) }
        ensures fault { IfErr result (λ e. IsOutside table e ⊎ (file_header_fault report.now table head ≡ Some e)) }
    {
        let mut mine = match head.decoder(alloc, report, table, limit) {
            Ok(mine) => mine,
            Err(fault) => return Err(fault),
        };
        let front = first_piece(&mut mine, &head);
        let threads = TableThreads {
            alloc,
            at_work,
            mine,
            decoders: Decoders::new(alloc, report, table, limit, head),
            line: None,
            memory: Memory::new(alloc),
        };
        Ok((threads, front))
    }

    /// Returns the table's header.
    pub(crate) fn header(&self) -> &TableHeader<'a>
        ensures { result.now ≡ self.now }
    {
        self.mine.header()
    }

    /// Ends the helper threads, and returns the worker's decoder.
    pub(crate) fn into_decoder(self) -> PieceDecoder<'a>
        ensures { result.header ≡ self.entry }
    {
        let TableThreads {
            alloc: _,
            at_work: _,
            mine,
            decoders: _,
            line: _,
            memory: _,
        } = self;
        mine
    }

    /// Returns whether no other thread helps: the run has one worker only, or the machine one
    /// processor, or the header is so wide that its copies would take much memory.
    pub(crate) fn is_alone<T: Threads>(&self, rt: &T) -> bool {
        self.at_work.is_alone(rt) || self.header().columns().len() > MOST_CELLS
    }

    /// Takes the memory that the identifiers of another table left, if this table's rows have
    /// identifiers of their own.
    pub(crate) fn take_spare_ids(&self) -> Option<SpareIds> {
        self.header().id_place()?;
        self.at_work.take_spare_ids()
    }

    /// Keeps the memory of this table's identifiers for another table.
    pub(crate) fn keep_spare_ids(&self, spare: SpareIds) {
        self.at_work.keep_spare_ids(spare);
    }

    /// Returns whether one more piece may be under way in addition to `count`.
    pub(crate) fn may_have<T: Threads>(&self, rt: &T, count: usize, is_wanted: bool) -> bool {
        let most = if is_wanted && !self.is_alone(rt) {
            self.at_work.window(rt)
        } else {
            FEW_UNDER_WAY
        };
        count < most && (self.memory.threads() > 0 || self.at_work.are_idle())
    }

    /// Starts the decoding of a piece. The worker decodes it now if the piece stays here. Otherwise
    /// it is queued for the helper threads and the worker.
    pub(crate) fn send_or_decode<E, T: Threads + Wait + Sync + 'a>(
        &mut self,
        scope: &Scope<'a, E>,
        rt: &'a T,
        piece: CutPiece,
    ) -> PieceUnderWay<'a>
        requires { piece.first ≤ self.old.limit + 1 }
        ensures piece { (result.header ≡ self.old) × (result.first ≡ piece.first) × (result.rows ≡ records_left state.StartRecord piece.bytes.items) }
        ensures same { self.new ≡ self.old }
    {
        let CutPiece {
            bytes,
            first,
            stays,
        } = piece;
        let asked = Asked::of(self.header(), &bytes, first);
        let to_decode = PieceToDecode {
            asked: Asked::of(self.header(), &bytes, first),
            bytes,
            spares: self.memory.usual(),
        };
        if stays {
            let answer = self.decode(to_decode);
            return PieceUnderWay::here(asked, answer);
        }
        let under_way = self.send_piece(rt, asked, to_decode);
        self.grow(scope, rt);
        under_way
    }

    /// Keeps a piece, which the worker decodes when its answer is asked for.
    #[tactic(auto, using(crate::proofs::ChannelLaws::is_kept))]
    pub(crate) fn keep(&self, piece: CutPiece) -> PieceUnderWay<'a>
        requires first { 1 ≤ piece.first }
        requires within { piece.first ≤ self.now.limit + 1 }
        ensures { (result.header ≡ self.now) × (result.first ≡ piece.first) × (result.rows ≡ records_left state.StartRecord piece.bytes.items) }
    {
        let CutPiece {
            bytes,
            first,
            stays: _,
        } = piece;
        PieceUnderWay::kept(Asked::of(self.header(), &bytes, first), bytes)
    }

    /// Queues a piece, or decodes it here if memory runs out.
    fn send_piece<T: Wait>(
        &mut self,
        rt: &T,
        asked: Asked<'a>,
        to_decode: PieceToDecode<'a>,
    ) -> PieceUnderWay<'a>
        requires piece { IsPiece to_decode.asked to_decode }
        requires header { to_decode.asked.header.value ≡ self.old }
        requires asked { IsOf asked (Some to_decode.asked) }
        ensures piece { (result.header ≡ asked.entry.header.value) × (result.first ≡ asked.entry.first) × (result.rows ≡ asked.entry.rows.value) }
        ensures same { self.new ≡ self.old }
    {
        match self.ask(rt, to_decode) {
            Ok(pending) => PieceUnderWay::awaited(asked, pending),
            Err(back) => {
                let answer = self.decode(back);
                PieceUnderWay::here(asked, answer)
            }
        }
    }

    /// Queues a piece and returns the end that receives its answer. Returns the piece if memory
    /// runs out.
    fn ask<T: Wait>(
        &mut self,
        rt: &T,
        to_decode: PieceToDecode<'a>,
    ) -> Result<Pending<'a>, PieceToDecode<'a>>
        requires piece { IsPiece to_decode.asked to_decode }
        requires header { to_decode.asked.header.value ≡ self.old }
        ensures pending { IfOk result (λ p. p ≡ Some to_decode.entry.asked) }
        ensures back { IfErr result (λ back. back ≡ to_decode.entry) }
        ensures same { self.new ≡ self.old }
    {
        match open_piece(rt, self.alloc, to_decode) {
            Ok((job, pending)) => {
                self.put(rt, job);
                Ok(pending)
            }
            Err(back) => Err(back),
        }
    }

    /// Puts a piece into the queue. If the queue is full or memory runs out, drops this end: the
    /// worker then takes the piece from its channel.
    #[tactic(auto, using(crate::proofs::ChannelLaws::job_known, crate::proofs::ChannelLaws::line_opens, crate::proofs::ChannelLaws::line_fits))]
    fn put<T: Wait>(&mut self, rt: &T, job: Job<'a>)
        requires { IsReadBy self.old job }
        ensures { self.new ≡ self.old }
    {
        match &mut self.line {
            Some(line) => {
                let _ = line.give(rt, job);
            }
            None => self.line = open_line(rt, self.alloc, job),
        }
    }

    /// Decodes a piece on the worker.
    pub(crate) fn decode(&mut self, to_decode: PieceToDecode<'a>) -> PieceAnswer
        requires { to_decode.asked.first ≤ self.old.limit + 1 }
        ensures answer { IsPieceAnswer self.old to_decode.entry.asked.first (records_left state.StartRecord to_decode.entry.bytes.items) result }
        ensures same { self.new ≡ self.old }
    {
        let first = to_decode.asked.first;
        let PieceToDecode {
            asked: _,
            bytes,
            spares: _,
        } = to_decode;
        self.memory.lend(&mut self.mine);
        let answer = self.mine.decode(bytes, first);
        self.memory.take_back(&mut self.mine);
        answer
    }

    /// Returns the answer for a piece whose first row has number `first`. The worker waits for it,
    /// or decodes the piece itself if no thread has taken it.
    ///
    /// The answer is Memory, without a row, if the thread that took the piece ended without one.
    #[tactic(auto, using(crate::proofs::ChannelLaws::may_decode, crate::proofs::ChannelLaws::decoded_here, crate::proofs::ChannelLaws::refused_here))]
    pub(crate) fn await_answer<T: Wait>(
        &mut self,
        rt: &T,
        pending: Pending<'a>,
        first: u32,
    ) -> PieceAnswer
        requires header { IsReadBy self.old pending }
        requires first { IfSome pending (λ a. a.first ≡ first) }
        ensures answer { IsAnswerIn pending.entry result }
        ensures same { self.new ≡ self.old }
    {
        match self.await_content(rt, pending) {
            Some(InChannel::ToDecode(to_decode)) => self.decode(to_decode),
            Some(InChannel::Decoded(decoded)) => {
                let DecodedPiece { answer, bytes, by } = decoded;
                self.memory.keep_bytes(bytes);
                self.memory.note(by);
                answer
            }
            None => self.decoders.no_answer(first),
        }
    }

    /// Waits for what is in the channel of a piece. Meanwhile the worker decodes pieces from the
    /// queue; once the queue is empty, it rests.
    ///
    /// Returns `None` if the other end is gone.
    fn await_content<T: Wait>(&mut self, rt: &T, pending: Pending<'a>) -> Option<InChannel<'a>>
        ensures content { IfSome result (λ content. IfSome pending.entry (λ a. FitsPiece a content)) }
        ensures same { self.new ≡ self.old }
    {
        let mut coming = pending;
        for _ in rt.forever() {
            if let Ok(content) = coming.look(rt) {
                return Some(content);
            }
            if !self.help(rt) {
                self.at_work.rest();
                let content = coming.take(rt);
                self.at_work.start();
                return content;
            }
        }
        unreachable!()
    }

    /// Takes a piece from the queue, and decodes it and sends its answer unless another thread has
    /// taken it. Returns false if the queue is empty.
    #[tactic(auto, using(crate::proofs::ChannelLaws::may_decode, crate::proofs::ChannelLaws::decoded_here))]
    fn help<T: Wait>(&mut self, rt: &T) -> bool
        ensures { self.new ≡ self.old }
    {
        let Some(mut job) = self.draw(rt) else {
            return false;
        };
        if let Some(to_decode) = piece_of(rt, &mut job) {
            let answer = self.decode(to_decode);
            let decoded = DecodedPiece {
                answer,
                bytes: self.memory.no_bytes(),
                by: usize::MAX,
            };
            let _ = job.give(rt, InChannel::Decoded(decoded));
        }
        true
    }

    /// Takes the next piece of the queue.
    #[tactic(auto, using(crate::proofs::ChannelLaws::line_gives))]
    fn draw<T: Wait>(&mut self, rt: &T) -> Option<Job<'a>>
        ensures job { IfSome result (λ job. IsReadBy self.old job) }
        ensures same { self.new ≡ self.old }
    {
        match &mut self.line {
            Some(line) => line.look(rt),
            None => None,
        }
    }

    /// Starts one more helper thread if the table has too few and the run has a place for it.
    fn grow<E, T: Threads + Wait + Sync + 'a>(&mut self, scope: &Scope<'a, E>, rt: &'a T)
        ensures { self.new ≡ self.old }
    {
        let most = self.at_work.most_threads(rt);
        if self.memory.threads() >= most || !self.at_work.take() {
            return;
        }
        let is_started = match self.helper() {
            Some(helper) => start(scope, rt, self.at_work, helper),
            None => false,
        };
        if is_started {
            let left = most.saturating_sub(self.memory.threads());
            self.memory.supply(rt, left.saturating_add(2));
        } else {
            self.at_work.give_back();
        }
    }

    /// Makes what one more helper thread works with, or returns `None` if memory runs out.
    fn helper(&mut self) -> Option<HelperThread<'a>>
        ensures { self.new ≡ self.old }
    {
        match self.decoders.take() {
            Some(decoder) => match self.setup() {
                Some(setup) => Some(HelperThread::new(decoder, setup)),
                None => None,
            },
            None => None,
        }
    }

    /// Makes the setup of one more helper thread, or returns `None` if memory runs out.
    fn setup(&mut self) -> Option<HelperSetup<'a>>
        ensures setup { IfSome result (λ setup. IsReadBy self.old setup.share) }
        ensures same { self.new ≡ self.old }
    {
        match self.share() {
            Some(share) => match self.memory.open_kept() {
                Some((kept, number)) => Some(HelperSetup {
                    share,
                    kept,
                    number,
                }),
                None => None,
            },
            None => None,
        }
    }

    /// Makes one more end that takes pieces from the queue, if the queue is open.
    fn share(&mut self) -> Option<PieceQueueEnd<'a>>
        ensures share { IfSome result (λ share. IsReadBy self.old share) }
        ensures same { self.new ≡ self.old }
    {
        match &mut self.line {
            Some(line) => line.taker(),
            None => None,
        }
    }
}
