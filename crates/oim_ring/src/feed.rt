//! The sending end of a ring.
//!
//! Not proved: when `Feed::wait` and `Feed::wait_for_turn` return, the answers of `Feed::is_held`
//! and `Feed::is_reached`, which spare `Feed::kept_spare` returns, and what was sent if
//! `Feed::close` fails with `Lost`.

ghost use Rattle.std.specs.Prelude.{◌≡◌, ◌<◌, ◌≤◌, ◌-◌, ◌/◌, [], ◌∷◌, ◌++◌, true, length, IsOk, OnOk, OnErr, IfErr};
ghost use Rattle.rtrb.specs.Ring.{sent, producer_capacity};
ghost use Rattle.oim_ring.specs.Closing.{Closes};
ghost use Rattle.oim_ring.specs.state.Ends.{sender_ring};
ghost use Rattle.oim_ring.specs.FaultNames.{name_of, number_of};
ghost use Rattle.oim_ring.specs.Items.{blocks_only};
ghost use Rattle.oim_ring.specs.declared.item.Item.TheVariants as items;
ghost use Rattle.oim_waiting.specs.state.Orders.{finding_none};

use crate::backlog::BacklogHandle;
use crate::item::{Ending, Item};
use crate::waiting::FeedWaiting;
use oim_json::{Block, Spare};
use oim_waiting::{RoomStep, Steps};
use rtrb::{Finished, Producer};
use std::marker::Model;
use std::sync::Wait;

/// The sending end of a ring. Contracts see its ring, its size and the items sent so far, which
/// contain no ending.
#[derive(Drop)]
pub struct Feed {
    producer: Producer<Item>,
    /// The count of slots that are kept for the ending, so that no block takes them.
    kept: usize,
    waiting: FeedWaiting,
    backlog: BacklogHandle,
}

impl Model for Feed {
    ghost use Rattle.std.specs.Prelude.{◌≡◌, ◌-◌, true};
    ghost use Rattle.rtrb.specs.Ring.{sent, producer_capacity};
    ghost use Rattle.oim_ring.specs.Items.{blocks_only};
    ghost use Rattle.oim_ring.specs.Ends.{FeedView};
    ghost use Rattle.oim_ring.specs.state.Ends.{sender_ring};

    ghost Value = { FeedView };

    ghost view = { λ f. record { ring = sender_ring f.producer; size = producer_capacity f.producer - f.kept; sent = sent f.producer } };

    ghost invariant = { λ f. blocks_only (sent f.producer) ≡ true };
}

/// The token of a closed feed. Contracts see its ring and all items sent; only the last is an
/// ending.
#[derive(Drop)]
pub struct Closed {
    pub(crate) finished: Finished<Item>,
}

impl Model for Closed {
    ghost use Rattle.rtrb.specs.Ring.{all_sent};
    ghost use Rattle.oim_ring.specs.Items.{EndsOnce};
    ghost use Rattle.oim_ring.specs.Ends.{ClosedView};
    ghost use Rattle.oim_ring.specs.state.Ends.{finished_ring};

    ghost Value = { ClosedView };

    ghost view = { λ f. record { ring = finished_ring f.finished; sent = all_sent f.finished } };

    ghost invariant = { λ f. EndsOnce (all_sent f.finished) };
}

/// Why a feed was not closed.
#[derive(Drop)]
pub enum CloseFault {
    /// 65: the ring is full. The feed and the ending are given back unchanged.
    Full(Feed, Ending),
    /// 66: the ending was sent, but the token of the closed feed is lost.
    Lost,
}

impl CloseFault {
    /// Returns the fault's number, 65 or 66.
    pub fn number(&self) -> u32
        ensures { result ≡ number_of self.now }
    {
        match self {
            CloseFault::Full(_, _) => 65,
            CloseFault::Lost => 66,
        }
    }

    /// Returns the fault's name, spelled as in the code.
    pub fn name(&self) -> &'static str
        ensures { result.now ≡ name_of self.now }
    {
        match self {
            CloseFault::Full(_, _) => "Full",
            CloseFault::Lost => "Lost",
        }
    }

    /// Returns a sentence for people, without a capital and a full stop.
    pub fn explanation(&self) -> &'static str {
        match self {
            CloseFault::Full(_, _) => "the ring is full and the feed was not closed",
            CloseFault::Lost => "the ending was sent but the feed's token is lost",
        }
    }
}

impl Feed {
    pub(crate) fn new(
        producer: Producer<Item>,
        kept: usize,
        waiting: FeedWaiting,
        backlog: BacklogHandle,
    ) -> Feed
        requires { sent producer ≡ [] }
        ensures { (result.ring ≡ sender_ring producer) × (result.size ≡ producer_capacity producer - kept) × (result.sent ≡ []) }
    {
        Feed {
            producer,
            kept,
            waiting,
            backlog,
        }
    }

    /// Sends a block. If the ring is full, the error gives the block back, and nothing changes. The
    /// ring is not full while fewer items were sent than its size. It allocates no memory and does
    /// not wait.
    pub fn put(&mut self, block: Block) -> Result<(), Block>
        ensures ring { (self.new.ring ≡ self.old.ring) × (self.new.size ≡ self.old.size) }
        ensures ok { OnOk result (self.new.sent ≡ self.old.sent ++ items.Block block ∷ []) }
        ensures full { IfErr result (λ back. (back ≡ block) × (self.new ≡ self.old)) }
        ensures room { length self.old.sent < self.old.size → IsOk result }
        ensures open { blocks_only self.new.sent ≡ true }
    {
        self.put_noting(block, &mut Steps::none())
    }

    /// Does the work of `put`.
    fn put_noting(&mut self, block: Block, steps: &mut Steps<RoomStep>) -> Result<(), Block>
        ensures ring { (self.new.ring ≡ self.old.ring) × (self.new.size ≡ self.old.size) }
        ensures ok { OnOk result (self.new.sent ≡ self.old.sent ++ items.Block block ∷ []) }
        ensures full { IfErr result (λ back. (back ≡ block) × (self.new ≡ self.old)) }
        ensures room { length self.old.sent < self.old.size → IsOk result }
        ensures open { blocks_only self.new.sent ≡ true }
        ensures steps { OnErr result (steps.new ≡ steps.old ++ finding_none self.old.size 18446744073709551615) }
    {
        let facts = block.count();
        match self.send(block) {
            Ok(()) => {}
            Err(back) => {
                steps.take(RoomStep::Put(self.room()));
                self.backlog.pass_on();
                self.waiting.await_any(steps);
                return Err(back);
            }
        }
        self.waiting.tell(facts);
        Ok(())
    }

    /// Sends a block as `put` does, and wakes no drain.
    #[tactic(auto, using(crate::proofs::TakenWhole::blocks_more))]
    fn send(&mut self, block: Block) -> Result<(), Block>
        ensures ring { (self.new.ring ≡ self.old.ring) × (self.new.size ≡ self.old.size) }
        ensures ok { OnOk result (self.new.sent ≡ self.old.sent ++ items.Block block ∷ []) }
        ensures full { IfErr result (λ back. (back ≡ block) × (self.new ≡ self.old)) }
        ensures room { length self.old.sent < self.old.size → IsOk result }
        ensures open { blocks_only self.new.sent ≡ true }
    {
        if self.producer.slots() <= self.kept {
            return Err(block);
        }
        self.backlog.more(&block);
        self.producer.push_reserved(Item::Block(block));
        Ok(())
    }

    /// Sends a block as `put` does, if fewer than `most` blocks are known to wait in the ring, or
    /// none. Otherwise the error gives the block back, as if the ring were full. It succeeds while
    /// the count of items sent is below `most` and below the ring's size. It wakes the drain less
    /// often than `put`.
    pub fn put_below(&mut self, block: Block, most: usize) -> Result<(), Block>
        ensures ring { (self.new.ring ≡ self.old.ring) × (self.new.size ≡ self.old.size) }
        ensures ok { OnOk result (self.new.sent ≡ self.old.sent ++ items.Block block ∷ []) }
        ensures full { IfErr result (λ back. (back ≡ block) × (self.new ≡ self.old)) }
        ensures room { length self.old.sent < self.old.size → length self.old.sent < most → IsOk result }
        ensures open { blocks_only self.new.sent ≡ true }
    {
        let most = most.min(self.room()).max(1);
        self.put_among(block, most, &mut Steps::none())
    }

    /// Does the work of `put_below`, for a `most` that is at least 1 and at most the ring's size.
    fn put_among(
        &mut self,
        block: Block,
        most: usize,
        steps: &mut Steps<RoomStep>,
    ) -> Result<(), Block>
        ensures ring { (self.new.ring ≡ self.old.ring) × (self.new.size ≡ self.old.size) }
        ensures ok { OnOk result (self.new.sent ≡ self.old.sent ++ items.Block block ∷ []) }
        ensures full { IfErr result (λ back. (back ≡ block) × (self.new ≡ self.old)) }
        ensures room { length self.old.sent < self.old.size → length self.old.sent < most → IsOk result }
        ensures open { blocks_only self.new.sent ≡ true }
        ensures steps { OnErr result (steps.new ≡ steps.old ++ finding_none most (most / 4)) }
    {
        let waiting = self.waiting_blocks();
        let is_room = waiting < most;
        let sent = if is_room {
            self.send(block)
        } else {
            Err(block)
        };
        match sent {
            Ok(()) => {}
            Err(again) => {
                steps.take(RoomStep::Put(most));
                self.backlog.pass_on();
                self.waiting.await_few(most, steps);
                return Err(again);
            }
        }
        self.waiting.tell_of(waiting.saturating_add(1), most);
        Ok(())
    }

    /// Returns how many blocks the ring holds at most.
    fn room(&self) -> usize
        ensures { result ≡ self.now.size }
    {
        self.producer.capacity().saturating_sub(self.kept)
    }

    /// Returns the count of blocks that are known to wait in the ring. It does not wait.
    pub fn waiting_blocks(&mut self) -> usize
        ensures count { result ≤ length self.old.sent }
        ensures same { self.new ≡ self.old }
    {
        let free = self.producer.slots();
        self.producer.capacity().saturating_sub(free)
    }

    /// Sends the ending and returns the token of the closed feed. It allocates no memory and does
    /// not wait.
    ///
    /// Returns `Full` with the feed and the ending unchanged if the ring is full, which it is not
    /// while fewer items were sent than its size. Returns `Lost` if the ending was sent but the
    /// token is lost.
    pub fn close(self, ending: Ending) -> Result<Closed, CloseFault>
        ensures { Closes self ending result }
    {
        let Feed {
            mut producer,
            kept,
            mut waiting,
            backlog,
        } = self;
        match producer.push(Item::Ending(ending)) {
            Ok(()) => {}
            Err(_) => {
                waiting.await_any(&mut Steps::none());
                let feed = Feed {
                    producer,
                    kept,
                    waiting,
                    backlog,
                };
                return Err(CloseFault::Full(feed, ending));
            }
        }
        let finished = producer.finish();
        waiting.wake(&mut Steps::none());
        match finished {
            Some(finished) => Ok(Closed { finished }),
            None => Err(CloseFault::Lost),
        }
    }

    /// Waits for room: until the drain takes an item if `put` or `close` found the ring full, or
    /// until it has taken three quarters of the blocks if `put_below` gave the block back. May
    /// return earlier. Call it only then. The items sent stay the same.
    pub fn wait<R: Wait>(&self, rt: &R) {
        self.waiting.wait(rt, &mut Steps::none());
    }

    /// Waits while the report's limit of waiting facts is reached and the writer has not reached
    /// this feed's table. Call it before you put a block. The items sent stay the same.
    pub fn wait_for_turn<R: Wait>(&self, rt: &R) {
        self.backlog.wait(rt);
    }

    /// Returns whether `wait_for_turn` would wait now.
    pub fn is_held(&self) -> bool {
        self.backlog.is_held()
    }

    /// Returns whether the writer has reached this feed's table.
    pub fn is_reached(&self) -> bool {
        self.backlog.is_reached()
    }

    /// Gives back a spare for blocks of any table of the report. Drops it if enough are kept or it
    /// is large.
    pub fn give_back<R: Wait>(&self, rt: &R, spare: Spare) {
        self.backlog.keep_spare(rt, spare);
    }

    /// Returns a spare with its old contents, if a feed or a drain of the report gave one back.
    pub fn kept_spare<R: Wait>(&self, rt: &R) -> Option<Spare> {
        self.backlog.kept_spare(rt)
    }
}
