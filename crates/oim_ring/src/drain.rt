//! The receiving end of a ring.

ghost use Rattle.std.specs.Prelude.{◌≡◌, false, [], ◌∷◌, ◌++◌, IfSome, IfNone};
ghost use Rattle.rtrb.specs.Ring.{received};
ghost use Rattle.oim_ring.specs.state.Ends.{taker_ring};
ghost use Rattle.oim_ring.specs.Items.{blocks_only};
ghost use Rattle.oim_waiting.specs.state.Orders.{HasTaken};
ghost use Rattle.oim_waiting.specs.declared.steps.RoomStep.TheVariants.{Take};

use crate::backlog::BacklogHandle;
use crate::feed::Closed;
use crate::item::Item;
use crate::waiting::DrainWaiting;
use oim_json::Block;
use oim_waiting::{RoomStep, Steps};
use rtrb::Consumer;
use std::marker::Model;
use std::sync::Wait;

/// The receiving end of a ring. Contracts see its ring and the items taken so far.
#[derive(Drop)]
pub struct Drain {
    consumer: Consumer<Item>,
    waiting: DrainWaiting,
    backlog: BacklogHandle,
}

impl Model for Drain {
    ghost use Rattle.rtrb.specs.Ring.{received};
    ghost use Rattle.oim_ring.specs.Ends.{DrainView};
    ghost use Rattle.oim_ring.specs.state.Ends.{taker_ring};

    ghost Value = { DrainView };

    ghost view = { λ d. record { ring = taker_ring d.consumer; taken = received d.consumer } };
}

/// A drain that has taken everything that was sent. Contracts see it as the list of those items.
pub struct Drained {
    consumer: Consumer<Item>,
}

// By hand, so that dropping one elsewhere is one call.
impl Drop for Drained {
    fn drop(self) {
        let Self { consumer: _ } = self;
    }
}

impl Model for Drained {
    ghost use Rattle.std.specs.Prelude.{List};
    ghost use Rattle.rtrb.specs.Ring.{received};
    ghost use Rattle.oim_ring.specs.declared.item.Item.{Item};

    ghost Value = { List Item };

    ghost view = { λ d. received d.consumer };
}

impl Drain {
    pub(crate) fn new(
        consumer: Consumer<Item>,
        waiting: DrainWaiting,
        backlog: BacklogHandle,
    ) -> Drain
        ensures { (result.ring ≡ taker_ring consumer) × (result.taken ≡ received consumer) }
    {
        Drain {
            consumer,
            waiting,
            backlog,
        }
    }

    /// Takes the next item, or returns `None` and changes nothing. It allocates no memory and does
    /// not wait.
    pub fn take(&mut self) -> Option<Item>
        ensures ring { self.new.ring ≡ self.old.ring }
        ensures some { IfSome result (λ item. self.new.taken ≡ self.old.taken ++ item ∷ []) }
        ensures none { IfNone result (self.new.taken ≡ self.old.taken) }
    {
        self.backlog.take_turn();
        self.take_noting(&mut Steps::none())
    }

    /// Does the work of `take`, once the writer has reached this drain.
    fn take_noting(&mut self, steps: &mut Steps<RoomStep>) -> Option<Item>
        ensures ring { self.new.ring ≡ self.old.ring }
        ensures some { IfSome result (λ item. self.new.taken ≡ self.old.taken ++ item ∷ []) }
        ensures none { IfNone result (self.new.taken ≡ self.old.taken) }
        ensures tried { IfNone result (steps.new ≡ steps.old ++ Take ∷ []) }
        ensures looked { IfSome result (λ item. HasTaken steps.old steps.new) }
    {
        steps.take(RoomStep::Take);
        let item = self.consumer.pop().ok()?;
        if let Item::Block(block) = &item {
            self.backlog.less(block);
        }
        let left = self.consumer.slots();
        steps.take(RoomStep::Count);
        self.waiting.wake(left, steps);
        Some(item)
    }

    /// Waits until the feed wakes this drain, or at most a few milliseconds, so it may return
    /// although nothing was sent. The feed wakes it after every few items, when it finds no room
    /// and at the close. Call it if `take` returned `None`. The items taken stay the same.
    pub fn wait<R: Wait>(&self, rt: &R) {
        self.waiting.wait(rt, &mut Steps::none());
    }

    /// Gives back the memory of a block for later blocks, unless enough spares are kept. The items
    /// taken stay the same.
    pub fn give_back<R: Wait>(&self, rt: &R, block: Block) {
        self.backlog.keep_spare(rt, block.into_spare());
    }

    /// Shows that the items taken are all the items sent, after the ending was taken. The token
    /// must be from the feed of the same ring. It allocates no memory and does not wait.
    pub fn settle(self, closed: Closed) -> Drained
        requires one_ring { closed.ring ≡ self.ring }
        requires ended { blocks_only self.taken ≡ false }
        ensures sent { result ≡ closed.sent }
        ensures taken { result ≡ self.taken }
    {
        let Closed { mut finished } = closed;
        let Drain {
            mut consumer,
            waiting: _,
            backlog: _,
        } = self;
        consumer.slots_after(&mut finished);
        Drained { consumer }
    }
}
