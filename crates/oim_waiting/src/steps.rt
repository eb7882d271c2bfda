//! The steps of waiting, and a list of steps that only contracts see.

ghost use Rattle.std.specs.Prelude.{◌≡◌, [], ◌∷◌, ◌++◌};

use ghost_value::{Denotes, GhostValue};
use std::collections::LinkedList;
use std::marker::Model;

/// A step of a feed that waits for its turn, or of a thread that lets it go on
/// (`specs/Turns.antt`).
#[derive(Clone, Copy)]
pub enum TurnStep {
    /// The feed announces that it may sleep.
    Announce,
    /// The feed looks, and finds that it must wait (true) or may go on.
    Look(bool),
    /// The feed goes to sleep, unless it was woken since its announcement.
    Sleep,
    /// The feed, which was woken, goes on.
    Rise,
    /// Another thread makes that the feed may go on.
    Change,
    /// Another thread wakes the feed, if it has announced a sleep.
    Wake,
}

/// A step of the feed or the drain of a ring (`specs/Rooms.antt`).
#[derive(Clone, Copy)]
pub enum RoomStep {
    /// The feed puts an item if fewer than this many wait; otherwise it has found no room.
    Put(usize),
    /// The feed, which found no room, asks to be woken when at most this many items are left.
    Ask(usize),
    /// The feed wakes the drain.
    Tell,
    /// The feed goes to sleep, unless it was woken since its last sleep.
    FeedSleep,
    /// The feed, which was woken, goes on.
    FeedRise,
    /// The drain takes an item, or finds none.
    Take,
    /// The drain, which took an item, looks how many are left.
    Count,
    /// The drain looks whether these are few.
    Compare,
    /// The drain wakes the feed.
    Give,
    /// The drain, which found no item, goes to sleep, unless it was woken since its last sleep.
    DrainSleep,
    /// The drain, which was woken or has slept long enough, goes on.
    DrainRise,
}

/// The steps that a thread has taken. Contracts see a list; the program has no bytes of it.
pub struct Steps<S> {
    taken: GhostValue<LinkedList<S>>,
}

impl<S> Model for Steps<S> {
    ghost use Rattle.std.specs.Prelude.{List};

    ghost Value = { List S };

    ghost view = { λ s. s.taken.value };
}

// By hand, so that dropping one elsewhere is one call.
impl<S> Drop for Steps<S> {
    fn drop(self) {
        let Self { taken: _ } = self;
    }
}

struct NoSteps;

impl<S> Denotes<LinkedList<S>> for NoSteps {
    ghost denoted = { λ _. [] };
}

#[derive(Drop)]
struct OneMore<'a, S> {
    before: &'a GhostValue<LinkedList<S>>,
    step: S,
}

impl<S> Denotes<LinkedList<S>> for OneMore<'_, S> {
    ghost denoted = { λ m. m.before.now.value ++ m.step ∷ [] };
}

impl<S: Copy> Steps<S> {
    /// Returns the list without a step.
    #[inline(always)]
    pub fn none() -> Steps<S>
        ensures { result ≡ [] }
    {
        Steps {
            taken: GhostValue::of(&NoSteps),
        }
    }

    /// Notes a step.
    #[inline(always)]
    pub fn take(&mut self, step: S)
        ensures { self.new ≡ self.old ++ step ∷ [] }
    {
        self.taken = GhostValue::of(&OneMore {
            before: &self.taken,
            step,
        });
    }
}
