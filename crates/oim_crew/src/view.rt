//! The board of the claims: the view of a seat at it, and the steps that the seat takes.

use atomic_table::{Join, Play, Shared, Split, Table, TableRule};
use std::alloc::Global;
use std::collections::LinkedList;
use std::snapshot::Snapshot;

/// The view of a seat. It exists only in proofs: no code makes a value of it.
pub struct View<V> {
    /// The items at the start.
    pub items: LinkedList<V>,
    /// The count of seats at the start.
    pub workers: usize,
    /// The numbers that were drawn.
    pub drawn: LinkedList<usize>,
    /// The count of seats that this view represents.
    pub share: usize,
    /// The count of these seats that found no item left.
    pub finished: usize,
}

/// The plan that the board is made from.
#[derive(Drop)]
pub struct BoardPlan<V> {
    /// The items, which only proofs use.
    pub items: Snapshot<Vec<V>>,
    /// The count of seats.
    pub workers: usize,
}

/// The rule of the claims: each number below the word was drawn once, and every other item still
/// waits.
pub struct Drawing;

impl<V> TableRule<Option<V>, View<V>, BoardPlan<V>> for Drawing {
    ghost use Rattle.oim_crew.specs.state.Views.{Claimed, opening_view};

    ghost holds = { λ plan. Claimed plan.items.value.items plan.workers };

    ghost first = { λ plan. opening_view plan.items.value.items plan.workers };
}

/// The word of the claims, and a slot for each item.
pub type Board<V> = Table<Option<V>, View<V>, BoardPlan<V>, Drawing, Global>;

/// The part of the board that threads share.
pub type BoardShare<V> = Shared<Option<V>, View<V>, BoardPlan<V>, Drawing>;

/// A seat at the board.
pub type BoardSeat<V> = atomic_table::Seat<Option<V>, View<V>>;

/// The step of a draw.
pub struct Draw;

impl<V> Play<Option<V>, View<V>> for Draw {
    ghost use Rattle.oim_crew.specs.state.Views.{Told};

    ghost then = { λ _. Told };
}

/// One of the seats that a view represents gets its own view.
pub struct SeatSplit;

impl<V> Split<View<V>> for SeatSplit {
    ghost use Rattle.oim_crew.specs.state.Views.{one_less, one_seat};

    ghost left = { one_less };

    ghost right = { one_seat };
}

/// The whole view moves to a seat that holds no slot.
pub struct Shed;

impl<V> Split<View<V>> for Shed {
    ghost use Rattle.oim_crew.specs.state.Views.{spent};

    ghost left = { λ _. spent };

    ghost right = { λ v. v };
}

/// Two views become one.
pub struct Gather;

impl<V> Join<View<V>> for Gather {
    ghost use Rattle.oim_crew.specs.state.Views.{joined, spent};

    ghost both = { joined };

    ghost spent = { spent };
}
