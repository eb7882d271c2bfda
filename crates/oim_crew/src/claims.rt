//! Claims: numbered items, each of which is taken by one draw.

ghost use Rattle.std.specs.Prelude.{◌≡◌, ◌+◌, ◌^◌, ◌<◌, All, IfOk, Some, map, length, replicate, flat_map, count_by, vec_len};
ghost use Rattle.std.specs.Mem.Slots.{IsFull};
ghost use Rattle.oim_crew.specs.Claims.{Draws, fresh};
ghost use Rattle.oim_crew.specs.Numbers.{EachOnceBelow};

use crate::seat::Seat;
use crate::seats::{deal, gather};
use crate::view::{Board, BoardPlan, Draw};
use atomic_table::{Closed, Refused, Table};
use std::alloc::{AllocError, Global};
use std::marker::Model;
use std::snapshot::Snapshot;

/// Items that wait under the numbers of their places until a seat draws them. Threads share the
/// claims, and each has its own seat. Contracts see the identity of the claims, all items in order,
/// and the count of seats.
#[derive(Drop)]
pub struct Claims<V> {
    table: Board<V>,
}

impl<V> Model for Claims<V> {
    ghost use Rattle.std.specs.Prelude.{◌≡◌, length};
    ghost use Rattle.oim_crew.specs.Claims.{Claiming};
    ghost use Rattle.oim_crew.specs.state.Claims.{claiming_coded};

    ghost Value = { Claiming V };

    ghost coded = { claiming_coded V.code };

    ghost use Rattle.oim_crew.specs.state.Views.{claiming};

    ghost view = { λ c. claiming c.table.shared.table_id c.table.shared.key.items.value.items c.table.shared.key.workers };

    ghost invariant = { λ c. (c.table.shared.table_id.words ≡ 1) × (c.table.shared.table_id.slots ≡ length c.table.shared.key.items.value.items) };
}

/// Returns a slot for each item.
fn filled<V: Drop>(alloc: Global, items: Vec<V>) -> Result<Vec<Option<V>>, AllocError>
    ensures { IfOk result (λ slots. slots.items ≡ map Some items.items) }
{
    items.into_iter().map(Some).collect(alloc)
}

/// Drops the items that were not drawn, and frees the board.
fn release<V: Drop>(mut closed: Closed<Option<V>, Global>)
    requires { IsFull closed.slots }
{
    let mut i = 0;
    while i < closed.slot_count() {
        drop(closed.take(i));
        i += 1;
    }
    closed.free();
}

impl<V: Drop> Claims<V> {
    /// Returns claims of these items, each under the number of its place, counted from 0, and one
    /// fresh seat for each worker. There must be at least one worker, and fewer than 2^64 items and
    /// workers together. If memory runs out, the items are dropped.
    pub fn new(
        alloc: Global,
        items: Vec<V>,
        workers: usize,
    ) -> Result<(Claims<V>, Vec<Seat<V>>), AllocError>
        requires workers { 0 < workers }
        requires room { vec_len items + workers < 2 ^ 64 }
        ensures claims { IfOk result (λ made. (made.0.items ≡ items.items) × (made.0.workers ≡ workers)) }
        ensures seats { IfOk result (λ made. made.1.items ≡ replicate workers (fresh made.0)) }
    {
        let plan = BoardPlan {
            items: Snapshot::of(&items),
            workers,
        };
        let mut seats = Vec::with_capacity(alloc, workers)?;
        match Table::new(alloc, &[0], filled(alloc, items)?, &plan) {
            Ok((table, token)) => {
                deal(&table.shared, token, workers, &mut seats);
                Ok((Claims { table }, seats))
            }
            Err(Refused { slots: _ }) => Err(AllocError),
        }
    }

    /// Ends the claims and takes back all their seats, of which at least one must have been
    /// answered `None`. Then the seats together have drawn each number below the count of items
    /// exactly once.
    pub fn close(self, mut seats: Vec<Seat<V>>)
        requires count { vec_len seats ≡ self.workers }
        requires mine { All (λ seat. seat.claims ≡ self) seats.items }
        requires finished { 0 < count_by (λ seat. seat.finished) seats.items }
        ensures { EachOnceBelow (length self.items) (flat_map (λ seat. seat.numbers) seats.items) }
    {
        let Claims { table } = self;
        let mut whole = seats.pop().unwrap().into_token();
        while let Some(seat) = seats.pop() {
            gather(&table.shared, &mut whole, seat);
        }
        release(table.close_with(whole));
    }
}

impl<V> Claims<V> {
    /// Draws the next number with a seat of these claims. Returns the number and the item at that
    /// place, or `None` if all numbers were drawn, as `close` shows. After `None` a seat always
    /// gets `None`. A draw does not wait and allocates no memory.
    pub fn draw(&self, seat: &mut Seat<V>) -> Option<(usize, V)>
        requires { seat.old.claims ≡ self.now }
        ensures { Draws seat.old result seat.new }
    {
        if seat.finished {
            return None;
        }
        let shared = &self.table.shared;
        let number = shared.fetch_add::<Draw>(&mut seat.token, 0, 1) as usize;
        if number >= self.table.slot_count() {
            seat.finished = true;
            return None;
        }
        let item = shared.exchange(&mut seat.token, number, None).unwrap();
        Some((number, item))
    }
}
