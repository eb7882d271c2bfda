//! All seats of the claims: split off from one, and joined into one again.

ghost use Rattle.std.specs.Prelude.{◌≡◌, ◌+◌, ◌<◌, ◌≤◌, [], length, replicate, vec_capacity, true};
ghost use Rattle.oim_crew.specs.Claims.{fresh};
ghost use Rattle.oim_crew.specs.state.Views.{opening_view, claiming, joined_seat};

use crate::seat::Seat;
use crate::view::{BoardSeat, BoardShare, Gather, SeatSplit, Shed};

/// Splits off the seats that the token represents, one by one.
pub(crate) fn deal<V>(
    steps: &BoardShare<V>,
    mut token: BoardSeat<V>,
    workers: usize,
    seats: &mut Vec<Seat<V>>,
)
    requires place { (token.table_id ≡ steps.now.table_id) × (0 < steps.now.table_id.words) }
    requires view { token.me.0 ≡ opening_view steps.now.key.items.value.items workers }
    requires plan { (0 < workers) × (steps.now.key.workers ≡ workers) }
    requires seats { (seats.old.items ≡ []) × (workers ≤ vec_capacity seats.old) }
    ensures { seats.new.items ≡ replicate workers (fresh (claiming steps.now.table_id steps.now.key.items.value.items workers)) }
{
    for _made in 0..workers - 1 {
        let one = steps.split_seat::<SeatSplit>(&mut token);
        seats.push_reserved(Seat::of(one));
    }
    seats.push_reserved(Seat::of(token));
}

/// Joins this seat into the token. A seat that has drawn carries the slots that it emptied, so its
/// whole view is split off first.
pub(crate) fn gather<V>(steps: &BoardShare<V>, whole: &mut BoardSeat<V>, seat: Seat<V>)
    requires place { (whole.old.table_id ≡ steps.now.table_id) × (seat.claims.id ≡ steps.now.table_id) × (0 < steps.now.table_id.words) }
    requires share { 0 < whole.old.me.0.share }
    ensures place { whole.new.table_id ≡ whole.old.table_id }
    ensures view { whole.new.me.0 ≡ joined_seat whole.old.me.0 seat }
{
    let mut token = seat.into_token();
    let rested = steps.split_seat::<Shed>(&mut token);
    steps.join_seat::<Gather>(whole, rested);
}
