//! Calls of `oim_crew`, except those that need a scope of threads, which `oim_convert` makes.

use oim_crew::{
    Claims, Crew, Posts, Room, Seat, Serve, Shift, ShiftOf, Shifts, Station, UnderWay, all_idle,
    crew_of,
};
use std::alloc::{AllocError, Global};

/// Makes claims of two items with one fresh seat.
fn shares_out(alloc: Global) -> Result<bool, AllocError> {
    let items = vec![in alloc; 'a', 'b']?;
    let made: (Claims<char>, Vec<Seat<char>>) = Claims::new(alloc, items, 1)?;
    Ok(made.1.len() == 1)
}

/// Returns whether the only seat of claims of one item draws it and then nothing, which ends them.
fn draws_all(alloc: Global) -> Result<bool, AllocError> {
    let items = vec![in alloc; 'a']?;
    let (claims, mut seats) = Claims::new(alloc, items, 1)?;
    let Some(mut seat) = seats.pop() else {
        return Ok(false);
    };
    let is_drawn = claims.draw(&mut seat) == Some((0, 'a'));
    let is_last = claims.draw(&mut seat).is_none();
    if is_last {
        seats.push(seat)?;
        claims.close(seats);
    }
    Ok(is_drawn && is_last)
}

/// A server that gives each item back.
#[derive(Drop)]
struct Echo;

impl Serve<char, char, (), ()> for Echo {
    ghost use Rattle.std.specs.Prelude.{◌≡◌};

    ghost can_serve = { λ _ _ _ _. Unit {0} };

    ghost gives = { λ _ _ _ item given. given ≡ item };

    fn serve(&self, _rt: &(), _shared: &(), _number: usize, item: char) -> char {
        item
    }
}

/// Returns the stations of a crew, and the memory for its workers.
fn stations_of(
    posts: Posts<char, char, Echo, (), ()>,
) -> (Vec<Station<char, char>>, Room<char, char, Echo, (), ()>) {
    (posts.stations, posts.room)
}

/// Returns the results that a worker hands back.
fn results_of(shift: Shift<char, char>, _promise: &ShiftOf<char, Echo, (), ()>) -> Vec<char> {
    shift.done
}

/// Returns the shifts of a crew without a started worker.
fn shifts_of(room: Room<char, char, Echo, (), ()>) -> Shifts<char, char> {
    let crew = UnderWay {
        room,
        served: false,
    };
    let UnderWay { room, served } = crew;
    Shifts {
        list: room.shifts,
        served,
    }
}

/// Returns a crew of two workers for two items.
fn is_ready(alloc: Global) -> Result<bool, AllocError> {
    let items = vec![in alloc; 'a', 'b']?;
    let crew: Crew<char, char, Echo, (), ()> = crew_of(alloc, items, 2)?;
    let (stations, room) = stations_of(crew.posts);
    let shifts = shifts_of(room);
    Ok(stations.len() == 2 && crew.stops.len() == 2 && all_idle(shifts.list.as_slice()))
}

/// Returns whether each of these calls gives `true`.
fn hold(alloc: Global) -> bool {
    are_true(shares_out(alloc), draws_all(alloc), is_ready(alloc))
}

/// Returns whether all three are `true`.
fn are_true(
    one: Result<bool, AllocError>,
    two: Result<bool, AllocError>,
    three: Result<bool, AllocError>,
) -> bool {
    one.unwrap_or(false) && two.unwrap_or(false) && three.unwrap_or(false)
}

#[test]
fn calls_of_crews(rt: HostRuntime) {
    assert!(rt; hold(rt.alloc()));
}
