//! Rings and claims while memory runs out.

use crate::scarcity::CallOutcome;
use oim_convert::Claims;
use oim_ring::{Drain, Feed, Lanes, lane};
use std::alloc::{AllocError, Global};

/// Returns what opening a ring did.
fn of_ring(made: Result<(Feed, Drain), AllocError>) -> CallOutcome {
    match made {
        Ok(_) => CallOutcome::Enough,
        Err(_) => CallOutcome::Refused,
    }
}

/// Opens a single ring, or the first ring of a report.
pub(crate) fn opens(alloc: Global, is_alone: bool) -> CallOutcome {
    if is_alone {
        return of_ring(lane(alloc, 8));
    }
    match Lanes::new(alloc, 4) {
        Ok(mut lanes) => of_ring(lanes.open(alloc, 8)),
        Err(_) => CallOutcome::Refused,
    }
}

/// Returns what making such claims did.
fn claim(alloc: Global, items: Vec<char>) -> CallOutcome {
    let Ok((claims, mut seats)) = Claims::new(alloc, items, 3) else {
        return CallOutcome::Refused;
    };
    let Some(mut seat) = seats.pop() else {
        return CallOutcome::Wrong;
    };
    let (first, second, last) = (
        claims.draw(&mut seat),
        claims.draw(&mut seat),
        claims.draw(&mut seat),
    );
    let are_drawn = first == Some((0, 'a')) && second == Some((1, 'b')) && last.is_none();
    CallOutcome::same(are_drawn && seats.len() == 2)
}

/// Opens claims of two items for three workers, and draws them by the last worker's seat.
pub(crate) fn claims(alloc: Global) -> CallOutcome {
    match vec![in alloc; 'a', 'b'] {
        Ok(items) => claim(alloc, items),
        Err(_) => CallOutcome::Refused,
    }
}
