//! Calls of `keyed`.

ghost use Rattle.std.specs.Prelude.{◌≡◌, IfSome};

use keyed::{Fit, Giver, Taker};
use std::alloc::Global;
use std::sync::Wait;

/// A fit in which all items of a channel are the same.
struct Same;

impl Fit<u8, u8> for Same {
    ghost use Rattle.std.specs.Prelude.{◌≡◌, Some};

    ghost key = { λ x. Some x };

    ghost fits = { λ k x. x ≡ k };
}

/// A number by way of a channel of numbers that are all the same.
fn handed_over<R: Wait>(rt: &R, alloc: Global, number: u8) -> Option<u8>
    ensures { IfSome result (λ x. x ≡ number) }
{
    match Giver::<u8, u8, Same>::open(rt, alloc, 1, number) {
        Ok((_giver, mut taker)) => taker.take(rt),
        Err(_) => None,
    }
}

/// Returns whether an end that takes finds nothing more.
fn is_empty<R: Wait>(rt: &R, taker: &mut Taker<u8, u8, Same>) -> bool {
    taker.look(rt).is_err()
}

/// Returns whether the item of a channel is taken by only one end.
fn is_taken_once<R: Wait>(rt: &R, alloc: Global) -> bool {
    let Ok((mut giver, mut taker)) = Giver::<u8, u8, Same>::open(rt, alloc, 1, 7) else {
        return false;
    };
    let is_taken = giver.look(rt).is_some();
    is_taken && is_empty(rt, &mut taker) && giver.give(rt, 7).is_ok() && giver.taker().is_some()
}

#[test]
fn calls_of_channels(rt: HostRuntime) {
    assert!(rt; handed_over(&rt, rt.alloc(), 7) == Some(7));
    assert!(rt; is_taken_once(&rt, rt.alloc()));
}
