//! The rule of a channel whose items all match one key.

use crossbeam_channel::protocol::{Lesson, Outcome, Protocol, Split};

/// The key of an item, and which items match a key.
pub trait Fit<K, T> {
    ghost use Rattle.std.specs.Prelude.{Option};

    /// The key that an item fixes for its channel, if it has one.
    ghost key: { T → Option K };

    /// Which items match a key.
    ghost fits: { K → T → Type 0 };
}

/// The rule of a channel: its items match the first item's key.
pub struct Keyed<F> {
    of: F,
}

impl<K, T, F: Fit<K, T>> Protocol<T, Option<K>> for Keyed<F> {
    ghost use Rattle.std.specs.Prelude.{None};
    ghost use Rattle.keyed.specs.state.Keyed.{IsKeyed};

    ghost holds = { IsKeyed F.fits };

    ghost first = { None };
}

/// The first item is sent.
pub(crate) struct First<F> {
    of: F,
}

impl<K, T, F: Fit<K, T>> Outcome<T, Option<K>> for First<F> {
    ghost use Rattle.std.specs.Prelude.{◌≡◌};

    ghost then = { λ v x w. w ≡ F.key x };
}

impl<K, T, F: Fit<K, T>> Lesson<T, Option<K>> for First<F> {
    ghost use Rattle.std.specs.Prelude.{⊤};

    ghost fact = { λ v items. ⊤ };
}

/// A later item is sent.
pub(crate) struct Later<F> {
    of: F,
}

impl<K, T, F: Fit<K, T>> Outcome<T, Option<K>> for Later<F> {
    ghost use Rattle.std.specs.Prelude.{◌≡◌};

    ghost then = { λ v x w. w ≡ v };
}

impl<K, T, F: Fit<K, T>> Lesson<T, Option<K>> for Later<F> {
    ghost use Rattle.std.specs.Prelude.{⊤};

    ghost fact = { λ v items. ⊤ };
}

/// An item is received.
pub(crate) struct Took<F> {
    of: F,
}

impl<K, T, F: Fit<K, T>> Outcome<T, Option<K>> for Took<F> {
    ghost use Rattle.std.specs.Prelude.{◌≡◌, IfSome};

    ghost then = { λ v x w. (w ≡ v) × IfSome v (λ k. F.fits k x) };
}

impl<K, T, F: Fit<K, T>> Lesson<T, Option<K>> for Took<F> {
    ghost use Rattle.std.specs.Prelude.{⊤};

    ghost fact = { λ v items. ⊤ };
}

/// Two ends know the key that one end knew.
pub(crate) struct Same;

impl<V> Split<V> for Same {
    ghost left = { λ v. v };

    ghost right = { λ v. v };
}
