//! Values that only contracts see, and the data that denotes them.

ghost use Rattle.std.specs.Prelude.{◌≡◌};
ghost use Rattle.std.specs.Borrow.{ftrue};

use std::marker::{Model, PhantomData};

/// Data that denotes a value of `T` in contracts. No code computes the value.
pub trait Denotes<T> {
    ghost denoted: { Self → T };
}

/// A value of `T` that only contracts see, as its field `value`.
///
/// It has no bytes and owns nothing, so it may be dropped, sent and shared whatever `T` is.
pub struct GhostValue<T> {
    marker: PhantomData<T>,
    pub ghost value: { T },
}

impl<T> Model for GhostValue<T> {
    ghost also_owns = { λ _. ftrue };
}

/// Denotes the value that it lends.
#[derive(Drop)]
struct Itself<'a, T> {
    value: &'a T,
}

impl<T> Denotes<T> for Itself<'_, T> {
    ghost denoted = { λ a. a.value.now };
}

/// Denotes the value of a `GhostValue`.
#[derive(Drop)]
struct Once<'a, T> {
    before: &'a GhostValue<T>,
}

impl<T> Denotes<T> for Once<'_, T> {
    ghost denoted = { λ a. a.before.now.value };
}

impl<T> GhostValue<T> {
    /// Makes a `GhostValue` of the value that `value` has now. Copies nothing.
    #[inline(always)]
    pub fn seen(value: &T) -> GhostValue<T>
        ensures { result.value ≡ value.now }
    {
        GhostValue::of(&Itself { value })
    }

    /// Makes another `GhostValue` of the same value.
    #[inline(always)]
    pub fn again(&self) -> GhostValue<T>
        ensures { result.value ≡ self.now.value }
    {
        GhostValue::of(&Once { before: self })
    }

    /// Makes a `GhostValue` of the value that `note` denotes. Runs no code of `note`.
    #[inline(always)]
    pub fn of<N: Denotes<T>>(note: &N) -> GhostValue<T>
        ensures { result.value ≡ N.denoted note.now }
    {
        let _ = note;
        GhostValue {
            marker: PhantomData,
        }
    }
}

impl<T> Drop for GhostValue<T> {
    fn drop(self) {
        let Self { marker: _ } = self;
    }
}

// A `GhostValue` owns nothing, whatever `T` is: `proofs/Sent.antt` proves both.
unsafe impl<T> Send for GhostValue<T> {}

unsafe impl<T> Sync for GhostValue<T> {}
