//! Channels whose items all match a key that the first item fixes.
//!
//! A [`Fit`] defines the key of an item and which items match a key. `Giver::open` makes a channel
//! from its first item. A [`Giver`] sends and receives, a [`Taker`] receives. Both ends know the
//! key, and every received item is proved to match it.
//!
//! Not proved: the order of items, and that a sent item is received.
//!
//! Example:
//!
//! ```
//! /// A number by way of a channel of numbers that are all the same.
//! fn handed_over<R: Wait>(rt: &R, alloc: Global, number: u8) -> Option<u8>
//!     ensures { IfSome result (λ x. x ≡ number) }
//! {
//!     match Giver::<u8, u8, Same>::open(rt, alloc, 1, number) {
//!         Ok((_giver, mut taker)) => taker.take(rt),
//!         Err(_) => None,
//!     }
//! }
//! ```
#![tactic(auto)]

mod ends;
mod rule;

pub use ends::{Giver, Taker};
pub use rule::Fit;
