//! Values that only contracts see.
//!
//! A [`GhostValue`] has a value for contracts, but no bytes. Code that makes one need not have the
//! value. So code can write a value's text straight from other data, and its contract can still
//! name the value. A [`Denotes`] defines the value from data that is lent.
//!
//! Example:
//!
//! ```
//! /// Returns a value that only contracts remember, once more.
//! fn remembers(value: &u8) -> GhostValue<u8> {
//!     let seen = GhostValue::seen(value);
//!     seen.again()
//! }
//! ```
#![tactic(auto)]

mod ghost_value;

pub use ghost_value::{Denotes, GhostValue};
