//! The dimensions of a fact, each read from its value.

mod concept;
mod value;

pub use concept::read_concept;
pub(crate) use value::sided;
pub use value::{Entry, read_value};
