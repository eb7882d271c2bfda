//! How the threads of a conversion wait for each other, as a model: the steps that a thread takes,
//! and what is true after every list of them.
//!
//! What is proved, whatever the order in which the threads take their steps:
//!
//! - a feed whose turn has come does not sleep, or a wake is due (`no_turn_is_missed`). It
//!   announces that it may sleep before it looks; the other thread changes something before it
//!   wakes;
//! - while there is space and a feed sleeps that waits for it, another feed is on its way or a
//!   thread is about to call one (`space_is_used`);
//! - for a feed that sleeps until its ring has room, an item waits or a wake is due; and the two
//!   ends of a ring do not both sleep unless one was woken (`one_end_goes_on`).
//!
//! `oim_ring` waits and wakes. Its functions note each step in a [`Steps`], which has no bytes, and
//! their contracts name the steps in order. So the prover refuses a body that swaps two of them.
//!
//! Not proved: that a function does the step that it notes, and that each thread runs on.
//!
//! A call:
//!
//! ```
//! /// Notes the steps of a feed that need not wait.
//! fn goes_on() -> Steps<TurnStep> {
//!     let mut steps = Steps::none();
//!     steps.take(TurnStep::Announce);
//!     steps.take(TurnStep::Look(false));
//!     steps
//! }
//! ```
#![tactic(auto)]

mod laws;
mod steps;

pub use laws::{no_turn_is_missed, one_end_goes_on, space_is_used};
pub use steps::{RoomStep, Steps, TurnStep};
