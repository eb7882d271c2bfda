//! Workers that share out numbered items of any kind.
//!
//! What is proved of `Claims`, from which threads draw the items:
//!
//! - a draw returns a number and the item at its place (`specs/Claims.antt`);
//! - if one of the seats was answered `None`, `close` with all seats shows that they together have
//!   drawn each number exactly once (`specs/Numbers.antt`).
//!
//! What is proved of a crew, which serves the items:
//!
//! - `crew_of` makes everything that its workers need before any of them starts. A worker that
//!   `start_crew` started has promised a shift by the server. If `served` is false, all shifts are
//!   by the spare server, and no worker was started;
//! - `join_crew` returns the shift of each worker. It holds, for each number that the worker's seat
//!   drew, the result of the server in use for the item under that number (`specs/Shifts.antt`).
//!
//! Not proved, only tested: that a worker is started if the system has a thread for it.
//!
//! A call:
//!
//! ```
//! /// Makes claims of two items with one fresh seat.
//! fn shares_out(alloc: Global) -> Result<bool, AllocError> {
//!     let items = vec![in alloc; 'a', 'b']?;
//!     let made: (Claims<char>, Vec<Seat<char>>) = Claims::new(alloc, items, 1)?;
//!     Ok(made.1.len() == 1)
//! }
//! ```
#![tactic(auto)]

mod claims;
mod crew;
mod seat;
mod seats;
mod site;
mod view;
mod worker;

pub use claims::Claims;
pub use crew::{Crew, Posts, Room, Shifts, UnderWay, all_idle, crew_of, join_crew, start_crew};
pub use seat::Seat;
pub use site::Site;
pub use worker::{Serve, Shift, ShiftOf, Station};
