//! The tests' way to take all memory and to give it back a little at a time.

use crate::calls::{Call, CallValues, made};
use std::alloc::Global;

/// The largest number of bytes that a call may be given.
const MOST: usize = 1 << 20;

/// The count of bytes that a call is given more each time.
const STEP: usize = 16;

/// What a call did with the memory that it had.
#[derive(Clone, Copy)]
pub(crate) enum CallOutcome {
    /// It was refused memory, and nothing changed.
    Refused,
    /// It had enough memory, and answered as with ample memory.
    Enough,
    /// It answered something else.
    Wrong,
}

impl CallOutcome {
    /// Returns what a call did that was not refused memory, and answered as with ample memory or
    /// not.
    pub(crate) fn same(is_same: bool) -> CallOutcome {
        if is_same {
            CallOutcome::Enough
        } else {
            CallOutcome::Wrong
        }
    }

    /// Returns what a call did that was refused memory, and answered so or not.
    pub(crate) fn refused(is_refused: bool) -> CallOutcome {
        if is_refused {
            CallOutcome::Refused
        } else {
            CallOutcome::Wrong
        }
    }
}

/// Memory that is taken so that nothing else has it.
#[derive(Drop)]
struct Hoard {
    blocks: Vec<Vec<u8>>,
}

impl Hoard {
    /// Returns a hoard that has nothing yet, or `None` if there is no memory for it.
    fn new(alloc: Global) -> Option<Hoard> {
        let blocks = Vec::with_capacity(alloc, 1 << 20).ok()?;
        Some(Hoard { blocks })
    }

    /// Takes all that this thread can allocate, in ever smaller blocks. Returns `None` if these are
    /// too many.
    fn take_all(&mut self, alloc: Global) -> Option<()> {
        for shift in (4..47usize).rev() {
            for _ in 0..1u32 << 18 {
                let Ok(block) = Vec::<u8>::with_capacity(alloc, 1 << shift) else {
                    break;
                };
                self.blocks.push(block).ok()?;
            }
        }
        Some(())
    }
}

/// The count of bytes of the stack that a call may use.
const DEEPEST: usize = 1 << 18;

/// Writes the bytes of the stack that a call may use, and returns one of them, which is 0 or 1. The
/// stack cannot grow after all memory is taken, but it keeps what it has.
#[inline(never)]
fn reach_down(place: usize) -> u8 {
    let mut bytes = [0u8; DEEPEST];
    for (at, byte) in bytes.iter_mut().enumerate() {
        *byte = (at % 2) as u8;
    }
    bytes[place % DEEPEST]
}

/// A vector of which a call has a little memory and then ever more. It is separate, so that all
/// other memory can be taken.
#[derive(Drop)]
struct Grant {
    left: usize,
    _filler: Vec<u8>,
}

impl Grant {
    /// Returns a room of `room` bytes, at most 1,048,576, of which a call has none yet. Returns
    /// `None` if there is no memory for it.
    fn new(alloc: Global, room: usize) -> Option<Grant> {
        let left = room.min(MOST);
        // The system's first large block is outside its heap, and a second one inside.
        drop(Vec::<u8>::with_capacity(alloc, left).ok()?);
        let filler = Vec::with_capacity(alloc, left).ok()?;
        if reach_down(left) > 1 {
            return None;
        }
        Some(Grant {
            left,
            _filler: filler,
        })
    }

    /// Returns the same room with 16 bytes more for the call, or `None` if the call has all of it.
    fn eased(self, alloc: Global) -> Option<Grant> {
        let left = self.left.checked_sub(STEP)?;
        drop(self);
        let filler = Vec::with_capacity(alloc, left).ok()?;
        Some(Grant {
            left,
            _filler: filler,
        })
    }
}

/// Returns how often a call is refused memory while it has none, then 16 bytes, and so on, until it
/// has enough. Returns `None` if it never has enough, or gives another answer before.
fn refusals_in(alloc: Global, room: Grant, call: Call, over: CallValues<'_>) -> Option<u32> {
    let mut room = room;
    for refused in 0..=(MOST / STEP) as u32 {
        match made(alloc, call, over) {
            CallOutcome::Refused => room = room.eased(alloc)?,
            CallOutcome::Enough => return Some(refused),
            CallOutcome::Wrong => return None,
        }
    }
    None
}

/// Does the same while all other memory of the process is taken, so the process must do nothing
/// else.
fn refusals_of(alloc: Global, room: Grant, call: Call, over: CallValues<'_>) -> Option<u32> {
    let mut hoard = Hoard::new(alloc)?;
    hoard.take_all(alloc)?;
    refusals_in(alloc, room, call, over)
}

/// A call, the memory that it may need, and the least count of refusals before it has enough.
pub(crate) type RefusedCall = (Call, usize, u32);

/// Returns whether a call is refused memory at least this often before it has enough.
fn is_refused(alloc: Global, trial: &RefusedCall, over: CallValues<'_>) -> bool {
    match Grant::new(alloc, trial.1) {
        Some(room) => {
            let count = refusals_of(alloc, room, trial.0, over);
            matches!(count, Some(count) if count >= trial.2)
        }
        None => false,
    }
}

/// Returns whether each of these calls is.
pub(crate) fn are_refused(alloc: Global, trials: &[RefusedCall], over: CallValues<'_>) -> bool {
    for trial in trials {
        if !is_refused(alloc, trial, over) {
            return false;
        }
    }
    true
}
