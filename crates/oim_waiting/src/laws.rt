//! The laws of waiting: whatever the order in which threads take their steps, no wake is lost.

ghost use Rattle.oim_waiting.specs.Calls.{SpaceIsUsed};
ghost use Rattle.oim_waiting.specs.Rooms.{OneGoesOn};
ghost use Rattle.oim_waiting.specs.Turns.{NoTurnIsMissed};

/// Proves that a feed whose turn has come does not sleep, or a wake is due.
pub fn no_turn_is_missed()
    ensures { NoTurnIsMissed }
{}

/// Proves that while there is space and a feed sleeps that waits for it, another feed is on its way
/// or a thread is about to call one.
pub fn space_is_used()
    ensures { SpaceIsUsed }
{}

/// Proves that of the two ends of a ring one does not sleep, or is woken; and that for a feed which
/// sleeps an item waits, or a wake is due.
pub fn one_end_goes_on()
    ensures { OneGoesOn }
{}
