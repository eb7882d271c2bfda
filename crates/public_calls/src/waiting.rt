//! Calls of `oim_waiting`.

use oim_waiting::{Steps, TurnStep, no_turn_is_missed, one_end_goes_on, space_is_used};

/// Notes the steps of a feed that need not wait.
fn goes_on() -> Steps<TurnStep> {
    let mut steps = Steps::none();
    steps.take(TurnStep::Announce);
    steps.take(TurnStep::Look(false));
    steps
}

#[test]
fn calls_of_waiting(rt: HostRuntime) {
    let _ = goes_on();
    no_turn_is_missed();
    space_is_used();
    one_end_goes_on();
    assert!(rt; true);
}
