//! Calls of `ghost_value`.

use ghost_value::GhostValue;

/// Returns a value that only contracts remember, once more.
fn remembers(value: &u8) -> GhostValue<u8> {
    let seen = GhostValue::seen(value);
    seen.again()
}

#[test]
fn calls_of_told(rt: HostRuntime) {
    let _ = remembers(&1);
    assert!(rt; true);
}
