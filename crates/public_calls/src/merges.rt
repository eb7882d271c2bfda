//! Calls of `oim_merge`.

ghost use Rattle.std.specs.Prelude.{◌≡◌, [], IfOk};

use crate::held::{NIL_FACT, nil_block};
use oim_json::{Block, Layout, Marked};
use oim_merge::{MergeEnd, merge};
use oim_ring::{Drain, Ending, lane};
use std::alloc::{AllocError, Global};
use std::sync::Wait;

/// Merges the ring of one table into a document.
fn merges(rt: &(impl AllocGlobal + Wait), block: Block) -> Result<bool, AllocError> {
    let mut drains = [filled(rt.alloc(), block)?];
    let mut faults = Vec::with_capacity(rt.alloc(), 1)?;
    let mut document = Vec::new(rt.alloc());
    let sink = &mut Marked::new(&mut document);
    let end = merge(rt, &mut drains, b"", &mut faults, Layout::Compact, sink);
    Ok(end == MergeEnd::Complete && document.as_slice().starts_with(NIL_FACT))
}

/// Returns the drain of a ring with a block and an ending.
fn filled(alloc: Global, block: Block) -> Result<Drain, AllocError>
    ensures { IfOk result (λ drain. drain.taken ≡ []) }
{
    let (mut feed, drain) = lane(alloc, 2)?;
    let _ = feed.put(block);
    let _ = feed.close(Ending::Closed);
    Ok(drain)
}

/// Returns whether the fact's document is written.
fn hold(rt: &(impl AllocGlobal + Wait)) -> bool {
    match nil_block(rt.alloc()) {
        Ok(block) => matches!(merges(rt, block), Ok(true)),
        Err(_) => false,
    }
}

#[test]
fn calls_of_merges(rt: HostRuntime) {
    assert!(rt; hold(&rt));
}
