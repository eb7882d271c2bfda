//! Rings at run time: the answers of full and empty rings.

ghost use Rattle.std.specs.Prelude.{◌≡◌, IfSome, true};

use oim_json::{Block, block_of};
use oim_names::{Items, Text};
use oim_resolve::Fact;
use oim_ring::{CloseFault, Closed, Drain, Ending, Feed, Item, lane};
use oim_rows::{TableFault, TableKind};
use std::alloc::{AllocError, Global};

/// The ending of these rings.
const FAULT: TableFault = TableFault {
    table: 1,
    row: 0,
    column: 1,
    kind: TableKind::UnknownHeader,
};

/// The identifier of the fact of a block, and the block's text.
type One = (&'static str, &'static str);

/// Two blocks.
const FIRST: One = ("a", r#""a":{"dimensions":{},"value":null}"#);

const SECOND: One = ("b", r#""b":{"dimensions":{},"value":null}"#);

/// Returns a block of one fact.
fn block(alloc: Global, one: One) -> Result<Block, AllocError> {
    match Text::from_str(alloc, one.0) {
        Ok(id) => block_of(alloc, &[Fact::new(id, None, None, Items::new(alloc))]),
        Err(fault) => Err(fault),
    }
}

/// Returns whether a block is this one.
fn is_block(block: &Block, one: One) -> bool {
    block.count() == 1 && block.bytes() == one.1.as_bytes()
}

/// Returns whether an item is this block.
fn gives(item: Option<Item>, one: One) -> bool {
    match item {
        Some(Item::Block(block)) => is_block(&block, one),
        _ => false,
    }
}

/// Returns whether the feed takes this block.
fn puts(alloc: Global, feed: &mut Feed, one: One) -> bool
    ensures { feed.new.ring ≡ feed.old.ring }
{
    match block(alloc, one) {
        Ok(block) => feed.put(block).is_ok(),
        Err(_) => false,
    }
}

/// Returns whether the feed, whose ring is full, gives back this block.
fn gives_back(alloc: Global, feed: &mut Feed, one: One) -> bool {
    match block(alloc, one) {
        Ok(block) => match feed.put(block) {
            Ok(()) => false,
            Err(back) => is_block(&back, one),
        },
        Err(_) => false,
    }
}

/// Returns whether the empty ring of one item takes this block, and no other until it is taken.
fn hands_over(alloc: Global, feed: &mut Feed, drain: &mut Drain, one: One) -> bool {
    drain.take().is_none()
        && puts(alloc, feed, one)
        && gives_back(alloc, feed, one)
        && gives(drain.take(), one)
        && drain.take().is_none()
}

/// Returns whether a ring of one item hands over two blocks, one after the other.
fn hands_over_two(alloc: Global) -> bool {
    match lane(alloc, 1) {
        Ok((mut feed, mut drain)) => {
            hands_over(alloc, &mut feed, &mut drain, FIRST)
                && hands_over(alloc, &mut feed, &mut drain, SECOND)
        }
        Err(_) => false,
    }
}

#[test]
fn a_full_ring_gives_blocks_back(rt: HostRuntime) {
    assert!(rt; hands_over_two(rt.alloc()));
}

/// Returns the feed that `close` gives back because the ring is full.
fn not_closed(feed: Feed) -> Option<Feed>
    ensures { IfSome result (λ f. f.ring ≡ feed.ring) }
{
    match feed.close(Ending::Refused(FAULT)) {
        Err(CloseFault::Full(feed, ending)) => {
            if ending == Ending::Refused(FAULT) {
                Some(feed)
            } else {
                None
            }
        }
        _ => None,
    }
}

/// Returns the token of the feed, whose ring has room, after its close.
fn closed(feed: Feed) -> Option<Closed>
    ensures { IfSome result (λ c. c.ring ≡ feed.ring) }
{
    match feed.close(Ending::Refused(FAULT)) {
        Ok(closed) => Some(closed),
        Err(_) => None,
    }
}

/// Returns whether a drain finds no item.
fn finds_nothing(drain: &mut Drain) -> bool
    ensures ring { drain.new.ring ≡ drain.old.ring }
    ensures same { result ≡ true → drain.new.taken ≡ drain.old.taken }
{
    match drain.take() {
        Some(_) => false,
        None => true,
    }
}

/// Returns whether the ending is next and nothing follows it; then the drain settles.
fn settled(drain: Drain, closed: Closed) -> bool
    requires { closed.ring ≡ drain.ring }
{
    let mut drain = drain;
    match drain.take() {
        Some(Item::Ending(ending)) => {
            if finds_nothing(&mut drain) {
                let _drained = drain.settle(closed);
                return ending == Ending::Refused(FAULT);
            }
            false
        }
        _ => false,
    }
}

/// Returns whether the drain gives the first block and, after the feed is closed, the ending.
fn gives_all(feed: Feed, drain: Drain) -> bool
    requires { drain.ring ≡ feed.ring }
{
    let mut drain = drain;
    if !gives(drain.take(), FIRST) {
        return false;
    }
    match closed(feed) {
        Some(closed) => settled(drain, closed),
        None => false,
    }
}

/// Returns whether a ring that the first block fills can be closed after the block is taken.
fn closes_later(feed: Feed, drain: Drain) -> bool
    requires { drain.ring ≡ feed.ring }
{
    match not_closed(feed) {
        Some(feed) => gives_all(feed, drain),
        None => false,
    }
}

/// Returns whether a ring of one item that is full can be closed later.
fn full_closes_later(alloc: Global) -> bool {
    match lane(alloc, 1) {
        Ok((mut feed, drain)) => puts(alloc, &mut feed, FIRST) && closes_later(feed, drain),
        Err(_) => false,
    }
}

#[test]
fn a_full_ring_is_closed_later(rt: HostRuntime) {
    assert!(rt; full_closes_later(rt.alloc()));
}
