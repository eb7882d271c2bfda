//! Tests of the backlog of a report's rings: which feeds it holds back, that each continues later,
//! and that the feed of the table that the writer takes is never held back.

ghost use Rattle.oim_ring.specs.Limits.{IsRingSize};

use oim_json::{Block, block_of};
use oim_names::{Items, Text};
use oim_resolve::Fact;
use oim_ring::{CloseFault, Drain, Ending, Feed, Item, Lanes};
use std::alloc::{AllocError, Global};
use std::sync::Wait;
use std::sync::atomic::{AtomicUsize, Ordering};
use std::thread;
use std::thread::Threads;

/// The count of checks by a thread for what another one does.
const TURNS: u32 = 20_000_000;

/// The count of blocks of each table that two workers send.
const BLOCKS: u32 = 300;

/// Returns a block of one fact.
fn block(alloc: Global) -> Result<Block, AllocError> {
    let id = Text::from_str(alloc, "t1.r_1.a")?;
    let fact = Fact::new(id, None, None, Items::new(alloc));
    block_of(alloc, &[fact])
}

/// Returns whether the feed takes a block.
fn puts(alloc: Global, feed: &mut Feed) -> bool {
    match block(alloc) {
        Ok(block) => feed.put(block).is_ok(),
        Err(_) => false,
    }
}

/// Returns whether the drain gives a block.
fn gives(drain: &mut Drain) -> bool {
    matches!(drain.take(), Some(Item::Block(_)))
}

/// The rings of tables 0 to 2.
#[derive(Drop)]
struct Rings {
    own: (Feed, Drain),
    next: (Feed, Drain),
    last: (Feed, Drain),
}

/// Returns the rings of the next three tables, of this size.
fn open_next(alloc: Global, lanes: &mut Lanes, size: usize) -> Result<Rings, AllocError>
    requires { IsRingSize size }
{
    let own = lanes.open(alloc, size)?;
    let next = lanes.open(alloc, size)?;
    let last = lanes.open(alloc, size)?;
    Ok(Rings { own, next, last })
}

/// Returns three rings of this size, in which `most` facts may wait together.
fn open_three(alloc: Global, most: usize, size: usize) -> Result<Rings, AllocError>
    requires { IsRingSize size }
{
    let mut lanes = Lanes::new(alloc, most)?;
    open_next(alloc, &mut lanes, size)
}

/// Returns whether tables 1 and 2 are held back, or not.
fn are_held(rings: &Rings, next: bool, last: bool) -> bool {
    rings.next.0.is_held() == next && rings.last.0.is_held() == last
}

/// Returns whether the second of two blocks of table 1 holds back that table and table 2, but not
/// table 0, whose block passes meanwhile.
fn hold_back(alloc: Global, rings: &mut Rings) -> bool {
    let is_one = puts(alloc, &mut rings.next.0) && are_held(rings, false, false);
    let are_two = puts(alloc, &mut rings.next.0) && are_held(rings, true, true);
    let is_full = !puts(alloc, &mut rings.next.0) && !rings.own.0.is_held();
    let passes = puts(alloc, &mut rings.own.0)
        && gives(&mut rings.own.1)
        && !gives(&mut rings.own.1);
    is_one && are_two && is_full && passes && are_held(rings, true, true)
}

/// Returns whether table 1 continues after the writer has reached its ring, and then holds back
/// only table 2.
fn let_go(alloc: Global, rings: &mut Rings) -> bool {
    let is_let_go = gives(&mut rings.next.1) && are_held(rings, false, false);
    is_let_go && puts(alloc, &mut rings.next.0) && are_held(rings, false, true)
}

/// Returns whether an ending does not count as a block: one block waits in the ring, and then none.
fn is_no_block(feed: Feed, drain: &mut Drain, last: &Feed) -> bool {
    let is_given = gives(drain) && !last.is_held();
    let is_closed = feed.close(Ending::Closed).is_ok() && !last.is_held();
    let is_empty = gives(drain) && matches!(drain.take(), Some(Item::Ending(Ending::Closed)));
    is_given && is_closed && is_empty && !last.is_held()
}

/// Returns whether the feeds of three rings, in which two blocks may wait, are held back as above.
fn are_held_back(alloc: Global, rings: Rings) -> bool {
    let mut rings = rings;
    let is_so = hold_back(alloc, &mut rings) && let_go(alloc, &mut rings);
    let Rings { own: _, next, last } = rings;
    let (feed, mut drain) = next;
    let (last, _drain) = last;
    is_so && is_no_block(feed, &mut drain, &last)
}

#[test]
fn later_tables_are_held_back(rt: HostRuntime) {
    let are_held = match open_three(rt.alloc(), 2, 2) {
        Ok(rings) => are_held_back(rt.alloc(), rings),
        Err(_) => false,
    };
    assert!(rt; are_held);
}

/// Returns whether a count reaches this value in time.
fn comes_to(count: &AtomicUsize, wanted: usize) -> bool {
    for _ in 0..TURNS {
        if count.load(Ordering::SeqCst) >= wanted {
            return true;
        }
        thread::yield_now();
    }
    false
}

/// Waits for the turn of a feed, and counts 1 before and 1 after.
fn wait_counted<T: Wait>(rt: &T, feed: &Feed, count: &AtomicUsize) {
    count.fetch_add(1, Ordering::SeqCst);
    feed.wait_for_turn(rt);
    count.fetch_add(1, Ordering::SeqCst);
}

/// Returns whether many blocks pass through a ring, each at its turn.
fn pass<T: Wait>(rt: &T, alloc: Global, ring: &mut (Feed, Drain)) -> bool {
    for _ in 0..BLOCKS {
        ring.0.wait_for_turn(rt);
        if !puts(alloc, &mut ring.0) || !gives(&mut ring.1) {
            return false;
        }
    }
    true
}

/// Returns whether the table that the writer takes passes blocks while the next one waits. The next
/// one must continue when the writer reaches its ring, even if that is empty.
fn passes_before<T: Wait>(
    rt: &T,
    alloc: Global,
    own: &mut (Feed, Drain),
    next: &mut Drain,
    count: &AtomicUsize,
) -> bool {
    let passes = comes_to(count, 1) && pass(rt, alloc, own);
    let was_held = count.load(Ordering::SeqCst) == 1;
    passes && was_held && next.take().is_none() && comes_to(count, 2)
}

/// Returns whether the feed of table 1, held back by two blocks of table 2, continues only when the
/// writer reaches it.
fn waits_for_the_writer<T: Threads + Wait + Sync>(
    rt: &T,
    alloc: Global,
    rings: &mut Rings,
) -> bool {
    let is_full = puts(alloc, &mut rings.last.0) && puts(alloc, &mut rings.last.0);
    let count = &AtomicUsize::new(0);
    let own = &mut rings.own;
    let (next, drain) = (&mut rings.next.0, &mut rings.next.1);
    let (passed, ()) = thread::join(
        rt,
        move || passes_before(rt, alloc, own, drain, count),
        move || wait_counted(rt, next, count),
    );
    is_full && passed
}

#[test]
fn a_later_table_waits_for_the_writer(rt: HostRuntime) {
    let waits = match &mut open_three(rt.alloc(), 2, 2) {
        Ok(rings) => waits_for_the_writer(&rt, rt.alloc(), rings),
        Err(_) => false,
    };
    assert!(rt; waits);
}

/// Returns whether the other thread waits until a block is taken from the drain, and then
/// continues.
fn lets_go(drain: &mut Drain, count: &AtomicUsize) -> bool {
    let waits = comes_to(count, 1) && count.load(Ordering::SeqCst) == 1;
    waits && gives(drain) && comes_to(count, 2)
}

/// Returns whether the feed of table 1 continues after a block of table 0 is taken.
fn waits_for_room<T: Threads + Wait + Sync>(rt: &T, alloc: Global, rings: Rings) -> bool {
    let Rings { own, next, last: _ } = rings;
    let (mut own, mut own_drain) = own;
    let (mut next, _next_drain) = next;
    let is_full = puts(alloc, &mut own) && puts(alloc, &mut next);
    let count = &AtomicUsize::new(0);
    let drain = &mut own_drain;
    let (is_let_go, ()) = thread::join(
        rt,
        move || lets_go(drain, count),
        move || wait_counted(rt, &next, count),
    );
    is_full && is_let_go
}

#[test]
fn a_later_table_waits_for_room(rt: HostRuntime) {
    let waits = match open_three(rt.alloc(), 2, 2) {
        Ok(rings) => waits_for_room(&rt, rt.alloc(), rings),
        Err(_) => false,
    };
    assert!(rt; waits);
}

/// Puts a block, or does so if fewer than four wait.
fn put_one(feed: &mut Feed, block: Block, are_few: bool) -> Result<(), Block> {
    if are_few {
        feed.put_below(block, 4)
    } else {
        feed.put(block)
    }
}

/// Returns whether the feed takes a block while fewer than four wait.
fn puts_below(alloc: Global, feed: &mut Feed) -> bool {
    match block(alloc) {
        Ok(block) => put_one(feed, block, true).is_ok(),
        Err(_) => false,
    }
}

/// Waits for room in a feed's ring, and counts 1 before and 1 after.
fn room_counted<T: Wait>(rt: &T, feed: &Feed, count: &AtomicUsize) {
    count.fetch_add(1, Ordering::SeqCst);
    feed.wait(rt);
    count.fetch_add(1, Ordering::SeqCst);
}

/// Returns whether the other thread continues once three of four blocks are taken.
fn leaves_few(drain: &mut Drain, count: &AtomicUsize) -> bool {
    let begins = comes_to(count, 1);
    begins && gives(drain) && gives(drain) && gives(drain) && comes_to(count, 2)
}

/// Returns whether the feed takes four blocks, and no more while they wait.
fn fills(alloc: Global, feed: &mut Feed) -> bool {
    for _ in 0..4 {
        if !puts_below(alloc, feed) {
            return false;
        }
    }
    !puts_below(alloc, feed)
}

/// Returns whether a feed that found four blocks, as many as may wait, continues once one is left.
fn waits_for_few<T: Threads + Wait + Sync>(rt: &T, alloc: Global, rings: Rings) -> bool {
    let Rings {
        own,
        next: _,
        last: _,
    } = rings;
    let (mut own, mut own_drain) = own;
    let is_full = fills(alloc, &mut own);
    let count = &AtomicUsize::new(0);
    let drain = &mut own_drain;
    let (continues, ()) = thread::join(
        rt,
        move || leaves_few(drain, count),
        move || room_counted(rt, &own, count),
    );
    is_full && continues
}

#[test]
fn a_feed_waits_until_few_are_left(rt: HostRuntime) {
    let waits = match open_three(rt.alloc(), 8, 8) {
        Ok(rings) => waits_for_few(&rt, rt.alloc(), rings),
        Err(_) => false,
    };
    assert!(rt; waits);
}

/// Puts a block at the feed's turn, and tries again while there is no room.
fn put_waiting<T: Wait>(rt: &T, feed: &mut Feed, block: Block, are_few: bool) -> bool {
    let mut block = block;
    for _ in 0..TURNS {
        feed.wait_for_turn(rt);
        match put_one(feed, block, are_few) {
            Ok(()) => return true,
            Err(back) => block = back,
        }
        feed.wait(rt);
    }
    false
}

/// Closes a feed, and tries again while the ring is full.
fn close_waiting<T: Wait>(rt: &T, feed: Feed) -> bool {
    let mut feed = feed;
    for _ in 0..TURNS {
        match feed.close(Ending::Closed) {
            Ok(_) => return true,
            Err(CloseFault::Full(back, _)) => feed = back,
            Err(CloseFault::Lost) => return false,
        }
        feed.wait(rt);
    }
    false
}

/// Sends a table of many blocks, and returns whether all were sent.
fn send_table<T: Wait>(rt: &T, alloc: Global, feed: Feed, are_few: bool) -> bool {
    let mut feed = feed;
    for _ in 0..BLOCKS {
        let Ok(block) = block(alloc) else {
            return false;
        };
        if !put_waiting(rt, &mut feed, block, are_few) {
            return false;
        }
    }
    close_waiting(rt, feed)
}

/// Returns the number of blocks before the ending.
fn blocks_of<T: Wait>(rt: &T, drain: &mut Drain) -> u32 {
    let mut count = 0u32;
    for _ in 0..TURNS {
        match drain.take() {
            None => drain.wait(rt),
            Some(Item::Block(_)) => count = count.saturating_add(1),
            Some(Item::Ending(_)) => return count,
        }
    }
    0
}

/// Returns whether a spare is kept, which the feed then has.
fn keeps_one<T: Wait>(rt: &T, feed: &Feed) -> bool {
    feed.kept_spare(rt).is_some()
}

/// Returns whether the spare that a block gave back reaches this feed and then not the other, and
/// goes back.
fn is_handed_on<T: Wait>(rt: &T, next: &Feed, feed: &Feed) -> bool {
    let Some(spare) = next.kept_spare(rt) else {
        return false;
    };
    let has_both = !spare.bytes.is_empty() && spare.ends.len() == 1;
    let is_kept = has_both && !keeps_one(rt, feed);
    next.give_back(rt, spare);
    is_kept
}

/// Returns whether the memory of a block that was given back reaches the feed of any table, and
/// only once, and one that a feed gives back reaches another feed.
fn comes_back<T: Wait>(rt: &T, block: Block, rings: &Rings) -> bool {
    let (feed, next) = (&rings.own.0, &rings.next.0);
    let was_empty = !keeps_one(rt, feed);
    rings.own.1.give_back(rt, block);
    let is_handed_on = is_handed_on(rt, next, feed);
    let is_first = feed.is_reached() && !next.is_reached();
    is_first && was_empty && is_handed_on && keeps_one(rt, feed) && !keeps_one(rt, feed)
}

#[test]
fn a_spare_comes_back(rt: HostRuntime) {
    let alloc = rt.alloc();
    let comes = match (&open_three(alloc, 2, 1), block(alloc)) {
        (Ok(rings), Ok(block)) => comes_back(&rt, block, rings),
        _ => false,
    };
    assert!(rt; comes);
}

/// Returns whether two workers send three tables through these rings.
fn send_three<T: Threads + Wait + Sync>(
    rt: &T,
    alloc: Global,
    rings: Rings,
    are_few: bool,
) -> bool {
    let Rings {
        own: (first, mut first_drain),
        next: (second, mut second_drain),
        last: (third, mut third_drain),
    } = rings;
    let drains = (&mut first_drain, &mut second_drain, &mut third_drain);
    let (are_taken, are_sent) = thread::join(
        rt,
        move || {
            blocks_of(rt, drains.0) == BLOCKS
                && blocks_of(rt, drains.1) == BLOCKS
                && blocks_of(rt, drains.2) == BLOCKS
        },
        move || {
            thread::join(
                rt,
                move || {
                    send_table(rt, alloc, first, are_few) && send_table(rt, alloc, third, are_few)
                },
                move || send_table(rt, alloc, second, are_few),
            )
        },
    );
    are_taken && are_sent == (true, true)
}

#[test]
fn three_tables_by_two_workers(rt: HostRuntime) {
    let are_sent = match open_three(rt.alloc(), 1, 1) {
        Ok(rings) => send_three(&rt, rt.alloc(), rings, false),
        Err(_) => false,
    };
    assert!(rt; are_sent);
}

#[test]
fn three_tables_of_which_few_blocks_wait(rt: HostRuntime) {
    let are_sent = match open_three(rt.alloc(), 8, 1) {
        Ok(rings) => send_three(&rt, rt.alloc(), rings, true),
        Err(_) => false,
    };
    assert!(rt; are_sent);
}
