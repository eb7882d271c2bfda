//! Lists that only contracts see. No item of them is in memory.

ghost use Rattle.std.specs.Prelude.{◌≡◌, ◌++◌, [], take, drop};

use ghost_value::{Denotes, GhostValue};
use oim_names::Items;

struct NoFacts;

impl<T> Denotes<Items<T>> for NoFacts {
    ghost denoted = { λ _. [] };
}

/// Returns the empty list.
#[inline(always)]
pub(crate) fn none<T>() -> GhostValue<Items<T>>
    ensures { result.value ≡ [] }
{
    GhostValue::of(&NoFacts)
}

#[derive(Drop)]
struct Both<'a, T, N> {
    before: &'a GhostValue<Items<T>>,
    note: &'a N,
}

impl<T, N: Denotes<Items<T>>> Denotes<Items<T>> for Both<'_, T, N> {
    ghost denoted = { λ t. t.before.now.value ++ N.denoted t.note.now };
}

/// Returns the list, followed by what `note` denotes.
#[inline(always)]
pub(crate) fn then<T, N: Denotes<Items<T>>>(
    before: &GhostValue<Items<T>>,
    note: &N,
) -> GhostValue<Items<T>>
    ensures { result.value ≡ before.now.value ++ N.denoted note.now }
{
    GhostValue::of(&Both { before, note })
}

#[derive(Drop)]
struct Front<'a, T> {
    all: &'a GhostValue<Items<T>>,
    count: usize,
}

impl<T> Denotes<Items<T>> for Front<'_, T> {
    ghost denoted = { λ t. take t.count t.all.now.value };
}

/// Returns the first `count` items.
#[inline(always)]
pub(crate) fn first<T>(all: &GhostValue<Items<T>>, count: usize) -> GhostValue<Items<T>>
    ensures { result.value ≡ take count all.now.value }
{
    GhostValue::of(&Front { all, count })
}

#[derive(Drop)]
struct Back<'a, T> {
    all: &'a GhostValue<Items<T>>,
    count: usize,
}

impl<T> Denotes<Items<T>> for Back<'_, T> {
    ghost denoted = { λ t. drop t.count t.all.now.value };
}

/// Returns the items after the first `count`.
#[inline(always)]
pub(crate) fn rest<T>(all: &GhostValue<Items<T>>, count: usize) -> GhostValue<Items<T>>
    ensures { result.value ≡ drop count all.now.value }
{
    GhostValue::of(&Back { all, count })
}

/// Returns the list `before`, followed by the first `count` items of `all`.
#[inline(always)]
pub(crate) fn then_first<T>(
    before: &GhostValue<Items<T>>,
    all: &GhostValue<Items<T>>,
    count: usize,
) -> GhostValue<Items<T>>
    ensures { result.value ≡ before.now.value ++ take count all.now.value }
{
    then(before, &Front { all, count })
}
