//! Ghost values that a writer keeps only for contracts.

ghost use Rattle.std.specs.Prelude.{◌++◌, ◌∷◌, []};
ghost use Rattle.oim_json.specs.Sinks.{sink_at};
ghost use Rattle.oim_ring.specs.declared.item.Item.TheVariants as items;

use ghost_value::{Denotes, GhostValue};
use oim_json::{Block, Mark, Sink};
use oim_names::Items;
use oim_ring::{Ending, Item};
use std::marker::Model;

/// A sink as contracts see it: its mark and the bytes that it took. No value of this type is made.
#[derive(Drop)]
pub(crate) struct SinkState {
    mark: Mark,
    bytes: Option<Items<u8>>,
}

impl Model for SinkState {
    ghost use Rattle.oim_json.specs.Sinks.{SinkView, sink_at};

    ghost Value = { SinkView };

    ghost view = { λ s. sink_at s.mark s.bytes };
}

/// The sink's present state.
#[derive(Drop)]
pub(crate) struct Now<'a, W> {
    pub(crate) sink: &'a W,
}

impl<W: Sink> Denotes<SinkState> for Now<'_, W> {
    ghost denoted = { λ n. W.seen n.sink.now };
}

/// Some bytes.
#[derive(Drop)]
pub(crate) struct Bytes<'a> {
    pub(crate) bytes: &'a [u8],
}

impl Denotes<Items<u8>> for Bytes<'_> {
    ghost denoted = { λ b. b.bytes.now };
}

/// No items.
pub(crate) struct NoItems;

impl Denotes<Items<Item>> for NoItems {
    ghost denoted = { λ _. [] };
}

/// Items, followed by a block.
#[derive(Drop)]
pub(crate) struct WithBlock<'a> {
    pub(crate) before: &'a GhostValue<Items<Item>>,
    pub(crate) block: &'a Block,
}

impl Denotes<Items<Item>> for WithBlock<'_> {
    ghost denoted = { λ n. n.before.now.value ++ items.Block n.block.now ∷ [] };
}

/// Items, followed by an ending.
#[derive(Drop)]
pub(crate) struct WithEnding<'a> {
    pub(crate) before: &'a GhostValue<Items<Item>>,
    pub(crate) ending: Ending,
}

impl Denotes<Items<Item>> for WithEnding<'_> {
    ghost denoted = { λ n. n.before.now.value ++ items.Ending n.ending ∷ [] };
}
