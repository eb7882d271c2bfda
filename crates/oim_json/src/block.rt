//! Blocks: the texts of some facts.

ghost use Rattle.std.specs.Prelude.{◌≡◌, ◌≤◌, ◌<◌, ◌+◌, Some, drop, take, length, option_map, slice_get, slice_range, IfOk};
ghost use Rattle.oim_json.specs.Blocks.{behind_commas, ends_from};
ghost use Rattle.oim_json.specs.Document.{facts_text, more_members};
ghost use Rattle.oim_json.specs.JsonText.{member_text};
ghost use Rattle.oim_json.specs.Lines.{IsOneLine};
ghost use Rattle.oim_json.specs.declared.layout.Layout.TheVariants.{Compact};

use crate::member::push_member;
use crate::spare::Spare;
use ghost_value::{Denotes, GhostValue};
use oim_names::Items;
use oim_resolve::Fact;
use std::alloc::{AllocError, Global};
use std::marker::Model;

/// The texts of 1 to 256 facts, joined by commas.
///
/// A contract sees the list of facts. The block itself keeps only their texts and where each ends.
pub struct Block {
    // a comma before each text
    bytes: Vec<u8>,
    // where each text ends
    ends: Vec<usize>,
    facts: GhostValue<Items<Fact>>,
}

// Written by hand so that each place that drops one makes a single call.
impl Drop for Block {
    fn drop(self) {
        let Self {
            bytes: _,
            ends: _,
            facts: _,
        } = self;
    }
}

impl Model for Block {
    ghost use Rattle.std.specs.Prelude.{List};
    ghost use Rattle.oim_resolve.specs.FactParts.{FactParts};
    ghost use Rattle.oim_json.specs.state.Blocks.{IsBlockOf};

    ghost Value = { List FactParts };

    ghost view = { λ b. b.facts.value };

    ghost invariant = { λ b. IsBlockOf b.bytes.items b.ends.items b.facts.value };
}

/// Denotes the facts that it lends.
#[derive(Drop)]
struct Lent<'a> {
    facts: &'a [Fact],
}

impl Denotes<Items<Fact>> for Lent<'_> {
    ghost denoted = { λ a. a.facts.now };
}

/// Makes the block of 1 to 256 facts.
pub fn block_of(alloc: Global, facts: &[Fact]) -> Result<Block, AllocError>
    requires some { 1 ≤ length facts.now }
    requires most { length facts.now ≤ 256 }
    ensures { IfOk result (λ b. b ≡ facts.now) }
{
    let mut bytes = Vec::new(alloc);
    let mut ends = Vec::with_capacity(alloc, facts.len())?;
    for fact in facts {
        bytes.push(b',')?;
        push_member(alloc, &mut bytes, fact)?;
        ends.push(bytes.len())?;
    }
    Ok(Block {
        bytes,
        ends,
        facts: GhostValue::of(&Lent { facts }),
    })
}

impl Block {
    /// Makes a block from the texts of 1 to 256 facts, each after a comma, and the end of each
    /// text.
    ///
    /// `facts` gives contracts the facts. It takes no memory.
    pub fn from_parts(bytes: Vec<u8>, ends: Vec<usize>, facts: GhostValue<Items<Fact>>) -> Block
        requires texts { bytes.items ≡ behind_commas facts.value }
        requires ends { ends.items ≡ ends_from 0 facts.value }
        requires some { 1 ≤ length facts.value }
        requires most { length facts.value ≤ 256 }
        ensures { result ≡ facts.value }
    {
        Block { bytes, ends, facts }
    }

    /// Returns the number of facts, 1 to 256.
    pub fn count(&self) -> usize
        ensures count { result ≡ length self.now }
        ensures some { 1 ≤ result }
        ensures most { result ≤ 256 }
    {
        self.ends.len()
    }

    /// Returns the texts of the facts, joined by commas, without a line feed.
    pub fn bytes(&self) -> &[u8]
        ensures text { result.now ≡ facts_text self.now }
        ensures one_line { IsOneLine result.now }
    {
        without_first(self.bytes.as_slice())
    }

    /// Returns the members of the facts for a compact document, with a comma before the first if
    /// the document has `any` members already.
    pub(crate) fn bytes_behind(&self, any: bool) -> &[u8]
        ensures { result.now ≡ more_members Compact any self.now }
    {
        let bytes = self.bytes.as_slice();
        if any { bytes } else { without_first(bytes) }
    }

    /// Returns the text of the fact at index `i`: its identifier and its object.
    pub fn text(&self, i: usize) -> &[u8]
        requires { i < length self.now }
        ensures { option_map member_text (slice_get self.now i) ≡ Some result.now }
    {
        part(self.bytes.as_slice(), self.start_of(i), self.ends[i])
    }

    // Returns where the text of a fact begins.
    fn start_of(&self, i: usize) -> usize
        requires { i < length self.now }
        ensures { result ≡ length (behind_commas (take i self.now)) + 1 }
    {
        if i == 0 {
            return 1;
        }
        self.ends[i - 1] + 1
    }

    /// Returns the memory of the block for another one. It still holds each text after a comma, and
    /// where each text ends.
    pub fn into_spare(self) -> Spare
        ensures bytes { result.bytes.items ≡ behind_commas self }
        ensures ends { result.ends.items ≡ ends_from 0 self }
    {
        let Self {
            bytes,
            ends,
            facts: _,
        } = self;
        Spare { bytes, ends }
    }
}

fn without_first(text: &[u8]) -> &[u8]
    requires { 1 ≤ length text.now }
    ensures { result.now ≡ drop 1 text.now }
{
    &text[1..]
}

fn part(text: &[u8], start: usize, end: usize) -> &[u8]
    requires order { start ≤ end }
    requires within { end ≤ length text.now }
    ensures { result.now ≡ slice_range text.now start end }
{
    &text[start..end]
}
