//! What is not written yet of a row.

ghost use Rattle.std.specs.Prelude.{◌≡◌, ◌+◌, ◌≤◌, IfSome, drop, option_map};

use crate::table::fact_list::rest;
use ghost_value::{Denotes, GhostValue};
use oim_names::Items;
use oim_resolve::Fact;
use std::marker::Model;

/// The facts of a row whose texts are not written yet.
///
/// Contracts see these facts, the index of the first of their columns among the columns of facts,
/// and how many facts of the row come before them.
#[derive(Drop)]
pub(crate) struct RowRest {
    next: usize,
    written: usize,
    facts: GhostValue<Items<Fact>>,
}

impl Model for RowRest {
    ghost use Rattle.oim_decode.specs.state.RowParts.{RowRestValue};

    ghost Value = { RowRestValue };

    ghost view = { λ a. record { next = a.next; written = a.written; facts = a.facts.value } };
}

impl RowRest {
    /// Makes what is left before a row with the facts that `note` denotes is written.
    #[inline(always)]
    pub(crate) fn whole<N: Denotes<Items<Fact>>>(note: &N) -> RowRest
        ensures { result ≡ record { next = 0; written = 0; facts = N.denoted note.now } }
    {
        RowRest {
            next: 0,
            written: 0,
            facts: GhostValue::of(note),
        }
    }

    /// Returns the index of the first column that is left.
    pub(crate) fn next(&self) -> usize
        ensures { result ≡ self.now.next }
    {
        self.next
    }

    /// Returns how many facts of the row come before those that are left.
    pub(crate) fn written(&self) -> usize
        ensures { result ≡ self.now.written }
    {
        self.written
    }

    /// Returns the facts that are left.
    #[inline(always)]
    pub(crate) fn facts(&self) -> &GhostValue<Items<Fact>>
        ensures { result.now.value ≡ self.now.facts }
    {
        &self.facts
    }

    /// Returns what is left after `count` of these facts, from the column `next` on, if there is
    /// one.
    #[inline(always)]
    pub(crate) fn after(&self, next: Option<usize>, count: usize) -> Option<RowRest>
        requires { IfSome next (λ n. self.now.written + count ≤ n) }
        ensures { result ≡ option_map (λ n. record { next = n; written = self.now.written + count; facts = drop count self.now.facts }) next }
    {
        match next {
            Some(next) => Some(RowRest {
                next,
                written: self.written + count,
                facts: rest(&self.facts, count),
            }),
            None => None,
        }
    }
}
