//! The faults that a walk over a metadata finds.

ghost use Rattle.std.specs.Prelude.{◌≡◌, ◌++◌, ◌∷◌, [], option_map};
ghost use Rattle.oim_meta.specs.Findings.{finding, found, first_of};
ghost use Rattle.oim_meta.specs.state.Places.{seen_found, place_path};

use crate::json_path::JsonPath;
use ghost_value::{Denotes, GhostValue};
use oim_entries::MetaFault;
use oim_names::{Items, Text};
use std::marker::Model;

/// A fault, and the keys that lead to its place, the outermost first. A fault of the whole metadata
/// has no keys.
#[derive(Drop)]
pub struct Finding {
    pub fault: MetaFault,
    pub place: Items<Text>,
}

/// A fault at a place of the JSON value that is walked.
#[derive(Clone, Copy, Debug)]
pub(crate) struct Found<'v> {
    pub(crate) fault: MetaFault,
    pub(crate) place: JsonPath<'v>,
}

/// The first fault that a walk has found so far: the one with the least number, and the earliest of
/// that number.
///
/// It takes no memory. Contracts see all faults that were found, in the order of the walk.
#[derive(Drop)]
pub(crate) struct Findings<'v> {
    first: Option<Found<'v>>,
    all: GhostValue<Items<Finding>>,
}

impl<'v> Model for Findings<'v> {
    ghost use Rattle.std.specs.Prelude.{◌≡◌, List, option_map};
    ghost use Rattle.oim_meta.specs.declared.findings.Finding.{Finding as FindingValue};
    ghost use Rattle.oim_meta.specs.Findings.{first_of};
    ghost use Rattle.oim_meta.specs.state.Places.{seen_found};

    ghost Value = { List FindingValue };

    ghost view = { λ a. a.all.value };

    ghost invariant = { λ a. option_map seen_found a.first ≡ first_of a.all.value };
}

/// The findings so far, and one more.
#[derive(Drop)]
struct OneMoreFinding<'a, 'v> {
    before: &'a GhostValue<Items<Finding>>,
    last: &'a Found<'v>,
}

impl<'a, 'v> Denotes<Items<Finding>> for OneMoreFinding<'a, 'v> {
    ghost denoted = { λ t. t.before.now.value ++ seen_found t.last.now ∷ [] };
}

impl<'v> Findings<'v> {
    /// Makes empty findings.
    pub(crate) fn new(nothing: &Items<Finding>) -> Findings<'v>
        requires { nothing.now ≡ [] }
        ensures { result ≡ [] }
    {
        Findings {
            first: None,
            all: GhostValue::seen(nothing),
        }
    }

    /// Returns the first finding.
    pub(crate) fn first(&self) -> Option<Found<'v>>
        ensures { option_map seen_found result ≡ first_of self.now }
    {
        self.first
    }

    /// Notes a finding, and keeps it if its fault comes before that of the one kept. Contracts see
    /// all of them.
    pub(crate) fn add(&mut self, fault: MetaFault, place: JsonPath<'v>)
        ensures { self.new ≡ self.old ++ finding fault (place_path place.entry) ∷ [] }
    {
        let last = Found { fault, place };
        let before = &self.all;
        let all = GhostValue::of(&OneMoreFinding {
            before,
            last: &last,
        });
        let is_sooner = match self.first {
            Some(first) => last.fault.number() < first.fault.number(),
            None => true,
        };
        let first = if is_sooner { Some(last) } else { self.first };
        *self = Findings { first, all };
    }

    /// Appends a finding if the test passes.
    pub(crate) fn add_if(&mut self, test: bool, fault: MetaFault, place: JsonPath<'v>)
        ensures { self.new ≡ self.old ++ found fault (place_path place.entry) test }
    {
        if test {
            self.add(fault, place);
        }
    }
}
