//! Members by their names.

ghost use Rattle.std.specs.Prelude.{◌≡◌, IfOk, map};
ghost use Rattle.serde_json.specs.View.{members_view};
ghost use Rattle.oim_meta.specs.Order.{names_of};
ghost use Rattle.oim_meta.specs.Value.{place_of};

use serde_json::{Map, Value};
use std::alloc::{AllocError, Global};

/// The members of an object, with their names for a binary search.
#[derive(Drop)]
pub(crate) struct Names<'a> {
    pub(crate) members: &'a Map<String, Value>,
    names: Vec<&'a str>,
    ghost same: { map (λ n. n.now) names.items ≡ names_of (members_view members.now.entries) },
}

impl<'a> Names<'a> {
    /// Makes the names of an object's members.
    pub(crate) fn of(
        alloc: Global,
        members: &'a Map<String, Value>,
    ) -> Result<Names<'a>, AllocError>
        ensures { IfOk result (λ made. made.members.now ≡ members.now) }
    {
        let mut names = Vec::with_capacity(alloc, members.len())?;
        for (name, _) in members.iter() {
            names.push(name.as_str())?;
        }
        Ok(Names { members, names })
    }

    /// Returns the place of a name, or the count of members if no member has it.
    pub(crate) fn place(&self, name: &str) -> usize
        ensures { result ≡ place_of name.now (members_view (self.now).members.now.entries) }
    {
        let count = self.members.len();
        match self.names.as_slice().binary_search(&name) {
            Ok(place) => place,
            Err(_) => count,
        }
    }
}
