//! The types of concepts and dimensions.

ghost use Rattle.std.specs.Prelude.{◌≡◌, ◌||◌, [], IfOk, None};
ghost use Rattle.oim_report.specs.Types.{has_members, is_member, kind_in, with_kind};

use crate::kind::Kind;
use crate::named::Named;
use crate::typed_name::TypedName;
use ghost_value::{Denotes, GhostValue};
use oim_names::Items;
use std::alloc::{AllocError, Global};
use std::marker::Model;

/// The types of concepts and dimensions, which are used instead of the taxonomy (XBRL 2.1, XBRL
/// Dimensions 1.0). Contracts see the records of the types table, in file order.
#[derive(Drop)]
pub struct Types {
    namespaces: Named<Named<Kind>>,
    has_members: bool,
    records: GhostValue<Items<TypedName>>,
}

impl Model for Types {
    ghost use Rattle.oim_report.specs.Types.{TypesValue};
    ghost use Rattle.oim_report.specs.state.Types.{AreKept};

    ghost Value = { TypesValue };

    ghost view = { λ t. t.records.value };

    ghost invariant = { λ t. AreKept t.namespaces t.has_members t.records.value };
}

impl Clone for Types {
    ghost is_clone = { λ v w. w ≡ v };

    fn clone(&self) -> Result<Types, AllocError> {
        Ok(Types {
            namespaces: self.namespaces.clone()?,
            has_members: self.has_members,
            records: self.records.again(),
        })
    }
}

/// The records of some types, and one more.
#[derive(Drop)]
struct OneMoreName<'a> {
    before: &'a GhostValue<Items<TypedName>>,
    uri: &'a str,
    local: &'a str,
    kind: Kind,
}

impl Denotes<Items<TypedName>> for OneMoreName<'_> {
    ghost denoted = { λ t. with_kind t.before.now.value t.uri.now t.local.now t.kind };
}

/// Returns whether a kind is that of a member, or a member is known already.
fn knows_member(known: bool, kind: Kind) -> bool
    ensures { result ≡ (known || is_member kind) }
{
    known || matches!(&kind, Kind::Member)
}

impl Types {
    /// Returns the kind of the concept or dimension with this namespace URI and local part, or
    /// `None` if the table does not name it. Does not search through all names.
    pub fn kind_of(&self, uri: &str, local: &str) -> Option<Kind>
        ensures { result ≡ kind_in self.now uri.now local.now }
    {
        match self.namespaces.get(uri) {
            Some(kinds) => kinds.get(local).copied(),
            None => None,
        }
    }

    /// Returns whether a record names a member of a dictionary.
    pub fn has_members(&self) -> bool
        ensures { result ≡ has_members self.now }
    {
        self.has_members
    }

    /// Makes an empty collection of types. Takes no memory.
    pub fn none(alloc: Global) -> Types
        ensures { result ≡ [] }
    {
        Types {
            namespaces: Named::new(alloc),
            has_members: false,
            records: GhostValue::seen(&Items::new(alloc)),
        }
    }

    /// Returns the types with one more record at the end.
    pub fn with(
        self,
        alloc: Global,
        uri: &str,
        local: &str,
        kind: Kind,
    ) -> Result<Types, AllocError>
        requires { kind_in self uri.now local.now ≡ None }
        ensures { IfOk result (λ more. more ≡ with_kind self uri.now local.now kind) }
    {
        let Types {
            mut namespaces,
            has_members,
            records,
        } = self;
        namespaces.push_under(alloc, uri, local, kind)?;
        let before = &records;
        Ok(Types {
            namespaces,
            has_members: knows_member(has_members, kind),
            records: GhostValue::of(&OneMoreName {
                before,
                uri,
                local,
                kind,
            }),
        })
    }
}
