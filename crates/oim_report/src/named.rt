//! Values by name, found without a search through all of them.

ghost use Rattle.std.specs.Prelude.{◌≡◌, ◌++◌, ◌==◌, ◌∷◌, [], List, ℕ, OnErr, OnOk, None, length};
ghost use Rattle.std.specs.Option.{option_map};
ghost use Rattle.std.specs.String.{string_bytes};
ghost use Rattle.std.specs.BTreeMap.{get_by_text};
ghost use Rattle.oim_report.specs.state.Named.{ExtendsUnder, copied, found_more, value_under, with_value};
ghost use Rattle.oim_names.specs.Lookup.{value_at};

use ghost_value::{Denotes, GhostValue};
use oim_names::{Items, Text};
use std::alloc::{AllocError, Global};
use std::collections::BTreeMap;
use std::marker::Model;

/// Values by name. Each name occurs once. Contracts see them in the order in which they were added.
///
/// The values are kept by the byte order of their names, so a look-up costs no more with names that
/// a stranger chose.
#[derive(Drop)]
pub struct Named<V> {
    values: BTreeMap<String, V>,
    added: GhostValue<Items<(Text, V)>>,
}

impl<V> Model for Named<V> {
    ghost use Rattle.std.specs.Prelude.{List, ℕ};
    ghost use Rattle.std.specs.BTreeMap.{get_by_text};
    ghost use Rattle.oim_report.specs.state.Named.{AreFound};

    ghost Value = { List (List ℕ × V) };

    ghost view = { λ a. a.added.value };

    ghost invariant = { λ a. AreFound (get_by_text a.values) a.added.value };
}

/// No values.
#[derive(Drop)]
struct NoValues;

impl<V> Denotes<Items<(Text, V)>> for NoValues {
    ghost denoted = { λ _. [] };
}

/// Some values by name, and one more.
#[derive(Drop)]
struct OneMoreValue<'a, V> {
    before: &'a GhostValue<Items<(Text, V)>>,
    name: &'a str,
    value: &'a V,
}

impl<V> Denotes<Items<(Text, V)>> for OneMoreValue<'_, V> {
    ghost denoted = { λ m. m.before.now.value ++ (m.name.now, m.value.now) ∷ [] };
}

/// Some values by name, of which one has changed.
#[derive(Drop)]
struct OtherValue<'a, V> {
    before: &'a GhostValue<Items<(Text, V)>>,
    name: &'a str,
    value: &'a V,
}

impl<V> Denotes<Items<(Text, V)>> for OtherValue<'_, V> {
    ghost denoted = { λ o. with_value o.before.now.value o.name.now o.value.now };
}

/// Copies of some values, with the values' names in the same order.
#[derive(Drop)]
struct Copied<'a, V> {
    before: &'a GhostValue<Items<(Text, V)>>,
    values: &'a BTreeMap<String, V>,
}

impl<V> Denotes<Items<(Text, V)>> for Copied<'_, V> {
    ghost denoted = { λ c. copied (get_by_text c.values.now) c.before.now.value };
}

/// Adds a value to a map, or replaces the value of its name.
fn insert<V: Drop>(
    values: &mut BTreeMap<String, V>,
    name: String,
    value: V,
) -> Result<(), AllocError>
    ensures more { OnOk result ((n : List ℕ) → get_by_text values.new n ≡ found_more (get_by_text values.old) (string_bytes name) value n) }
    ensures same { OnErr result ((n : List ℕ) → get_by_text values.new n ≡ get_by_text values.old n) }
{
    match values.insert(name, value) {
        Ok(_) => Ok(()),
        Err(_) => Err(AllocError),
    }
}

impl<V> Named<V> {
    /// Makes an empty collection. Takes no memory.
    pub fn new(alloc: Global) -> Named<V>
        ensures { result ≡ [] }
    {
        Named {
            values: BTreeMap::new(alloc),
            added: GhostValue::of(&NoValues),
        }
    }

    /// Returns whether there are no values.
    pub fn is_empty(&self) -> bool
        ensures { result ≡ (length self.now == 0) }
    {
        self.values.len() == 0
    }

    /// Returns the value of a name.
    pub fn get(&self, name: &str) -> Option<&V>
        ensures { option_map (λ v. v.now) result ≡ value_at name.now self.now }
    {
        self.values.get(name)
    }

    /// Appends a value.
    pub fn push(&mut self, name: String, value: V) -> Result<(), AllocError>
    where
        V: Drop,
        requires { value_at (string_bytes name) self.old ≡ None }
        ensures { OnOk result (self.new ≡ self.old ++ (string_bytes name, value) ∷ []) }
    {
        let added = GhostValue::of(&OneMoreValue {
            before: &self.added,
            name: name.as_str(),
            value: &value,
        });
        insert(&mut self.values, name, value)?;
        self.added = added;
        Ok(())
    }
}

impl<V: Clone> Clone for Named<V> {
    ghost use Rattle.std.specs.Prelude.{◌≡◌};
    ghost use Rattle.std.specs.List.{AllZip};

    ghost is_clone = { λ v w. AllZip (λ p q. (q.0 ≡ p.0) × V.is_clone p.1 q.1) v w };

    fn clone(&self) -> Result<Named<V>, AllocError> {
        let values = self.values.clone()?;
        let added = GhostValue::of(&Copied {
            before: &self.added,
            values: &values,
        });
        Ok(Named { values, added })
    }
}

impl<V> Named<Named<V>> {
    /// Adds a value under a name in a new group.
    fn push_group(
        &mut self,
        alloc: Global,
        group: &str,
        name: String,
        value: V,
    ) -> Result<(), AllocError>
    where
        V: Drop,
        requires { value_at group.now self.old ≡ None }
        ensures { OnOk result (self.new ≡ self.old ++ (group.now, (string_bytes name, value) ∷ []) ∷ []) }
    {
        let mut values = Named::new(alloc);
        values.push(name, value)?;
        self.push(String::from_str(alloc, group)?, values)
    }

    /// Adds a value under a name in a group, which is made if it does not exist.
    pub(crate) fn push_under(
        &mut self,
        alloc: Global,
        group: &str,
        name: &str,
        value: V,
    ) -> Result<(), AllocError>
    where
        V: Drop,
        requires { value_under self.old group.now name.now ≡ None }
        ensures { OnOk result (ExtendsUnder self.old group.now name.now value self.new) }
    {
        let name = String::from_str(alloc, name)?;
        let Some(values) = self.values.get_mut(group) else {
            return self.push_group(alloc, group, name, value);
        };
        let pushed = values.push(name, value);
        self.added = GhostValue::of(&OtherValue {
            before: &self.added,
            name: group,
            value: &*values,
        });
        pushed
    }
}
