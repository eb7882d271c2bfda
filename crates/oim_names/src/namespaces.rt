//! Namespaces: prefixes with their URIs.

ghost use Rattle.std.specs.Prelude.{◌≡◌, ◌↔◌, ◌<◌, [], option_map, length, true, false, OnOk, OnErr, Err, Some, slice_get};
ghost use Rattle.std.specs.List.{prefix_len};
ghost use Rattle.oim_names.specs.Names.{is_ncname as ncname};
ghost use Rattle.oim_names.specs.Fault.{number_of, name_of};
ghost use Rattle.oim_names.specs.Bindings.{AreInOrder, HaveOwnUris, HaveNames, uri_of, has_uri as uri_in, is_bound, is_before, bound, Extends, IsNamespaces};

use crate::is_ncname;
use crate::text::{Items, Text, find_in_order};
use std::alloc::{AllocError, Global};
use std::marker::Model;
use thiserror::Error;

/// Why a prefix cannot be bound to a URI.
#[derive(Clone, Copy, Debug, PartialEq, Eq, Error)]
#[error("{}", self.name())]
pub enum NameFault {
    /// The prefix is not an NCName.
    BadPrefix,
    /// The prefix or the URI is already bound.
    Repeated,
    /// Memory ran out.
    Memory,
}

impl NameFault {
    /// Returns the fault's number: 60 for `BadPrefix`, 61 for `Repeated`, 62 for `Memory`.
    pub fn number(&self) -> u32
        ensures { result ≡ number_of self.now }
    {
        match self {
            NameFault::BadPrefix => 60,
            NameFault::Repeated => 61,
            NameFault::Memory => 62,
        }
    }

    /// Returns the fault's name: `BadPrefix`, `Repeated` or `Memory`.
    pub fn name(&self) -> &'static str
        ensures { result.now ≡ name_of self.now }
    {
        match self {
            NameFault::BadPrefix => "BadPrefix",
            NameFault::Repeated => "Repeated",
            NameFault::Memory => "Memory",
        }
    }

    /// Returns a sentence for people that explains the fault, without a capital and a full stop.
    pub fn explanation(&self) -> &'static str {
        match self {
            NameFault::BadPrefix => "the prefix is not a name without a colon",
            NameFault::Repeated => "the prefix or the URI is already bound",
            NameFault::Memory => "memory ran out",
        }
    }
}

/// The namespaces of a report: prefixes with their URIs (Open Information Model 1.0, namespaces).
///
/// Each prefix and each URI occurs once. A prefix is an NCName (Namespaces in XML 1.0), and a URI
/// is any text. Contracts see the list of prefixes with their URIs, in byte order of prefix.
#[derive(Drop)]
pub struct Namespaces {
    bindings: Items<(Text, Text)>,
    alloc: Global,
}

impl Model for Namespaces {
    ghost use Rattle.oim_names.specs.Bindings.{Bindings, IsNamespaces};

    ghost Value = { Bindings };

    ghost view = { λ n. n.bindings };

    ghost invariant = { λ n. IsNamespaces n.bindings };
}

impl Clone for Namespaces {
    ghost is_clone = { λ v w. w ≡ v };

    fn clone(&self) -> Result<Namespaces, AllocError> {
        Ok(Namespaces {
            bindings: self.bindings.clone()?,
            alloc: self.alloc,
        })
    }
}

/// Returns the count of prefixes that are before `prefix` in byte order.
fn place_of(bindings: &[(Text, Text)], prefix: &str) -> usize
    ensures { result ≡ prefix_len (λ e. is_before e.0 prefix.now) bindings.now }
{
    bindings
        .iter()
        .take_while(|binding| binding.0.as_str() < prefix)
        .count()
}

/// Returns whether a URI is bound to any prefix.
fn any_uri(bindings: &[(Text, Text)], uri: &str) -> bool
    ensures { result ≡ uri_in bindings.now uri.now }
{
    bindings.iter().any(|binding| binding.1.as_str() == uri)
}

impl Namespaces {
    /// Makes namespaces without a prefix. Takes no memory: the allocator is kept for `add`.
    pub fn new(alloc: Global) -> Self
        ensures { result ≡ [] }
    {
        Namespaces {
            bindings: Items::new(alloc),
            alloc,
        }
    }

    /// Makes namespaces from a list of prefixes with their URIs. Takes no memory: the allocator is
    /// kept for `add`.
    pub fn from_bindings(alloc: Global, bindings: Items<(Text, Text)>) -> Self
        requires { IsNamespaces bindings }
        ensures { result ≡ bindings }
    {
        Namespaces { bindings, alloc }
    }

    /// Returns the count of prefixes.
    ///
    /// They are NCNames in strict byte order, and no URI occurs twice.
    pub fn len(&self) -> usize
        ensures count { result ≡ length self.now }
        ensures in_order { AreInOrder self.now }
        ensures own_uris { HaveOwnUris self.now }
        ensures names { HaveNames self.now }
    {
        self.bindings.len()
    }

    /// Returns the URI of a prefix, or `None` if the prefix is not bound.
    pub fn uri(&self, prefix: &str) -> Option<&str>
        ensures { option_map (λ u. u.now) result ≡ uri_of self.now prefix.now }
    {
        match find_in_order(self.bindings.as_slice(), prefix) {
            Some(uri) => Some(uri.as_str()),
            None => None,
        }
    }

    /// Returns the prefix and the URI at index `i`, from 0, in byte order of prefix.
    pub fn at(&self, i: usize) -> (&str, &str)
        requires { i < length self.now }
        ensures { slice_get self.now i ≡ Some (result.0.now, result.1.now) }
    {
        let binding = self.bindings.get(i);
        (binding.0.as_str(), binding.1.as_str())
    }

    /// Binds a prefix to a URI.
    ///
    /// # Errors
    ///
    /// - `BadPrefix`: the prefix is not an NCName.
    /// - `Repeated`, if not `BadPrefix`: the prefix or the URI is already bound.
    /// - `Memory`: memory ran out.
    ///
    /// A call that fails changes nothing.
    pub fn add(&mut self, prefix: &str, uri: &str) -> Result<(), NameFault>
        ensures bad_prefix { (result ≡ Err NameFault.BadPrefix) ↔ (ncname prefix.now ≡ false) }
        ensures repeated { (result ≡ Err NameFault.Repeated) ↔ ((ncname prefix.now ≡ true) × (is_bound self.old prefix.now uri.now ≡ true)) }
        ensures ok { OnOk result (self.new ≡ bound self.old prefix.now uri.now) }
        ensures extends { OnOk result (Extends self.old prefix.now uri.now self.new) }
        ensures err { OnErr result (self.new ≡ self.old) }
    {
        if !is_ncname(prefix) {
            return Err(NameFault::BadPrefix);
        }
        if self.uri(prefix).is_some() || any_uri(self.bindings.as_slice(), uri) {
            return Err(NameFault::Repeated);
        }
        let Ok(key) = Text::from_str(self.alloc, prefix) else {
            return Err(NameFault::Memory);
        };
        let Ok(value) = Text::from_str(self.alloc, uri) else {
            return Err(NameFault::Memory);
        };
        let place = place_of(self.bindings.as_slice(), prefix);
        match self.bindings.insert(place, (key, value)) {
            Ok(_) => Ok(()),
            Err(_) => Err(NameFault::Memory),
        }
    }
}
