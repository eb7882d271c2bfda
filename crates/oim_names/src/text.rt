//! Texts and lists. Contracts see a text as its bytes, and a list as its items.

ghost use Rattle.std.specs.Prelude.{bytes_eq, ◌==◌, ◌≡◌, ◌++◌, ◌∷◌, [], ◌<◌, ◌≤◌, length, Some, IfOk, is_ok, if◌then◌else◌, slice_get};
ghost use Rattle.std.specs.List.{insert as inserted};
ghost use Rattle.std.specs.Option.{option_map};
ghost use Rattle.std.specs.String.{string_bytes};
ghost use Rattle.std.specs.Cmp.{on_per, partial_equiv_from_equiv};
ghost use Rattle.std.specs.Cmp.Lexicographic.{nat_list_eq_equiv, slice_cmp};
ghost use Rattle.std.specs.List.Sorted.{IsStrictlySortedBy};
ghost use Rattle.std.specs.Map.{keys_of};
ghost use Rattle.std.specs.Ordering.{nat_cmp};
ghost use Rattle.oim_names.specs.Items.{GoesOver};
ghost use Rattle.oim_names.specs.Lookup.{value_at};

use std::alloc::{AllocError, AllocFailed, Global};
use std::marker::Model;
use std::ops::Index;
use std::slice;
use std::sync::ArcStr;

/// The bytes of a text: in its own string, or shared with its copies.
#[derive(Drop)]
enum Body {
    Alone(String),
    Shared(ArcStr),
}

/// A text. Contracts see its bytes.
pub struct Text {
    body: Body,
}

// Written by hand, so that a drop in another crate is one call.
impl Drop for Text {
    fn drop(self) {
        let Self { body: _ } = self;
    }
}

impl Model for Text {
    ghost use Rattle.std.specs.Prelude.{ℕ, List};
    ghost use Rattle.oim_names.specs.state.Texts.{bytes_in};

    ghost Value = { List ℕ };

    ghost view = { λ a. bytes_in a.body };
}

impl Text {
    /// Makes a text from a string without a copy.
    pub fn new(string: String) -> Text
        ensures { result ≡ string_bytes string }
    {
        Text {
            body: Body::Alone(string),
        }
    }

    /// Copies a text.
    pub fn from_str(alloc: Global, text: &str) -> Result<Text, AllocError>
        ensures { IfOk result (λ t. t ≡ text.now) }
    {
        Ok(Text::new(String::from_str(alloc, text)?))
    }

    /// Shares the text's bytes, so that a clone does not copy them.
    pub fn share(self) -> Result<Text, AllocError>
        ensures { IfOk result (λ t. t ≡ self) }
    {
        let Self { body } = self;
        match body {
            Body::Alone(string) => Ok(Text {
                body: Body::Shared(ArcStr::from_string(string)?),
            }),
            Body::Shared(text) => Ok(Text {
                body: Body::Shared(text),
            }),
        }
    }

    /// Lends the text.
    pub fn as_str(&self) -> &str
        ensures { result.now ≡ self.now }
    {
        match &self.body {
            Body::Alone(string) => string.as_str(),
            Body::Shared(text) => text.as_str(),
        }
    }
}

impl Clone for Text {
    ghost is_clone = { λ v w. w ≡ v };

    fn clone(&self) -> Result<Text, AllocError> {
        match &self.body {
            Body::Alone(string) => Ok(Text {
                body: Body::Alone(string.clone()?),
            }),
            Body::Shared(text) => Ok(Text {
                body: Body::Shared(text.clone()?),
            }),
        }
    }
}

/// A list. Contracts see its items.
#[derive(Clone)]
pub struct Items<T> {
    items: Vec<T>,
}

// Written by hand, so that a drop in another crate is one call.
impl<T: Drop> Drop for Items<T> {
    fn drop(self) {
        let Self { items: _ } = self;
    }
}

impl<T> Model for Items<T> {
    ghost use Rattle.std.specs.Prelude.{List};

    ghost Value = { List T };

    ghost view = { λ a. a.items.items };
}

impl<T> Items<T> {
    /// Makes an empty list. Takes no memory: the allocator is kept for `push` and `insert`.
    pub fn new(alloc: Global) -> Items<T>
        ensures { result ≡ [] }
    {
        Items {
            items: Vec::new(alloc),
        }
    }

    /// Makes a list from a vector without a copy.
    pub fn from_vec(items: Vec<T>) -> Items<T>
        ensures { result ≡ items.items }
    {
        Items { items }
    }

    /// Returns the items as a vector without a copy.
    pub fn into_vec(self) -> Vec<T>
        ensures { result.items ≡ self }
    {
        let Self { items } = self;
        items
    }

    /// Appends an item.
    ///
    /// If memory runs out, the list is unchanged and the error has the item.
    pub fn push(&mut self, item: T) -> Result<(), AllocFailed<T>>
        ensures { self.new ≡ (if is_ok result then self.old ++ item ∷ [] else self.old) }
    {
        self.items.push(item)
    }

    /// Inserts an item at index `place`, from 0. Later items move up by one.
    ///
    /// If memory runs out, the list is unchanged and the error has the item.
    pub fn insert(&mut self, place: usize, item: T) -> Result<(), AllocFailed<T>>
        requires { place ≤ length self.old }
        ensures { self.new ≡ (if is_ok result then inserted self.old place item else self.old) }
    {
        self.items.insert(place, item)
    }

    /// Returns the count of items.
    pub fn len(&self) -> usize
        ensures { result ≡ length self.now }
    {
        self.items.len()
    }

    /// Returns the item at index `i`, from 0.
    pub fn get(&self, i: usize) -> &T
        requires { i < length self.now }
        ensures { slice_get self.now i ≡ Some result.now }
    {
        &self.items[i]
    }

    /// Returns whether the list is empty.
    pub fn is_empty(&self) -> bool
        ensures { result ≡ (length self.now == 0) }
    {
        self.items.is_empty()
    }

    /// Returns an iterator over the items.
    pub fn iter(&self) -> slice::Iter<'_, T>
        ensures { GoesOver self.now result }
    {
        self.items.as_slice().iter()
    }

    /// Lends the items.
    pub fn as_slice(&self) -> &[T]
        ensures { result.now ≡ self.now }
    {
        self.items.as_slice()
    }
}

impl<'a, T> IntoIterator for &'a Items<T> {
    type Item = &'a T;

    type IntoIter = slice::Iter<'a, T>;

    ghost into_iter_gives = { λ v it. GoesOver v.now it };

    fn into_iter(self) -> slice::Iter<'a, T> {
        self.as_slice().iter()
    }
}

impl<T> Index<usize> for Items<T> {
    type Output = T;

    ghost can_index = { λ v i. i < length v };

    ghost index_gives = { λ v i x. slice_get v i ≡ Some x };

    fn index(&self, i: usize) -> &T {
        self.get(i)
    }
}

impl<T> From<Vec<T>> for Items<T> {
    ghost from_gives = { λ v made. made ≡ v.items };

    fn from(items: Vec<T>) -> Items<T> {
        Items { items }
    }
}

impl From<String> for Text {
    ghost from_gives = { λ s made. made ≡ string_bytes s };

    fn from(string: String) -> Text {
        Text::new(string)
    }
}

impl PartialEq for Text {
    ghost eq = { λ v w. bytes_eq v w };

    ghost laws = { on_per (λ v. v) (partial_equiv_from_equiv nat_list_eq_equiv) };

    fn eq(&self, other: &Self) -> bool {
        self.as_str() == other.as_str()
    }
}

/// Returns the value of a name in a list of names with values, or `None` if the list does not have
/// it.
///
/// If the name occurs more than once, it is the first value.
pub fn find<'a, V>(entries: &'a [(Text, V)], name: &str) -> Option<&'a V>
    ensures { option_map (λ v. v.now) result ≡ value_at name.now entries.now }
{
    for (key, value) in entries {
        if key.as_str() == name {
            return Some(value);
        }
    }
    None
}

/// Up to this many items a walk is used instead of a binary search.
const SHORT: usize = 8;

/// Returns the value of a name in a list whose names are in strict byte order, or `None` if the
/// list does not have it.
///
/// Uses a binary search if the list has more than eight names.
pub fn find_in_order<'a, V>(entries: &'a [(Text, V)], name: &str) -> Option<&'a V>
    requires { IsStrictlySortedBy (slice_cmp nat_cmp) (keys_of entries.now) }
    ensures { option_map (λ v. v.now) result ≡ value_at name.now entries.now }
{
    if entries.len() <= SHORT {
        return find(entries, name);
    }
    match entries.binary_search_by(|entry| entry.0.as_str().cmp(name)) {
        Ok(place) => Some(&entries[place].1),
        Err(_) => None,
    }
}
