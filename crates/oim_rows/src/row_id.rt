//! The identifier of a row, as it is kept.

ghost use Rattle.std.specs.Prelude.{◌≡◌, ◌∷◌, [], IfOk, List, ℕ, nat_eq};
ghost use Rattle.std.specs.Cmp.{partial_equiv_from_equiv};
ghost use Rattle.std.specs.Cmp.Lexicographic.{pointwise, bytes_decides, nat_list_eq_equiv};
ghost use Rattle.std.specs.Str.{bytes_eq};
ghost use Rattle.std.proofs.Common.{ap};

use crate::short::ShortText;
use indexmap::Equivalent;
use std::alloc::{AllocError, Global};
use std::hash::{Hash, Hasher};
use std::marker::Model;

/// The text of an identifier, inside the value or on the heap.
#[derive(Drop)]
enum IdText {
    Short(ShortText),
    Long(String),
}

/// The identifier of a row. A contract sees its bytes.
///
/// Up to 30 bytes are kept in the value itself, so that a short identifier allocates nothing. The
/// hash is not kept: to make it anew costs less than a larger value.
pub struct RowId {
    kept: IdText,
}

// Written by hand so that each place that drops one makes a single call.
impl Drop for RowId {
    fn drop(self) {
        let Self { kept: _ } = self;
    }
}

impl Model for RowId {
    ghost use Rattle.std.specs.Prelude.{List, ℕ};
    ghost use Rattle.oim_rows.specs.state.KeptIds.{bytes_kept};

    ghost Value = { List ℕ };

    ghost view = { λ a. bytes_kept a.kept };
}

/// A text to look up among identifiers. A contract sees its bytes.
#[derive(Drop)]
pub(crate) struct Sought<'a> {
    text: &'a str,
}

impl<'a> Model for Sought<'a> {
    ghost use Rattle.std.specs.Prelude.{List, ℕ};

    ghost Value = { List ℕ };

    ghost view = { λ a. a.text.now };
}

impl<'a> Sought<'a> {
    /// Makes a lookup of `text`.
    #[inline]
    pub(crate) fn new(text: &'a str) -> Sought<'a>
        ensures { result ≡ text.now }
    {
        Sought { text }
    }
}

impl RowId {
    /// Copies a text. A text of up to 30 bytes takes no memory, so it does not fail.
    #[inline(always)]
    pub fn new(alloc: Global, text: &str) -> Result<RowId, AllocError>
        ensures { IfOk result (λ id. id ≡ text.now) }
    {
        match ShortText::of(text) {
            Some(short) => Ok(RowId {
                kept: IdText::Short(short),
            }),
            None => RowId::long(alloc, text),
        }
    }

    /// Copies a text of any length to the heap.
    #[cold]
    #[inline(never)]
    fn long(alloc: Global, text: &str) -> Result<RowId, AllocError>
        ensures { IfOk result (λ id. id ≡ text.now) }
    {
        Ok(RowId {
            kept: IdText::Long(String::from_str(alloc, text)?),
        })
    }

    /// Returns the text.
    #[inline]
    pub fn as_str(&self) -> &str
        ensures { result.now ≡ self.now }
    {
        match &self.kept {
            IdText::Short(text) => text.as_str(),
            IdText::Long(text) => text.as_str(),
        }
    }
}

impl PartialEq for RowId {
    ghost eq = { pointwise nat_eq };

    ghost laws = { partial_equiv_from_equiv nat_list_eq_equiv };

    fn eq(&self, other: &RowId) -> bool {
        self.as_str() == other.as_str()
    }
}

impl Eq for RowId {
    ghost laws = { nat_list_eq_equiv };
}

impl Hash for RowId {
    ghost hash_input = { λ id. id ∷ [] };

    ghost respects_eq = { λ x y h. ap (λ (b : List ℕ). b ∷ []) ((bytes_decides x y).0 h) };

    fn hash<H: Hasher>(&self, state: &mut H) {
        state.write(self.as_str().as_bytes());
    }
}

impl PartialEq for Sought<'_> {
    ghost eq = { pointwise nat_eq };

    ghost laws = { partial_equiv_from_equiv nat_list_eq_equiv };

    fn eq(&self, other: &Self) -> bool {
        self.text == other.text
    }
}

impl Eq for Sought<'_> {
    ghost laws = { nat_list_eq_equiv };
}

impl Hash for Sought<'_> {
    ghost hash_input = { λ id. id ∷ [] };

    ghost respects_eq = { λ x y h. ap (λ (b : List ℕ). b ∷ []) ((bytes_decides x y).0 h) };

    fn hash<H: Hasher>(&self, state: &mut H) {
        state.write(self.text.as_bytes());
    }
}

impl Equivalent<RowId> for &Sought<'_> {
    ghost equivalent = { λ q k. bytes_eq q.now k };

    ghost respects_hash = { λ q k h. ap (λ (b : List ℕ). b ∷ []) ((bytes_decides q.now k).0 h) };

    ghost respects_eq = { λ q x y. nat_list_eq_equiv.congr q.now x y };

    fn equivalent(&self, key: &RowId) -> bool {
        self.text == key.as_str()
    }
}
