//! A field that is lent together with the bytes after it.

ghost use Rattle.std.specs.Prelude.{◌≡◌, ◌≤◌, length, take};
ghost use Rattle.std.specs.Str.{IsUtf8};

use std::marker::Model;

/// The text of a field, lent with the bytes after it so that it can be copied in large chunks.
///
/// A contract sees the field's bytes.
#[derive(Drop)]
pub struct FieldText<'a> {
    rest: &'a [u8],
    len: usize,
}

impl<'a> Model for FieldText<'a> {
    ghost use Rattle.std.specs.Prelude.{◌≤◌, length, take};
    ghost use Rattle.std.specs.Str.{IsUtf8};
    ghost use Rattle.oim_records.specs.Grids.{Field};

    ghost Value = { Field };

    ghost view = { λ a. take a.len a.rest.now };

    ghost invariant = { λ a. (a.len ≤ length a.rest.now) × IsUtf8 (take a.len a.rest.now) };
}

impl<'a> FieldText<'a> {
    /// Makes a field of the first `len` bytes of `rest`, which must be text.
    #[inline(always)]
    pub(crate) fn new(rest: &'a [u8], len: usize) -> FieldText<'a>
        requires within { len ≤ length rest.now }
        requires text { IsUtf8 (take len rest.now) }
        ensures { result ≡ take len rest.now }
    {
        FieldText { rest, len }
    }

    /// Returns the field's length in bytes.
    #[inline(always)]
    pub fn len(&self) -> usize
        ensures { result ≡ length self.now }
    {
        self.len
    }

    /// Returns the field's text.
    #[inline(always)]
    pub fn as_str(&self) -> &'a str
        ensures { result.now ≡ self.now }
    {
        unsafe { str::from_utf8_unchecked(&self.rest[..self.len]) }
    }

    /// Returns the field's bytes and the bytes after them. No contract fixes the bytes after the
    /// field, or their number.
    #[inline(always)]
    pub fn rest(&self) -> &'a [u8]
        ensures field { take (length self.now) result.now ≡ self.now }
        ensures within { length self.now ≤ length result.now }
    {
        self.rest
    }
}
