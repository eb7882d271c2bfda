//! Sets of members.

ghost use Rattle.std.specs.Prelude.{◌≡◌, ◌↔◌, ◌≤◌, ◌<◌, ◌∷◌, [], IfOk, IsTrue, MatchOption, length, not};
ghost use Rattle.std.specs.List.{position_or_len};
ghost use Rattle.oim_cells.specs.Blanks.{is_blank};
ghost use Rattle.oim_names.specs.QName.{qname_of};
ghost use Rattle.oim_schema.specs.Members.{parts_of, is_same_name, names_one, is_part as part_test, are_members as members_test, IsMemberSet, is_member_set as set_test};

use crate::held_members::are_held_members;
use oim_names::{Namespaces, qname};
use std::alloc::{AllocError, Global};

/// Up to this many bytes a set is tested without memory.
const SHORT: usize = 128;

/// Returns whether a byte is not a space, tab, carriage return or line feed.
fn is_no_blank(byte: u8) -> bool
    ensures { result ≡ not (is_blank byte) }
{
    !matches!(byte, b' ' | b'\t' | b'\r' | b'\n')
}

/// Returns the place of the first blank, or the length of the text.
fn blank_place(text: &[u8]) -> usize
    ensures within { result ≤ length text.now }
    ensures place { result ≡ position_or_len is_blank text.now }
{
    text.iter().take_while(|byte| is_no_blank(**byte)).count()
}

/// Returns the texts before and after the first blank, or `None` if there is none.
pub fn next_part(text: &str) -> Option<(&str, &str)>
    ensures { MatchOption result (parts_of text.now ≡ text.now ∷ [])
        (λ r. (parts_of text.now ≡ r.0.now ∷ parts_of r.1.now) × (length r.1.now < length text.now)) }
{
    let place = blank_place(text.as_bytes());
    if place == text.len() {
        return None;
    }
    Some((&text[..place], &text[place + 1..]))
}

/// Returns whether a text is a QName of this URI and local part.
fn is_named(names: &Namespaces, uri: &str, local: &str, text: &str) -> bool
    ensures { result ≡ is_same_name (uri.now, local.now) (qname_of names.now text.now) }
{
    match qname(names, text) {
        Some((other_uri, other_local)) => uri == other_uri && local == other_local,
        None => false,
    }
}

/// Returns whether one of the parts of a text is a QName of this URI and local part.
fn names_again(names: &Namespaces, uri: &str, local: &str, text: &str) -> bool
    ensures { result ≡ names_one names.now (uri.now, local.now) (parts_of text.now) }
{
    let mut others = text;
    while let Some((part, rest)) = next_part(others) {
        if is_named(names, uri, local, part) {
            return true;
        }
        others = rest;
    }
    is_named(names, uri, local, others)
}

/// Returns whether a part is empty, or a QName that no part of `rest` names.
fn is_new(names: &Namespaces, part: &str, rest: &str) -> bool
    ensures { result ≡ part_test names.now part.now (parts_of rest.now) }
{
    if part.is_empty() {
        return true;
    }
    match qname(names, part) {
        Some((uri, local)) => !names_again(names, uri, local, rest),
        None => false,
    }
}

/// Returns whether a part is empty or a QName.
fn is_last(names: &Namespaces, part: &str) -> bool
    ensures { result ≡ part_test names.now part.now [] }
{
    part.is_empty() || qname(names, part).is_some()
}

fn are_members(names: &Namespaces, text: &str) -> bool
    ensures { result ≡ members_test names.now (parts_of text.now) }
{
    let mut others = text;
    while let Some((part, rest)) = next_part(others) {
        if !is_new(names, part, rest) {
            return false;
        }
        others = rest;
    }
    is_last(names, others)
}

/// Returns whether a text is a set of members, by a walk for each member of a short text.
fn is_set(alloc: Global, names: &Namespaces, text: &str) -> Result<bool, AllocError>
    ensures { IfOk result (λ r. r ≡ members_test names.now (parts_of text.now)) }
{
    if text.len() <= SHORT {
        Ok(are_members(names, text))
    } else {
        are_held_members(alloc, names, text)
    }
}

/// Returns whether a text is a set of members (Extensible Enumerations 2.0).
///
/// It is QNames with declared prefixes, with spaces, tabs, carriage returns or line feeds between
/// them and at its ends. No two have the same URI and local part. A text without QNames is the
/// empty set.
///
/// Up to 128 bytes the call takes no memory. A longer text's members are held in order, so its time
/// grows hardly faster than its length.
///
/// # Errors
///
/// Memory ran out.
pub fn is_member_set(alloc: Global, names: &Namespaces, text: &str) -> Result<bool, AllocError>
    ensures means { IfOk result (λ r. IsTrue r ↔ IsMemberSet names.now text.now) }
    ensures value { IfOk result (λ r. r ≡ set_test names.now text.now) }
{
    let answer = is_set(alloc, names, text)?;
    Ok(answer)
}
