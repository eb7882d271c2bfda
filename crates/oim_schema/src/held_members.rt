//! Sets of members that are held in order, so that long texts take no search for each member.

ghost use Rattle.std.specs.Prelude.{◌≡◌, IfOk, true};
ghost use Rattle.oim_names.specs.QName.{Name};
ghost use Rattle.oim_schema.specs.Members.{are_members, parts_of};
ghost use Rattle.oim_schema.specs.state.HeldMembers.{holds, holds_after, is_unheld};

use crate::members::next_part;
use oim_names::{Namespaces, qname};
use std::alloc::{AllocError, Global};
use std::collections::BTreeSet;

/// Adds the member of a part, and returns whether the part is empty or a QName of a new member.
fn hold<'a>(
    names: &'a Namespaces,
    members: &mut BTreeSet<(&'a str, &'a str)>,
    part: &'a str,
) -> Result<bool, AllocError>
    ensures new { IfOk result (λ new. new ≡ is_unheld names.now (holds members.old) part.now) }
    ensures held { IfOk result (λ new. new ≡ true → (name : Name) → holds members.new name ≡ holds_after names.now (holds members.old) part.now name) }
{
    if part.is_empty() {
        return Ok(true);
    }
    let Some((uri, local)) = qname(names, part) else {
        return Ok(false);
    };
    match members.insert((local, uri)) {
        Ok(added) => Ok(added),
        Err(_) => Err(AllocError),
    }
}

/// Returns whether a text is a set of members. Its time grows as that of a sort of the members.
pub(crate) fn are_held_members(
    alloc: Global,
    names: &Namespaces,
    text: &str,
) -> Result<bool, AllocError>
    ensures { IfOk result (λ r. r ≡ are_members names.now (parts_of text.now)) }
{
    let mut members = BTreeSet::new(alloc);
    let mut others = text;
    while let Some((part, rest)) = next_part(others) {
        if !hold(names, &mut members, part)? {
            return Ok(false);
        }
        others = rest;
    }
    hold(names, &mut members, others)
}
