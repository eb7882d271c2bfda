//! What several levels write: names, dimensions and decimals.

ghost use Rattle.std.specs.Prelude.{◌≡◌, ◌∷◌, ◌++◌, [], map, reverse, true, IfOk, OnOk};
ghost use Rattle.std.specs.List.{All, fold};
ghost use Rattle.std.specs.Option.{option_map};
ghost use Rattle.oim_report.specs.InOrder.{LevelRises};
ghost use Rattle.oim_resolve.specs.Order.{IsAscending};
ghost use Rattle.oim_resolve.specs.ProgramCell.{held};
ghost use Rattle.oim_resolve.specs.Written.{written, written_decimals, put_name, names};

use oim_names::find_in_order;
use oim_report::{Level, Written, WrittenDecimals};
use std::alloc::{AllocError, Global};
use std::cmp::Ordering;

/// Returns what the first level that writes a dimension writes for it.
///
/// The levels go from the most specific to the most general. The dimensions of each are in byte
/// order of name. (xBRL-CSV 1.0, dimensions and property groups)
#[tactic(auto, using(crate::proofs::Overrides::written_reversed))]
pub fn written<'a>(levels: &[&'a Level], name: &str) -> Option<&'a Written>
    requires { All (λ l. LevelRises l.now) levels.now }
    ensures { option_map (λ w. w.now) result ≡ written (reverse (held levels.now)) name.now }
{
    for level in levels {
        if let Some(value) = find_in_order(level.dimensions.as_slice(), name) {
            return Some(value);
        }
    }
    None
}

/// Returns the decimals of the first level that writes them, as `written` does.
#[tactic(auto, using(crate::proofs::Overrides::decimals_reversed))]
pub fn written_decimals<'a>(levels: &[&'a Level]) -> Option<&'a WrittenDecimals>
    ensures { option_map (λ w. w.now) result ≡ written_decimals (reverse (held levels.now)) }
{
    for level in levels {
        if let Some(value) = level.decimals.as_ref() {
            return Some(value);
        }
    }
    None
}

/// Returns true only if `name` follows all of `names` in byte order.
fn is_last<'a>(names: &[&'a str], name: &'a str) -> bool
    requires { IsAscending (held names.now) }
    ensures { result ≡ true → held (names.now ++ name.entry ∷ []) ≡ put_name (held names.now) name.now }
{
    match names {
        [.., last] => *last < name,
        [] => false,
    }
}

/// Inserts a name at its place in byte order, unless it is there already.
///
/// Names often arrive in that order, so the last place is tried first.
fn put_name<'a>(names: &mut Vec<&'a str>, name: &'a str) -> Result<(), AllocError>
    requires { IsAscending (held names.old.items) }
    ensures { OnOk result (held names.new.items ≡ put_name (held names.old.items) name.now) }
{
    if is_last(names.as_slice(), name) {
        return Ok(names.push(name)?);
    }
    match names
        .as_slice()
        .binary_search_by(|other| (*other).cmp(name))
    {
        Ok(_) => Ok(()),
        Err(place) => Ok(names.insert(place, name)?),
    }
}

/// Inserts the names that a level writes.
#[tactic(auto, using(crate::proofs::Ascending::ascending_puts))]
fn put_names<'a>(names: &mut Vec<&'a str>, level: &'a Level) -> Result<(), AllocError>
    requires { IsAscending (held names.old.items) }
    ensures { OnOk result
        (held names.new.items ≡ fold put_name (held names.old.items) (map (λ e. e.0) level.now.dimensions)) }
{
    for (name, _) in level.dimensions.as_slice() {
        put_name(names, name.as_str())?;
    }
    Ok(())
}

/// Returns the names that the levels write, in byte order, each once, by inserting one by one.
#[tactic(auto, using(crate::proofs::Ascending::ascending_names))]
fn inserted_names<'a>(alloc: Global, levels: &[&'a Level]) -> Result<Vec<&'a str>, AllocError>
    ensures { IfOk result (λ v. held v.items ≡ names (reverse (held levels.now))) }
{
    let mut names = Vec::new(alloc);
    for level in levels {
        put_names(&mut names, level)?;
    }
    Ok(names)
}

/// Returns the names of two lists in byte order, each once.
fn merged<'a>(
    alloc: Global,
    first: &[&'a str],
    second: &[&'a str],
) -> Result<Vec<&'a str>, AllocError>
    requires first { IsAscending (held first.now) }
    requires second { IsAscending (held second.now) }
    ensures { IfOk result (λ v. held v.items ≡ fold put_name (held first.now) (held second.now)) }
{
    let room = first.len().saturating_add(second.len());
    let mut names = Vec::with_capacity(alloc, room)?;
    let mut i = 0;
    let mut j = 0;
    while i < first.len() && j < second.len() {
        match first[i].cmp(second[j]) {
            Ordering::Less => {
                names.push(first[i])?;
                i += 1;
            }
            Ordering::Equal => {
                names.push(first[i])?;
                i += 1;
                j += 1;
            }
            Ordering::Greater => {
                names.push(second[j])?;
                j += 1;
            }
        }
    }
    names.extend_from_slice(&first[i..])?;
    names.extend_from_slice(&second[j..])?;
    Ok(names)
}

/// So many names in all are inserted one by one.
const FEW: usize = 64;

/// Returns whether the levels write few names in all.
fn are_few(levels: &[&Level]) -> bool {
    let mut count = 0usize;
    for level in levels {
        count = count.saturating_add(level.dimensions.len());
    }
    count <= FEW
}

/// Returns the names that the levels write, in byte order, each once.
///
/// The time grows with the names of all levels and little more, in whatever order they come.
pub fn names<'a>(alloc: Global, levels: &[&'a Level]) -> Result<Vec<&'a str>, AllocError>
    ensures { IfOk result (λ v. held v.items ≡ names (reverse (held levels.now))) }
{
    if levels.len() < 2 || are_few(levels) {
        return inserted_names(alloc, levels);
    }
    let (specific, general) = levels.split_at(levels.len() / 2);
    let first = names(alloc, specific)?;
    let second = names(alloc, general)?;
    merged(alloc, first.as_slice(), second.as_slice())
}
