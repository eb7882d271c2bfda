//! Building a dimension's written value.

ghost use Rattle.std.specs.Prelude.{◌≡◌, IfOk, option_map};
ghost use Rattle.oim_cells.specs.Cells.{meaning_of};
ghost use Rattle.oim_meta.specs.Written.{strip_front as front_stripped, strip_back as back_stripped, named as named_of, reference_of, literal_by, written_of};

use oim_cells::{CellMeaning, meaning};
use oim_names::Text;
use oim_report::{Side, Written};
use std::alloc::{AllocError, Global};

pub(crate) fn strip_front<'a>(text: &'a str, front: &str) -> Option<&'a str>
    ensures { option_map (λ x. x.now) result ≡ front_stripped front.now text.now }
{
    text.strip_prefix(front)
}

pub(crate) fn strip_back<'a>(text: &'a str, back: &str) -> Option<&'a str>
    ensures { option_map (λ x. x.now) result ≡ back_stripped back.now text.now }
{
    text.strip_suffix(back)
}

fn named(alloc: Global, name: &str, side: Side) -> Result<Written, AllocError>
    ensures { IfOk result (λ made. made ≡ named_of name.now side) }
{
    if name == "rowNumber" {
        Ok(Written::RowNumber(side))
    } else {
        Ok(Written::Named(Text::from_str(alloc, name)?, side))
    }
}

#[tactic(auto, unfolding(crate::specs::Written::name_and_side))]
fn reference(alloc: Global, key: &str, name: &str) -> Result<Written, AllocError>
    ensures { IfOk result (λ made. made ≡ reference_of key.now name.now) }
{
    if key != "period" {
        return named(alloc, name, Side::Whole);
    }
    if let Some(front) = strip_back(name, "@start") {
        return named(alloc, front, Side::Start);
    }
    match strip_back(name, "@end") {
        Some(front) => named(alloc, front, Side::End),
        None => named(alloc, name, Side::Whole),
    }
}

fn literal(alloc: Global, text: &str) -> Result<Written, AllocError>
    ensures { IfOk result (λ made. made ≡ literal_by (meaning_of text.now)) }
{
    match meaning(text) {
        CellMeaning::Absent | CellMeaning::Unknown => Ok(Written::Absent),
        CellMeaning::Nil => Ok(Written::Nil),
        CellMeaning::Empty => Ok(Written::Empty),
        CellMeaning::Text(text) => Ok(Written::Text(Text::from_str(alloc, text)?)),
    }
}

/// Makes the value that a text writes at a dimension's key.
pub(crate) fn written(alloc: Global, key: &str, text: &str) -> Result<Written, AllocError>
    ensures { IfOk result (λ made. made ≡ written_of key.now text.now) }
{
    let Some(rest) = strip_front(text, "$") else {
        return literal(alloc, text);
    };
    if strip_front(rest, "$").is_some() {
        return Ok(Written::Text(Text::from_str(alloc, rest)?));
    }
    reference(alloc, key, rest)
}
