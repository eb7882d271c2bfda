//! The value of one dimension of a fact.

ghost use Rattle.std.specs.Prelude.{◌≡◌, ◌⊎◌, IfErr, IfOk, IsOk, Some, Ok, Err, true, if◌then◌else◌};
ghost use Rattle.std.specs.Option.{option_map};
ghost use Rattle.oim_period.specs.Reads.{reading_of};
ghost use Rattle.oim_cells.specs.Cells.{seen_meaning, Text as a_text};
ghost use Rattle.oim_report.specs.declared.data.Side.TheVariants as side;
ghost use Rattle.oim_resolve.specs.declared.role.Role.TheVariants as role;
ghost use Rattle.oim_resolve.specs.Facts.{sided, value_read};

use crate::fact::CellFault;
use crate::forms::has_simple_form;
use crate::kinds::is_known_member;
use crate::role::Role;
use oim_cells::{CellMeaning, trimmed};
use oim_names::{Text, UnitKind, language, qname, sqname, unit};
use oim_period::{Period, read};
use oim_report::{Report, Side, SimpleType};
use std::alloc::{AllocError, Global};

/// What a dimension gives a fact: nothing, nil (`Some(None)`), or a text.
pub type Entry = Option<Option<Text>>;

/// Returns the side of a period, or `None` if a side of an instant is asked for.
pub(crate) fn sided(side: Side, period: Period) -> Option<Period>
    ensures { option_map reading_of result ≡ sided side (reading_of period) }
{
    match side {
        Side::Whole => Some(period),
        Side::Start => period.start_instant(),
        Side::End => period.end_instant(),
    }
}

fn read_period(
    alloc: Global,
    report: &Report,
    side: Side,
    text: &str,
) -> Result<Result<Entry, CellFault>, AllocError>
    ensures value { IfOk result (λ r. r ≡ value_read report.now role.Period side (a_text text.now)) }
    ensures early { IfErr result (λ _. IsOk (value_read report.now role.Period side (a_text text.now))) }
{
    let Some(period) = read(text) else {
        return Ok(Err(CellFault::BadPeriod));
    };
    match sided(side, period) {
        Some(period) => Ok(Ok(Some(Some(Text::new(period.text(alloc)?))))),
        None => Ok(Err(CellFault::NotDuration)),
    }
}

/// Returns `text` unchanged if it has the form that its dimension requires, else BadValue.
fn taken(alloc: Global, has_form: bool, text: &str) -> Result<Result<Entry, CellFault>, AllocError>
    ensures value { IfOk result (λ r. r ≡ if has_form then Ok (Some (Some text.now)) else Err CellFault.BadValue) }
    ensures early { IfErr result (λ _. has_form ≡ true) }
{
    if has_form {
        Ok(Ok(Some(Some(Text::from_str(alloc, text)?))))
    } else {
        Ok(Err(CellFault::BadValue))
    }
}

/// Reads the member of an explicit dimension.
fn read_member(
    alloc: Global,
    report: &Report,
    text: &str,
) -> Result<Result<Entry, CellFault>, AllocError>
    ensures value { IfOk result (λ r. r ≡ value_read report.now role.Explicit side.Whole (a_text text.now)) }
    ensures early { IfErr result (λ _. IsOk (value_read report.now role.Explicit side.Whole (a_text text.now))) }
{
    if qname(report.namespaces(), text).is_none() {
        return Ok(Err(CellFault::BadValue));
    }
    if !is_known_member(report, text) {
        return Ok(Err(CellFault::UnknownMember));
    }
    Ok(Ok(Some(Some(Text::from_str(alloc, text)?))))
}

/// Reads the value of a typed dimension of a simple type.
fn read_simple(
    alloc: Global,
    report: &Report,
    form: SimpleType,
    text: &str,
) -> Result<Result<Entry, CellFault>, AllocError>
    ensures value { IfOk result (λ r. r ≡ value_read report.now (role.TypedBy form) side.Whole (a_text text.now)) }
    ensures early { IfErr result (λ _. IsOk (value_read report.now (role.TypedBy form) side.Whole (a_text text.now))) }
{
    let inner = trimmed(text);
    taken(
        alloc,
        has_simple_form(report.namespaces(), form, inner),
        inner,
    )
}

fn read_text(
    alloc: Global,
    report: &Report,
    role: Role,
    side: Side,
    text: &str,
) -> Result<Result<Entry, CellFault>, AllocError>
    ensures value { IfOk result (λ r. r ≡ value_read report.now role side (a_text text.now)) }
    ensures early { IfErr result (λ _. (role ≡ Role.Language) ⊎ IsOk (value_read report.now role side (a_text text.now))) }
{
    let namespaces = report.namespaces();
    match role {
        Role::Period => read_period(alloc, report, side, text),
        Role::Language => match language(alloc, text)? {
            Some(language) => Ok(Ok(Some(Some(Text::new(language))))),
            None => Ok(Err(CellFault::BadValue)),
        },
        Role::Unit => match unit(namespaces, text) {
            Some(UnitKind::Pure) => Ok(Ok(None)),
            Some(UnitKind::Written) => taken(alloc, true, text),
            None => taken(alloc, false, text),
        },
        Role::Entity => taken(alloc, sqname(namespaces, text).is_some(), text),
        Role::Explicit => read_member(alloc, report, text),
        Role::TypedBy(form) => read_simple(alloc, report, form, text),
        Role::Concept | Role::Typed => taken(alloc, true, text),
    }
}

/// Reads the value of a dimension that is not dropped.
///
/// Returns what it gives a fact, or the least fault of the value. An absent value and a pure unit
/// give nothing. A period gives the written form of its side, a language its text in lower case, a
/// typed value of a simple type its text, trimmed of blanks, and any other value its text.
/// (xBRL-CSV 1.0, dimensions; Open Information Model 1.0)
///
/// The outer error means that memory ran out. The value then has no fault, unless it is a language.
///
/// - `UnknownSpecial`: it begins with a single `#` and is not a special value.
/// - `BadReference`: it is nil or empty, and the dimension is not typed.
/// - `BadValue`: an entity, a unit, a language, an explicit member or a typed value of a simple
///   type is not well-formed.
/// - `BadPeriod`: a period is not well-formed.
/// - `NotDuration`: the start or the end of an instant is asked for.
/// - `UnknownMember`: the types table names members, and not this one.
pub fn read_value(
    alloc: Global,
    report: &Report,
    role: Role,
    side: Side,
    value: CellMeaning<'_>,
) -> Result<Result<Entry, CellFault>, AllocError>
    ensures value { IfOk result (λ r. r ≡ value_read report.now role side (seen_meaning value.entry)) }
    ensures early { IfErr result (λ _. (role ≡ Role.Language) ⊎ IsOk (value_read report.now role side (seen_meaning value.entry))) }
{
    match value {
        CellMeaning::Absent => Ok(Ok(None)),
        CellMeaning::Unknown => Ok(Err(CellFault::UnknownSpecial)),
        CellMeaning::Text(text) => read_text(alloc, report, role, side, text),
        CellMeaning::Nil => match role {
            Role::Typed | Role::TypedBy(_) => Ok(Ok(Some(None))),
            _ => Ok(Err(CellFault::BadReference)),
        },
        CellMeaning::Empty => match role {
            Role::Typed => Ok(Ok(Some(Some(Text::from_str(alloc, "")?)))),
            Role::TypedBy(form) => read_simple(alloc, report, form, ""),
            _ => Ok(Err(CellFault::BadReference)),
        },
    }
}
