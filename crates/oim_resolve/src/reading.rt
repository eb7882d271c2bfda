//! The value of a fact, read from its cell.

ghost use Rattle.std.specs.Prelude.{◌≡◌, IfOk, Ok};
ghost use Rattle.std.specs.List.{list_all};
ghost use Rattle.oim_cells.specs.Cells.{numeral_of, seen_meaning};
ghost use Rattle.oim_report.specs.ReportValue.{ReportValue};
ghost use Rattle.oim_resolve.specs.FactValues.{bounded_given, in_form, member_given, numeral_given, plain, set_read, simple_given, text_given, typed_given, value_given};
ghost use Rattle.oim_resolve.specs.Kinds.{is_known_part as known_part};
ghost use Rattle.oim_resolve.specs.ProgramValues.{seen_reading, seen_value};
ghost use Rattle.oim_schema.specs.Members.{parts_of};

use crate::fact::CellFault;
use crate::forms::has_simple_form;
use crate::kinds::is_known_member;
use oim_cells::{Accuracy, CellMeaning, NumberKind, is_boolean, split_numeral, trimmed};
use oim_names::{Text, qname};
use oim_period::is_date;
use oim_report::{Kind, Report, SimpleType, ValueType};
use oim_schema::{IntegerType, is_bounded_integer, is_member_set, joined_members, next_part};
use std::alloc::{AllocError, Global};

/// The text of a fact's value.
#[derive(Clone, Copy)]
pub enum ValueText<'a> {
    /// This text.
    Plain(&'a str),
    /// The text that `read_set` makes of this one. It may have a fault.
    Set(&'a str),
}

/// What a cell gives its fact.
#[derive(Clone, Copy)]
pub struct FactValue<'a> {
    /// The text of the value, or `None` for nil.
    pub text: Option<ValueText<'a>>,
    /// The accuracy that the suffix of a numeral states.
    pub accuracy: Option<Accuracy>,
}

impl<'a> FactValue<'a> {
    /// Makes a value without accuracy.
    fn plain(text: &'a str) -> FactValue<'a>
        ensures { (report : ReportValue) → seen_value report result ≡ Ok (plain text.now) }
    {
        FactValue {
            text: Some(ValueText::Plain(text)),
            accuracy: None,
        }
    }
}

fn numeral(kind: NumberKind, text: &str) -> Result<FactValue<'_>, CellFault>
    ensures { (report : ReportValue) → seen_reading report result ≡ numeral_given (numeral_of kind text.now) }
{
    match split_numeral(kind, text) {
        Some((numeral, accuracy)) => Ok(FactValue {
            text: Some(ValueText::Plain(numeral)),
            accuracy,
        }),
        None => Err(CellFault::BadNumber),
    }
}

/// Returns the numeral of an integer if its number is within the bounds of a type, else BadNumber.
fn bounded(bounds: IntegerType, text: &str) -> Result<FactValue<'_>, CellFault>
    ensures { (report : ReportValue) → seen_reading report result ≡ bounded_given bounds (numeral_of NumberKind.Integer text.now) }
{
    match split_numeral(NumberKind::Integer, text) {
        Some((numeral, accuracy)) if is_bounded_integer(bounds, numeral) => Ok(FactValue {
            text: Some(ValueText::Plain(numeral)),
            accuracy,
        }),
        _ => Err(CellFault::BadNumber),
    }
}

/// Returns `text` unchanged if it has the form that its kind requires, else BadFactValue.
fn in_form(has_form: bool, text: &str) -> Result<FactValue<'_>, CellFault>
    ensures { (report : ReportValue) → seen_reading report result ≡ in_form has_form text.now }
{
    if has_form {
        Ok(FactValue::plain(text))
    } else {
        Err(CellFault::BadFactValue)
    }
}

/// Returns what a text gives by a simple type.
fn simple_value<'a>(
    report: &Report,
    form: SimpleType,
    text: &'a str,
) -> Result<FactValue<'a>, CellFault>
    ensures { seen_reading report.now result ≡ simple_given report.now form text.now }
{
    match form {
        SimpleType::Number(number) => numeral(number, text),
        SimpleType::Bounded(bounds) => bounded(bounds, text),
        _ => {
            let inner = trimmed(text);
            in_form(has_simple_form(report.namespaces(), form, inner), inner)
        }
    }
}

/// Returns a member if the report knows it, else BadFactValue or UnknownMember.
fn member<'a>(report: &Report, text: &'a str) -> Result<FactValue<'a>, CellFault>
    ensures { seen_reading report.now result ≡ member_given report.now text.now }
{
    if qname(report.namespaces(), text).is_none() {
        Err(CellFault::BadFactValue)
    } else if is_known_member(report, text) {
        Ok(FactValue::plain(text))
    } else {
        Err(CellFault::UnknownMember)
    }
}

/// Returns what a text gives by the type of a concept's values.
fn typed_value<'a>(
    report: &Report,
    value: ValueType,
    text: &'a str,
) -> Result<FactValue<'a>, CellFault>
    ensures { seen_reading report.now result ≡ typed_given report.now value text.now }
{
    match value {
        ValueType::Simple(form) => simple_value(report, form, text),
        ValueType::Monetary | ValueType::Shares => numeral(NumberKind::Decimal, text),
        ValueType::Enumeration => member(report, trimmed(text)),
        ValueType::Enumerations => Ok(FactValue {
            text: Some(ValueText::Set(text)),
            accuracy: None,
        }),
        ValueType::Text | ValueType::Other => Ok(FactValue::plain(text)),
    }
}

fn text_value<'a>(report: &Report, kind: Kind, text: &'a str) -> Result<FactValue<'a>, CellFault>
    ensures { seen_reading report.now result ≡ text_given report.now kind text.now }
{
    match kind {
        Kind::Number(number) => numeral(number, text),
        Kind::Boolean => {
            let inner = trimmed(text);
            in_form(is_boolean(inner), inner)
        }
        Kind::Date => {
            let inner = trimmed(text);
            in_form(is_date(inner), inner)
        }
        Kind::Name => {
            let inner = trimmed(text);
            in_form(qname(report.namespaces(), inner).is_some(), inner)
        }
        Kind::Concept(concept) => typed_value(report, concept.value, text),
        Kind::Text | Kind::Other | Kind::Explicit | Kind::Typed | Kind::TypedBy(_) | Kind::Member =>
            Ok(FactValue::plain(text)),
    }
}

/// Returns what a cell of this meaning gives a fact whose concept has this kind. (xBRL-CSV 1.0,
/// special values and the decimals suffix; XML Schema Part 2, second edition: the lexical forms of
/// the kinds)
///
/// - The cell of a number gives its numeral and the accuracy of its suffix.
/// - The cell of a boolean, a date, a name, a member or another simple type gives its text, trimmed
///   of spaces, tabs, carriage returns and line feeds.
/// - The cell of a set of members gives its text, which `read_set` still has to read.
/// - Any other cell gives its text unchanged.
///
/// `#empty` is read as the empty text. A nil, absent or unknown meaning gives no text, without a
/// fault. It takes no memory.
///
/// - `BadNumber`: the text is not a numeral of the kind, or its number is out of bounds.
/// - `BadFactValue`: the text is not a boolean, not a date (`yyyy-mm-dd`, without time zone), not a
///   QName whose prefix the report declares, or not of the form of the concept's type.
/// - `UnknownMember`: the types table names members, and not this one.
pub fn fact_value<'a>(
    report: &Report,
    kind: Kind,
    meaning: CellMeaning<'a>,
) -> Result<FactValue<'a>, CellFault>
    ensures { seen_reading report.now result ≡ value_given report.now kind (seen_meaning meaning.entry) }
{
    match meaning {
        CellMeaning::Empty => text_value(report, kind, ""),
        CellMeaning::Text(text) => text_value(report, kind, text),
        CellMeaning::Absent | CellMeaning::Nil | CellMeaning::Unknown => Ok(FactValue {
            text: None,
            accuracy: None,
        }),
    }
}

/// Returns whether a part of a set is empty or a known member.
fn is_known_part(report: &Report, part: &str) -> bool
    ensures { result ≡ known_part report.now part.now }
{
    part.is_empty() || is_known_member(report, part)
}

/// Returns whether all parts of a set are known members.
fn are_known(report: &Report, text: &str) -> bool
    ensures { result ≡ list_all (known_part report.now) (parts_of text.now) }
{
    let mut others = text;
    while let Some((part, rest)) = next_part(others) {
        if !is_known_part(report, part) {
            return false;
        }
        others = rest;
    }
    is_known_part(report, others)
}

/// Returns the members that a text names, joined by one space, or the fault of the text.
/// (Extensible Enumerations 2.0)
///
/// The outer error means that memory ran out.
///
/// - `BadFactValue`: the text is not a set of QNames whose prefixes the report declares.
/// - `UnknownMember`: the types table names members, and not one of these.
pub fn read_set(
    alloc: Global,
    report: &Report,
    text: &str,
) -> Result<Result<Text, CellFault>, AllocError>
    ensures { IfOk result (λ r. r ≡ set_read report.now text.now) }
{
    if !is_member_set(alloc, report.namespaces(), text)? {
        return Ok(Err(CellFault::BadFactValue));
    }
    if !are_known(report, text) {
        return Ok(Err(CellFault::UnknownMember));
    }
    Ok(Ok(joined_members(alloc, text)?))
}
