//! Comparison of the kinds of concepts.
//!
//! With the derived `==`: `wide` +5.2 %, `positions` +2.9 %, `ids` +2.4 %, `mixed` +2.0 %.

ghost use Rattle.std.specs.Prelude.{◌≡◌, true};

use oim_cells::NumberKind;
use oim_report::{Concept, Kind, PeriodType, ValueType};

/// Returns whether two kinds of numbers are the same.
#[inline(always)]
fn is_same_number(first: NumberKind, second: NumberKind) -> bool
    ensures { result ≡ true → first ≡ second }
{
    first == second
}

/// Returns whether two types of values are the same.
fn is_same_value(first: ValueType, second: ValueType) -> bool
    ensures { result ≡ true → first ≡ second }
{
    first == second
}

/// Returns whether two types of periods are the same, or both are missing.
fn is_same_period(first: Option<PeriodType>, second: Option<PeriodType>) -> bool
    ensures { result ≡ true → first ≡ second }
{
    match (first, second) {
        (None, None) => true,
        (Some(PeriodType::Instant), Some(PeriodType::Instant)) => true,
        (Some(PeriodType::Duration), Some(PeriodType::Duration)) => true,
        _ => false,
    }
}

/// Returns whether two concepts have the same types.
#[inline(never)]
#[tactic(auto, using(crate::proofs::ValueFormLaws::same_concept))]
fn is_same_concept(first: Concept, second: Concept) -> bool
    ensures { result ≡ true → first ≡ second }
{
    is_same_value(first.value, second.value) && is_same_period(first.period, second.period)
}

/// Returns true only if two kinds are the same. Kinds that no concept has are not compared.
#[inline(always)]
fn is_same(first: Kind, second: Kind) -> bool
    ensures { result ≡ true → first ≡ second }
{
    match (first, second) {
        (Kind::Number(number), Kind::Number(other)) => is_same_number(number, other),
        (Kind::Text, Kind::Text) => true,
        (Kind::Boolean, Kind::Boolean) => true,
        (Kind::Date, Kind::Date) => true,
        (Kind::Name, Kind::Name) => true,
        (Kind::Other, Kind::Other) => true,
        (Kind::Concept(concept), Kind::Concept(other)) => is_same_concept(concept, other),
        _ => false,
    }
}

/// Returns true only if two frames are for the same kind, or both for none.
#[inline(always)]
pub(crate) fn is_same_kind(first: Option<Kind>, second: Option<Kind>) -> bool
    ensures { result ≡ true → first ≡ second }
{
    match (first, second) {
        (None, None) => true,
        (Some(kind), Some(other)) => is_same(kind, other),
        _ => false,
    }
}
