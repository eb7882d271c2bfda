//! The purpose for which a text is read.

ghost use Rattle.std.specs.Prelude.{◌≡◌, true};

use oim_report::{PeriodType, Side, SimpleType, ValueType};
use oim_resolve::Role;

/// The purpose for which a text is read.
#[derive(Clone, Copy)]
pub enum Purpose {
    /// A dimension, or a side of it.
    Dimension(Role, Side),
    Decimals,
    /// The unit of a fact whose concept has this type of values. It must be one that the concept
    /// wants.
    WantedUnit(ValueType),
    /// A side of the period of a fact whose concept has this type of periods. It must be one that
    /// the concept wants.
    WantedPeriod(PeriodType, Side),
}

/// Returns whether two simple types are the same.
fn is_same_type(first: SimpleType, second: SimpleType) -> bool
    ensures same { result ≡ true → first ≡ second }
    ensures all { first ≡ second → result ≡ true }
{
    first == second
}

/// Returns whether two types of values are the same.
fn is_same_value(first: ValueType, second: ValueType) -> bool
    ensures same { result ≡ true → first ≡ second }
    ensures all { first ≡ second → result ≡ true }
{
    first == second
}

/// Returns whether two types of periods are the same.
fn is_same_period(first: PeriodType, second: PeriodType) -> bool
    ensures same { result ≡ true → first ≡ second }
    ensures all { first ≡ second → result ≡ true }
{
    first == second
}

/// Returns whether two roles are the same.
fn is_same_role(first: Role, second: Role) -> bool
    ensures same { result ≡ true → first ≡ second }
    ensures all { first ≡ second → result ≡ true }
{
    match first {
        Role::Concept => matches!(second, Role::Concept),
        Role::Entity => matches!(second, Role::Entity),
        Role::Period => matches!(second, Role::Period),
        Role::Unit => matches!(second, Role::Unit),
        Role::Language => matches!(second, Role::Language),
        Role::Explicit => matches!(second, Role::Explicit),
        Role::Typed => matches!(second, Role::Typed),
        Role::TypedBy(form) => match second {
            Role::TypedBy(other) => is_same_type(form, other),
            _ => false,
        },
    }
}

/// Returns whether two sides are the same.
pub fn is_same_side(first: Side, second: Side) -> bool
    ensures same { result ≡ true → first ≡ second }
    ensures all { first ≡ second → result ≡ true }
{
    match first {
        Side::Whole => matches!(second, Side::Whole),
        Side::Start => matches!(second, Side::Start),
        Side::End => matches!(second, Side::End),
    }
}

impl Purpose {
    /// Returns whether two purposes are the same.
    pub(crate) fn is_same(self, other: Purpose) -> bool
        ensures same { result ≡ true → self ≡ other }
        ensures all { self ≡ other → result ≡ true }
    {
        match self {
            Purpose::Dimension(role, side) => match other {
                Purpose::Dimension(other_role, other_side) => is_same_role(role, other_role)
                    && is_same_side(side, other_side),
                _ => false,
            },
            Purpose::Decimals => matches!(other, Purpose::Decimals),
            Purpose::WantedUnit(value) => match other {
                Purpose::WantedUnit(other_value) => is_same_value(value, other_value),
                _ => false,
            },
            Purpose::WantedPeriod(period, side) => match other {
                Purpose::WantedPeriod(other_period, other_side) => is_same_period(
                    period,
                    other_period,
                ) && is_same_side(side, other_side),
                _ => false,
            },
        }
    }
}
