//! What the types table says of a name.

ghost use Rattle.std.specs.Prelude.{◌≡◌};
ghost use Rattle.oim_resolve.specs.Facts.{is_numeric as numeric, is_of_text as of_text};
ghost use Rattle.oim_resolve.specs.Kinds.{can_be_member as member_or_concept, concept_type as concept_of, is_known_member as known_member, kind_named, numbers_of as numerals_of};

use oim_cells::NumberKind;
use oim_names::qname;
use oim_report::{Kind, Report, SimpleType, ValueType};

/// Returns the kind of the name that `text`, a declared QName, refers to.
pub(crate) fn kind_of_name(report: &Report, text: &str) -> Option<Kind>
    ensures { result ≡ kind_named report.now text.now }
{
    match qname(report.namespaces(), text) {
        Some((uri, local)) => report.kind_of(uri, local),
        None => None,
    }
}

/// Returns the kind if it is that of a concept.
pub(crate) fn concept_type(kind: Kind) -> Option<Kind>
    ensures { result ≡ concept_of kind }
{
    match kind {
        Kind::Number(_)
        | Kind::Text
        | Kind::Boolean
        | Kind::Date
        | Kind::Name
        | Kind::Other
        | Kind::Concept(_) => Some(kind),
        Kind::Explicit | Kind::Typed | Kind::TypedBy(_) | Kind::Member => None,
    }
}

/// Returns the kind of the numerals of a numeric concept.
pub(crate) fn numbers_of(kind: Kind) -> Option<NumberKind>
    ensures { result ≡ numerals_of kind }
{
    match kind {
        Kind::Number(number) => Some(number),
        Kind::Concept(concept) => match concept.value {
            ValueType::Simple(SimpleType::Number(number)) => Some(number),
            ValueType::Simple(SimpleType::Bounded(_)) => Some(NumberKind::Integer),
            ValueType::Monetary | ValueType::Shares => Some(NumberKind::Decimal),
            _ => None,
        },
        _ => None,
    }
}

pub(crate) fn is_numeric(kind: Kind) -> bool
    ensures { result ≡ numeric kind }
{
    numbers_of(kind).is_some()
}

/// Returns whether a kind is that of a concept of texts.
pub(crate) fn is_of_text(kind: Kind) -> bool
    ensures { result ≡ of_text kind }
{
    match kind {
        Kind::Text => true,
        Kind::Concept(concept) => matches!(&concept.value, ValueType::Text),
        _ => false,
    }
}

/// Returns whether a kind is that of a member or of a concept.
fn can_be_member(kind: Kind) -> bool
    ensures { result ≡ member_or_concept kind }
{
    matches!(&kind, Kind::Member) || concept_type(kind).is_some()
}

/// Returns whether the types table names a text a member or a concept, or names no member at all.
/// (XBRL Dimensions 1.0: a concept may be a member)
pub fn is_known_member(report: &Report, text: &str) -> bool
    ensures { result ≡ known_member report.now text.now }
{
    if !report.has_members() {
        return true;
    }
    match kind_of_name(report, text) {
        Some(kind) => can_be_member(kind),
        None => false,
    }
}
