//! What a type, a period and values may be under `type3`.

ghost use Rattle.std.specs.Prelude.{◌≡◌};
ghost use Rattle.oim_names.specs.Lookup.{value_at};
ghost use Rattle.oim_entries.specs.KindWords.{if_empty, kind_words, period_words, simple_words, typed_words, value_words, with_period, with_values};
ghost use Rattle.oim_entries.specs.TypeWords.{kind_by_cells};

use crate::entry_fault::EntryProblem;
use oim_cells::NumberKind;
use oim_report::{Concept, Kind, PeriodType, SimpleType, ValueType};
use oim_schema::{DateForm, IntegerType};

/// Returns the simple type of a word.
fn simple_type(word: &str) -> Option<SimpleType>
    ensures { result ≡ value_at word.now simple_words }
{
    match word {
        "integer" => Some(SimpleType::Number(NumberKind::Integer)),
        "decimal" => Some(SimpleType::Number(NumberKind::Decimal)),
        "double" => Some(SimpleType::Number(NumberKind::Double)),
        "positiveInteger" => Some(SimpleType::Bounded(IntegerType::PositiveInteger)),
        "nonNegativeInteger" => Some(SimpleType::Bounded(IntegerType::NonNegativeInteger)),
        "negativeInteger" => Some(SimpleType::Bounded(IntegerType::NegativeInteger)),
        "nonPositiveInteger" => Some(SimpleType::Bounded(IntegerType::NonPositiveInteger)),
        "long" => Some(SimpleType::Bounded(IntegerType::Long)),
        "int" => Some(SimpleType::Bounded(IntegerType::Int)),
        "short" => Some(SimpleType::Bounded(IntegerType::Short)),
        "byte" => Some(SimpleType::Bounded(IntegerType::Byte)),
        "unsignedLong" => Some(SimpleType::Bounded(IntegerType::UnsignedLong)),
        "unsignedInt" => Some(SimpleType::Bounded(IntegerType::UnsignedInt)),
        "unsignedShort" => Some(SimpleType::Bounded(IntegerType::UnsignedShort)),
        "unsignedByte" => Some(SimpleType::Bounded(IntegerType::UnsignedByte)),
        "boolean" => Some(SimpleType::Boolean),
        "qname" => Some(SimpleType::QName),
        "date" => Some(SimpleType::DateTime(DateForm::Date)),
        "dateTime" => Some(SimpleType::DateTime(DateForm::DateTime)),
        "time" => Some(SimpleType::DateTime(DateForm::Time)),
        "gYear" => Some(SimpleType::DateTime(DateForm::GYear)),
        "gYearMonth" => Some(SimpleType::DateTime(DateForm::GYearMonth)),
        "gMonth" => Some(SimpleType::DateTime(DateForm::GMonth)),
        "gMonthDay" => Some(SimpleType::DateTime(DateForm::GMonthDay)),
        "gDay" => Some(SimpleType::DateTime(DateForm::GDay)),
        "duration" => Some(SimpleType::Duration),
        "language" => Some(SimpleType::Language),
        "NCName" => Some(SimpleType::NcName),
        "hexBinary" => Some(SimpleType::HexBinary),
        _ => None,
    }
}

/// Returns the type of a concept's values.
fn value_type(word: &str) -> Option<ValueType>
    ensures { result ≡ value_at word.now value_words }
{
    match word {
        "monetary" => Some(ValueType::Monetary),
        "shares" => Some(ValueType::Shares),
        "text" => Some(ValueType::Text),
        "enumeration" => Some(ValueType::Enumeration),
        "enumerations" => Some(ValueType::Enumerations),
        "other" => Some(ValueType::Other),
        _ => match simple_type(word) {
            Some(simple) => Some(ValueType::Simple(simple)),
            None => None,
        },
    }
}

/// Returns the kind of a word, before its period and its values are read.
fn word_kind(word: &str) -> Option<Kind>
    ensures { result ≡ value_at word.now kind_words }
{
    match word {
        "explicit" => Some(Kind::Explicit),
        "typed" => Some(Kind::Typed),
        "member" => Some(Kind::Member),
        _ => match value_type(word) {
            Some(value) => Some(Kind::Concept(Concept {
                value,
                period: None,
            })),
            None => None,
        },
    }
}

/// Returns the type of a concept's periods. The empty text is any type.
fn period_type(period: &str) -> Option<Option<PeriodType>>
    ensures { result ≡ value_at period.now period_words }
{
    match period {
        "" => Some(None),
        "instant" => Some(Some(PeriodType::Instant)),
        "duration" => Some(Some(PeriodType::Duration)),
        _ => None,
    }
}

/// Returns the kind of a typed dimension with these values.
fn typed_kind(values: &str) -> Option<Kind>
    ensures { result ≡ value_at values.now typed_words }
{
    match values {
        "" => Some(Kind::Typed),
        _ => match simple_type(values) {
            Some(simple) => Some(Kind::TypedBy(simple)),
            None => None,
        },
    }
}

/// Returns a kind if the cell is empty.
fn if_empty(kind: Kind, cell: &str) -> Option<Kind>
    ensures { result ≡ if_empty kind cell.now }
{
    if cell.is_empty() { Some(kind) } else { None }
}

/// Returns the kind of a word with a period.
fn with_period(kind: Kind, period: &str) -> Option<Kind>
    ensures { result ≡ with_period kind period.now }
{
    match kind {
        Kind::Concept(concept) => match period_type(period) {
            Some(period) => Some(Kind::Concept(Concept {
                value: concept.value,
                period,
            })),
            None => None,
        },
        Kind::Number(_)
        | Kind::Text
        | Kind::Boolean
        | Kind::Date
        | Kind::Name
        | Kind::Other
        | Kind::Explicit
        | Kind::Typed
        | Kind::TypedBy(_)
        | Kind::Member => if_empty(kind, period),
    }
}

/// Returns the kind of a word with values.
fn with_values(kind: Kind, values: &str) -> Option<Kind>
    ensures { result ≡ with_values kind values.now }
{
    match kind {
        Kind::Typed => typed_kind(values),
        Kind::Number(_)
        | Kind::Text
        | Kind::Boolean
        | Kind::Date
        | Kind::Name
        | Kind::Other
        | Kind::Explicit
        | Kind::Concept(_)
        | Kind::TypedBy(_)
        | Kind::Member => if_empty(kind, values),
    }
}

/// Returns the kind of a type, a period and values, or the index of the first bad cell with what is
/// wrong.
pub(crate) fn kind_by_cells(
    word: &str,
    period: &str,
    values: &str,
) -> Result<Kind, (usize, EntryProblem)>
    ensures { result ≡ kind_by_cells word.now period.now values.now }
{
    let Some(of_word) = word_kind(word) else {
        return Err((2, EntryProblem::UnknownType));
    };
    let Some(in_period) = with_period(of_word, period) else {
        return Err((3, EntryProblem::UnknownPeriod));
    };
    match with_values(in_period, values) {
        Some(kind) => Ok(kind),
        None => Err((4, EntryProblem::UnknownValues)),
    }
}
