//! The forms of simple types.

ghost use Rattle.std.specs.Prelude.{◌≡◌};
ghost use Rattle.oim_cells.specs.Cells.{numeral_of};
ghost use Rattle.oim_resolve.specs.SimpleForms.{has_simple_form as simple_form, is_bare};

use crate::language::is_language;
use oim_cells::{NumberKind, is_boolean, split_numeral};
use oim_names::{Namespaces, is_ncname, qname};
use oim_report::SimpleType;
use oim_schema::{is_bounded_integer, is_date_form, is_duration, is_hex_binary};

/// Returns whether a text is a numeral without a suffix.
fn is_bare_numeral(kind: NumberKind, text: &str) -> bool
    ensures { result ≡ is_bare (numeral_of kind text.now) }
{
    match split_numeral(kind, text) {
        Some((_, suffix)) => suffix.is_none(),
        None => false,
    }
}

/// Returns whether a text that is trimmed of blanks has the form of a type. (XML Schema Part 2,
/// second edition: the lexical space of each type)
pub(crate) fn has_simple_form(names: &Namespaces, form: SimpleType, text: &str) -> bool
    ensures { result ≡ simple_form names.now form text.now }
{
    match form {
        SimpleType::Number(kind) => is_bare_numeral(kind, text),
        SimpleType::Bounded(bounds) => is_bounded_integer(bounds, text),
        SimpleType::Boolean => is_boolean(text),
        SimpleType::QName => qname(names, text).is_some(),
        SimpleType::DateTime(form) => is_date_form(form, text),
        SimpleType::Duration => is_duration(text),
        SimpleType::Language => is_language(text),
        SimpleType::NcName => is_ncname(text),
        SimpleType::HexBinary => is_hex_binary(text),
    }
}
