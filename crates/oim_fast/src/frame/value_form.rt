//! How the cells of a concept's facts are read.

ghost use Rattle.std.specs.Prelude.{◌≡◌, true};
ghost use Rattle.oim_resolve.specs.Facts.{is_numeric};
ghost use Rattle.oim_fast.specs.state.ValueForms.{form_of, is_number_form, simple_form, typed_form};

use oim_cells::NumberKind;
use oim_report::{Kind, SimpleType, ValueType};

/// How the cells of a concept's facts are read.
#[derive(Clone, Copy)]
pub(crate) enum ValueForm {
    /// As numerals.
    Number(NumberKind),
    /// As integers within bounds.
    Bounded,
    /// As texts that are written as they are.
    Text,
    /// As texts of another form.
    Formed,
}

impl ValueForm {
    /// Returns whether facts of the form have decimals.
    #[inline(always)]
    pub(crate) fn is_number(self) -> bool
        ensures { result ≡ is_number_form self }
    {
        matches!(&self, ValueForm::Number(_) | ValueForm::Bounded)
    }

    /// Returns whether each text is written as it is.
    #[inline(always)]
    pub(crate) fn is_text(self) -> bool
        ensures { result ≡ true → self ≡ ValueForm.Text }
    {
        matches!(&self, ValueForm::Text)
    }
}

/// Returns how the values of a simple type are read.
fn simple_form(simple: SimpleType) -> ValueForm
    ensures { result ≡ simple_form simple }
{
    match simple {
        SimpleType::Number(number) => ValueForm::Number(number),
        SimpleType::Bounded(_) => ValueForm::Bounded,
        _ => ValueForm::Formed,
    }
}

/// Returns how the values of a type are read.
fn typed_form(value: ValueType) -> ValueForm
    ensures { result ≡ typed_form value }
{
    match value {
        ValueType::Simple(simple) => simple_form(simple),
        ValueType::Monetary | ValueType::Shares => ValueForm::Number(NumberKind::Decimal),
        ValueType::Text | ValueType::Other => ValueForm::Text,
        ValueType::Enumeration | ValueType::Enumerations => ValueForm::Formed,
    }
}

/// Returns how the cells of facts are read whose concept has a kind.
pub(crate) fn form_of(kind: Kind) -> ValueForm
    ensures { result ≡ form_of kind }
{
    match kind {
        Kind::Number(number) => ValueForm::Number(number),
        Kind::Text | Kind::Other => ValueForm::Text,
        Kind::Concept(concept) => typed_form(concept.value),
        _ => ValueForm::Formed,
    }
}

/// Returns whether facts of a kind have decimals.
pub(crate) fn has_decimals(kind: Kind) -> bool
    ensures { result ≡ is_numeric kind }
{
    form_of(kind).is_number()
}
