//! Units of numeric facts.

ghost use Rattle.std.specs.Prelude.{◌≡◌, ◌↔◌, ◌<◌, Some, IfSome, IsSome, is_some, length};
ghost use Rattle.std.specs.Prelude.{true};
ghost use Rattle.oim_names.specs.Bindings.{uri_of};
ghost use Rattle.oim_names.specs.QName.{qname_of};
ghost use Rattle.oim_names.specs.Unit.{HasMeasures, IsPure, inside as text_inside, are_measures as measures_in, is_side as side_in, is_unit as unit_in, is_pure_name, unit_of};

use crate::names::cut_ascii_ncname;
use crate::{Namespaces, UnitKind, qname};

/// Returns the text without the pair of parentheses around it, if it has one.
fn inside(text: &str) -> &str
    ensures { result.now ≡ text_inside text.now }
{
    let Some(rest) = text.strip_prefix('(') else {
        return text;
    };
    match rest.strip_suffix(')') {
        Some(inner) => inner,
        None => text,
    }
}

/// Returns whether a prefix is bound. `known` is a prefix that is bound, and is compared first.
fn is_bound(names: &Namespaces, known: Option<&str>, prefix: &str) -> bool
    requires { IfSome known (λ k. is_some (uri_of names.now k.now) ≡ true) }
    ensures { result ≡ is_some (uri_of names.now prefix.now) }
{
    match known {
        Some(known) if known == prefix => true,
        _ => names.uri(prefix).is_some(),
    }
}

/// Splits off the first measure of a product if it is a QName of ASCII characters with a bound
/// prefix.
///
/// Returns its prefix and the text after its `*`, else `None`. `known` is a prefix that is bound.
fn after_measure<'a>(
    names: &Namespaces,
    known: Option<&str>,
    text: &'a str,
) -> Option<(&'a str, &'a str)>
    requires { IfSome known (λ k. is_some (uri_of names.now k.now) ≡ true) }
    ensures prefix { IfSome result (λ r. is_some (uri_of names.now r.0.now) ≡ true) }
    ensures measures { IfSome result (λ r. measures_in names.now r.1.now ≡ measures_in names.now text.now) }
    ensures shorter { IfSome result (λ r. length r.1.now < length text.now) }
{
    let (prefix, others) = cut_ascii_ncname(text, b':')?;
    let (_, rest) = cut_ascii_ncname(others, b'*')?;
    if !is_bound(names, known, prefix) {
        return None;
    }
    Some((prefix, rest))
}

/// Returns whether a text is QNames joined by `*`.
fn are_measures(names: &Namespaces, text: &str) -> bool
    ensures { result ≡ measures_in names.now text.now }
{
    let mut known = None;
    let mut measures = text;
    while let Some((prefix, rest)) = after_measure(names, known, measures) {
        known = Some(prefix);
        measures = rest;
    }
    measures
        .split('*')
        .all(|measure| qname(names, measure).is_some())
}

/// Returns whether a text is a side: QNames joined by `*`, bare or in one pair of parentheses.
fn is_side(names: &Namespaces, text: &str) -> bool
    ensures { result ≡ side_in names.now text.now }
{
    are_measures(names, inside(text))
}

/// Returns whether a text is a side, or two sides with `/` between them.
fn is_unit(names: &Namespaces, text: &str) -> bool
    ensures { result ≡ unit_in names.now text.now }
{
    match text.split_once('/') {
        Some((above, below)) => is_side(names, above) && is_side(names, below),
        None => is_side(names, text),
    }
}

/// Returns whether a text is the measure of a pure number, bare or in parentheses.
fn is_pure(names: &Namespaces, text: &str) -> bool
    ensures { result ≡ is_pure_name (qname_of names.now (text_inside text.now)) }
{
    match qname(names, inside(text)) {
        Some((uri, local)) => uri == "http://www.xbrl.org/2003/instance" && local == "pure",
        None => false,
    }
}

/// Returns the kind of a unit (xBRL-JSON 1.0, unit).
///
/// A unit is one side, or two sides with `/` between them. A side is one or more QNames joined by
/// `*`, bare or in one pair of parentheses. The unit is `Pure` if its only measure is `pure` of
/// `http://www.xbrl.org/2003/instance`, else `Written`. A text that is not a unit gives `None`.
pub fn unit(names: &Namespaces, text: &str) -> Option<UnitKind>
    ensures grammar { IsSome result ↔ HasMeasures names.now text.now }
    ensures pure { (result ≡ Some UnitKind.Pure) ↔ IsPure names.now text.now }
    ensures value { result ≡ unit_of names.now text.now }
{
    if !is_unit(names, text) {
        return None;
    }
    if is_pure(names, text) {
        Some(UnitKind::Pure)
    } else {
        Some(UnitKind::Written)
    }
}
