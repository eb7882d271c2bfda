//! Qualified names: QNames and SQNames.

ghost use Rattle.std.specs.Prelude.{◌≡◌, option_map};
ghost use Rattle.oim_names.specs.QName.{Name, IsQName, IsSQName, IsOnly, is_solid as solid, seen_name, qname_of, sqname_of};

use crate::{Namespaces, is_ncname};

/// Returns the URI and the local part of a QName (xBRL-JSON 1.0, QName; Namespaces in XML 1.0).
///
/// A QName is `prefix:local`, two names without a colon, and the prefix is declared. Any other text
/// gives `None`.
pub fn qname<'a>(names: &'a Namespaces, text: &'a str) -> Option<(&'a str, &'a str)>
    ensures grammar { IsOnly {A = Name} (λ name. IsQName names.now text.now name) (option_map seen_name result) }
    ensures value { option_map seen_name result ≡ qname_of names.now text.now }
{
    let Some((prefix, local)) = text.split_once(':') else {
        return None;
    };
    if !is_ncname(prefix) || !is_ncname(local) {
        return None;
    }
    match names.uri(prefix) {
        Some(uri) => Some((uri, local)),
        None => None,
    }
}

/// Returns whether a text is not empty and has no space, tab, carriage return or line feed.
fn is_solid(text: &str) -> bool
    ensures { result ≡ solid text.now }
{
    !text.is_empty()
        && text
            .as_bytes()
            .iter()
            .all(|byte| !matches!(*byte, b' ' | b'\t' | b'\r' | b'\n'))
}

/// Returns the URI and the local part of an SQName (xBRL-JSON 1.0, SQName).
///
/// An SQName is a declared prefix, the text's first colon and a local part. The local part is not
/// empty and has no space, tab, carriage return or line feed. Any other text gives `None`.
pub fn sqname<'a>(names: &'a Namespaces, text: &'a str) -> Option<(&'a str, &'a str)>
    ensures grammar { IsOnly {A = Name} (λ name. IsSQName names.now text.now name) (option_map seen_name result) }
    ensures value { option_map seen_name result ≡ sqname_of names.now text.now }
{
    let Some((prefix, rest)) = text.split_once(':') else {
        return None;
    };
    if !is_solid(rest) {
        return None;
    }
    match names.uri(prefix) {
        Some(uri) => Some((uri, rest)),
        None => None,
    }
}
