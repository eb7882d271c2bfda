//! Units of monetary and of share items.

ghost use Rattle.std.specs.Prelude.{◌≡◌, ◌↔◌, IsTrue};
ghost use Rattle.std.specs.Int.{is_in_range};
ghost use Rattle.oim_names.specs.QName.{qname_of};
ghost use Rattle.oim_schema.specs.Units.{IsCurrency, IsShares, is_currency_code as code_test, is_currency_name, is_shares_name, is_currency as currency_test, is_shares as shares_test};

use oim_names::{Namespaces, qname};

/// Returns whether a text is three letters from `A` to `Z`.
fn is_currency_code(text: &[u8]) -> bool
    ensures { result ≡ code_test text.now }
{
    match text {
        [a, b, c] => is_capital(*a) && is_capital(*b) && is_capital(*c),
        _ => false,
    }
}

/// Returns whether a byte is a letter from `A` to `Z`.
fn is_capital(byte: u8) -> bool
    ensures { result ≡ is_in_range 65 90 byte }
{
    matches!(byte, b'A'..=b'Z')
}

fn names_currency(names: &Namespaces, unit: &str) -> bool
    ensures { result ≡ is_currency_name (qname_of names.now unit.now) }
{
    match qname(names, unit) {
        Some((uri, local)) => uri == "http://www.xbrl.org/2003/iso4217"
            && is_currency_code(local.as_bytes()),
        None => false,
    }
}

fn names_shares(names: &Namespaces, unit: &str) -> bool
    ensures { result ≡ is_shares_name (qname_of names.now unit.now) }
{
    match qname(names, unit) {
        Some((uri, local)) => uri == "http://www.xbrl.org/2003/instance" && local == "shares",
        None => false,
    }
}

/// Returns whether a unit is a currency (XBRL 2.1, section 4.8.2: monetary items).
///
/// It is one measure, without parentheses and without `/`, in the namespace
/// `http://www.xbrl.org/2003/iso4217`. Its local part is three letters from `A` to `Z`. The codes
/// of ISO 4217 are not looked up.
pub fn is_currency(names: &Namespaces, unit: &str) -> bool
    ensures means { IsTrue result ↔ IsCurrency names.now unit.now }
    ensures value { result ≡ currency_test names.now unit.now }
{
    names_currency(names, unit)
}

/// Returns whether a unit is shares (XBRL 2.1, section 4.8.2: share items).
///
/// It is the measure `shares` of `http://www.xbrl.org/2003/instance`, without parentheses and
/// without `/`.
pub fn is_shares(names: &Namespaces, unit: &str) -> bool
    ensures means { IsTrue result ↔ IsShares names.now unit.now }
    ensures value { result ≡ shares_test names.now unit.now }
{
    names_shares(names, unit)
}
