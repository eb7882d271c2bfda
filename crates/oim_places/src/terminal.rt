//! Texts of files and of arguments as a terminal shows them: control characters, special blanks and
//! invisible marks by their codes.

ghost use Rattle.std.specs.Prelude.{◌≡◌, ◌<◌, ◌++◌, IfOk, chars, flat_map, string_bytes};
ghost use Rattle.oim_places.specs.Pointers.{pointer_char};
ghost use Rattle.oim_places.specs.state.Pointers.{char_of};
ghost use Rattle.oim_places.specs.Shown.{escape_of, hex_digit, is_unseen, long_escape_of, shown, shown_char};

use oim_names::Text;
use std::alloc::{AllocError, Global};

/// Returns the hexadecimal digit of a number.
fn digit(n: u32) -> char
    requires { n < 16 }
    ensures { result ≡ hex_digit n }
{
    match char::from_digit(n, 16) {
        Some(digit) => digit,
        None => '0',
    }
}

/// Appends a control character, as `\x` and two hexadecimal digits.
pub(crate) fn put_control(out: &mut String, c: char) -> Result<(), AllocError>
    requires { c < 256 }
    ensures { IfOk result (λ u. string_bytes out.new ≡ string_bytes out.old ++ escape_of c) }
{
    let code = u32::from(c);
    out.push_str("\\x")?;
    out.push(digit(code / 16))?;
    out.push(digit(code % 16))
}

/// Appends an invisible character, as `\u` and four hexadecimal digits.
fn put_unseen(out: &mut String, c: char) -> Result<(), AllocError>
    ensures { IfOk result (λ u. string_bytes out.new ≡ string_bytes out.old ++ long_escape_of c) }
{
    let code = u32::from(c);
    out.push_str("\\u")?;
    out.push(digit(code / 4096 % 16))?;
    out.push(digit(code / 256 % 16))?;
    out.push(digit(code / 16 % 16))?;
    out.push(digit(code % 16))
}

/// Returns whether a character resembles a blank or is invisible.
fn is_unseen(c: char) -> bool
    ensures { result ≡ is_unseen c }
{
    matches!(
        c,
        '\u{a0}'
            | '\u{ad}'
            | '\u{61c}'
            | '\u{1680}'
            | '\u{180e}'
            | '\u{2000}'..='\u{200f}'
            | '\u{2028}'..='\u{202f}'
            | '\u{205f}'..='\u{206f}'
            | '\u{3000}'
            | '\u{feff}'
    )
}

/// Appends a character as a terminal shows it.
pub(crate) fn put_shown(out: &mut String, c: char) -> Result<(), AllocError>
    ensures { IfOk result (λ u. string_bytes out.new ≡ string_bytes out.old ++ shown_char c) }
{
    if c.is_control() {
        put_control(out, c)
    } else if is_unseen(c) {
        put_unseen(out, c)
    } else {
        out.push(c)
    }
}

/// Appends a character of a JSON pointer's key.
fn put_char(out: &mut String, c: char) -> Result<(), AllocError>
    ensures { IfOk result (λ u. string_bytes out.new ≡ string_bytes out.old ++ pointer_char c) }
{
    match c {
        '~' => out.push_str("~0"),
        '/' => out.push_str("~1"),
        _ => put_shown(out, c),
    }
}

/// Appends the characters of a text, as those of a JSON pointer's key or as a terminal shows them.
pub(crate) fn put_text(out: &mut String, text: &str, is_key: bool) -> Result<(), AllocError>
    ensures { IfOk result (λ u. string_bytes out.new ≡ string_bytes out.old ++ flat_map (char_of is_key) (chars text.now)) }
{
    for c in text.chars() {
        if is_key {
            put_char(out, c)?;
        } else {
            put_shown(out, c)?;
        }
    }
    Ok(())
}

/// Returns a text with each control character (U+0000 to U+001F, U+007F to U+009F) as `\x` and its
/// two hexadecimal digits, and each special blank or invisible mark (no-break space, byte-order
/// mark, change of direction) as `\u` and four.
pub fn shown(alloc: Global, text: &str) -> Result<Text, AllocError>
    ensures { IfOk result (λ t. t ≡ shown text.now) }
{
    let mut out = String::new(alloc);
    put_text(&mut out, text, false)?;
    Ok(Text::new(out))
}
