//! NCNames, identifiers and row identifiers, tested by their characters.

ghost use Rattle.std.specs.Prelude.{◌≡◌, ◌<◌, ◌≤◌, ◌++◌, ◌∷◌, ◌&&◌, nat_lt, IfSome, IsTrue, length, take, true};
ghost use Rattle.std.specs.List.{list_all, prefix_len};
ghost use Rattle.oim_names.specs.Names.{is_name_start as name_start, is_name_char as name_char, is_plain_char as plain_char, is_ncname as ncname};
ghost use Rattle.oim_names.specs.Names.{is_identifier as identifier, is_row_identifier as row_identifier};

// Each ASCII character that a name may contain is at its own index. All other bytes are commas.
static NAME_BYTES: [u8; 256] = *b"\
    ,,,,,,,,,,,,,,,,,,,,,,,,,,,,,,,,\
    ,,,,,,,,,,,,,-.,0123456789,,,,,,\
    ,ABCDEFGHIJKLMNOPQRSTUVWXYZ,,,,_\
    ,abcdefghijklmnopqrstuvwxyz,,,,,\
    ,,,,,,,,,,,,,,,,,,,,,,,,,,,,,,,,\
    ,,,,,,,,,,,,,,,,,,,,,,,,,,,,,,,,\
    ,,,,,,,,,,,,,,,,,,,,,,,,,,,,,,,,\
    ,,,,,,,,,,,,,,,,,,,,,,,,,,,,,,,,";

// The same without the point.
static PLAIN_BYTES: [u8; 256] = *b"\
    ,,,,,,,,,,,,,,,,,,,,,,,,,,,,,,,,\
    ,,,,,,,,,,,,,-,,0123456789,,,,,,\
    ,ABCDEFGHIJKLMNOPQRSTUVWXYZ,,,,_\
    ,abcdefghijklmnopqrstuvwxyz,,,,,\
    ,,,,,,,,,,,,,,,,,,,,,,,,,,,,,,,,\
    ,,,,,,,,,,,,,,,,,,,,,,,,,,,,,,,,\
    ,,,,,,,,,,,,,,,,,,,,,,,,,,,,,,,,\
    ,,,,,,,,,,,,,,,,,,,,,,,,,,,,,,,,";

/// Returns whether a character may begin a name.
#[tactic(auto, unfolding(crate::specs::Names::is_name_start))]
#[inline(always)]
fn is_name_start(c: char) -> bool
    ensures { result ≡ name_start c }
{
    matches!(
        c,
        'A'..='Z' | '_' | 'a'..='z' | '\u{C0}'..='\u{D6}' | '\u{D8}'..='\u{F6}' | '\u{F8}'..='\u{2FF}'
        | '\u{370}'..='\u{37D}' | '\u{37F}'..='\u{1FFF}' | '\u{200C}'..='\u{200D}' | '\u{2070}'..='\u{218F}'
        | '\u{2C00}'..='\u{2FEF}' | '\u{3001}'..='\u{D7FF}' | '\u{F900}'..='\u{FDCF}' | '\u{FDF0}'..='\u{FFFD}'
        | '\u{10000}'..='\u{EFFFF}'
    )
}

/// Returns whether a name may contain a character.
#[tactic(auto, unfolding(crate::specs::Names::is_name_char))]
#[inline(always)]
fn is_name_char(c: char) -> bool
    ensures { result ≡ name_char c }
{
    is_name_start(c)
        || matches!(c, '-' | '.' | '0'..='9' | '\u{B7}' | '\u{300}'..='\u{36F}' | '\u{203F}'..='\u{2040}')
}

/// Returns whether a byte is an ASCII character that may begin a name.
#[tactic(auto, unfolding(crate::specs::Names::is_name_start))]
#[inline(always)]
fn is_ascii_name_start(byte: u8) -> bool
    ensures { result ≡ (nat_lt byte 128 && name_start byte) }
{
    matches!(byte, b'A'..=b'Z' | b'_' | b'a'..=b'z')
}

/// Returns whether a byte is an ASCII character that a name may contain.
#[inline(always)]
fn is_ascii_name_char(byte: u8) -> bool
    ensures { result ≡ (nat_lt byte 128 && name_char byte) }
{
    NAME_BYTES[byte as usize] != b','
}

/// Returns whether a byte is an ASCII character that an identifier may contain.
#[inline(always)]
fn is_ascii_plain_char(byte: u8) -> bool
    ensures { result ≡ (nat_lt byte 128 && plain_char byte) }
{
    PLAIN_BYTES[byte as usize] != b','
}

/// Returns whether an identifier may contain a character: any character of a name but the point.
#[tactic(auto, unfolding(crate::specs::Names::is_plain_char))]
#[inline(always)]
fn is_plain_char(c: char) -> bool
    ensures { result ≡ plain_char c }
{
    if c.is_ascii() {
        is_ascii_plain_char(c as u8)
    } else {
        is_name_char(c)
    }
}

/// Returns whether all bytes are ASCII characters that a name may contain.
fn are_name_chars(bytes: &[u8]) -> bool
    ensures { result ≡ list_all (λ c. nat_lt c 128 && name_char c) bytes.now }
{
    bytes.iter().all(|byte| is_ascii_name_char(*byte))
}

/// Returns whether all bytes are ASCII characters that an identifier may contain.
fn are_plain_chars(bytes: &[u8]) -> bool
    ensures { result ≡ list_all (λ c. nat_lt c 128 && plain_char c) bytes.now }
{
    bytes.iter().all(|byte| is_ascii_plain_char(*byte))
}

/// Returns whether a text is an NCName of ASCII characters.
fn is_ascii_ncname(text: &str) -> bool
    ensures { IsTrue result → IsTrue (ncname text.now) }
{
    match text.as_bytes() {
        [first, others @ ..] => is_ascii_name_start(*first) && are_name_chars(others),
        [] => false,
    }
}

/// Returns the length of the longest prefix of ASCII characters that a name may contain.
fn name_chars_len(bytes: &[u8]) -> usize
    ensures within { result ≤ length bytes.now }
    ensures chars { result ≡ prefix_len (λ c. nat_lt c 128 && name_char c) bytes.now }
{
    bytes
        .iter()
        .take_while(|byte| is_ascii_name_char(**byte))
        .count()
}

/// Returns the length of a prefix of the text that is an ASCII NCName, or 0 if no prefix is one.
fn ascii_ncname_len(text: &str) -> usize
    ensures within { result ≤ length text.now }
    ensures name { 0 < result → ncname (take result text.now) ≡ true }
{
    match text.as_bytes() {
        [first, others @ ..] if is_ascii_name_start(*first) => 1 + name_chars_len(others),
        _ => 0,
    }
}

/// Splits a text that begins with an ASCII NCName and then `mark`.
///
/// Returns the NCName and the text after `mark`, or `None` if the text does not begin so.
pub(crate) fn cut_ascii_ncname(text: &str, mark: u8) -> Option<(&str, &str)>
    requires { mark < 128 }
    ensures { IfSome result (λ p. (text.now ≡ p.0.now ++ mark ∷ p.1.now) × (ncname p.0.now ≡ true)) }
{
    let len = ascii_ncname_len(text);
    if len == 0 || len == text.len() || text.as_bytes()[len] != mark {
        return None;
    }
    Some((&text[..len], &text[len + 1..]))
}

/// Returns whether a text is an identifier of ASCII characters.
fn is_ascii_identifier(text: &str) -> bool
    ensures { IsTrue result → IsTrue (identifier text.now) }
{
    match text.as_bytes() {
        [first, others @ ..] => is_ascii_name_start(*first) && are_plain_chars(others),
        [] => false,
    }
}

/// Returns whether a text is a row identifier of ASCII characters.
fn is_ascii_row_identifier(text: &str) -> bool
    ensures { IsTrue result → IsTrue (row_identifier text.now) }
{
    match text.as_bytes() {
        [first, others @ ..] => is_ascii_plain_char(*first) && are_plain_chars(others),
        [] => false,
    }
}

/// Returns whether a text is an NCName, character by character.
#[inline(never)]
fn is_ncname_by_chars(text: &str) -> bool
    ensures { result ≡ ncname text.now }
{
    let mut rest = text.chars();
    match rest.next() {
        Some(first) => is_name_start(first) && rest.all(|c| is_name_char(c)),
        None => false,
    }
}

/// Returns whether a text is an identifier, character by character.
#[inline(never)]
fn is_identifier_by_chars(text: &str) -> bool
    ensures { result ≡ identifier text.now }
{
    let mut rest = text.chars();
    match rest.next() {
        Some(first) => is_name_start(first) && rest.all(|c| is_plain_char(c)),
        None => false,
    }
}

/// Returns whether a text is a row identifier, character by character.
#[inline(never)]
fn is_row_identifier_by_chars(text: &str) -> bool
    ensures { result ≡ row_identifier text.now }
{
    let mut rest = text.chars();
    match rest.next() {
        Some(first) => is_plain_char(first) && rest.all(|c| is_plain_char(c)),
        None => false,
    }
}

/// Returns whether a text is an NCName, a name without a colon (Namespaces in XML 1.0, NCName; XML
/// 1.0 fifth edition, section 2.3).
pub fn is_ncname(text: &str) -> bool
    ensures { result ≡ ncname text.now }
{
    is_ascii_ncname(text) || is_ncname_by_chars(text)
}

/// Returns whether a text is an identifier, that is an NCName without a point (xBRL-CSV 1.0,
/// identifiers). Tables, templates, columns and parameters have identifiers.
pub fn is_identifier(text: &str) -> bool
    ensures { result ≡ identifier text.now }
{
    is_ascii_identifier(text) || is_identifier_by_chars(text)
}

/// Returns whether a text is a row identifier (xBRL-CSV 1.0, row identifiers).
///
/// It is one or more characters that a name may contain, without a point. It may begin with any of
/// them.
pub fn is_row_identifier(text: &str) -> bool
    ensures { result ≡ row_identifier text.now }
{
    is_ascii_row_identifier(text) || is_row_identifier_by_chars(text)
}
