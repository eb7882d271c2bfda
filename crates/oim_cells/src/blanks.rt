//! Blanks at the ends of a text.

ghost use Rattle.std.specs.Prelude.{◌≡◌, ◌<◌, length, MatchOption};
ghost use Rattle.oim_cells.specs.Blanks.{is_blank as is_blank_byte, without_front, without_back, trimmed as without_blanks};

/// Returns whether the byte is a space, a tab, a carriage return or a line feed.
fn is_blank(byte: u8) -> bool
    ensures { result ≡ is_blank_byte byte }
{
    matches!(byte, b' ' | b'\t' | b'\r' | b'\n')
}

/// Returns the text without its first byte if that is a blank, else `None`.
fn after_blank(text: &str) -> Option<&str>
    ensures { MatchOption result (without_front text.now ≡ text.now)
        (λ r. (without_front text.now ≡ without_front r.now) × (length r.now < length text.now)) }
{
    match text.as_bytes() {
        [first, ..] if is_blank(*first) => Some(&text[1..]),
        _ => None,
    }
}

/// Returns the text without its last byte if that is a blank, else `None`.
fn before_blank(text: &str) -> Option<&str>
    ensures { MatchOption result (without_back text.now ≡ text.now)
        (λ r. (without_back text.now ≡ without_back r.now) × (length r.now < length text.now)) }
{
    match text.as_bytes() {
        [.., last] if is_blank(*last) => Some(&text[..text.len() - 1]),
        _ => None,
    }
}

/// Returns the text without the blanks at its start.
fn trim_front(text: &str) -> &str
    ensures { result.now ≡ without_front text.now }
{
    let mut trimmed = text;
    while let Some(rest) = after_blank(trimmed) {
        trimmed = rest;
    }
    trimmed
}

/// Returns the text without the blanks at its end.
fn trim_back(text: &str) -> &str
    ensures { result.now ≡ without_back text.now }
{
    let mut trimmed = text;
    while let Some(rest) = before_blank(trimmed) {
        trimmed = rest;
    }
    trimmed
}

/// Returns the text without the spaces, tabs, carriage returns and line feeds at both ends (XML 1.0
/// fifth edition, white space).
pub fn trimmed(text: &str) -> &str
    ensures { result.now ≡ without_blanks text.now }
{
    trim_back(trim_front(text))
}
