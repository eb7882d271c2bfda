//! The escapes of JSON that copies of many bytes write.

ghost use Rattle.std.specs.Prelude.{◌≡◌, ◌∷◌, ◌<◌, ◌≤◌, ◌/◌, ◌%◌, [], take};
ghost use Rattle.std.specs.Char.{digit_char};
ghost use Rattle.oim_json.specs.JsonText.{escaped_byte};

/// An escaped byte: six bytes, and how many of them count.
pub(crate) type Escape = ([u8; 6], usize);

/// Returns the lower-case hexadecimal digit of a number below 16.
fn hex_digit(n: u8) -> u8
    requires { n < 16 }
    ensures { result ≡ digit_char n }
{
    if n < 10 { b'0' + n } else { b'a' + (n - 10) }
}

/// Returns an escape of one letter.
#[inline(always)]
fn short_escape(letter: u8) -> Escape
    ensures text { take result.1 result.0 ≡ 92 ∷ letter ∷ [] }
    ensures within { result.1 ≤ 6 }
{
    ([b'\\', letter, 0, 0, 0, 0], 2)
}

/// Returns the escape of a control character by its code.
fn code_escape(byte: u8) -> Escape
    requires { byte < 32 }
    ensures text { take result.1 result.0 ≡ 92 ∷ 117 ∷ 48 ∷ 48 ∷ digit_char (byte / 16) ∷ digit_char (byte % 16) ∷ [] }
    ensures within { result.1 ≤ 6 }
{
    (
        [
            b'\\',
            b'u',
            b'0',
            b'0',
            hex_digit(byte / 16),
            hex_digit(byte % 16),
        ],
        6,
    )
}

/// Returns a byte escaped for JSON.
#[tactic(auto, unfolding(oim_json::specs::JsonText::escaped_byte))]
pub(crate) fn escape_of(byte: u8) -> Escape
    ensures text { take result.1 result.0 ≡ escaped_byte byte }
    ensures within { result.1 ≤ 6 }
{
    match byte {
        b'"' => short_escape(b'"'),
        b'\\' => short_escape(b'\\'),
        8 => short_escape(b'b'),
        12 => short_escape(b'f'),
        b'\n' => short_escape(b'n'),
        b'\r' => short_escape(b'r'),
        b'\t' => short_escape(b't'),
        0..=31 => code_escape(byte),
        _ => ([byte, 0, 0, 0, 0, 0], 1),
    }
}
