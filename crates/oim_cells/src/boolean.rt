//! Boolean values.

ghost use Rattle.std.specs.Prelude.{◌≡◌, ◌↔◌, IsTrue};
ghost use Rattle.oim_cells.specs.Boolean.{IsBoolean, is_boolean_text};

/// Returns whether a text is a boolean value (XML Schema Part 2, second edition: the lexical forms
/// of boolean).
///
/// The boolean values are `true`, `false`, `1` and `0`, without blanks around them and not in
/// capital letters.
pub fn is_boolean(text: &str) -> bool
    ensures means { IsTrue result ↔ IsBoolean text.now }
    ensures value { result ≡ is_boolean_text text.now }
{
    matches!(text, "true" | "false" | "1" | "0")
}
