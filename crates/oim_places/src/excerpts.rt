//! The beginning of a text, as it is shown to a person.

ghost use Rattle.std.specs.Prelude.{◌≡◌, IfOk, string_bytes};
ghost use Rattle.oim_places.specs.Shown as spec;
ghost use Rattle.oim_places.specs.Shown.{excerpt_of};

use crate::terminal::put_shown;
use std::alloc::{AllocError, Global};

/// How many characters of a text are shown.
const MOST_CHARACTERS: usize = 80;

/// Returns the first 80 characters of a text, shown as `shown` does, and two dots after them if the
/// text is longer.
pub fn excerpt(alloc: Global, text: &str) -> Result<String, AllocError>
    ensures { IfOk result (λ s. string_bytes s ≡ excerpt_of text.now) }
{
    let mut out = String::new(alloc);
    let mut count: usize = 0;
    for c in text.chars() {
        if count == MOST_CHARACTERS {
            out.push_str("..")?;
            return Ok(out);
        }
        put_shown(&mut out, c)?;
        count += 1;
    }
    Ok(out)
}

/// Returns a text between quotes.
pub(crate) fn in_quotes(alloc: Global, text: &str) -> Result<String, AllocError>
    ensures { IfOk result (λ s. string_bytes s ≡ spec.in_quotes text.now) }
{
    format!(in alloc; "\"{text}\"")
}
