//! The JSON pointer of a place.

ghost use Rattle.std.specs.Prelude.{◌≡◌, ◌++◌, IfOk, map, string_bytes};
ghost use Rattle.oim_places.specs.Pointers.{pointer_key, pointer_of};

use crate::terminal::put_text;
use oim_names::Text;
use std::alloc::{AllocError, Global};

/// Appends a key to a pointer.
fn put_key(out: &mut String, key: &str) -> Result<(), AllocError>
    ensures { IfOk result (λ u. string_bytes out.new ≡ string_bytes out.old ++ pointer_key key.now) }
{
    out.push('/')?;
    put_text(out, key, true)
}

/// Returns the JSON pointer of borrowed keys, as `pointer` does.
pub fn pointer_to(alloc: Global, keys: &[&str]) -> Result<String, AllocError>
    ensures { IfOk result (λ s. string_bytes s ≡ pointer_of (map (λ k. k.now) keys.now)) }
{
    let mut out = String::new(alloc);
    for key in keys {
        put_key(&mut out, *key)?;
    }
    Ok(out)
}

/// Returns the JSON pointer (RFC 6901) of these keys, with its control and invisible characters
/// escaped as `shown` does, so that it is one line.
pub fn pointer(alloc: Global, keys: &[Text]) -> Result<String, AllocError>
    ensures { IfOk result (λ s. string_bytes s ≡ pointer_of keys.now) }
{
    let mut out = String::new(alloc);
    for key in keys {
        put_key(&mut out, key.as_str())?;
    }
    Ok(out)
}
