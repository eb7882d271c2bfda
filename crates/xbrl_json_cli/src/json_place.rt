//! Where a JSON text is, byte by byte: how deep in objects and arrays, and whether in a text.
//!
//! It does not check the JSON: if a text is not JSON, its places mean nothing.

ghost use Rattle.std.specs.Prelude.{◌≡◌};
ghost use Rattle.xbrl_json_cli.specs.JsonPlaces.{key_after, place_after, place_in, place_outside};

/// Whether a place is in a text.
#[derive(Clone, Copy, PartialEq, Eq, Drop)]
pub enum Within {
    /// Outside all texts.
    Nothing,
    /// In a text.
    Text,
    /// In a text, directly after a backslash.
    Escape,
}

/// A place in a JSON text.
#[derive(Clone, Copy, Drop)]
pub struct JsonPlace {
    /// How many objects and arrays are open, at most 255.
    pub depth: u8,
    /// Whether the place is in a text.
    pub within: Within,
    /// Whether the text that begins next, or that the place is in, is a key of an object. It
    /// says nothing of texts in an array.
    pub is_key: bool,
    /// The last eight bytes of the key that the place is in or that ended last, as a number.
    pub key: u64,
}

/// The place before a text's first byte.
pub const START: JsonPlace = JsonPlace {
    depth: 0,
    within: Within::Nothing,
    is_key: false,
    key: 0,
};

/// Returns a key's last bytes after one more.
#[inline(always)]
fn longer(key: u64, byte: u8) -> u64
    ensures { result ≡ key_after key byte }
{
    key.wrapping_mul(256).wrapping_add(u64::from(byte))
}

/// Returns the place after a byte outside texts.
#[inline(always)]
fn outside(place: JsonPlace, byte: u8) -> JsonPlace
    ensures { result ≡ place_outside place byte }
{
    let mut next = place;
    match byte {
        b'"' => {
            next.within = Within::Text;
            next.key = if place.is_key { 0 } else { place.key };
        }
        b'{' | b'[' => {
            next.depth = place.depth.saturating_add(1);
            next.is_key = true;
        }
        b'}' | b']' => next.depth = place.depth.saturating_sub(1),
        b',' => next.is_key = true,
        b':' => next.is_key = false,
        _ => {}
    }
    next
}

/// Returns the place after a byte in a text.
#[inline(always)]
fn inside(place: JsonPlace, byte: u8) -> JsonPlace
    ensures { result ≡ place_in place byte }
{
    let mut next = place;
    match byte {
        b'"' => next.within = Within::Nothing,
        b'\\' => next.within = Within::Escape,
        _ => {
            next.key = if place.is_key {
                longer(place.key, byte)
            } else {
                place.key
            }
        }
    }
    next
}

/// Returns the place after a byte.
#[inline(always)]
pub fn after(place: JsonPlace, byte: u8) -> JsonPlace
    ensures { result ≡ place_after place byte }
{
    match place.within {
        Within::Nothing => outside(place, byte),
        Within::Text => inside(place, byte),
        Within::Escape => {
            let mut next = place;
            next.within = Within::Text;
            next
        }
    }
}
