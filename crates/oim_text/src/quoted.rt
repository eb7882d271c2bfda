//! Texts escaped for JSON. `serde_json` escapes a text that needs it.
//!
//! Without it, by `put_escaped_front`: `members` +4.3 %.

ghost use Rattle.std.specs.Prelude.{◌≡◌, ◌-◌, ◌≤◌, ◌++◌, IfOk, OnOk, if◌then◌else◌, is_ok, length, slice_range};
ghost use Rattle.std.specs.List.{flat_map, list_all};
ghost use mathlib.Core.List.{IsPrefix};
ghost use Rattle.oim_json.specs.JsonText.{escaped_byte, quoted};
ghost use Rattle.oim_json.specs.state.Writing.{is_unescaped};

use crate::buffer::TextBuffer;
use std::alloc::{AllocError, Global};

/// Returns whether a byte needs no escape in a JSON string.
#[inline(always)]
fn stands_for_itself(byte: u8) -> bool
    ensures { result ≡ is_unescaped byte }
{
    byte >= 32 && byte != b'"' && byte != b'\\'
}

/// Returns whether no byte of a text needs an escape.
///
/// It tests all bytes, without an early return, so that the compiler can test many at once.
#[inline]
fn needs_no_escape(text: &str) -> bool
    ensures { result ≡ list_all is_unescaped text.now }
{
    let bytes = text.as_bytes();
    let mut all = true;
    for i in 0..bytes.len() {
        all &= stands_for_itself(bytes[i]);
    }
    all
}

/// Returns a text in quotes, escaped by `serde_json`.
fn written(alloc: Global, text: &str) -> Result<Vec<u8>, AllocError>
    ensures { IfOk result (λ bytes. bytes.items ≡ quoted text.now) }
{
    match serde_json::to_vec(alloc, &text) {
        Ok(bytes) => Ok(bytes),
        Err(_) => Err(AllocError),
    }
}

/// Returns all bytes but the first and the last.
fn inside(bytes: &[u8]) -> &[u8]
    requires { 2 ≤ length bytes.now }
    ensures { result.now ≡ slice_range bytes.now 1 (length bytes.now - 1) }
{
    &bytes[1..bytes.len() - 1]
}

/// Appends a text, escaped by `serde_json`. If memory runs out, it appends nothing.
#[cold]
#[inline(never)]
fn put_written(out: &mut TextBuffer, text: &str) -> Result<(), AllocError>
    ensures { out.new.items ≡ (if is_ok result then out.old.items ++ flat_map escaped_byte text.now else out.old.items) }
{
    let bytes = written(*out.memory.allocator(), text)?;
    out.put(inside(&bytes))
}

/// Appends a text, escaped. If memory runs out, it appends nothing.
#[inline]
pub fn put_escaped(out: &mut TextBuffer, text: &str) -> Result<(), AllocError>
    ensures escaped { OnOk result (out.new.items ≡ out.old.items ++ flat_map escaped_byte text.now) }
    ensures stays { IsPrefix out.old.items out.new.items }
{
    if needs_no_escape(text) {
        out.put(text.as_bytes())
    } else {
        put_written(out, text)
    }
}

/// Appends a text in quotes, escaped. If memory runs out, it may append a part of it.
#[inline]
#[tactic(auto, using(std::proofs::Common::append_assoc), unfolding(oim_json::specs::JsonText::quoted))]
pub fn put_quoted(out: &mut TextBuffer, text: &str) -> Result<(), AllocError>
    ensures quoted { OnOk result (out.new.items ≡ out.old.items ++ quoted text.now) }
    ensures stays { IsPrefix out.old.items out.new.items }
{
    out.push(b'"')?;
    put_escaped(out, text)?;
    out.push(b'"')?;
    Ok(())
}
