//! Calls of `oim_text`.

use oim_text::{TextBuffer, put_quoted};
use std::alloc::{AllocError, Global};

/// Returns a text as JSON writes it.
fn json_of(alloc: Global, text: &str) -> Result<TextBuffer, AllocError> {
    let mut out = TextBuffer::new(alloc);
    put_quoted(&mut out, text)?;
    Ok(out)
}

/// Returns whether JSON writes a text as `json`.
fn is_written(alloc: Global, text: &str, json: &[u8]) -> bool {
    match json_of(alloc, text) {
        Ok(out) => out.as_slice() == json,
        Err(_) => false,
    }
}

#[test]
fn calls_of_texts(rt: HostRuntime) {
    assert!(rt; is_written(rt.alloc(), "a\n", b"\"a\\n\""));
}
