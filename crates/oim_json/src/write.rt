//! Texts of values, appended to a buffer.

ghost use Rattle.std.specs.Prelude.{◌≡◌, ◌++◌, ℕ, List, map, OnOk};
ghost use Rattle.std.specs.Fmt.{signed_decimal};
ghost use Rattle.std.specs.List.{list_all};
ghost use Rattle.std.specs.Option.{option_map};
ghost use Rattle.oim_json.specs.JsonText.{quoted, value_text, dimension_text, namespace_text, joined};
ghost use Rattle.oim_json.specs.state.Writing.{is_unescaped, comma_before};

use itoa::Buffer;
use oim_names::{Namespaces, Text};
use std::alloc::{AllocError, Global};

/// A value that has a text in JSON.
pub(crate) trait JsonText {
    ghost text: { Self → List ℕ };

    fn push_to(&self, alloc: Global, out: &mut Vec<u8>) -> Result<(), AllocError>
        ensures { OnOk result (out.new.items ≡ out.old.items ++ text self.now) };
}

/// Returns whether a byte needs no escape in a JSON string.
fn stands_for_itself(byte: u8) -> bool
    ensures { result ≡ is_unescaped byte }
{
    byte >= 32 && byte != b'"' && byte != b'\\'
}

/// Returns whether no byte of a text needs an escape.
fn needs_no_escape(text: &str) -> bool
    ensures { result ≡ list_all is_unescaped text.now }
{
    text.as_bytes().iter().all(|byte| stands_for_itself(*byte))
}

/// Appends a text in quotes. A text that needs no escape is copied unchanged.
pub(crate) fn push_text(alloc: Global, out: &mut Vec<u8>, text: &str) -> Result<(), AllocError>
    ensures { OnOk result (out.new.items ≡ out.old.items ++ quoted text.now) }
{
    if needs_no_escape(text) {
        out.push(b'"')?;
        out.extend_from_slice(text.as_bytes())?;
        out.push(b'"')?;
        return Ok(());
    }
    match serde_json::to_vec(alloc, &text) {
        Ok(bytes) => out.extend_from_slice(&bytes),
        Err(_) => Err(AllocError),
    }
}

impl JsonText for Text {
    ghost text = { quoted };

    fn push_to(&self, alloc: Global, out: &mut Vec<u8>) -> Result<(), AllocError> {
        push_text(alloc, out, self.as_str())
    }
}

/// Appends a text in quotes, or null.
#[tactic(auto, unfolding(crate::specs::JsonText::value_text))]
pub(crate) fn push_value(
    alloc: Global,
    out: &mut Vec<u8>,
    value: Option<&Text>,
) -> Result<(), AllocError>
    ensures { OnOk result (out.new.items ≡ out.old.items ++ value_text (option_map (λ t. t.now) value.entry)) }
{
    match value {
        Some(text) => push_text(alloc, out, text.as_str()),
        None => out.extend_from_slice(b"null"),
    }
}

impl JsonText for (Text, Option<Text>) {
    ghost text = { dimension_text };

    #[tactic(auto, using(std::proofs::Common::append_assoc), unfolding(crate::specs::JsonText::dimension_text))]
    fn push_to(&self, alloc: Global, out: &mut Vec<u8>) -> Result<(), AllocError> {
        push_text(alloc, out, self.0.as_str())?;
        out.push(b':')?;
        push_value(alloc, out, self.1.as_ref())
    }
}

/// Appends the texts of items, joined by commas.
pub(crate) fn push_joined<T: JsonText>(
    alloc: Global,
    out: &mut Vec<u8>,
    items: &[T],
) -> Result<(), AllocError>
    ensures { OnOk result (out.new.items ≡ out.old.items ++ joined (map T.text items.now)) }
{
    for (i, item) in items.iter().enumerate() {
        push_comma_before(out, i)?;
        item.push_to(alloc, out)?;
    }
    Ok(())
}

/// Appends the comma before the item at index `i`.
pub(crate) fn push_comma_before(out: &mut Vec<u8>, i: usize) -> Result<(), AllocError>
    ensures { OnOk result (out.new.items ≡ out.old.items ++ comma_before i) }
{
    if i > 0 {
        out.push(b',')?;
    }
    Ok(())
}

pub(crate) fn push_integer(out: &mut Vec<u8>, n: i32) -> Result<(), AllocError>
    ensures { OnOk result (out.new.items ≡ out.old.items ++ signed_decimal n) }
{
    let mut buffer = Buffer::new();
    out.extend_from_slice(buffer.format(n).as_bytes())
}

#[tactic(auto, using(std::proofs::Common::append_assoc), unfolding(crate::specs::JsonText::namespace_text))]
fn push_binding(alloc: Global, out: &mut Vec<u8>, prefix: &str, uri: &str) -> Result<(), AllocError>
    ensures { OnOk result (out.new.items ≡ out.old.items ++ namespace_text (prefix.now, uri.now)) }
{
    push_text(alloc, out, prefix)?;
    out.push(b':')?;
    push_text(alloc, out, uri)
}

/// Appends prefixes and their URIs, joined by commas.
pub(crate) fn push_bindings(
    alloc: Global,
    out: &mut Vec<u8>,
    names: &Namespaces,
) -> Result<(), AllocError>
    ensures { OnOk result
        (out.new.items ≡ out.old.items ++ joined (map namespace_text names.now)) }
{
    for i in 0..names.len() {
        push_comma_before(out, i)?;
        let (prefix, uri) = names.at(i);
        push_binding(alloc, out, prefix, uri)?;
    }
    Ok(())
}
