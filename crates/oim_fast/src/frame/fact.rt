//! Writing a fact.

ghost use Rattle.std.specs.Prelude.{◌≡◌, ◌+◌, ◌-◌, ◌*◌, ◌<◌, ◌≤◌, ◌++◌, ◌∷◌, [], IfSome, MatchOption, OnOk, Some, codes, flat_map, length, pos, take, true};
ghost use Rattle.std.specs.List.{list_all};
ghost use mathlib.Core.List.{IsPrefix};
ghost use Rattle.oim_json.specs.JsonText.{decimals_text, escaped_byte, value_text};
ghost use Rattle.oim_json.specs.state.Writing.{is_unescaped};
ghost use Rattle.oim_resolve.specs.Facts.{is_numeric, places};
ghost use Rattle.oim_fast.specs.state.FactTexts.{EndsInstead, IsOfReferences, PutsFact, TriesFact, WritesDecimals, WritesObject, WritesOpening, fact_room, has_settled, value_of};
ghost use Rattle.oim_text.specs.Places.{Placed};
ghost use Rattle.oim_text.specs.state.Rooms.{Stays};

use crate::frame::frame_decimals::FrameDecimals;
use crate::frame::frame_text::FrameText;
use crate::frame::value::Value;
use crate::frame::write::{copy_range, write_runs};
use itoa::Buffer;
use oim_cells::Accuracy;
use oim_row::References;
use oim_text::{
    TextBuffer, copy, copy_escaped, copy_short, copy_text, make_room, put_escaped_front,
};
use std::alloc::AllocError;

/// Writes a byte, and returns where it ends.
#[inline(always)]
fn write_byte(memory: &mut [u8], at: usize, byte: u8) -> usize
    requires { at < length memory.old }
    ensures { Placed memory.old memory.new at (byte ∷ []) result }
{
    memory[at] = byte;
    at + 1
}

/// Writes a number of decimals from 0 to 9 with a comma after it, and returns where it ends.
/// Without it, by `write_places`: `positions` +1.6 %, `mixed` +1.3 %, `ids` +1.3 %.
#[inline(always)]
fn write_digit(memory: &mut [u8], from: usize, digit: u8) -> usize
    requires memory { from + 32 ≤ length memory.old }
    requires digit { digit < 10 }
    ensures bytes { Placed memory.old memory.new from (decimals_text (Some (pos digit))) result }
    ensures few { result ≤ from + 32 }
{
    let at = copy_short(memory, from, b"\"decimals\":");
    let end = write_byte(memory, at, b'0' + digit);
    write_byte(memory, end, b',')
}

/// Writes a number of decimals with a comma after it, and returns where it ends.
#[inline(never)]
fn write_places(memory: &mut [u8], from: usize, places: i32) -> usize
    requires { from + 32 ≤ length memory.old }
    ensures bytes { Placed memory.old memory.new from (decimals_text (Some places)) result }
    ensures few { result ≤ from + 32 }
{
    let mut buffer = Buffer::new();
    let digits = buffer.format(places).as_bytes();
    let at = copy_short(memory, from, b"\"decimals\":");
    let end = copy_short(memory, at, digits);
    copy_short(memory, end, b",")
}

/// Writes the decimals of a suffix with a comma after them, or nothing if the number is exact.
/// Returns where they end.
#[inline(always)]
#[tactic(auto, unfolding(oim_json::specs::JsonText::decimals_text))]
fn write_accuracy(memory: &mut [u8], from: usize, accuracy: Accuracy) -> usize
    requires { from + 32 ≤ length memory.old }
    ensures bytes { Placed memory.old memory.new from (decimals_text (places accuracy)) result }
    ensures few { result ≤ from + 32 }
{
    match accuracy {
        Accuracy::Places(places) => match u8::try_from(places) {
            Ok(digit) if digit < 10 => write_digit(memory, from, digit),
            _ => write_places(memory, from, places),
        },
        Accuracy::Infinite => from,
    }
}

/// The most bytes of decimals with a comma after them.
const DECIMALS: usize = 32;

/// Writes the decimals of a number that its frame does not have, with a comma after them. Returns
/// where they end, or None if they are not known or have a fault.
#[inline(always)]
fn write_decimals(
    frame: &FrameText,
    references: &References<'_>,
    value: &Value<'_>,
    memory: &mut [u8],
    from: usize,
) -> Option<usize>
    requires number { is_numeric frame.now.kind ≡ true }
    requires references { IsOfReferences (length references.now) frame.now }
    requires memory { from + 64 ≤ length memory.old }
    ensures { MatchOption result (Stays memory.old memory.new from) (λ end. WritesDecimals references.now frame.now value.now memory.old memory.new from end) }
{
    if value.is_nil {
        return Some(from);
    }
    if let Some(accuracy) = value.accuracy {
        return Some(write_accuracy(memory, from, accuracy));
    }
    let FrameDecimals::Reference(reference) = frame.decimals else {
        return None;
    };
    let answer = references.at(reference);
    if !answer.is_sound || answer.json.len() > DECIMALS {
        return None;
    }
    Some(copy_text(memory, from, &answer.json))
}

/// Returns whether the frame's decimals are those of the fact.
#[inline(always)]
fn has_settled(frame: &FrameText, value: &Value<'_>) -> bool
    ensures { result ≡ has_settled frame.now value.now }
{
    if !frame.is_number() {
        return true;
    }
    !value.is_nil && value.accuracy.is_none() && matches!(&frame.decimals, FrameDecimals::Settled)
}

/// Writes the text before the dimensions if it differs from the frame's. Returns where it ends and
/// from where on the frame's text follows, or None if the decimals are not known or have a fault.
#[inline(always)]
fn write_opening(
    frame: &FrameText,
    references: &References<'_>,
    value: &Value<'_>,
    memory: &mut [u8],
    from: usize,
) -> Option<(usize, usize)>
    requires references { IsOfReferences (length references.now) frame.now }
    requires memory { from + (length frame.now.lead + length frame.now.settled) + 64 ≤ length memory.old }
    ensures { MatchOption result (Stays memory.old memory.new from) (λ o. WritesOpening references.now frame.now value.now memory.old memory.new from o.0 o.1) }
{
    if has_settled(frame, value) {
        return Some((from, 0));
    }
    let at = copy_range(memory, from, &frame.text, 0, frame.lead);
    let at = write_decimals(frame, references, value, memory, at)?;
    Some((at, frame.opening))
}

/// The text between dimensions and value: the first ten bytes.
const CLOSING: &[u8] = b"},\"value\":                                ";

/// Takes back the comma after the last dimension, if one is after `body`, and closes the
/// dimensions.
#[inline(always)]
fn close_dimensions(memory: &mut [u8], body: usize, end: usize) -> usize
    requires order { body ≤ end }
    requires memory { end + 42 ≤ length memory.old }
    ensures { Placed memory.old memory.new (body + ((end - body) - 1)) (codes "},\"value\":") result }
{
    let at = if body < end { end - 1 } else { end };
    copy(memory, at, CLOSING, 10)
}

/// Writes what is between the quotes of a value. A number needs no escape.
#[inline(always)]
fn write_text(is_number: bool, value: &Value<'_>, memory: &mut [u8], from: usize) -> usize
    requires value { value.now.len ≤ length value.now.bytes.now }
    requires plain { is_number ≡ true → list_all is_unescaped (take value.now.len value.now.bytes.now) ≡ true }
    requires memory { from + 6 * value.now.len + 32 ≤ length memory.old }
    ensures { Placed memory.old memory.new from (flat_map escaped_byte (take value.now.len value.now.bytes.now)) result }
{
    if is_number {
        copy(memory, from, value.bytes, value.len)
    } else {
        copy_escaped(memory, from, value.bytes, value.len)
    }
}

/// Writes the value and the end of the fact.
#[inline(always)]
fn write_value(is_number: bool, value: &Value<'_>, memory: &mut [u8], from: usize) -> usize
    requires value { value.now.len ≤ length value.now.bytes.now }
    requires plain { is_number ≡ true → IfSome (value_of value.now) (λ t. list_all is_unescaped t ≡ true) }
    requires memory { from + 6 * value.now.len + 64 ≤ length memory.old }
    ensures bytes { Placed memory.old memory.new from (value_text (value_of value.now) ++ codes "}") result }
    ensures behind { result + 32 ≤ length memory.new }
{
    if value.is_nil {
        return copy_short(memory, from, b"null}");
    }
    let at = copy_short(memory, from, b"\"");
    let at = write_text(is_number, value, memory, at);
    let at = write_byte(memory, at, b'"');
    write_byte(memory, at, b'}')
}

/// The longest value that is written after a single test of the room.
const LONGEST: usize = 1024;

/// About the most bytes that are made ready for a fact before its value, and for what its
/// references give. A fact that may need more goes the plain way.
const MOST_BYTES: usize = 1 << 26;

/// Returns the most bytes that a fact takes after a start of `start` bytes, if a reference gives at
/// most `most` bytes and the value has `value`. Returns None if they are too many.
#[inline(always)]
#[tactic(auto, using(std::proofs::lemmas::Nat::le_or_l, std::proofs::lemmas::Nat::le_or_r))]
fn room_for(frame: &FrameText, most: u32, start: usize, value: usize) -> Option<usize>
    requires { value ≤ 1024 }
    ensures { IfSome result (λ memory. start + fact_room frame.now most value ≤ memory) }
{
    let count = frame.runs.len();
    let size = frame.text.len();
    // `MOST_BYTES` is a power of two, so this tests all three numbers at once.
    if start | size | count >= MOST_BYTES {
        return None;
    }
    let given = count * (most as usize);
    if given >= MOST_BYTES {
        return None;
    }
    Some(start + size + given + 6 * value + 128)
}

/// Writes the fact of a frame from the dot after the row's identifier on. Returns where it ends, or
/// None if the fast way leaves it.
#[inline(always)]
fn write_object(
    frame: &FrameText,
    references: &References<'_>,
    most: usize,
    value: &Value<'_>,
    memory: &mut [u8],
    from: usize,
) -> Option<usize>
    requires value { value.now.len ≤ length value.now.bytes.now }
    requires plain { is_numeric frame.now.kind ≡ true → IfSome (value_of value.now) (λ t. list_all is_unescaped t ≡ true) }
    requires references { IsOfReferences (length references.now) frame.now }
    requires memory { from + fact_room frame.now most value.now.len ≤ length memory.old }
    ensures object { MatchOption result (Stays memory.old memory.new from) (λ end. WritesObject references.now frame.now value.now memory.old memory.new from end) }
    ensures behind { IfSome result (λ end. end + 32 ≤ length memory.new) }
{
    let (at, rest) = write_opening(frame, references, value, memory, from)?;
    let body = at + (frame.body - rest);
    let end = write_runs(
        &frame.text,
        frame.runs.as_slice(),
        references,
        most,
        memory,
        at,
        rest,
    )?;
    let at = close_dimensions(memory, body, end);
    Some(write_value(frame.is_number(), value, memory, at))
}

/// Writes a fact whose text begins with `start`. Returns where it ends, or None if the fast way
/// leaves it.
#[inline(always)]
fn write_fact(
    frame: &FrameText,
    references: &References<'_>,
    most: usize,
    start: &TextBuffer,
    value: &Value<'_>,
    memory: &mut [u8],
    from: usize,
) -> Option<usize>
    requires value { value.now.len ≤ length value.now.bytes.now }
    requires plain { is_numeric frame.now.kind ≡ true → IfSome (value_of value.now) (λ t. list_all is_unescaped t ≡ true) }
    requires references { IsOfReferences (length references.now) frame.now }
    requires memory { from + length start.now.items + fact_room frame.now most value.now.len ≤ length memory.old }
    ensures fact { TriesFact references.now frame.now value.now start.now.items memory.old memory.new from result }
    ensures behind { IfSome result (λ end. end + 32 ≤ length memory.new) }
{
    let at = copy_text(memory, from, start);
    write_object(frame, references, most, value, memory, at)
}

/// Appends a fact whose text begins with `start` and whose value is short. Returns false, and
/// appends nothing, if the fast way leaves it.
#[inline(always)]
fn put_short(
    frame: &FrameText,
    references: &References<'_>,
    start: &TextBuffer,
    value: &Value<'_>,
    out: &mut TextBuffer,
) -> Result<bool, AllocError>
    requires value { value.now.len ≤ length value.now.bytes.now }
    requires short { value.now.len ≤ 1024 }
    requires plain { is_numeric frame.now.kind ≡ true → IfSome (value_of value.now) (λ t. list_all is_unescaped t ≡ true) }
    requires references { IsOfReferences (length references.now) frame.now }
    ensures { PutsFact references.now frame.now value.now start.now.items out.old.items out.new.items result }
{
    let most = references.most();
    let Some(size) = room_for(frame, most, start.len(), value.len) else {
        return Ok(false);
    };
    make_room(&mut out.memory, out.len, size)?;
    let end = write_fact(
        frame,
        references,
        most as usize,
        start,
        value,
        &mut out.memory,
        out.len,
    );
    match end {
        Some(end) => {
            out.len = end;
            Ok(true)
        }
        None => Ok(false),
    }
}

/// Writes a value and the end of its fact over those of the empty text, which are the last two
/// bytes. If memory runs out, the text before them stays.
fn put_value(out: &mut TextBuffer, value: &Value<'_>) -> Result<(), AllocError>
    requires value { value.now.len ≤ length value.now.bytes.now }
    requires end { 2 ≤ length out.old.items }
    ensures text { OnOk result (EndsInstead value.now out.old.items out.new.items) }
    ensures stays { IsPrefix (take (length out.old.items - 2) out.old.items) out.new.items }
{
    let end = out.len() - 2;
    out.truncate(end);
    out.reserve(value.len)?;
    put_escaped_front(out, value.bytes, value.len)?;
    out.put(b"\"}")
}

/// Appends a fact whose value is long. It appends the fact of the empty text first, and then
/// replaces the end. Returns false, and appends nothing, if the fast way leaves it.
///
/// Without it, by the plain way: `block` +124 %, which has one text of 1 MB.
#[cold]
#[inline(never)]
fn put_long(
    frame: &FrameText,
    references: &References<'_>,
    start: &TextBuffer,
    value: Value<'_>,
    out: &mut TextBuffer,
) -> Result<bool, AllocError>
    requires value { value.len ≤ length value.bytes.now }
    requires references { IsOfReferences (length references.now) frame.now }
    ensures { PutsFact references.now frame.now value.entry start.now.items out.old.items out.new.items result }
{
    if value.is_nil {
        return Ok(false);
    }
    let before = out.len();
    let empty = value.emptied();
    if !put_short(frame, references, start, &empty, out)? {
        return Ok(false);
    }
    match put_value(out, &value) {
        Ok(()) => Ok(true),
        Err(short) => {
            out.truncate(before);
            Err(short)
        }
    }
}

/// Appends a fact with a value of any length. Returns false, and appends nothing, if the fast way
/// leaves it.
#[inline(always)]
fn put_any(
    frame: &FrameText,
    references: &References<'_>,
    start: &TextBuffer,
    value: &Value<'_>,
    out: &mut TextBuffer,
) -> Result<bool, AllocError>
    requires value { value.now.len ≤ length value.now.bytes.now }
    requires plain { is_numeric frame.now.kind ≡ true → IfSome (value_of value.now) (λ t. list_all is_unescaped t ≡ true) }
    requires references { IsOfReferences (length references.now) frame.now }
    ensures { PutsFact references.now frame.now value.now start.now.items out.old.items out.new.items result }
{
    if value.len > LONGEST {
        put_long(frame, references, start, *value, out)
    } else {
        put_short(frame, references, start, value, out)
    }
}

/// Does the work of `put_any` for a value that is nil or has a suffix. It is a call of its own
/// because the other values are more frequent and are inlined.
/// Without it: `wide` +3.7 %, `positions` +0.8 %, `ids` +0.7 %.
#[inline(never)]
fn put_unsettled(
    frame: &FrameText,
    references: &References<'_>,
    start: &TextBuffer,
    value: Value<'_>,
    out: &mut TextBuffer,
) -> Result<bool, AllocError>
    requires value { value.len ≤ length value.bytes.now }
    requires plain { is_numeric frame.now.kind ≡ true → IfSome (value_of value) (λ t. list_all is_unescaped t ≡ true) }
    requires references { IsOfReferences (length references.now) frame.now }
    ensures { PutsFact references.now frame.now value.entry start.now.items out.old.items out.new.items result }
{
    put_any(frame, references, start, &value, out)
}

/// Appends a fact whose text begins with `start`. Returns false, and appends nothing, if the fast
/// way leaves it. If memory runs out, appends nothing.
#[inline(always)]
pub(crate) fn put_fact(
    frame: &FrameText,
    references: &References<'_>,
    start: &TextBuffer,
    value: &Value<'_>,
    out: &mut TextBuffer,
) -> Result<bool, AllocError>
    requires value { value.now.len ≤ length value.now.bytes.now }
    requires plain { is_numeric frame.now.kind ≡ true → IfSome (value_of value.now) (λ t. list_all is_unescaped t ≡ true) }
    requires references { IsOfReferences (length references.now) frame.now }
    ensures { PutsFact references.now frame.now value.now start.now.items out.old.items out.new.items result }
{
    if value.is_nil || value.accuracy.is_some() {
        return put_unsettled(frame, references, start, *value, out);
    }
    put_any(frame, references, start, value, out)
}
