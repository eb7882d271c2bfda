//! A growing text in a buffer that is initialized ahead of it.

ghost use Rattle.std.specs.Prelude.{◌≡◌, ◌+◌, ◌-◌, ◌<◌, ◌≤◌, ◌++◌, ◌∷◌, [], IfOk, OnOk, if◌then◌else◌, is_ok, length, take};

use std::alloc::{AllocError, Global};
use std::marker::Model;

/// A text that grows. A contract sees its bytes.
///
/// The bytes after the text are initialized ahead, so that a piece is appended with one capacity
/// test and one copy. At least 32 bytes follow a text that is not empty, so that it is copied out
/// without a test.
#[derive(Drop)]
pub struct TextBuffer {
    /// The text, then bytes without meaning.
    pub memory: Vec<u8>,
    /// The length of the text in bytes.
    pub len: usize,
}

impl Model for TextBuffer {
    ghost use Rattle.std.specs.Prelude.{take};
    ghost use Rattle.oim_text.specs.Buffers.{BufferText};
    ghost use Rattle.oim_text.specs.state.Rooms.{IsPadded};

    ghost Value = { BufferText };

    ghost view = { λ p. record { items = take p.len p.memory.items } };

    ghost invariant = { λ p. IsPadded p.len p.memory.items };
}

/// Makes `memory` at least `len + more` long and keeps its bytes.
#[inline(always)]
pub fn make_room(memory: &mut Vec<u8>, len: usize, more: usize) -> Result<(), AllocError>
    requires { len ≤ length memory.old.items }
    ensures stays { take len memory.new.items ≡ take len memory.old.items }
    ensures within { length memory.old.items ≤ length memory.new.items }
    ensures ready { OnOk result (len + more ≤ length memory.new.items) }
{
    if more <= memory.len() - len {
        return Ok(());
    }
    grow(memory, len, more)
}

/// Bytes that are initialized after a text so that it is copied fastest.
const BEHIND: usize = 64;

/// The least bytes after a text that is not empty.
const LEAST_BEHIND: usize = 32;

/// The least bytes by which the buffer grows.
const LEAST: usize = 128;

/// Bytes that are initialized beyond those needed at once.
const AHEAD: usize = 1024;

/// Grows `memory` as `make_room` does, if it is too short. It initializes only a little more than
/// is needed at once.
#[cold]
#[inline(never)]
fn grow(memory: &mut Vec<u8>, len: usize, more: usize) -> Result<(), AllocError>
    requires within { len ≤ length memory.old.items }
    requires missing { length memory.old.items < len + more }
    ensures stays { take len memory.new.items ≡ take len memory.old.items }
    ensures within { length memory.old.items ≤ length memory.new.items }
    ensures ready { OnOk result (len + more ≤ length memory.new.items) }
{
    let filled = memory.len();
    let missing = more - (filled - len);
    memory.reserve(if missing < LEAST { LEAST } else { missing })?;
    let wanted = len.saturating_add(more).saturating_add(AHEAD);
    let all = memory.capacity();
    memory.resize(if wanted < all { wanted } else { all }, 0)
}

impl TextBuffer {
    /// Makes the empty text. It takes no memory.
    pub fn new(alloc: Global) -> TextBuffer
        ensures items { result.items ≡ [] }
    {
        TextBuffer {
            memory: Vec::new(alloc),
            len: 0,
        }
    }

    /// Makes the empty text in the memory of `memory`, with capacity for `len` bytes.
    pub fn within(memory: Vec<u8>, len: usize) -> Result<TextBuffer, AllocError>
        ensures items { IfOk result (λ p. p.items ≡ []) }
    {
        let mut memory = memory;
        memory.reserve(len.saturating_sub(memory.len()))?;
        Ok(TextBuffer { memory, len: 0 })
    }

    /// Returns the length of the text in bytes.
    #[inline(always)]
    pub fn len(&self) -> usize
        ensures { result ≡ length self.now.items }
    {
        self.len
    }

    /// Returns the text.
    #[inline(always)]
    pub fn as_slice(&self) -> &[u8]
        ensures value { result.now ≡ self.now.items }
    {
        &self.memory[..self.len]
    }

    /// Initializes bytes after the text that can be read with it, so that it is copied fastest.
    pub fn pad(&mut self) -> Result<(), AllocError>
        ensures items { self.new.items ≡ self.old.items }
    {
        make_room(&mut self.memory, self.len, BEHIND)
    }

    /// Moves the text to memory of its own size, so that no gap is left after it. If memory runs
    /// out, it stays.
    pub fn fit(&mut self, alloc: Global)
        ensures items { self.new.items ≡ self.old.items }
    {
        self.memory.truncate(self.len.saturating_add(LEAST_BEHIND));
        let Ok(mut memory) = Vec::with_capacity(alloc, self.memory.len()) else {
            return;
        };
        if memory.extend_from_slice(self.memory.as_slice()).is_ok() {
            self.memory = memory;
        }
    }

    /// Reserves capacity for `more` bytes after the text.
    pub fn reserve(&mut self, more: usize) -> Result<(), AllocError>
        ensures items { self.new.items ≡ self.old.items }
    {
        let ready = self.memory.len() - self.len;
        self.memory.reserve(more.saturating_sub(ready))
    }

    /// Removes all of the text and keeps its memory.
    pub fn clear(&mut self)
        ensures items { self.new.items ≡ [] }
    {
        self.len = 0;
    }

    /// Keeps the first `len` bytes, or all if the text is shorter, and keeps its memory.
    #[inline(always)]
    pub fn truncate(&mut self, len: usize)
        ensures items { self.new.items ≡ take len self.old.items }
    {
        if len < self.len {
            self.len = len;
        }
    }

    /// Appends bytes, and pads the text as `pad` does. If memory runs out, it appends nothing.
    #[inline(always)]
    pub fn put(&mut self, bytes: &[u8]) -> Result<(), AllocError>
        ensures items { self.new.items ≡ (if is_ok result then self.old.items ++ bytes.now else self.old.items) }
    {
        let count = bytes.len();
        make_room(&mut self.memory, self.len, count.saturating_add(BEHIND))?;
        let end = self.len + count;
        self.memory[self.len..end].copy_from_slice(bytes);
        self.len = end;
        Ok(())
    }

    /// Appends a byte. If memory runs out, it appends nothing.
    #[inline(always)]
    pub fn push(&mut self, byte: u8) -> Result<(), AllocError>
        ensures items { self.new.items ≡ (if is_ok result then self.old.items ++ byte ∷ [] else self.old.items) }
    {
        make_room(&mut self.memory, self.len, 1 + BEHIND)?;
        self.memory[self.len] = byte;
        self.len += 1;
        Ok(())
    }

    /// Replaces the last byte.
    #[inline(always)]
    pub fn set_last(&mut self, byte: u8)
        requires { 0 < length self.old.items }
        ensures items { self.new.items ≡ take (length self.old.items - 1) self.old.items ++ byte ∷ [] }
    {
        self.memory[self.len - 1] = byte;
    }

    /// Returns the text as a vector, in the same memory.
    pub fn into_vec(self) -> Vec<u8>
        ensures items { result.items ≡ self.items }
    {
        let TextBuffer { mut memory, len } = self;
        memory.truncate(len);
        memory
    }
}
