//! Where the texts of a reference may be cached.

ghost use Rattle.std.specs.Prelude.{◌<◌};

use crate::words::{half_word_at, word_at};
use std::alloc::{AllocError, Global};

/// The number of places up to which the cache grows even if few texts recur, and the most places.
const MANY: usize = 256;

const MOST: usize = 8192;

/// The number of places at which a text may be cached.
/// With one: `members` +6.6 %, `datapoints` +3.8 %.
const WAYS: usize = 4;

/// The most words of a long text that its hash is made of.
const WORDS: usize = 64;

/// An index from a text's hash to the places that may cache it, with a count of the misses.
///
/// It is only a hint. Callers compare the cached text, so no contract speaks of it.
#[derive(Drop)]
pub(crate) struct TextPlaces {
    /// The hash of the text that is cached at each place, or 0.
    hashes: Vec<u32>,
    /// The misses since counting began: their number, and the hashes of the first one and of a
    /// later one.
    count: u32,
    first: u32,
    later: u32,
}

/// Returns a hash of the first words of a long text.
///
/// Without it: `positions` with 10 years' quarters as texts of 39 bytes +36 %, because texts that
/// differ only outside both ends and the middle share a hash. No shape of `bench/` has them.
#[inline(never)]
fn hash_of_words(text: &[u8]) -> u64 {
    let all = text.len() / 8;
    let words = if all < WORDS { all } else { WORDS };
    let mut hash = 0;
    for i in 0..words {
        hash = (hash ^ word_at(text, 8 * i)).wrapping_mul(0x9e37_79b9_7f4a_7c15);
        hash ^= hash >> 29;
    }
    hash
}

/// Returns a hash of the bytes of a text.
#[inline(always)]
fn hash_of_bytes(text: &[u8]) -> u64 {
    let len = text.len();
    if len >= 8 {
        let first = word_at(text, 0);
        let middle = word_at(text, len / 2 - 4);
        let last = word_at(text, len - 8);
        let ends = first ^ middle.rotate_left(21) ^ last.rotate_left(42);
        return if len > 24 {
            ends ^ hash_of_words(text)
        } else {
            ends
        };
    }
    // Without it: `positions` +1.1 %, `ids` +0.8 %.
    if len >= 4 {
        let first = u64::from(half_word_at(text, 0));
        let last = u64::from(half_word_at(text, len - 4));
        return first ^ last.rotate_left(27) ^ (len as u64);
    }
    let mut hash = len as u64;
    for i in 0..len {
        hash = (hash << 8) ^ u64::from(text[i]);
    }
    hash
}

/// Returns the hash of a text. Different texts seldom share one.
#[inline(always)]
pub(crate) fn hash_of_text(text: &[u8]) -> u32 {
    (hash_of_bytes(text).wrapping_mul(0x9e37_79b9_7f4a_7c15) >> 32) as u32
}

/// Returns the home of a hash among `places` places, a power of two.
#[inline(always)]
fn home(hash: u32, places: usize) -> usize
    requires { 0 < places }
    ensures { result < places }
{
    (hash >> 8) as usize & (places - 1)
}

/// Returns the neighbour at a step from a place among `places` places, a power of two.
#[inline(always)]
fn neighbour(place: usize, step: usize, places: usize) -> usize
    requires { 0 < places }
    ensures { result < places }
{
    (place ^ step) & (places - 1)
}

impl TextPlaces {
    /// Makes an empty index. It takes no memory.
    pub(crate) fn new(alloc: Global) -> TextPlaces {
        TextPlaces {
            hashes: Vec::new(alloc),
            count: 0,
            first: 0,
            later: 0,
        }
    }

    /// Grows the index to `places` places.
    pub(crate) fn widen(&mut self, places: usize) -> Result<(), AllocError> {
        self.hashes.resize(places, 0)
    }

    /// Returns whether this hash is recorded at a place.
    #[inline(always)]
    fn is_at(&self, place: usize, hash: u32) -> bool {
        place < self.hashes.len() && self.hashes[place] == hash
    }

    /// Returns the place at which the text with this hash may be cached.
    #[inline(always)]
    pub(crate) fn likely(&self, hash: u32, places: usize) -> usize
        requires { 0 < places }
        ensures { result < places }
    {
        let own = home(hash, places);
        if self.is_at(own, hash) {
            return own;
        }
        self.likely_near(own, hash, places)
    }

    /// Returns that place among the neighbours of the hash's home.
    #[inline(never)]
    fn likely_near(&self, own: usize, hash: u32, places: usize) -> usize
        requires { own < places }
        ensures { result < places }
    {
        for step in 1..WAYS {
            let other = neighbour(own, step, places);
            if self.is_at(other, hash) {
                return other;
            }
        }
        own
    }

    /// Returns the place for a text that is not cached: its home if that is free, else its home or
    /// one of the neighbours, in turn.
    pub(crate) fn free(&self, hash: u32, places: usize) -> usize
        requires { 0 < places }
        ensures { result < places }
    {
        let own = home(hash, places);
        if self.is_at(own, 0) {
            return own;
        }
        neighbour(own, self.count as usize % WAYS, places)
    }

    /// Records the hash of a text at a place.
    pub(crate) fn note(&mut self, hash: u32, place: usize) {
        if place < self.hashes.len() {
            self.hashes[place] = hash;
        }
    }

    /// Records a cache miss, and returns whether the cache should grow from `places`.
    ///
    /// Below `MANY` places it should grow after more misses than places. From there up to `MOST` it
    /// should grow only if a text misses a second time. Two misses are kept as samples: the first,
    /// and a later one that is replaced at each power of two, because the first may be cached by
    /// then. Counting restarts when the cache grows, and after `MOST` misses.
    ///
    /// With at most `MANY` places: `members` +56 %. Always growing up to `MOST`: `members` -6.8 %,
    /// but `positions` with another period in each row +5.2 %, and the memory of `MOST` answers.
    pub(crate) fn count(&mut self, hash: u32, places: usize) -> bool {
        let is_back = self.count > 0 && (self.first == hash || self.later == hash);
        if self.count == 0 {
            self.first = hash;
            self.later = hash;
        } else if self.count.is_power_of_two() {
            self.later = hash;
        }
        self.count = self.count.saturating_add(1);
        let count = self.count as usize;
        let are_few = if places < MANY {
            count > places
        } else {
            is_back && places < MOST
        };
        if are_few || count > MOST {
            self.count = 0;
        }
        are_few
    }
}
