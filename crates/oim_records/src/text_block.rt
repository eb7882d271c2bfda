//! The length of a UTF-8 prefix of a block of 64 bytes.

ghost use Rattle.std.specs.Prelude.{◌≡◌, ◌≤◌, take, map};
ghost use Rattle.std.specs.Simd.Lanes.{mask_l};
ghost use Rattle.std.specs.Str.{IsUtf8};
ghost use Rattle.oim_records.specs.state.Bytes.{begins_none, begins_pair, is_high};

use std::simd::prelude::*;

/// Marks the non-ASCII bytes: bit k is set for byte k.
#[inline(always)]
fn high_marks(v: u8x64) -> u64
    ensures { result ≡ mask_l (map is_high v) }
{
    v.simd_ge(u8x64::splat(0x80)).to_bitmask()
}

/// Marks the bytes that begin a two-byte character: bit k is set for byte k.
#[inline(always)]
fn first_marks(v: u8x64) -> u64
    ensures { result ≡ mask_l (map begins_pair v) }
{
    (v.simd_ge(u8x64::splat(0xc2)) & v.simd_lt(u8x64::splat(0xe0))).to_bitmask()
}

/// Marks the bytes that begin no character: bit k is set for byte k.
#[inline(always)]
fn later_marks(v: u8x64) -> u64
    ensures { result ≡ mask_l (map begins_none v) }
{
    (v.simd_ge(u8x64::splat(0x80)) & v.simd_lt(u8x64::splat(0xc0))).to_bitmask()
}

/// Returns the length of a prefix that is UTF-8 of one-byte and two-byte characters.
///
/// That is 64, or 63 if the last byte begins a character, or 0 if nothing is known.
#[inline(always)]
pub(crate) fn text_len(v: u8x64) -> usize
    ensures within { result ≤ 64 }
    ensures whole { IsUtf8 (take result v) }
{
    let high = high_marks(v);
    if high == 0 {
        return 64;
    }
    let firsts = first_marks(v);
    let later = later_marks(v);
    if firsts | later != high {
        return 0;
    }
    if firsts << 1 != later {
        return 0;
    }
    if firsts >> 63 != 0 { 63 } else { 64 }
}
