//! The bytes of one block, which are looked at in one go.
ghost use Rattle.std.specs.Prelude.{◌≡◌, ◌≤◌, length};
ghost use Rattle.memchr.specs.Find.{IsFirst, Passes, is_byte3};
ghost use Rattle.doc_parts.specs.Blocks.{PassesBlock, first_set};
ghost use Rattle.doc_parts.specs.Spans.{is_short_part};

use std::simd::prelude::*;

/// How many bytes a block has.
pub(crate) const BLOCK: usize = 16;

/// The place of the lowest bit that is set, or `BLOCK`.
#[inline(always)]
fn first_set(mask: u64) -> usize
    ensures { result ≡ first_set mask 16 }
{
    if mask == 0 {
        BLOCK
    } else {
        mask.trailing_zeros() as usize
    }
}

/// The first byte of the first block that is one of these.
#[inline(always)]
pub(crate) fn first_in_block(a: u8, b: u8, c: u8, bytes: &[u8]) -> Option<usize>
    requires { 16 ≤ length bytes.now }
    ensures { IsFirst (Passes (is_byte3 a b c) bytes.now) 0 16 result }
{
    let v = u8x16::from_slice(bytes);
    let stops = v.simd_eq(u8x16::splat(a))
        | v.simd_eq(u8x16::splat(b))
        | v.simd_eq(u8x16::splat(c));
    let place = first_set(stops.to_bitmask());
    if place < BLOCK { Some(place) } else { None }
}

/// How many bytes are small letters and digits: it stops at other NameChars too.
#[inline(always)]
pub(crate) fn letters_run(bytes: &[u8]) -> usize
    requires { 16 ≤ length bytes.now }
    ensures { PassesBlock is_short_part bytes.now 0 16 result }
{
    let v = u8x16::from_slice(bytes);
    let stops = (v - u8x16::splat(b'a')).simd_ge(u8x16::splat(26))
        & (v - u8x16::splat(b'0')).simd_ge(u8x16::splat(10));
    first_set(stops.to_bitmask())
}
