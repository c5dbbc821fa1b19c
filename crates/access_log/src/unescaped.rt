//! Whether a text has nothing to escape, eight or sixteen bytes at a time. Two loads that overlap
//! cover the end of a text.

ghost use Rattle.std.specs.Prelude.{◌≡◌, ◌+◌, ◌≤◌, ◌<◌, length, true};
ghost use Rattle.std.specs.Bool.{OnTrue};
ghost use Rattle.access_log.specs.Plain.{is_plain_text, ArePlainBetween};

use std::simd::prelude::*;

/// Whether nothing needs escaping; `false` also if that isn't known.
#[inline(always)]
pub fn is_plain(text: &[u8]) -> bool
    ensures { OnTrue result (is_plain_text text.now ≡ true) }
{
    all_plain(text)
}

#[inline(always)]
fn all_plain(text: &[u8]) -> bool
    ensures { OnTrue result (ArePlainBetween text.now 0 (length text.now)) }
{
    let len = text.len();
    if len >= 16 {
        long_plain(text)
    } else if len >= 8 {
        plain_8(text, 0) && plain_8(text, len - 8)
    } else {
        few_plain(text)
    }
}

#[inline(always)]
fn long_plain(text: &[u8]) -> bool
    requires { 16 ≤ length text.now }
    ensures { OnTrue result (ArePlainBetween text.now 0 (length text.now)) }
{
    let mut at = 0;
    while text.len() - at > 16 {
        if !plain_16(text, at) {
            return false;
        }
        at += 16;
    }
    plain_16(text, text.len() - 16)
}

#[inline(always)]
fn plain_16(text: &[u8], at: usize) -> bool
    requires { at + 16 ≤ length text.now }
    ensures { OnTrue result (ArePlainBetween text.now at (at + 16)) }
{
    let v = u8x16::from_slice(&text[at..]);
    (v.simd_eq(u8x16::splat(b'"'))
        | v.simd_eq(u8x16::splat(b'\\'))
        | v.simd_lt(u8x16::splat(0x20))
        | v.simd_ge(u8x16::splat(0x7f))).to_bitmask()
        == 0
}

#[inline(always)]
fn plain_8(text: &[u8], at: usize) -> bool
    requires { at + 8 ≤ length text.now }
    ensures { OnTrue result (ArePlainBetween text.now at (at + 8)) }
{
    let v = u8x8::from_slice(&text[at..]);
    (v.simd_eq(u8x8::splat(b'"'))
        | v.simd_eq(u8x8::splat(b'\\'))
        | v.simd_lt(u8x8::splat(0x20))
        | v.simd_ge(u8x8::splat(0x7f))).to_bitmask()
        == 0
}

#[inline(always)]
fn few_plain(text: &[u8]) -> bool
    ensures { OnTrue result (ArePlainBetween text.now 0 (length text.now)) }
{
    for &byte in text {
        if byte == b'"' || byte == b'\\' || byte < 0x20 || byte >= 0x7f {
            return false;
        }
    }
    true
}
