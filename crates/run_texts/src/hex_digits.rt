//! The digits of bytes, by vectors.

ghost use Rattle.std.specs.Prelude.{◌≡◌, ◌*◌, ◌/◌, ◌%◌, ◌<◌, length, map, take, drop, false};
ghost use Rattle.std.specs.Fmt.{digit_glyph};
ghost use Rattle.tas_runs.specs.Report.{hex_bytes};

use std::simd::prelude::*;

/// The digits of the numbers below 16.
const GLYPHS: [u8; 16] = *b"0123456789abcdef";

/// Writes the digits of bytes: two of lower case a byte, the higher one first.
#[inline(always)]
pub(crate) fn write_digits(bytes: &[u8], digits: &mut [u8])
    requires { length digits.old ≡ 2 * length bytes.now }
    ensures { digits.new ≡ hex_bytes bytes.now }
{
    if bytes.len() < 16 {
        write_rest(bytes, digits);
    } else {
        write_many(bytes, digits);
    }
}

/// The same for many bytes. Most of a report is such digits, so vectors make those of sixteen bytes at a time.
#[inline(never)]
fn write_many(bytes: &[u8], digits: &mut [u8])
    requires { length digits.old ≡ 2 * length bytes.now }
    ensures { digits.new ≡ hex_bytes bytes.now }
{
    let (blocks, rest) = bytes.split_at(bytes.len() / 16 * 16);
    let (front, back) = digits.split_at_mut(2 * blocks.len());
    write_blocks(blocks, front);
    write_rest(rest, back);
}

/// Writes the digits of blocks of sixteen bytes, each of them a vector.
fn write_blocks(bytes: &[u8], digits: &mut [u8])
    requires whole { length bytes.now % 16 ≡ 0 }
    requires room { length digits.old ≡ 2 * length bytes.now }
    ensures { digits.new ≡ hex_bytes bytes.now }
{
    'sixteens: for block in 0..bytes.len() / 16 {
        let (first, second) = digits_of(u8x16::from_slice(&bytes[16 * block..]));
        first.copy_to_slice(&mut digits[32 * block..]);
        second.copy_to_slice(&mut digits[32 * block + 16..]);
    }
}

/// The digits of a vector's first eight bytes, and those of the other eight.
fn digits_of(bytes: u8x16) -> (u8x16, u8x16)
    ensures first { result.0 ≡ hex_bytes (take 8 bytes) }
    ensures second { result.1 ≡ hex_bytes (drop 8 bytes) }
{
    high_digits(bytes).interleave(low_digits(bytes))
}

/// The digit of each byte's higher half.
fn high_digits(bytes: u8x16) -> u8x16
    ensures { result ≡ map (λ b. digit_glyph false (b / 16)) bytes }
{
    u8x16::from_array(GLYPHS).swizzle_dyn_within::<16>(bytes >> u8x16::splat(4))
}

/// The digit of each byte's lower half.
fn low_digits(bytes: u8x16) -> u8x16
    ensures { result ≡ map (λ b. digit_glyph false (b % 16)) bytes }
{
    u8x16::from_array(GLYPHS).swizzle_dyn_within::<16>(bytes & u8x16::splat(15))
}

/// Writes the digits of bytes one by one: of those that fill no vector.
#[inline(always)]
fn write_rest(bytes: &[u8], digits: &mut [u8])
    requires { length digits.old ≡ 2 * length bytes.now }
    ensures { digits.new ≡ hex_bytes bytes.now }
{
    'bytes: for i in 0..bytes.len() {
        let byte = bytes[i];
        digits[2 * i] = digit(byte >> 4);
        digits[2 * i + 1] = digit(byte & 15);
    }
}

/// The digit of a number below 16, in lower case.
fn digit(number: u8) -> u8
    requires { number < 16 }
    ensures { result ≡ digit_glyph false number }
{
    GLYPHS[usize::from(number)]
}
