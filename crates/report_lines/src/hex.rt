//! Bytes that stand as digits.

ghost use Rattle.std.specs.Prelude.{◌≡◌, ◌≤◌, ◌<◌, ◌+◌, ◌*◌, ◌/◌, ◌%◌, ◌++◌, not, true, false, map, length, position};
ghost use Rattle.std.specs.Prelude.{bytes_eq, slice_index, None, Some, MatchOption, OnOk};
ghost use Rattle.std.specs.List.{list_all, prefix_len, take_while};
ghost use Rattle.report_lines.specs.Fronts as rules;

use crate::fronts::behind;
use memchr::memchr;
use std::alloc::AllocError;
use std::marker::Model;
use std::simd::prelude::*;

/// Bytes that stand as hexadecimal digits, two a byte, seen as these bytes.
#[derive(Drop)]
pub struct HexText<'a> {
    digits: &'a [u8],
}

impl<'a> Model for HexText<'a> {
    ghost use Rattle.std.specs.Prelude.{◌≡◌, true, List, ℕ};
    ghost use Rattle.std.specs.List.{list_all};
    ghost use Rattle.report_lines.specs.Fronts.{bytes_in, is_hex};

    ghost Value = { List ℕ };

    ghost view = { λ h. bytes_in h.digits.now };

    ghost invariant = { λ h. list_all is_hex h.digits.now ≡ true };
}

impl<'a> HexText<'a> {
    /// The bytes that these digits write.
    #[inline(always)]
    pub(crate) fn of(digits: &'a [u8]) -> HexText<'a>
        requires { list_all rules.is_hex digits.now ≡ true }
        ensures { result ≡ rules.bytes_in digits.now }
    {
        HexText { digits }
    }

    /// How many bytes they are.
    pub fn len(&self) -> usize
        ensures { result ≡ length self.now }
    {
        count_of(self.digits)
    }

    /// Appends the bytes. The error is want of memory.
    pub fn append_to(&self, out: &mut Vec<u8>) -> Result<(), AllocError>
        ensures { OnOk result (out.new.items ≡ out.old.items ++ self.now) }
    {
        append_bytes(self.digits, out)
    }

    /// Whether they are these bytes.
    pub fn is_of(&self, bytes: &[u8]) -> bool
        ensures { result ≡ bytes_eq bytes.now self.now }
    {
        are_bytes(self.digits, bytes)
    }
}

/// How many bytes digits write.
fn count_of(digits: &[u8]) -> usize
    ensures { result ≡ length (rules.bytes_in digits.now) }
{
    digits.len() / 2
}

/// Appends the bytes that digits write.
fn append_bytes(digits: &[u8], out: &mut Vec<u8>) -> Result<(), AllocError>
    requires { list_all rules.is_hex digits.now ≡ true }
    ensures { OnOk result (out.new.items ≡ out.old.items ++ rules.bytes_in digits.now) }
{
    let start = out.len();
    out.resize(start + digits.len() / 2, 0)?;
    decode(digits, &mut out[start..]);
    Ok(())
}

/// Writes the bytes of digits. Most of a report is such digits, so vectors make sixteen bytes at a time.
fn decode(digits: &[u8], bytes: &mut [u8])
    requires digits { list_all rules.is_hex digits.now ≡ true }
    requires room { length bytes.old ≡ length digits.now / 2 }
    ensures { bytes.new ≡ rules.bytes_in digits.now }
{
    let whole = bytes.len() / 16 * 16;
    let (blocks, rest) = digits.split_at(2 * whole);
    let (front, back) = bytes.split_at_mut(whole);
    decode_blocks(blocks, front);
    decode_rest(rest, back);
}

/// Writes the bytes of digits, where they are blocks of sixteen bytes, each of them a vector.
fn decode_blocks(digits: &[u8], bytes: &mut [u8])
    requires digits { list_all rules.is_hex digits.now ≡ true }
    requires whole { length bytes.old % 16 ≡ 0 }
    requires room { length digits.now ≡ 2 * length bytes.old }
    ensures { bytes.new ≡ rules.bytes_in digits.now }
{
    'sixteens: for block in 0..bytes.len() / 16 {
        let first = u8x16::from_slice(&digits[32 * block..]);
        let second = u8x16::from_slice(&digits[32 * block + 16..]);
        bytes_of(first, second).copy_to_slice(&mut bytes[16 * block..]);
    }
}

/// Writes the bytes of digits one by one: of those that fill no vector.
fn decode_rest(digits: &[u8], bytes: &mut [u8])
    requires { length bytes.old ≡ length digits.now / 2 }
    ensures { bytes.new ≡ rules.bytes_in digits.now }
{
    'bytes: for i in 0..digits.len() / 2 {
        bytes[i] = byte_of(digits[2 * i], digits[2 * i + 1]);
    }
}

/// Whether digits write these bytes.
fn are_bytes(digits: &[u8], bytes: &[u8]) -> bool
    requires { list_all rules.is_hex digits.now ≡ true }
    ensures { result ≡ bytes_eq bytes.now (rules.bytes_in digits.now) }
{
    if bytes.len() != digits.len() / 2 {
        return false;
    }
    let whole = bytes.len() / 16 * 16;
    let (blocks, rest) = digits.split_at(2 * whole);
    let (front, back) = bytes.split_at(whole);
    are_blocks(blocks, front) && are_rest(rest, back)
}

/// Whether digits write these bytes, where they are blocks of sixteen bytes.
fn are_blocks(digits: &[u8], bytes: &[u8]) -> bool
    requires digits { list_all rules.is_hex digits.now ≡ true }
    requires whole { length bytes.now % 16 ≡ 0 }
    requires long { length digits.now ≡ 2 * length bytes.now }
    ensures { result ≡ bytes_eq bytes.now (rules.bytes_in digits.now) }
{
    'sixteens: for block in 0..bytes.len() / 16 {
        let first = u8x16::from_slice(&digits[32 * block..]);
        let second = u8x16::from_slice(&digits[32 * block + 16..]);
        if bytes_of(first, second) != u8x16::from_slice(&bytes[16 * block..]) {
            return false;
        }
    }
    true
}

/// The same of digits that fill no vector, one byte after the other.
fn are_rest(digits: &[u8], bytes: &[u8]) -> bool
    requires { length bytes.now ≡ length digits.now / 2 }
    ensures { result ≡ bytes_eq bytes.now (rules.bytes_in digits.now) }
{
    'bytes: for i in 0..bytes.len() {
        if bytes[i] != byte_of(digits[2 * i], digits[2 * i + 1]) {
            return false;
        }
    }
    true
}

/// The sixteen bytes of two vectors of digits.
#[inline(always)]
fn bytes_of(first: u8x16, second: u8x16) -> u8x16
    requires { list_all rules.is_hex (first ++ second) ≡ true }
    ensures { result ≡ rules.bytes_in (first ++ second) }
{
    let (high, low) = first.deinterleave(second);
    (values_of(high) << u8x16::splat(4)) + values_of(low)
}

/// What digits are worth: their lower four bits, and 9 more where they are letters.
#[inline(always)]
fn values_of(digits: u8x16) -> u8x16
    requires { list_all rules.is_hex digits ≡ true }
    ensures { result ≡ map rules.hex_value digits }
{
    (digits & u8x16::splat(15)) + (digits >> u8x16::splat(6)) * u8x16::splat(9)
}

/// What a digit is worth.
#[inline(always)]
fn value_of(c: u8) -> u8
    ensures value { result ≡ rules.hex_value c }
    ensures small { result < 16 }
{
    if c >= b'0' && c <= b'9' {
        return c - b'0';
    }
    if c >= b'a' && c <= b'f' {
        return c - b'a' + 10;
    }
    0
}

/// The byte of two digits.
#[inline(always)]
fn byte_of(high: u8, low: u8) -> u8
    ensures { result ≡ rules.hex_value high * 16 + rules.hex_value low }
{
    value_of(high) * 16 + value_of(low)
}

/// Whether a byte is a digit of lower case.
#[inline(always)]
fn is_hex(c: u8) -> bool
    ensures { result ≡ rules.is_hex c }
{
    c >= b'0' && c <= b'9' || c >= b'a' && c <= b'f'
}

/// The place of the first byte that is no digit.
#[inline(always)]
fn first_other(text: &[u8]) -> Option<usize>
    ensures { result ≡ position (λ c. not (rules.is_hex c)) text.now }
{
    text.iter().position(|c| !is_hex(*c))
}

/// Whether all bytes are digits. Nothing ends the loop early, so that it can be done by vectors.
fn are_hex(text: &[u8]) -> bool
    ensures { result ≡ list_all rules.is_hex text.now }
{
    let mut all = true;
    'bytes: for i in 0..text.len() {
        all &= is_hex(text[i]);
    }
    all
}

/// How many bytes stand before the first space, or all where none does.
fn word_length(text: &[u8]) -> usize
    ensures within { result ≤ length text.now }
    ensures ended { result < length text.now → rules.is_hex (slice_index text.now result) ≡ false }
{
    memchr(b' ', text).unwrap_or(text.len())
}

/// How many digits a text begins with. Mostly these are all bytes before a space.
fn digits_in(text: &[u8]) -> usize
    ensures count { result ≡ prefix_len rules.is_hex text.now }
    ensures within { result ≤ length text.now }
{
    let end = word_length(text);
    if are_hex(&text[..end]) {
        return end;
    }
    first_other(text).unwrap_or(text.len())
}

/// Whether digits write some bytes, and whole ones.
#[inline(always)]
fn are_pairs(digits: &[u8]) -> bool
    ensures { result ≡ rules.are_pairs digits.now }
{
    !digits.is_empty() && digits.len() % 2 == 0
}

/// The bytes at the front, by all digits there, and what stands behind them.
#[tactic(auto, unfolding(crate::specs::Fronts::some_hex))]
pub(crate) fn some_hex_at(text: &[u8]) -> Option<(HexText<'_>, &[u8])>
    ensures { MatchOption result (rules.some_hex text.now ≡ None)
        (λ x. rules.some_hex text.now ≡ Some (x.0, x.1.now)) }
{
    let (digits, rest) = text.split_at(digits_in(text));
    if !are_pairs(digits) {
        return None;
    }
    Some((HexText::of(digits), rest))
}

/// The same, or `-` for no bytes.
#[tactic(auto, unfolding(crate::specs::Fronts::hex_bytes, crate::specs::Fronts::or, crate::specs::Fronts::with))]
pub(crate) fn hex_at(text: &[u8]) -> Option<(HexText<'_>, &[u8])>
    ensures { MatchOption result (rules.hex_bytes text.now ≡ None)
        (λ x. rules.hex_bytes text.now ≡ Some (x.0, x.1.now)) }
{
    if let Some(rest) = behind(text, b"-") {
        return Some((HexText::of(&[]), rest));
    }
    some_hex_at(text)
}
