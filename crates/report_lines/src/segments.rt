//! Segments in lines: control bits, numbers, options and bytes.

ghost use Rattle.std.specs.Prelude.{◌≡◌, ◌≤◌, ◌+◌, codes, None, Some, MatchOption};
ghost use Rattle.report_lines.specs.Fronts as fronts;
ghost use Rattle.report_lines.specs.Segments as rules;
ghost use Rattle.report_lines.specs.Views.{seen_seg};

use crate::fronts::{behind, number_at};
use crate::hex::{HexText, some_hex_at};
use crate::line::SegLine;
use tas_model::Head;
use tas_num::Seq;

/// A number of 32 bits at the front, and what stands behind it.
#[inline(always)]
pub(crate) fn u32_at(text: &[u8]) -> Option<(u32, &[u8])>
    ensures { MatchOption result (fronts.u32 text.now ≡ None)
        (λ x. fronts.u32 text.now ≡ Some (x.0, x.1.now)) }
{
    let (number, rest) = number_at(4_294_967_295, text)?;
    Some((number as u32, rest))
}

/// A number of 16 bits at the front, and what stands behind it.
#[inline(always)]
pub(crate) fn u16_at(text: &[u8]) -> Option<(u16, &[u8])>
    ensures { MatchOption result (fronts.u16 text.now ≡ None)
        (λ x. fronts.u16 text.now ≡ Some (x.0, x.1.now)) }
{
    let (number, rest) = number_at(65_535, text)?;
    Some((number as u16, rest))
}

/// A number of 8 bits at the front, and what stands behind it.
#[inline(always)]
fn u8_at(text: &[u8]) -> Option<(u8, &[u8])>
    ensures { MatchOption result (fronts.u8 text.now ≡ None)
        (λ x. fronts.u8 text.now ≡ Some (x.0, x.1.now)) }
{
    let (number, rest) = number_at(255, text)?;
    Some((number as u8, rest))
}

/// One bit more, where its letter comes next.
#[inline(always)]
#[tactic(auto, unfolding(crate::specs::Segments::letter_at))]
fn letter_at(bit: u8, letter: u8, flags: u8, text: &[u8]) -> (u8, &[u8])
    requires { flags + bit ≤ 255 }
    ensures read { (result.0, result.1.now) ≡ rules.letter_at bit letter (flags, text.now) }
    ensures few { result.0 ≤ flags + bit }
{
    match text {
        [c, rest @ ..] if *c == letter => (flags + bit, rest),
        _ => (flags, text),
    }
}

/// The letters C E U A P R S F, each where its bit is set.
#[tactic(auto, unfolding(crate::specs::Segments::letters_at))]
fn letters_at(text: &[u8]) -> (u8, &[u8])
    ensures { (result.0, result.1.now) ≡ rules.letters_at text.now }
{
    let (flags, rest) = letter_at(128, b'C', 0, text);
    let (flags, rest) = letter_at(64, b'E', flags, rest);
    let (flags, rest) = letter_at(32, b'U', flags, rest);
    let (flags, rest) = letter_at(16, b'A', flags, rest);
    let (flags, rest) = letter_at(8, b'P', flags, rest);
    let (flags, rest) = letter_at(4, b'R', flags, rest);
    let (flags, rest) = letter_at(2, b'S', flags, rest);
    letter_at(1, b'F', flags, rest)
}

/// The flags: their letters, or `-` for none.
#[tactic(auto, unfolding(crate::specs::Segments::flags, crate::specs::Fronts::with))]
fn flags_at(text: &[u8]) -> Option<(u8, &[u8])>
    ensures { MatchOption result (rules.flags text.now ≡ None) (λ x. rules.flags text.now ≡ Some (x.0, x.1.now)) }
{
    let (flags, rest) = letters_at(text);
    if flags == 0 {
        let rest = behind(rest, b"-")?;
        return Some((0, rest));
    }
    Some((flags, rest))
}

/// An MSS, where one is shown.
#[tactic(auto, unfolding(crate::specs::Fronts::with))]
fn mss_at(text: &[u8]) -> Option<(Option<u16>, &[u8])>
    ensures { MatchOption result (fronts.maybe (codes " mss ") fronts.u16 text.now ≡ None)
        (λ x. fronts.maybe (codes " mss ") fronts.u16 text.now ≡ Some (x.0, x.1.now)) }
{
    match behind(text, b" mss ") {
        None => Some((None, text)),
        Some(rest) => {
            let (mss, rest) = u16_at(rest)?;
            Some((Some(mss), rest))
        }
    }
}

/// A window scale, where one is shown.
#[tactic(auto, unfolding(crate::specs::Fronts::with))]
fn scale_at(text: &[u8]) -> Option<(Option<u8>, &[u8])>
    ensures { MatchOption result (fronts.maybe (codes " ws ") fronts.u8 text.now ≡ None)
        (λ x. fronts.maybe (codes " ws ") fronts.u8 text.now ≡ Some (x.0, x.1.now)) }
{
    match behind(text, b" ws ") {
        None => Some((None, text)),
        Some(rest) => {
            let (shift, rest) = u8_at(rest)?;
            Some((Some(shift), rest))
        }
    }
}

/// A segment without its payload.
#[tactic(auto, unfolding(crate::specs::Segments::head, crate::specs::Fronts::with))]
pub(crate) fn head_at(text: &[u8]) -> Option<(Head, &[u8])>
    ensures { MatchOption result (rules.head text.now ≡ None) (λ x. rules.head text.now ≡ Some (x.0, x.1.now)) }
{
    let (flags, rest) = flags_at(text)?;
    let (seq, rest) = u32_at(behind(rest, b" seq ")?)?;
    let (ack, rest) = u32_at(behind(rest, b" ack ")?)?;
    let (window, rest) = u16_at(behind(rest, b" win ")?)?;
    let (mss, rest) = mss_at(rest)?;
    let (scale, rest) = scale_at(rest)?;
    let head = Head {
        flags,
        seq: Seq(seq),
        ack: Seq(ack),
        window,
        mss,
        scale,
    };
    Some((head, rest))
}

/// A payload, where one is shown.
#[tactic(auto, unfolding(crate::specs::Segments::payload, crate::specs::Fronts::with))]
fn payload_at(text: &[u8]) -> Option<(HexText<'_>, &[u8])>
    ensures { MatchOption result (rules.payload text.now ≡ None)
        (λ x. rules.payload text.now ≡ Some (x.0, x.1.now)) }
{
    match behind(text, b" data ") {
        None => Some((HexText::of(&[]), text)),
        Some(rest) => some_hex_at(rest),
    }
}

/// A segment.
#[tactic(auto, unfolding(crate::specs::Segments::seg, crate::specs::Fronts::with))]
pub(crate) fn seg_at(text: &[u8]) -> Option<(SegLine<'_>, &[u8])>
    ensures { MatchOption result (rules.seg text.now ≡ None)
        (λ x. rules.seg text.now ≡ Some (seen_seg x.0, x.1.now)) }
{
    let (head, rest) = head_at(text)?;
    let (bytes, rest) = payload_at(rest)?;
    Some((SegLine { head, bytes }, rest))
}
