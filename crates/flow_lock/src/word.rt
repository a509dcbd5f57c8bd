//! The word of a slot.

ghost use Rattle.std.specs.Prelude.{◌≡◌};
ghost use Rattle.flow_lock.specs.Words.{code, word_of, plain_word};

/// The word of a slot. `generation` says how often the slot was opened, `pins` how many passes keep its flow from
/// being freed. A `live` slot has a flow. A `doomed` one takes no new pins. A `busy` one's record is out with a pass.
#[derive(Clone, Copy, PartialEq, Eq, Debug)]
pub struct Word {
    pub generation: u32,
    pub pins: u16,
    pub live: bool,
    pub doomed: bool,
    pub busy: bool,
}

const GENERATION: u64 = 4_294_967_296;

pub(crate) const BUSY: u64 = 262_144;

pub(crate) const DOOMED: u64 = 131_072;

const LIVE: u64 = 65_536;

/// The word that a number stands for: generation in bits 63 to 32, busy bit 18, doomed bit 17, live bit 16, pins in
/// bits 15 to 0.
pub(crate) fn read_word(n: u64) -> Word
    ensures { result ≡ word_of n }
{
    Word {
        generation: (n / GENERATION) as u32,
        pins: (n % LIVE) as u16,
        live: n / LIVE % 2 == 1,
        doomed: n / DOOMED % 2 == 1,
        busy: n / BUSY % 2 == 1,
    }
}

/// The number of a word with no bits but these: a flow that was just opened, or a slot that no flow has.
pub(crate) fn write_word(generation: u32, pins: u16, live: bool) -> u64
    ensures { result ≡ code (plain_word generation pins live) }
{
    let live = if live { LIVE } else { 0 };
    u64::from(generation) * GENERATION + live + u64::from(pins)
}
