//! The options of a host's line.

ghost use Rattle.std.specs.Prelude.{◌≡◌, map, is_some};
ghost use Rattle.scenario_text.specs.Words as words;
ghost use Rattle.scenario_text.specs.Statements as forms;

use crate::statement::{Given, OptionName};
use crate::words::{is, number_in};

/// The options that a host's line gives, two words each.
pub(crate) fn given_by(words: &[&[u8]]) -> Given
    ensures { result ≡ forms.given_by forms.none_given (map (λ w. w.now) words.now) }
{
    let mut given = Given {
        iss: None,
        ring: None,
        mss: None,
        rto: None,
        slots: None,
        backlog: None,
        scale: None,
        wrong: false,
        unknown: false,
        repeated: false,
    };
    let mut rest = words;
    while let [word, value, after @ ..] = rest {
        given = given.with(option_of(word), value);
        rest = after;
    }
    given
}

/// The name of an option.
fn option_of(word: &[u8]) -> Option<OptionName>
    ensures { result ≡ forms.option_of word.now }
{
    if is(word, b"iss") {
        return Some(OptionName::Iss);
    }
    if is(word, b"ring") {
        return Some(OptionName::Ring);
    }
    if is(word, b"mss") {
        return Some(OptionName::Mss);
    }
    if is(word, b"rto") {
        return Some(OptionName::Rto);
    }
    if is(word, b"slots") {
        return Some(OptionName::Slots);
    }
    if is(word, b"backlog") {
        return Some(OptionName::Backlog);
    }
    if is(word, b"scale") {
        return Some(OptionName::Scale);
    }
    None
}

/// The payload that a word gives, from 64 to 8,960 bytes.
fn mss_in(word: &[u8]) -> Option<u16>
    ensures { result ≡ words.number_in 64 8960 word.now }
{
    match number_in(64, 8_960, word) {
        Some(mss) => Some(mss as u16),
        None => None,
    }
}

/// The shift that a word gives, from 0 to 14 (RFC 7323, section 2.3).
fn scale_in(word: &[u8]) -> Option<u8>
    ensures { result ≡ words.number_in 0 14 word.now }
{
    match number_in(0, 14, word) {
        Some(shift) => Some(shift as u8),
        None => None,
    }
}

impl Given {
    /// One option more, with its value.
    fn with(self, option: Option<OptionName>, value: &[u8]) -> Given
        ensures { result ≡ forms.by_option self option value.now }
    {
        match option {
            None => Given {
                unknown: true,
                ..self
            },
            Some(OptionName::Mss) => self.with_mss(mss_in(value)),
            Some(OptionName::Scale) => self.with_scale(scale_in(value)),
            Some(OptionName::Iss) => self.put(
                self.iss.is_some(),
                number_in(0, 4_294_967_295, value),
                OptionName::Iss,
            ),
            Some(OptionName::Ring) => self.put(
                self.ring.is_some(),
                number_in(256, 1_048_576, value),
                OptionName::Ring,
            ),
            Some(OptionName::Rto) => self.put(
                self.rto.is_some(),
                number_in(1, 1_000, value),
                OptionName::Rto,
            ),
            Some(OptionName::Slots) => self.put(
                self.slots.is_some(),
                number_in(1, 1_024, value),
                OptionName::Slots,
            ),
            Some(OptionName::Backlog) => self.put(
                self.backlog.is_some(),
                number_in(1, 1_024, value),
                OptionName::Backlog,
            ),
        }
    }

    fn with_mss(self, mss: Option<u16>) -> Given
        ensures { result ≡ forms.put_option self (is_some self.mss) mss (record self { mss = mss }) }
    {
        if mss.is_none() {
            return Given {
                wrong: true,
                ..self
            };
        }
        if self.mss.is_some() {
            return Given {
                repeated: true,
                ..self
            };
        }
        Given { mss, ..self }
    }

    fn with_scale(self, scale: Option<u8>) -> Given
        ensures { result ≡ forms.put_option self (is_some self.scale) scale (record self { scale = scale }) }
    {
        if scale.is_none() {
            return Given {
                wrong: true,
                ..self
            };
        }
        if self.scale.is_some() {
            return Given {
                repeated: true,
                ..self
            };
        }
        Given { scale, ..self }
    }

    /// The options with a number for one of them, where it has one and had none before.
    fn put(self, before: bool, number: Option<u32>, option: OptionName) -> Given
        ensures { result ≡ forms.put_option self before number (forms.taken_option self option number) }
    {
        if number.is_none() {
            return Given {
                wrong: true,
                ..self
            };
        }
        if before {
            return Given {
                repeated: true,
                ..self
            };
        }
        self.taken(option, number)
    }

    fn taken(self, option: OptionName, number: Option<u32>) -> Given
        ensures { result ≡ forms.taken_option self option number }
    {
        match option {
            OptionName::Iss => Given {
                iss: number,
                ..self
            },
            OptionName::Ring => Given {
                ring: number,
                ..self
            },
            OptionName::Rto => Given {
                rto: number,
                ..self
            },
            OptionName::Slots => Given {
                slots: number,
                ..self
            },
            OptionName::Backlog => Given {
                backlog: number,
                ..self
            },
            OptionName::Mss | OptionName::Scale => self,
        }
    }
}
