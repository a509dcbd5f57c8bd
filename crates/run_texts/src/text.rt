//! Short texts that are put together where bytes wait.

ghost use Rattle.std.specs.Prelude.{◌≡◌, ℕ, ◌+◌, ◌≤◌, ◌++◌, List, length, decimal};

use crate::buffer::Buffer;

/// A short text, as `Display` shows one. It is put together right where bytes wait, so that it takes no memory and
/// cannot fail.
pub trait Text {
    /// Its bytes.
    ghost text: { Self → List ℕ };

    /// How many bytes it has at most.
    ghost most: { ℕ };

    /// Puts it behind the bytes that wait.
    fn add_to(&self, waiting: &mut Buffer)
        requires room { length waiting.old + most ≤ 32768 }
        ensures text { waiting.new ≡ waiting.old ++ text self.now }
        ensures short { length waiting.new ≤ length waiting.old + most };
}

/// Puts bytes behind those that wait.
#[inline(always)]
pub fn add(waiting: &mut Buffer, bytes: &[u8])
    requires room { length waiting.old + length bytes.now ≤ 32768 }
    ensures text { waiting.new ≡ waiting.old ++ bytes.now }
    ensures len { length waiting.new ≡ length waiting.old + length bytes.now }
{
    waiting.push(bytes);
}

/// A number of at most 64 bits, which has decimal digits.
pub trait Number: Copy {
    /// Its digits.
    ghost text: { Self → List ℕ };

    /// How many digits it has at most.
    ghost most: { ℕ };

    /// The same number in 64 bits.
    fn widened(self) -> u64
        ensures same { decimal result ≡ text self }
        ensures short { length (text self) ≤ most };
}

impl Number for u8 {
    ghost use Rattle.std.specs.Prelude.{decimal};

    ghost text = { decimal };

    ghost most = { 3 };

    #[inline(always)]
    fn widened(self) -> u64 {
        u64::from(self)
    }
}

impl Number for u16 {
    ghost use Rattle.std.specs.Prelude.{decimal};

    ghost text = { decimal };

    ghost most = { 5 };

    #[inline(always)]
    fn widened(self) -> u64 {
        u64::from(self)
    }
}

impl Number for u32 {
    ghost use Rattle.std.specs.Prelude.{decimal};

    ghost text = { decimal };

    ghost most = { 10 };

    #[inline(always)]
    fn widened(self) -> u64 {
        u64::from(self)
    }
}

impl Number for u64 {
    ghost use Rattle.std.specs.Prelude.{decimal};

    ghost text = { decimal };

    ghost most = { 20 };

    #[inline(always)]
    fn widened(self) -> u64 {
        self
    }
}

/// Puts the decimal digits of a number behind the bytes that wait.
#[inline(always)]
pub fn add_number<N: Number>(waiting: &mut Buffer, number: N)
    requires room { length waiting.old + N.most ≤ 32768 }
    ensures text { waiting.new ≡ waiting.old ++ N.text number }
    ensures short { length waiting.new ≤ length waiting.old + N.most }
{
    let wide = number.widened();
    if wide < 10 {
        waiting.push_digit(wide as u8);
    } else {
        waiting.push_number(wide);
    }
}

/// The same for a number of up to 128 bits.
pub fn add_wide(waiting: &mut Buffer, number: u128)
    requires room { length waiting.old + 39 ≤ 32768 }
    ensures text { waiting.new ≡ waiting.old ++ decimal number }
    ensures short { length waiting.new ≤ length waiting.old + 39 }
{
    let mut digits = itoa::Buffer::new();
    add(waiting, digits.format(number).as_bytes());
}
