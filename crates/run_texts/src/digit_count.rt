//! How many decimal digits a number has.

ghost use Rattle.std.specs.Prelude.{◌≡◌, ◌≤◌, ◌<◌, length, decimal};

/// How many decimal digits a number has. Most have few.
#[inline(always)]
pub(crate) fn digit_count(number: u64) -> usize
    ensures { result ≡ length (decimal number) }
{
    let mut left = number;
    let mut count = 0;
    while left >= 100_000_000 {
        left /= 100_000_000;
        count += 8;
    }
    if left < 10_000 {
        count + few_digits(left)
    } else {
        count + more_digits(left)
    }
}

/// How many decimal digits a number of four at most has.
#[inline(always)]
fn few_digits(number: u64) -> usize
    requires { number < 10000 }
    ensures { result ≡ length (decimal number) }
{
    if number < 10 {
        return 1;
    }
    if number < 100 {
        return 2;
    }
    if number < 1_000 { 3 } else { 4 }
}

/// How many decimal digits a number of five to eight has.
#[inline(always)]
fn more_digits(number: u64) -> usize
    requires least { 10000 ≤ number }
    requires most { number < 100000000 }
    ensures { result ≡ length (decimal number) }
{
    if number < 100_000 {
        return 5;
    }
    if number < 1_000_000 {
        return 6;
    }
    if number < 10_000_000 { 7 } else { 8 }
}
