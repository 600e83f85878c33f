//! The decimal digits of integers, compared as strings.
ghost use Rattle.std.specs.Prelude.{◌≡◌, ◌+◌, ◌*◌, ◌^◌, ◌<◌, decimal, length};
ghost use Rattle.std.specs.Cmp.Lexicographic.{slice_cmp};
ghost use Rattle.std.specs.Ordering.{nat_cmp};
ghost use Rattle.litemap_json.specs.Digits.{first_digits};

use std::cmp::Ordering;
use std::marker::Model;

/// An integer, whose decimal digits are compared as strings. The first 19 of them, with zeros after fewer, mostly decide.
///
/// A contract sees it as the integer.
#[derive(Drop)]
pub(crate) struct Decimal {
    number: u64,
    first: u64,
}

impl Model for Decimal {
    ghost use Rattle.std.specs.Prelude.{◌≡◌, ℕ, ◌<◌, ◌^◌};
    ghost use Rattle.litemap_json.specs.Digits.{first_digits};

    ghost Value = { ℕ };

    ghost view = { λ d. d.number };

    ghost invariant = { λ d. (d.number < 2 ^ 64) × (d.first ≡ first_digits d.number) };
}

impl Decimal {
    pub(crate) fn new(number: u64) -> Decimal
        ensures { result ≡ number }
    {
        let first = first_digits(number);
        Decimal { number, first }
    }

    pub(crate) fn number(&self) -> u64
        ensures { result ≡ self.now }
    {
        self.number
    }

    /// Compares the digits of two integers as strings.
    pub(crate) fn compare(&self, other: &Decimal) -> Ordering
        ensures { result ≡ slice_cmp nat_cmp (decimal self.now) (decimal other.now) }
    {
        let order = self.first.cmp(&other.first);
        if order.is_ne() {
            return order;
        }
        cmp_digits(self.number, other.number)
    }
}

/// Compares the decimal digits of two integers as strings. They are brought to the same number of digits by zeros at the end. If
/// they are equal then, the shorter one is the beginning of the longer one.
pub(crate) fn cmp_digits(a: u64, b: u64) -> Ordering
    ensures { result ≡ slice_cmp nat_cmp (decimal a) (decimal b) }
{
    let (first, second) = (digits(a), digits(b));
    let left = padded(a, second.saturating_sub(first));
    let right = padded(b, first.saturating_sub(second));
    left.cmp(&right).then(first.cmp(&second))
}

fn first_digits(number: u64) -> u64
    ensures { result ≡ first_digits number }
{
    let digits = digits(number);
    if digits == 19 {
        return number / 10;
    }
    number * 10u64.pow(18 - digits)
}

// Returns how many decimal digits a number has after the first.
fn digits(number: u64) -> u32
    ensures length { length (decimal number) ≡ result + 1 }
    ensures bound { result < 20 }
{
    number.checked_ilog10().unwrap_or(0)
}

// Returns the number with zeros at its end.
fn padded(number: u64, zeros: u32) -> u128
    requires { zeros < 20 }
    ensures { result ≡ number * 10 ^ zeros }
{
    u128::from(number) * u128::from(10u64.pow(zeros))
}
