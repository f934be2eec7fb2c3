//! Reduced fractions.
ghost use Rattle.std.specs.Prelude.{◌≡◌, ◌<◌, ◌≤◌, ◌^◌};
ghost use Rattle.std.specs.Int.{IsGcd};
ghost use Rattle.plan_model.specs.Answer as rates;

use std::marker::Model;

/// A reduced fraction: no number but 1 divides both its parts; 0 is 0/1.
#[derive(Clone, Copy)]
pub struct Fraction {
    num: u128,
    den: u128,
}

impl Model for Fraction {
    ghost use Rattle.std.specs.Prelude.{ℕ, ◌<◌};
    ghost use Rattle.std.specs.Int.{IsGcd};
    ghost use Rattle.plan_model.specs.Answer.{Fraction};

    ghost Value = { Fraction };

    ghost view = { λ f. record { num = f.num; den = f.den } };

    ghost invariant = { λ f. (0 < f.den) × IsGcd f.num f.den 1 };

    ghost inverse = { λ f. record { num = f.num; den = f.den } };
}

impl Fraction {
    /// The fraction `num` over `den`, reduced.
    pub fn of(num: u128, den: u128) -> Fraction
        requires { 0 < den }
        ensures value { result ≡ rates.reduced num den }
        ensures reduced { rates.IsReduced result num den }
        ensures no_greater { result.num ≤ num }
    {
        let divisor = greatest_divisor(num, den);
        Fraction {
            num: num / divisor,
            den: den / divisor,
        }
    }

    /// The upper part.
    pub fn num(&self) -> u128
        ensures { result ≡ self.now.num }
    {
        self.num
    }

    /// The lower part, which is above 0.
    pub fn den(&self) -> u128
        ensures { result ≡ self.now.den }
    {
        self.den
    }

    /// The fraction in hundredths of a per cent, rounded up.
    pub fn hundredths_up(&self) -> u128
        requires { self.now.num < 2 ^ 100 }
        ensures { result ≡ rates.hundredths_up self.now }
    {
        (self.num * 10_000).div_ceil(self.den)
    }

    /// Whether the fraction is at most 1: a capacity consumption that lies within the capacity.
    pub fn is_within(&self) -> bool
        ensures { result ≡ rates.is_within self.now }
    {
        self.num <= self.den
    }
}

// The greatest number that divides both, by Euclid's divisions.
fn greatest_divisor(a: u128, b: u128) -> u128
    ensures { IsGcd a b result }
{
    let mut x = a;
    let mut y = b;
    while y != 0 {
        let rest = x % y;
        x = y;
        y = rest;
    }
    x
}

/// The capacity consumption: the occupancy time, in seconds, with the additional time rate, in per
/// cent of it, over a window of so many seconds. With a rate of 0 it is the occupancy time rate.
pub fn consumption(occupancy: u64, add_percent: u32, period_s: u32) -> Fraction
    requires { 0 < period_s }
    ensures same { result ≡ rates.consumption occupancy add_percent period_s }
    ensures bounded { result.num < 2 ^ 100 }
{
    Fraction::of(
        u128::from(occupancy) * (100 + u128::from(add_percent)),
        100 * u128::from(period_s),
    )
}
