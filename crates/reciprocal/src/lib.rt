//! Exact division by a number that stays the same for many dividends: a multiplication by its
//! reciprocal, which is stored. A division takes some ten times as long as a multiplication.
#![tactic(auto)]

ghost use Rattle.std.specs.Prelude.{◌≡◌, ◌/◌, ◌%◌, ◌≤◌, ◌<◌};

use std::marker::Model;

/// A divisor with its reciprocal.
#[derive(Clone, Copy, Debug)]
pub struct Reciprocal {
    divisor: u32,
    // (2^64 - 1) / divisor, rounded down: at least 2^32, and also within 64 bits where the divisor is 1.
    factor: u64,
}

impl Model for Reciprocal {
    ghost use Rattle.std.specs.Prelude.{ℕ};
    ghost use Rattle.std.proofs.Common.{ap, sym};
    ghost use Rattle.reciprocal.specs.Kept.{IsReciprocal, reciprocal_of};

    ghost Value = { ℕ };

    ghost view = { λ r. r.divisor };

    ghost invariant = { λ r. IsReciprocal r.divisor r.factor };

    ghost inverse = { λ d. record { divisor = d; factor = reciprocal_of d } };

    ghost inverse_ok = { λ r is. ap (λ n. record { divisor = r.divisor; factor = n }) (sym is.divided) };
}

impl Reciprocal {
    /// The reciprocal of a divisor that is at least 1. Takes one division.
    pub fn of(divisor: u32) -> Reciprocal
        requires { 1 ≤ divisor }
        ensures { result ≡ divisor }
    {
        Reciprocal {
            divisor,
            factor: u64::MAX / u64::from(divisor),
        }
    }

    /// The divisor, which is at least 1.
    pub fn divisor(&self) -> u32
        ensures same { result ≡ self.now }
        ensures some { 1 ≤ self.now }
    {
        self.divisor
    }

    /// `number` divided by the divisor, rounded down.
    #[inline]
    pub fn quotient(&self, number: u32) -> u32
        ensures { result ≡ number / self.now }
    {
        // With number = q * d + s and 2^64 - 1 = factor * d + r the product is
        // q * 2^64 + factor * (s + 1) - q * (r + 1), and the last two terms together are within 64 bits.
        let product = u128::from(self.factor) * u128::from(u64::from(number) + 1);
        (product >> 64) as u32
    }

    /// What is left of `number` after the division.
    #[inline]
    pub fn remainder(&self, number: u32) -> u32
        ensures exact { result ≡ number % self.now }
        ensures less { result < self.now }
    {
        number - self.quotient(number) * self.divisor
    }
}
