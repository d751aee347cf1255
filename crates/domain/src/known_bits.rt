//! Known bits: which of the lowest 32 bits of a number are known, and what they are.

ghost use Rattle.std.specs.Prelude.{◌≡◌, ℤ, pos, ◌<◌, ◌≤◌, ◌^◌, ◌-◌, ◌%◌};
ghost use Rattle.std.specs.Int.RustNames.{bit_and};
ghost use Rattle.domain.specs.KnownBits.{low, modulo, shared, without, alike, zeros};

use crate::{Bounds, Domain, Residue};
use std::marker::Model;

/// The numbers whose lowest 32 bits have those of `value` at each place where `known` has a 1; elsewhere `value` has 0.
#[derive(Clone, Copy, Debug)]
pub struct KnownBits {
    known: u32,
    value: u32,
}

impl Model for KnownBits {
    ghost use Rattle.domain.specs.KnownBits.{Bits, IsMasked};

    ghost Value = { Bits };

    ghost view = { λ b. record { known = b.known; value = b.value } };

    ghost invariant = { λ b. IsMasked (record { known = b.known; value = b.value }) };

    ghost inverse = { λ a. record { known = a.known; value = a.value } };
}

impl Domain for KnownBits {
    ghost use Rattle.domain.specs.KnownBits as bits;
    ghost use Rattle.domain.specs.KnownBitsLaws as laws;
    ghost use Rattle.std.specs.Prelude.{refl};
    ghost use Rattle.std.specs.Int.RustNames.{int_div, int_rem};

    ghost has = { bits.agrees };

    ghost top_of = { bits.nothing };

    ghost number_of = { bits.number };

    ghost join_of = { bits.join };

    ghost add_of = { bits.add };

    ghost sub_of = { bits.subtract };

    ghost mul_of = { bits.multiply };

    ghost div_of = { λ a b. bits.nothing };

    ghost rem_of = { λ a b. bits.nothing };

    ghost mask_of = { bits.mask };

    ghost shl_of = { bits.shift_left };

    ghost shr_of = { bits.shift_right };

    ghost at_least_of = { λ a n. a };

    ghost at_most_of = { λ a n. a };

    ghost bounds_of = { λ a. bits.unbounded };

    ghost residue_of = { bits.residue };

    fn top() -> Self {
        KnownBits { known: 0, value: 0 }
    }

    fn of(number: i64) -> Self {
        lowest(32, half(number))
    }

    fn join(self, other: Self) -> Self {
        let known = without(self.known & other.known, self.value ^ other.value);
        KnownBits {
            known,
            value: self.value & known,
        }
    }

    fn add(self, other: Self) -> Self {
        lowest(
            low(self.known & other.known),
            self.value.wrapping_add(other.value),
        )
    }

    fn sub(self, other: Self) -> Self {
        lowest(
            low(self.known & other.known),
            self.value.wrapping_sub(other.value),
        )
    }

    fn mul(self, other: Self) -> Self {
        lowest(
            low(self.known & other.known),
            self.value.wrapping_mul(other.value),
        )
    }

    fn div(self, _other: Self) -> Self {
        Self::top()
    }

    fn rem(self, _other: Self) -> Self {
        Self::top()
    }

    fn mask(self, other: Self) -> Self {
        let zeros = without(self.known, self.value) | without(other.known, other.value);
        KnownBits {
            known: self.known & other.known | zeros,
            value: self.value & other.value,
        }
    }

    fn shl(self, by: u32) -> Self {
        KnownBits {
            known: self.known << by | ones(by),
            value: self.value << by,
        }
    }

    fn shr(self, by: u32) -> Self {
        KnownBits {
            known: self.known >> by,
            value: self.value >> by,
        }
    }

    fn at_least(self, _number: i64) -> Self {
        self
    }

    fn at_most(self, _number: i64) -> Self {
        self
    }

    fn bounds(self) -> Bounds {
        Bounds {
            low: None,
            high: None,
        }
    }

    fn residue(self) -> Residue {
        let count = low(self.known);
        Residue {
            modulus: 1 << count,
            remainder: (self.value & ones(count)) as i64,
        }
    }

    ghost top_holds = { laws.nothing_holds };

    ghost number_holds = { laws.number_holds };

    ghost join_holds = { laws.joins };

    ghost add_holds = { laws.adds };

    ghost sub_holds = { laws.subtracts };

    ghost mul_holds = { laws.multiplies };

    ghost div_holds = { λ a b x y p q z. laws.nothing_holds (int_div x y) };

    ghost rem_holds = { λ a b x y p q z. laws.nothing_holds (int_rem x y) };

    ghost mask_holds = { laws.masks };

    ghost shl_holds = { λ a k x h. laws.shifts_left a k x h };

    ghost shr_holds = { λ a k x h. laws.shifts_right a k x h };

    ghost at_least_holds = { λ a n x p h. p };

    ghost at_most_holds = { λ a n x p h. p };

    ghost bounds_hold = { λ a x p. refl };

    ghost residue_holds = { laws.left };
}

/// The lowest 32 bits of a number.
fn half(number: i64) -> u32
    ensures { result ≡ modulo number (2 ^ 32) }
{
    number.rem_euclid(4294967296) as u32
}

/// As many ones from the lowest place on.
fn ones(count: u32) -> u32
    requires { count ≤ 32 }
    ensures { result ≡ 2 ^ count - 1 }
{
    ((1u64 << count) - 1) as u32
}

/// So many of the lowest bits, all known.
fn lowest(count: u32, word: u32) -> KnownBits
    requires { count ≤ 32 }
    ensures { result ≡ record { known = 2 ^ count - 1; value = word % 2 ^ count } }
{
    let known = ones(count);
    KnownBits {
        known,
        value: word & known,
    }
}

/// The number of lowest bits that are known without a gap.
fn low(known: u32) -> u32
    ensures value { result ≡ low known }
    ensures within { result ≤ 32 }
{
    known.trailing_ones()
}

/// The ones of `all` where `some` has 0.
fn without(all: u32, some: u32) -> u32
    ensures { result ≡ without all some }
{
    all ^ (all & some)
}
