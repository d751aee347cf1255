//! Congruences of whole numbers (Granger 1989): one number, or all that leave a remainder by a modulus.

ghost use Rattle.std.specs.Prelude.{◌≡◌, ℤ, pos, ◌+ℤ◌, ◌-ℤ◌, ◌*ℤ◌, ◌<◌, ◌≤◌, ◌^◌, ◌*◌, ◌/◌, ◌%◌, if◌then◌else◌, true};
ghost use Rattle.std.specs.Int.{int_div_euclid, int_rem_euclid};
ghost use Rattle.std.specs.Int.RustNames.{int_div, int_rem, unsigned_abs};
ghost use Rattle.domain.specs.Residues.{all, fits, gcd, reduce, masked, is_divisor, is_zero, divides, quotient};

use crate::{Bounds, Domain, Residue};
use std::marker::Model;

/// The numbers that leave `remainder` by `modulus`; of modulus 0, the remainder alone.
#[derive(Clone, Copy, Debug)]
pub struct Congruence {
    modulus: u64,
    remainder: i64,
}

impl Model for Congruence {
    ghost use Rattle.domain.specs.declared.Residue.{Residue};
    ghost use Rattle.domain.specs.Residues.{IsReduced};

    ghost Value = { Residue };

    ghost view = { λ c. record { modulus = c.modulus; remainder = c.remainder } };

    ghost invariant = { λ c. IsReduced (record { modulus = c.modulus; remainder = c.remainder }) };

    ghost inverse = { λ r. record { modulus = r.modulus; remainder = r.remainder } };
}

impl Domain for Congruence {
    ghost use Rattle.domain.specs.Members.{leaves};
    ghost use Rattle.domain.specs.Residues as residues;
    ghost use Rattle.domain.specs.Laws as laws;
    ghost use Rattle.domain.specs.ResidueQuotients as quotients;

    ghost has = { leaves };

    ghost top_of = { residues.all };

    ghost number_of = { residues.reduce 0 };

    ghost join_of = { residues.join };

    ghost add_of = { residues.add };

    ghost sub_of = { residues.subtract };

    ghost mul_of = { residues.multiply };

    ghost div_of = { residues.divide };

    ghost rem_of = { residues.remainder };

    ghost mask_of = { residues.mask };

    ghost shl_of = { residues.shift_left };

    ghost shr_of = { residues.shift_right };

    ghost at_least_of = { λ a n. a };

    ghost at_most_of = { λ a n. a };

    ghost bounds_of = { residues.bounds };

    ghost residue_of = { λ a. a };

    fn top() -> Self {
        Congruence {
            modulus: 1,
            remainder: 0,
        }
    }

    fn of(number: i64) -> Self {
        reduced(0, number as i128)
    }

    fn join(self, other: Self) -> Self {
        let apart = distance(self.remainder, other.remainder);
        let modulus = greatest_divisor(common(self.modulus, other.modulus), apart);
        reduced(modulus, other.remainder as i128)
    }

    fn add(self, other: Self) -> Self {
        reduced(
            common(self.modulus, other.modulus),
            sum(self.remainder, other.remainder),
        )
    }

    fn sub(self, other: Self) -> Self {
        reduced(
            common(self.modulus, other.modulus),
            difference(self.remainder, other.remainder),
        )
    }

    fn mul(self, other: Self) -> Self {
        let first = product(self.modulus, other.modulus);
        let second = product(self.modulus, other.remainder.unsigned_abs());
        let third = product(other.modulus, self.remainder.unsigned_abs());
        let modulus = greatest_divisor(greatest_divisor(first, second), third);
        reduced(modulus, signed_product(self.remainder, other.remainder))
    }

    fn div(self, other: Self) -> Self {
        if is_divisor(other) {
            quotient(self, other.remainder)
        } else {
            Self::top()
        }
    }

    fn rem(self, other: Self) -> Self {
        if is_zero(other) {
            return Self::top();
        }
        if self.modulus == 0 && is_divisor(other) {
            return reduced(0, rest(self.remainder, other.remainder));
        }
        let modulus = greatest_divisor(
            common(self.modulus, other.modulus),
            magnitude(other.remainder),
        );
        reduced(modulus, self.remainder as i128)
    }

    fn mask(self, other: Self) -> Self {
        if self.modulus == 0 && other.modulus == 0 {
            reduced(0, bits_of_both(self.remainder, other.remainder))
        } else {
            Self::top()
        }
    }

    fn shl(self, by: u32) -> Self {
        self.mul(Congruence {
            modulus: 0,
            remainder: power(by) as i64,
        })
    }

    fn shr(self, by: u32) -> Self {
        if self.modulus % power(by) == 0 {
            reduced(
                (self.modulus / power(by)) as u128,
                shifted(self.remainder, by),
            )
        } else {
            Self::top()
        }
    }

    fn at_least(self, _number: i64) -> Self {
        self
    }

    fn at_most(self, _number: i64) -> Self {
        self
    }

    fn bounds(self) -> Bounds {
        if self.modulus == 0 {
            Bounds {
                low: Some(self.remainder),
                high: Some(self.remainder),
            }
        } else {
            Bounds {
                low: None,
                high: None,
            }
        }
    }

    fn residue(self) -> Residue {
        Residue {
            modulus: self.modulus,
            remainder: self.remainder,
        }
    }

    ghost top_holds = { laws.all_holds };

    ghost number_holds = { laws.number };

    ghost join_holds = { laws.joins };

    ghost add_holds = { laws.adds };

    ghost sub_holds = { laws.subtracts };

    ghost mul_holds = { laws.multiplies };

    ghost div_holds = { quotients.divides_all };

    ghost rem_holds = { quotients.remains };

    ghost mask_holds = { quotients.masks };

    ghost shl_holds = { λ a k x h. quotients.shifts_left a k x };

    ghost shr_holds = { λ a k x h. quotients.shifts_right a k x };

    ghost at_least_holds = { λ a n x p h. p };

    ghost at_most_holds = { λ a n x p h. p };

    ghost bounds_hold = { quotients.within };

    ghost residue_holds = { λ a x p. p };
}

/// The numbers that leave by the modulus what `remainder` does; all where that leaves `i64`.
fn reduced(modulus: u128, remainder: i128) -> Congruence
    ensures { result ≡ reduce modulus remainder }
{
    if modulus == 0 {
        single(remainder)
    } else if modulus < 9223372036854775808 {
        class(modulus as u64, remainder)
    } else {
        Congruence::top()
    }
}

/// One number, or all where it leaves `i64`.
fn single(number: i128) -> Congruence
    ensures { result ≡ (if fits number then record { modulus = 0; remainder = number } else all) }
{
    if i64::MIN as i128 <= number && number <= i64::MAX as i128 {
        Congruence {
            modulus: 0,
            remainder: number as i64,
        }
    } else {
        Congruence::top()
    }
}

fn class(modulus: u64, remainder: i128) -> Congruence
    requires positive { 0 < modulus }
    requires small { modulus < 2 ^ 63 }
    ensures { result ≡ record { modulus = modulus; remainder = int_rem_euclid remainder (pos modulus) } }
{
    Congruence {
        modulus,
        remainder: remainder.rem_euclid(modulus as i128) as i64,
    }
}

/// The greatest common divisor, by Euclid's steps.
fn greatest_divisor(a: u128, b: u128) -> u128
    ensures { result ≡ gcd a b }
{
    let mut x = a;
    let mut y = b;
    while y != 0 {
        let rest = x % y;
        x = y;
        y = rest;
    }
    x
}

fn common(a: u64, b: u64) -> u128
    ensures { result ≡ gcd a b }
{
    greatest_divisor(a as u128, b as u128)
}

fn magnitude(number: i64) -> u128
    ensures { result ≡ unsigned_abs number }
{
    number.unsigned_abs() as u128
}

/// The distance of two numbers, which may pass `i64`.
fn distance(a: i64, b: i64) -> u128
    ensures { result ≡ unsigned_abs (a -ℤ b) }
{
    (a as i128 - b as i128).unsigned_abs()
}

fn sum(a: i64, b: i64) -> i128
    ensures { result ≡ a +ℤ b }
{
    a as i128 + b as i128
}

fn difference(a: i64, b: i64) -> i128
    ensures { result ≡ a -ℤ b }
{
    a as i128 - b as i128
}

fn signed_product(a: i64, b: i64) -> i128
    ensures { result ≡ a *ℤ b }
{
    a as i128 * b as i128
}

fn product(a: u64, b: u64) -> u128
    ensures { result ≡ a * b }
{
    a as u128 * b as u128
}

/// Whether the congruence is one number other than 0.
fn is_divisor(by: Congruence) -> bool
    ensures value { result ≡ is_divisor by }
    ensures nonzero { result ≡ true → 0 < unsigned_abs by.remainder }
{
    by.modulus == 0 && 0 < by.remainder.unsigned_abs()
}

fn is_zero(by: Congruence) -> bool
    ensures { result ≡ is_zero by }
{
    by.modulus == 0 && by.remainder.unsigned_abs() == 0
}

fn divides(divisor: u64, of: Congruence) -> bool
    requires { 0 < divisor }
    ensures { result ≡ divides divisor of }
{
    of.modulus % divisor == 0 && of.remainder.unsigned_abs() % divisor == 0
}

fn quotient(of: Congruence, divisor: i64) -> Congruence
    requires { 0 < unsigned_abs divisor }
    ensures { result ≡ quotient of divisor }
{
    let parts = divisor.unsigned_abs();
    if of.modulus == 0 {
        reduced(0, divided(of.remainder, divisor))
    } else if divides(parts, of) {
        reduced((of.modulus / parts) as u128, divided(of.remainder, divisor))
    } else {
        Congruence::top()
    }
}

fn divided(a: i64, b: i64) -> i128
    requires { 0 < unsigned_abs b }
    ensures { result ≡ int_div a b }
{
    a as i128 / b as i128
}

fn rest(a: i64, b: i64) -> i128
    requires { 0 < unsigned_abs b }
    ensures { result ≡ int_rem a b }
{
    a as i128 % b as i128
}

fn bits_of_both(a: i64, b: i64) -> i128
    ensures { result ≡ masked a b }
{
    (a & b) as i128
}

fn power(by: u32) -> u64
    requires { by < 32 }
    ensures { result ≡ 2 ^ by }
{
    1 << by
}

fn shifted(number: i64, by: u32) -> i128
    requires { by < 32 }
    ensures { result ≡ int_div_euclid number (pos (2 ^ by)) }
{
    (number >> by) as i128
}
