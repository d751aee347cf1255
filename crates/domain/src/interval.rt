//! Intervals of whole numbers (Cousot and Cousot 1977): each end is of `i64` or open.

ghost use Rattle.std.specs.Prelude.{◌≡◌, ℤ, pos, neg_ℤ, ◌+ℤ◌, ◌-ℤ◌, ◌*ℤ◌, ◌≤ℤ◌, ◌<◌, ◌≤◌, ◌^◌, ◌-◌, ◌+◌, ◌&&◌, true, false, if◌then◌else◌};
ghost use Rattle.std.specs.Int.{int_min, int_max};
ghost use Rattle.std.specs.Int.RustNames.{int_div, int_le, unsigned_abs};
ghost use Rattle.std.specs.Option.{unwrap_or};
ghost use Rattle.domain.specs.Ends.{end, span, low_of, high_of, hull, products, quotients, first_divisor, last_divisor, shifted, far_dividend, is_zero};

use crate::{Bounds, Domain, Residue};
use std::marker::Model;

const FAR: i128 = 1 << 65;

const FAR_FACTOR: i128 = (1 << 63) + 1;

const FAR_DIVIDEND: i128 = 3 << 125;

const FAR_DIVISOR: i128 = i128::MAX;

/// The whole numbers from one end to the other; `None` is open. It always has a member.
#[derive(Clone, Copy, Debug)]
pub struct Interval {
    low: Option<i64>,
    high: Option<i64>,
}

impl Model for Interval {
    ghost use Rattle.domain.specs.declared.Bounds.{Bounds};
    ghost use Rattle.domain.specs.Ends.{IsOrdered};

    ghost Value = { Bounds };

    ghost view = { λ i. record { low = i.low; high = i.high } };

    ghost invariant = { λ i. IsOrdered (record { low = i.low; high = i.high }) };

    ghost inverse = { λ b. record { low = b.low; high = b.high } };
}

impl Domain for Interval {
    ghost use Rattle.domain.specs.Ends as ends;
    ghost use Rattle.domain.specs.Sums as sums;
    ghost use Rattle.domain.specs.Products as products;
    ghost use Rattle.domain.specs.Quotients as quotients;
    ghost use Rattle.domain.specs.Remainders as remainders;
    ghost use Rattle.std.specs.Prelude.{refl};

    ghost has = { ends.is_member };

    ghost top_of = { ends.all };

    ghost number_of = { λ n. ends.span n n };

    ghost join_of = { ends.join };

    ghost add_of = { ends.add };

    ghost sub_of = { ends.subtract };

    ghost mul_of = { ends.multiply };

    ghost div_of = { ends.divide };

    ghost rem_of = { ends.remainder };

    ghost mask_of = { ends.mask };

    ghost shl_of = { ends.shift_left };

    ghost shr_of = { ends.shift_right };

    ghost at_least_of = { ends.at_least };

    ghost at_most_of = { ends.at_most };

    ghost bounds_of = { λ b. b };

    ghost residue_of = { ends.residue };

    fn top() -> Self {
        Interval {
            low: None,
            high: None,
        }
    }

    fn of(number: i64) -> Self {
        between(number as i128, number as i128)
    }

    fn join(self, other: Self) -> Self {
        let (low, high) = self.wide(FAR);
        let (other_low, other_high) = other.wide(FAR);
        between(low.min(other_low), high.max(other_high))
    }

    fn add(self, other: Self) -> Self {
        let (low, high) = self.wide(FAR);
        let (other_low, other_high) = other.wide(FAR);
        between(sum(low, other_low), sum(high, other_high))
    }

    fn sub(self, other: Self) -> Self {
        let (low, high) = self.wide(FAR);
        let (other_low, other_high) = other.wide(FAR);
        between(difference(low, other_high), difference(high, other_low))
    }

    fn mul(self, other: Self) -> Self {
        let (low, high) = self.wide(FAR_FACTOR);
        let (other_low, other_high) = other.wide(FAR_FACTOR);
        products(low, high, other_low, other_high)
    }

    fn div(self, other: Self) -> Self {
        let (low, high) = self.wide(FAR_DIVIDEND);
        let (other_low, other_high) = other.wide(FAR_DIVISOR);
        if is_zero(other_low, other_high) {
            return Self::top();
        }
        let first = first_nonzero(other_low, other_high);
        let last = last_nonzero(other_low, other_high);
        quotients(low, high, first, last)
    }

    fn rem(self, other: Self) -> Self {
        let (low, high) = self.wide(FAR);
        let (other_low, other_high) = other.wide(FAR);
        if is_zero(other_low, other_high) {
            return Self::top();
        }
        let most = greatest_size(other_low, other_high);
        between(least_remainder(low, most), greatest_remainder(high, most))
    }

    fn mask(self, other: Self) -> Self {
        let (low, high) = self.wide(FAR);
        let (other_low, other_high) = other.wide(FAR);
        if are_natural(low, other_low) {
            between(0, high.min(other_high))
        } else {
            Self::top()
        }
    }

    fn shl(self, by: u32) -> Self {
        self.mul(Self::of(power(by)))
    }

    fn shr(self, by: u32) -> Self {
        Interval {
            low: shifted_end(self.low, by),
            high: shifted_end(self.high, by),
        }
    }

    fn at_least(self, number: i64) -> Self {
        let (low, high) = self.wide(FAR);
        if number as i128 <= high {
            between(low.max(number as i128), high)
        } else {
            self
        }
    }

    fn at_most(self, number: i64) -> Self {
        let (low, high) = self.wide(FAR);
        if low <= number as i128 {
            between(low, high.min(number as i128))
        } else {
            self
        }
    }

    fn bounds(self) -> Bounds {
        Bounds {
            low: self.low,
            high: self.high,
        }
    }

    fn residue(self) -> Residue {
        match (self.low, self.high) {
            (Some(low), Some(high)) if high <= low => Residue {
                modulus: 0,
                remainder: low,
            },
            _ => Residue {
                modulus: 1,
                remainder: 0,
            },
        }
    }

    ghost top_holds = { λ z. refl };

    ghost number_holds = { remainders.one };

    ghost join_holds = { sums.joins };

    ghost add_holds = { sums.adds };

    ghost sub_holds = { sums.subtracts };

    ghost mul_holds = { products.multiplies };

    ghost div_holds = { quotients.divides };

    ghost rem_holds = { remainders.remains };

    ghost mask_holds = { remainders.masks };

    ghost shl_holds = { λ a k x h. remainders.shifts_left a k x };

    ghost shr_holds = { λ a k x h. remainders.shifts_right a k x };

    ghost at_least_holds = { sums.narrows_up };

    ghost at_most_holds = { sums.narrows_down };

    ghost bounds_hold = { sums.within };

    ghost residue_holds = { remainders.left };
}

impl Interval {
    /// The ends as numbers, the open ones `far` out.
    fn wide(self, far: i128) -> (i128, i128)
        requires { pos (2 ^ 63) ≤ℤ far }
        ensures low { result.0 ≡ low_of far self }
        ensures high { result.1 ≡ high_of far self }
        ensures ordered { result.0 ≤ℤ result.1 }
        ensures least { neg_ℤ far ≤ℤ result.0 }
        ensures greatest { result.1 ≤ℤ far }
    {
        (number(self.low, -far), number(self.high, far))
    }
}

/// An end as a number, `far` where it is open.
fn number(end: Option<i64>, far: i128) -> i128
    ensures { result ≡ unwrap_or end far }
{
    match end {
        Some(number) => number as i128,
        None => far,
    }
}

/// The end at a number, open where it leaves `i64`.
fn end_at(number: i128) -> Option<i64>
    ensures { result ≡ end number }
{
    if i64::MIN as i128 <= number && number <= i64::MAX as i128 {
        Some(number as i64)
    } else {
        None
    }
}

fn between(low: i128, high: i128) -> Interval
    requires { low ≤ℤ high }
    ensures { result ≡ span low high }
{
    Interval {
        low: end_at(low),
        high: end_at(high),
    }
}

/// The least interval round four numbers.
fn around(a: i128, b: i128, c: i128, d: i128) -> Interval
    ensures { result ≡ hull a b c d }
{
    between(least(a, b, c, d), greatest(a, b, c, d))
}

fn least(a: i128, b: i128, c: i128, d: i128) -> i128
    ensures value { result ≡ int_min (int_min a b) (int_min c d) }
    ensures bound { result ≤ℤ a }
{
    a.min(b).min(c.min(d))
}

fn greatest(a: i128, b: i128, c: i128, d: i128) -> i128
    ensures value { result ≡ int_max (int_max a b) (int_max c d) }
    ensures bound { a ≤ℤ result }
{
    a.max(b).max(c.max(d))
}

fn products(a: i128, b: i128, c: i128, d: i128) -> Interval
    requires a_size { unsigned_abs a ≤ 2 ^ 63 + 1 }
    requires b_size { unsigned_abs b ≤ 2 ^ 63 + 1 }
    requires c_size { unsigned_abs c ≤ 2 ^ 63 + 1 }
    requires d_size { unsigned_abs d ≤ 2 ^ 63 + 1 }
    ensures { result ≡ products a b c d }
{
    around(product(a, c), product(a, d), product(b, c), product(b, d))
}

fn quotients(a: i128, b: i128, c: i128, d: i128) -> Interval
    requires a_size { neg_ℤ far_dividend ≤ℤ a }
    requires b_size { neg_ℤ far_dividend ≤ℤ b }
    requires c_nonzero { ¬ (c ≡ pos 0) }
    requires d_nonzero { ¬ (d ≡ pos 0) }
    ensures { result ≡ quotients a b c d }
{
    around(
        quotient(a, c),
        quotient(a, d),
        quotient(b, c),
        quotient(b, d),
    )
}

fn sum(a: i128, b: i128) -> i128
    requires first { unsigned_abs a ≤ 2 ^ 65 }
    requires second { unsigned_abs b ≤ 2 ^ 65 }
    ensures { result ≡ a +ℤ b }
{
    a + b
}

fn difference(a: i128, b: i128) -> i128
    requires first { unsigned_abs a ≤ 2 ^ 65 }
    requires second { unsigned_abs b ≤ 2 ^ 65 }
    ensures { result ≡ a -ℤ b }
{
    a - b
}

fn product(a: i128, b: i128) -> i128
    requires first { unsigned_abs a ≤ 2 ^ 63 + 1 }
    requires second { unsigned_abs b ≤ 2 ^ 63 + 1 }
    ensures { result ≡ a *ℤ b }
{
    a * b
}

fn quotient(a: i128, b: i128) -> i128
    requires nonzero { ¬ (b ≡ pos 0) }
    requires above_least { neg_ℤ far_dividend ≤ℤ a }
    ensures { result ≡ int_div a b }
{
    a / b
}

/// The first of the divisors other than 0 at which a quotient is least or greatest.
fn first_nonzero(low: i128, high: i128) -> i128
    requires ordered { low ≤ℤ high }
    requires nonzero { ¬ ((pos 0 ≤ℤ low) × (high ≤ℤ pos 0)) }
    ensures value { result ≡ first_divisor low high }
    ensures nonzero { ¬ (result ≡ pos 0) }
{
    if 0 <= low {
        low.max(1)
    } else if 1 <= high {
        -1
    } else {
        low
    }
}

/// The last of the divisors other than 0 at which a quotient is least or greatest.
fn last_nonzero(low: i128, high: i128) -> i128
    requires ordered { low ≤ℤ high }
    requires nonzero { ¬ ((pos 0 ≤ℤ low) × (high ≤ℤ pos 0)) }
    ensures value { result ≡ last_divisor low high }
    ensures nonzero { ¬ (result ≡ pos 0) }
{
    if high <= 0 {
        high.min(-1)
    } else if low <= -1 {
        1
    } else {
        high
    }
}

/// The greatest size of a divisor, less 1.
fn greatest_size(low: i128, high: i128) -> i128
    requires first { neg_ℤ (pos (2 ^ 65)) ≤ℤ low }
    requires ordered { low ≤ℤ high }
    requires nonzero { ¬ ((pos 0 ≤ℤ low) × (high ≤ℤ pos 0)) }
    ensures value { result ≡ int_max (neg_ℤ low) high -ℤ pos 1 }
    ensures sign { pos 0 ≤ℤ result }
{
    (-low).max(high) - 1
}

fn least_remainder(low: i128, most: i128) -> i128
    requires { pos 0 ≤ℤ most }
    ensures value { result ≡ (if int_le (pos 0) low then pos 0 else int_max low (neg_ℤ most)) }
    ensures sign { result ≤ℤ pos 0 }
{
    if 0 <= low { 0 } else { low.max(-most) }
}

fn greatest_remainder(high: i128, most: i128) -> i128
    requires { pos 0 ≤ℤ most }
    ensures value { result ≡ (if int_le high (pos 0) then pos 0 else int_min high most) }
    ensures sign { pos 0 ≤ℤ result }
{
    if high <= 0 { 0 } else { high.min(most) }
}

/// Whether 0 is the one number from `low` to `high`.
fn is_zero(low: i128, high: i128) -> bool
    ensures value { result ≡ is_zero low high }
    ensures nonzero { result ≡ false → ¬ ((pos 0 ≤ℤ low) × (high ≤ℤ pos 0)) }
{
    0 <= low && high <= 0
}

fn are_natural(a: i128, b: i128) -> bool
    ensures value { result ≡ (int_le (pos 0) a && int_le (pos 0) b) }
    ensures natural { result ≡ true → (pos 0 ≤ℤ a) × (pos 0 ≤ℤ b) }
{
    0 <= a && 0 <= b
}

fn power(by: u32) -> i64
    requires { by < 32 }
    ensures { result ≡ pos (2 ^ by) }
{
    (1u64 << by) as i64
}

/// An end divided by a power of 2, rounded down.
fn shifted_end(end: Option<i64>, by: u32) -> Option<i64>
    requires { by < 32 }
    ensures { result ≡ shifted end by }
{
    match end {
        Some(number) => Some(number >> by),
        None => None,
    }
}
