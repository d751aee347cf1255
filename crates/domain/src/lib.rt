//! Section: Facts and domains. Promises the laws of an abstract domain, as a trait, and lawful domains; stands on `semantics`.
//!
//! Abstract domains: an element stands for a set of whole numbers, and an operation on elements holds
//! every value that the operation on numbers gives at members (Cousot and Cousot 1977).

#![tactic(auto)]

ghost use Rattle.std.specs.Prelude.{◌≡◌, ℕ, ℤ, pos, ◌+ℤ◌, ◌-ℤ◌, ◌*ℤ◌, ◌≤ℤ◌, ◌<◌, ◌^◌, Bool, true, ◌⊎◌};
ghost use Rattle.std.specs.Int.{int_div_euclid};
ghost use Rattle.std.specs.Int.RustNames.{int_div, int_rem, bit_and};
ghost use Rattle.domain.specs.declared.Bounds.{Bounds};
ghost use Rattle.domain.specs.declared.Residue.{Residue};
ghost use Rattle.domain.specs.Members.{is_within, leaves};

pub mod congruence;
pub mod interval;
pub mod known_bits;
pub mod product;

use congruence::Congruence;
use interval::Interval;
use known_bits::KnownBits;
use product::Product;

/// The checker's domain: the range of a term, its remainder by a modulus, and known bits of it.
pub type Elements = Product<Product<Interval, Congruence>, KnownBits>;

/// The ends of a set; `None` is open.
#[derive(Clone, Copy, Debug, PartialEq, Eq)]
pub struct Bounds {
    pub low: Option<i64>,
    pub high: Option<i64>,
}

/// The remainder that each member leaves by the modulus. A modulus of 0 says that each member is the remainder.
#[derive(Clone, Copy, Debug, PartialEq, Eq)]
pub struct Residue {
    pub modulus: u64,
    pub remainder: i64,
}

/// A set of whole numbers. The operations are over whole numbers, and nothing wraps.
pub trait Domain: Copy {
    /// Whether a number is a member.
    ghost has: { Self → ℤ → Bool };

    ghost top_of: { Self };

    ghost number_of: { ℤ → Self };

    ghost join_of: { Self → Self → Self };

    ghost add_of: { Self → Self → Self };

    ghost sub_of: { Self → Self → Self };

    ghost mul_of: { Self → Self → Self };

    ghost div_of: { Self → Self → Self };

    ghost rem_of: { Self → Self → Self };

    ghost mask_of: { Self → Self → Self };

    ghost shl_of: { Self → ℕ → Self };

    ghost shr_of: { Self → ℕ → Self };

    ghost at_least_of: { Self → ℤ → Self };

    ghost at_most_of: { Self → ℤ → Self };

    ghost bounds_of: { Self → Bounds };

    ghost residue_of: { Self → Residue };

    /// The element of all whole numbers.
    fn top() -> Self
        ensures { result ≡ top_of };

    /// The element of one number.
    fn of(number: i64) -> Self
        ensures { result ≡ number_of number };

    /// An element that holds the members of both.
    fn join(self, other: Self) -> Self
        ensures { result ≡ join_of self other };

    /// An element that holds each sum of members.
    fn add(self, other: Self) -> Self
        ensures { result ≡ add_of self other };

    /// An element that holds each difference of members.
    fn sub(self, other: Self) -> Self
        ensures { result ≡ sub_of self other };

    /// An element that holds each product of members.
    fn mul(self, other: Self) -> Self
        ensures { result ≡ mul_of self other };

    /// Each quotient, rounded toward zero, by a divisor other than 0.
    fn div(self, other: Self) -> Self
        ensures { result ≡ div_of self other };

    /// Each remainder, with the dividend's sign, by a divisor other than 0.
    fn rem(self, other: Self) -> Self
        ensures { result ≡ rem_of self other };

    /// Each bitwise and of members that are not negative.
    fn mask(self, other: Self) -> Self
        ensures { result ≡ mask_of self other };

    /// Each product with 2 to the power `by`.
    fn shl(self, by: u32) -> Self
        requires { by < 32 }
        ensures { result ≡ shl_of self by };

    /// Each quotient by 2 to the power `by`, rounded down.
    fn shr(self, by: u32) -> Self
        requires { by < 32 }
        ensures { result ≡ shr_of self by };

    /// The members that are at least `number`, or the element as it was where there is none.
    fn at_least(self, number: i64) -> Self
        ensures { result ≡ at_least_of self number };

    /// The members that are at most `number`, or the element as it was where there is none.
    fn at_most(self, number: i64) -> Self
        ensures { result ≡ at_most_of self number };

    /// Ends between which each member lies.
    fn bounds(self) -> Bounds
        ensures { result ≡ bounds_of self };

    /// A modulus, and what each member leaves by it.
    fn residue(self) -> Residue
        ensures { result ≡ residue_of self };

    ghost top_holds: { (z : ℤ) → has top_of z ≡ true };

    ghost number_holds: { (n : ℤ) → has (number_of n) n ≡ true };

    ghost join_holds: { (a b : Self) (z : ℤ) → (has a z ≡ true) ⊎ (has b z ≡ true) → has (join_of a b) z ≡ true };

    ghost add_holds: { (a b : Self) (x y : ℤ) → has a x ≡ true → has b y ≡ true → has (add_of a b) (x +ℤ y) ≡ true };

    ghost sub_holds: { (a b : Self) (x y : ℤ) → has a x ≡ true → has b y ≡ true → has (sub_of a b) (x -ℤ y) ≡ true };

    ghost mul_holds: { (a b : Self) (x y : ℤ) → has a x ≡ true → has b y ≡ true → has (mul_of a b) (x *ℤ y) ≡ true };

    ghost div_holds: { (a b : Self) (x y : ℤ) → has a x ≡ true → has b y ≡ true → ¬ (y ≡ pos 0) → has (div_of a b) (int_div x y) ≡ true };

    ghost rem_holds: { (a b : Self) (x y : ℤ) → has a x ≡ true → has b y ≡ true → ¬ (y ≡ pos 0) → has (rem_of a b) (int_rem x y) ≡ true };

    ghost mask_holds: { (a b : Self) (m n : ℕ) → has a (pos m) ≡ true → has b (pos n) ≡ true
        → has (mask_of a b) (pos (bit_and m n)) ≡ true };

    ghost shl_holds: { (a : Self) (k : ℕ) (x : ℤ) → k < 32 → has a x ≡ true → has (shl_of a k) (x *ℤ pos (2 ^ k)) ≡ true };

    ghost shr_holds: { (a : Self) (k : ℕ) (x : ℤ) → k < 32 → has a x ≡ true → has (shr_of a k) (int_div_euclid x (pos (2 ^ k))) ≡ true };

    ghost at_least_holds: { (a : Self) (n x : ℤ) → has a x ≡ true → n ≤ℤ x → has (at_least_of a n) x ≡ true };

    ghost at_most_holds: { (a : Self) (n x : ℤ) → has a x ≡ true → x ≤ℤ n → has (at_most_of a n) x ≡ true };

    ghost bounds_hold: { (a : Self) (x : ℤ) → has a x ≡ true → is_within (bounds_of a) x ≡ true };

    ghost residue_holds: { (a : Self) (x : ℤ) → has a x ≡ true → leaves (residue_of a) x ≡ true };
}

/// The element of `factor * x + constant`, where `symbol` is that of x: what its laws promise to generic code.
pub fn linear<D: Domain>(factor: i64, symbol: D, constant: i64) -> D
    ensures exact { result ≡ D.add_of (D.mul_of (D.number_of factor) symbol) (D.number_of constant) }
    ensures holds { (x : ℤ) → D.has symbol x ≡ true → D.has result (factor *ℤ x +ℤ constant) ≡ true }
{
    D::of(factor).mul(symbol).add(D::of(constant))
}
