//! The product of two abstract domains: the numbers that are members of both elements.

ghost use Rattle.std.specs.Prelude.{◌≡◌, ◌&&◌, Option};
ghost use Rattle.domain.specs.Both.{larger, smaller, narrowed, finer, within, left, both, both_two, either};
ghost use Rattle.std.proofs.lemmas.Bool.{and_from, and_parts};

use crate::{Bounds, Domain, Residue};

/// An element of each of two domains: the numbers that are members of both.
#[derive(Clone, Copy, Debug)]
pub struct Product<A, B> {
    pub first: A,
    pub second: B,
}

impl<A: Domain, B: Domain> Domain for Product<A, B> {
    ghost has = { λ p z. A.has p.first z && B.has p.second z };

    ghost top_of = { record { first = A.top_of; second = B.top_of } };

    ghost number_of = { λ n. record { first = A.number_of n; second = B.number_of n } };

    ghost join_of = { λ p q. record { first = A.join_of p.first q.first; second = B.join_of p.second q.second } };

    ghost add_of = { λ p q. record { first = A.add_of p.first q.first; second = B.add_of p.second q.second } };

    ghost sub_of = { λ p q. record { first = A.sub_of p.first q.first; second = B.sub_of p.second q.second } };

    ghost mul_of = { λ p q. record { first = A.mul_of p.first q.first; second = B.mul_of p.second q.second } };

    ghost div_of = { λ p q. record { first = A.div_of p.first q.first; second = B.div_of p.second q.second } };

    ghost rem_of = { λ p q. record { first = A.rem_of p.first q.first; second = B.rem_of p.second q.second } };

    ghost mask_of = { λ p q. record { first = A.mask_of p.first q.first; second = B.mask_of p.second q.second } };

    ghost shl_of = { λ p k. record { first = A.shl_of p.first k; second = B.shl_of p.second k } };

    ghost shr_of = { λ p k. record { first = A.shr_of p.first k; second = B.shr_of p.second k } };

    ghost at_least_of = { λ p n. record { first = A.at_least_of p.first n; second = B.at_least_of p.second n } };

    ghost at_most_of = { λ p n. record { first = A.at_most_of p.first n; second = B.at_most_of p.second n } };

    ghost bounds_of = { λ p. narrowed (A.bounds_of p.first) (B.bounds_of p.second) };

    ghost residue_of = { λ p. finer (A.residue_of p.first) (B.residue_of p.second) };

    fn top() -> Self {
        Product {
            first: A::top(),
            second: B::top(),
        }
    }

    fn of(number: i64) -> Self {
        Product {
            first: A::of(number),
            second: B::of(number),
        }
    }

    fn join(self, other: Self) -> Self {
        Product {
            first: self.first.join(other.first),
            second: self.second.join(other.second),
        }
    }

    fn add(self, other: Self) -> Self {
        Product {
            first: self.first.add(other.first),
            second: self.second.add(other.second),
        }
    }

    fn sub(self, other: Self) -> Self {
        Product {
            first: self.first.sub(other.first),
            second: self.second.sub(other.second),
        }
    }

    fn mul(self, other: Self) -> Self {
        Product {
            first: self.first.mul(other.first),
            second: self.second.mul(other.second),
        }
    }

    fn div(self, other: Self) -> Self {
        Product {
            first: self.first.div(other.first),
            second: self.second.div(other.second),
        }
    }

    fn rem(self, other: Self) -> Self {
        Product {
            first: self.first.rem(other.first),
            second: self.second.rem(other.second),
        }
    }

    fn mask(self, other: Self) -> Self {
        Product {
            first: self.first.mask(other.first),
            second: self.second.mask(other.second),
        }
    }

    fn shl(self, by: u32) -> Self {
        Product {
            first: self.first.shl(by),
            second: self.second.shl(by),
        }
    }

    fn shr(self, by: u32) -> Self {
        Product {
            first: self.first.shr(by),
            second: self.second.shr(by),
        }
    }

    fn at_least(self, number: i64) -> Self {
        Product {
            first: self.first.at_least(number),
            second: self.second.at_least(number),
        }
    }

    fn at_most(self, number: i64) -> Self {
        Product {
            first: self.first.at_most(number),
            second: self.second.at_most(number),
        }
    }

    fn bounds(self) -> Bounds {
        let first = self.first.bounds();
        let second = self.second.bounds();
        Bounds {
            low: larger_end(first.low, second.low),
            high: smaller_end(first.high, second.high),
        }
    }

    fn residue(self) -> Residue {
        let first = self.first.residue();
        let second = self.second.residue();
        if first.modulus == 0 {
            first
        } else if second.modulus == 0 || first.modulus < second.modulus {
            second
        } else {
            first
        }
    }

    ghost top_holds = { λ z. and_from _ _ (A.top_holds z) (B.top_holds z) };

    ghost number_holds = { λ n. and_from _ _ (A.number_holds n) (B.number_holds n) };

    ghost join_holds = { λ a b z. either (A.join_holds a.first b.first z) (B.join_holds a.second b.second z) };

    ghost add_holds = { λ a b x y. both_two (A.add_holds a.first b.first x y) (B.add_holds a.second b.second x y) };

    ghost sub_holds = { λ a b x y. both_two (A.sub_holds a.first b.first x y) (B.sub_holds a.second b.second x y) };

    ghost mul_holds = { λ a b x y. both_two (A.mul_holds a.first b.first x y) (B.mul_holds a.second b.second x y) };

    ghost div_holds = { λ a b x y p q z. both_two (λ u v. A.div_holds a.first b.first x y u v z)
        (λ u v. B.div_holds a.second b.second x y u v z) p q };

    ghost rem_holds = { λ a b x y p q z. both_two (λ u v. A.rem_holds a.first b.first x y u v z)
        (λ u v. B.rem_holds a.second b.second x y u v z) p q };

    ghost mask_holds = { λ a b m n. both_two (A.mask_holds a.first b.first m n) (B.mask_holds a.second b.second m n) };

    ghost shl_holds = { λ a k x h. both (A.shl_holds a.first k x h) (B.shl_holds a.second k x h) };

    ghost shr_holds = { λ a k x h. both (A.shr_holds a.first k x h) (B.shr_holds a.second k x h) };

    ghost at_least_holds = { λ a n x p h. both (λ u. A.at_least_holds a.first n x u h) (λ u. B.at_least_holds a.second n x u h) p };

    ghost at_most_holds = { λ a n x p h. both (λ u. A.at_most_holds a.first n x u h) (λ u. B.at_most_holds a.second n x u h) p };

    ghost bounds_hold = { λ a x p. let u = and_parts _ _ p in
        within (A.bounds_of a.first) (B.bounds_of a.second) x (A.bounds_hold a.first x u.0) (B.bounds_hold a.second x u.1) };

    ghost residue_holds = { λ a x p. let u = and_parts _ _ p in
        left (A.residue_of a.first) (B.residue_of a.second) x (A.residue_holds a.first x u.0) (B.residue_holds a.second x u.1) };
}

/// The larger of two lower ends.
fn larger_end(a: Option<i64>, b: Option<i64>) -> Option<i64>
    ensures { result ≡ larger a b }
{
    match (a, b) {
        (Some(x), Some(y)) => Some(x.max(y)),
        (Some(x), None) => Some(x),
        (None, b) => b,
    }
}

/// The smaller of two upper ends.
fn smaller_end(a: Option<i64>, b: Option<i64>) -> Option<i64>
    ensures { result ≡ smaller a b }
{
    match (a, b) {
        (Some(x), Some(y)) => Some(x.min(y)),
        (Some(x), None) => Some(x),
        (None, b) => b,
    }
}
