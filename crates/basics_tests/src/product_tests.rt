//! Tests of the product of an interval and a congruence: each part sharpens the other.

use domain::congruence::Congruence;
use domain::interval::Interval;
use domain::product::Product;
use domain::{Domain, Residue};

// Three times the members that leave 1 by 4, plus 1.
fn image(first: Interval) -> Product<Interval, Congruence> {
    let class = Product {
        first,
        second: Congruence::of(1).join(Congruence::of(5)),
    };
    class.mul(Product::of(3)).add(Product::of(1))
}

#[test]
fn interval_and_congruence(rt: HostRuntime) {
    let range = Interval::top().at_most(9).at_least(-2);
    let ends = Interval::top().at_least(-5).at_most(28);
    assert_eq!(rt; image(range).bounds(), ends.bounds());
    let residue = image(range).residue();
    assert_eq!(rt;
        residue,
        Residue {
            modulus: 12,
            remainder: 4
        }
    );
}
