//! Tests of the domain of known bits, alone and in a product with a range and a remainder.

use domain::interval::Interval;
use domain::known_bits::KnownBits;
use domain::{Domain, Elements, Residue, linear};

fn left(modulus: u64, remainder: i64) -> Residue {
    Residue { modulus, remainder }
}

// Expected values come from a program of another language.
#[test]
fn bits_of_results(rt: HostRuntime) {
    let gap = KnownBits::of(5).join(KnownBits::of(13));
    let fours = KnownBits::top().mask(KnownBits::of(12));
    let found = [
        KnownBits::of(-1),
        gap,
        fours.add(gap),
        fours.sub(KnownBits::of(1)),
        gap.mul(gap),
        gap.div(gap),
        gap.rem(gap),
        gap.mask(KnownBits::of(7)),
        gap.shl(2),
        gap.shr(1),
        gap.shr(4),
        gap.at_least(6),
        gap.at_most(6),
        linear(-3, fours, 1),
    ];
    let wanted = [
        left(4294967296, 4294967295),
        left(8, 5),
        left(4, 1),
        left(4, 3),
        left(8, 1),
        left(1, 0),
        left(1, 0),
        left(4294967296, 5),
        left(32, 20),
        left(4, 2),
        left(268435456, 0),
        left(8, 5),
        left(8, 5),
        left(4, 1),
    ];
    for at in 0..14 {
        assert_eq!(rt; found[at].residue(), wanted[at]);
    }
    assert_eq!(rt; gap.bounds(), KnownBits::top().bounds());
}

// One more than a number from 0 to 100, masked by 12.
fn masked_and_one() -> Elements {
    let number = Elements::top().at_least(0).at_most(100);
    number.mask(Elements::of(12)).add(Elements::of(1))
}

#[test]
fn a_masked_index_and_one_more(rt: HostRuntime) {
    let range = Interval::top().at_least(1).at_most(13);
    assert_eq!(rt; masked_and_one().residue(), left(4, 1));
    assert_eq!(rt; masked_and_one().bounds(), range.bounds());
}
