//! Tests of congruences: small moduli, and numbers at the edges of `i64`.

use domain::congruence::Congruence;
use domain::{Domain, Residue, linear};

const MIN: i64 = i64::MIN;

const MAX: i64 = i64::MAX;

/// The numbers that leave by the modulus what `remainder` does.
fn class_of(modulus: i64, remainder: i64) -> Congruence {
    linear(modulus, Congruence::top(), remainder)
}

fn left(modulus: u64, remainder: i64) -> Residue {
    Residue { modulus, remainder }
}

// Expected values come from a program of another language.
#[test]
fn small_moduli(rt: HostRuntime) {
    let found = [
        class_of(4, 1).join(class_of(6, 3)),
        class_of(4, 1).add(class_of(6, 3)),
        class_of(6, 1).sub(class_of(9, 8)),
        class_of(4, 2).mul(class_of(6, 3)),
        class_of(12, 8).div(Congruence::of(-4)),
        class_of(12, 8).rem(Congruence::of(8)),
        class_of(12, 8).rem(Congruence::of(0)),
        class_of(12, 8).shr(2),
        class_of(3, 2).shl(4),
        Congruence::of(12).mask(Congruence::of(10)),
        linear(-3, class_of(4, 1), 1),
    ];
    let wanted = [
        left(2, 1),
        left(2, 0),
        left(3, 2),
        left(12, 6),
        left(3, 1),
        left(4, 0),
        left(1, 0),
        left(3, 2),
        left(48, 32),
        left(0, 8),
        left(12, 10),
    ];
    for at in 0..11 {
        assert_eq!(rt; found[at].residue(), wanted[at]);
    }
}

#[test]
fn the_edges_of_i64(rt: HostRuntime) {
    let least = Congruence::of(MIN);
    let found = [
        least.div(Congruence::of(-1)),
        least.rem(Congruence::of(-1)),
        least.sub(Congruence::of(1)),
        least.join(Congruence::of(MAX)),
        least.join(Congruence::of(0)),
        class_of(4294967296, 1).shl(31),
    ];
    let wanted = [
        left(1, 0),
        left(0, 0),
        left(1, 0),
        left(1, 0),
        left(1, 0),
        left(1, 0),
    ];
    for at in 0..6 {
        assert_eq!(rt; found[at].residue(), wanted[at]);
    }
    assert_eq!(rt; least.bounds().low, Some(MIN));
}
