//! Tests of intervals: small ranges, and ranges at the edges of `i64`.

use domain::interval::Interval;
use domain::{Bounds, Domain, Residue, linear};

const MIN: i64 = i64::MIN;

const MAX: i64 = i64::MAX;

fn range(low: i64, high: i64) -> Interval {
    Interval::top().at_least(low).at_most(high)
}

fn ends(low: i64, high: i64) -> Bounds {
    Bounds {
        low: Some(low),
        high: Some(high),
    }
}

fn from(low: i64) -> Bounds {
    Bounds {
        low: Some(low),
        high: None,
    }
}

fn up_to(high: i64) -> Bounds {
    Bounds {
        low: None,
        high: Some(high),
    }
}

#[test]
fn small_ranges(rt: HostRuntime) {
    let found = [
        range(-7, 7).div(range(2, 3)),
        range(0, 100).rem(range(7, 7)),
        range(-5, 100).rem(range(7, 7)),
        range(3, 4).at_least(5),
        range(1, 2).join(range(5, 6)),
        range(0, 9).mask(Interval::top().at_least(0)),
        linear(-2, range(0, 9), 1),
    ];
    let wanted = [
        ends(-3, 3),
        ends(0, 6),
        ends(-5, 6),
        ends(3, 4),
        ends(1, 6),
        ends(0, 9),
        ends(-17, 1),
    ];
    for at in 0..7 {
        assert_eq!(rt; found[at].bounds(), wanted[at]);
    }
    assert_eq!(rt;
        Interval::of(4).residue(),
        Residue {
            modulus: 0,
            remainder: 4
        }
    );
}

// Expected values come from a program of another language.
#[test]
fn the_edges_of_i64(rt: HostRuntime) {
    let all = Interval::top();
    let found = [
        range(MAX - 1, MAX).add(range(1, 1)),
        all.at_most(5).sub(range(MIN, MIN)),
        range(MIN, MIN).mul(range(-1, -1)),
        all.at_least(1).mul(range(-5, -3)),
        range(MIN, MAX).mul(range(0, 1)),
        range(MIN, 5).div(range(-1, -1)),
        range(MIN, MAX).div(range(-2, 3)),
        all.at_least(10).div(all.at_least(3)),
        range(1, 2).div(range(0, 0)),
        all.rem(range(MIN, 3)),
        range(1, 4294967296).shl(31),
        range(MIN, -1).shr(31),
    ];
    let wanted = [
        from(MAX),
        all.bounds(),
        all.bounds(),
        up_to(-3),
        ends(MIN, MAX),
        from(-5),
        from(MIN),
        from(0),
        all.bounds(),
        ends(-MAX, MAX),
        from(2147483648),
        ends(-4294967296, -1),
    ];
    for at in 0..12 {
        assert_eq!(rt; found[at].bounds(), wanted[at]);
    }
}
