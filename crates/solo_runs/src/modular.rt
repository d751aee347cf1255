//! Whole numbers by what is left of them at a large prime.

/// The prime, 2^61 - 1.
const PRIME: u64 = 0x1fff_ffff_ffff_ffff;

/// The remainder of a number by the prime, from 0 on.
pub fn residue(value: i64) -> u64 {
    value.rem_euclid(0x1fff_ffff_ffff_ffff).unsigned_abs()
}

/// The remainder by the prime of a sum below twice the prime.
fn folded(sum: u64) -> u64 {
    if sum >= PRIME { sum - PRIME } else { sum }
}

/// The remainder of a product of two remainders by the prime.
pub fn product(left: u64, right: u64) -> u64 {
    let exact = u128::from(left).wrapping_mul(u128::from(right));
    let low = exact & 0x1fff_ffff_ffff_ffff;
    let high = exact >> 61;
    let sum = low.wrapping_add(high);
    folded(u64::try_from(sum).unwrap_or(0))
}

/// The remainder of a difference of two remainders by the prime.
pub fn difference(left: u64, right: u64) -> u64 {
    if left >= right {
        left - right
    } else {
        left.wrapping_add(PRIME).wrapping_sub(right)
    }
}

/// The inverse of a number by the prime, that is, what gives 1 in a product with it: its power by the prime less 2. The number is not 0.
pub fn inverse(number: u64) -> u64 {
    let mut found = 1;
    let mut square = number;
    let mut power = PRIME - 2;
    for _ in 0..61 {
        if power % 2 == 1 {
            found = product(found, square);
        }
        square = product(square, square);
        power /= 2;
    }
    found
}

/// The number nearest to 0 of which that is left.
pub fn nearest(number: u64) -> i64 {
    let size = i64::try_from(number).unwrap_or(0);
    if size > 0x0fff_ffff_ffff_ffff {
        size.wrapping_sub(0x1fff_ffff_ffff_ffff)
    } else {
        size
    }
}
