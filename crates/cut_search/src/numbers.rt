//! Arithmetic of rows in `i64`: greatest common divisors, quotients, and sums of two products.

ghost use Rattle.std.specs.Prelude.{pos, ◌<ℤ◌};

/// The greatest common divisor; of 0 and a number that number.
pub fn greatest_divisor(a: u64, b: u64) -> u64 {
    let mut x = a;
    let mut y = b;
    while y != 0 {
        let rest = x % y;
        x = y;
        y = rest;
    }
    x
}

/// `a*k + b*m`, where no number of it leaves `i64`.
pub fn blend(a: i64, k: i64, b: i64, m: i64) -> Option<i64> {
    let Some(first) = a.checked_mul(k) else {
        return None;
    };
    let Some(second) = b.checked_mul(m) else {
        return None;
    };
    first.checked_add(second)
}

/// The quotient, rounded down.
pub fn quotient(number: i64, divisor: i64) -> i64
    requires { pos 0 <ℤ divisor }
{
    number.div_euclid(divisor)
}
