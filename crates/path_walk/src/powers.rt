//! Powers of 2.

ghost use Rattle.std.specs.Prelude.{◌≡◌, ◌≤◌, ◌^◌, ◌+ℤ◌, ◌<ℤ◌, pos, true};
ghost use Rattle.std.specs.Ordering.{int_eq};
ghost use Rattle.walk_trees.specs.Quotients as quotients;

/// 2 to the power of a count.
fn power(count: u32) -> u64
    requires { count ≤ 32 }
    ensures { result ≡ 2 ^ count }
{
    1 << count
}

/// A power of 2, by its exponent, as a signed number.
pub fn power_of(count: u32) -> i64
    requires { count ≤ 32 }
    ensures exact { result ≡ pos (2 ^ count) }
    ensures above { pos 0 <ℤ result }
{
    power(count) as i64
}

/// A number is 2 to the power of a count.
pub fn is_power_of(number: i64, count: u32) -> bool
    requires { count ≤ 32 }
    ensures { result ≡ int_eq number (pos (2 ^ count)) }
{
    number == power_of(count)
}

/// The number is one of the powers from 2^0 to that of the most bits.
pub fn is_power(most: u32, number: i64) -> bool
    requires { most ≤ 32 }
    ensures { result ≡ quotients.is_power most number }
{
    let mut found = is_power_of(number, 0);
    for smaller in 0..most {
        found |= is_power_of(number, smaller + 1);
    }
    found
}

/// The lowest bits are set, at most so many of them, and no other ones.
pub fn is_low_bits(most: u32, number: i64) -> bool
    requires { most ≤ 32 }
    ensures { result ≡ quotients.is_power most (number +ℤ pos 1) }
{
    number < 4_294_967_296 && is_power(most, number + 1)
}

/// The power of 2 above the lowest bits.
pub fn above_bits(number: i64) -> i64
    requires { quotients.is_power 32 (number +ℤ pos 1) ≡ true }
    ensures exact { result ≡ number +ℤ pos 1 }
    ensures above { pos 0 <ℤ result }
{
    number + 1
}
