//! How often the test of a loop is true.

ghost use Rattle.std.specs.Prelude.{◌≡◌, ◌<◌, ◌/◌, pos, ◌<ℤ◌};
ghost use Rattle.loop_bounds.specs.Turns as specs;

use crate::bound::{Bound, Least, LoopBound};

/// A number from 0 on: 0 where the given one is below.
fn above(most: i64) -> u64
    ensures { result ≡ specs.above most }
{
    if most < 0 { 0 } else { most.unsigned_abs() }
}

/// The least number, from 1 on.
fn divisor(least: Least) -> u64
    ensures same { result ≡ specs.above least.number }
    ensures some { 0 < result }
{
    above(least.number())
}

/// The number of binary digits of a number, 0 of 0.
fn digits(number: u64) -> u64
    ensures { result ≡ specs.digits number }
{
    u64::from(64 - number.leading_zeros())
}

/// The whole quotient of the most and the least.
fn times_least(least: Least, most: i64) -> u64
    ensures { result ≡ specs.above most / specs.above least.number }
{
    above(most) / divisor(least)
}

/// The most times that the test of a loop is true.
pub fn turns(bound: &Bound) -> u64
    ensures { result ≡ specs.turns bound.now }
{
    match bound {
        Bound::Down { step, most, .. } => above(*most).div_ceil(step.size()),
        Bound::Halving { most, .. } => digits(above(*most)),
        Bound::Doubling { least, most, .. } => digits(times_least(*least, *most)),
    }
}

/// The most turns that the loop of that number takes by these bounds; 0 where none is of it.
pub fn turns_of(bounds: &[LoopBound], number: u32) -> u64
    ensures { result ≡ specs.turns_of bounds.now number }
{
    for one in bounds {
        if one.number == number {
            return turns(&one.bound);
        }
    }
    0
}
