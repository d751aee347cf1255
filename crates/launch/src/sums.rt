//! Sums, over whole numbers.

ghost use Rattle.std.specs.Prelude.{◌≡◌, ◌<◌, ◌^◌, ◌≤◌, ◌*ℤ◌, pos, map, length};
ghost use Rattle.std.specs.Prelude.{int_le, slice_index_or};
ghost use Rattle.semantics.specs.Conditions as meaning;
ghost use Rattle.semantics.specs.Setup.{along};
ghost use Rattle.semantics.specs.Word.{zero_word};
ghost use Rattle.words.specs.View.{word};
ghost use Rattle.launch.specs.Numbers.{signed, number, number as number_of};
ghost use Rattle.launch.specs.View.{counts, dimension as dimension_of, launch as launch_of};
ghost use Rattle.launch.specs.View.{factor as factor_of, summand as summand_of};

use crate::conditions::{Dimension, Factor, Summand};
use crate::launches::{Counts, Launch};
use crate::number::{Number, Whole, from_product, of_word, times, times_product};
use words::Word;

/// A number as a difference of two that are not negative.
#[derive(Clone, Copy)]
pub struct Difference {
    pub plus: u128,
    pub minus: u128,
    pub ghost plus_fits: { plus < 2 ^ 100 },
    pub ghost minus_fits: { minus < 2 ^ 100 },
}

impl Difference {
    ghost use Rattle.launch.specs.Differences.{difference, above_zero};

    /// Whether the number is at least another one.
    pub fn at_least(self, other: Difference) -> bool
        ensures { result ≡ int_le (difference other) (difference self) }
    {
        other.plus + self.minus <= self.plus + other.minus
    }

    /// The larger of 0 and the number.
    pub fn above_zero(self) -> u128
        ensures value { result ≡ above_zero (difference self) }
        ensures bound { result < 2 ^ 100 }
    {
        self.plus.saturating_sub(self.minus)
    }
}

fn argument(words: &[Word], parameter: u32) -> Number
    ensures { number result ≡ (slice_index_or (map word words.now) parameter zero_word).value }
{
    let at = parameter as usize;
    if at < words.len() {
        return of_word(words[at]);
    }
    Number {
        negative: false,
        size: 0,
    }
}

fn count(groups: Counts, dimension: Dimension) -> Number
    ensures { number result ≡ pos (along (counts groups) (dimension_of dimension) 1) }
{
    let size = match dimension {
        Dimension::X => groups.x,
        Dimension::Y => groups.y,
        Dimension::Z => groups.z,
    };
    Number {
        negative: false,
        size,
    }
}

/// The value of a factor of a product.
fn factor_value(launch: &Launch, factor: Factor) -> Number
    ensures { number result ≡ meaning.factor_value (launch_of launch.now) (factor_of factor) }
{
    match factor {
        Factor::Argument(parameter) => argument(&launch.arguments, parameter),
        Factor::Groups(dimension) => count(launch.groups, dimension),
    }
}

/// A number times the product of two factors.
fn product(launch: &Launch, number: Number, first: Factor, second: Factor) -> Whole
    ensures { signed result.negative result.size ≡ number_of number *ℤ (meaning.factor_value (launch_of launch.now) (factor_of first) *ℤ meaning.factor_value (launch_of launch.now) (factor_of second)) }
{
    times_product(
        number,
        times(factor_value(launch, first), factor_value(launch, second)),
    )
}

/// The value of a summand.
pub fn value(launch: &Launch, summand: Summand) -> Whole
    ensures { signed result.negative result.size ≡ meaning.summand_value (launch_of launch.now) (summand_of summand) }
{
    match summand {
        Summand::Constant(number) => Whole {
            negative: number.negative,
            size: number.size as u128,
        },
        Summand::Argument { factor, parameter } => {
            from_product(times(factor, argument(&launch.arguments, parameter)))
        }
        Summand::Groups { factor, dimension } => {
            from_product(times(factor, count(launch.groups, dimension)))
        }
        Summand::Product {
            factor,
            first,
            second,
        } => product(launch, factor, first, second),
    }
}
