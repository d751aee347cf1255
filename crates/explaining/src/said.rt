//! The sums of conditions.

use crate::sums::{Name, Sum};
use launch::conditions::{Dimension, Factor, Sum as Said, Summand};
use launch::number::Number;

fn value_of(number: Number) -> i64 {
    let size = number.size as i64;
    if number.negative {
        0i64.saturating_sub(size)
    } else {
        size
    }
}

fn group_name(dimension: Dimension) -> Name {
    match dimension {
        Dimension::X => Name::Groups(0),
        Dimension::Y => Name::Groups(1),
        Dimension::Z => Name::Groups(2),
    }
}

fn name_of(factor: Factor) -> Name {
    match factor {
        Factor::Argument(slot) => Name::Argument(slot),
        Factor::Groups(dimension) => group_name(dimension),
    }
}

/// A term of a sum in the conditions.
fn term_of(summand: Summand) -> Option<Sum> {
    match summand {
        Summand::Constant(number) => Some(Sum::number(value_of(number))),
        Summand::Argument { factor, parameter } => {
            Sum::of(value_of(factor), Name::Argument(parameter))
        }
        Summand::Groups { factor, dimension } => Sum::of(value_of(factor), group_name(dimension)),
        Summand::Product {
            factor,
            first,
            second,
        } => Sum::of_both(value_of(factor), name_of(first), name_of(second)),
    }
}

/// A sum in the conditions.
pub fn sum_of(said: &Said) -> Option<Sum> {
    let mut sum = Sum::number(0);
    for summand in said.terms.iter() {
        sum = sum.plus(term_of(*summand)?)?;
    }
    Some(sum)
}
