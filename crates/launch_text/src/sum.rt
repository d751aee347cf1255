//! Sums of a conditions text.

ghost use Rattle.std.specs.Prelude.{◌≡◌, ◌≤◌, ◌&&◌, [], true, false, codes, map, length, MatchOption};
ghost use Rattle.words.specs.View.{value_of};
ghost use Rattle.launch.specs.Numbers.{number as number_seen};
ghost use Rattle.launch.specs.View.{factor as factor_seen, summand, sum as sum_seen};
ghost use Rattle.texts.specs.Declarations.{most_names};
ghost use Rattle.launch_text.specs.LaunchFaults.{sees, past};
ghost use Rattle.launch_text.specs.LaunchSums as meaning;
ghost use Rattle.syntax.specs.View.{parameter as parameter_of};
ghost use Rattle.launch_text.specs.Answers.{cursor, read, Gives};

use crate::cursor::Cursor;
use crate::error::{LaunchFault, LaunchTextError};
use crate::name::{is_known, name};
use crate::number::factor;
use launch::conditions::{Dimension, Factor, Sum, Summand};
use launch::number::Number;
use std::alloc::Global;
use syntax::tree::Parameter;

/// The terms of a sum, at most.
const MOST_TERMS: usize = 8;

const ONE: Number = Number {
    negative: false,
    size: 1,
};

/// The number of the value parameter with a name, counted from 0 among the values.
fn value_number(parameters: &[Parameter], word: &[u8]) -> Option<u32>
    requires { length parameters.now ≤ most_names }
    ensures { result ≡ meaning.value_number 0 (map parameter_of parameters.now) word.now }
{
    let mut before = 0;
    for parameter in parameters {
        if let Parameter::Value { name, .. } = parameter {
            if name.as_bytes() == word {
                return Some(before);
            }
            before += 1;
        }
    }
    None
}

#[tactic(auto, unfolding(crate::specs::LaunchSums::argument_at))]
fn argument<'a>(
    at: Cursor<'a>,
    parameters: &[Parameter],
) -> Result<(Factor, Cursor<'a>), LaunchTextError>
    requires { length parameters.now ≤ most_names }
    ensures { Gives (read factor_seen) result (meaning.argument_at (map parameter_of parameters.now) (cursor at.entry)) }
{
    let (word, after) = name(at)?;
    let Some(parameter) = value_number(parameters, word) else {
        if is_known(parameters, word) {
            return Err(after.refused(LaunchFault::Expected));
        }
        return Err(after.refused(LaunchFault::UnknownName));
    };
    Ok((Factor::Argument(parameter), after))
}

#[tactic(auto, unfolding(crate::specs::LaunchSums::symbol_at))]
fn symbol<'a>(
    at: Cursor<'a>,
    parameters: &[Parameter],
) -> Result<(Factor, Cursor<'a>), LaunchTextError>
    requires { length parameters.now ≤ most_names }
    ensures { Gives (read factor_seen) result (meaning.symbol_at (map parameter_of parameters.now) (cursor at.entry)) }
{
    if let Some(after) = at.strip("groups.0") {
        return Ok((Factor::Groups(Dimension::X), after));
    }
    if let Some(after) = at.strip("groups.1") {
        return Ok((Factor::Groups(Dimension::Y), after));
    }
    if let Some(after) = at.strip("groups.2") {
        return Ok((Factor::Groups(Dimension::Z), after));
    }
    argument(at, parameters)
}

/// A number times one argument or group count.
fn once(number: Number, of: Factor) -> Summand
    ensures { summand result ≡ meaning.times (number_seen number) (factor_seen of) }
{
    match of {
        Factor::Argument(parameter) => Summand::Argument {
            factor: number,
            parameter,
        },
        Factor::Groups(dimension) => Summand::Groups {
            factor: number,
            dimension,
        },
    }
}

/// The cursor past the sign between two names, where products may stand.
fn strip_times<'a>(at: Cursor<'a>, has_products: bool) -> Option<Cursor<'a>>
    ensures { MatchOption result ((has_products && sees (codes "*") (cursor at.entry)) ≡ false) (λ after. ((has_products && sees (codes "*") (cursor at.entry)) ≡ true) × (cursor after ≡ past 1 (cursor at.entry))) }
{
    if has_products {
        return at.strip("*");
    }
    None
}

#[tactic(auto, unfolding(crate::specs::LaunchSums::symbols_at))]
fn symbols<'a>(
    at: Cursor<'a>,
    parameters: &[Parameter],
    number: Number,
    has_products: bool,
) -> Result<(Summand, Cursor<'a>), LaunchTextError>
    requires { length parameters.now ≤ most_names }
    ensures { Gives (read summand) result (meaning.symbols_at has_products (map parameter_of parameters.now) (number_seen number) (cursor at.entry)) }
{
    let (first, after) = symbol(at, parameters)?;
    let Some(behind) = strip_times(after, has_products) else {
        return Ok((once(number, first), after));
    };
    let (second, after) = symbol(behind, parameters)?;
    let product = Summand::Product {
        factor: number,
        first,
        second,
    };
    Ok((product, after))
}

fn begins_number(bytes: &[u8]) -> bool
    ensures { result ≡ meaning.begins_number bytes.now }
{
    match bytes {
        [first, ..] => *first == b'-' || first.is_ascii_digit(),
        [] => false,
    }
}

#[tactic(auto, unfolding(crate::specs::LaunchSums::term_at))]
fn term<'a>(
    at: Cursor<'a>,
    parameters: &[Parameter],
    has_products: bool,
) -> Result<(Summand, Cursor<'a>), LaunchTextError>
    requires { length parameters.now ≤ most_names }
    ensures { Gives (read summand) result (meaning.term_at has_products (map parameter_of parameters.now) (cursor at.entry)) }
{
    if !begins_number(at.rest) {
        return symbols(at, parameters, ONE, has_products);
    }
    let (factor, after) = factor(at)?;
    match after.strip("*") {
        Some(behind) => symbols(behind, parameters, factor, has_products),
        None => Ok((Summand::Constant(factor), after)),
    }
}

/// A sum of at most 8 terms, which may be products where the text's version has them.
pub fn sum<'a>(
    alloc: Global,
    at: Cursor<'a>,
    parameters: &[Parameter],
    has_products: bool,
) -> Result<(Sum, Cursor<'a>), LaunchTextError>
    requires { length parameters.now ≤ most_names }
    ensures { Gives (read sum_seen) result (meaning.sum_at has_products (map parameter_of parameters.now) 8 [] (cursor at.entry)) }
{
    let mut terms = Vec::new(alloc);
    let mut room = MOST_TERMS;
    let mut rest = at;
    while room > 0 {
        let (term, after) = term(rest, parameters, has_products)?;
        terms.push(term)?;
        let Some(behind) = after.strip(" + ") else {
            return Ok((Sum { terms }, after));
        };
        room -= 1;
        rest = behind;
    }
    Err(rest.refused(LaunchFault::LimitPassed))
}
