//! The symbols that may be named somewhere.

ghost use Rattle.std.specs.Prelude.{◌≡◌, ◌<◌, IfOk, Option, map};
ghost use Rattle.std.specs.Option.{option_map};
ghost use Rattle.facts.specs.Symbols.{number};
ghost use Rattle.facts.specs.Families.{symbol_in};
ghost use Rattle.linear.specs.Products.{times};
ghost use Rattle.linear.specs.Terms.{terms as terms_seen};
ghost use Rattle.certificate.specs.View.{name as name_seen, dimension as dimension_seen};
ghost use Rattle.certificate_notes.specs.Sights as sights;
ghost use Rattle.certificate_notes.specs.View.{chart as chart_seen, sight as sight_seen, named};

use crate::chart::Chart;
use crate::error::NamesError;
use crate::scenes::Named;
use certificate::tree::{Dimension, Name};
use facts::{Family, Side};
use linear::{Form, Symbol, Term};
use std::alloc::{AllocError, Global};

/// The variables that stand for what they are now, and for what they were at the anchor; the loops around; whether new symbols are among
/// them, and those of a second item.
#[derive(Clone, Copy)]
pub struct Sight<'a> {
    pub here: &'a [Named<'a>],
    pub before: &'a [Named<'a>],
    pub around: &'a [u32],
    pub has_new: bool,
    pub has_second: bool,
}

/// The slot of the first of that name.
pub fn slot_of(names: &[Named<'_>], name: &str) -> Option<u32>
    ensures { result ≡ sights.slot_of (map named names.now) name.now }
{
    for variable in names {
        if variable.name == name {
            return Some(variable.slot);
        }
    }
    None
}

/// A number that stands among the numbers, as a `u32`; none where it does not.
fn found_in(numbers: &[u32], number: u64) -> Option<u32>
    ensures { result ≡ sights.found_in numbers.now number }
{
    for found in numbers {
        if *found as u64 == number {
            return Some(*found);
        }
    }
    None
}

/// The index of a new symbol, from its number, which is counted from 1; none where new symbols have no name.
fn new_number(has_new: bool, number: u64) -> Option<u32>
    ensures { result ≡ sights.new_number has_new number }
{
    if has_new && (1 <= number && number < 4_294_967_296) {
        return Some((number - 1) as u32);
    }
    None
}

fn dimension_number(dimension: Dimension) -> u32
    ensures value { result ≡ sights.dimension_number (dimension_seen dimension) }
{
    match dimension {
        Dimension::First => 0,
        Dimension::Second => 1,
        Dimension::Third => 2,
    }
}

/// The symbol of a family and an index, where there is one.
fn symbol_at(family: Family, index: Option<u32>) -> Option<Symbol>
    ensures { option_map (λ s. s.number) result ≡ option_map (λ n. number (symbol_in family n)) index }
{
    match index {
        None => None,
        Some(index) => Some(family.symbol(index as u64)),
    }
}

/// The symbol of a name that is no product and not a second item's, where it has one.
fn plain_symbol(chart: &Chart<'_>, sight: &Sight<'_>, name: &Name) -> Option<Symbol>
    ensures { option_map (λ s. s.number) result ≡ sights.plain_symbol (chart_seen chart.now) (sight_seen sight.now) (name_seen name.now) }
{
    match name {
        Name::Variable(name) => symbol_at(
            Family::Variable(Side::First),
            slot_of(sight.here, name.as_str()),
        ),
        Name::AtAnchor(name) => symbol_at(
            Family::AtAnchor(Side::First),
            slot_of(sight.before, name.as_str()),
        ),
        Name::Turns(number) => symbol_at(
            Family::Turns(Side::First),
            found_in(sight.around, *number),
        ),
        Name::Fresh(number) => symbol_at(
            Family::New(Side::First),
            new_number(sight.has_new, *number),
        ),
        Name::Argument(name) => symbol_at(
            Family::Argument,
            slot_of(chart.arguments.as_slice(), name.as_str()),
        ),
        Name::Length(name) => symbol_at(
            Family::Length,
            slot_of(chart.buffers.as_slice(), name.as_str()),
        ),
        Name::Groups(dimension) => symbol_at(Family::Groups, Some(dimension_number(*dimension))),
        Name::Group(dimension) => symbol_at(
            Family::Group(Side::First),
            Some(dimension_number(*dimension)),
        ),
        Name::Local(dimension) => symbol_at(
            Family::Local(Side::First),
            Some(dimension_number(*dimension)),
        ),
        Name::Second(_) | Name::Product(_, _) => None,
    }
}

/// The second item's copy of a symbol that is an item's own; none of others, or where no second item is spoken of.
fn second_of(has_second: bool, symbol: Symbol) -> Option<Symbol>
    ensures { option_map (λ s. s.number) result ≡ sights.second_of has_second symbol.number }
{
    let family = symbol.number % 16;
    if has_second && (3 <= family && family < 9) {
        return Some(Symbol {
            number: symbol.number + 6,
        });
    }
    None
}

/// The symbol of the first term.
fn first_of(terms: &[Term]) -> Option<Symbol>
    ensures { option_map (λ s. s.number) result ≡ sights.first_of (terms_seen terms.now) }
{
    match terms.first() {
        Some(term) => Some(term.symbol),
        None => None,
    }
}

/// The product of two symbols, where it is one.
fn product_of(alloc: Global, first: Symbol, second: Symbol) -> Result<Option<Symbol>, AllocError>
    ensures { IfOk result (λ r. option_map (λ s. s.number) r ≡ times first.number second.number) }
{
    let left = Form::symbol(alloc, first)?;
    let right = Form::symbol(alloc, second)?;
    let Some(product) = left.product(alloc, &right)? else {
        return Ok(None);
    };
    Ok(first_of(product.terms()))
}

/// The symbol of a name, where it has one.
pub fn symbol(
    alloc: Global,
    chart: &Chart<'_>,
    sight: &Sight<'_>,
    name: &Name,
) -> Result<Option<Symbol>, NamesError>
    ensures { IfOk result (λ r. option_map (λ s. s.number) r ≡ sights.symbol (chart_seen chart.now) (sight_seen sight.now) (name_seen name.now)) }
{
    match name {
        Name::Second(of) => {
            let Some(own) = symbol(alloc, chart, sight, of)? else {
                return Ok(None);
            };
            Ok(second_of(sight.has_second, own))
        }
        Name::Product(first, others) => {
            let Some(left) = symbol(alloc, chart, sight, first)? else {
                return Ok(None);
            };
            let Some(right) = symbol(alloc, chart, sight, others)? else {
                return Ok(None);
            };
            Ok(product_of(alloc, left, right)?)
        }
        _ => Ok(plain_symbol(chart, sight, name)),
    }
}
