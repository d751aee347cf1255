//! What the domain knows of two items.

ghost use Rattle.std.specs.Prelude.{◌≡◌};
ghost use Rattle.domain.specs.Members.{leaves};
ghost use Rattle.std.specs.Prelude.{pos};
ghost use Rattle.linear.specs.Forms.{form as form_seen};
ghost use Rattle.linear.specs.Terms.{term as term_seen};
ghost use Rattle.linear.specs.Products.{unpacked};
ghost use Rattle.facts.specs.Elements as elements;
ghost use Rattle.facts.specs.View.{known_seen};
ghost use Rattle.walk_trees.specs.Held.{element_with, elements_of_factors};
ghost use Rattle.walk_trees.specs.Seconds as copies;
ghost use Rattle.path_steps.specs.View.{held_seen};

use domain::{Domain, Residue};
use facts::Known;
use linear::{Form, Symbol, Term};
use path_steps::{Invented, Narrowed, element_from};

/// The symbols that an item's path has invented and narrowed up to some point of it, with what the domain knows of them.
#[derive(Clone, Copy)]
pub struct Here<'a, D> {
    pub news: &'a [Invented<D>],
    pub narrowed: &'a [Narrowed<D>],
}

/// A symbol's element: the second item's by its like on the second item's path, all others by the first one's.
fn element_alone<D: Domain>(
    known: &Known<D>,
    first: Here<'_, D>,
    second: Here<'_, D>,
    symbol: Symbol,
) -> D
    ensures { result ≡ copies.element_alone D.Domain (known_seen known.now) (held_seen first.entry.news.now first.entry.narrowed.now) (held_seen second.entry.news.now second.entry.narrowed.now) symbol.number }
{
    let family = symbol.number % 16;
    if family < 9 || family == 15 {
        return element_from(known, first.news, first.narrowed, symbol);
    }
    let like = Symbol {
        number: symbol.number - 6,
    };
    element_from(known, second.news, second.narrowed, like)
}

/// The element of a product's factor, which is no product itself.
fn element_of_factor<D: Domain>(
    known: &Known<D>,
    first: Here<'_, D>,
    second: Here<'_, D>,
    factor: u64,
) -> D
    ensures { result ≡ copies.element_of_factor D.Domain (known_seen known.now) (held_seen first.entry.news.now first.entry.narrowed.now) (held_seen second.entry.news.now second.entry.narrowed.now) factor }
{
    if factor % 16 == 15 {
        return D::top();
    }
    element_alone(known, first, second, Symbol { number: factor })
}

/// The element of factors, of which a number holds three at most, from the left.
fn element_of_product<D: Domain>(
    known: &Known<D>,
    first: Here<'_, D>,
    second: Here<'_, D>,
    packed: u64,
) -> D
    ensures { result ≡ elements_of_factors D.Domain (copies.element_of_factor D.Domain (known_seen known.now) (held_seen first.entry.news.now first.entry.narrowed.now) (held_seen second.entry.news.now second.entry.narrowed.now)) (unpacked 3 packed) }
{
    let digit = packed % 1048576;
    if digit == 0 {
        return D::of(1);
    }
    let mut so_far = element_of_factor(known, first, second, digit - 1);
    let mut left = packed / 1048576;
    let mut most: u32 = 2;
    while most > 0 {
        let digit = left % 1048576;
        if digit == 0 {
            return so_far;
        }
        so_far = so_far.mul(element_of_factor(known, first, second, digit - 1));
        left /= 1048576;
        most -= 1;
    }
    so_far
}

/// A symbol's element, a product's by its factors.
fn element_of_symbol<D: Domain>(
    known: &Known<D>,
    first: Here<'_, D>,
    second: Here<'_, D>,
    symbol: Symbol,
) -> D
    ensures { result ≡ copies.element_of_two D.Domain (known_seen known.now) (held_seen first.entry.news.now first.entry.narrowed.now) (held_seen second.entry.news.now second.entry.narrowed.now) symbol.number }
{
    if symbol.number % 16 == 15 {
        return element_of_product(known, first, second, symbol.number / 16);
    }
    element_alone(known, first, second, symbol)
}

/// The element of a sum with one more term.
fn with_term<D: Domain>(
    known: &Known<D>,
    first: Here<'_, D>,
    second: Here<'_, D>,
    so_far: D,
    term: Term,
) -> D
    ensures { result ≡ D.add_of so_far (D.mul_of (D.number_of (term_seen term).coefficient) (copies.element_of_two D.Domain (known_seen known.now) (held_seen first.entry.news.now first.entry.narrowed.now) (held_seen second.entry.news.now second.entry.narrowed.now) (term_seen term).symbol)) }
{
    let factor = D::of(term.coefficient);
    so_far.add(factor.mul(element_of_symbol(known, first, second, term.symbol)))
}

/// The element of a form over the symbols of both items.
pub fn element_of<D: Domain>(
    known: &Known<D>,
    first: Here<'_, D>,
    second: Here<'_, D>,
    form: &Form,
) -> D
    ensures { result ≡ element_with D.Domain (copies.element_of_two D.Domain (known_seen known.now) (held_seen first.entry.news.now first.entry.narrowed.now) (held_seen second.entry.news.now second.entry.narrowed.now)) (form_seen form.now) }
{
    let mut so_far = D::of(form.constant_part());
    for term in form.terms() {
        so_far = with_term(known, first, second, so_far, *term);
    }
    so_far
}

/// Bounds or residue leave out 0.
pub fn lacks_zero<D: Domain>(element: D) -> bool
    ensures { result ≡ elements.lacks_zero D.Domain element }
{
    let bounds = element.bounds();
    is_above_zero(bounds.low) || is_below_zero(bounds.high) || !leaves_nothing(element.residue())
}

/// A low end is there, and is above 0.
fn is_above_zero(low: Option<i64>) -> bool
    ensures { result ≡ elements.is_above_zero low }
{
    match low {
        Some(low) => low > 0,
        None => false,
    }
}

/// A high end is there, and is below 0.
fn is_below_zero(high: Option<i64>) -> bool
    ensures { result ≡ elements.is_below_zero high }
{
    match high {
        Some(high) => high < 0,
        None => false,
    }
}

/// The number 0 is one of those that a residue allows.
fn leaves_nothing(residue: Residue) -> bool
    ensures { result ≡ leaves residue (pos 0) }
{
    let size = residue.remainder.unsigned_abs();
    if residue.modulus == 0 {
        size == 0
    } else {
        size % residue.modulus == 0
    }
}
