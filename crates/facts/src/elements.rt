//! What an abstract domain knows of symbols and forms.

ghost use Rattle.std.specs.Prelude.{◌≡◌};
ghost use Rattle.linear.specs.Forms.{form as form_seen};
ghost use Rattle.linear.specs.Terms.{term as term_seen};
ghost use Rattle.linear.specs.Products.{unpacked};
ghost use Rattle.facts.specs.Symbols.{symbol_of};
ghost use Rattle.facts.specs.Elements as elements;
ghost use Rattle.facts.specs.View.{elements_seen as seen};

use crate::family::Family;
use crate::side::Side;
use domain::Domain;
use linear::{Form, Symbol, Term};

/// The elements of a launch's symbols and of the ids of its items: by dimension, by value parameter, by buffer.
#[derive(Drop)]
pub struct Known<D> {
    pub counts: Vec<D>,
    pub arguments: Vec<D>,
    pub lengths: Vec<D>,
    pub locals: Vec<D>,
    pub groups: Vec<D>,
}

/// The element at an index, and past the end all numbers.
fn nth<D: Domain>(of: &[D], index: u64) -> D
    ensures { result ≡ elements.nth D.Domain of.now index }
{
    match of.get(index as usize) {
        Some(element) => *element,
        None => D::top(),
    }
}

/// A symbol's element, with those of the new symbols of each item.
fn element<D: Domain>(known: &Known<D>, first: &[D], second: &[D], symbol: Symbol) -> D
    ensures { result ≡ elements.element D.Domain (seen known.now first.now second.now) (symbol_of symbol.number) }
{
    let index = symbol.number / 16;
    match Family::of(symbol) {
        Family::Groups => nth(known.counts.as_slice(), index),
        Family::Argument => nth(known.arguments.as_slice(), index),
        Family::Length => nth(known.lengths.as_slice(), index),
        Family::Local(_) => nth(known.locals.as_slice(), index),
        Family::Group(_) => nth(known.groups.as_slice(), index),
        Family::New(Side::First) => nth(first, index),
        Family::New(Side::Second) => nth(second, index),
        Family::Variable(_) | Family::AtAnchor(_) | Family::Turns(_) => D::top(),
    }
}

/// The element of factors, of which a number holds three at most, from the left.
fn element_of_product<D: Domain>(known: &Known<D>, first: &[D], second: &[D], number: u64) -> D
    ensures { result ≡ elements.element_of_factors D.Domain (seen known.now first.now second.now) (unpacked 3 number) }
{
    let digit = number % 1048576;
    if digit == 0 {
        return D::of(1);
    }
    let leftmost = Symbol { number: digit - 1 };
    let mut so_far = element(known, first, second, leftmost);
    let mut left = number / 1048576;
    let mut most: u32 = 2;
    while most > 0 {
        let digit = left % 1048576;
        if digit == 0 {
            return so_far;
        }
        let factor = Symbol { number: digit - 1 };
        so_far = so_far.mul(element(known, first, second, factor));
        left /= 1048576;
        most -= 1;
    }
    so_far
}

/// A symbol's element, also a product's.
fn element_at<D: Domain>(known: &Known<D>, first: &[D], second: &[D], symbol: Symbol) -> D
    ensures { result ≡ elements.element_at D.Domain (seen known.now first.now second.now) symbol.number }
{
    if symbol.number % 16 == 15 {
        return element_of_product(known, first, second, symbol.number / 16);
    }
    element(known, first, second, symbol)
}

/// The element of a sum with one more term.
fn with_term<D: Domain>(known: &Known<D>, first: &[D], second: &[D], so_far: D, term: Term) -> D
    ensures { result ≡ D.add_of so_far (D.mul_of (D.number_of (term_seen term).coefficient)
        (elements.element_at D.Domain (seen known.now first.now second.now) (term_seen term).symbol)) }
{
    let factor = D::of(term.coefficient);
    so_far.add(factor.mul(element_at(known, first, second, term.symbol)))
}

/// A form's element, by its constant and then its terms in their order.
pub fn element_of<D: Domain>(known: &Known<D>, first: &[D], second: &[D], form: &Form) -> D
    ensures { result ≡ elements.element_of D.Domain (seen known.now first.now second.now) (form_seen form.now) }
{
    let mut so_far = D::of(form.constant_part());
    for term in form.terms() {
        so_far = with_term(known, first, second, so_far, *term);
    }
    so_far
}

/// The domain alone tells that a form is at least 0.
pub fn is_settled<D: Domain>(known: &Known<D>, first: &[D], second: &[D], form: &Form) -> bool
    ensures { result ≡ elements.is_settled D.Domain (seen known.now first.now second.now) (form_seen form.now) }
{
    match element_of(known, first, second, form).bounds().low {
        Some(low) => low >= 0,
        None => false,
    }
}

/// The numbers from `low` to `high`.
pub fn between<D: Domain>(low: i64, high: i64) -> D
    ensures { result ≡ elements.between D.Domain low high }
{
    D::top().at_least(low).at_most(high)
}
