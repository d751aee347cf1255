//! What the domain holds on a path.

ghost use Rattle.std.specs.Prelude.{◌≡◌, ◌&&◌, [], map, MatchResult};
ghost use Rattle.std.specs.Prelude.{neg_ℤ, pos};
ghost use Rattle.linear.specs.Forms.{form as form_seen};
ghost use Rattle.linear.specs.Terms.{term as term_seen};
ghost use Rattle.linear.specs.Products.{unpacked};
ghost use Rattle.facts.specs.Symbols.{symbol_of};
ghost use Rattle.facts.specs.Elements as elements;
ghost use Rattle.facts.specs.Refusals.{IsMemory};
ghost use Rattle.facts.specs.View.{known_seen, elements_seen};
ghost use Rattle.walk_trees.specs.Held as held;
ghost use Rattle.path_steps.specs.Paths.{with_held};
ghost use Rattle.path_steps.specs.Without.{element_without};
ghost use Rattle.path_steps.specs.View.{followed, held_seen, invented_seen, narrowed_seen};

use crate::marks::latest;
use crate::path::{Invented, Narrowed, Path};
use crate::setting::Setting;
use domain::Domain;
use facts::{Family, Known, Side, WalkError};
use linear::{Form, Symbol, Term};

/// The element at an index, and past the end all numbers.
fn nth<D: Domain>(of: &[D], index: u64) -> D
    ensures { result ≡ elements.nth D.Domain of.now index }
{
    match of.get(index as usize) {
        Some(element) => *element,
        None => D::top(),
    }
}

/// The element of the new symbol at an index, and past the end all numbers.
fn nth_new<D: Domain>(of: &[Invented<D>], index: u64) -> D
    ensures { result ≡ elements.nth D.Domain (map invented_seen of.now) index }
{
    match of.get(index as usize) {
        Some(new) => new.element,
        None => D::top(),
    }
}

/// A symbol's element beforehand, with those of the new symbols.
fn known_element<D: Domain>(known: &Known<D>, news: &[Invented<D>], symbol: Symbol) -> D
    ensures { result ≡ elements.element D.Domain (elements_seen known.now (map invented_seen news.now) []) (symbol_of symbol.number) }
{
    let index = symbol.number / 16;
    match Family::of(symbol) {
        Family::Groups => nth(known.counts.as_slice(), index),
        Family::Argument => nth(known.arguments.as_slice(), index),
        Family::Length => nth(known.lengths.as_slice(), index),
        Family::Local(_) => nth(known.locals.as_slice(), index),
        Family::Group(_) => nth(known.groups.as_slice(), index),
        Family::New(Side::First) => nth_new(news, index),
        Family::New(Side::Second) | Family::Variable(_) | Family::AtAnchor(_) | Family::Turns(_) =>
            D::top(),
    }
}

#[tactic(auto, unfolding(crate::specs::View::followed))]
/// The element on the path of a symbol that is no product.
fn element_held<D: Domain>(setting: &Setting<D>, path: &Path<D>, symbol: Symbol) -> D
    ensures { result ≡ held.element_held D.Domain (known_seen setting.now.known) (followed path.now).state.held symbol.number }
{
    let found = known_element(&setting.known, path.news.as_slice(), symbol);
    path.marks.latest(found, path.narrowed.as_slice(), symbol)
}

/// The element of a factor, which is no product itself.
fn element_of_own<D: Domain>(setting: &Setting<D>, path: &Path<D>, symbol: Symbol) -> D
    ensures { result ≡ held.element_of_own D.Domain (known_seen setting.now.known) (followed path.now).state.held symbol.number }
{
    if symbol.number % 16 == 15 {
        return D::top();
    }
    element_held(setting, path, symbol)
}

/// The element of factors, of which a number holds three at most, from the left.
fn element_of_product<D: Domain>(setting: &Setting<D>, path: &Path<D>, number: u64) -> D
    ensures { result ≡ held.elements_of_factors D.Domain (held.element_of_own D.Domain (known_seen setting.now.known) (followed path.now).state.held) (unpacked 3 number) }
{
    let digit = number % 1048576;
    if digit == 0 {
        return D::of(1);
    }
    let leftmost = Symbol { number: digit - 1 };
    let mut so_far = element_of_own(setting, path, leftmost);
    let mut left = number / 1048576;
    let mut most: u32 = 2;
    while most > 0 {
        let digit = left % 1048576;
        if digit == 0 {
            return so_far;
        }
        let factor = Symbol { number: digit - 1 };
        so_far = so_far.mul(element_of_own(setting, path, factor));
        left /= 1048576;
        most -= 1;
    }
    so_far
}

#[tactic(auto, unfolding(crate::specs::View::followed))]
/// A symbol's element on the path, also a product's: the latest, or that of its factors.
pub fn element_number<D: Domain>(setting: &Setting<D>, path: &Path<D>, symbol: Symbol) -> D
    ensures { result ≡ held.element_number D.Domain (known_seen setting.now.known) (followed path.now).state.held symbol.number }
{
    if symbol.number % 16 == 15 {
        let found = element_of_product(setting, path, symbol.number / 16);
        return path.marks.latest(found, path.narrowed.as_slice(), symbol);
    }
    element_held(setting, path, symbol)
}

/// The element of a sum with one more term.
fn with_term<D: Domain>(setting: &Setting<D>, path: &Path<D>, so_far: D, term: Term) -> D
    ensures { result ≡ D.add_of so_far (D.mul_of (D.number_of (term_seen term).coefficient) (held.element_number D.Domain (known_seen setting.now.known) (followed path.now).state.held (term_seen term).symbol)) }
{
    let factor = D::of(term.coefficient);
    so_far.add(factor.mul(element_number(setting, path, term.symbol)))
}

/// A form's element on the path, by its constant and then its terms in their order.
pub fn element_at<D: Domain>(setting: &Setting<D>, path: &Path<D>, form: &Form) -> D
    ensures { result ≡ held.element_at D.Domain (known_seen setting.now.known) (followed path.now).state.held (form_seen form.now) }
{
    let mut so_far = D::of(form.constant_part());
    for term in form.terms() {
        so_far = with_term(setting, path, so_far, *term);
    }
    so_far
}

/// A form's element on the path, by its constant and its terms in their order, but without the term of one symbol.
pub fn element_without<D: Domain>(
    setting: &Setting<D>,
    path: &Path<D>,
    form: &Form,
    symbol: Symbol,
) -> D
    ensures { result ≡ element_without D.Domain (known_seen setting.now.known) (followed path.now).state.held symbol.number (form_seen form.now) }
{
    let mut so_far = D::of(form.constant_part());
    for term in form.terms() {
        if term.symbol.number == symbol.number {
            continue;
        }
        so_far = with_term(setting, path, so_far, *term);
    }
    so_far
}

/// The domain alone tells that a form is at least 0.
pub fn settles<D: Domain>(setting: &Setting<D>, path: &Path<D>, form: &Form) -> bool
    ensures { result ≡ held.is_settled_at D.Domain (known_seen setting.now.known) (followed path.now).state.held (form_seen form.now) }
{
    match element_at(setting, path, form).bounds().low {
        Some(low) => low >= 0,
        None => false,
    }
}

/// A symbol's element, by the elements of new symbols and by what was narrowed.
pub fn element_from<D: Domain>(
    known: &Known<D>,
    news: &[Invented<D>],
    narrowed: &[Narrowed<D>],
    symbol: Symbol,
) -> D
    ensures { result ≡ held.element_held D.Domain (known_seen known.now) (held_seen news.now narrowed.now) symbol.number }
{
    let found = known_element(known, news, symbol);
    latest(found, narrowed, symbol)
}
