//! What follows of facts and may be multiplied, where the facts may not: that a factor is at least 0, and sums of two facts.

use crate::hashes::hash_of_opposite;
use crate::menu::Menu;
use crate::multiplying::Multiplied;
use guesses::{has_product, one_of, plain, try_sum};
use linear::{Form, Symbol};
use std::alloc::Global;

/// The most factors that are tried to be at least 0.
const FROM_ZERO: usize = 6;

/// The most facts that an equality makes shorter that are tried, and the most terms that they have then.
const SHORTER: usize = 10;

const SHORT: usize = 3;

/// The most sums of two facts that are tried as factors, and the most terms that they have.
const SUMS: usize = 10;

const TERMS: usize = 4;

/// A fact says of a symbol alone that it is at least 0.
fn is_from_zero(facts: &[Form], symbol: Symbol) -> bool {
    facts.iter().any(|fact| match fact.terms() {
        [term] => term.symbol == symbol && term.coefficient > 0 && fact.constant_part() <= 0,
        _ => false,
    })
}

/// Adds that factors are at least 0 of which no fact says so, as quotients by numbers.
fn add_from_zero(alloc: Global, menu: &mut Menu, factors: &[u64], facts: &[Form]) {
    for factor in factors {
        let symbol = plain(*factor);
        if menu.found.len() < FROM_ZERO && !is_from_zero(facts, symbol) {
            menu.add_one(one_of(alloc, symbol));
        }
    }
}

/// A form has a factor of products, once or less once.
fn has_factor(form: &Form, factors: &[u64]) -> bool {
    for term in form.terms() {
        let factor = term.symbol.number.saturating_add(1);
        if term.coefficient.unsigned_abs() == 1 && factors.contains(&factor) {
            return true;
        }
    }
    false
}

/// The number of terms of a form that are opposites of another one's.
pub fn count_opposite(form: &Form, other: &Form) -> usize {
    let mut count = 0usize;
    for term in form.terms() {
        if other.coefficient(term.symbol) == term.coefficient.saturating_neg() {
            count = count.saturating_add(1);
        }
    }
    count
}

/// A form of three terms and more has a factor of products, and is 0 by facts of these hashes.
fn is_long_equality(form: &Form, factors: &[u64], hashes: &[u64]) -> bool {
    form.terms().len() >= 3
        && has_factor(form, factors)
        && hashes.binary_search(&hash_of_opposite(form)).is_ok()
}

/// A sum has few terms, fewer than so many, and a factor of products among them.
fn is_shorter(sum: &Form, count: usize, factors: &[u64]) -> bool {
    let own = sum.terms().len();
    own > 0 && own <= SHORT && own < count && has_factor(sum, factors)
}

/// Adds a fact with an equality put in, where that makes it shorter.
fn add_shortened(alloc: Global, menu: &mut Menu, equality: &Form, fact: &Form, factors: &[u64]) {
    match try_sum(alloc, fact, equality) {
        Ok(Some(sum)) if is_shorter(&sum, fact.terms().len(), factors) => menu.add(sum),
        Ok(_) => {}
        Err(_) => menu.note_lack(),
    }
}

/// Adds what facts say of factors of products in few terms, with an equality put in, while there are fewer than so many.
fn add_shorter_by(
    alloc: Global,
    menu: &mut Menu,
    equality: &Form,
    factors: &[u64],
    facts: &[Form],
    most: usize,
) {
    for fact in facts {
        let is_long = fact.terms().len() >= 3;
        if menu.found.len() < most && is_long && count_opposite(fact, equality) >= 2 {
            add_shortened(alloc, menu, equality, fact, factors);
        }
    }
}

/// Adds what facts say of factors of products in few terms, with equalities put in.
fn add_shorter(alloc: Global, menu: &mut Menu, factors: &[u64], facts: &[Form], hashes: &[u64]) {
    let most = menu.found.len().saturating_add(SHORTER);
    for fact in facts {
        if is_long_equality(fact, factors, hashes) {
            add_shorter_by(alloc, menu, fact, factors, facts, most);
        }
    }
}

/// A fact has these terms, and says as much.
fn is_said(facts: &[Form], form: &Form) -> bool {
    for fact in facts {
        if fact.constant_part() <= form.constant_part() && fact.terms() == form.terms() {
            return true;
        }
    }
    false
}

/// A fact of two terms or some more, without products.
fn is_short(fact: &Form) -> bool {
    let count = fact.terms().len();
    count >= 2 && count <= TERMS && !has_product(fact)
}

/// A sum has two terms or some more, may be multiplied, and is not said by a fact.
fn is_new_factor(sum: &Form, multiplied: &Multiplied<'_>, facts: &[Form]) -> bool {
    let own = sum.terms().len();
    own >= 2 && own <= TERMS && multiplied.may(sum) && !is_said(facts, sum)
}

/// Adds the sum of two facts, where it may be multiplied.
fn add_sum(
    alloc: Global,
    menu: &mut Menu,
    multiplied: &Multiplied<'_>,
    facts: &[Form],
    one: &Form,
    other: &Form,
) {
    match try_sum(alloc, one, other) {
        Ok(Some(sum)) if is_new_factor(&sum, multiplied, facts) => menu.add(sum),
        Ok(_) => {}
        Err(_) => menu.note_lack(),
    }
}

/// Adds the sums of a fact and those before it that cancel a symbol and may be multiplied, where one of the two may not.
fn add_sums_with(
    alloc: Global,
    menu: &mut Menu,
    multiplied: &Multiplied<'_>,
    facts: &[Form],
    place: usize,
    one: &Form,
    most: usize,
) {
    let may = multiplied.may(one);
    for other in facts.iter().take(place) {
        let is_wanted = is_short(other) && count_opposite(one, other) > 0;
        if menu.found.len() < most && is_wanted && !(may && multiplied.may(other)) {
            add_sum(alloc, menu, multiplied, facts, one, other);
        }
    }
}

/// Adds the sums of two facts that cancel a symbol and may be multiplied, where one of the two may not.
fn add_sums(alloc: Global, menu: &mut Menu, multiplied: &Multiplied<'_>, facts: &[Form]) {
    let most = menu.found.len().saturating_add(SUMS);
    for (place, one) in facts.iter().enumerate() {
        if menu.found.len() < most && is_short(one) {
            add_sums_with(alloc, menu, multiplied, facts, place, one, most);
        }
    }
}

/// Adds what follows of facts and may be multiplied: these are factors of the products of facts, and these the facts' hashes, which rise.
pub fn add_following(
    alloc: Global,
    menu: &mut Menu,
    multiplied: &Multiplied<'_>,
    factors: &[u64],
    facts: &[Form],
    hashes: &[u64],
) {
    add_from_zero(alloc, menu, factors, facts);
    add_shorter(alloc, menu, factors, facts, hashes);
    add_sums(alloc, menu, multiplied, facts);
}
