//! Points: a whole number for each symbol. Says whether a point meets a list of facts.

ghost use Rattle.std.specs.Prelude.{◌≡◌, ℕ, ℤ, pos, ◌+ℤ◌, ◌*ℤ◌, IfSome, IsTrue};
ghost use Rattle.std.specs.List.{All};
ghost use Rattle.linear.specs.Linear.{IsMet, value_of};
ghost use Rattle.linear.specs.Forms.{form, forms};
ghost use Rattle.cut_search.specs.Answers.{value_at};

use linear::{Fact, Symbol, Term};

/// The value of a symbol.
fn value_in(point: &[(Symbol, i64)], symbol: Symbol) -> i64
    ensures { result ≡ value_at point.now symbol.number }
{
    for entry in point {
        if entry.0.number == symbol.number {
            return entry.1;
        }
    }
    0
}

/// A sum and a product, where no number leaves `i64`.
fn add_product(sum: i64, coefficient: i64, value: i64) -> Option<i64>
    ensures { IfSome result (λ n. n ≡ sum +ℤ coefficient *ℤ value) }
{
    let Some(product) = coefficient.checked_mul(value) else {
        return None;
    };
    sum.checked_add(product)
}

/// A partial sum of a fact's value at a point.
#[derive(Clone, Copy)]
struct Partial {
    sum: i64,
}

/// A sum and a term's value, where no number leaves `i64`.
fn add_term(partial: Partial, term: &Term, point: &[(Symbol, i64)]) -> Option<Partial>
    ensures { IfSome result (λ p. p.sum ≡ partial.sum +ℤ term.now.coefficient *ℤ value_at point.now term.now.symbol.number) }
{
    let value = value_in(point, term.symbol);
    let Some(sum) = add_product(partial.sum, term.coefficient, value) else {
        return None;
    };
    Some(Partial { sum })
}

/// The constant of a fact, with which the sum of its value begins.
fn constant_of(fact: &Fact) -> Partial
    ensures { result.sum ≡ (form fact.now).constant }
{
    Partial {
        sum: fact.constant_part(),
    }
}

/// A fact's value at the point, where no number on the way leaves `i64`.
fn fact_value(fact: &Fact, point: &[(Symbol, i64)]) -> Option<Partial>
    ensures { IfSome result (λ p. p.sum ≡ value_of (value_at point.now) (form fact.now)) }
{
    let mut partial = constant_of(fact);
    for term in fact.terms() {
        let Some(next) = add_term(partial, term, point) else {
            return None;
        };
        partial = next;
    }
    Some(partial)
}

/// Whether a fact holds at the point, and no number on the way leaves `i64`.
fn is_met(fact: &Fact, point: &[(Symbol, i64)]) -> bool
    ensures { IsTrue result → IsMet (value_at point.now) (form fact.now) }
{
    match fact_value(fact, point) {
        Some(partial) => partial.sum >= 0,
        None => false,
    }
}

/// Whether all facts hold at the point, and no number on the way leaves `i64`.
pub fn meets(facts: &[Fact], point: &[(Symbol, i64)]) -> bool
    ensures { IsTrue result → All (IsMet (value_at point.now)) (forms facts.now) }
{
    for fact in facts {
        if !is_met(fact, point) {
            return false;
        }
    }
    true
}
