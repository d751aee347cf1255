//! Congruences as facts: each has a quotient, a new symbol.

ghost use Rattle.std.specs.Prelude.{◌≡◌, ◌<◌, ◌^◌, ◌++◌, pos, length, map, MatchResult};
ghost use Rattle.linear.specs.Exact.{multiple};
ghost use Rattle.linear.specs.Forms.{form as form_seen, forms};
ghost use Rattle.facts.specs.Refusals.{IsMemory};
ghost use Rattle.facts.specs.Symbols.{First, New, equals, once};
ghost use Rattle.obligations.specs.View.{congruence as congruence_seen};
ghost use Rattle.obligations.specs.Roots as roots;
ghost use Rattle.path_walk.specs.Rooted.{IsUnrooted};

use crate::ends::push_two;
use arrival_claims::difference;
use facts::{Side, WalkError, once_new};
use linear::Form;
use obligations::Congruence;
use std::alloc::Global;

/// The number of quotients of congruences. A congruence takes more than 16 bytes.
pub fn quotients(congruences: &[Congruence]) -> usize
    ensures exact { result ≡ length congruences.now }
    ensures small { result < 576460752303423488 }
{
    congruences.len()
}

/// The form that is so many times the quotient of a congruence, by the congruence's index.
fn product(alloc: Global, modulus: u64, index: usize) -> Result<Form, WalkError>
    requires modulus { modulus < 2 ^ 63 }
    requires index { index < 576460752303423488 }
    ensures { MatchResult result (λ f. form_seen f ≡ multiple (pos modulus) (once (New First index))) IsMemory }
{
    let quotient = once_new(alloc, Side::First, index)?;
    let product = quotient.times(alloc, modulus as i64)?;
    Ok(product)
}

/// Adds the two facts that two forms are equal.
pub fn push_equal(
    alloc: Global,
    into: &mut Vec<Form>,
    form: &Form,
    other: &Form,
) -> Result<(), WalkError>
    ensures { MatchResult result (λ _. forms into.new.items ≡ forms into.old.items ++ equals (form_seen form.now) (form_seen other.now)) (λ e. IsUnrooted (forms into.old.items ++ equals (form_seen form.now) (form_seen other.now)) e) }
{
    let over = difference(alloc, form, other)?;
    let under = difference(alloc, other, form)?;
    push_two(into, over, under)
}

/// A form is the product of a number and a quotient.
fn push_congruence(
    alloc: Global,
    into: &mut Vec<Form>,
    congruence: &Congruence,
    index: usize,
) -> Result<(), WalkError>
    requires { index < 576460752303423488 }
    ensures { MatchResult result (λ _. forms into.new.items ≡ forms into.old.items ++ equals (form_seen congruence.now.form) (multiple (pos congruence.now.modulus) (once (New First index)))) (λ e. IsUnrooted (forms into.old.items ++ equals (form_seen congruence.now.form) (multiple (pos congruence.now.modulus) (once (New First index)))) e) }
{
    let product = product(alloc, congruence.modulus, index)?;
    push_equal(alloc, into, &congruence.form, &product)
}

/// Adds, for each congruence, that its form is the product of its modulus and a quotient, which is a new symbol.
pub fn push_congruences(
    alloc: Global,
    into: &mut Vec<Form>,
    congruences: &[Congruence],
) -> Result<(), WalkError>
    ensures { MatchResult result (λ _. forms into.new.items ≡ forms into.old.items ++ roots.congruence_facts 0 (map congruence_seen congruences.now)) (λ e. IsUnrooted (forms into.old.items ++ roots.congruence_facts 0 (map congruence_seen congruences.now)) e) }
{
    for index in 0..quotients(congruences) {
        push_congruence(alloc, into, &congruences[index], index)?;
    }
    Ok(())
}
