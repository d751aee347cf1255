//! Multiples of forms as facts: each has a quotient, a new symbol behind those of congruences.

ghost use Rattle.std.specs.Prelude.{◌≡◌, ◌<◌, ◌++◌, None, Some, length, map, MatchOption, MatchResult};
ghost use Rattle.linear.specs.Forms.{form as form_seen, forms};
ghost use Rattle.facts.specs.Refusals.{IsMemory};
ghost use Rattle.facts.specs.Symbols.{First, New, once};
ghost use Rattle.walk_trees.specs.Operators.{small_product};
ghost use Rattle.obligations.specs.View.{congruence as congruence_seen, multiple as multiple_seen};
ghost use Rattle.obligations.specs.Roots as roots;
ghost use Rattle.path_walk.specs.Rooted.{IsUnrooted};

use crate::products::{push_congruences, push_equal, quotients};
use facts::{Side, WalkError, once_new};
use linear::Form;
use obligations::{Congruence, Multiple};
use path_steps::small_product;
use std::alloc::Global;

/// The number of quotients of multiples. A multiple takes more than 16 bytes.
fn count_of(multiples: &[Multiple]) -> usize
    ensures exact { result ≡ length multiples.now }
    ensures small { result < 576460752303423488 }
{
    multiples.len()
}

/// The product of a form and the quotient of a multiple, by the quotient's index, where it is.
fn multiple_product(alloc: Global, of: &Form, index: usize) -> Result<Option<Form>, WalkError>
    requires { index < 1152921504606846976 }
    ensures { MatchResult result (λ r. MatchOption r (small_product (form_seen of.now) (once (New First index)) ≡ None) (λ f. small_product (form_seen of.now) (once (New First index)) ≡ Some (form_seen f))) IsMemory }
{
    let quotient = once_new(alloc, Side::First, index)?;
    small_product(alloc, of, &quotient)
}

/// Adds that a form is the product of another one and a quotient, where that product is.
fn push_multiple(
    alloc: Global,
    into: &mut Vec<Form>,
    multiple: &Multiple,
    index: usize,
) -> Result<(), WalkError>
    requires { index < 1152921504606846976 }
    ensures { MatchResult result (λ _. forms into.new.items ≡ forms into.old.items ++ roots.multiple_fact (form_seen multiple.now.form) (small_product (form_seen multiple.now.of) (once (New First index)))) (λ e. IsUnrooted (forms into.old.items ++ roots.multiple_fact (form_seen multiple.now.form) (small_product (form_seen multiple.now.of) (once (New First index)))) e) }
{
    match multiple_product(alloc, &multiple.of, index)? {
        Some(product) => push_equal(alloc, into, &multiple.form, &product),
        None => Ok(()),
    }
}

/// Adds, for each multiple, that its form is the product of the other one and a quotient. The quotients are new symbols behind so many.
fn push_multiples(
    alloc: Global,
    into: &mut Vec<Form>,
    multiples: &[Multiple],
    before: usize,
) -> Result<(), WalkError>
    requires { before < 576460752303423488 }
    ensures { MatchResult result (λ _. forms into.new.items ≡ forms into.old.items ++ roots.multiple_facts before (map multiple_seen multiples.now)) (λ e. IsUnrooted (forms into.old.items ++ roots.multiple_facts before (map multiple_seen multiples.now)) e) }
{
    for index in 0..count_of(multiples) {
        push_multiple(alloc, into, &multiples[index], before + index)?;
    }
    Ok(())
}

/// Adds what congruences and then multiples say.
pub fn push_quotients(
    alloc: Global,
    into: &mut Vec<Form>,
    congruences: &[Congruence],
    multiples: &[Multiple],
) -> Result<(), WalkError>
    ensures { MatchResult result (λ _. forms into.new.items ≡ forms into.old.items ++ roots.quotient_facts (map congruence_seen congruences.now) (map multiple_seen multiples.now)) (λ e. IsUnrooted (forms into.old.items ++ roots.quotient_facts (map congruence_seen congruences.now) (map multiple_seen multiples.now)) e) }
{
    push_congruences(alloc, into, congruences)?;
    push_multiples(alloc, into, multiples, quotients(congruences))
}
