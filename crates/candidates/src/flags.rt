//! What a test said, of which a variable keeps the answer: behind `int inside = i < n`, that `n - i - 1` is at least 0 where `inside` is 1.
//! As one fact: it is not below 0 with something added that is taken off again where `inside` is 1.

use crate::gathering::Gathering;
use crate::naming::Naming;
use crate::reach::{Reach, reach_of};
use crate::sums::plus_symbol;
use facts::Family;
use guesses::{Leaf, one_of, plus, variable};
use linear::{Form, Symbol};
use std::alloc::AllocError;

/// The rank of the candidates that this file tells.
const FLAG: u32 = 1;

/// The number 0 or 1 that a variable is at the end of a path; none where its value there is anything else.
fn answer_in(leaf: &Leaf, slot: u32) -> Option<i64> {
    let value = leaf.variables.get(slot as usize)?;
    let answer = value.constant_part();
    if value.terms().is_empty() && (answer == 0 || answer == 1) {
        Some(answer)
    } else {
        None
    }
}

/// The answer that a variable keeps of a test: it is the other one at the end of another path to the place.
fn kept_answer(leaves: &[Leaf], leaf: &Leaf, slot: u32) -> Option<i64> {
    let answer = answer_in(leaf, slot)?;
    for other in leaves {
        if other.to == leaf.to && answer_in(other, slot).is_some_and(|known| known != answer) {
            return Some(answer);
        }
    }
    None
}

/// Between which values a symbol lies, whatever the launch and the item.
fn ends_by_family(symbol: Symbol) -> Option<Reach> {
    match Family::of(symbol) {
        Family::Group(_) => Some(Reach {
            low: 0,
            high: 65_535,
        }),
        Family::Argument | Family::Length | Family::Variable(_) | Family::AtAnchor(_) => {
            Some(Reach {
                low: i32::MIN as i64,
                high: u32::MAX as i64,
            })
        }
        Family::Groups | Family::Local(_) | Family::New(_) | Family::Turns(_) => None,
    }
}

/// Between which values a symbol lies.
fn ends_of(told: &Gathering<'_>, symbol: Symbol) -> Result<Option<Reach>, AllocError> {
    let own = one_of(told.alloc, symbol)?;
    match reach_of(told.alloc, told.known.as_slice(), &own)? {
        Some(reach) => Ok(Some(reach)),
        None => Ok(ends_by_family(symbol)),
    }
}

/// The least value of a form by the ends of its symbols; none where a symbol has no ends, or a number is too large.
fn least_value(told: &Gathering<'_>, form: &Form) -> Result<Option<i64>, AllocError> {
    let mut sum = form.constant_part();
    for term in form.terms() {
        let Some(ends) = ends_of(told, term.symbol)? else {
            return Ok(None);
        };
        let end = if term.coefficient < 0 {
            ends.high
        } else {
            ends.low
        };
        let part = term.coefficient.checked_mul(end);
        let Some(next) = part.and_then(|part| sum.checked_add(part)) else {
            return Ok(None);
        };
        sum = next;
    }
    Ok(Some(sum))
}

/// The fact that the form is at least 0 where a variable is that answer; none where the form is never below 0, or a number is too large.
fn under(
    told: &Gathering<'_>,
    form: &Form,
    slot: u32,
    answer: i64,
) -> Result<Option<Form>, AllocError> {
    let Some(least) = least_value(told, form)? else {
        return Ok(None);
    };
    let flag = variable(slot);
    match least.checked_neg() {
        Some(more) if more > 0 && answer == 0 => plus_symbol(told.alloc, form, flag, more),
        Some(more) if more > 0 => match plus(told.alloc, form, more)? {
            Some(raised) => plus_symbol(told.alloc, &raised, flag, least),
            None => Ok(None),
        },
        _ => Ok(None),
    }
}

/// Adds each fact of a path's tests, in the terms of the place reached, as true where a variable keeps the answer that it has there.
fn tell_flag(
    told: &mut Gathering<'_>,
    leaf: &Leaf,
    naming: &Naming,
    slot: u32,
    answer: i64,
) -> Result<(), AllocError> {
    let Some(facts) = leaf.facts.get(leaf.begun..) else {
        return Ok(());
    };
    for fact in facts {
        if let Some(form) = naming.project(told.alloc, fact)? {
            if let Some(form) = under(told, &form, slot, answer)? {
                told.add_fact(leaf.to, &form, FLAG)?;
            }
        }
    }
    Ok(())
}

/// Adds the facts of all paths' tests, by variables that keep the answers.
pub fn tell_flags(
    told: &mut Gathering<'_>,
    leaves: &[Leaf],
    namings: &[Naming],
) -> Result<(), AllocError> {
    let sights = told.sights;
    for (leaf, naming) in leaves.iter().zip(namings.iter()) {
        let Some(to) = sights.get(leaf.to) else {
            return Ok(());
        };
        for slot in to.slots.iter() {
            if let Some(answer) = kept_answer(leaves, leaf, *slot) {
                tell_flag(told, leaf, naming, *slot, answer)?;
            }
        }
    }
    Ok(())
}
