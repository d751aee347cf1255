//! The ends of the variables' kinds, as facts.

ghost use Rattle.std.specs.Prelude.{◌≡◌, ◌++◌, ◌∷◌, [], MatchResult};
ghost use Rattle.linear.specs.Forms.{form as form_seen, forms};
ghost use Rattle.core_code.specs.View.{kernel as core_seen};
ghost use Rattle.facts.specs.Refusals.{IsMemory};
ghost use Rattle.facts.specs.Symbols.{First, Variable, AtAnchor, constant, minus, once};
ghost use Rattle.walk_trees.specs.Walks.{least, greatest};
ghost use Rattle.obligations.specs.View.{seen};
ghost use Rattle.obligations.specs.Roots as roots;
ghost use Rattle.facts.specs.Families.{symbol_in};

use crate::slots::once_slot;
use arrival_claims::{kind_at, visible_of};
use core_code::tree::Core;
use facts::{Family, Side, WalkError, less_number, number_less};
use linear::Form;
use obligations::Notes;
use std::alloc::Global;
use words::Kind;

/// A variable less its kind's least number.
fn low_end(alloc: Global, core: &Core, family: Family, slot: u32) -> Result<Form, WalkError>
    ensures { MatchResult result (λ f. form_seen f ≡ minus (once (symbol_in family slot)) (constant (least (roots.kind_of (core_seen core.now) slot)))) IsMemory }
{
    let of = once_slot(alloc, family, slot as u64)?;
    match kind_at(core, slot as usize) {
        Kind::Int => less_number(alloc, &of, -2_147_483_648),
        Kind::Uint | Kind::Size => less_number(alloc, &of, 0),
    }
}

/// The greatest number of a variable's kind, less the variable.
fn high_end(alloc: Global, core: &Core, family: Family, slot: u32) -> Result<Form, WalkError>
    ensures { MatchResult result (λ f. form_seen f ≡ minus (constant (greatest (roots.kind_of (core_seen core.now) slot))) (once (symbol_in family slot))) IsMemory }
{
    let of = once_slot(alloc, family, slot as u64)?;
    match kind_at(core, slot as usize) {
        Kind::Int => number_less(alloc, 2_147_483_647, &of),
        Kind::Uint | Kind::Size => number_less(alloc, 4_294_967_295, &of),
    }
}

#[tactic(auto, using(facts::proofs::Facts::facts))]
/// Adds two facts, the low end before the high end.
pub fn push_two(into: &mut Vec<Form>, low: Form, high: Form) -> Result<(), WalkError>
    ensures { MatchResult result (λ _. forms into.new.items ≡ forms into.old.items ++ form_seen low ∷ form_seen high ∷ []) IsMemory }
{
    into.push(low)?;
    into.push(high)?;
    Ok(())
}

/// The ends of a variable's kind.
fn push_ends(
    alloc: Global,
    into: &mut Vec<Form>,
    core: &Core,
    family: Family,
    slot: u32,
) -> Result<(), WalkError>
    ensures { MatchResult result (λ _. forms into.new.items ≡ forms into.old.items ++ roots.ends_of (core_seen core.now) (symbol_in family) slot) IsMemory }
{
    let low = low_end(alloc, core, family, slot)?;
    let high = high_end(alloc, core, family, slot)?;
    push_two(into, low, high)
}

#[tactic(auto, using(facts::proofs::Facts::carried))]
/// Adds the facts that these variables are in the ranges of their kinds.
fn push_all_ends(
    alloc: Global,
    into: &mut Vec<Form>,
    core: &Core,
    family: Family,
    slots: &[u32],
) -> Result<(), WalkError>
    ensures { MatchResult result (λ _. forms into.new.items ≡ forms into.old.items ++ roots.all_ends (core_seen core.now) (symbol_in family) slots.now) IsMemory }
{
    for slot in slots {
        push_ends(alloc, into, core, family, *slot)?;
    }
    Ok(())
}

/// Adds the facts that the variables visible at a loop are in the ranges of their kinds, and so those visible at the anchor before it.
fn push_both_ends(
    alloc: Global,
    into: &mut Vec<Form>,
    core: &Core,
    here: &[u32],
    at_anchor: &[u32],
) -> Result<(), WalkError>
    ensures { MatchResult result (λ _. forms into.new.items ≡ forms into.old.items ++ (roots.all_ends (core_seen core.now) (Variable First) here.now ++ roots.all_ends (core_seen core.now) (AtAnchor First) at_anchor.now)) IsMemory }
{
    push_all_ends(alloc, into, core, Family::Variable(Side::First), here)?;
    push_all_ends(alloc, into, core, Family::AtAnchor(Side::First), at_anchor)
}

/// Adds the facts that the variables visible at a place are in the ranges of their kinds: none at the entry.
pub fn push_ranges(
    alloc: Global,
    into: &mut Vec<Form>,
    core: &Core,
    notes: &Notes,
    anchor: Option<u32>,
    head: Option<u32>,
) -> Result<(), WalkError>
    ensures { MatchResult result (λ _. forms into.new.items ≡ forms into.old.items ++ roots.range_facts (core_seen core.now) (seen notes.now []) anchor head) IsMemory }
{
    let here = visible_of(notes.visible.as_slice(), head);
    let before = visible_of(notes.visible.as_slice(), anchor);
    match (anchor, head) {
        (None, None) => Ok(()),
        (Some(_), None) => push_all_ends(alloc, into, core, Family::Variable(Side::First), before),
        (_, Some(_)) => push_both_ends(alloc, into, core, here, before),
    }
}
