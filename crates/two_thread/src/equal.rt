//! Facts that say that two forms are equal.

ghost use Rattle.std.specs.Prelude.{◌≡◌, ◌++◌, MatchResult, true};
ghost use Rattle.linear.specs.Forms.{form as form_seen, forms};
ghost use Rattle.facts.specs.Symbols as symbols;
ghost use Rattle.facts.specs.Refusals.{IsMemory};
ghost use Rattle.facts.specs.View.{side};
ghost use Rattle.facts.specs.Launching.{each_dimension};
ghost use Rattle.walk_trees.specs.Fitting.{differences_fit};
ghost use Rattle.walk_trees.specs.Pairs as specs;
ghost use Rattle.obligations.specs.Meetings as meetings;
ghost use Rattle.two_thread.specs.Refusals.{AreUnfit};

use facts::{Family, Side, WalkError, once_group};
use linear::Form;
use std::alloc::Global;

#[tactic(auto, using(facts::proofs::Facts::copies))]
/// Adds the two facts that say that two forms are equal.
pub fn push_equals(
    alloc: Global,
    facts: &mut Vec<Form>,
    left: &Form,
    right: &Form,
) -> Result<(), WalkError>
    ensures { MatchResult result (λ _. forms facts.new.items ≡ forms facts.old.items ++ symbols.equals (form_seen left.now) (form_seen right.now)) (λ e. AreUnfit e (form_seen left.now) (form_seen right.now)) }
{
    let above = left.sub(alloc, right)?;
    let below = right.sub(alloc, left)?;
    facts.push(above)?;
    facts.push(below)?;
    Ok(())
}

/// Fails where a number of the difference of two forms, either way, is too large for `i64`.
pub fn try_both(alloc: Global, left: &Form, right: &Form) -> Result<(), WalkError>
    ensures { MatchResult result (λ _. differences_fit (form_seen left.now) (form_seen right.now) ≡ true) (λ e. AreUnfit e (form_seen left.now) (form_seen right.now)) }
{
    left.sub(alloc, right)?;
    right.sub(alloc, left)?;
    Ok(())
}

/// Adds that two items have the same group id in a dimension.
fn same_group(alloc: Global, facts: &mut Vec<Form>, dimension: u32) -> Result<(), WalkError>
    ensures { MatchResult result (λ _. forms facts.new.items ≡ forms facts.old.items ++ specs.same_group dimension) IsMemory }
{
    let first = once_group(alloc, Side::First, dimension)?;
    let second = once_group(alloc, Side::Second, dimension)?;
    push_equals(alloc, facts, &first, &second)
}

/// Adds that two items have the same group id in each dimension.
pub fn push_group(alloc: Global, facts: &mut Vec<Form>) -> Result<(), WalkError>
    ensures { MatchResult result (λ _. forms facts.new.items ≡ forms facts.old.items ++ each_dimension specs.same_group) IsMemory }
{
    same_group(alloc, facts, 0)?;
    same_group(alloc, facts, 1)?;
    same_group(alloc, facts, 2)?;
    Ok(())
}

/// An item's variable at the anchor: as it is where the path begins, or, in a loop's test, as it was at the anchor before.
fn once_at(alloc: Global, is_head: bool, item: Side, slot: u32) -> Result<Form, WalkError>
    ensures { MatchResult result (λ f. form_seen f ≡ symbols.once (meetings.anchor_symbol is_head (side item) slot)) IsMemory }
{
    let family = if is_head {
        Family::AtAnchor(item)
    } else {
        Family::Variable(item)
    };
    let form = Form::symbol(alloc, family.symbol(slot as u64))?;
    Ok(form)
}

#[tactic(auto, using(crate::proofs::Small::small_memory))]
/// Adds that two items have the same value in a slot at their anchor; `first` and `second` say which of them is on a path from a loop's
/// head.
fn push_slot(
    alloc: Global,
    facts: &mut Vec<Form>,
    first: bool,
    second: bool,
    slot: u32,
) -> Result<(), WalkError>
    ensures { MatchResult result (λ _. forms facts.new.items ≡ forms facts.old.items ++ symbols.equals (symbols.once (meetings.anchor_symbol first symbols.First slot)) (symbols.once (meetings.anchor_symbol second symbols.Second slot))) IsMemory }
{
    let left = once_at(alloc, first, Side::First, slot)?;
    let right = once_at(alloc, second, Side::Second, slot)?;
    push_equals(alloc, facts, &left, &right)
}

/// Adds that two items have the same values in these slots at their anchor; `first` and `second` say which of them is on a path from a
/// loop's head.
pub fn push_same(
    alloc: Global,
    facts: &mut Vec<Form>,
    first: bool,
    second: bool,
    slots: &[u32],
) -> Result<(), WalkError>
    ensures { MatchResult result (λ _. forms facts.new.items ≡ forms facts.old.items ++ meetings.same_facts first second slots.now) IsMemory }
{
    for slot in slots {
        push_slot(alloc, facts, first, second, *slot)?;
    }
    Ok(())
}
