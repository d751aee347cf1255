//! The facts of pairs of accesses.

ghost use Rattle.std.specs.Prelude.{◌≡◌, ◌++◌, ◌∷◌, [], ◌<◌, ◌⊎◌, MatchResult, true, length};
ghost use Rattle.linear.specs.Forms.{form as form_seen, forms};
ghost use Rattle.facts.specs.Symbols as symbols;
ghost use Rattle.facts.specs.Refusals.{IsMemory, IsUnfit};
ghost use Rattle.facts.specs.View.{known_seen, side};
ghost use Rattle.walk_trees.specs.Pairs as pairs;
ghost use Rattle.walk_trees.specs.Seconds as copies;
ghost use Rattle.walk_trees.specs.Tests.{below};
ghost use Rattle.obligations.specs.Crossings as specs;
ghost use Rattle.obligations.specs.Fitting.{crossing_fits};
ghost use Rattle.two_thread.specs.Alike.{notes_of};
ghost use Rattle.two_thread.specs.Refusals.{IsUnfitCrossing};
ghost use Rattle.two_thread.specs.View.{scope as scope_seen, order as order_seen, crossing as crossing_seen, met_access, met_accesses};

use crate::alike::{Alike, same_at};
use crate::crossings::{Crossing, Order, Scope};
use crate::equal::{push_equals, push_group, push_same, try_both};
use crate::looking::{anchor_of, facts_before, held_before, index_of, is_of_head};
use crate::met::Met;
use crate::seconds::{second_facts_before, second_index_of};
use crate::two::{element_of, lacks_zero};
use domain::Domain;
use facts::{Known, Side, WalkError, copy_all, less_number, once_group, once_local};
use linear::Form;
use std::alloc::Global;

/// Adds that both items have the same values in the slots that notes say to be alike, where they are in one visit of their anchor.
fn alike_facts<D: Copy>(
    alloc: Global,
    facts: &mut Vec<Form>,
    alike: &[Alike],
    met: &Met<D>,
    crossing: Crossing,
) -> Result<(), WalkError>
    requires first { crossing.first < length met.now.accesses.items }
    requires second { crossing.second < length met.now.accesses.items }
    ensures { MatchResult result (λ _. forms facts.new.items ≡ forms facts.old.items ++ specs.alike_facts (notes_of alike.now) (met_access met.now crossing.first).anchor (met_access met.now crossing.first).is_head (met_access met.now crossing.second).is_head crossing.alike) IsMemory }
{
    if !crossing.alike {
        return Ok(());
    }
    let slots = same_at(alike, anchor_of(met, crossing.first));
    let first = is_of_head(met, crossing.first);
    let second = is_of_head(met, crossing.second);
    push_same(alloc, facts, first, second, slots)
}

/// Adds what the scope of a crossing says of its two items: within a group, that their group ids are equal, and what they have alike.
fn scope_facts<D: Copy>(
    alloc: Global,
    facts: &mut Vec<Form>,
    alike: &[Alike],
    met: &Met<D>,
    crossing: Crossing,
) -> Result<(), WalkError>
    requires first { crossing.first < length met.now.accesses.items }
    requires second { crossing.second < length met.now.accesses.items }
    ensures { MatchResult result (λ _. forms facts.new.items ≡ forms facts.old.items ++ specs.scope_facts (notes_of alike.now) (scope_seen crossing.scope) (crossing_seen (met_accesses met.now) crossing)) IsMemory }
{
    match crossing.scope {
        Scope::Across => Ok(()),
        Scope::Within => {
            push_group(alloc, facts)?;
            alike_facts(alloc, facts, alike, met, crossing)?;
            Ok(())
        }
    }
}

/// The id of an item in which the two items differ: a local id within a group, a group id across groups.
fn id_of(alloc: Global, scope: Scope, item: Side, dimension: u32) -> Result<Form, WalkError>
    ensures { MatchResult result (λ f. form_seen f ≡ symbols.once (pairs.id (scope_seen scope) (side item) dimension)) IsMemory }
{
    match scope {
        Scope::Within => once_local(alloc, item, dimension),
        Scope::Across => once_group(alloc, item, dimension),
    }
}

/// The left form is less than the right one.
fn below_by_one(alloc: Global, left: &Form, right: &Form) -> Result<Form, WalkError>
    ensures { MatchResult result (λ f. form_seen f ≡ below (form_seen left.now) (form_seen right.now)) (λ e. IsUnfit e (symbols.minus (form_seen right.now) (form_seen left.now)) ⊎ IsUnfit e (below (form_seen left.now) (form_seen right.now))) }
{
    let between = right.sub(alloc, left)?;
    less_number(alloc, &between, 1)
}

/// The fact that orders the ids of the two items in a dimension: one is below the other.
fn order_fact(alloc: Global, crossing: Crossing) -> Result<Form, WalkError>
    ensures { MatchResult result (λ f. form_seen f ≡ pairs.order_fact (order_seen crossing.order) (symbols.once (pairs.id (scope_seen crossing.scope) symbols.First crossing.dimension)) (symbols.once (pairs.id (scope_seen crossing.scope) symbols.Second crossing.dimension))) IsMemory }
{
    let first = id_of(alloc, crossing.scope, Side::First, crossing.dimension)?;
    let second = id_of(alloc, crossing.scope, Side::Second, crossing.dimension)?;
    match crossing.order {
        Order::Below => below_by_one(alloc, &first, &second),
        Order::Above => below_by_one(alloc, &second, &first),
    }
}

#[tactic(auto, using(facts::proofs::Facts::copies))]
/// Adds the fact that orders the ids of the two items.
fn push_order(alloc: Global, facts: &mut Vec<Form>, crossing: Crossing) -> Result<(), WalkError>
    ensures { MatchResult result (λ _. forms facts.new.items ≡ forms facts.old.items ++ pairs.order_fact (order_seen crossing.order) (symbols.once (pairs.id (scope_seen crossing.scope) symbols.First crossing.dimension)) (symbols.once (pairs.id (scope_seen crossing.scope) symbols.Second crossing.dimension)) ∷ []) IsMemory }
{
    let fact = order_fact(alloc, crossing)?;
    facts.push(fact)?;
    Ok(())
}

/// The indexes of a pair have differences of `i64`, or an error.
pub fn try_differences<D: Copy>(
    alloc: Global,
    met: &Met<D>,
    crossing: Crossing,
) -> Result<(), WalkError>
    requires first { crossing.first < length met.now.accesses.items }
    requires second { crossing.second < length met.now.accesses.items }
    ensures { MatchResult result (λ _. crossing_fits (crossing_seen (met_accesses met.now) crossing) ≡ true) (λ e. IsUnfitCrossing e (crossing_seen (met_accesses met.now) crossing)) }
{
    let left = index_of(met, crossing.first);
    let right = second_index_of(alloc, met, crossing.second)?;
    try_both(alloc, left, &right)
}

/// Adds that the indexes of the two accesses of a crossing are equal.
fn push_indexes<D: Copy>(
    alloc: Global,
    facts: &mut Vec<Form>,
    met: &Met<D>,
    crossing: Crossing,
) -> Result<(), WalkError>
    requires first { crossing.first < length met.now.accesses.items }
    requires second { crossing.second < length met.now.accesses.items }
    ensures { MatchResult result (λ _. forms facts.new.items ≡ forms facts.old.items ++ symbols.equals (met_access met.now crossing.first).it.index (copies.second_form (met_access met.now crossing.second).it.index)) (λ e. IsUnfitCrossing e (crossing_seen (met_accesses met.now) crossing)) }
{
    let left = index_of(met, crossing.first);
    let right = second_index_of(alloc, met, crossing.second)?;
    push_equals(alloc, facts, left, &right)
}

/// The facts of a pair, which are to be impossible.
pub fn crossing_facts<D: Copy>(
    alloc: Global,
    launch: &[Form],
    alike: &[Alike],
    met: &Met<D>,
    crossing: Crossing,
) -> Result<Vec<Form>, WalkError>
    requires first { crossing.first < length met.now.accesses.items }
    requires second { crossing.second < length met.now.accesses.items }
    ensures { MatchResult result (λ v. forms v.items ≡ specs.crossing_facts (forms launch.now) (notes_of alike.now) (crossing_seen (met_accesses met.now) crossing)) (λ e. IsUnfitCrossing e (crossing_seen (met_accesses met.now) crossing)) }
{
    let mut facts = Vec::new(alloc);
    copy_all(alloc, &mut facts, launch)?;
    facts_before(alloc, &mut facts, met, crossing.first)?;
    second_facts_before(alloc, &mut facts, met, crossing.second)?;
    scope_facts(alloc, &mut facts, alike, met, crossing)?;
    push_order(alloc, &mut facts, crossing)?;
    push_indexes(alloc, &mut facts, met, crossing)?;
    Ok(facts)
}

/// The domain alone tells that the indexes of a pair differ.
pub fn is_apart<D: Domain>(
    alloc: Global,
    known: &Known<D>,
    met: &Met<D>,
    crossing: Crossing,
) -> Result<bool, WalkError>
    requires first { crossing.first < length met.now.accesses.items }
    requires second { crossing.second < length met.now.accesses.items }
    ensures { MatchResult result (λ b. b ≡ specs.is_apart D.Domain (known_seen known.now) (crossing_seen (met_accesses met.now) crossing)) (λ e. IsUnfitCrossing e (crossing_seen (met_accesses met.now) crossing)) }
{
    let left = index_of(met, crossing.first);
    let right = second_index_of(alloc, met, crossing.second)?;
    let difference = left.sub(alloc, &right)?;
    let first = held_before(met, crossing.first);
    let second = held_before(met, crossing.second);
    Ok(lacks_zero(element_of(known, first, second, &difference)))
}
