//! What the symbols of a place are on a path.

ghost use Rattle.std.specs.Prelude.{◌≡◌, ◌<◌, cond, map, reverse, slice_index_or, MatchOption, MatchResult};
ghost use Rattle.linear.specs.Forms.{form as form_seen};
ghost use Rattle.core_code.specs.View.{kernel as core_seen};
ghost use Rattle.facts.specs.Refusals.{IsMemory};
ghost use Rattle.facts.specs.Symbols as symbols;
ghost use Rattle.facts.specs.Families.{symbol_in};
ghost use Rattle.walk_trees.specs.Terms.{no_value};
ghost use Rattle.walk_trees.specs.Walks.{rank_form};
ghost use Rattle.obligations.specs.Roots as roots;
ghost use Rattle.obligations.specs.Walking.{on_path};
ghost use Rattle.path_steps.specs.View.{followed, value as value_seen, ranked as ranked_seen};
ghost use Rattle.arrival_claims.specs.View.{placed};

use crate::placing::Placing;
use crate::slots::is_kept;
use core_code::tree::Core;
use domain::Domain;
use facts::{Family, Side, WalkError};
use linear::{Form, Symbol};
use path_steps::{Path, Ranked, Value};
use std::alloc::Global;

/// A copy of a form.
pub fn copied(alloc: Global, form: &Form) -> Result<Form, WalkError>
    ensures { MatchResult result (λ f. form_seen f ≡ form_seen form.now) IsMemory }
{
    let copy = form.copy(alloc)?;
    Ok(copy)
}

/// The form that is the symbol of a family and an index, once.
pub fn once_of(alloc: Global, family: Family, index: u64) -> Result<Form, WalkError>
    requires { index < 1152921504606846976 }
    ensures { MatchResult result (λ f. form_seen f ≡ symbols.once (symbol_in family index)) IsMemory }
{
    let form = Form::symbol(alloc, family.symbol(index))?;
    Ok(form)
}

/// The form of the value at a slot, and past the end 0.
fn value_form(alloc: Global, values: &[Value], slot: u64) -> Result<Form, WalkError>
    ensures { MatchResult result (λ f. form_seen f ≡ (slice_index_or (map value_seen values.now) slot no_value).form) IsMemory }
{
    match values.get(slot as usize) {
        Some(value) => copied(alloc, &value.form),
        None => Ok(Form::constant(alloc, 0)),
    }
}

#[tactic(auto, unfolding(path_steps::specs::View::followed))]
/// The value that a variable has on the path, as a form.
fn variable_form<D: Domain>(alloc: Global, path: &Path<D>, slot: u64) -> Result<Form, WalkError>
    ensures { MatchResult result (λ f. form_seen f ≡ (slice_index_or (followed path.now).state.variables slot no_value).form) IsMemory }
{
    value_form(alloc, path.variables.as_slice(), slot)
}

/// The value of a loop's ranking when its test was last true on the path; none where it was not.
fn last_rank(ranks: &[Ranked], number: u64) -> Option<&Form>
    ensures { MatchOption result (rank_form (reverse (map ranked_seen ranks.now)) number ≡ symbols.once (symbols.Turns symbols.First number)) (λ f. rank_form (reverse (map ranked_seen ranks.now)) number ≡ form_seen f.now) }
{
    let mut at = ranks.len();
    while at > 0 {
        at -= 1;
        if ranks[at].number as u64 == number {
            return Some(&ranks[at].form);
        }
    }
    None
}

#[tactic(auto, unfolding(path_steps::specs::View::followed))]
/// The value of a loop's ranking when its test was last true: on the path, or else the symbol of its value before it.
pub fn rank_now<D: Domain>(alloc: Global, path: &Path<D>, number: u64) -> Result<Form, WalkError>
    requires { number < 1152921504606846976 }
    ensures { MatchResult result (λ f. form_seen f ≡ rank_form (followed path.now).state.ranks number) IsMemory }
{
    match last_rank(path.ranks.as_slice(), number) {
        Some(form) => copied(alloc, form),
        None => once_of(alloc, Family::Turns(Side::First), number),
    }
}

/// A parameter's argument, where nothing assigns it, else the symbol of the family.
fn kept_or(alloc: Global, core: &Core, slot: u64, family: Family) -> Result<Form, WalkError>
    requires { slot < 1152921504606846976 }
    ensures { MatchResult result (λ f. form_seen f ≡ cond (roots.is_kept (core_seen core.now) slot) (symbols.once (symbols.ArgumentOf slot)) (symbols.once (symbol_in family slot))) IsMemory }
{
    if is_kept(core, slot) {
        once_of(alloc, Family::Argument, slot)
    } else {
        once_of(alloc, family, slot)
    }
}

/// The value of a variable where an item begins: its argument, or 0.
fn opening_form(alloc: Global, core: &Core, slot: u64) -> Result<Form, WalkError>
    requires { slot < 1152921504606846976 }
    ensures { MatchResult result (λ f. form_seen f ≡ (slice_index_or (roots.root_values (core_seen core.now) None None) slot no_value).form) IsMemory }
{
    if slot < core.arguments.len() as u64 {
        once_of(alloc, Family::Argument, slot)
    } else {
        Ok(Form::constant(alloc, 0))
    }
}

/// The value of a variable where a path begins at a barrier: an argument where nothing assigns it, else its own symbol.
fn barrier_form(alloc: Global, core: &Core, slot: u64) -> Result<Form, WalkError>
    requires { slot < 1152921504606846976 }
    ensures { MatchResult result (λ f. form_seen f ≡ (slice_index_or (roots.values_from (core_seen core.now) 0 (roots.kinds (core_seen core.now))) slot no_value).form) IsMemory }
{
    let count = core.arguments.len() + core.variables.len();
    if slot < count as u64 {
        kept_or(alloc, core, slot, Family::Variable(Side::First))
    } else {
        Ok(Form::constant(alloc, 0))
    }
}

/// The value that a variable had at the anchor of a place.
fn anchor_form(
    alloc: Global,
    core: &Core,
    anchor: Option<u32>,
    head: Option<u32>,
    slot: u64,
) -> Result<Form, WalkError>
    requires { slot < 1152921504606846976 }
    ensures { MatchResult result (λ f. form_seen f ≡ roots.anchor_forms (core_seen core.now) anchor head slot) IsMemory }
{
    match (anchor, head) {
        (_, Some(_)) => kept_or(alloc, core, slot, Family::AtAnchor(Side::First)),
        (Some(_), None) => barrier_form(alloc, core, slot),
        (None, None) => opening_form(alloc, core, slot),
    }
}

#[tactic(auto, unfolding(crate::specs::View::placed), using(crate::proofs::OnPaths::on_paths))]
/// The value of a place's symbol on the path, as a form.
pub fn symbol_form<D: Domain>(
    placing: &Placing<'_, D>,
    path: &Path<D>,
    symbol: Symbol,
) -> Result<Form, WalkError>
    ensures { MatchResult result (λ f. form_seen f ≡ on_path (placed D.Domain placing.now) (followed path.now).state symbol.number) IsMemory }
{
    let index = symbol.number / 16;
    match Family::of(symbol) {
        Family::Variable(Side::First) => variable_form(placing.setting.alloc, path, index),
        Family::AtAnchor(Side::First) => {
            anchor_form(
                placing.setting.alloc,
                placing.core,
                placing.anchor,
                placing.head,
                index,
            )
        }
        Family::Turns(Side::First) => rank_now(placing.setting.alloc, path, index),
        family => once_of(placing.setting.alloc, family, index),
    }
}
