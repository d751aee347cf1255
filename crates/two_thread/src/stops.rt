//! Ends by their numbers.

ghost use Rattle.std.specs.Prelude.{◌≡◌, ◌<◌, ◌++◌, MatchResult, length, map};
ghost use Rattle.linear.specs.Forms.{form as form_seen, forms};
ghost use Rattle.facts.specs.Refusals.{IsMemory};
ghost use Rattle.walk_trees.specs.Seconds as copies;
ghost use Rattle.walk_trees.specs.Statements as statements;
ghost use Rattle.path_steps.specs.View.{held_seen, spot as spot_seen, stop as stop_seen, turns as turns_seen, value as value_seen};
ghost use Rattle.obligations.specs.Meetings as meetings;
ghost use Rattle.two_thread.specs.View.{met_end, IsPlaceOfEnd};

use crate::met::Met;
use crate::on_path::OnPath;
use crate::seconds::push_seconds;
use crate::two::Here;
use core_code::tree::Site;
use facts::{WalkError, copy_all};
use linear::Form;
use path_steps::{Spot, Stop, Value};
use std::alloc::Global;

/// The path on which an end stands, and its number there, by its number among all ends.
fn place_of_end<D: Copy>(met: &Met<D>, i: usize) -> OnPath
    requires { i < length met.now.ends.items }
    ensures { IsPlaceOfEnd met.now i result }
{
    met.ends[i]
}

/// The point at which an item stops at an end: a barrier, a loop's head, or the end of the kernel.
pub fn stop_of<D: Copy>(met: &Met<D>, i: usize) -> Stop
    requires { i < length met.now.ends.items }
    ensures { stop_seen result ≡ (met_end met.now i).it.arrived.stop }
{
    let place = place_of_end(met, i);
    let tagged = &met.paths[place.path];
    tagged.path.ends[place.item].stop
}

/// The anchor of the place at which an end's path begins; none for the entry.
pub fn end_anchor<D: Copy>(met: &Met<D>, i: usize) -> Option<u32>
    requires { i < length met.now.ends.items }
    ensures { result ≡ (met_end met.now i).anchor }
{
    let place = place_of_end(met, i);
    met.paths[place.path].anchor
}

/// The path of an end begins at a loop's head.
pub fn is_end_of_head<D: Copy>(met: &Met<D>, i: usize) -> bool
    requires { i < length met.now.ends.items }
    ensures { result ≡ (met_end met.now i).is_head }
{
    let place = place_of_end(met, i);
    met.paths[place.path].is_head
}

/// The loops that turned between the anchor and an end; none where that is not one list.
pub fn turns_of<D: Copy>(met: &Met<D>, i: usize) -> &Option<Vec<u32>>
    requires { i < length met.now.ends.items }
    ensures { turns_seen result.now ≡ (met_end met.now i).it.arrived.turns }
{
    let place = place_of_end(met, i);
    let tagged = &met.paths[place.path];
    &tagged.path.ends[place.item].turns
}

/// The symbols that the path of an end has invented and narrowed by then, with what the domain knows of them.
pub fn held_at_end<D: Copy>(met: &Met<D>, i: usize) -> Here<'_, D>
    requires { i < length met.now.ends.items }
    ensures { held_seen result.news.now result.narrowed.now ≡ (met_end met.now i).it.arrived.held }
{
    let place = place_of_end(met, i);
    let tagged = &met.paths[place.path];
    let end = &tagged.path.ends[place.item];
    Here {
        news: &tagged.path.news[..end.news],
        narrowed: &tagged.path.narrowed[..end.narrowed],
    }
}

/// Adds the facts that an item's path has found up to an end.
pub fn facts_at_end<D: Copy>(
    alloc: Global,
    facts: &mut Vec<Form>,
    met: &Met<D>,
    i: usize,
) -> Result<(), WalkError>
    requires { i < length met.now.ends.items }
    ensures { MatchResult result (λ _. forms facts.new.items ≡ forms facts.old.items ++ (met_end met.now i).it.facts) IsMemory }
{
    let place = place_of_end(met, i);
    let tagged = &met.paths[place.path];
    let count = tagged.path.ends[place.item].facts;
    copy_all(alloc, facts, &tagged.path.facts[..count])?;
    Ok(())
}

/// Adds the second item's copies of the facts that its path has found up to an end.
pub fn second_facts_at_end<D: Copy>(
    alloc: Global,
    facts: &mut Vec<Form>,
    met: &Met<D>,
    i: usize,
) -> Result<(), WalkError>
    requires { i < length met.now.ends.items }
    ensures { MatchResult result (λ _. forms facts.new.items ≡ forms facts.old.items ++ copies.second_forms (met_end met.now i).it.facts) IsMemory }
{
    let place = place_of_end(met, i);
    let tagged = &met.paths[place.path];
    let count = tagged.path.ends[place.item].facts;
    push_seconds(alloc, facts, &tagged.path.facts[..count])?;
    Ok(())
}

/// A statement, as a place in the source.
fn spot_of_statement(statement: u32) -> Spot
    ensures { spot_seen result ≡ statements.spot_of statement }
{
    Spot {
        statement,
        site: Site { line: 0, column: 0 },
    }
}

/// A stop's place in the source.
fn spot_at(stop: Stop) -> Spot
    ensures { spot_seen result ≡ meetings.spot_at (stop_seen stop) }
{
    match stop {
        Stop::Barrier(number) | Stop::Head { number, .. } => spot_of_statement(number),
        Stop::End => spot_of_statement(0),
    }
}

/// The source place at which an item stops at an end.
pub fn spot_of_end<D: Copy>(met: &Met<D>, i: usize) -> Spot
    requires { i < length met.now.ends.items }
    ensures { spot_seen result ≡ meetings.spot_at (met_end met.now i).it.arrived.stop }
{
    spot_at(stop_of(met, i))
}

/// The form of a variable at an end; 0 past the last variable.
pub fn variable_at_end<D: Copy>(
    alloc: Global,
    met: &Met<D>,
    i: usize,
    slot: u32,
) -> Result<Form, WalkError>
    requires { i < length met.now.ends.items }
    ensures { MatchResult result (λ f. form_seen f ≡ meetings.first_form (met_end met.now i) slot) IsMemory }
{
    let place = place_of_end(met, i);
    let tagged = &met.paths[place.path];
    let end = &tagged.path.ends[place.item];
    form_at(alloc, end.variables.as_slice(), slot)
}

/// A variable's form; past the last one 0.
fn form_at(alloc: Global, variables: &[Value], slot: u32) -> Result<Form, WalkError>
    ensures { MatchResult result (λ f. form_seen f ≡ meetings.value_form (map value_seen variables.now) slot) IsMemory }
{
    match variables.get(slot as usize) {
        Some(value) => Ok(value.form.copy(alloc)?),
        None => Ok(Form::constant(alloc, 0)),
    }
}
