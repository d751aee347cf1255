//! Terms, assignments and stores on a path from a place.

ghost use Rattle.std.specs.Prelude.{◌≡◌, map, slice_set, MatchResult};
ghost use Rattle.core_code.specs.View.{array as array_seen, site as site_seen, term as term_seen};
ghost use Rattle.path_steps.specs.Halts.{HaltsAtStep, Halts};
ghost use Rattle.path_steps.specs.Leads.{Steps, Leads};
ghost use Rattle.path_steps.specs.View.{followed, value as value_seen};
ghost use Rattle.arrival_claims.specs.View.{placed};
ghost use Rattle.path_walk.specs.Steps as steps;

use crate::lawful::is_lawful;
use crate::terms::{test_of, value_of};
use arrival_claims::{Placing, refuse, stand_before};
use core_code::tree::{Array, Site, Term};
use domain::Domain;
use path_steps::{Halt, Path, Value, stored};

/// A term's value at a statement.
pub fn value_at<D: Domain>(
    placing: &Placing<'_, D>,
    path: &mut Path<D>,
    statement: u32,
    term: &Term,
) -> Result<Value, Halt>
    ensures { MatchResult result (λ v. Leads (followed path.old) (followed path.new) (steps.value_at (placed D.Domain placing.now) statement (term_seen term.now)) (value_seen v)) (λ h. Halts (followed path.old) (followed path.new) h (steps.value_at (placed D.Domain placing.now) statement (term_seen term.now))) }
{
    if !is_lawful(term) {
        refuse(placing.setting.alloc, path)?;
        return Err(Halt::Dead);
    }
    stand_before(path, statement);
    value_of(placing.setting, path, term)
}

/// Walks a test at a statement, and gives its truth on this path.
pub fn test_at<D: Domain>(
    placing: &Placing<'_, D>,
    path: &mut Path<D>,
    statement: u32,
    term: &Term,
) -> Result<bool, Halt>
    ensures { MatchResult result (λ b. Leads (followed path.old) (followed path.new) (steps.test_at (placed D.Domain placing.now) statement (term_seen term.now)) b) (λ h. Halts (followed path.old) (followed path.new) h (steps.test_at (placed D.Domain placing.now) statement (term_seen term.now))) }
{
    if !is_lawful(term) {
        refuse(placing.setting.alloc, path)?;
        return Err(Halt::Dead);
    }
    stand_before(path, statement);
    test_of(placing.setting, path, term)
}

#[tactic(auto, using(crate::proofs::SetSlots::set_seen, crate::proofs::SetSlots::set_beyond))]
/// The value at a slot is this one; past the end there is none.
fn set_value(variables: &mut Vec<Value>, slot: u32, value: Value)
    ensures { map value_seen variables.new.items ≡ slice_set (map value_seen variables.old.items) slot (value_seen value) }
{
    if (slot as usize) < variables.len() {
        variables[slot as usize] = value;
    }
}

#[tactic(auto, unfolding(path_steps::specs::View::followed))]
/// A variable is this value from here on.
fn assign<D: Domain>(path: &mut Path<D>, slot: u32, value: Value)
    ensures { followed path.new ≡ steps.with_assigned (followed path.old) slot (value_seen value) }
{
    set_value(&mut path.variables, slot, value);
}

/// Walks an assignment: its value is walked, and its variable has that value from there on.
pub fn walk_set<D: Domain>(
    placing: &Placing<'_, D>,
    path: &mut Path<D>,
    statement: u32,
    slot: u32,
    value: &Term,
) -> Result<(), Halt>
    ensures { MatchResult result (λ _. Steps (followed path.old) (followed path.new) (steps.set_at (placed D.Domain placing.now) statement slot (term_seen value.now))) (λ h. HaltsAtStep (followed path.old) (followed path.new) h (steps.set_at (placed D.Domain placing.now) statement slot (term_seen value.now))) }
{
    let value = value_at(placing, path, statement, value)?;
    assign(path, slot, value);
    Ok(())
}

/// A store: its array, the site of the array's name, the index, and the value.
#[derive(Clone, Copy)]
pub struct Store<'a> {
    pub array: Array,
    pub site: Site,
    pub index: &'a Term,
    pub value: &'a Term,
}

/// A store: the index, the value, then what the array holds, and the access.
pub fn walk_store<D: Domain>(
    placing: &Placing<'_, D>,
    path: &mut Path<D>,
    statement: u32,
    store: Store<'_>,
) -> Result<(), Halt>
    ensures { MatchResult result (λ _. Steps (followed path.old) (followed path.new) (steps.store_at (placed D.Domain placing.now) statement (array_seen store.entry.array) (site_seen store.entry.site) (term_seen store.entry.index.now) (term_seen store.entry.value.now))) (λ h. HaltsAtStep (followed path.old) (followed path.new) h (steps.store_at (placed D.Domain placing.now) statement (array_seen store.entry.array) (site_seen store.entry.site) (term_seen store.entry.index.now) (term_seen store.entry.value.now))) }
{
    let place = value_at(placing, path, statement, store.index)?;
    let value = value_at(placing, path, statement, store.value)?;
    let setting = placing.setting;
    stored(setting, path, store.array, store.site, place, value)?;
    Ok(())
}
