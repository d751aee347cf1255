//! Vectors, stored component by component.

ghost use Rattle.std.specs.Prelude.{◌≡◌, ◌+◌, IfOk};
ghost use Rattle.core_code.specs.View.{array as array_seen, site as site_seen, space as space_seen, term};
ghost use Rattle.opencl_terms.specs.Answers.{value_type};
ghost use Rattle.opencl_terms.specs.View.{scalar as scalar_seen};
ghost use Rattle.opencl_values.specs.ElementsView.{element as element_seen};
ghost use Rattle.opencl_values.specs.View.{Gives, value as value_seen};
ghost use Rattle.words.specs.View.{kind as kind_seen};
ghost use Rattle.opencl_core.specs.Components as rules;
ghost use Rattle.opencl_core.specs.Rooms as rooms;
ghost use Rattle.opencl_terms.specs.Conversions as conversions;
ghost use Rattle.opencl_values.specs.Vectors as vectors;
ghost use Rattle.opencl_values.specs.Wholes as wholes;
ghost use Rattle.opencl_core.specs.ComponentsView.{changed as changed_seen, spot as spot_seen};
ghost use Rattle.opencl_core.specs.View as seen;

use crate::rooms::Room;
use crate::templates::Returning;
use core_code::tree::{Array, Site, Space, Statement, Term};
use core_pieces::copies::copy_of;
use kernel_names::Sort;
use opencl_terms::narrowing::stored;
use opencl_terms::scalars::ValueType;
use opencl_values::elements::Element;
use opencl_values::error::ValueError;
use opencl_values::vectors::{Made, index_at, vector_made};
use opencl_values::wholes::{Value, component, places, words};
use std::alloc::{AllocError, Global};
use words::Kind;

/// What the store of a component changes: some slots from one on, or elements of an array, or of any.
#[derive(Clone, Copy)]
pub enum Changed {
    Slots { first: u32, count: u32 },
    Elements(Array),
    AnyElements,
}

fn is_global(space: Space) -> bool
    ensures { result ≡ rules.is_global (space_seen space) }
{
    match space {
        Space::Global => true,
        Space::Local => false,
    }
}

/// Whether two spaces are the same.
pub fn is_same_space(left: Space, right: Space) -> bool
    ensures { result ≡ rules.is_same_space (space_seen left) (space_seen right) }
{
    match left {
        Space::Global => is_global(right),
        Space::Local => !is_global(right),
    }
}

fn is_array(changed: Changed, array: Array) -> bool
    ensures { result ≡ rules.is_array (changed_seen changed) (array_seen array) }
{
    match changed {
        Changed::Slots { .. } => false,
        Changed::AnyElements => true,
        Changed::Elements(other) => {
            is_same_space(array.space, other.space) && array.number == other.number
        }
    }
}

fn is_slot(changed: Changed, slot: u32) -> bool
    ensures { result ≡ rules.is_slot (changed_seen changed) slot }
{
    match changed {
        Changed::Slots { first, count } => first <= slot && slot - first < count,
        Changed::Elements(_) | Changed::AnyElements => false,
    }
}

/// Whether a term depends on what is changed.
fn heeds(changed: Changed, of: &Term) -> bool
    ensures { result ≡ rules.heeds (changed_seen changed) (term of.now) }
{
    match of {
        Term::Literal { .. } | Term::Id { .. } => false,
        Term::Variable { slot } => is_slot(changed, *slot),
        Term::Load { array, index, .. } => is_array(changed, *array) || heeds(changed, index),
        Term::Unary { of, .. } | Term::Convert { of, .. } | Term::Not { of } => heeds(changed, of),
        Term::Within { index, .. } => heeds(changed, index),
        Term::Binary { left, right, .. }
        | Term::Compare { left, right, .. }
        | Term::And { left, right }
        | Term::Or { left, right }
        | Term::Minimum { left, right }
        | Term::Maximum { left, right } => heeds(changed, left) || heeds(changed, right),
        Term::Shift { value, count, .. } => heeds(changed, value) || heeds(changed, count),
        Term::Select {
            test,
            taken,
            skipped,
        } => heeds(changed, test) || heeds(changed, taken) || heeds(changed, skipped),
        Term::Opaque {
            first,
            second,
            third,
            ..
        } => heeds(changed, first) || heeds(changed, second) || heeds(changed, third),
    }
}

// A number, and one more.
fn one_more(number: u32) -> Result<u32, AllocError>
    ensures { IfOk result (λ n. n ≡ number + 1) }
{
    match number.checked_add(1) {
        Some(number) => Ok(number),
        None => Err(AllocError),
    }
}

/// The slot of a component of a variable.
pub fn slot_at(slot: u32, place: u32) -> Result<u32, AllocError>
    ensures { IfOk result (λ n. n ≡ slot + place) }
{
    match slot.checked_add(place) {
        Some(slot) => Ok(slot),
        None => Err(AllocError),
    }
}

fn set_component(
    alloc: Global,
    at: Site,
    slot: (u32, u32),
    of: &Value,
    from: u32,
    room: &mut Room,
) -> Result<(), ValueError>
    ensures { Gives (λ _. seen.room room.new) result (rooms.set (slot.0 + slot.1) (wholes.component (value_seen of.now) from).term (site_seen at) (seen.room room.old)) }
{
    let one = component(alloc, of, from)?;
    let slot = slot_at(slot.0, slot.1)?;
    room.set(slot, one.term, at)
}

/// Sets the slots of some places to the components of a value.
pub fn set_picked(
    alloc: Global,
    at: Site,
    slot: u32,
    of: &Value,
    picked: &[u32],
    room: &mut Room,
) -> Result<(), ValueError>
    ensures { Gives (λ _. seen.room room.new) result (rules.set_picked (site_seen at) slot (value_seen of.now) 0 picked.now (seen.room room.old)) }
{
    let mut from = 0u32;
    for place in picked {
        set_component(alloc, at, (slot, *place), of, from, room)?;
        from = one_more(from)?;
    }
    Ok(())
}

// Whether a component depends on slots in front of a place.
fn depends(alloc: Global, slot: u32, place: u32, of: &Value, from: u32) -> Result<bool, AllocError>
    ensures { IfOk result (λ b. b ≡ rules.heeds (rules.Slots slot place) (wholes.component (value_seen of.now) from).term) }
{
    let one = component(alloc, of, from)?;
    let changed = Changed::Slots {
        first: slot,
        count: place,
    };
    Ok(heeds(changed, &one.term))
}

// Whether no component that is stored later depends on one that is stored before.
fn are_apart(alloc: Global, slot: u32, of: &Value, picked: &[u32]) -> Result<bool, AllocError>
    ensures { IfOk result (λ b. b ≡ rules.are_apart slot 0 (value_seen of.now) 0 picked.now) }
{
    let mut lowest = 0u32;
    let mut from = 0u32;
    for place in picked {
        if *place < lowest || depends(alloc, slot, *place, of, from)? {
            return Ok(false);
        }
        lowest = *place;
        from = one_more(from)?;
    }
    Ok(true)
}

fn kept_value(
    alloc: Global,
    ids: Kind,
    at: Site,
    slot: u32,
    of: ValueType,
) -> Result<Value, AllocError>
    ensures { IfOk result (λ v. value_seen v ≡ rules.kept_value (kind_seen ids) (site_seen at) slot (value_type of)) }
{
    vector_made(alloc, ids, at, Made::Kept(slot), of)
}

/// Keeps all components in variables.
pub fn keep_all(
    alloc: Global,
    at: Site,
    of: &Value,
    count: u32,
    room: &mut Room,
) -> Result<Value, ValueError>
    ensures { Gives (λ v. (value_seen v, seen.room room.new)) result (rules.keep_all (site_seen at) (value_seen of.now) count (seen.room room.old)) }
{
    let ids = room.ids;
    let scalar = of.of.scalar;
    let slot = room.next_slots(at, count)?;
    set_picked(alloc, at, slot, of, places(count), room)?;
    room.make_all_up(alloc, at, scalar.kind(ids), count)?;
    let to = ValueType {
        scalar,
        width: count,
    };
    Ok(kept_value(alloc, ids, at, slot, to)?)
}

fn put_by_way(
    alloc: Global,
    at: Site,
    slot: u32,
    picked: &[u32],
    of: &Value,
    room: &mut Room,
) -> Result<(), ValueError>
    ensures { Gives (λ _. seen.room room.new) result (rules.put_by_way (site_seen at) slot picked.now (value_seen of.now) (seen.room room.old)) }
{
    let Ok(count) = u32::try_from(picked.len()) else {
        return Err(ValueError::Memory);
    };
    let kept = keep_all(alloc, at, of, count, room)?;
    set_picked(alloc, at, slot, &kept, picked, room)
}

/// Assigns a value to some components of a variable.
pub fn put_picked(
    alloc: Global,
    at: Site,
    slot: u32,
    picked: &[u32],
    of: &Value,
    room: &mut Room,
) -> Result<(), ValueError>
    ensures { Gives (λ _. seen.room room.new) result (rules.put_picked (site_seen at) slot picked.now (value_seen of.now) (seen.room room.old)) }
{
    if are_apart(alloc, slot, of, picked)? {
        set_picked(alloc, at, slot, of, picked, room)
    } else {
        put_by_way(alloc, at, slot, picked, of, room)
    }
}

fn mixed_value(
    alloc: Global,
    ids: Kind,
    at: Site,
    to: ValueType,
    picked: &[u32],
    both: (&Value, &Value),
) -> Result<Value, AllocError>
    ensures { IfOk result (λ v. value_seen v ≡ rules.mixed_value (kind_seen ids) (site_seen at) (value_type to) picked.now (value_seen both.entry.0.now) (value_seen both.entry.1.now)) }
{
    vector_made(alloc, ids, at, Made::Mixed(picked, both.0, both.1), to)
}

/// All elements of a vector in memory, by what is assigned to some components and what the others had.
pub fn mixed_with(
    alloc: Global,
    ids: Kind,
    at: Site,
    to: ValueType,
    picked: &[u32],
    both: (&Value, &Value),
) -> Result<Value, AllocError>
    ensures { IfOk result (λ v. value_seen v ≡ rules.mixed_with (kind_seen ids) (site_seen at) (value_type to) picked.now (value_seen both.entry.0.now) (value_seen both.entry.1.now)) }
{
    let mixed = mixed_value(alloc, ids, at, to, picked, both)?;
    let filled = ValueType {
        scalar: to.scalar,
        width: words(to.width),
    };
    vector_made(alloc, ids, at, Made::Filled(&mixed), filled)
}

/// Where an assignment begins, and its operator.
#[derive(Clone, Copy)]
pub struct Spot {
    pub at: Site,
    pub sign_site: Site,
}

/// A component as an element of memory.
pub fn stored_component(alloc: Global, at: Site, of: &Value, place: u32) -> Result<Term, AllocError>
    ensures { IfOk result (λ t. term t ≡ conversions.stored (scalar_seen of.now.of.scalar) (site_seen at) (wholes.component (value_seen of.now) place).term) }
{
    let one = component(alloc, of, place)?;
    stored(alloc, of.of.scalar, at, one.term)
}

fn component_index(
    alloc: Global,
    at: Site,
    element: &Element,
    place: u32,
) -> Result<Term, AllocError>
    ensures { IfOk result (λ t. term t ≡ vectors.index_at (site_seen at) (element_seen element.now).index place) }
{
    let index = copy_of(alloc, &element.index)?;
    index_at(alloc, at, index, place)
}

fn store_component(
    alloc: Global,
    spot: Spot,
    element: &Element,
    of: &Value,
    place: u32,
    room: &mut Room,
) -> Result<(), ValueError>
    ensures { Gives (λ _. seen.room room.new) result (rules.store_component (spot_seen spot) (element_seen element.now) (value_seen of.now) place (seen.room room.old)) }
{
    let number = room.count(spot.at)?;
    let statement = Statement::Store {
        number,
        array: element.array,
        site: spot.at,
        index: component_index(alloc, spot.at, element, place)?,
        value: stored_component(alloc, spot.sign_site, of, place)?,
    };
    room.put(statement, spot.at, Sort::Other, &[])?;
    Ok(())
}

/// Stores components, one behind the other, of which none depends on the array.
pub fn store_all(
    alloc: Global,
    spot: Spot,
    element: &Element,
    of: &Value,
    places: &[u32],
    room: &mut Room,
) -> Result<(), ValueError>
    ensures { Gives (λ _. seen.room room.new) result (rules.store_all (spot_seen spot) (element_seen element.now) (value_seen of.now) places.now (seen.room room.old)) }
{
    for place in places {
        store_component(alloc, spot, element, of, *place, room)?;
    }
    Ok(())
}

fn heeds_at(alloc: Global, changed: Changed, of: &Value, place: u32) -> Result<bool, AllocError>
    ensures { IfOk result (λ b. b ≡ rules.heeds (changed_seen changed) (wholes.component (value_seen of.now) place).term) }
{
    let one = component(alloc, of, place)?;
    Ok(heeds(changed, &one.term))
}

/// Whether no component depends on an array.
pub fn heed_none(
    alloc: Global,
    changed: Changed,
    of: &Value,
    places: &[u32],
) -> Result<bool, AllocError>
    ensures { IfOk result (λ b. b ≡ rules.heed_none (changed_seen changed) (value_seen of.now) places.now) }
{
    for place in places {
        if heeds_at(alloc, changed, of, *place)? {
            return Ok(false);
        }
    }
    Ok(true)
}

/// What a store to an array changes: two parameters of a function of the file may be one array.
pub fn changed_by(returns: Returning, array: Array) -> Changed
    ensures { changed_seen result ≡ rules.changed_by (seen.returning returns) (array_seen array) }
{
    match returns {
        Returning::OfKernel => Changed::Elements(array),
        Returning::OfFunction(_) => Changed::AnyElements,
    }
}

fn store_by_way(
    alloc: Global,
    spot: Spot,
    element: &Element,
    of: &Value,
    room: &mut Room,
) -> Result<(), ValueError>
    ensures { Gives (λ _. seen.room room.new) result (rules.store_by_way (spot_seen spot) (element_seen element.now) (value_seen of.now) (seen.room room.old)) }
{
    let width = of.of.width;
    let kept = keep_all(alloc, spot.at, of, width, room)?;
    store_all(alloc, spot, element, &kept, places(width), room)
}

/// Stores all elements of a vector.
pub fn store_vector(
    alloc: Global,
    spot: Spot,
    element: &Element,
    of: &Value,
    room: &mut Room,
) -> Result<(), ValueError>
    ensures { Gives (λ _. seen.room room.new) result (rules.store_vector (spot_seen spot) (element_seen element.now) (value_seen of.now) (seen.room room.old)) }
{
    let all = places(of.of.width);
    let changed = changed_by(room.returns, element.array);
    if heed_none(alloc, changed, of, all)? {
        store_all(alloc, spot, element, of, all, room)
    } else {
        store_by_way(alloc, spot, element, of, room)
    }
}
