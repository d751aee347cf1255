//! What all states that were seen at a place share.

use crate::equalities::equalities;
use crate::seen::{Observed, State};
use crate::spacing::{divisor_at, power_in};
use core_code::tree::Core;
use guesses::{
    Candidate, Line, Sight, copied, group, local, one_of, try_difference, try_multiple, try_sum,
    variable,
};
use linear::Form;
use std::alloc::{AllocError, Global};

/// The fewest states of a place that tell something.
const ENOUGH: usize = 4;

/// The rank of what is told.
const RANK: u32 = 3;

fn push_line(found: &mut Vec<Candidate>, sight: &Sight, line: Line) -> Result<(), AllocError> {
    found.push(Candidate {
        anchor: sight.anchor,
        head: sight.head,
        rank: RANK,
        line,
    })?;
    Ok(())
}

/// Adds that a form is 0, as two facts; nothing where a number is too large.
fn push_equality(
    alloc: Global,
    found: &mut Vec<Candidate>,
    sight: &Sight,
    form: Form,
) -> Result<(), AllocError> {
    if let Some(opposite) = try_multiple(alloc, &form, -1)? {
        push_line(found, sight, Line::Fact(opposite))?;
        push_line(found, sight, Line::Fact(form))?;
    }
    Ok(())
}

fn push_equalities(
    alloc: Global,
    found: &mut Vec<Candidate>,
    sight: &Sight,
    forms: Vec<Form>,
) -> Result<(), AllocError> {
    for form in forms {
        push_equality(alloc, found, sight, form)?;
    }
    Ok(())
}

/// Adds that a number divides a form.
fn push_multiple(
    alloc: Global,
    found: &mut Vec<Candidate>,
    sight: &Sight,
    modulus: u64,
    form: &Form,
) -> Result<(), AllocError> {
    let form = copied(alloc, form)?;
    push_line(found, sight, Line::Multiple { modulus, form })
}

fn push_multiples(
    alloc: Global,
    found: &mut Vec<Candidate>,
    sight: &Sight,
    modulus: u64,
    form: &Form,
) -> Result<(), AllocError> {
    push_multiple(alloc, found, sight, modulus, form)?;
    let power = power_in(modulus);
    if power >= 2 && power < modulus {
        push_multiple(alloc, found, sight, power, form)?;
    }
    Ok(())
}

/// The global id of an item in a dimension, as a form; none where a number is too large.
fn global_of(alloc: Global, dimension: u32, size: u32) -> Result<Option<Form>, AllocError> {
    let once = one_of(alloc, group(dimension))?;
    let Some(before) = try_multiple(alloc, &once, size as i64)? else {
        return Ok(None);
    };
    let inside = one_of(alloc, local(dimension))?;
    try_sum(alloc, &before, &inside)
}

/// Adds the group id, the local id and the global id of a dimension, as forms.
fn push_ids(
    alloc: Global,
    ids: &mut Vec<Form>,
    dimension: u32,
    size: u32,
) -> Result<(), AllocError> {
    ids.push(one_of(alloc, group(dimension))?)?;
    if size > 1 {
        ids.push(one_of(alloc, local(dimension))?)?;
        if let Some(form) = global_of(alloc, dimension, size)? {
            ids.push(form)?;
        }
    }
    Ok(())
}

/// The forms to which values are compared: 0, and the ids of all dimensions.
fn ids_of(alloc: Global, core: &Core) -> Result<Vec<Form>, AllocError> {
    let [x, y, z] = core.sizes;
    let mut ids = Vec::new(alloc);
    ids.push(Form::constant(alloc, 0))?;
    push_ids(alloc, &mut ids, 0, x)?;
    push_ids(alloc, &mut ids, 1, y)?;
    push_ids(alloc, &mut ids, 2, z)?;
    Ok(ids)
}

/// A place with what was seen of it.
#[derive(Clone, Copy)]
struct Scene<'a> {
    states: &'a [State],
    place: usize,
    sight: &'a Sight,
}

fn push_spacing(
    alloc: Global,
    found: &mut Vec<Candidate>,
    scene: &Scene<'_>,
    slot: u32,
    id: &Form,
) -> Result<(), AllocError> {
    let once = one_of(alloc, variable(slot))?;
    let Some(form) = try_difference(alloc, &once, id)? else {
        return Ok(());
    };
    match divisor_at(scene.states, scene.place, &form) {
        None => Ok(()),
        Some(divisor) => push_multiples(alloc, found, scene.sight, divisor, &form),
    }
}

fn push_spacings(
    alloc: Global,
    found: &mut Vec<Candidate>,
    scene: &Scene<'_>,
    ids: &[Form],
) -> Result<(), AllocError> {
    for slot in scene.sight.slots.iter() {
        for id in ids {
            push_spacing(alloc, found, scene, *slot, id)?;
        }
    }
    Ok(())
}

fn is_enough(states: &[State], place: usize) -> bool {
    let mut count = 0usize;
    for state in states {
        if state.place == place {
            count = count.saturating_add(1);
        }
    }
    count >= ENOUGH
}

/// Equalities of what was seen at each place, and numbers that divide a variable there, or its distance from an id.
pub fn told_by_runs(
    alloc: Global,
    core: &Core,
    sights: &[Sight],
    observed: &Observed,
) -> Result<Vec<Candidate>, AllocError> {
    let states = observed.states();
    let ids = ids_of(alloc, core)?;
    let mut found = Vec::new(alloc);
    for (place, sight) in sights.iter().enumerate() {
        if is_enough(states, place) {
            let forms = equalities(alloc, states, place)?;
            push_equalities(alloc, &mut found, sight, forms)?;
            let scene = Scene {
                states,
                place,
                sight,
            };
            push_spacings(alloc, &mut found, &scene, ids.as_slice())?;
        }
    }
    Ok(found)
}
