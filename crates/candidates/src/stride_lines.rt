//! What the strides of variables tell of places: numbers that divide, ends, and variables that step together.

use crate::courses::{Course, Courses, Pair};
use crate::fact_lines::sees;
use crate::gathering::Gathering;
use crate::single_values::has_slot;
use guesses::{Line, Sight, copied, one_of, try_difference, try_multiple, variable};
use linear::Form;
use std::alloc::{AllocError, Global};

/// The most values, with which variables begin, that are tried where two step together.
const STARTS: usize = 2;

/// The rank of what strides tell.
const STRIDE: u32 = 1;

/// The distance of a variable from what it began with; none where the place lacks a symbol of that.
fn way_of(
    alloc: Global,
    sight: &Sight,
    slot: u32,
    start: &Form,
) -> Result<Option<Form>, AllocError> {
    if !sees(sight, start) {
        return Ok(None);
    }
    let own = one_of(alloc, variable(slot))?;
    try_difference(alloc, &own, start)
}

/// Adds that each of the numbers divides a way, and that the way is at least 0 and at most 0.
fn tell_way(
    told: &mut Gathering<'_>,
    place: usize,
    moduli: &[u64],
    way: &Form,
) -> Result<(), AllocError> {
    for modulus in moduli {
        let form = copied(told.alloc, way)?;
        let line = Line::Multiple {
            modulus: *modulus,
            form,
        };
        told.add_line(place, line, STRIDE)?;
    }
    told.add_zero(place, way, STRIDE)
}

/// Adds what the starts and strides of one variable make of the ways that it has gone at a place.
fn tell_course(
    told: &mut Gathering<'_>,
    place: usize,
    sight: &Sight,
    slot: u32,
    course: &Course,
) -> Result<(), AllocError> {
    if course.strides.is_empty() {
        return Ok(());
    }
    let moduli = course.moduli(told.alloc)?;
    for start in course.starts.iter() {
        if let Some(way) = way_of(told.alloc, sight, slot, start)? {
            tell_way(told, place, moduli.as_slice(), &way)?;
        }
    }
    Ok(())
}

/// The ways of a variable from the first values that it begins with.
pub fn first_ways(
    alloc: Global,
    sight: &Sight,
    courses: &Courses,
    slot: u32,
) -> Result<Vec<Form>, AllocError> {
    let mut ways = Vec::new(alloc);
    if !has_slot(sight, slot) {
        return Ok(ways);
    }
    if let Some(course) = courses.of_slots.get(slot as usize) {
        for start in course.starts.iter().take(STARTS) {
            if let Some(way) = way_of(alloc, sight, slot, start)? {
                ways.push(way)?;
            }
        }
    }
    Ok(ways)
}

/// Adds that the ways of two variables that step together are in the ratio of their strides.
fn tell_ratio(
    told: &mut Gathering<'_>,
    place: usize,
    pair: &Pair,
    first: &Form,
    second: &Form,
) -> Result<(), AllocError> {
    let Some(left) = try_multiple(told.alloc, first, pair.by_second)? else {
        return Ok(());
    };
    let Some(right) = try_multiple(told.alloc, second, pair.by_first)? else {
        return Ok(());
    };
    told.add_equal(place, &left, &right, STRIDE)
}

/// Adds at a place the ratios of the ways of two variables that step together, from each of their starts.
fn tell_pair(
    told: &mut Gathering<'_>,
    place: usize,
    sight: &Sight,
    courses: &Courses,
    pair: &Pair,
) -> Result<(), AllocError> {
    let firsts = first_ways(told.alloc, sight, courses, pair.first)?;
    if firsts.is_empty() {
        return Ok(());
    }
    let seconds = first_ways(told.alloc, sight, courses, pair.second)?;
    for first in firsts.iter() {
        for second in seconds.iter() {
            tell_ratio(told, place, pair, first, second)?;
        }
    }
    Ok(())
}

/// Adds at a place the candidates that all variables' starts and strides give.
fn tell_place(
    told: &mut Gathering<'_>,
    place: usize,
    sight: &Sight,
    courses: &Courses,
) -> Result<(), AllocError> {
    for slot in sight.slots.iter() {
        if let Some(course) = courses.of_slots.get(*slot as usize) {
            tell_course(told, place, sight, *slot, course)?;
        }
    }
    for pair in courses.pairs.iter() {
        if pair.is_steady {
            tell_pair(told, place, sight, courses, pair)?;
        }
    }
    Ok(())
}

/// Adds at each place the candidates that all variables' starts and strides give.
pub fn tell_strides(told: &mut Gathering<'_>, courses: &Courses) -> Result<(), AllocError> {
    let sights = told.sights;
    for (place, sight) in sights.iter().enumerate() {
        tell_place(told, place, sight, courses)?;
    }
    Ok(())
}

/// The numbers by which variables step, each with its variable's slot.
pub fn all_strides(alloc: Global, courses: &Courses) -> Result<Vec<(u32, i64)>, AllocError> {
    let mut out = Vec::new(alloc);
    for (slot, course) in (0u32..).zip(courses.of_slots.iter()) {
        for stride in course.strides.iter() {
            out.push((slot, *stride))?;
        }
    }
    Ok(out)
}
