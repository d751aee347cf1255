//! What it tells of places that variables step by what is no number but a form of the launch, as the number of all items: that their ways
//! are multiples of it, and how these compare with the ways of variables that step by numbers.

use crate::courses::{Course, Courses};
use crate::gathering::Gathering;
use crate::stride_lines::first_ways;
use guesses::{Line, Sight, copied, try_multiple, try_product};
use linear::Form;
use std::alloc::AllocError;

/// The rank of what strides tell.
const STRIDE: u32 = 1;

/// The one number by which a variable steps.
fn stride_of(course: &Course) -> Option<i64> {
    match course.strides.as_slice() {
        [stride] if course.by_forms.is_empty() => Some(*stride),
        _ => None,
    }
}

/// Adds that a way is a multiple of a form, and that it is at least 0.
fn tell_way(
    told: &mut Gathering<'_>,
    place: usize,
    way: &Form,
    by: &Form,
) -> Result<(), AllocError> {
    let of = copied(told.alloc, by)?;
    let form = copied(told.alloc, way)?;
    told.add_line(place, Line::MultipleOf { of, form }, STRIDE)?;
    told.add_fact(place, way, STRIDE)
}

/// Adds that a way by a form and one by a number are in the ratio of these.
fn tell_ratio(
    told: &mut Gathering<'_>,
    place: usize,
    ways: (&Form, &Form),
    by: &Form,
    stride: i64,
) -> Result<(), AllocError> {
    let Some(left) = try_multiple(told.alloc, ways.0, stride)? else {
        return Ok(());
    };
    match try_product(told.alloc, ways.1, by)? {
        Some(right) => told.add_equal(place, &left, &right, STRIDE),
        None => Ok(()),
    }
}

/// Adds how a way by a form compares with the ways of the variables of the place that step by one number.
fn tell_beside(
    told: &mut Gathering<'_>,
    place: usize,
    sight: &Sight,
    courses: &Courses,
    way: &Form,
    by: &Form,
) -> Result<(), AllocError> {
    for slot in sight.slots.iter() {
        let course = courses.of_slots.get(*slot as usize);
        if let Some(stride) = course.and_then(stride_of) {
            let others = first_ways(told.alloc, sight, courses, *slot)?;
            for other in others.iter() {
                tell_ratio(told, place, (way, other), by, stride)?;
            }
        }
    }
    Ok(())
}

/// Adds at a place what the ways of a variable tell that steps by forms.
fn tell_slot(
    told: &mut Gathering<'_>,
    place: usize,
    sight: &Sight,
    courses: &Courses,
    slot: u32,
) -> Result<(), AllocError> {
    let Some(course) = courses.of_slots.get(slot as usize) else {
        return Ok(());
    };
    if course.by_forms.is_empty() {
        return Ok(());
    }
    let ways = first_ways(told.alloc, sight, courses, slot)?;
    for way in ways.iter() {
        for by in course.by_forms.iter() {
            tell_way(told, place, way, by)?;
            tell_beside(told, place, sight, courses, way, by)?;
        }
    }
    Ok(())
}

/// Adds at all places what the ways of variables tell that step by forms.
pub fn tell_by_forms(told: &mut Gathering<'_>, courses: &Courses) -> Result<(), AllocError> {
    let sights = told.sights;
    for (place, sight) in sights.iter().enumerate() {
        for slot in sight.slots.iter() {
            tell_slot(told, place, sight, courses, *slot)?;
        }
    }
    Ok(())
}
