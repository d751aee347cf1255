//! How fast variables are that step by what is no number, beside those that step by one number: where `o` steps by two and `i` by `run`,
//! that `o` goes at most twice as far as `i`, or at least.

use crate::courses::{Course, Courses, grown};
use crate::gathering::Gathering;
use crate::stride_lines::first_ways;
use guesses::{Leaf, try_difference, try_multiple};
use linear::Form;
use std::alloc::AllocError;

/// The rank of the candidates that this file tells.
const PACE: u32 = 3;

/// The one number by which a variable steps.
fn stride_of(course: &Course) -> Option<i64> {
    match course.strides.as_slice() {
        [stride] => Some(*stride),
        _ => None,
    }
}

/// A variable steps by what is no number.
fn is_uneven(told: &Gathering<'_>, leaves: &[Leaf], slot: u32) -> bool {
    for leaf in leaves {
        if let Some(from) = told.sights.get(leaf.from) {
            if grown(from, leaf, slot).is_some_and(|value| value.terms().len() > 1) {
                return true;
            }
        }
    }
    false
}

/// Adds that the first way is at most the second one so many times, and, as another candidate, that it is at least that.
fn tell_pace(
    told: &mut Gathering<'_>,
    place: usize,
    first: &Form,
    second: &Form,
    times: i64,
) -> Result<(), AllocError> {
    let Some(most) = try_multiple(told.alloc, second, times)? else {
        return Ok(());
    };
    let Some(more) = try_difference(told.alloc, &most, first)? else {
        return Ok(());
    };
    told.add_fact(place, &more, PACE)?;
    match try_multiple(told.alloc, &more, -1)? {
        Some(less) => told.add_fact(place, &less, PACE),
        None => Ok(()),
    }
}

/// Adds at a place how the ways of variables that step by one number compare with the way of one that does not.
fn tell_beside(
    told: &mut Gathering<'_>,
    place: usize,
    courses: &Courses,
    uneven: &Form,
) -> Result<(), AllocError> {
    let sights = told.sights;
    let Some(sight) = sights.get(place) else {
        return Ok(());
    };
    for slot in sight.slots.iter() {
        let course = courses.of_slots.get(*slot as usize);
        if let Some(stride) = course.and_then(stride_of) {
            let ways = first_ways(told.alloc, sight, courses, *slot)?;
            for way in ways.iter() {
                tell_pace(told, place, way, uneven, stride)?;
            }
        }
    }
    Ok(())
}

/// Adds at all places how the ways of variables that step by one number compare with the ways of those that do not.
pub fn tell_paces(
    told: &mut Gathering<'_>,
    courses: &Courses,
    leaves: &[Leaf],
) -> Result<(), AllocError> {
    let sights = told.sights;
    for (place, sight) in sights.iter().enumerate() {
        for slot in sight.slots.iter() {
            if is_uneven(told, leaves, *slot) {
                let ways = first_ways(told.alloc, sight, courses, *slot)?;
                for way in ways.iter() {
                    tell_beside(told, place, courses, way)?;
                }
            }
        }
    }
    Ok(())
}
