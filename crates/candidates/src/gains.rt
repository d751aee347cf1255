//! What two variables of a loop gain together: of a search that keeps a start and a length, that both together never gain; of two ends that
//! meet, or of a merge, that one gains no more than the other one.

use crate::courses::Courses;
use crate::gathering::Gathering;
use crate::single_values::has_slot;
use crate::stride_lines::first_ways;
use guesses::{Leaf, Sight, is_same, one_of, try_difference, try_sum, variable};
use linear::Form;
use std::alloc::{AllocError, Global};

/// The most variables of a loop that are looked at.
const MOST: usize = 8;

/// The ways of a variable from what it begins with.
#[derive(Drop)]
struct Gain {
    ways: Vec<Form>,
}

/// A turn of the loop leaves the variable with another value than it had.
fn changes(
    alloc: Global,
    place: usize,
    sight: &Sight,
    leaves: &[Leaf],
    slot: u32,
) -> Result<bool, AllocError> {
    let own = one_of(alloc, variable(slot))?;
    Ok(
        has_slot(sight, slot)
            && leaves.iter().any(|leaf| {
                leaf.from == place
                    && leaf.to == place
                    && leaf
                        .variables
                        .get(slot as usize)
                        .is_some_and(|value| !is_same(value, &own))
            }),
    )
}

/// The ways of the variables that the turns of a loop change.
fn gains_of(
    told: &Gathering<'_>,
    place: usize,
    sight: &Sight,
    courses: &Courses,
    leaves: &[Leaf],
) -> Result<Vec<Gain>, AllocError> {
    let alloc = told.alloc;
    let mut gains = Vec::new(alloc);
    for slot in sight.slots.iter() {
        if gains.len() < MOST && changes(alloc, place, sight, leaves, *slot)? {
            let ways = first_ways(alloc, sight, courses, *slot)?;
            gains.push(Gain { ways })?;
        }
    }
    Ok(gains)
}

/// Adds that the sum of two ways, and their difference, is at least 0 and at most 0.
fn tell_ways(
    told: &mut Gathering<'_>,
    place: usize,
    first: &Form,
    second: &Form,
) -> Result<(), AllocError> {
    if let Some(sum) = try_sum(told.alloc, first, second)? {
        told.add_last_zero(place, &sum)?;
    }
    match try_difference(told.alloc, first, second)? {
        Some(difference) => told.add_last_zero(place, &difference),
        None => Ok(()),
    }
}

/// Adds what two variables gain together, from each of the first values that they begin with.
fn tell_both(
    told: &mut Gathering<'_>,
    place: usize,
    first: &Gain,
    second: &Gain,
) -> Result<(), AllocError> {
    for one in first.ways.iter() {
        for other in second.ways.iter() {
            tell_ways(told, place, one, other)?;
        }
    }
    Ok(())
}

/// Adds, at each loop's head, what each two of its variables gain together.
pub fn tell_gains(
    told: &mut Gathering<'_>,
    courses: &Courses,
    leaves: &[Leaf],
) -> Result<(), AllocError> {
    let sights = told.sights;
    for (place, sight) in sights.iter().enumerate() {
        let gains = gains_of(told, place, sight, courses, leaves)?;
        for (number, second) in gains.iter().enumerate() {
            for first in gains.iter().take(number) {
                tell_both(told, place, first, second)?;
            }
        }
    }
    Ok(())
}
