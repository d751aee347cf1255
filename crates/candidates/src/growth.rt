//! How far variables go that step by what is not one number but is bounded, as in a dot product: no further than the greatest step in each
//! turn, told by another variable that steps by one number, or by two where a loop stands in another one.

use crate::bounds::tell_ends;
use crate::courses::Courses;
use crate::gathering::Gathering;
use crate::nests::tell_nest;
use crate::single_values::Given;
use crate::stride_lines::first_ways;
use crate::turns::{Counter, Turns};
use guesses::{Leaf, Sight, one_of, variable};
use linear::Form;
use std::alloc::{AllocError, Global};

/// The distances that a counter has gone, one from each first value that it begins with. Where these have no name, as
/// where it begins with what is loaded, the distance is taken from 0.
fn counts_of(
    alloc: Global,
    sight: &Sight,
    courses: &Courses,
    counter: Counter,
) -> Result<Vec<Form>, AllocError> {
    let mut counts = first_ways(alloc, sight, courses, counter.slot)?;
    if counts.is_empty() && counter.stride > 0 {
        counts.push(one_of(alloc, variable(counter.slot))?)?;
    }
    Ok(counts)
}

/// Tells bounds of the distance of a variable from each value that it began with, by the turns so far.
fn tell_slot(
    told: &mut Gathering<'_>,
    turns: Turns<'_>,
    courses: &Courses,
    slot: u32,
    counter: Counter,
) -> Result<(), AllocError> {
    let Some(reach) = turns.reach(told.alloc, slot)? else {
        return Ok(());
    };
    if !reach.is_near() {
        return Ok(());
    }
    let ways = first_ways(told.alloc, turns.sight, courses, slot)?;
    let counts = counts_of(told.alloc, turns.sight, courses, counter)?;
    for way in ways.iter() {
        for count in counts.iter() {
            tell_ends(told, turns.place, way, reach, count, counter.stride)?;
        }
    }
    Ok(())
}

/// Tells bounds of the distance of each variable of a place from what it began with.
fn tell_place(
    told: &mut Gathering<'_>,
    turns: Turns<'_>,
    courses: &Courses,
) -> Result<(), AllocError> {
    let Some(counter) = turns.counter(told.alloc)? else {
        return Ok(());
    };
    for slot in turns.sight.slots.iter() {
        tell_slot(told, turns, courses, *slot, counter)?;
    }
    Ok(())
}

/// Tells bounds of the distance of variables from what they began with, for all places.
pub fn tell_growth(
    told: &mut Gathering<'_>,
    courses: &Courses,
    leaves: &[Leaf],
    values: &[Given],
) -> Result<(), AllocError> {
    let sights = told.sights;
    for (place, sight) in sights.iter().enumerate() {
        let turns = Turns {
            place,
            sight,
            leaves,
            values,
        };
        tell_place(told, turns, courses)?;
        for (inner, sight) in sights.iter().enumerate() {
            let inner = Turns {
                place: inner,
                sight,
                leaves,
                values,
            };
            if inner.place != place {
                tell_nest(told, courses, turns, inner)?;
            }
        }
    }
    Ok(())
}
