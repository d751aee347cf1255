//! How far variables go in a loop that stands in another one, as in a filter of two dimensions.

use crate::bounds::tell_ends;
use crate::courses::Courses;
use crate::gathering::Gathering;
use crate::reach::Reach;
use crate::stride_lines::first_ways;
use crate::turns::{Counter, Turns};
use guesses::{try_multiple, try_sum};
use linear::Form;
use std::alloc::{AllocError, Global};

/// A loop in the body of another one, each with a counter.
#[derive(Clone, Copy)]
struct Nest<'a> {
    outer: Turns<'a>,
    inner: Turns<'a>,
    outer_counter: Counter,
    inner_counter: Counter,
    /// The most turns of the inner loop.
    trips: i64,
}

/// The first variable that steps by one number whenever the inner loop is left for the outer one's next turn, and nowhere else.
fn outer_counter(
    alloc: Global,
    outer: Turns<'_>,
    inner: Turns<'_>,
) -> Result<Option<Counter>, AllocError> {
    for slot in outer.sight.slots.iter() {
        if let Some(stride) = inner.stride_to(alloc, outer.place, *slot)? {
            let is_kept = inner.keeps(alloc, inner.place, *slot)?
                && outer.keeps(alloc, inner.place, *slot)?;
            if is_kept {
                return Ok(Some(Counter {
                    slot: *slot,
                    stride,
                }));
            }
        }
    }
    Ok(None)
}

/// The number that a variable begins with, if one of its first values is one.
fn first_number(courses: &Courses, slot: u32) -> Option<i64> {
    let course = courses.of_slots.get(slot as usize)?;
    for start in course.starts.iter() {
        if start.terms().is_empty() {
            return Some(start.constant_part());
        }
    }
    None
}

/// The most turns of a loop by single facts about its counter; none where they bound it by no number.
fn trips_of(
    alloc: Global,
    turns: Turns<'_>,
    courses: &Courses,
    counter: Counter,
) -> Result<Option<i64>, AllocError> {
    let (Some(start), Some(ends)) = (
        first_number(courses, counter.slot),
        turns.values_in(alloc, counter.slot)?,
    ) else {
        return Ok(None);
    };
    let far = if counter.stride > 0 {
        ends.high.checked_sub(start)
    } else {
        start.checked_sub(ends.low)
    };
    match (far, counter.stride.checked_abs()) {
        (Some(far), Some(size)) if far >= 0 && size > 0 => Ok((far / size).checked_add(1)),
        _ => Ok(None),
    }
}

/// The nest of two places, if the inner one is the test of a loop in the body of the outer one's loop; none where a counter lacks.
fn nest_of<'a>(
    alloc: Global,
    courses: &Courses,
    outer: Turns<'a>,
    inner: Turns<'a>,
) -> Result<Option<Nest<'a>>, AllocError> {
    let Some(outer_counter) = outer_counter(alloc, outer, inner)? else {
        return Ok(None);
    };
    let Some(inner_counter) = inner.counter(alloc)? else {
        return Ok(None);
    };
    match trips_of(alloc, inner, courses, inner_counter)? {
        Some(trips) => Ok(Some(Nest {
            outer,
            inner,
            outer_counter,
            inner_counter,
            trips,
        })),
        None => Ok(None),
    }
}

/// The sum of two forms, each so many times; none where a number is too large.
fn blended(
    alloc: Global,
    left: &Form,
    by_left: i64,
    right: &Form,
    by_right: i64,
) -> Result<Option<Form>, AllocError> {
    let (Some(left), Some(right)) = (
        try_multiple(alloc, left, by_left)?,
        try_multiple(alloc, right, by_right)?,
    ) else {
        return Ok(None);
    };
    try_sum(alloc, &left, &right)
}

/// All turns of the inner loop so far, those in earlier turns of the outer one among them; each counts as much as `size_of_both`.
fn turns_so_far(
    alloc: Global,
    nest: Nest<'_>,
    outer: &Form,
    inner: &Form,
) -> Result<Option<Form>, AllocError> {
    let (outer_stride, inner_stride) = (nest.outer_counter.stride, nest.inner_counter.stride);
    let (Some(by_outer), Some(by_inner)) = (
        inner_stride
            .saturating_abs()
            .checked_mul(outer_stride.signum()),
        outer_stride
            .saturating_abs()
            .checked_mul(inner_stride.signum()),
    ) else {
        return Ok(None);
    };
    match by_outer.checked_mul(nest.trips) {
        Some(by_outer) => blended(alloc, outer, by_outer, inner, by_inner),
        None => Ok(None),
    }
}

/// The product of the sizes of both strides.
fn size_of_both(nest: Nest<'_>) -> Option<i64> {
    let (outer, inner) = (nest.outer_counter.stride, nest.inner_counter.stride);
    outer.checked_abs()?.checked_mul(inner.checked_abs()?)
}

/// Tells bounds of the distance that a variable goes in two loops, from one value that it begins with.
fn tell_way_in_nest(
    told: &mut Gathering<'_>,
    nest: Nest<'_>,
    reach: Reach,
    way: &Form,
    outer: &Form,
    inner: &Form,
) -> Result<(), AllocError> {
    if let Some(all) = reach.times(nest.trips) {
        let stride = nest.outer_counter.stride;
        tell_ends(told, nest.outer.place, way, all, outer, stride)?;
    }
    let Some(size) = size_of_both(nest) else {
        return Ok(());
    };
    match turns_so_far(told.alloc, nest, outer, inner)? {
        Some(count) => tell_ends(told, nest.inner.place, way, reach, &count, size),
        None => Ok(()),
    }
}

/// Between what a variable steps in the inner loop, if it steps nowhere else.
fn reach_in_nest(alloc: Global, nest: Nest<'_>, slot: u32) -> Result<Option<Reach>, AllocError> {
    let is_kept = nest.inner.keeps(alloc, nest.outer.place, slot)?
        && nest.outer.keeps(alloc, nest.inner.place, slot)?;
    match nest.inner.reach(alloc, slot)? {
        Some(reach) if is_kept && reach.is_near() => Ok(Some(reach)),
        _ => Ok(None),
    }
}

/// Tells bounds of the distance that a variable goes in two loops, from each value that it begins with.
fn tell_slot_in_nest(
    told: &mut Gathering<'_>,
    nest: Nest<'_>,
    courses: &Courses,
    slot: u32,
) -> Result<(), AllocError> {
    let Some(reach) = reach_in_nest(told.alloc, nest, slot)? else {
        return Ok(());
    };
    let sight = nest.inner.sight;
    let ways = first_ways(told.alloc, sight, courses, slot)?;
    let outers = first_ways(told.alloc, sight, courses, nest.outer_counter.slot)?;
    let inners = first_ways(told.alloc, sight, courses, nest.inner_counter.slot)?;
    let (Some(outer), Some(inner)) = (outers.first(), inners.first()) else {
        return Ok(());
    };
    for way in ways.iter() {
        tell_way_in_nest(told, nest, reach, way, outer, inner)?;
    }
    Ok(())
}

/// Tells bounds of the distances that variables go in two loops, one in the other.
pub fn tell_nest(
    told: &mut Gathering<'_>,
    courses: &Courses,
    outer: Turns<'_>,
    inner: Turns<'_>,
) -> Result<(), AllocError> {
    let Some(nest) = nest_of(told.alloc, courses, outer, inner)? else {
        return Ok(());
    };
    for slot in inner.sight.slots.iter() {
        tell_slot_in_nest(told, nest, courses, *slot)?;
    }
    Ok(())
}
