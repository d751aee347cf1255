//! That a variable is no further from what it began with than counted turns allow.

use crate::gathering::Gathering;
use crate::reach::Reach;
use guesses::{try_difference, try_multiple};
use linear::Form;
use std::alloc::AllocError;

/// The rank of the candidates that this file tells.
const GROWTH: u32 = 3;

/// Adds that a form is at most another one so many times.
fn tell_most(
    told: &mut Gathering<'_>,
    place: usize,
    way: &Form,
    count: &Form,
    times: i64,
) -> Result<(), AllocError> {
    let Some(most) = try_multiple(told.alloc, count, times)? else {
        return Ok(());
    };
    match try_difference(told.alloc, &most, way)? {
        Some(fact) => told.add_fact(place, &fact, GROWTH),
        None => Ok(()),
    }
}

/// Adds how far one way is at most, by another one whose stride is given.
pub fn tell_ends(
    told: &mut Gathering<'_>,
    place: usize,
    way: &Form,
    reach: Reach,
    count: &Form,
    stride: i64,
) -> Result<(), AllocError> {
    let sign = stride.signum();
    let (Some(size), Some(low), Some(high)) = (
        stride.checked_abs(),
        reach.low.checked_mul(sign),
        reach.high.checked_mul(sign),
    ) else {
        return Ok(());
    };
    let (Some(less), Some(size_less)) = (low.checked_neg(), size.checked_neg()) else {
        return Ok(());
    };
    if let Some(way) = try_multiple(told.alloc, way, size)? {
        tell_most(told, place, &way, count, high)?;
    }
    match try_multiple(told.alloc, way, size_less)? {
        Some(way) => tell_most(told, place, &way, count, less),
        None => Ok(()),
    }
}
