//! The elements of a launch's symbols, and of the ids of its items.

ghost use Rattle.std.specs.Prelude.{◌≡◌, ◌∷◌, ℤ, [], pos, IfOk, MatchResult, map};
ghost use Rattle.launch.specs.View.{sum as sum_seen, length_sum, argument_range as argument_range_seen};
ghost use Rattle.launch.specs.View.{count_range as count_range_seen, conditions as conditions_seen};
ghost use Rattle.facts.specs.Elements as elements;
ghost use Rattle.facts.specs.Launching as launching;
ghost use Rattle.facts.specs.View.{elements_seen, known_seen, three};
ghost use Rattle.facts.specs.Refusals.{IsMemory};

use crate::elements::{Known, between, element_of};
use crate::error::WalkError;
use crate::launching::{number_of, sum_form};
use domain::Domain;
use launch::conditions::{ArgumentRange, Conditions, CountRange, CountRanges, Length, Sum};
use std::alloc::{AllocError, Global};

/// A list of three elements, one a dimension.
fn three_of<D: Domain>(alloc: Global, x: D, y: D, z: D) -> Result<Vec<D>, AllocError>
    ensures { IfOk result (λ v. v.items ≡ x ∷ y ∷ z ∷ []) }
{
    let mut elements = Vec::new(alloc);
    elements.push(x)?;
    elements.push(y)?;
    elements.push(z)?;
    Ok(elements)
}

/// The group counts of a dimension.
fn of_count<D: Domain>(range: CountRange) -> D
    ensures { result ≡ launching.of_range D.Domain (count_range_seen range) }
{
    between(range.low as i64, range.high as i64)
}

/// The arguments of a value parameter.
fn of_argument<D: Domain>(range: ArgumentRange) -> D
    ensures { result ≡ launching.of_range D.Domain (argument_range_seen range) }
{
    between(number_of(range.low), number_of(range.high))
}

/// The element of the numbers from 0 to the one before `end`.
fn below<D: Domain>(end: u32) -> D
    ensures { result ≡ launching.below D.Domain (pos end) }
{
    between(0, end as i64 - 1)
}

/// The arguments of the value parameters.
fn of_arguments<D: Domain>(alloc: Global, ranges: &[ArgumentRange]) -> Result<Vec<D>, AllocError>
    ensures { IfOk result (λ v. v.items ≡ map (launching.of_range D.Domain) (map argument_range_seen ranges.now)) }
{
    let mut elements = Vec::new(alloc);
    for range in ranges {
        elements.push(of_argument(*range))?;
    }
    Ok(elements)
}

/// The element of a buffer's length: a `uint`, not below the least value of the sum that the conditions say of it.
fn of_length<D: Domain>(alloc: Global, known: &Known<D>, least: &Sum) -> Result<D, WalkError>
    ensures { MatchResult result (λ e. e ≡ launching.from_least D.Domain (elements_seen known.now [] []) (sum_seen least.now)) IsMemory }
{
    let lengths = between::<D>(0, 4_294_967_295);
    let Some(sum) = sum_form(alloc, least)? else {
        return Ok(lengths);
    };
    match element_of(known, &[], &[], &sum).bounds().low {
        Some(low) => Ok(lengths.at_least(low)),
        None => Ok(lengths),
    }
}

/// The lengths of the buffers.
fn of_lengths<D: Domain>(
    alloc: Global,
    known: &Known<D>,
    lengths: &[Length],
) -> Result<Vec<D>, WalkError>
    ensures { MatchResult result (λ v. v.items
        ≡ map (launching.from_least D.Domain (elements_seen known.now [] [])) (map length_sum lengths.now)) IsMemory }
{
    let mut elements = Vec::new(alloc);
    for length in lengths {
        let element = of_length(alloc, known, &length.least)?;
        elements.push(element)?;
    }
    Ok(elements)
}

/// The elements of group counts and arguments, from which those of lengths are found.
fn known_so_far<D: Domain>(alloc: Global, conditions: &Conditions) -> Result<Known<D>, WalkError>
    ensures { MatchResult result (λ k. elements_seen k [] [] ≡ launching.known_so_far D.Domain (conditions_seen conditions.now)) IsMemory }
{
    let groups = conditions.groups;
    let counts = three_of(
        alloc,
        of_count(groups.x),
        of_count(groups.y),
        of_count(groups.z),
    )?;
    let arguments = of_arguments(alloc, conditions.arguments.as_slice())?;
    Ok(Known {
        counts,
        arguments,
        lengths: Vec::new(alloc),
        locals: Vec::new(alloc),
        groups: Vec::new(alloc),
    })
}

/// The elements that the domain has of the symbols of each launch that meets the conditions, and of its items' ids.
pub fn known<D: Domain>(
    alloc: Global,
    sizes: [u32; 3],
    conditions: &Conditions,
) -> Result<Known<D>, WalkError>
    ensures { MatchResult result (λ k. known_seen k ≡ launching.known D.Domain (three sizes) (conditions_seen conditions.now)) IsMemory }
{
    let so_far = known_so_far::<D>(alloc, conditions)?;
    let lengths = of_lengths(alloc, &so_far, conditions.lengths.as_slice())?;
    let groups = conditions.groups;
    let locals = three_of(alloc, below(sizes[0]), below(sizes[1]), below(sizes[2]))?;
    let ids = three_of(
        alloc,
        below(groups.x.high),
        below(groups.y.high),
        below(groups.z.high),
    )?;
    Ok(Known {
        counts: so_far.counts,
        arguments: so_far.arguments,
        lengths,
        locals,
        groups: ids,
    })
}
