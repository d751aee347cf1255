//! The launches under which work-items run: the least one, the greatest one, two with the ends of the arguments' ranges in turn, as a loop
//! from one argument to the next has its most turns, and mixed ones, if they meet the conditions.

use crate::random::Random;
use launch::conditions::{ArgumentRange, Conditions, CountRange, Length};
use launch::launches::{Buffers, Counts, Launch};
use launch::meets::requirements_meet;
use launch::values::sum_of;
use std::alloc::{AllocError, Global};
use words::Word;

/// The most launches under which work-items run.
const LAUNCHES: usize = 6;

/// The number of launches that are tried at most for the mixed ones.
const TRIES: u32 = 16;

/// The most elements that a buffer has.
const LONGEST: u128 = 0xffff_ffff;

fn mixed(random: &mut Random, low: i64, high: i64) -> i64 {
    match random.below(4) {
        0 => low,
        1 => high,
        2 => {
            let step = random.between(1, 8);
            let near = low.saturating_add(step);
            if near < high { near } else { high }
        }
        _ => random.between(low, high),
    }
}

/// A number of a range: the first try takes the low ends, the second one the high ends.
fn picked(random: &mut Random, attempt: u32, low: i64, high: i64) -> i64 {
    match attempt {
        0 => low,
        1 => high,
        _ => mixed(random, low, high),
    }
}

fn count_of(random: &mut Random, attempt: u32, range: CountRange) -> u32 {
    let count = picked(random, attempt, range.low as i64, range.high as i64);
    u32::try_from(count).unwrap_or(range.low)
}

fn argument_of(random: &mut Random, attempt: u32, range: &ArgumentRange) -> Word {
    let low = range.low;
    let value = picked(random, attempt, low.value(), range.high.value());
    match low {
        Word::Int(least) => Word::Int(i32::try_from(value).unwrap_or(least)),
        Word::Uint(least) => Word::Uint(u32::try_from(value).unwrap_or(least)),
        Word::Size(least) => Word::Size(u32::try_from(value).unwrap_or(least)),
    }
}

/// The try whose ends the argument at that place takes: the third and the fourth try take low ends and high ends in turn.
fn turned(attempt: u32, place: u32) -> u32 {
    match attempt {
        2 => place & 1,
        3 => (place & 1) ^ 1,
        _ => attempt,
    }
}

fn counts_of(random: &mut Random, attempt: u32, conditions: &Conditions) -> Counts {
    let groups = conditions.groups;
    let x = count_of(random, attempt, groups.x);
    let y = count_of(random, attempt, groups.y);
    let z = count_of(random, attempt, groups.z);
    Counts { x, y, z }
}

fn tried(
    alloc: Global,
    random: &mut Random,
    attempt: u32,
    conditions: &Conditions,
) -> Result<Launch, AllocError> {
    let groups = counts_of(random, attempt, conditions);
    let mut arguments = Vec::new(alloc);
    for (place, range) in (0u32..).zip(conditions.arguments.iter()) {
        arguments.push(argument_of(random, turned(attempt, place), range))?;
    }
    Ok(Launch {
        groups,
        arguments,
        buffers: Buffers {
            words: Vec::new(alloc),
        },
        fill: 0,
    })
}

fn are_short(launch: &Launch, lengths: &[Length]) -> bool {
    for length in lengths {
        if sum_of(launch, &length.least).above_zero() > LONGEST {
            return false;
        }
    }
    true
}

fn is_possible(launch: &Launch, conditions: &Conditions) -> bool {
    are_short(launch, conditions.lengths.as_slice())
        && requirements_meet(launch, conditions.requirements.as_slice()).is_ok()
}

/// The launches, without buffers.
pub fn launches(
    alloc: Global,
    conditions: &Conditions,
    random: &mut Random,
) -> Result<Vec<Launch>, AllocError> {
    let mut found = Vec::new(alloc);
    for attempt in 0..TRIES {
        let launch = tried(alloc, random, attempt, conditions)?;
        if found.len() < LAUNCHES && is_possible(&launch, conditions) {
            found.push(launch)?;
        }
    }
    Ok(found)
}
