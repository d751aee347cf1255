//! The runs of a kernel.

use crate::holding::spans_of;
use crate::item::Triple;
use crate::launching::launches;
use crate::random::Random;
use crate::seen::{Arrival, Observed};
use crate::solo::{Solo, run_all};
use core_code::tree::Core;
use guesses::{Ranking, Sight};
use launch::conditions::{Conditions, Content};
use launch::launches::{Counts, Launch};
use std::alloc::{AllocError, Global};
use std::mem::replace;
use words::Word;

/// The last number below each, or 0.
fn corner(ends: Triple, last: bool) -> Triple {
    if !last {
        return [0, 0, 0];
    }
    let [x, y, z] = ends;
    [
        x.saturating_sub(1),
        y.saturating_sub(1),
        z.saturating_sub(1),
    ]
}

fn one_below(random: &mut Random, end: u32) -> u32 {
    let found = random.below(end as u64);
    u32::try_from(found).unwrap_or(0)
}

/// A triple of random numbers, each below one of the ends.
fn anywhere(random: &mut Random, ends: Triple) -> Triple {
    let [x, y, z] = ends;
    let x = one_below(random, x);
    let y = one_below(random, y);
    let z = one_below(random, z);
    [x, y, z]
}

/// Runs one item, and answers at which barriers it came.
fn run_item(
    solo: &mut Solo<'_>,
    group: Triple,
    local: Triple,
    arguments: &[Word],
) -> Result<Vec<Arrival>, AllocError> {
    solo.enter(group, local, arguments)?;
    let core = solo.item.core;
    let _flow = run_all(solo, core.body.as_slice())?;
    let none = Vec::new(solo.alloc);
    Ok(replace(&mut solo.arrivals, none))
}

/// Runs two items of the first or the last group.
fn run_pair(solo: &mut Solo<'_>, last: bool, arguments: &[Word]) -> Result<(), AllocError> {
    let group = corner(solo.item.counts, last);
    let sizes = solo.item.core.sizes;
    let left = run_item(solo, group, corner(sizes, last), arguments)?;
    let local = anywhere(&mut solo.item.random, sizes);
    let right = run_item(solo, group, local, arguments)?;
    solo.seen.compare(left.as_slice(), right.as_slice())
}

fn run_launch(
    solo: &mut Solo<'_>,
    contents: &[Content],
    launch: &Launch,
) -> Result<(), AllocError> {
    let Counts { x, y, z } = launch.groups;
    solo.item.counts = [x, y, z];
    solo.item.spans = spans_of(solo.alloc, solo.item.core, contents, launch)?;
    run_pair(solo, true, launch.arguments.as_slice())?;
    run_pair(solo, false, launch.arguments.as_slice())
}

/// Runs a kernel's items under a few launches: two of the first group and two of the last one. Of each loop there is one ranking at most,
/// whose form is over variables, arguments and what else stays as it is in a run.
pub fn observe<'a>(
    alloc: Global,
    core: &'a Core,
    conditions: &Conditions,
    sights: &'a [Sight],
    rankings: &'a [Ranking],
) -> Result<Observed, AllocError> {
    let mut random = Random::new();
    let launches = launches(alloc, conditions, &mut random)?;
    let mut solo = Solo::new(alloc, core, sights, rankings, random)?;
    for launch in launches.iter() {
        run_launch(&mut solo, conditions.contents.as_slice(), launch)?;
    }
    let none = Observed::new(alloc, &[])?;
    Ok(replace(&mut solo.seen, none))
}
