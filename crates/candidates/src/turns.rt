//! By how much variables step along the paths of a loop's turns, where that is not one number but is bounded.

use crate::courses::grown;
use crate::reach::{Reach, reach_of};
use crate::single_values::{Given, settled};
use guesses::{Leaf, Sight, one_of, try_difference, variable};
use linear::Form;
use std::alloc::{AllocError, Global};

/// A variable that steps by one number in each turn, and that number, which is not 0.
#[derive(Clone, Copy)]
pub struct Counter {
    pub slot: u32,
    pub stride: i64,
}

/// The form by which a variable steps along a path; none where its value there does not hold it once.
fn step_on(
    alloc: Global,
    sight: &Sight,
    leaf: &Leaf,
    slot: u32,
    values: &[Given],
) -> Result<Option<Form>, AllocError> {
    let Some(value) = grown(sight, leaf, slot) else {
        return Ok(None);
    };
    let own = one_of(alloc, variable(slot))?;
    match try_difference(alloc, value, &own)? {
        Some(step) => settled(alloc, &step, values),
        None => Ok(None),
    }
}

/// The least and the greatest step of a variable along a path; none where the path has no bounds for it.
fn reach_on(
    alloc: Global,
    sight: &Sight,
    leaf: &Leaf,
    slot: u32,
    values: &[Given],
) -> Result<Option<Reach>, AllocError> {
    match step_on(alloc, sight, leaf, slot, values)? {
        Some(step) => reach_of(alloc, leaf.facts.as_slice(), &step),
        None => Ok(None),
    }
}

/// The end nearer to 0 of a step that is no number, where some facts hold and if they say that it is not 0.
fn sure_end(alloc: Global, facts: &[Form], step: &Form) -> Result<Option<i64>, AllocError> {
    if step.terms().is_empty() {
        return Ok(None);
    }
    match reach_of(alloc, facts, step)? {
        Some(reach) if reach.low >= 1 => Ok(Some(reach.low)),
        Some(reach) if reach.high <= -1 => Ok(Some(reach.high)),
        _ => Ok(None),
    }
}

/// By how much variables step at least, by their slots, where that is no number along a path: as `get_global_size(0)`, of which the
/// conditions have the least value.
pub fn sure_steps(
    alloc: Global,
    sights: &[Sight],
    leaves: &[Leaf],
    values: &[Given],
    known: &[Form],
) -> Result<Vec<(u32, i64)>, AllocError> {
    let mut out = Vec::new(alloc);
    for leaf in leaves {
        let Some(sight) = sights.get(leaf.from) else {
            return Ok(out);
        };
        for slot in sight.slots.iter() {
            if let Some(step) = step_on(alloc, sight, leaf, *slot, values)? {
                if let Some(end) = sure_end(alloc, known, &step)? {
                    out.push((*slot, end))?;
                }
            }
        }
    }
    Ok(out)
}

/// The turns of a place, and what is known of them.
#[derive(Clone, Copy)]
pub struct Turns<'a> {
    pub place: usize,
    pub sight: &'a Sight,
    pub leaves: &'a [Leaf],
    pub values: &'a [Given],
}

/// The least values that hold both the one before, if there was one, and this one.
fn joined(all: Option<Reach>, one: Reach) -> Option<Reach> {
    match all {
        Some(other) => Some(other.join(one)),
        None => Some(one),
    }
}

impl Turns<'_> {
    /// The least and the greatest step of a variable on any path from here to a place; none where a path has no bounds for it.
    fn reach_to(self, alloc: Global, place: usize, slot: u32) -> Result<Option<Reach>, AllocError> {
        let mut all: Option<Reach> = None;
        for leaf in self.leaves {
            if leaf.from == self.place && leaf.to == place {
                let Some(one) = reach_on(alloc, self.sight, leaf, slot, self.values)? else {
                    return Ok(None);
                };
                all = joined(all, one);
            }
        }
        Ok(all)
    }

    /// The least and the greatest step of a variable in any of the turns; none where a turn has no bounds for it.
    pub fn reach(self, alloc: Global, slot: u32) -> Result<Option<Reach>, AllocError> {
        self.reach_to(alloc, self.place, slot)
    }

    /// The one number, not 0, by which a variable steps on each path from here to a place.
    pub fn stride_to(
        self,
        alloc: Global,
        place: usize,
        slot: u32,
    ) -> Result<Option<i64>, AllocError> {
        match self.reach_to(alloc, place, slot)? {
            Some(reach) if reach.low == reach.high && reach.low != 0 => Ok(Some(reach.low)),
            _ => Ok(None),
        }
    }

    /// A variable stays as it is on each path from here to a place.
    pub fn keeps(self, alloc: Global, place: usize, slot: u32) -> Result<bool, AllocError> {
        match self.reach_to(alloc, place, slot)? {
            Some(reach) => Ok(reach.low == 0 && reach.high == 0),
            None => Ok(false),
        }
    }

    /// The values of a variable where a turn is made, as far as single facts say on each path of a turn; none where an end is open.
    pub fn values_in(self, alloc: Global, slot: u32) -> Result<Option<Reach>, AllocError> {
        let own = one_of(alloc, variable(slot))?;
        let mut all: Option<Reach> = None;
        for leaf in self.leaves {
            if leaf.from == self.place && leaf.to == self.place {
                let Some(one) = reach_of(alloc, leaf.facts.as_slice(), &own)? else {
                    return Ok(None);
                };
                all = joined(all, one);
            }
        }
        Ok(all)
    }

    /// The first variable that steps by one number in all turns.
    pub fn counter(self, alloc: Global) -> Result<Option<Counter>, AllocError> {
        for slot in self.sight.slots.iter() {
            if let Some(stride) = self.stride_to(alloc, self.place, *slot)? {
                return Ok(Some(Counter {
                    slot: *slot,
                    stride,
                }));
            }
        }
        Ok(None)
    }
}
