//! Stretches of obligations, which are asked side by side in batches. Neither the stretches nor the batches depend on the number of
//! workers.

use domain::Elements;
use std::alloc::{AllocError, Global};
use two_thread::{Obligations, Part};

/// Obligations one after the other: their numbers less one, from the first one up to the end.
#[derive(Clone, Copy)]
pub struct Stretch {
    pub first: usize,
    pub end: usize,
}

/// The most pairs of a stretch.
const PAIRS: usize = 64;

/// The most stretches of a batch.
const BATCH: usize = 16;

/// The path of a claim; none of a pair.
fn path_at(found: &Obligations<Elements>, place: usize) -> Option<usize> {
    if place >= found.len() {
        return None;
    }
    match found.part(place + 1) {
        Part::Claim(at) => Some(at.path),
        Part::Ends { .. } | Part::Accesses { .. } => None,
    }
}

/// All obligations behind so many in stretches: the claims of each path, then so many pairs each.
pub fn stretches_behind(
    alloc: Global,
    found: &Obligations<Elements>,
    seen: usize,
) -> Result<Vec<Stretch>, AllocError> {
    let mut all: Vec<Stretch> = Vec::new(alloc);
    let mut first = seen;
    let mut path: Option<usize> = None;
    for place in seen..found.len() {
        let own = path_at(found, place);
        let is_full = own.is_none() && place.saturating_sub(first) >= PAIRS;
        if (own != path || is_full) && place > first {
            all.push(Stretch { first, end: place })?;
            first = place;
        }
        path = own;
    }
    if first < found.len() {
        all.push(Stretch {
            first,
            end: found.len(),
        })?;
    }
    Ok(all)
}

/// The number of obligations that are left where a batch begins.
pub fn left_behind(found: &Obligations<Elements>, batch: &[Stretch]) -> usize {
    match batch.first() {
        Some(first) => found.len().saturating_sub(first.first),
        None => 0,
    }
}

/// The sizes of batches: the first ones are small, so that what they find is known to those behind them.
#[derive(Clone, Copy)]
pub struct BatchSizes {
    size: usize,
}

impl BatchSizes {
    pub fn new() -> BatchSizes {
        BatchSizes { size: 1 }
    }

    /// The next batch behind so many stretches; empty where none is left.
    pub fn next_of<'a>(&mut self, all: &'a [Stretch], begun: usize) -> &'a [Stretch] {
        let first = begun.min(all.len());
        let left = &all[first..];
        let count = self.size.min(left.len());
        self.size = self.size.saturating_mul(2).min(BATCH);
        &left[..count]
    }
}

/// The fewest stretches of a batch that one worker takes, so that no more than so many are at work at once.
pub fn least_piece(count: usize, workers: u32) -> usize {
    let workers = (workers as usize).max(1);
    let more = count.saturating_add(workers).saturating_sub(1);
    (more / workers).max(1)
}
