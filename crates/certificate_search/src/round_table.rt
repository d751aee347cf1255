//! What the guesses of a round rest on, settled on the board.

use houdini::{SettleError, settle as settle_board};
use std::alloc::{AllocError, Global};
use std::thread::Threads;
use supports::{Set, SupportError, Supports};
use words::Open;

/// An obligation of a guess: the guesses that suffice for it, if something was found.
#[derive(Drop)]
pub struct Demand {
    pub guess: u32,
    pub support: Option<Vec<u32>>,
}

/// The obligations of one guess, each with the sets of guesses that suffice for it.
fn lists_of(
    alloc: Global,
    guess: u32,
    demands: &[Demand],
) -> Result<Vec<Vec<Vec<u32>>>, AllocError> {
    let mut lists = Vec::new(alloc);
    for demand in demands {
        if demand.guess != guess {
            continue;
        }
        let mut sets = Vec::new(alloc);
        if let Some(support) = &demand.support {
            let set = Vec::from_slice(alloc, support.as_slice())?;
            sets.push(set)?;
        }
        lists.push(sets)?;
    }
    Ok(lists)
}

/// The table of so many guesses, 512 at most.
pub fn supports_of(
    alloc: Global,
    count: u32,
    demands: &[Demand],
) -> Result<Option<Supports>, AllocError> {
    let mut all = Vec::new(alloc);
    for guess in 0..count {
        let lists = lists_of(alloc, guess, demands)?;
        all.push(lists)?;
    }
    let found = all.len();
    if found > 512 {
        return Ok(None);
    }
    match Supports::of(alloc, found as u32, all) {
        Ok(supports) => Ok(Some(supports)),
        Err(SupportError::Memory) => Err(AllocError),
    }
}

/// The reasons for which a board is not settled.
#[derive(Clone, Copy)]
pub enum BoardError {
    Workers,
    Memory,
}

/// The greatest set of guesses that support one another, found by so many workers; none of more than 512.
pub fn greatest<R: Threads + Sync>(
    rt: &R,
    alloc: Global,
    count: u32,
    demands: &[Demand],
    workers: u32,
) -> Result<Set, BoardError> {
    let supports = match supports_of(alloc, count, demands) {
        Ok(Some(supports)) => supports,
        Ok(None) => return Ok(Set::empty()),
        Err(AllocError) => return Err(BoardError::Memory),
    };
    match settle_board(rt, alloc, &supports, workers, &Open) {
        Ok(set) => Ok(set),
        Err(SettleError::Workers) => Err(BoardError::Workers),
        Err(SettleError::Memory) => Err(BoardError::Memory),
    }
}
