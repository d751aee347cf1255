//! Which guesses are settled: at most 512 at a time.

use candidates::LAST_TRIES;
use guess_walk::may_be_said;
use guesses::{Candidate, Line};
use linear::Form;
use solo_runs::Observed;
use std::alloc::{AllocError, Global};

/// The most guesses of a board.
pub const MOST: usize = 512;

/// The highest rank of a guess.
const LAST: u32 = LAST_TRIES;

/// Two guesses bound the same terms at one place, and the first one's bound is tighter.
fn is_tighter(one: &Candidate, than: &Candidate) -> bool {
    if one.anchor != than.anchor || one.head != than.head {
        return false;
    }
    match (&one.line, &than.line) {
        (Line::Fact(left), Line::Fact(right)) => is_lower(left, right),
        _ => false,
    }
}

fn is_lower(left: &Form, right: &Form) -> bool {
    left.constant_part() < right.constant_part() && left.terms() == right.terms()
}

/// Three tighter bounds of the same terms are there. Those that paths tell stay.
fn is_spare(all: &[Candidate], candidate: &Candidate) -> bool {
    if candidate.rank <= 1 {
        return false;
    }
    let mut tighter = 0;
    for other in all {
        if tighter < 3 && is_tighter(other, candidate) {
            tighter += 1;
        }
    }
    tighter >= 3
}

/// The guesses of the ranks up to one that may be said in a certificate and that no run refutes.
pub fn unrefuted(
    alloc: Global,
    candidates: Vec<Candidate>,
    observed: &Observed,
    rank: u32,
) -> Result<Vec<Candidate>, AllocError> {
    let mut kept = Vec::new(alloc);
    for candidate in candidates {
        if candidate.rank <= rank && may_be_said(&candidate) && !observed.refutes(&candidate) {
            kept.push(candidate)?;
        }
    }
    Ok(kept)
}

/// Of each candidate, whether it is spare: tighter bounds of the same terms are there.
fn spare_of(alloc: Global, candidates: &[Candidate]) -> Result<Vec<bool>, AllocError> {
    let mut flags = Vec::new(alloc);
    for candidate in candidates {
        flags.push(is_spare(candidates, candidate))?;
    }
    Ok(flags)
}

/// The guesses without those that tighter ones make needless.
pub fn without_spare(
    alloc: Global,
    candidates: Vec<Candidate>,
) -> Result<Vec<Candidate>, AllocError> {
    let spare = spare_of(alloc, candidates.as_slice())?;
    let mut kept = Vec::new(alloc);
    let mut number: usize = 0;
    for candidate in candidates {
        if !spare.get(number).copied().unwrap_or(true) {
            kept.push(candidate)?;
        }
        number = number.saturating_add(1);
    }
    Ok(kept)
}

/// Guesses for which there is room, and those for which there is none.
#[derive(Drop)]
pub struct Picked {
    pub first: Vec<Candidate>,
    pub later: Vec<Candidate>,
}

/// For each candidate, whether it is picked: rank by rank, as long as there is room.
fn picked_of(
    alloc: Global,
    candidates: &[Candidate],
    room: usize,
) -> Result<Vec<bool>, AllocError> {
    let mut flags = vec![in alloc; false; candidates.len()]?;
    let mut count: usize = 0;
    for rank in 0..LAST + 1 {
        for i in 0..candidates.len() {
            if candidates[i].rank == rank && count < room {
                if let Some(flag) = flags.get_mut(i) {
                    *flag = true;
                    count += 1;
                }
            }
        }
    }
    Ok(flags)
}

/// The first of them by rank, as many as there is room for, and the others; both in their order.
pub fn pick(alloc: Global, candidates: Vec<Candidate>, room: usize) -> Result<Picked, AllocError> {
    let flags = picked_of(alloc, candidates.as_slice(), room)?;
    let mut first = Vec::new(alloc);
    let mut later = Vec::new(alloc);
    let mut number: usize = 0;
    for candidate in candidates {
        if flags.get(number).copied().unwrap_or(false) {
            first.push(candidate)?;
        } else {
            later.push(candidate)?;
        }
        number = number.saturating_add(1);
    }
    Ok(Picked { first, later })
}
