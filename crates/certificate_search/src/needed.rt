//! Guesses that something needs.

use crate::joining::Use;
use guesses::{Candidate, Line};
use std::alloc::{AllocError, Global};

/// Takes in the guesses that an entry uses; whether there was a new one.
fn mark(flags: &mut [bool], guesses: &[u32]) -> bool {
    let mut is_new = false;
    for guess in guesses {
        if let Some(flag) = flags.get_mut(*guess as usize) {
            if !*flag {
                *flag = true;
                is_new = true;
            }
        }
    }
    is_new
}

/// Marks the guesses used by entries that are of no guess, or of one that is needed, once through all entries; gives whether one is new.
fn pass(flags: &mut [bool], uses: &[Use]) -> bool {
    let mut is_new = false;
    for one in uses {
        let counts = match one.of {
            None => true,
            Some(guess) => flags.get(guess as usize).copied().unwrap_or(false),
        };
        if counts && mark(flags, one.guesses.as_slice()) {
            is_new = true;
        }
    }
    is_new
}

/// The guess may narrow elements: it is a fact in which some symbol stands once.
fn narrows(candidate: &Candidate) -> bool {
    match &candidate.line {
        Line::Fact(form) => form
            .terms()
            .iter()
            .any(|term| term.coefficient.unsigned_abs() == 1),
        Line::Same(_) | Line::Multiple { .. } | Line::MultipleOf { .. } => false,
    }
}

/// Of each guess, whether it is to stay whatever uses it: those that may narrow elements, where they are asked for.
fn kept_of(
    alloc: Global,
    candidates: &[Candidate],
    keeps_narrowing: bool,
) -> Result<Vec<bool>, AllocError> {
    let mut flags = Vec::new(alloc);
    for candidate in candidates {
        flags.push(keeps_narrowing && narrows(candidate))?;
    }
    Ok(flags)
}

/// The guesses that entries of other obligations use, and those that these rest on; also those that may narrow elements, where they are
/// asked for. Nothing where all are needed.
pub fn needed_only(
    alloc: Global,
    candidates: &[Candidate],
    uses: &[Use],
    keeps_narrowing: bool,
) -> Result<Option<Vec<Candidate>>, AllocError> {
    let mut flags = kept_of(alloc, candidates, keeps_narrowing)?;
    for _ in 0..candidates.len().saturating_add(1) {
        if !pass(flags.as_mut_slice(), uses) {
            break;
        }
    }
    if !flags.as_slice().contains(&false) {
        return Ok(None);
    }
    let mut kept = Vec::new(alloc);
    for i in 0..candidates.len() {
        if flags.get(i).copied().unwrap_or(false) {
            let candidate = &candidates[i];
            kept.push(Candidate {
                anchor: candidate.anchor,
                head: candidate.head,
                rank: candidate.rank,
                line: candidate.line.copy(alloc)?,
            })?;
        }
    }
    Ok(Some(kept))
}
