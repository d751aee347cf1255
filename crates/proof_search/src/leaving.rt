//! What a search leaves unshown, for whoever explains a refusal.

ghost use Rattle.std.specs.Prelude.{◌≡◌, true};
ghost use Rattle.core_code.specs.View.{kernel as core_seen};
ghost use Rattle.facts.specs.Launching.{are_sizes};

use crate::shortfall::suspects_of;
use crate::widening::is_over;
use certificate_search::{Missing, SearchError, Watcher, search};
use diagnostics::Finding;
use facts::WalkError;
use guess_walk::Subject;
use kernel_reading::laws::local_sizes_are_within_limits;
use kernel_reading::{Source, read_source};
use launch::conditions::Conditions;
use launch_text::read_conditions_as;
use places::{PlaceError, places};
use std::alloc::{AllocError, Global};
use std::thread::Threads;
use typed_kernels::Typed;
use walk::FindError;

/// With so many obligations that are not shown a search tells of no more, or of no more than so many findings.
const OBLIGATIONS: usize = 32;

const FINDINGS: usize = 16;

/// The findings that a search leaves, none where it finds a certificate; whether these are all, and whether the
/// certificate passes the budget.
#[derive(Drop)]
pub struct Left {
    pub findings: Vec<Finding>,
    pub is_whole: bool,
    pub is_over: bool,
}

/// The number of want of memory.
const MEMORY: u8 = 90;

/// The findings of obligations that are not shown; none where they have no findings.
fn left_of(alloc: Global, typed: &Typed, missing: &[Missing]) -> Result<Option<Left>, AllocError> {
    let findings = suspects_of(alloc, typed, missing)?;
    if findings.is_empty() {
        return Ok(None);
    }
    let is_whole = missing.len() < OBLIGATIONS && findings.len() < FINDINGS;
    Ok(Some(Left {
        findings,
        is_whole,
        is_over: false,
    }))
}

/// Nothing, or want of memory, where that is the number.
fn nothing(number: u8) -> Result<Option<Left>, AllocError> {
    if number == MEMORY {
        Err(AllocError)
    } else {
        Ok(None)
    }
}

/// The findings that a search leaves where it finds no certificate.
fn left_by_error(
    alloc: Global,
    typed: &Typed,
    error: SearchError,
) -> Result<Option<Left>, AllocError> {
    match error {
        SearchError::NotShown(missing) => left_of(alloc, typed, missing.as_slice()),
        SearchError::Walk(FindError::Walk(WalkError::Memory)) => Err(AllocError),
        SearchError::Walk(_) | SearchError::Unsaid | SearchError::Workers => Ok(None),
    }
}

/// The findings that a search of a kernel under conditions leaves.
fn left_under<R: Threads + Sync, W: Watcher>(
    rt: &R,
    alloc: Global,
    typed: &Typed,
    conditions: &Conditions,
    is_wide: bool,
    watcher: &W,
) -> Result<Option<Left>, AllocError>
    requires sizes { are_sizes (core_seen typed.now.1).sizes ≡ true }
{
    let places = match places(alloc, typed.core()) {
        Ok(places) => places,
        Err(PlaceError::Missed(_)) => return Ok(None),
        Err(PlaceError::Memory) => return Err(AllocError),
    };
    let subject = Subject {
        typed,
        conditions,
        places: places.as_slice(),
        is_wide,
        joins: false,
    };
    match search(rt, alloc, subject, 1, watcher) {
        Ok(certificate) => Ok(Some(Left {
            findings: Vec::new(alloc),
            is_whole: true,
            is_over: is_over(alloc, &subject, &certificate),
        })),
        Err(error) => left_by_error(alloc, typed, error),
    }
}

/// Searches with one worker, by the wide walk or the narrow one, for a kernel under conditions, each by its text. The
/// answer is possible findings, or no finding where there is a certificate. It is none where the texts are refused, or
/// the search comes to something else.
pub fn left_by<R: Threads + Sync, W: Watcher>(
    rt: &R,
    alloc: Global,
    kernel: Source<'_>,
    conditions: &[u8],
    is_wide: bool,
    watcher: &W,
) -> Result<Option<Left>, AllocError> {
    let typed = match read_source(alloc, kernel) {
        Ok(typed) => typed,
        Err(error) => return nothing(error.number()),
    };
    let conditions = match read_conditions_as(alloc, &typed, conditions, is_wide) {
        Ok(conditions) => conditions,
        Err(error) => return nothing(error.number()),
    };
    local_sizes_are_within_limits();
    left_under(rt, alloc, &typed, &conditions, is_wide, watcher)
}
