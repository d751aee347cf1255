//! A kernel's places, walked as the check walks them.

use crate::declared_names::Names;
use crate::loop_part::bound_of;
use crate::noted::Noted;
use crate::place_parts::places_of;
use crate::subject::Subject;
use certificate::Certificate;
use certificate::tree::{Bound, Entry};
use domain::Elements;
use guesses::{Candidate, Ranking};
use obligations::Notes;
use std::alloc::{AllocError, Global};
use std::thread::Threads;
use two_thread::Obligations;
use walk::FindError;

/// The notes of a kernel's places and loops, and the obligations that a walk with these notes has.
#[derive(Drop)]
pub struct Walked {
    pub notes: Notes,
    pub found: Obligations<Elements>,
}

/// The rankings of loops, and by their places among them what their forms are at most.
#[derive(Clone, Copy)]
pub struct Limits<'a> {
    pub rankings: &'a [Ranking],
    pub most: &'a [i64],
}

/// How loops end, each with what its form is at most.
fn bounds_of(
    alloc: Global,
    names: &Names<'_>,
    limits: Limits<'_>,
) -> Result<Vec<Bound>, AllocError> {
    let Limits { rankings, most } = limits;
    let mut bounds = Vec::new(alloc);
    for i in 0..rankings.len() {
        let limit = most.get(i).copied().unwrap_or(0);
        let Some(bound) = bound_of(alloc, names, &rankings[i], limit)? else {
            continue;
        };
        bounds.push(bound)?;
    }
    Ok(bounds)
}

/// Guesses as a certificate of the subject's walk; nothing where the format has no text for them.
pub fn certificate_of(
    alloc: Global,
    subject: &Subject<'_>,
    names: &Names<'_>,
    candidates: &[Candidate],
    limits: Limits<'_>,
    entries: Vec<Entry>,
) -> Result<Option<Certificate>, AllocError> {
    let bounds = bounds_of(alloc, names, limits)?;
    let places = places_of(alloc, names, candidates)?;
    if subject.is_wide {
        Certificate::new_wide(alloc, subject.joins, places, bounds, entries)
    } else {
        Certificate::new(alloc, places, bounds, entries)
    }
}

/// The claims of a kernel's places with a certificate, where the obligations that are flagged have an entry; nothing where the kernel lacks
/// what the certificate names, or has no places. Pairs of ends and of accesses are not among them.
pub fn walk<R: Threads + Sync>(
    rt: &R,
    alloc: Global,
    workers: u32,
    subject: &Subject<'_>,
    certificate: &Certificate,
    flags: &[bool],
) -> Result<Option<Walked>, FindError> {
    let Some(noted) = Noted::of(alloc, subject, certificate)? else {
        return Ok(None);
    };
    let claims = noted.claims(rt, alloc, workers, subject.conditions, flags, None)?;
    Ok(Some(noted.with(claims)))
}

/// The extent of the obligations that are asked for: the claims, or the pairs of ends with them.
#[derive(Clone, Copy, PartialEq, Eq)]
pub enum Extent {
    Claims,
    Ends,
}

/// The obligations of a walk that found the claims alone, with all that is asked for.
pub fn extended(alloc: Global, walked: Walked, extent: Extent) -> Result<Walked, FindError> {
    let Walked { notes, found } = walked;
    match extent {
        Extent::Claims => Ok(Walked { notes, found }),
        Extent::Ends => {
            let found = found.with_meetings(alloc)?;
            Ok(Walked { notes, found })
        }
    }
}

/// The obligations of a walk that found claims and pairs of ends, with the pairs of accesses.
pub fn with_accesses(
    alloc: Global,
    subject: &Subject<'_>,
    walked: Walked,
) -> Result<Walked, FindError> {
    let Walked { notes, found } = walked;
    let found = found.with_crossings(alloc, subject.typed.core(), subject.conditions)?;
    Ok(Walked { notes, found })
}
