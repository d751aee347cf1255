//! A hopeful walk, and what it tells.

use crate::limits::UNLIMITED;
use cut_search::Memory;
use facts::copy_all;
use guess_walk::{
    Begun, Extent, Limits, Names, Request, Subject, Trust, Walked, begun_of, certificate_of,
    leaves_of, resolve, sights_of,
};
use guesses::{Leaf, Ranking, Sight, copied};
use linear::Form;
use std::alloc::{AllocError, Global};
use std::thread::Threads;
use walk::FindError;
use words::Kind;

/// The places of a kernel, the ends of the paths of a hopeful walk, what all know of a launch and an item, and which slots are unsigned.
#[derive(Drop)]
pub struct Hoped {
    pub sights: Vec<Sight>,
    pub leaves: Vec<Leaf>,
    pub known: Vec<Form>,
    pub unsigned: Vec<bool>,
}

/// The limits of loops that have none, one for each ranking.
pub fn unlimited(alloc: Global, rankings: &[Ranking]) -> Result<Vec<i64>, AllocError> {
    let limits = vec![in alloc; UNLIMITED; rankings.len()]?;
    Ok(limits)
}

/// The facts that hold of each launch and item: those of the launch, and those with which the paths from the entry begin.
fn known_of(alloc: Global, walked: &Walked, begun: &[Begun]) -> Result<Vec<Form>, FindError> {
    let mut known = Vec::new(alloc);
    for fact in walked.found.launch() {
        known.push(copied(alloc, fact)?)?;
    }
    let Some(entry) = begun.first() else {
        return Ok(known);
    };
    if let Some(first) = walked.found.paths().first() {
        let facts = first.path.facts.as_slice();
        let count = entry.facts.min(facts.len());
        copy_all(alloc, &mut known, &facts[..count])?;
    }
    Ok(known)
}

/// Of each slot, whether its variable is a `uint`.
fn unsigned_of(alloc: Global, subject: &Subject<'_>) -> Result<Vec<bool>, AllocError> {
    let core = subject.typed.core();
    let mut unsigned = Vec::new(alloc);
    for kind in core.arguments.as_slice() {
        unsigned.push(*kind == Kind::Uint)?;
    }
    for kind in core.variables.as_slice() {
        unsigned.push(*kind == Kind::Uint)?;
    }
    Ok(unsigned)
}

/// A walk without guesses in which each small range is hoped for.
fn walked<R: Threads + Sync>(
    rt: &R,
    alloc: Global,
    workers: u32,
    subject: &Subject<'_>,
    names: &Names<'_>,
    rankings: &[Ranking],
    memory: &mut Memory,
) -> Result<Option<Walked>, FindError> {
    let most = unlimited(alloc, rankings)?;
    let limits = Limits {
        rankings,
        most: most.as_slice(),
    };
    let entries = Vec::new(alloc);
    let certificate = certificate_of(alloc, subject, names, &[], limits, entries)?;
    match certificate {
        Some(certificate) => {
            let request = Request {
                trust: Trust::Hopeful,
                extent: Extent::Claims,
                workers,
            };
            resolve(rt, alloc, subject, &certificate, request, memory)
        }
        None => Ok(None),
    }
}

/// The places, ends of paths and facts of a walk, as guesses need them.
fn told_by(alloc: Global, subject: &Subject<'_>, walked: &Walked) -> Result<Hoped, FindError> {
    let sights = sights_of(alloc, subject, &walked.notes)?;
    let begun = begun_of(alloc, subject, &walked.notes, sights.as_slice())?;
    let leaves = leaves_of(alloc, walked, sights.as_slice(), begun.as_slice())?;
    let known = known_of(alloc, walked, begun.as_slice())?;
    let unsigned = unsigned_of(alloc, subject)?;
    Ok(Hoped {
        sights,
        leaves,
        known,
        unsigned,
    })
}

/// The places, ends of paths and facts of a hopeful walk with these rankings; none where the rankings have no text.
pub fn hope<R: Threads + Sync>(
    rt: &R,
    alloc: Global,
    workers: u32,
    subject: &Subject<'_>,
    names: &Names<'_>,
    rankings: &[Ranking],
    memory: &mut Memory,
) -> Result<Option<Hoped>, FindError> {
    match walked(rt, alloc, workers, subject, names, rankings, memory)? {
        Some(walked) => Ok(Some(told_by(alloc, subject, &walked)?)),
        None => Ok(None),
    }
}
