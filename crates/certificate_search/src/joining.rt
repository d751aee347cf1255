//! A certificate of guesses that stand.

use crate::entries::{Outcome, Proof, proofs_of};
use crate::missing::{Mark, Missing, missing_of};
use crate::progress::{Course, Watcher};
use crate::stretches::{BatchSizes, Stretch, least_piece, left_behind, stretches_behind};
use crate::used::Origins;
use certificate::Certificate;
use certificate::tree::Entry;
use cut_search::{Memory, Questions};
use guess_walk::{
    Extent, Limits, LineTable, Names, Request, Subject, Trust, Walked, begun_of, certificate_of,
    places_of_paths, resolve, with_accesses,
};
use guesses::{Candidate, Ranking, Sight};
use rayon::prelude::*;
use std::alloc::{AllocError, Global};
use std::thread::Threads;
use walk::FindError;

/// The kernel, the names, the places, and the loops' rankings with their limits, of which a certificate is made; the course of the search,
/// and the fewest claims and pairs of ends that an attempt so far did not show.
#[derive(Drop)]
pub struct Plan<'a, W> {
    pub subject: Subject<'a>,
    pub names: &'a Names<'a>,
    pub sights: &'a [Sight],
    pub rankings: &'a [Ranking],
    pub limits: &'a [i64],
    pub course: &'a Course<'a, W>,
    pub fewest: usize,
}

/// The guess that an entry is of, if it is of one, and the guesses that its derivation uses.
#[derive(Drop)]
pub struct Use {
    pub of: Option<u32>,
    pub guesses: Vec<u32>,
}

/// The entries of a certificate, what they use, what nothing shows, and the loops whose ranking is among that; how many obligations were
/// looked at, and whether these are all.
#[derive(Drop)]
pub struct Assembled {
    pub entries: Vec<Entry>,
    pub uses: Vec<Use>,
    pub missing: Vec<Missing>,
    pub loops: Vec<u32>,
    pub is_whole: bool,
    seen: usize,
}

/// An obligation of that sort about the same parts of the kernel is among these, which are not shown. Then nobody asks for this one: a
/// certificate is not made any more, and what is told of it is told already.
fn is_among(missed: &[Missing], missing: Missing) -> bool {
    missed.iter().any(|other| other.is_like(&missing))
}

impl Assembled {
    fn new(alloc: Global) -> Assembled {
        Assembled {
            entries: Vec::new(alloc),
            uses: Vec::new(alloc),
            missing: Vec::new(alloc),
            loops: Vec::new(alloc),
            is_whole: false,
            seen: 0,
        }
    }

    /// Takes up what was found for the next obligations: their entries, and what nothing shows. What has no text is not shown.
    fn take(
        &mut self,
        alloc: Global,
        names: &Names<'_>,
        proofs: Vec<Proof>,
        missing: Vec<Missing>,
    ) -> Result<(), AllocError> {
        for proof in proofs {
            match proof.entry(alloc, names)? {
                Some(entry) => self.add(entry, proof)?,
                None => self.miss_new(proof.about)?,
            }
        }
        for one in missing {
            self.miss_new(one)?;
        }
        Ok(())
    }

    fn add(&mut self, entry: Entry, proof: Proof) -> Result<(), AllocError> {
        let Proof { of, used, .. } = proof;
        self.entries.push(entry)?;
        self.uses.push(Use { of, guesses: used })?;
        Ok(())
    }

    /// Takes up what is not shown, where nothing like it stands there.
    fn miss_new(&mut self, missing: Missing) -> Result<(), AllocError> {
        if is_among(self.missing.as_slice(), missing) {
            return Ok(());
        }
        self.miss(missing)
    }

    fn miss(&mut self, missing: Missing) -> Result<(), AllocError> {
        self.missing.push(missing)?;
        match (missing.first, missing.second) {
            (Mark::Loop(number), None) => {
                if !self.loops.as_slice().contains(&number) {
                    self.loops.push(number)?;
                }
                Ok(())
            }
            _ => Ok(()),
        }
    }
}

/// With so many obligations of which none is like another one nobody asks for more: no more are told.
const MISSED: usize = 32;

/// The proofs of a stretch of obligations, what no derivation shows, and what the search found for it.
#[derive(Drop)]
struct Proved {
    proofs: Vec<Proof>,
    missing: Vec<Missing>,
    own: Memory,
}

/// The proofs of a stretch of obligations, and what no derivation shows, but for what is like one that nothing showed before.
fn proved_in(
    alloc: Global,
    origins: &Origins<'_>,
    stretch: Stretch,
    missed: &[Missing],
    memory: &Memory,
) -> Result<Proved, FindError> {
    let mut questions = Questions::over(alloc, memory)?;
    let mut proofs: Vec<Proof> = Vec::new(alloc);
    let mut missing: Vec<Missing> = Vec::new(alloc);
    let end = stretch.end.min(origins.found.len());
    for i in stretch.first..end {
        let number = i + 1;
        let about = missing_of(origins, number);
        if is_among(missed, about) || is_among(missing.as_slice(), about) {
            continue;
        }
        match proofs_of(alloc, origins, number, &mut questions)? {
            Outcome::Nothing => {}
            Outcome::One(proof) => proofs.push(proof)?,
            Outcome::Two(first, second) => {
                proofs.push(first)?;
                proofs.push(second)?;
            }
            Outcome::Unshown => missing.push(about)?,
        }
    }
    Ok(Proved {
        proofs,
        missing,
        own: questions.into_own(),
    })
}

/// Adds the entries of the obligations of a walk that were not looked at yet, and what no derivation shows. Stretches of obligations are
/// asked side by side, a batch at a time, by so many workers at most, and taken up in the order of the obligations.
fn add_entries<R: Threads + Sync, W: Watcher>(
    rt: &R,
    alloc: Global,
    plan: &Plan<'_, W>,
    origins: &Origins<'_>,
    assembled: &mut Assembled,
    memory: &mut Memory,
) -> Result<(), FindError> {
    let all = stretches_behind(alloc, origins.found, assembled.seen)?;
    let mut sizes = BatchSizes::new();
    let mut begun: usize = 0;
    for _ in 0..all.len() {
        let batch = sizes.next_of(all.as_slice(), begun);
        if batch.is_empty() || assembled.missing.len() >= MISSED {
            break;
        }
        plan.course.tell(left_behind(origins.found, batch));
        begun = begun.saturating_add(batch.len());
        let missed = assembled.missing.as_slice();
        let known = &*memory;
        let found = batch
            .par_iter()
            .with_min_len(least_piece(batch.len(), plan.course.workers))
            .map(|stretch: &Stretch| proved_in(alloc, origins, *stretch, missed, known))
            .collect::<Vec<Result<Proved, FindError>>>(rt, alloc)?;
        for one in found {
            let Proved {
                proofs,
                missing,
                own,
            } = one?;
            memory.take(own)?;
            assembled.take(alloc, plan.names, proofs, missing)?;
        }
    }
    assembled.seen = origins.found.len();
    Ok(())
}

/// Adds the entries of a walk's obligations that were not looked at yet.
fn add_of_walk<R: Threads + Sync, W: Watcher>(
    rt: &R,
    alloc: Global,
    plan: &Plan<'_, W>,
    candidates: &[Candidate],
    walked: &Walked,
    assembled: &mut Assembled,
    memory: &mut Memory,
) -> Result<(), FindError> {
    let begun = begun_of(alloc, &plan.subject, &walked.notes, plan.sights)?;
    let table = LineTable::of(alloc, candidates, plan.sights)?;
    let places = places_of_paths(alloc, walked.found.paths())?;
    let origins = Origins {
        found: &walked.found,
        sights: plan.sights,
        begun: begun.as_slice(),
        places: places.as_slice(),
        table: &table,
        candidates,
    };
    add_entries(rt, alloc, plan, &origins, assembled, memory)
}

/// The certificate of guesses and rankings without entries; none where they have no text.
fn bare<W: Watcher>(
    alloc: Global,
    plan: &Plan<'_, W>,
    candidates: &[Candidate],
) -> Result<Option<Certificate>, AllocError> {
    let entries = Vec::new(alloc);
    let limits = Limits {
        rankings: plan.rankings,
        most: plan.limits,
    };
    certificate_of(
        alloc,
        &plan.subject,
        plan.names,
        candidates,
        limits,
        entries,
    )
}

/// The entries of all that is to be shown with these guesses, and what nothing shows; none where the guesses have no text. Where claims or
/// pairs of ends are not shown, pairs of accesses are looked at only where all is asked for.
pub fn assemble<R: Threads + Sync, W: Watcher>(
    rt: &R,
    alloc: Global,
    plan: &Plan<'_, W>,
    candidates: &[Candidate],
    asks_all: bool,
    memory: &mut Memory,
) -> Result<Option<Assembled>, FindError> {
    let Some(certificate) = bare(alloc, plan, candidates)? else {
        return Ok(None);
    };
    let subject = &plan.subject;
    let request = Request {
        trust: Trust::Searched,
        extent: Extent::Ends,
        workers: plan.course.workers,
    };
    let Some(walked) = resolve(rt, alloc, subject, &certificate, request, memory)? else {
        return Ok(None);
    };
    let mut assembled = Assembled::new(alloc);
    add_of_walk(rt, alloc, plan, candidates, &walked, &mut assembled, memory)?;
    if !assembled.missing.is_empty() && !asks_all {
        return Ok(Some(assembled));
    }
    let walked = with_accesses(alloc, subject, walked)?;
    add_of_walk(rt, alloc, plan, candidates, &walked, &mut assembled, memory)?;
    assembled.is_whole = true;
    Ok(Some(assembled))
}
