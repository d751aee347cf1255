//! All attempts in turn.

use crate::attempts::{Attempt, Failure, LEAST_MENU, Matter, Trial, try_guesses};
use crate::error::SearchError;
use crate::forks::{Order, order_of};
use crate::hoping::{Hoped, hope};
use crate::missing::Missing;
use crate::progress::{Course, Watcher};
use crate::ranked::{advance, all_standing, all_unrefuted, chosen, is_hopeless, last_tried};
use candidates::{LAST_TRIES, Told, guess_told};
use certificate::Certificate;
use cut_search::Memory;
use facts::WalkError;
use guess_walk::{Names, Subject, names_of};
use solo_runs::{Observed, observe};
use std::alloc::{AllocError, Global};
use std::thread::Threads;
use text_guesses::{Options, guess_rankings, guess_weighted};
use walk::FindError;

/// The ways in which loops may end, whether runs refute all of some loop, and whether there is a place but the entry to guess at; and the
/// ways that are tried last, if there is something that is.
#[derive(Drop)]
struct Ways {
    options: Vec<Options>,
    is_hopeless: bool,
    has_guesses: bool,
    last: Option<Vec<Options>>,
}

/// A first walk, with the rankings that the kernel's text tells.
fn walk_first<R: Threads + Sync>(
    rt: &R,
    alloc: Global,
    workers: u32,
    subject: &Subject<'_>,
    names: &Names<'_>,
    memory: &mut Memory,
) -> Result<Hoped, SearchError> {
    let first = guess_rankings(alloc, subject.typed.core(), subject.is_wide, &[])?;
    let rankings = chosen(alloc, first.as_slice(), &[])?;
    let rankings = rankings.as_slice();
    match hope(rt, alloc, workers, subject, names, rankings, memory)? {
        Some(hoped) => Ok(hoped),
        None => Err(SearchError::Unsaid),
    }
}

/// What a walk tells.
fn told_by(alloc: Global, subject: &Subject<'_>, hoped: &Hoped) -> Result<Told, AllocError> {
    guess_told(
        alloc,
        hoped.sights.as_slice(),
        hoped.leaves.as_slice(),
        hoped.known.as_slice(),
        hoped.unsigned.as_slice(),
        subject.is_wide,
    )
}

/// The ways in which loops may end that are tried last, where no run refutes them, and behind them those without that a run refutes; none
/// where nothing is tried last, neither a way nor a guess.
fn last_of(
    alloc: Global,
    subject: &Subject<'_>,
    told: &Told,
    options: &[Options],
    observed: &Observed,
) -> Result<Option<Vec<Options>>, AllocError> {
    if !subject.is_wide {
        return Ok(None);
    }
    let weighted = guess_weighted(alloc, subject.typed.core())?;
    let weighted = all_standing(alloc, weighted.as_slice(), observed)?;
    let has_ways = weighted
        .iter()
        .any(|one| !one.rankings.as_slice().is_empty());
    let has_guesses = told
        .candidates
        .iter()
        .any(|one| one.rank == LAST_TRIES && !observed.refutes(one));
    if !has_ways && !has_guesses {
        return Ok(None);
    }
    let last = last_tried(alloc, weighted.as_slice(), options)?;
    Ok(Some(last))
}

/// How loops may end, without the ways that runs refute.
fn find_ways<R: Threads + Sync>(
    rt: &R,
    alloc: Global,
    workers: u32,
    subject: &Subject<'_>,
    names: &Names<'_>,
    memory: &mut Memory,
) -> Result<Ways, SearchError> {
    let hoped = walk_first(rt, alloc, workers, subject, names, memory)?;
    let core = subject.typed.core();
    let told = told_by(alloc, subject, &hoped)?;
    let options = guess_rankings(alloc, core, subject.is_wide, told.strides.as_slice())?;
    let sights = hoped.sights.as_slice();
    let observed = observe(alloc, core, subject.conditions, sights, &[])?;
    let is_hopeless = is_hopeless(options.as_slice(), &observed);
    let options = all_unrefuted(alloc, options, &observed)?;
    let last = last_of(alloc, subject, &told, options.as_slice(), &observed)?;
    Ok(Ways {
        options,
        is_hopeless,
        has_guesses: hoped.sights.len() > 1,
        last,
    })
}

/// What the best attempt so far does not show, none before the first one; the fewest claims and pairs of ends that an attempt did not show;
/// how many attempts there were, and whether the last one had guesses that were never tried.
#[derive(Drop)]
struct Shortfall {
    least: Option<Vec<Missing>>,
    fewest: usize,
    attempts: u32,
    has_more: bool,
}

impl Shortfall {
    /// Takes up what another attempt does not show, where all of it is told: the fewest are kept, and of equally many the first.
    fn meet(&mut self, failure: Failure) {
        let Failure {
            missing,
            is_whole,
            has_more,
            ..
        } = failure;
        self.has_more = has_more;
        let before_accesses = missing.iter().filter(|one| !one.is_of_accesses()).count();
        self.fewest = self.fewest.min(before_accesses);
        let is_less = match &self.least {
            Some(least) => missing.len() < least.len(),
            None => true,
        };
        if is_less && is_whole {
            self.least = Some(missing);
        }
    }

    /// The error of a search in which no attempt shows all: the obligations that the best one lacks, or that no attempt could be said.
    fn told(self) -> SearchError {
        match self.least {
            Some(missing) => SearchError::NotShown(missing),
            None => SearchError::Unsaid,
        }
    }
}

/// How loops may end, up to which rank guesses are tried, and with how many choices of rankings at most.
#[derive(Clone, Copy)]
struct Stage<'a> {
    options: &'a [Options],
    rank: u32,
    choices: u32,
}

/// With how many choices of rankings guesses are tried last.
const LAST_CHOICES: u32 = 3;

/// The stages of a search: guesses of the ranks up to 2, 3 and 4, each with at most eight choices of rankings, and then the least menu
/// alone, with the first one.
fn stage_of(options: &[Options], rank: u32) -> Stage<'_> {
    Stage {
        options,
        rank,
        choices: if rank == LEAST_MENU { 1 } else { 8 },
    }
}

/// Attempts with guesses up to a rank, with one choice of rankings after the other.
fn try_stage<R: Threads + Sync, W: Watcher>(
    rt: &R,
    alloc: Global,
    matter: &Matter<'_, W>,
    stage: Stage<'_>,
    memory: &mut Memory,
    shortfall: &mut Shortfall,
) -> Result<Option<Certificate>, SearchError> {
    let Stage { options, rank, .. } = stage;
    let mut choices = vec![in alloc; 0usize; options.len()]?;
    for _ in 0..stage.choices {
        let rankings = chosen(alloc, options, choices.as_slice())?;
        shortfall.attempts = shortfall.attempts.saturating_add(1);
        let trial = Trial {
            number: shortfall.attempts,
            rankings: rankings.as_slice(),
            rank,
            fewest: shortfall.fewest,
        };
        match try_guesses(rt, alloc, matter, trial, memory)? {
            Attempt::Made(certificate) => return Ok(Some(certificate)),
            Attempt::Failed(failure) => {
                let is_next = advance(options, choices.as_mut_slice(), failure.loops.as_slice());
                shortfall.meet(failure);
                if !is_next || memory.is_spent() {
                    return Ok(None);
                }
            }
        }
    }
    Ok(None)
}

/// A certificate by guesses rank by rank, and by the least menu; none where nothing shows all.
fn try_stages<R: Threads + Sync, W: Watcher>(
    rt: &R,
    alloc: Global,
    matter: &Matter<'_, W>,
    ways: &Ways,
    memory: &mut Memory,
    shortfall: &mut Shortfall,
) -> Result<Option<Certificate>, SearchError> {
    let options = ways.options.as_slice();
    for rank in 2..LEAST_MENU + 1 {
        // The guesses up to rank 4 are those of the least menu, too: where all were tried, it shows no more.
        if rank == LEAST_MENU && !shortfall.has_more {
            return Ok(None);
        }
        let stage = stage_of(options, rank);
        let found = try_stage(rt, alloc, matter, stage, memory, shortfall)?;
        if found.is_some() || ways.is_hopeless || !ways.has_guesses || memory.is_spent() {
            return Ok(found);
        }
    }
    Ok(None)
}

/// A certificate by what is tried last; none where that shows no more, or nothing is.
fn try_last<R: Threads + Sync, W: Watcher>(
    rt: &R,
    alloc: Global,
    matter: &Matter<'_, W>,
    ways: &Ways,
    memory: &mut Memory,
    shortfall: &mut Shortfall,
) -> Result<Option<Certificate>, SearchError> {
    let Some(options) = &ways.last else {
        return Ok(None);
    };
    if memory.is_spent() {
        return Ok(None);
    }
    let stage = Stage {
        options: options.as_slice(),
        rank: LAST_TRIES,
        choices: LAST_CHOICES,
    };
    try_stage(rt, alloc, matter, stage, memory, shortfall)
}

/// A certificate, with the names of the kernel.
fn search_named<R: Threads + Sync, W: Watcher>(
    rt: &R,
    alloc: Global,
    subject: Subject<'_>,
    names: &Names<'_>,
    course: &Course<'_, W>,
    memory: &mut Memory,
) -> Result<Certificate, SearchError> {
    let ways = find_ways(rt, alloc, course.workers, &subject, names, memory)?;
    let matter = Matter {
        subject,
        names,
        course: course.in_attempt(1),
    };
    let mut shortfall = Shortfall {
        least: None,
        fewest: usize::MAX,
        attempts: 0,
        has_more: false,
    };
    if let Some(certificate) = try_stages(rt, alloc, &matter, &ways, memory, &mut shortfall)? {
        return Ok(certificate);
    }
    match try_last(rt, alloc, &matter, &ways, memory, &mut shortfall)? {
        Some(certificate) => Ok(certificate),
        None => Err(shortfall.told()),
    }
}

/// The search ended since a walk has too many paths or obligations.
fn is_endless(found: &Result<Certificate, SearchError>) -> bool {
    matches!(
        found,
        Err(SearchError::Walk(FindError::ManyPaths(_) | FindError::Walk(WalkError::TooMany)))
    )
}

/// A certificate of the wide walk, with ways that are joined, or without them.
fn search_widely<R: Threads + Sync, W: Watcher>(
    rt: &R,
    alloc: Global,
    subject: Subject<'_>,
    names: &Names<'_>,
    course: &Course<'_, W>,
    memory: &mut Memory,
) -> Result<Certificate, SearchError> {
    let joining = subject.joining();
    match order_of(rt, alloc, course.workers, &subject, names)? {
        Order::Forked => {
            let found = search_named(rt, alloc, subject, names, course, memory);
            if is_endless(&found) {
                search_named(rt, alloc, joining, names, course, memory)
            } else {
                found
            }
        }
        Order::Joined => search_named(rt, alloc, joining, names, course, memory),
        Order::JoinedFirst => {
            match search_named(rt, alloc, joining, names, course, memory) {
                Ok(certificate) => Ok(certificate),
                Err(_) => search_named(rt, alloc, subject, names, course, memory),
            }
        }
    }
}

/// A certificate for a kernel under conditions, searched by so many workers; whoever watches is told how far it is. The walks of a wide
/// subject join ways where that spares many paths.
pub fn search<R: Threads + Sync, W: Watcher>(
    rt: &R,
    alloc: Global,
    subject: Subject<'_>,
    workers: u32,
    watcher: &W,
) -> Result<Certificate, SearchError> {
    let course = Course {
        workers,
        watcher,
        attempt: 1,
        round: 1,
    };
    let names = names_of(alloc, subject.typed, subject.is_wide)?;
    let unnamed = names.unnamed(alloc)?;
    let mut memory = Memory::naming(alloc, subject.is_wide, unnamed);
    if subject.is_wide && !subject.joins {
        search_widely(rt, alloc, subject, &names, &course, &mut memory)
    } else {
        search_named(rt, alloc, subject, &names, &course, &mut memory)
    }
}
