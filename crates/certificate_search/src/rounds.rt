//! Rounds, until nothing falls.

use crate::demands::demands_of;
use crate::progress::{Course, Watcher};
use crate::round_table::{BoardError, Demand, greatest};
use crate::used::Origins;
use cut_search::Memory;
use guess_walk::{
    Extent, Limits, LineTable, Names, Request, Subject, Trust, Walked, begun_of, certificate_of,
    places_of_paths, resolve,
};
use guesses::{Candidate, Ranking, Sight};
use std::alloc::{AllocError, Global};
use std::thread::Threads;
use supports::Set;
use walk::FindError;

/// Guesses that stand, with the last walk, and those that fell for no other reason than that one fell on which their derivation rests.
/// Another derivation may show them: where a false guess contradicts a path, all is derived from it there.
#[derive(Drop)]
pub struct Settled {
    pub candidates: Vec<Candidate>,
    pub walked: Walked,
    pub lost: Vec<Candidate>,
}

/// The reasons for which nothing is settled.
#[derive(Drop)]
pub enum SettlingError {
    /// The guesses have no text, or there are too many of them.
    Unsaid,
    Walk(FindError),
    Workers,
}

impl From<FindError> for SettlingError {
    fn from(e: FindError) -> SettlingError {
        SettlingError::Walk(e)
    }
}

impl From<AllocError> for SettlingError {
    fn from(e: AllocError) -> SettlingError {
        SettlingError::Walk(FindError::from(e))
    }
}

impl From<BoardError> for SettlingError {
    fn from(e: BoardError) -> SettlingError {
        match e {
            BoardError::Workers => SettlingError::Workers,
            BoardError::Memory => SettlingError::Walk(FindError::from(AllocError)),
        }
    }
}

/// The kernel, the names, the places, and the loops' rankings with their limits, which are the same in all rounds.
#[derive(Drop)]
pub struct Rounds<'a, W> {
    pub subject: Subject<'a>,
    pub names: &'a Names<'a>,
    pub sights: &'a [Sight],
    pub rankings: &'a [Ranking],
    pub most: &'a [i64],
    pub course: &'a Course<'a, W>,
    pub patience: u32,
}

/// The walk of a kernel with these guesses as what is said of its places; an error where they have no text.
fn walk_of<R: Threads + Sync, W: Watcher>(
    rt: &R,
    alloc: Global,
    rounds: &Rounds<'_, W>,
    candidates: &[Candidate],
    memory: &mut Memory,
) -> Result<Walked, SettlingError> {
    let entries = Vec::new(alloc);
    let limits = Limits {
        rankings: rounds.rankings,
        most: rounds.most,
    };
    let certificate = certificate_of(
        alloc,
        &rounds.subject,
        rounds.names,
        candidates,
        limits,
        entries,
    )?;
    let Some(certificate) = certificate else {
        return Err(SettlingError::Unsaid);
    };
    let request = Request {
        trust: Trust::Searched,
        extent: Extent::Ends,
        workers: rounds.course.workers,
    };
    match resolve(rt, alloc, &rounds.subject, &certificate, request, memory)? {
        Some(walked) => Ok(walked),
        None => Err(SettlingError::Unsaid),
    }
}

/// Guesses that are left, and those that fell with others.
#[derive(Drop)]
struct Parted {
    left: Vec<Candidate>,
    lost: Vec<Candidate>,
}

/// For each of so many guesses, whether it has an obligation that nothing shows.
fn lacking_of(alloc: Global, count: usize, demands: &[Demand]) -> Result<Vec<bool>, AllocError> {
    let mut flags = vec![in alloc; false; count]?;
    for demand in demands {
        if demand.support.is_none() {
            if let Some(flag) = flags.get_mut(demand.guess as usize) {
                *flag = true;
            }
        }
    }
    Ok(flags)
}

/// The guesses of a set, and those of the others of which each obligation was shown; all others, where guesses that may be true have fallen
/// before, for want of which an obligation may not have been shown.
fn part(
    alloc: Global,
    candidates: Vec<Candidate>,
    set: &Set,
    lacking: &[bool],
    is_sure: bool,
) -> Result<Parted, AllocError> {
    let mut left = Vec::new(alloc);
    let mut lost = Vec::new(alloc);
    let mut number: u32 = 0;
    for candidate in candidates {
        if set.contains(number) {
            left.push(candidate)?;
        } else if !is_sure || !lacking.get(number as usize).copied().unwrap_or(true) {
            lost.push(candidate)?;
        }
        number = number.saturating_add(1);
    }
    Ok(Parted { left, lost })
}

/// Some obligation of a guess has no set of guesses that shows it.
fn any_lacks(demands: &[Demand]) -> bool {
    demands.iter().any(|demand| demand.support.is_none())
}

/// The obligations of the guesses of a walk, each with the sets of guesses that suffice to show it.
fn demands_in<R: Threads + Sync, W: Watcher>(
    rt: &R,
    alloc: Global,
    rounds: &Rounds<'_, W>,
    round: Round<'_>,
    memory: &mut Memory,
) -> Result<Vec<Demand>, SettlingError> {
    let Round {
        number,
        candidates,
        walked,
    } = round;
    let begun = begun_of(alloc, &rounds.subject, &walked.notes, rounds.sights)?;
    let table = LineTable::of(alloc, candidates, rounds.sights)?;
    let places = places_of_paths(alloc, walked.found.paths())?;
    let origins = Origins {
        found: &walked.found,
        sights: rounds.sights,
        begun: begun.as_slice(),
        places: places.as_slice(),
        table: &table,
        candidates,
    };
    let course = rounds.course.in_round(number);
    Ok(demands_of(rt, alloc, &origins, &course, memory)?)
}

/// A round by its number, with its guesses and the walk with them.
#[derive(Clone, Copy)]
struct Round<'a> {
    number: u32,
    candidates: &'a [Candidate],
    walked: &'a Walked,
}

/// A walk with guesses, and what they rest on.
#[derive(Drop)]
pub struct Asked {
    walked: Walked,
    pub demands: Vec<Demand>,
}

/// Walks with these guesses, and asks what they rest on.
pub fn ask<R: Threads + Sync, W: Watcher>(
    rt: &R,
    alloc: Global,
    rounds: &Rounds<'_, W>,
    number: u32,
    candidates: &[Candidate],
    memory: &mut Memory,
) -> Result<Asked, SettlingError> {
    let walked = walk_of(rt, alloc, rounds, candidates, memory)?;
    let round = Round {
        number,
        candidates,
        walked: &walked,
    };
    let demands = demands_in(rt, alloc, rounds, round, memory)?;
    Ok(Asked { walked, demands })
}

/// The guesses that are left of so many, where each that is not shown falls.
fn left_of<R: Threads + Sync>(
    rt: &R,
    alloc: Global,
    count: usize,
    demands: &[Demand],
    workers: u32,
) -> Result<Set, SettlingError> {
    let Ok(count) = u32::try_from(count) else {
        return Err(SettlingError::Unsaid);
    };
    Ok(greatest(rt, alloc, count, demands, workers)?)
}

/// The result of a round: all guesses stand, or some of them are left.
#[derive(Drop)]
enum Turn {
    Stands(Vec<Candidate>, Walked),
    Falls(Parted),
}

/// Which round it is, counted from 1, and whether it is sure of what has an obligation that nothing shows: as long as nothing fell with
/// others before.
#[derive(Clone, Copy)]
struct Step {
    number: u32,
    is_sure: bool,
}

/// One round.
fn make_round<R: Threads + Sync, W: Watcher>(
    rt: &R,
    alloc: Global,
    rounds: &Rounds<'_, W>,
    candidates: Vec<Candidate>,
    step: Step,
    memory: &mut Memory,
) -> Result<Turn, SettlingError> {
    let asked = ask(
        rt,
        alloc,
        rounds,
        step.number,
        candidates.as_slice(),
        memory,
    )?;
    let demands = asked.demands.as_slice();
    if any_lacks(demands) {
        let set = left_of(rt, alloc, candidates.len(), demands, rounds.course.workers)?;
        let lacking = lacking_of(alloc, candidates.len(), demands)?;
        let parted = part(alloc, candidates, &set, lacking.as_slice(), step.is_sure)?;
        return Ok(Turn::Falls(parted));
    }
    Ok(Turn::Stands(candidates, asked.walked))
}

/// Puts guesses behind others, in their order.
pub fn push_all(all: &mut Vec<Candidate>, more: Vec<Candidate>) -> Result<(), AllocError> {
    for candidate in more {
        all.push(candidate)?;
    }
    Ok(())
}

/// Guesses of which each is shown by those that are left, with these rankings; at most 512 go in. In the first rounds, as many as there is
/// patience, only those fall of which an obligation is not shown; in the others those that rest on them as well.
pub fn settle<R: Threads + Sync, W: Watcher>(
    rt: &R,
    alloc: Global,
    rounds: &Rounds<'_, W>,
    candidates: Vec<Candidate>,
    memory: &mut Memory,
) -> Result<Settled, SettlingError> {
    let mut left = candidates;
    let mut lost = Vec::new(alloc);
    for turn in 0..600u32 {
        // (where so much work is done, no guess is tried any more)
        if memory.is_spent() {
            left = Vec::new(alloc);
        }
        let step = Step {
            number: turn + 1,
            is_sure: lost.is_empty(),
        };
        match make_round(rt, alloc, rounds, left, step, memory)? {
            Turn::Stands(candidates, walked) => {
                return Ok(Settled {
                    candidates,
                    walked,
                    lost,
                });
            }
            Turn::Falls(parted) => {
                left = parted.left;
                if turn < rounds.patience {
                    push_all(&mut left, parted.lost)?;
                } else {
                    push_all(&mut lost, parted.lost)?;
                }
            }
        }
    }
    Err(SettlingError::Unsaid)
}
