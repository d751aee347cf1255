//! One attempt: guesses of some ranks, with one ranking for each loop.

use crate::error::SearchError;
use crate::hoping::{Hoped, hope, unlimited};
use crate::joining::{Assembled, Plan, assemble};
use crate::least_menu::least_guesses;
use crate::limits::least_limits;
use crate::missing::Missing;
use crate::needed::needed_only;
use crate::picking::{MOST, Picked, pick, unrefuted, without_spare};
use crate::progress::{Course, Watcher};
use crate::rounds::{Rounds, push_all, settle};
use candidates::guess_told;
use certificate::Certificate;
use cut_search::Memory;
use guess_walk::{Limits, Names, Subject, certificate_of};
use guesses::{Candidate, Ranking, Sight};
use solo_runs::{Observed, observe, told_by_runs};
use std::alloc::{AllocError, Global};
use std::thread::Threads;
use text_guesses::guess_plainly;
use walk::FindError;

/// The most times that guesses are settled: those that fell with others, and those for which there was no room, are
/// tried up to eleven times more.
const CHANCES: u32 = 12;

/// In how many rounds guesses that are settled once more do not fall with others.
const PATIENCE: u32 = 60;

/// The rank of an attempt with the least menu alone, behind those of all guesses but the ones that are tried last.
pub const LEAST_MENU: u32 = 5;

/// The result of an attempt: a certificate; or loops whose rankings are not shown, and what is not shown, all of it, or
/// the claims and the pairs of ends alone.
#[derive(Drop)]
pub enum Attempt {
    Made(Certificate),
    Failed(Failure),
}

/// The obligations that an attempt does not show: the loops whose rankings are among them, all that were found, whether
/// everything was looked at, pairs of accesses too; and whether there were guesses that were never tried, for want of
/// room.
#[derive(Drop)]
pub struct Failure {
    pub loops: Vec<u32>,
    pub missing: Vec<Missing>,
    pub is_whole: bool,
    pub has_more: bool,
}

/// The kernel, the names, and the course of the search.
#[derive(Drop)]
pub struct Matter<'a, W> {
    pub subject: Subject<'a>,
    pub names: &'a Names<'a>,
    pub course: Course<'a, W>,
}

/// Guesses one after the other, without those that stand there already.
fn push_new(all: &mut Vec<Candidate>, more: Vec<Candidate>) -> Result<(), AllocError> {
    for candidate in more {
        if !all.iter().any(|other| other.is_like(&candidate)) {
            all.push(candidate)?;
        }
    }
    Ok(())
}

/// The guesses up to a rank that no run refutes: those that paths, runs and the text tell, the text only where nothing is tried last; or
/// the least menu alone.
fn guesses<W: Watcher>(
    alloc: Global,
    matter: &Matter<'_, W>,
    hoped: &Hoped,
    rankings: &[Ranking],
    observed: &Observed,
    rank: u32,
) -> Result<Vec<Candidate>, AllocError> {
    let core = matter.subject.typed.core();
    let sights = hoped.sights.as_slice();
    if rank == LEAST_MENU {
        let least = least_guesses(alloc, core, sights, rankings)?;
        return unrefuted(alloc, least, observed, rank);
    }
    let told = guess_told(
        alloc,
        sights,
        hoped.leaves.as_slice(),
        hoped.known.as_slice(),
        hoped.unsigned.as_slice(),
        matter.subject.is_wide,
    )?;
    let mut all = unrefuted(alloc, told.candidates, observed, rank)?;
    if rank >= 3 {
        let more = told_by_runs(alloc, core, sights, observed)?;
        push_new(&mut all, unrefuted(alloc, more, observed, rank)?)?;
    }
    if rank == 4 {
        let more = guess_plainly(alloc, core, sights, rankings)?;
        push_new(&mut all, unrefuted(alloc, more, observed, rank)?)?;
    }
    without_spare(alloc, all)
}

/// Guesses that stand, with all that they are assembled to.
type Standing = (Vec<Candidate>, Assembled);

/// The guesses without those that nothing needs, assembled, where some fall and all stays shown. No use tells of a guess that it narrows
/// elements: such guesses may be kept.
fn without_needless<R: Threads + Sync, W: Watcher>(
    rt: &R,
    alloc: Global,
    plan: &Plan<'_, W>,
    standing: &Standing,
    keeps_narrowing: bool,
    memory: &mut Memory,
) -> Result<Option<Standing>, FindError> {
    let candidates = standing.0.as_slice();
    let uses = standing.1.uses.as_slice();
    let Some(fewer) = needed_only(alloc, candidates, uses, keeps_narrowing)? else {
        return Ok(None);
    };
    let Some(next) = assemble(rt, alloc, plan, fewer.as_slice(), false, memory)? else {
        return Ok(None);
    };
    if next.missing.is_empty() {
        Ok(Some((fewer, next)))
    } else {
        Ok(None)
    }
}

/// Guesses that stand, assembled; then without those that nothing needs, as long as some fall and all stays shown. In the wide walk, where
/// guesses narrow elements, those that may do so are kept where it is not shown without them.
fn dropped<R: Threads + Sync, W: Watcher>(
    rt: &R,
    alloc: Global,
    plan: &Plan<'_, W>,
    candidates: Vec<Candidate>,
    assembled: Assembled,
    memory: &mut Memory,
) -> Result<Standing, FindError> {
    let mut best = (candidates, assembled);
    let mut keeps_narrowing = false;
    for _ in 0..3 {
        match without_needless(rt, alloc, plan, &best, keeps_narrowing, memory)? {
            Some(fewer) => best = fewer,
            None if plan.subject.is_wide && !keeps_narrowing => keeps_narrowing = true,
            None => return Ok(best),
        }
    }
    Ok(best)
}

/// The certificate of what was assembled.
fn written<R: Threads + Sync, W: Watcher>(
    rt: &R,
    alloc: Global,
    plan: &Plan<'_, W>,
    candidates: Vec<Candidate>,
    assembled: Assembled,
    memory: &mut Memory,
) -> Result<Conclusion, SearchError> {
    let (candidates, assembled) = dropped(rt, alloc, plan, candidates, assembled, memory)?;
    let Assembled { entries, .. } = assembled;
    let limits = Limits {
        rankings: plan.rankings,
        most: plan.limits,
    };
    let certificate = certificate_of(
        alloc,
        &plan.subject,
        plan.names,
        candidates.as_slice(),
        limits,
        entries,
    )?;
    match certificate {
        Some(certificate) => Ok(Conclusion::Made(certificate)),
        None => Err(SearchError::Unsaid),
    }
}

/// The result of putting guesses that stand together: a certificate, or the obligations that they do not show.
#[derive(Drop)]
enum Conclusion {
    Made(Certificate),
    Failed(Vec<Candidate>, Failure),
}

/// Puts guesses that stand together as a certificate, or tells what it would not show; an error where they have no text.
fn concluded<R: Threads + Sync, W: Watcher>(
    rt: &R,
    alloc: Global,
    plan: &Plan<'_, W>,
    candidates: Vec<Candidate>,
    memory: &mut Memory,
) -> Result<Conclusion, SearchError> {
    let found = assemble(rt, alloc, plan, candidates.as_slice(), false, memory)?;
    let Some(assembled) = found else {
        return Err(SearchError::Unsaid);
    };
    if assembled.missing.is_empty() {
        return written(rt, alloc, plan, candidates, assembled, memory);
    }
    Ok(Conclusion::Failed(candidates, failure_of(assembled)))
}

/// What was assembled as a failure.
fn failure_of(assembled: Assembled) -> Failure {
    let Assembled {
        loops,
        missing,
        is_whole,
        ..
    } = assembled;
    Failure {
        loops,
        missing,
        is_whole,
        has_more: false,
    }
}

/// The rankings of the loops and the places, beside what all attempts share, with which guesses are settled; and the fewest claims and
/// pairs of ends that an attempt so far did not show.
#[derive(Drop)]
struct Setting<'a, W> {
    matter: &'a Matter<'a, W>,
    sights: &'a [Sight],
    rankings: &'a [Ranking],
    course: Course<'a, W>,
    fewest: usize,
}

impl<'a, W: Watcher> Setting<'a, W> {
    fn plan<'b>(&'b self, limits: &'b [i64]) -> Plan<'b, W> {
        Plan {
            subject: self.matter.subject,
            names: self.matter.names,
            sights: self.sights,
            rankings: self.rankings,
            limits,
            course: &self.course,
            fewest: self.fewest,
        }
    }
}

/// Settled guesses, put together with the least limits of the loops; those that fell with others, and the limits.
#[derive(Drop)]
struct Settling {
    conclusion: Conclusion,
    lost: Vec<Candidate>,
    limits: Vec<i64>,
}

/// Guesses that are settled, and put together with the least limits of the loops.
fn settled_once<R: Threads + Sync, W: Watcher>(
    rt: &R,
    alloc: Global,
    setting: &Setting<'_, W>,
    candidates: Vec<Candidate>,
    patience: u32,
    memory: &mut Memory,
) -> Result<Settling, SearchError> {
    let matter = setting.matter;
    let most = unlimited(alloc, setting.rankings)?;
    let rounds = Rounds {
        subject: matter.subject,
        names: matter.names,
        sights: setting.sights,
        rankings: setting.rankings,
        most: most.as_slice(),
        course: &setting.course,
        patience,
    };
    let stands = settle(rt, alloc, &rounds, candidates, memory)?;
    let limits = least_limits(alloc, &stands.walked.found, setting.rankings, memory)?;
    let plan = (&*setting).plan(limits.as_slice());
    let conclusion = concluded(rt, alloc, &plan, stands.candidates, memory)?;
    Ok(Settling {
        conclusion,
        lost: stands.lost,
        limits,
    })
}

/// Guesses that are tried next, or, where no others are left, those that stand.
#[derive(Drop)]
enum Refill {
    More(Picked),
    Same(Vec<Candidate>),
}

/// Guesses that stand and those that fell with others, with as many of the others as there is room for.
fn refilled(
    alloc: Global,
    standing: Vec<Candidate>,
    lost: Vec<Candidate>,
    later: Vec<Candidate>,
) -> Result<Refill, AllocError> {
    let count = standing.len();
    let mut first = standing;
    push_all(&mut first, lost)?;
    let more = pick(alloc, later, MOST.saturating_sub(first.len()))?;
    push_all(&mut first, more.first)?;
    if first.len() == count {
        return Ok(Refill::Same(first));
    }
    Ok(Refill::More(Picked {
        first,
        later: more.later,
    }))
}

/// What an attempt does not show in the end: where fewer claims and pairs of ends are among it than in any attempt so far, pairs of
/// accesses are looked at as well.
fn failed<R: Threads + Sync, W: Watcher>(
    rt: &R,
    alloc: Global,
    plan: &Plan<'_, W>,
    candidates: &[Candidate],
    failure: Failure,
    memory: &mut Memory,
) -> Result<Attempt, SearchError> {
    if failure.is_whole || failure.missing.len() >= plan.fewest {
        return Ok(Attempt::Failed(failure));
    }
    match assemble(rt, alloc, plan, candidates, true, memory)? {
        Some(assembled) => {
            let mut whole = failure_of(assembled);
            whole.has_more = failure.has_more;
            Ok(Attempt::Failed(whole))
        }
        None => Err(SearchError::Unsaid),
    }
}

/// Settled guesses. Where they do not show all, those that fell with others are tried again beside those that stand, and so are those for
/// which there was no room.
fn settled<R: Threads + Sync, W: Watcher>(
    rt: &R,
    alloc: Global,
    setting: &Setting<'_, W>,
    candidates: Vec<Candidate>,
    memory: &mut Memory,
) -> Result<Attempt, SearchError> {
    let mut next = pick(alloc, candidates, MOST)?;
    for chance in 0..CHANCES {
        let Picked { first, later } = next;
        let patience = if chance == 0 { 0 } else { PATIENCE };
        let Settling {
            conclusion,
            lost,
            limits,
        } = settled_once(rt, alloc, setting, first, patience, memory)?;
        let (candidates, mut failure) = match conclusion {
            Conclusion::Made(certificate) => return Ok(Attempt::Made(certificate)),
            Conclusion::Failed(candidates, failure) => (candidates, failure),
        };
        failure.has_more = !later.is_empty();
        let plan = (&*setting).plan(limits.as_slice());
        if chance + 1 == CHANCES || memory.is_spent() {
            return failed(rt, alloc, &plan, candidates.as_slice(), failure, memory);
        }
        match refilled(alloc, candidates, lost, later)? {
            Refill::More(more) => next = more,
            Refill::Same(candidates) => {
                return failed(rt, alloc, &plan, candidates.as_slice(), failure, memory);
            }
        }
    }
    Err(SearchError::Unsaid)
}

/// The settings of an attempt: its number, from 1, its rankings, the highest rank of its guesses, and the fewest claims
/// and pairs of ends that an attempt so far did not show.
#[derive(Clone, Copy)]
pub struct Trial<'a> {
    pub number: u32,
    pub rankings: &'a [Ranking],
    pub rank: u32,
    pub fewest: usize,
}

/// An attempt with guesses up to a rank.
pub fn try_guesses<R: Threads + Sync, W: Watcher>(
    rt: &R,
    alloc: Global,
    matter: &Matter<'_, W>,
    trial: Trial<'_>,
    memory: &mut Memory,
) -> Result<Attempt, SearchError> {
    let Trial {
        number,
        rankings,
        rank,
        fewest,
    } = trial;
    let Some(hoped) = hope(
        rt,
        alloc,
        matter.course.workers,
        &matter.subject,
        matter.names,
        rankings,
        memory,
    )?
    else {
        return Err(SearchError::Unsaid);
    };
    let core = matter.subject.typed.core();
    let sights = hoped.sights.as_slice();
    let observed = observe(alloc, core, matter.subject.conditions, sights, rankings)?;
    let candidates = guesses(alloc, matter, &hoped, rankings, &observed, rank)?;
    let setting = Setting {
        matter,
        sights,
        rankings,
        course: matter.course.in_attempt(number),
        fewest,
    };
    settled(rt, alloc, &setting, candidates, memory)
}
