//! The least menu: guesses that a kernel's text tells, without any walk or run, and a table of what they rest on.

ghost use Rattle.std.specs.Prelude.{◌≡◌, true};
ghost use Rattle.core_code.specs.View.{kernel as core_seen};
ghost use Rattle.facts.specs.Launching.{are_sizes};

use crate::attempts::Matter;
use crate::error::TableError;
use crate::hoping::unlimited;
use crate::picking::MOST;
use crate::progress::{Course, Unwatched, Watcher};
use crate::ranked::chosen;
use crate::round_table::supports_of;
use crate::rounds::{Asked, Rounds, ask};
use certificate_notes::{NamesError, notes_of};
use core_code::tree::Core;
use cut_search::Memory;
use guess_walk::{Limits, Names, Subject, certificate_of, may_be_said, names_of, sights_of};
use guesses::{Candidate, Ranking, Sight};
use launch::conditions::Conditions;
use places::{PlaceError, places};
use std::alloc::{AllocError, Global};
use std::thread::Threads;
use supports::Supports;
use text_guesses::{guess_plainly, guess_rankings};
use typed_kernels::Typed;

/// The most workers that ask on which guesses others rest.
const WORKERS: u32 = 64;

/// The guesses of the least menu that may be said in a certificate, for places and loops with these rankings: as many as a board has.
pub fn least_guesses(
    alloc: Global,
    core: &Core,
    sights: &[Sight],
    rankings: &[Ranking],
) -> Result<Vec<Candidate>, AllocError> {
    let mut kept = Vec::new(alloc);
    for candidate in guess_plainly(alloc, core, sights, rankings)? {
        if kept.len() < MOST && may_be_said(&candidate) {
            kept.push(candidate)?;
        }
    }
    Ok(kept)
}

/// What a kernel's text alone tells: what may be said at each place, and how each loop may end, the first way.
#[derive(Drop)]
struct Scene {
    sights: Vec<Sight>,
    rankings: Vec<Ranking>,
}

/// What a kernel's text tells of its places and loops; nothing where the rankings have no text.
fn scene_of(
    alloc: Global,
    subject: &Subject<'_>,
    names: &Names<'_>,
) -> Result<Option<Scene>, AllocError> {
    let options = guess_rankings(alloc, subject.typed.core(), subject.is_wide, &[])?;
    let rankings = chosen(alloc, options.as_slice(), &[])?;
    let most = unlimited(alloc, rankings.as_slice())?;
    let limits = Limits {
        rankings: rankings.as_slice(),
        most: most.as_slice(),
    };
    let entries = Vec::new(alloc);
    let Some(certificate) = certificate_of(alloc, subject, names, &[], limits, entries)? else {
        return Ok(None);
    };
    match notes_of(alloc, subject.typed, subject.places, &certificate) {
        Ok(Some(notes)) => {
            let sights = sights_of(alloc, subject, &notes)?;
            Ok(Some(Scene { sights, rankings }))
        }
        Ok(None) => Ok(None),
        Err(NamesError::Memory) => Err(AllocError),
    }
}

/// The guesses of the least menu for a kernel under conditions: differences of variables and of numbers, ids, arguments and other variables
/// at hand, and what divides them; the first 512. None where a loop with a barrier can miss it.
pub fn guess(
    alloc: Global,
    typed: &Typed,
    conditions: &Conditions,
) -> Result<Vec<Candidate>, AllocError>
    requires sizes { are_sizes (core_seen typed.now.1).sizes ≡ true }
{
    let all = match places(alloc, typed.core()) {
        Ok(all) => all,
        Err(PlaceError::Missed(_)) => return Ok(Vec::new(alloc)),
        Err(PlaceError::Memory) => return Err(AllocError),
    };
    let subject = Subject {
        typed,
        conditions,
        places: all.as_slice(),
        is_wide: false,
        joins: false,
    };
    let names = names_of(alloc, typed, false)?;
    let Some(scene) = scene_of(alloc, &subject, &names)? else {
        return Ok(Vec::new(alloc));
    };
    let Scene { sights, rankings } = scene;
    least_guesses(alloc, typed.core(), sights.as_slice(), rankings.as_slice())
}

/// What guesses rest on, at these places and loops.
fn table_at<R: Threads + Sync, W: Watcher>(
    rt: &R,
    alloc: Global,
    matter: &Matter<'_, W>,
    scene: &Scene,
    candidates: &[Candidate],
) -> Result<Supports, TableError> {
    let most = unlimited(alloc, scene.rankings.as_slice())?;
    let rounds = Rounds {
        subject: matter.subject,
        names: matter.names,
        sights: scene.sights.as_slice(),
        rankings: scene.rankings.as_slice(),
        most: most.as_slice(),
        course: &matter.course,
        patience: 0,
    };
    let unnamed = matter.names.unnamed(alloc)?;
    let mut memory = Memory::naming(alloc, matter.subject.is_wide, unnamed);
    let Asked { demands, .. } = ask(rt, alloc, &rounds, 1, candidates, &mut memory)?;
    let Ok(count) = u32::try_from(candidates.len()) else {
        return Err(TableError::Unsaid);
    };
    match supports_of(alloc, count, demands.as_slice())? {
        Some(supports) => Ok(supports),
        None => Err(TableError::Unsaid),
    }
}

/// What guesses rest on, at the places and loops that the kernel's text tells.
fn table_named<R: Threads + Sync, W: Watcher>(
    rt: &R,
    alloc: Global,
    subject: Subject<'_>,
    names: &Names<'_>,
    course: &Course<'_, W>,
    candidates: &[Candidate],
) -> Result<Supports, TableError> {
    let Some(scene) = scene_of(alloc, &subject, names)? else {
        return Err(TableError::Unsaid);
    };
    let matter = Matter {
        subject,
        names,
        course: course.in_attempt(1),
    };
    table_at(rt, alloc, &matter, &scene, candidates)
}

/// What guesses rest on, with the names of the kernel.
fn table_of<R: Threads + Sync, W: Watcher>(
    rt: &R,
    alloc: Global,
    subject: Subject<'_>,
    watcher: &W,
    candidates: &[Candidate],
) -> Result<Supports, TableError> {
    let course = Course {
        workers: WORKERS,
        watcher,
        attempt: 1,
        round: 1,
    };
    let names = names_of(alloc, subject.typed, subject.is_wide)?;
    table_named(rt, alloc, subject, &names, &course, candidates)
}

/// The table of what guesses for a kernel under conditions rest on, 512 at most: of each guess its obligations in a walk with all of them,
/// of each obligation the guesses by which the search shows it, if it does.
pub fn table<R: Threads + Sync>(
    rt: &R,
    alloc: Global,
    typed: &Typed,
    conditions: &Conditions,
    candidates: &[Candidate],
) -> Result<Supports, TableError>
    requires sizes { are_sizes (core_seen typed.now.1).sizes ≡ true }
{
    let all = match places(alloc, typed.core()) {
        Ok(all) => all,
        Err(PlaceError::Missed(number)) => return Err(TableError::Missed(number)),
        Err(PlaceError::Memory) => return Err(TableError::from(AllocError)),
    };
    let subject = Subject {
        typed,
        conditions,
        places: all.as_slice(),
        is_wide: false,
        joins: false,
    };
    table_of(rt, alloc, subject, &Unwatched, candidates)
}
