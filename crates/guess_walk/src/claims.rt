//! The claims of a kernel's places, found again and again where only the flags of some change.

ghost use Rattle.std.specs.Prelude.{◌≡◌, true};
ghost use Rattle.core_code.specs.View.{kernel as core_seen};
ghost use Rattle.facts.specs.Launching.{are_sizes};
ghost use Rattle.obligations.specs.View.{seen};
ghost use Rattle.path_steps.specs.View.{setting as setting_seen};
ghost use Rattle.plain_kernels.specs.Domains.{domain};
ghost use Rattle.walk.specs.Cursors.{IsWalkable};
ghost use Rattle.walk.specs.Owned.{AllAreOwn};

use core_code::tree::Core;
use domain::Elements;
use obligations::Notes;
use path_steps::Setting;
use places::Place;
use rayon::prelude::*;
use std::alloc::{AllocError, Global};
use std::thread::Threads;
use two_thread::{Obligations, OwnPath};
use walk::{FindError, PlacePaths, Terrain, paths_of};

/// Where a place's claims stand: behind how many others, how many stand behind the last of them, and how many paths they are of.
#[derive(Clone, Copy)]
struct Span {
    first: u32,
    after: u32,
    paths: usize,
}

/// The claims of a kernel's places, and what it takes to find them again: where those of each place stand, and which were flagged.
#[derive(Drop)]
pub struct Claims {
    pub found: Obligations<Elements>,
    spans: Vec<Span>,
    flags: Vec<bool>,
}

/// What is left of a walk before: the paths of the places that come, the last one first, where the claims of all places stand, and which
/// were flagged.
#[derive(Drop)]
struct Before {
    left: Vec<OwnPath<Elements>>,
    spans: Vec<Span>,
    flags: Vec<bool>,
}

impl Before {
    fn of(alloc: Global, claims: Option<Claims>) -> Result<Before, AllocError> {
        let Some(claims) = claims else {
            return Ok(Before {
                left: Vec::new(alloc),
                spans: Vec::new(alloc),
                flags: Vec::new(alloc),
            });
        };
        let Claims {
            found,
            spans,
            flags,
        } = claims;
        let mut left = found.into_paths(alloc)?;
        left.reverse();
        Ok(Before { left, spans, flags })
    }

    /// Whether the claims that stood there were flagged as they are now.
    fn has_flags(&self, span: Span, flags: &[bool]) -> bool {
        let first = (span.first as usize).saturating_add(1);
        let end = (span.after as usize).saturating_add(1);
        match (self.flags.as_slice().get(first..end), flags.get(first..end)) {
            (Some(then), Some(now)) => then == now,
            _ => false,
        }
    }

    /// How many claims stand behind the place of a number, where its claims are those of before: behind as many others, and flagged alike.
    fn after(&self, place: usize, claims: u32, flags: &[bool]) -> Option<u32> {
        let span = self.spans.as_slice().get(place)?;
        if span.first == claims && self.has_flags(*span, flags) {
            Some(span.after)
        } else {
            None
        }
    }

    /// How many claims stood before the place of a number; 0 where none was walked.
    fn first(&self, place: usize) -> u32 {
        match self.spans.as_slice().get(place) {
            Some(span) => span.first,
            None => 0,
        }
    }

    /// The paths of the place of a number, which come next.
    fn next_paths(
        &mut self,
        alloc: Global,
        place: usize,
    ) -> Result<Vec<OwnPath<Elements>>, AllocError> {
        let mut paths = Vec::new(alloc);
        let count = match self.spans.as_slice().get(place) {
            Some(span) => span.paths,
            None => 0,
        };
        for _ in 0..count {
            if let Some(path) = self.left.pop() {
                paths.push(path)?;
            }
        }
        Ok(paths)
    }
}

/// The paths of the places so far, where the claims of each stand, and how many there are.
#[derive(Drop)]
struct SoFar {
    paths: Vec<OwnPath<Elements>>,
    spans: Vec<Span>,
    claims: u32,
}

impl SoFar {
    /// Adds the paths of the next place, behind the last of whose claims so many stand.
    fn add(&mut self, after: u32, paths: Vec<OwnPath<Elements>>) -> Result<(), AllocError> {
        self.spans.push(Span {
            first: self.claims,
            after,
            paths: paths.len(),
        })?;
        for path in paths {
            self.paths.push(path)?;
        }
        self.claims = after;
        Ok(())
    }
}

/// A place by its number, walked ahead with so many claims before it.
#[derive(Drop)]
struct Ahead {
    place: usize,
    claims: u32,
    found: Result<PlacePaths<Elements>, FindError>,
}

/// A place that is walked ahead: its number, and how many claims are supposed to stand before it.
#[derive(Clone, Copy)]
struct Errand {
    place: usize,
    claims: u32,
}

/// The most claims that a kernel may have.
const MOST: u32 = 65_536;

impl Ahead {
    /// The paths that were found, and how many claims stand behind them, where so many stand before the place, or the numbers of claims
    /// make no difference.
    fn fitting(self, claims: u32, makes_none: bool) -> Option<(u32, Vec<OwnPath<Elements>>)> {
        let Ahead {
            claims: supposed,
            found,
            ..
        } = self;
        if supposed != claims && !makes_none {
            return None;
        }
        match found {
            Ok(PlacePaths { after, paths }) => {
                let own = after.saturating_sub(supposed);
                let after = claims.saturating_add(own);
                if after > MOST {
                    None
                } else {
                    Some((after, paths))
                }
            }
            Err(_) => None,
        }
    }
}

/// What was found ahead of a place, if it fits.
fn fitting_of(
    ahead: Option<Ahead>,
    claims: u32,
    makes_none: bool,
) -> Option<(u32, Vec<OwnPath<Elements>>)> {
    match ahead {
        Some(ahead) => ahead.fitting(claims, makes_none),
        None => None,
    }
}

/// A place that is walked ahead.
fn run(
    setting: &Setting<Elements>,
    core: &Core,
    notes: &Notes,
    places: &[Place<'_>],
    errand: Errand,
) -> Ahead
    requires sizes { are_sizes (core_seen core.now).sizes ≡ true }
    requires own { AllAreOwn domain (setting_seen domain setting.now) (core_seen core.now) (seen notes.now setting.now.entries.items) }
{
    let Errand { place, claims } = errand;
    let found = match places.get(place) {
        Some(one) => paths_of(setting, core, notes, one, claims),
        None => Err(FindError::from(AllocError)),
    };
    Ahead {
        place,
        claims,
        found,
    }
}

/// How many of so many places one worker takes at least, so that no more than so many are at work at once.
fn least_piece(count: usize, workers: u32) -> usize {
    let workers = (workers as usize).max(1);
    let more = count.saturating_add(workers).saturating_sub(1);
    (more / workers).max(1)
}

/// The places whose claims are not those of before, as it seems.
fn errands_of(
    alloc: Global,
    before: &Before,
    places: usize,
    flags: &[bool],
) -> Result<Vec<Errand>, AllocError> {
    let mut errands = Vec::new(alloc);
    for place in 0..places {
        let claims = before.first(place);
        if before.after(place, claims, flags).is_none() {
            errands.push(Errand { place, claims })?;
        }
    }
    Ok(errands)
}

/// The paths of all places, with what was found before and what was found ahead, which stands in the order of the places.
fn put_together(
    alloc: Global,
    terrain: &Terrain<'_, Elements>,
    before: Before,
    ahead: Vec<Ahead>,
) -> Result<SoFar, FindError>
    requires { IsWalkable domain terrain.now }
{
    let makes_none = before.spans.is_empty() && !terrain.flags().contains(&false);
    let mut before = before;
    let mut ahead = ahead;
    ahead.reverse();
    let mut so_far = SoFar {
        paths: Vec::new(alloc),
        spans: Vec::new(alloc),
        claims: 0,
    };
    for i in 0..terrain.places.len() {
        let again = before.next_paths(alloc, i)?;
        let own = next_of(&mut ahead, i);
        if let Some(after) = before.after(i, so_far.claims, terrain.flags()) {
            so_far.add(after, again)?;
            continue;
        }
        if let Some((after, paths)) = fitting_of(own, so_far.claims, makes_none) {
            so_far.add(after, paths)?;
            continue;
        }
        let PlacePaths { after, paths } = terrain.paths(&terrain.places[i], so_far.claims)?;
        so_far.add(after, paths)?;
    }
    Ok(so_far)
}

/// What was found ahead of the place of a number, if it is the next one of the list, whose last is the first one.
fn next_of(ahead: &mut Vec<Ahead>, place: usize) -> Option<Ahead> {
    match ahead.last() {
        Some(one) if one.place == place => ahead.pop(),
        _ => None,
    }
}

/// Places that are walked side by side, by so many workers at most. What the workers share are the parts of a terrain.
fn walk_ahead<R: Threads + Sync>(
    rt: &R,
    alloc: Global,
    workers: u32,
    setting: &Setting<Elements>,
    core: &Core,
    notes: &Notes,
    places: &[Place<'_>],
    errands: &[Errand],
) -> Result<Vec<Ahead>, AllocError>
    requires sizes { are_sizes (core_seen core.now).sizes ≡ true }
    requires own { AllAreOwn domain (setting_seen domain setting.now) (core_seen core.now) (seen notes.now setting.now.entries.items) }
{
    errands
        .par_iter()
        .with_min_len(least_piece(errands.len(), workers))
        .map(
            |errand: &Errand| -> Ahead
                requires sizes { are_sizes (core_seen core.now).sizes ≡ true }
                requires own { AllAreOwn domain (setting_seen domain setting.now) (core_seen core.now) (seen notes.now setting.now.entries.items) }
            { run(setting, core, notes, places, *errand) },
        )
        .collect::<Vec<Ahead>>(rt, alloc)
}

/// The claims of places that are walked side by side.
fn ahead_on<R: Threads + Sync>(
    rt: &R,
    alloc: Global,
    workers: u32,
    terrain: &Terrain<'_, Elements>,
    errands: &[Errand],
) -> Result<Vec<Ahead>, AllocError>
    requires { IsWalkable domain terrain.now }
{
    walk_ahead(
        rt,
        alloc,
        workers,
        &terrain.setting,
        terrain.core,
        terrain.notes,
        terrain.places,
        errands,
    )
}

/// The claims alone of a kernel's places: what the walks of a search ask for, of which many are made. Pairs of ends and of accesses can be
/// added to them. With claims that were found before with the same notes, of the same kernel, conditions and places, only those places are
/// walked whose claims have other numbers now, or are flagged otherwise: side by side, by so many workers at most, each with the numbers
/// that its claims had before, and once more where they have others now. As long as all claims are flagged the numbers make no difference.
/// So what is found is the same for each number of workers.
pub fn find_claims<R: Threads + Sync>(
    rt: &R,
    alloc: Global,
    workers: u32,
    terrain: Terrain<'_, Elements>,
    before: Option<Claims>,
) -> Result<Claims, FindError>
    requires walkable { IsWalkable domain terrain }
{
    let before = Before::of(alloc, before)?;
    let errands = errands_of(alloc, &before, terrain.places.len(), terrain.flags())?;
    let ahead = ahead_on(rt, alloc, workers, &terrain, errands.as_slice())?;
    let SoFar { paths, spans, .. } = put_together(alloc, &terrain, before, ahead)?;
    let (found, flags) = terrain.claims(alloc, paths)?;
    Ok(Claims {
        found,
        spans,
        flags,
    })
}
