//! What all walks of a kernel with one certificate share.

ghost use Rattle.std.specs.Prelude.{◌≡◌, List, Bool, map, true, IfOk, MatchOption};
ghost use Rattle.arrivals.specs.Places as meant;
ghost use Rattle.core_code.specs.View.{kernel as core_seen};
ghost use Rattle.facts.specs.Launching.{are_sizes};
ghost use Rattle.obligations.specs.Telling.{TellsOfItems};
ghost use Rattle.obligations.specs.View.{seen};
ghost use Rattle.places.specs.View.{place as place_seen};

use crate::claims::{Claims, find_claims};
use crate::subject::Subject;
use crate::walking::Walked;
use certificate::Certificate;
use certificate_notes::{NamesError, notes_of};
use core_code::tree::Core;
use launch::conditions::Conditions;
use obligations::Notes;
use places::{Place, PlaceError, places};
use std::alloc::{AllocError, Global};
use std::thread::Threads;
use walk::{FindError, terrain_of};

/// A kernel that has places, and the notes that a certificate makes of them.
#[derive(Drop)]
pub struct Noted<'a> {
    core: &'a Core,
    notes: Notes,
    ghost sizes: { are_sizes (core_seen core.now).sizes ≡ true },
    ghost items: { (flags : List Bool) → TellsOfItems (seen notes flags) },
}

/// The places of a kernel; nothing where it has none, since a loop can miss its barrier.
fn places_of<'a>(alloc: Global, core: &'a Core) -> Result<Option<Vec<Place<'a>>>, AllocError>
    ensures { IfOk result (λ r. MatchOption r (Unit {0}) (λ v. map place_seen v.items ≡ meant.places (core_seen core.now).body)) }
{
    match places(alloc, core) {
        Ok(places) => Ok(Some(places)),
        Err(PlaceError::Missed(_)) => Ok(None),
        Err(PlaceError::Memory) => Err(AllocError),
    }
}

impl<'a> Noted<'a> {
    /// Nothing where the kernel lacks what the certificate names, or has no places.
    pub fn of(
        alloc: Global,
        subject: &Subject<'a>,
        certificate: &Certificate,
    ) -> Result<Option<Noted<'a>>, FindError> {
        let core = subject.typed.core();
        let Some(places) = places_of(alloc, core)? else {
            return Ok(None);
        };
        match notes_of(alloc, subject.typed, places.as_slice(), certificate) {
            Ok(Some(notes)) => Ok(Some(Noted { core, notes })),
            Ok(None) => Ok(None),
            Err(NamesError::Memory) => Err(FindError::from(AllocError)),
        }
    }

    /// The claims of a walk over the kernel's places.
    fn claims_on<R: Threads + Sync>(
        &self,
        rt: &R,
        alloc: Global,
        workers: u32,
        conditions: &Conditions,
        places: &[Place<'_>],
        entries: Vec<bool>,
        before: Option<Claims>,
    ) -> Result<Claims, FindError>
        requires { map place_seen places.now ≡ meant.places (core_seen self.now.core.now).body }
    {
        let terrain = terrain_of(alloc, self.core, conditions, &self.notes, places, entries)?;
        find_claims(rt, alloc, workers, terrain, before)
    }

    /// The claims of a walk in which the claims that are flagged have an entry, by so many workers at most; what was found before with
    /// other flags spares work.
    pub fn claims<R: Threads + Sync>(
        &self,
        rt: &R,
        alloc: Global,
        workers: u32,
        conditions: &Conditions,
        flags: &[bool],
        before: Option<Claims>,
    ) -> Result<Claims, FindError> {
        let entries = Vec::from_slice(alloc, flags)?;
        let Some(places) = places_of(alloc, self.core)? else {
            return Err(FindError::from(AllocError));
        };
        let places = places.as_slice();
        self.claims_on(rt, alloc, workers, conditions, places, entries, before)
    }

    /// The notes with the claims of a walk.
    pub fn with(self, claims: Claims) -> Walked {
        let Noted { notes, .. } = self;
        let Claims { found, .. } = claims;
        Walked { notes, found }
    }
}
