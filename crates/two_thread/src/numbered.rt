//! All that is to be shown of a kernel's places under conditions, by its numbers.

ghost use Rattle.std.specs.Prelude.{◌≡◌, ◌≤◌, ◌+◌, true, length};
ghost use Rattle.std.specs.List.{All};
ghost use Rattle.two_thread.specs.Fitting.{claims_fit};
ghost use Rattle.two_thread.specs.Meetings.{IsInside as AreStops};
ghost use Rattle.two_thread.specs.Refusals.{IsInside};
ghost use Rattle.two_thread.specs.View.{met_claims};

use crate::agreeing::try_meeting;
use crate::alike::{Alike, copy_alike};
use crate::arrays::all_crossings;
use crate::claims::try_denials;
use crate::clashing::try_differences;
use crate::crossings::Crossing;
use crate::meetings::{Meeting, all_meetings};
use crate::met::Met;
use crate::walked::{Tagged, Walked, spread};
use core_code::tree::Core;
use domain::Domain;
use facts::{Known, WalkError};
use launch::conditions::Conditions;
use linear::Form;
use obligations::Notes;
use std::alloc::Global;

/// An obligation: a claim by its number, a meeting of two ends, or a crossing of two accesses.
#[derive(Clone, Copy)]
pub enum Which {
    OfClaim(usize),
    OfMeeting(Meeting),
    OfCrossing(Crossing),
}

/// The premises of all obligations: the facts of every launch, and the domain's elements of its symbols.
#[derive(Drop)]
pub struct Premises<D> {
    pub launch: Vec<Form>,
    pub known: Known<D>,
}

/// The obligations of a kernel's places, numbered from 1: the claims of one item, then the pairs of stops and the pairs of accesses of
/// two items. There are at most 65,536, and what denies each claim is of `i64`.
#[derive(Drop)]
pub struct Obligations<D> {
    pub(crate) launch: Vec<Form>,
    pub(crate) known: Known<D>,
    pub(crate) alike: Vec<Alike>,
    pub(crate) met: Met<D>,
    pub(crate) meetings: Vec<Meeting>,
    pub(crate) crossings: Vec<Crossing>,
    pub(crate) ghost few: { length met.claims.items + (length meetings.items + length crossings.items) ≤ 65536 },
    pub(crate) ghost fit: { claims_fit (met_claims met) ≡ true },
    pub(crate) ghost stops_inside: { All (AreStops (length met.ends.items)) meetings.items },
    pub(crate) ghost inside: { All (IsInside (length met.accesses.items)) crossings.items },
}

impl<D: Domain> Obligations<D> {
    ghost use Rattle.std.specs.Prelude.{◌≡◌, ◌≤◌, ◌<◌, List, Bool, length, true, IfOk, OnOk, IfErr, MatchResult};
    ghost use Rattle.core_code.specs.View.{kernel as core_seen};
    ghost use Rattle.linear.specs.Forms.{forms};
    ghost use Rattle.launch.specs.View.{conditions as conditions_seen};
    ghost use Rattle.facts.specs.View.{known_seen};
    ghost use Rattle.obligations.specs.View.{seen};
    ghost use Rattle.obligations.specs.Owning.{all_own_accesses, all_own_ends};
    ghost use Rattle.two_thread.specs.Alike.{notes_of};
    ghost use Rattle.obligations.specs.Fitting.{crossings_fit};
    ghost use Rattle.two_thread.specs.Fitting.{claims_fit};
    ghost use Rattle.two_thread.specs.Meetings.{meetings_fit};
    ghost use Rattle.two_thread.specs.Paths.{all_claims, all_ends, all_accesses, claims_of, ends_of, accesses_of};
    ghost use Rattle.two_thread.specs.Refusals.{DoNotFit, AreUngathered};
    ghost use Rattle.two_thread.specs.Listed.{listed, nth_obligation, nth_fits, obligation_of, IsThere, which_fits, found_fits, found_meetings, found_crossings, all_listed, all_fits};

    /// All that is to be shown of what was met along paths. Where a number of what denies some claim is too large for `i64`, this is
    /// refused here; whether the own forms of pairs are of `i64` is left open.
    fn gather(
        alloc: Global,
        premises: Premises<D>,
        paths: Vec<Tagged<D>>,
        alike: Vec<Alike>,
        core: &Core,
        conditions: &Conditions,
    ) -> Result<Obligations<D>, WalkError>
        requires accesses { all_own_accesses (all_accesses paths.items) ≡ true }
        requires ends { all_own_ends (all_ends paths.items) ≡ true }
        ensures listed { IfOk result (λ o. listed D.Domain o ≡ all_listed D.Domain (known_seen premises.known) (forms premises.launch.items) (notes_of alike.items) (core_seen core.now) (conditions_seen conditions.now) (all_claims paths.items) (all_ends paths.items) (all_accesses paths.items)) }
        ensures fits { IfOk result (λ o. found_fits o ≡ all_fits D.Domain (known_seen premises.known) (forms premises.launch.items) (notes_of alike.items) (core_seen core.now) (conditions_seen conditions.now) (all_claims paths.items) (all_ends paths.items) (all_accesses paths.items)) }
        ensures denied { OnOk result (claims_fit (all_claims paths.items) ≡ true) }
        ensures ungathered { IfErr result (AreUngathered (all_listed D.Domain (known_seen premises.known) (forms premises.launch.items) (notes_of alike.items) (core_seen core.now) (conditions_seen conditions.now) (all_claims paths.items) (all_ends paths.items) (all_accesses paths.items)) (claims_fit (all_claims paths.items))) }
    {
        let met = Met::of(alloc, paths)?;
        let claims = met.claims.len();
        if claims > 65_536 {
            return Err(WalkError::TooMany);
        }
        let room = 65_536 - claims;
        let meetings = all_meetings(alloc, alike.as_slice(), &met, room)?;
        if meetings.len() > room {
            return Err(WalkError::TooMany);
        }
        let most = room - meetings.len();
        let crossings = all_crossings(alloc, core, conditions, &met, most)?;
        if crossings.len() > most {
            return Err(WalkError::TooMany);
        }
        try_denials(alloc, &met)?;
        Ok(Obligations {
            launch: premises.launch,
            known: premises.known,
            alike,
            met,
            meetings,
            crossings,
        })
    }

    /// Fails where a number that some meeting of two ends needs is too large for `i64`.
    pub(crate) fn try_meetings(&self, alloc: Global) -> Result<(), WalkError>
        ensures { MatchResult result (λ _. meetings_fit (found_meetings self.now.met self.now.meetings.items) ≡ true) (DoNotFit (meetings_fit (found_meetings self.now.met self.now.meetings.items))) }
    {
        for i in 0..self.meetings.len() {
            let meeting = self.meetings[i];
            try_meeting(alloc, &self.met, meeting)?;
        }
        Ok(())
    }

    /// The differences of each pair's indexes are, or an error.
    pub(crate) fn try_crossings(&self, alloc: Global) -> Result<(), WalkError>
        ensures { MatchResult result (λ _. crossings_fit (found_crossings self.now.met self.now.crossings.items) ≡ true) (DoNotFit (crossings_fit (found_crossings self.now.met self.now.crossings.items))) }
    {
        for i in 0..self.crossings.len() {
            let crossing = self.crossings[i];
            try_differences(alloc, &self.met, crossing)?;
        }
        Ok(())
    }

    /// All that is to be shown of what was met along the paths of all places, whose accesses and ends have no symbols of the second
    /// item. Where what denies some claim is not of `i64`, this is refused here, before an obligation is looked at. It heeds no entries.
    pub fn of(
        alloc: Global,
        premises: Premises<D>,
        walked: Vec<Walked<D>>,
        core: &Core,
        conditions: &Conditions,
        notes: &Notes,
    ) -> Result<Obligations<D>, WalkError>
        requires accesses { all_own_accesses (accesses_of walked.items) ≡ true }
        requires ends { all_own_ends (ends_of walked.items) ≡ true }
        ensures listed { IfOk result (λ o. (entries : List Bool) → listed D.Domain o ≡ all_listed D.Domain (known_seen premises.known) (forms premises.launch.items) (seen notes.now entries) (core_seen core.now) (conditions_seen conditions.now) (claims_of walked.items) (ends_of walked.items) (accesses_of walked.items)) }
        ensures fits { IfOk result (λ o. (entries : List Bool) → found_fits o ≡ all_fits D.Domain (known_seen premises.known) (forms premises.launch.items) (seen notes.now entries) (core_seen core.now) (conditions_seen conditions.now) (claims_of walked.items) (ends_of walked.items) (accesses_of walked.items)) }
        ensures denied { OnOk result (claims_fit (claims_of walked.items) ≡ true) }
        ensures ungathered { IfErr result (λ e. (entries : List Bool) → AreUngathered (all_listed D.Domain (known_seen premises.known) (forms premises.launch.items) (seen notes.now entries) (core_seen core.now) (conditions_seen conditions.now) (claims_of walked.items) (ends_of walked.items) (accesses_of walked.items)) (claims_fit (claims_of walked.items)) e) }
    {
        let alike = copy_alike(alloc, notes)?;
        let paths = spread(alloc, walked)?;
        let found = Obligations::gather(alloc, premises, paths, alike, core, conditions)?;
        Ok(found)
    }

    /// The number of all obligations, at most 65,536.
    pub fn len(&self) -> usize
        ensures exact { result ≡ length (listed D.Domain self.now) }
        ensures few { result ≤ 65536 }
    {
        self.met.claims.len() + (self.meetings.len() + self.crossings.len())
    }

    /// The obligation of a number.
    pub(crate) fn which(&self, number: usize) -> Which
        requires first { 0 < number }
        requires last { number ≤ length (listed D.Domain self.now) }
        ensures is { nth_obligation (listed D.Domain self.now) number ≡ obligation_of D.Domain self.now result }
        ensures there { IsThere self.now result }
        ensures fits { nth_fits (found_fits self.now) number ≡ which_fits self.now result }
    {
        let i = number - 1;
        let claims = self.met.claims.len();
        if i < claims {
            return Which::OfClaim(i);
        }
        let j = i - claims;
        let meetings = self.meetings.len();
        if j < meetings {
            return Which::OfMeeting(self.meetings[j]);
        }
        Which::OfCrossing(self.crossings[j - meetings])
    }
}
