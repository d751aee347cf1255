//! What is asked of an obligation, by its number.

ghost use Rattle.std.specs.Prelude.{◌≡◌};
ghost use Rattle.path_steps.specs.View.{sort as sort_seen};
ghost use Rattle.two_thread.specs.Answers.{sort_about};

use crate::agreeing::{is_agreed, try_meeting};
use crate::claims::{is_needed, is_settled, sort_of, spot_of_claim};
use crate::clashing::{is_apart, try_differences};
use crate::crossings::spot_of;
use crate::meetings::About;
use crate::numbered::{Obligations, Which};
use crate::stops::spot_of_end;
use domain::Domain;
use facts::WalkError;
use path_steps::{Sort, Spot};
use std::alloc::Global;

/// The sort of obligation that two stops give, by what is to be shown of them.
fn sort_of_stops(about: About) -> Sort
    ensures { sort_seen result ≡ sort_about about }
{
    match about {
        About::AtLeast(_) | About::AtMost(_) => Sort::OfSame,
        About::Never => Sort::OfMeeting,
    }
}

impl<D: Domain> Obligations<D> {
    ghost use Rattle.std.specs.Prelude.{◌≡◌, ◌≤◌, ◌<◌, length, true, MatchResult};
    ghost use Rattle.path_steps.specs.View.{sort as sort_seen, spot as spot_seen};
    ghost use Rattle.two_thread.specs.Refusals.{DoNotFit};
    ghost use Rattle.two_thread.specs.Listed.{listed, nth_obligation, nth_fits, found_fits};

    /// The sort of an obligation, by its number: an entry of a certificate fits it or not.
    pub fn sort(&self, number: usize) -> Sort
        requires first { 0 < number }
        requires last { number ≤ length (listed D.Domain self.now) }
        ensures { sort_seen result ≡ (nth_obligation (listed D.Domain self.now) number).sort }
    {
        match self.which(number) {
            Which::OfClaim(i) => sort_of(&self.met, i),
            Which::OfMeeting(meeting) => sort_of_stops(meeting.about),
            Which::OfCrossing(_) => Sort::OfPair,
        }
    }

    /// The source place that an obligation comes from; of a pair, where the first item is.
    pub fn spot(&self, number: usize) -> Spot
        requires first { 0 < number }
        requires last { number ≤ length (listed D.Domain self.now) }
        ensures { spot_seen result ≡ (nth_obligation (listed D.Domain self.now) number).spot }
    {
        match self.which(number) {
            Which::OfClaim(i) => spot_of_claim(&self.met, i),
            Which::OfMeeting(meeting) => spot_of_end(&self.met, meeting.first),
            Which::OfCrossing(crossing) => spot_of(&self.met, crossing.first),
        }
    }

    /// An obligation has to be shown even where a certificate has no entry for it.
    pub fn is_needed(&self, number: usize) -> bool
        requires first { 0 < number }
        requires last { number ≤ length (listed D.Domain self.now) }
        ensures { result ≡ (nth_obligation (listed D.Domain self.now) number).needed }
    {
        match self.which(number) {
            Which::OfClaim(i) => is_needed(&self.met, i),
            Which::OfMeeting(_) | Which::OfCrossing(_) => true,
        }
    }

    /// Fails where a number of an obligation's own forms is too large for `i64`: of a pair of stops what is to be at least 0, or what
    /// denies it, of a pair of accesses a difference of their indexes.
    pub fn try_forms(&self, alloc: Global, number: usize) -> Result<(), WalkError>
        requires first { 0 < number }
        requires last { number ≤ length (listed D.Domain self.now) }
        ensures { MatchResult result (λ _. nth_fits (found_fits self.now) number ≡ true) (DoNotFit (nth_fits (found_fits self.now) number)) }
    {
        match self.which(number) {
            Which::OfClaim(_) => Ok(()),
            Which::OfMeeting(meeting) => try_meeting(alloc, &self.met, meeting),
            Which::OfCrossing(crossing) => try_differences(alloc, &self.met, crossing),
        }
    }

    /// The domain alone shows an obligation, given by its number.
    pub fn is_settled(&self, alloc: Global, number: usize) -> Result<bool, WalkError>
        requires first { 0 < number }
        requires last { number ≤ length (listed D.Domain self.now) }
        ensures { MatchResult result (λ b. b ≡ (nth_obligation (listed D.Domain self.now) number).settled) (DoNotFit (nth_fits (found_fits self.now) number)) }
    {
        match self.which(number) {
            Which::OfClaim(i) => Ok(is_settled(&self.met, i)),
            Which::OfMeeting(meeting) => is_agreed(alloc, &self.known, &self.met, meeting),
            Which::OfCrossing(crossing) => is_apart(alloc, &self.known, &self.met, crossing),
        }
    }
}
