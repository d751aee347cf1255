//! The facts of an obligation, by its number.

ghost use Rattle.std.specs.Prelude.{◌≡◌, ◌<◌, MatchResult, length};
ghost use Rattle.linear.specs.Forms.{forms};
ghost use Rattle.two_thread.specs.Alike.{notes_of};
ghost use Rattle.two_thread.specs.Answers.{crossing_shown};
ghost use Rattle.two_thread.specs.Goals.{manner as manner_seen, maybe_forms};
ghost use Rattle.two_thread.specs.Refusals.{IsUnfitCrossing};
ghost use Rattle.two_thread.specs.View.{crossing as crossing_seen, met_accesses};

use crate::agreeing::meeting_facts;
use crate::alike::Alike;
use crate::claims::claim_facts;
use crate::clashing::crossing_facts;
use crate::crossings::Crossing;
use crate::manner::Manner;
use crate::met::Met;
use crate::numbered::{Obligations, Which};
use domain::Domain;
use facts::WalkError;
use linear::Form;
use std::alloc::Global;

/// The facts of a pair of accesses that is shown in a manner; none where the manner does not fit.
pub fn crossing_facts_by<D: Copy>(
    alloc: Global,
    launch: &[Form],
    alike: &[Alike],
    met: &Met<D>,
    crossing: Crossing,
    manner: Manner,
) -> Result<Option<Vec<Form>>, WalkError>
    requires first { crossing.first < length met.now.accesses.items }
    requires second { crossing.second < length met.now.accesses.items }
    ensures { MatchResult result (λ r. maybe_forms r ≡ crossing_shown (manner_seen manner) (forms launch.now) (notes_of alike.now) (crossing_seen (met_accesses met.now) crossing)) (λ e. IsUnfitCrossing e (crossing_seen (met_accesses met.now) crossing)) }
{
    match manner {
        Manner::Plainly => {
            let facts = crossing_facts(alloc, launch, alike, met, crossing)?;
            Ok(Some(facts))
        }
        Manner::ByPositive | Manner::ByNegative | Manner::ByQuotient => Ok(None),
    }
}

impl<D: Domain> Obligations<D> {
    ghost use Rattle.std.specs.Prelude.{◌≡◌, ◌≤◌, ◌<◌, length, MatchResult};
    ghost use Rattle.walk_trees.specs.Trees.{facts_by};
    ghost use Rattle.two_thread.specs.Goals.{manner as manner_seen, maybe_forms};
    ghost use Rattle.two_thread.specs.Refusals.{DoNotFit};
    ghost use Rattle.two_thread.specs.Listed.{listed, nth_obligation, nth_fits, found_fits};

    /// The facts that are to be impossible where it is shown in a manner; none where the manner does not fit.
    pub fn facts(
        &self,
        alloc: Global,
        number: usize,
        manner: Manner,
    ) -> Result<Option<Vec<Form>>, WalkError>
        requires first { 0 < number }
        requires last { number ≤ length (listed D.Domain self.now) }
        ensures { MatchResult result (λ r. maybe_forms r ≡ facts_by (manner_seen manner) (nth_obligation (listed D.Domain self.now) number)) (DoNotFit (nth_fits (found_fits self.now) number)) }
    {
        let launch = self.launch.as_slice();
        let alike = self.alike.as_slice();
        match self.which(number) {
            Which::OfClaim(i) => claim_facts(alloc, launch, &self.met, i, manner),
            Which::OfMeeting(meeting) => {
                meeting_facts(alloc, launch, alike, &self.met, meeting, manner)
            }
            Which::OfCrossing(crossing) => {
                crossing_facts_by(alloc, launch, alike, &self.met, crossing, manner)
            }
        }
    }
}
