//! Obligations of the paths that are held, one by one.

ghost use Rattle.std.specs.Prelude.{◌≡◌, true, MatchResult};
ghost use Rattle.two_thread.specs.Refusals.{DoNotFit};
ghost use Rattle.entry_check.specs.Hand.{IsHeld, fits_at};

use domain::Domain;
use facts::{Known, WalkError};
use linear::Form;
use std::alloc::Global;
use two_thread::{
    Alike, Crossing, Manner, Meeting, Met, claim_facts, claims_second, crossing_facts_by,
    is_agreed, is_apart, is_needed, is_settled, meeting_facts, try_differences, try_meeting,
};

/// An obligation of the paths that are held: a claim by its number, a meeting of two ends, or a crossing of two accesses.
#[derive(Clone, Copy)]
pub enum Owed {
    Claim(usize),
    Ends(Meeting),
    Accesses(Crossing),
}

/// The premises of all obligations: the facts of every launch, the domain's elements of its symbols, and the slots that
/// two items have alike.
#[derive(Drop)]
pub struct Premises<'a, D> {
    pub launch: &'a [Form],
    pub known: &'a Known<D>,
    pub alike: &'a [Alike],
}

/// Fails where a number of an obligation's own forms is too large for `i64`: of a pair of stops what is to be at least 0, or what denies
/// it, of a pair of accesses a difference of their indexes.
pub fn try_forms<D: Domain>(alloc: Global, met: &Met<D>, owed: Owed) -> Result<(), WalkError>
    requires { IsHeld met.now owed }
    ensures { MatchResult result (λ _. fits_at met.now owed ≡ true) (DoNotFit (fits_at met.now owed)) }
{
    match owed {
        Owed::Claim(_) => Ok(()),
        Owed::Ends(meeting) => try_meeting(alloc, met, meeting),
        Owed::Accesses(crossing) => try_differences(alloc, met, crossing),
    }
}

impl<'a, D: Domain> Premises<'a, D> {
    ghost use Rattle.std.specs.Prelude.{◌≡◌, MatchResult};
    ghost use Rattle.walk_trees.specs.Trees.{facts_by};
    ghost use Rattle.two_thread.specs.Goals.{manner as manner_seen, maybe_forms};
    ghost use Rattle.two_thread.specs.Quotients.{is_second_claim};
    ghost use Rattle.two_thread.specs.Refusals.{DoNotFit};
    ghost use Rattle.entry_check.specs.Hand.{IsDenied, IsHeld, fits_at, obligation_at};

    /// The domain alone shows an obligation.
    pub fn is_settled(&self, alloc: Global, met: &Met<D>, owed: Owed) -> Result<bool, WalkError>
        requires { IsHeld met.now owed }
        ensures { MatchResult result (λ b. b ≡ (obligation_at D.Domain self.now met.now owed).settled) (DoNotFit (fits_at met.now owed)) }
    {
        match owed {
            Owed::Claim(i) => Ok(is_settled(met, i)),
            Owed::Ends(meeting) => is_agreed(alloc, self.known, met, meeting),
            Owed::Accesses(crossing) => is_apart(alloc, self.known, met, crossing),
        }
    }

    /// An obligation has to be shown even where a certificate has no entry for it.
    pub fn is_needed(&self, met: &Met<D>, owed: Owed) -> bool
        requires { IsHeld met.now owed }
        ensures { result ≡ (obligation_at D.Domain self.now met.now owed).needed }
    {
        match owed {
            Owed::Claim(i) => is_needed(met, i),
            Owed::Ends(_) | Owed::Accesses(_) => true,
        }
    }

    /// An obligation is the second claim of a congruence or a multiple, whose first one has the number before.
    pub fn is_second_claim(&self, met: &Met<D>, owed: Owed) -> bool
        requires { IsHeld met.now owed }
        ensures { result ≡ is_second_claim (obligation_at D.Domain self.now met.now owed).goal }
    {
        match owed {
            Owed::Claim(i) => claims_second(met, i),
            Owed::Ends(_) | Owed::Accesses(_) => false,
        }
    }

    /// The facts that are to be impossible where an obligation is shown in a manner; none where the manner does not fit.
    pub fn facts(
        &self,
        alloc: Global,
        met: &Met<D>,
        owed: Owed,
        manner: Manner,
    ) -> Result<Option<Vec<Form>>, WalkError>
        requires held { IsHeld met.now owed }
        requires denied { IsDenied met.now owed }
        ensures { MatchResult result (λ r. maybe_forms r ≡ facts_by (manner_seen manner) (obligation_at D.Domain self.now met.now owed)) (DoNotFit (fits_at met.now owed)) }
    {
        let (launch, alike) = (self.launch, self.alike);
        match owed {
            Owed::Claim(i) => claim_facts(alloc, launch, met, i, manner),
            Owed::Ends(meeting) => meeting_facts(alloc, launch, alike, met, meeting, manner),
            Owed::Accesses(crossing) => {
                crossing_facts_by(alloc, launch, alike, met, crossing, manner)
            }
        }
    }
}
