//! The claims of congruences and multiples.

ghost use Rattle.std.specs.Prelude.{◌≡◌, ◌<◌, Some, length};
ghost use Rattle.path_steps.specs.View.{goal_seen};
ghost use Rattle.two_thread.specs.Quotients.{is_second_claim};
ghost use Rattle.two_thread.specs.View.{nth_claim};

use crate::claims::place_of_claim;
use crate::met::Met;
use crate::numbered::{Obligations, Which};
use domain::Domain;
use path_steps::Goal;

/// A goal is the second one of a congruence or a multiple.
fn is_second(goal: &Goal) -> bool
    ensures { result ≡ is_second_claim (Some (goal_seen goal.now)) }
{
    match goal {
        Goal::Divided { made, .. } => made.as_slice().is_empty(),
        Goal::AtLeastZero(_) | Goal::Either(_, _) | Goal::Replaced { .. } => false,
    }
}

/// A claim, given by its number, is the second one of a congruence or a multiple.
pub fn claims_second<D: Copy>(met: &Met<D>, i: usize) -> bool
    requires { i < length met.now.claims.items }
    ensures { result ≡ is_second_claim (Some (nth_claim met.now i).goal) }
{
    let place = place_of_claim(met, i);
    let tagged = &met.paths[place.path];
    let claim = &tagged.path.claims[place.item];
    is_second(&claim.goal)
}

impl<D: Domain> Obligations<D> {
    ghost use Rattle.std.specs.Prelude.{◌≡◌, ◌≤◌, ◌<◌, length};
    ghost use Rattle.two_thread.specs.Listed.{listed, nth_obligation};
    ghost use Rattle.two_thread.specs.Quotients.{is_second_claim};

    /// An obligation is the second claim of a congruence or a multiple, whose first one has the number before; an entry names the quotient
    /// for both.
    pub fn is_second_claim(&self, number: usize) -> bool
        requires first { 0 < number }
        requires last { number ≤ length (listed D.Domain self.now) }
        ensures { result ≡ is_second_claim (nth_obligation (listed D.Domain self.now) number).goal }
    {
        match self.which(number) {
            Which::OfClaim(i) => claims_second(&self.met, i),
            Which::OfMeeting(_) | Which::OfCrossing(_) => false,
        }
    }
}
