//! The entry of an obligation, and whether it refutes it.

ghost use Rattle.std.specs.Prelude.{◌≡◌, ◌<◌, ◌&&◌, IfOk, IsTrue, MatchResult};
ghost use Rattle.walk_trees.specs.Shown.{IsShownWithProducts};
ghost use Rattle.certificate.specs.View.{entry as entry_seen};
ghost use Rattle.two_thread.specs.Goals.{maybe_forms};
ghost use Rattle.two_thread.specs.Refusals.{DoNotFit};
ghost use Rattle.entry_check.specs.Entries as entries;
ghost use Rattle.entry_check.specs.Hand.{IsDenied, IsHeld, fits_at, obligation_at};
ghost use Rattle.entry_check.specs.View.{stated as stated_seen, said as said_seen};

use crate::asked::Asked;
use crate::derivations::{is_refuted, manner_of};
use crate::hand::Owed;
use crate::quotients::names_one;
use certificate::tree::Entry;
use domain::Domain;
use facts::WalkError;
use linear::Form;
use two_thread::Met;

/// The facts that an entry is to refute; none where it does not fit the obligation.
fn facts_for<D: Domain>(
    asked: &Asked<'_, D>,
    met: &Met<D>,
    owed: Owed,
    entry: &Entry,
) -> Result<Option<Vec<Form>>, WalkError>
    requires held { IsHeld met.now owed }
    requires denied { IsDenied met.now owed }
    ensures { MatchResult result (λ fs. maybe_forms fs ≡ entries.facts_for (entry_seen entry.now).sort (obligation_at D.Domain asked.now.premises met.now owed)) (DoNotFit (fits_at met.now owed)) }
{
    asked
        .premises
        .facts(asked.alloc, met, owed, manner_of(&entry.sort))
}

/// An entry names the quotient that it has to, fits its obligation, and refutes its facts.
pub fn is_refuted_by<D: Domain>(
    asked: &Asked<'_, D>,
    met: &Met<D>,
    owed: Owed,
    number: usize,
    entry: &Entry,
) -> Result<bool, WalkError>
    requires held { IsHeld met.now owed }
    requires denied { IsDenied met.now owed }
    requires first { 0 < number }
    ensures exact { MatchResult result (λ b. b ≡ (entries.names_one (said_seen asked.now.said.now).quotient number (obligation_at D.Domain asked.now.premises met.now owed) && entries.refutes_by (stated_seen asked.now.said.now.names) (entry_seen entry.now) (obligation_at D.Domain asked.now.premises met.now owed))) (DoNotFit (fits_at met.now owed)) }
    ensures shown { IfOk result (λ b. IsTrue b → IsShownWithProducts (obligation_at D.Domain asked.now.premises met.now owed)) }
{
    if !names_one(asked, met, owed, number) {
        return Ok(false);
    }
    let Some(facts) = facts_for(asked, met, owed, entry)? else {
        return Ok(false);
    };
    Ok(is_refuted(asked.alloc, facts.as_slice(), &asked.said.names, entry)?)
}
