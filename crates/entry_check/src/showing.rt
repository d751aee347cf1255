//! One obligation, against its entry.

ghost use Rattle.std.specs.Prelude.{◌≡◌, ◌≤◌, ◌<◌, Option, true, IfOk, IfErr};
ghost use Rattle.walk_trees.specs.Shown.{IsShownWithProducts};
ghost use Rattle.two_thread.specs.Refusals.{DoNotFit};
ghost use Rattle.entry_check.specs.Hand.{IsDenied, IsHeld, fits_at, obligation_at};
ghost use Rattle.entry_check.specs.Lacking.{IsStopped, Passes, TellsBy};
ghost use Rattle.entry_check.specs.Supplied.{IsReady, ahead, begin_from};
ghost use Rattle.entry_check.specs.View.{said as said_seen};

use crate::asked::Asked;
use crate::error::ShowError;
use crate::hand::{Owed, try_forms};
use crate::refuting::is_refuted_by;
use crate::supply::Supply;
use domain::Domain;
use two_thread::Met;

/// An obligation is settled, or refuted by its entry, or is not needed and has no entry. Whichever it is, its own forms come first.
pub fn show_one<D: Domain>(
    asked: &Asked<'_, D>,
    met: &Met<D>,
    owed: Owed,
    number: usize,
    supply: &Supply<'_, '_>,
) -> Result<(), ShowError>
    requires held { IsHeld met.now owed }
    requires denied { IsDenied met.now owed }
    requires first { 0 < number }
    requires few { number ≤ 65536 }
    requires ready { IsReady supply.now }
    requires passed { begin_from number (ahead supply.now) ≡ true }
    ensures shown { IfOk result (λ _. IsShownWithProducts (obligation_at D.Domain asked.now.premises met.now owed)) }
    ensures passes { IfOk result (λ _. Passes (said_seen asked.now.said.now) (ahead supply.now) (fits_at met.now owed) number (obligation_at D.Domain asked.now.premises met.now owed)) }
    ensures lacks { IfErr result (TellsBy (IsStopped (said_seen asked.now.said.now) (ahead supply.now) (fits_at met.now owed) number (obligation_at D.Domain asked.now.premises met.now owed)) (λ _. ⊥) (DoNotFit (fits_at met.now owed))) }
{
    try_forms(asked.alloc, met, owed)?;
    if asked.premises.is_settled(asked.alloc, met, owed)? {
        return Ok(());
    }
    let Some(entry) = supply.at(number as u64) else {
        if asked.premises.is_needed(met, owed) {
            return Err(ShowError::NotShown(number as u64));
        }
        return Ok(());
    };
    if is_refuted_by(asked, met, owed, number, entry)? {
        return Ok(());
    }
    Err(ShowError::NotShown(number as u64))
}
