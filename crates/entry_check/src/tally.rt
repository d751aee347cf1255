//! Obligations, counted and shown one by one.

ghost use Rattle.std.specs.Prelude.{◌≡◌, ◌<◌, None, true, IfOk, IfErr};
ghost use Rattle.entry_check.specs.Hand.{IsDenied, IsHeld, fits_at, obligation_at};
ghost use Rattle.entry_check.specs.Supplied.{IsReady};
ghost use Rattle.entry_check.specs.Tallies.{GoesOn, Stops, StopsBefore};
ghost use Rattle.entry_check.specs.View.{said as said_seen};

use crate::asked::Asked;
use crate::error::ShowError;
use crate::hand::Owed;
use crate::showing::show_one;
use crate::supply::Supply;
use certificate::Entries;
use domain::Domain;
use facts::WalkError;
use std::alloc::AllocError;
use two_thread::Met;
use walk::FindError;

/// The state of the check: the number of obligations so far, the entries for those to come, and the fault at which it
/// stopped, behind which obligations are only counted.
#[derive(Drop)]
pub struct Tally<'e, 't> {
    pub(crate) supply: Supply<'e, 't>,
    pub(crate) count: usize,
    pub(crate) stopped: Option<ShowError>,
}

/// The obligation behind so many is shown.
fn show_next<D: Domain>(
    asked: &Asked<'_, D>,
    met: &Met<D>,
    owed: Owed,
    count: usize,
    supply: &mut Supply<'_, '_>,
) -> Result<(), ShowError>
    requires held { IsHeld met.now owed }
    requires denied { IsDenied met.now owed }
    requires few { count < 65536 }
    requires ready { IsReady supply.old }
    ensures ready { IfOk result (λ _. IsReady supply.new) }
    ensures on { IfOk result (λ _. GoesOn (said_seen asked.now.said.now) (obligation_at D.Domain asked.now.premises met.now owed) (fits_at met.now owed) count supply.old supply.new) }
    ensures stops { IfErr result (Stops (said_seen asked.now.said.now) (obligation_at D.Domain asked.now.premises met.now owed) (fits_at met.now owed) count supply.old) }
{
    supply.pass(count as u64)?;
    show_one(asked, met, owed, count + 1, supply)
}

/// The fault that stops the check before the first obligation: the denial of a claim has a number that is too large for
/// `i64`.
fn stopped_by(fit: bool) -> Option<ShowError>
    ensures none { result ≡ None → fit ≡ true }
    ensures stops { StopsBefore fit result }
{
    if fit {
        None
    } else {
        Some(ShowError::Walk(WalkError::TooLarge))
    }
}

impl<'e, 't> Tally<'e, 't> {
    ghost use Rattle.std.specs.Prelude.{◌≡◌, ◌≤◌, List, [], Bool, None, true, IfOk, IfErr, OnOk, length};
    ghost use Rattle.std.specs.List.{All};
    ghost use Rattle.certificate.specs.EntryCursors.{left, stopped};
    ghost use Rattle.certificate_text.specs.Certificate.{Entry};
    ghost use Rattle.certificate_text.specs.Rules.{rises, entry_is_before};
    ghost use Rattle.walk_trees.specs.Shown.{IsShownWithProducts};
    ghost use Rattle.walk_trees.specs.Trees.{Obligation};
    ghost use Rattle.entry_check.specs.Entries as entries;
    ghost use Rattle.entry_check.specs.Hand.{IsDenied, IsHeld, fits_at, obligation_at};
    ghost use Rattle.entry_check.specs.Lacking.{ArePassed};
    ghost use Rattle.entry_check.specs.Tallies.{Begins, CutsOne, Ends, IsSound, Keeps, TakesOne};
    ghost use Rattle.entry_check.specs.View.{said as said_seen};

    /// Before the first of them. Where not all that denies claims is of `i64`, none is looked at.
    pub fn of(entries: &'e mut Entries<'t>, fit: bool) -> Result<Tally<'e, 't>, AllocError>
        requires starts { stopped entries.old ≡ None }
        requires whole { (left entries.old).fault ≡ None }
        requires rises { rises entry_is_before (left entries.old).entries ≡ true }
        ensures begins { IfOk result (Begins (left entries.old).entries fit) }
        ensures sound { IfOk result IsSound }
        ensures looks { IfOk result (λ t. t.stopped ≡ None → fit ≡ true) }
    {
        let supply = Supply::of(entries)?;
        Ok(Tally {
            supply,
            count: 0,
            stopped: stopped_by(fit),
        })
    }

    /// The next obligation is shown, or what it stops at is kept. Over 65,536 are refused.
    pub fn take<D: Domain>(
        &mut self,
        asked: &Asked<'_, D>,
        met: &Met<D>,
        owed: Owed,
    ) -> Result<(), FindError>
        requires sound { IsSound self.old }
        requires held { IsHeld met.now owed }
        requires denied { self.old.stopped ≡ None → IsDenied met.now owed }
        ensures takes { IfOk result (λ _. TakesOne (said_seen asked.now.said.now) (obligation_at D.Domain asked.now.premises met.now owed) (fits_at met.now owed) self.old self.new) }
        ensures sound { IfOk result (λ _. IsSound self.new) }
        ensures keeps { IfOk result (λ _. Keeps self.old self.new) }
        ensures cuts { IfErr result (CutsOne (said_seen asked.now.said.now) (obligation_at D.Domain asked.now.premises met.now owed) (fits_at met.now owed) self.old) }
    {
        if self.count >= 65_536 {
            return Err(FindError::Walk(WalkError::TooMany));
        }
        if self.stopped.is_none() {
            match show_next(asked, met, owed, self.count, &mut self.supply) {
                Ok(()) => {}
                Err(error) => self.stopped = Some(error),
            }
        }
        self.count += 1;
        Ok(())
    }

    /// All were taken: what the check has stopped at is answered, or that an entry is past the last of them.
    pub fn end(self) -> Result<(), ShowError>
        requires { IsSound self }
        ensures ends { Ends self.entry result }
    {
        let Tally {
            mut supply,
            count,
            stopped,
        } = self;
        if let Some(error) = stopped {
            return Err(error);
        }
        if supply.has_past(count as u64)? {
            return Err(ShowError::NotShown(0));
        }
        Ok(())
    }
}
