//! The meetings of an end with others.

ghost use Rattle.std.specs.Prelude.{◌≡◌, ◌<◌, [], IfOk, IfErr, MatchResult, drop, length, map};
ghost use Rattle.std.specs.List.{All};
ghost use Rattle.path_steps.specs.View.{stop as stop_seen};
ghost use Rattle.two_thread.specs.Meetings.{IsInside, meet_each, meeting_fits, meeting_seen};
ghost use Rattle.two_thread.specs.Refusals.{IsOver};
ghost use Rattle.two_thread.specs.View.{met_end, met_ends};
ghost use Rattle.entry_check.specs.Hand.{meeting_owed, notes_in};
ghost use Rattle.entry_check.specs.Pairs.{all_final, meeting_at, meeting_fits_at, no_barrier};
ghost use Rattle.entry_check.specs.Tallies.{Cuts, IsSound, Takes};
ghost use Rattle.entry_check.specs.View.{said as said_seen};

use crate::asked::Asked;
use crate::hand::Owed;
use crate::tally::Tally;
use domain::Domain;
use facts::WalkError;
use path_steps::Stop;
use two_thread::{Meeting, Met, stop_of, two_meet};
use walk::FindError;

/// The meetings of an end with those from a number on.
fn meetings_with<D: Domain>(
    asked: &Asked<'_, D>,
    met: &Met<D>,
    i: usize,
    from: usize,
) -> Result<Vec<Meeting>, WalkError>
    requires first { i < length met.now.ends.items }
    ensures exact { MatchResult result (λ v. map (meeting_seen (met_ends met.now)) v.items ≡ meet_each (notes_in asked.now.premises) (met_end met.now i) (drop from (met_ends met.now))) (IsOver 65536 (length (meet_each (notes_in asked.now.premises) (met_end met.now i) (drop from (met_ends met.now))))) }
    ensures inside { IfOk result (λ v. All (IsInside (length met.now.ends.items)) v.items) }
{
    let mut found = Vec::new(asked.alloc);
    for j in from..met.end_count() {
        two_meet(&mut found, 65_536, asked.premises.alike, met, i, j)?;
    }
    Ok(found)
}

/// Meetings of what is held.
fn take_meetings<D: Domain>(
    tally: &mut Tally<'_, '_>,
    asked: &Asked<'_, D>,
    met: &Met<D>,
    meetings: &[Meeting],
) -> Result<(), FindError>
    requires sound { IsSound tally.old }
    requires inside { All (IsInside (length met.now.ends.items)) meetings.now }
    ensures sound { IfOk result (λ _. IsSound tally.new) }
    ensures takes { IfOk result (λ _. Takes (said_seen asked.now.said.now) (meeting_at D.Domain asked.now.premises met.now) (meeting_fits_at met.now) meetings.now [] tally.old tally.new) }
    ensures cuts { IfErr result (Cuts (said_seen asked.now.said.now) (meeting_at D.Domain asked.now.premises met.now) (meeting_fits_at met.now) meetings.now tally.old) }
{
    for k in 0..meetings.len() {
        tally.take(asked, met, Owed::Ends(meetings[k]))?;
    }
    Ok(())
}

/// An end with those from a number on.
pub fn take_meetings_with<D: Domain>(
    tally: &mut Tally<'_, '_>,
    asked: &Asked<'_, D>,
    met: &Met<D>,
    i: usize,
    from: usize,
) -> Result<(), FindError>
    requires sound { IsSound tally.old }
    requires first { i < length (met_ends met.now) }
    ensures sound { IfOk result (λ _. IsSound tally.new) }
    ensures takes { IfOk result (λ _. Takes (said_seen asked.now.said.now) (meeting_owed D.Domain asked.now.premises) meeting_fits (meet_each (notes_in asked.now.premises) (met_end met.now i) (drop from (met_ends met.now))) [] tally.old tally.new) }
    ensures cuts { IfErr result (Cuts (said_seen asked.now.said.now) (meeting_owed D.Domain asked.now.premises) meeting_fits (meet_each (notes_in asked.now.premises) (met_end met.now i) (drop from (met_ends met.now))) tally.old) }
{
    let found = meetings_with(asked, met, i, from)?;
    take_meetings(tally, asked, met, found.as_slice())
}

/// A stop is no barrier.
fn is_no_barrier(stop: Stop) -> bool
    ensures { result ≡ no_barrier (stop_seen stop) }
{
    match stop {
        Stop::Barrier(_) => false,
        Stop::Head { .. } | Stop::End => true,
    }
}

/// No end of the paths that are held is at a barrier.
pub fn are_final<D: Domain>(met: &Met<D>) -> bool
    ensures { result ≡ all_final (met_ends met.now) }
{
    for i in 0..met.end_count() {
        if !is_no_barrier(stop_of(met, i)) {
            return false;
        }
    }
    true
}
