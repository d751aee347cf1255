//! The pairs of stops at which two items of a group may be: which they are.

ghost use Rattle.std.specs.Prelude.{◌≡◌, ◌++◌, ◌+◌, ◌<◌, ℕ, List, IfOk, MatchResult, map, length, drop};
ghost use Rattle.std.specs.List.{All};
ghost use Rattle.arrivals.specs.Places.{same_numbers as same_list};
ghost use Rattle.arrivals.specs.Shown as shown;
ghost use Rattle.path_steps.specs.View.{stop as stop_seen, turns as turns_seen};
ghost use Rattle.obligations.specs.Meetings as specs;
ghost use Rattle.two_thread.specs.Alike.{notes_of};
ghost use Rattle.two_thread.specs.Meetings as meetings;
ghost use Rattle.two_thread.specs.Refusals.{IsOver};
ghost use Rattle.two_thread.specs.View.{met_end, met_ends};

use crate::alike::{Alike, same_of_barrier};
use crate::anchors::same_anchor;
use crate::limit::push_one;
use crate::met::Met;
use crate::stops::{end_anchor, stop_of, turns_of};
use facts::WalkError;
use path_steps::Stop;
use std::alloc::Global;

/// The goal of two stops: that the first item's slot is at least the second one's, at most that, or that no two items come to both stops.
#[derive(Clone, Copy)]
pub enum About {
    AtLeast(u32),
    AtMost(u32),
    Never,
}

/// Two ends by their numbers, the second one the second item's, and what is to be shown of them.
#[derive(Clone, Copy)]
pub struct Meeting {
    pub first: usize,
    pub second: usize,
    pub about: About,
}

/// The obligation of two items at these stops: none, that they agree at a barrier of this number, or that they are never at both.
#[derive(Clone, Copy)]
pub enum Owed {
    Nothing,
    Agreement(u32),
    Never,
}

/// The stop is a barrier, or the end of the kernel.
pub fn is_rest(stop: Stop) -> bool
    ensures { result ≡ specs.is_rest (stop_seen stop) }
{
    match stop {
        Stop::Barrier(_) | Stop::End => true,
        Stop::Head { .. } => false,
    }
}

#[tactic(auto, using(crate::proofs::Turns::same_reverse))]
/// Two lists of loops are there, and are the same list.
fn same_turns(left: &Option<Vec<u32>>, right: &Option<Vec<u32>>) -> bool
    ensures { result ≡ shown.same_turns (turns_seen left.now) (turns_seen right.now) }
{
    match (left, right) {
        (Some(left), Some(right)) => same_numbers(left.as_slice(), right.as_slice()),
        (None, _) | (Some(_), None) => false,
    }
}

/// Two lists of numbers are the same, in order.
fn same_numbers(left: &[u32], right: &[u32]) -> bool
    ensures { result ≡ same_list left.now right.now }
{
    if left.len() != right.len() {
        return false;
    }
    for i in 0..left.len() {
        if left[i] != right[i] {
            return false;
        }
    }
    true
}

/// The obligation that two stops give; `same` says whether both are reached in the same turns of loops.
fn owed_at(left: Stop, right: Stop, same: bool) -> Owed
    ensures { meetings.owed_seen result ≡ shown.owed (stop_seen left) (stop_seen right) same }
{
    match (left, right) {
        (Stop::End, Stop::End) => Owed::Nothing,
        (Stop::Barrier(n), Stop::Barrier(m)) => {
            if n == m && same {
                Owed::Agreement(n)
            } else {
                Owed::Never
            }
        }
        (Stop::End, Stop::Barrier(_) | Stop::Head { .. })
        | (Stop::Barrier(_), Stop::End | Stop::Head { .. })
        | (Stop::Head { .. }, _) => Owed::Never,
    }
}

/// A slot that is to be alike, both ways round.
fn agree_on<D: Copy>(
    found: &mut Vec<Meeting>,
    most: usize,
    met: &Met<D>,
    at: Meeting,
    slot: u32,
) -> Result<(), WalkError>
    ensures exact { MatchResult result (λ _. meetings.Adds (met_ends met.now) found.old.items found.new.items (meetings.agree_on (met_end met.now at.first) (met_end met.now at.second) slot)) (IsOver most (length found.old.items + length (meetings.agree_on (met_end met.now at.first) (met_end met.now at.second) slot))) }
    ensures inside { IfOk result (λ _. (n : ℕ) → meetings.IsInside n at → All (meetings.IsInside n) found.old.items → All (meetings.IsInside n) found.new.items) }
{
    push_one(
        found,
        most,
        Meeting {
            about: About::AtLeast(slot),
            ..at
        },
    )?;
    push_one(
        found,
        most,
        Meeting {
            about: About::AtMost(slot),
            ..at
        },
    )?;
    Ok(())
}

/// Adds the meetings of two ends by which the slots are alike at both.
fn agreements<D: Copy>(
    found: &mut Vec<Meeting>,
    most: usize,
    met: &Met<D>,
    at: Meeting,
    slots: &[u32],
) -> Result<(), WalkError>
    ensures exact { MatchResult result (λ _. meetings.Adds (met_ends met.now) found.old.items found.new.items (meetings.agreements (met_end met.now at.first) (met_end met.now at.second) slots.now)) (IsOver most (length found.old.items + length (meetings.agreements (met_end met.now at.first) (met_end met.now at.second) slots.now))) }
    ensures inside { IfOk result (λ _. (n : ℕ) → meetings.IsInside n at → All (meetings.IsInside n) found.old.items → All (meetings.IsInside n) found.new.items) }
{
    for i in 0..slots.len() {
        agree_on(found, most, met, at, slots[i])?;
    }
    Ok(())
}

/// Adds the meetings that make up what has to be shown of two ends; an error where there would be more than `most`.
fn owed_of<D: Copy>(
    found: &mut Vec<Meeting>,
    most: usize,
    alike: &[Alike],
    met: &Met<D>,
    at: Meeting,
    owed: Owed,
) -> Result<(), WalkError>
    ensures exact { MatchResult result (λ _. meetings.Adds (met_ends met.now) found.old.items found.new.items (meetings.owed_of (notes_of alike.now) (met_end met.now at.first) (met_end met.now at.second) (meetings.owed_seen owed))) (IsOver most (length found.old.items + length (meetings.owed_of (notes_of alike.now) (met_end met.now at.first) (met_end met.now at.second) (meetings.owed_seen owed)))) }
    ensures inside { IfOk result (λ _. (n : ℕ) → meetings.IsInside n at → All (meetings.IsInside n) found.old.items → All (meetings.IsInside n) found.new.items) }
{
    match owed {
        Owed::Nothing => Ok(()),
        Owed::Agreement(barrier) => {
            let slots = same_of_barrier(alike, barrier);
            agreements(found, most, met, at, slots)?;
            Ok(())
        }
        Owed::Never => {
            push_one(
                found,
                most,
                Meeting {
                    about: About::Never,
                    ..at
                },
            )?;
            Ok(())
        }
    }
}

/// Adds the meetings of two ends that have one anchor, if the second one is a barrier or the kernel's end.
pub fn two_meet<D: Copy>(
    found: &mut Vec<Meeting>,
    most: usize,
    alike: &[Alike],
    met: &Met<D>,
    i: usize,
    j: usize,
) -> Result<(), WalkError>
    requires first { i < length met.now.ends.items }
    requires second { j < length met.now.ends.items }
    ensures exact { MatchResult result (λ _. meetings.Adds (met_ends met.now) found.old.items found.new.items (meetings.two_meet (notes_of alike.now) (met_end met.now i) (met_end met.now j))) (IsOver most (length found.old.items + length (meetings.two_meet (notes_of alike.now) (met_end met.now i) (met_end met.now j)))) }
    ensures inside { IfOk result (λ _. All (meetings.IsInside (length met.now.ends.items)) found.old.items → All (meetings.IsInside (length met.now.ends.items)) found.new.items) }
{
    if same_anchor(end_anchor(met, i), end_anchor(met, j)) && is_rest(stop_of(met, j)) {
        let same = same_turns(turns_of(met, i), turns_of(met, j));
        let owed = owed_at(stop_of(met, i), stop_of(met, j), same);
        let at = Meeting {
            first: i,
            second: j,
            about: About::Never,
        };
        owed_of(found, most, alike, met, at, owed)?;
    }
    Ok(())
}

/// An end with itself and those behind it.
fn meet_each<D: Copy>(
    found: &mut Vec<Meeting>,
    most: usize,
    alike: &[Alike],
    met: &Met<D>,
    i: usize,
) -> Result<(), WalkError>
    requires { i < length met.now.ends.items }
    ensures exact { MatchResult result (λ _. meetings.Adds (met_ends met.now) found.old.items found.new.items (meetings.meet_each (notes_of alike.now) (met_end met.now i) (drop i (met_ends met.now)))) (IsOver most (length found.old.items + length (meetings.meet_each (notes_of alike.now) (met_end met.now i) (drop i (met_ends met.now))))) }
    ensures inside { IfOk result (λ _. All (meetings.IsInside (length met.now.ends.items)) found.old.items → All (meetings.IsInside (length met.now.ends.items)) found.new.items) }
{
    for j in i..met.ends.len() {
        two_meet(found, most, alike, met, i, j)?;
    }
    Ok(())
}

/// Adds the meetings of one end with itself and the ends behind it, if it is a barrier or the kernel's end.
fn meet_from<D: Copy>(
    found: &mut Vec<Meeting>,
    most: usize,
    alike: &[Alike],
    met: &Met<D>,
    i: usize,
) -> Result<(), WalkError>
    requires { i < length met.now.ends.items }
    ensures exact { MatchResult result (λ _. meetings.Adds (met_ends met.now) found.old.items found.new.items (meetings.meet_from (notes_of alike.now) (met_end met.now i) (drop i (met_ends met.now)))) (IsOver most (length found.old.items + length (meetings.meet_from (notes_of alike.now) (met_end met.now i) (drop i (met_ends met.now))))) }
    ensures inside { IfOk result (λ _. All (meetings.IsInside (length met.now.ends.items)) found.old.items → All (meetings.IsInside (length met.now.ends.items)) found.new.items) }
{
    if is_rest(stop_of(met, i)) {
        meet_each(found, most, alike, met, i)?;
    }
    Ok(())
}

/// All pairs of stops, at most so many.
pub fn all_meetings<D: Copy>(
    alloc: Global,
    alike: &[Alike],
    met: &Met<D>,
    most: usize,
) -> Result<Vec<Meeting>, WalkError>
    ensures exact { MatchResult result (λ v. map (meetings.meeting_seen (met_ends met.now)) v.items ≡ meetings.all_meetings (notes_of alike.now) (met_ends met.now)) (IsOver most (length (meetings.all_meetings (notes_of alike.now) (met_ends met.now)))) }
    ensures inside { IfOk result (λ v. All (meetings.IsInside (length met.now.ends.items)) v.items) }
{
    let mut found = Vec::new(alloc);
    for i in 0..met.ends.len() {
        meet_from(&mut found, most, alike, met, i)?;
    }
    Ok(found)
}
