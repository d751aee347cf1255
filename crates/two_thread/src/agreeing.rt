//! The facts of pairs of stops.

ghost use Rattle.std.specs.Prelude.{◌≡◌, ◌++◌, ◌∷◌, [], ◌<◌, IfOk, MatchResult, true, length, Some, None};
ghost use Rattle.linear.specs.Exact.{fits};
ghost use Rattle.linear.specs.Forms.{form as form_seen, forms};
ghost use Rattle.facts.specs.Elements as elements;
ghost use Rattle.facts.specs.Symbols as symbols;
ghost use Rattle.facts.specs.Refusals.{IsMemory, IsUnfit};
ghost use Rattle.facts.specs.View.{known_seen};
ghost use Rattle.walk_trees.specs.Seconds as copies;
ghost use Rattle.walk_trees.specs.Trees.{facts_by};
ghost use Rattle.obligations.specs.Meetings as specs;
ghost use Rattle.two_thread.specs.Alike.{notes_of};
ghost use Rattle.two_thread.specs.Goals.{manner as manner_seen, maybe_form, maybe_forms, listed_form};
ghost use Rattle.two_thread.specs.Meetings.{difference, difference_back, goal_about, meeting_seen, meeting_fits, both_fit, denied, facts_about, facts_shown, is_settled_about};
ghost use Rattle.two_thread.specs.Refusals.{DoNotFit};
ghost use Rattle.two_thread.specs.View.{met_end, met_ends};

use crate::alike::{Alike, same_at};
use crate::equal::{push_group, push_same};
use crate::manner::Manner;
use crate::meetings::{About, Meeting};
use crate::met::Met;
use crate::seconds::second_form;
use crate::stops::{
    end_anchor, facts_at_end, held_at_end, is_end_of_head, second_facts_at_end, variable_at_end,
};
use crate::two::element_of;
use domain::Domain;
use facts::{Known, WalkError, copy_all, number_less};
use linear::Form;
use std::alloc::Global;

/// A variable, as the second one has it.
fn other_form<D: Copy>(alloc: Global, met: &Met<D>, j: usize, slot: u32) -> Result<Form, WalkError>
    requires { j < length met.now.ends.items }
    ensures { MatchResult result (λ f. form_seen f ≡ specs.other_form (met_end met.now j) slot) IsMemory }
{
    let form = variable_at_end(alloc, met, j, slot)?;
    second_form(alloc, &form)
}

/// One form less the other, or an error.
fn less(alloc: Global, left: &Form, right: &Form) -> Result<Form, WalkError>
    ensures { MatchResult result (λ f. form_seen f ≡ symbols.minus (form_seen left.now) (form_seen right.now)) (λ e. IsUnfit e (symbols.minus (form_seen left.now) (form_seen right.now))) }
{
    let difference = left.sub(alloc, right)?;
    Ok(difference)
}

/// The first one's slot less the second one's.
fn difference_of<D: Copy>(
    alloc: Global,
    met: &Met<D>,
    meeting: Meeting,
    slot: u32,
) -> Result<Form, WalkError>
    requires first { meeting.first < length met.now.ends.items }
    requires second { meeting.second < length met.now.ends.items }
    ensures { MatchResult result (λ f. form_seen f ≡ difference (met_end met.now meeting.first) (met_end met.now meeting.second) slot) (λ e. IsUnfit e (difference (met_end met.now meeting.first) (met_end met.now meeting.second) slot)) }
{
    let left = variable_at_end(alloc, met, meeting.first, slot)?;
    let right = other_form(alloc, met, meeting.second, slot)?;
    less(alloc, &left, &right)
}

/// The second item's value of the slot at its stop, less the first item's.
fn difference_back_of<D: Copy>(
    alloc: Global,
    met: &Met<D>,
    meeting: Meeting,
    slot: u32,
) -> Result<Form, WalkError>
    requires first { meeting.first < length met.now.ends.items }
    requires second { meeting.second < length met.now.ends.items }
    ensures { MatchResult result (λ f. form_seen f ≡ difference_back (met_end met.now meeting.first) (met_end met.now meeting.second) slot) (λ e. IsUnfit e (difference_back (met_end met.now meeting.first) (met_end met.now meeting.second) slot)) }
{
    let left = variable_at_end(alloc, met, meeting.first, slot)?;
    let right = other_form(alloc, met, meeting.second, slot)?;
    less(alloc, &right, &left)
}

#[tactic(auto, using(crate::proofs::Wanted::unfit_difference))]
/// The form that is to be at least 0 of two stops; none where no two items may come to both.
fn goal_of<D: Copy>(
    alloc: Global,
    met: &Met<D>,
    meeting: Meeting,
) -> Result<Option<Form>, WalkError>
    requires first { meeting.first < length met.now.ends.items }
    requires second { meeting.second < length met.now.ends.items }
    ensures { MatchResult result (λ o. maybe_form o ≡ goal_about (meeting_seen (met_ends met.now) meeting)) (DoNotFit (meeting_fits (meeting_seen (met_ends met.now) meeting))) }
{
    match meeting.about {
        About::AtLeast(slot) => Ok(Some(difference_of(alloc, met, meeting, slot)?)),
        About::AtMost(slot) => Ok(Some(difference_back_of(alloc, met, meeting, slot)?)),
        About::Never => Ok(None),
    }
}

#[tactic(auto, using(crate::proofs::Wanted::unfit_denial))]
/// The form that is at least 0 where the goal is not, `-1 - goal`; none where there is no goal.
fn denial_of(alloc: Global, goal: &Option<Form>) -> Result<Option<Form>, WalkError>
    ensures exact { MatchResult result (λ o. listed_form o ≡ denied (maybe_form goal.now)) (DoNotFit (both_fit (maybe_form goal.now))) }
    ensures fits { IfOk result (λ _. both_fit (maybe_form goal.now) ≡ true) }
{
    match goal {
        Some(form) => {
            let denial = number_less(alloc, -1, form)?;
            Ok(Some(denial))
        }
        None => Ok(None),
    }
}

/// Fails where a number of the goal of two stops, or of what denies it, is too large for `i64`.
pub fn try_meeting<D: Copy>(alloc: Global, met: &Met<D>, meeting: Meeting) -> Result<(), WalkError>
    requires first { meeting.first < length met.now.ends.items }
    requires second { meeting.second < length met.now.ends.items }
    ensures { MatchResult result (λ _. meeting_fits (meeting_seen (met_ends met.now) meeting) ≡ true) (DoNotFit (meeting_fits (meeting_seen (met_ends met.now) meeting))) }
{
    let goal = goal_of(alloc, met, meeting)?;
    denial_of(alloc, &goal)?;
    Ok(())
}

/// Two items of one group, with what is alike at their anchor.
fn push_anchor<D: Copy>(
    alloc: Global,
    facts: &mut Vec<Form>,
    alike: &[Alike],
    met: &Met<D>,
    meeting: Meeting,
) -> Result<(), WalkError>
    requires first { meeting.first < length met.now.ends.items }
    requires second { meeting.second < length met.now.ends.items }
    ensures { MatchResult result (λ _. forms facts.new.items ≡ forms facts.old.items ++ specs.group_facts (notes_of alike.now) (met_end met.now meeting.first).anchor (met_end met.now meeting.first).is_head (met_end met.now meeting.second).is_head) IsMemory }
{
    push_group(alloc, facts)?;
    let slots = same_at(alike, end_anchor(met, meeting.first));
    let first = is_end_of_head(met, meeting.first);
    let second = is_end_of_head(met, meeting.second);
    push_same(alloc, facts, first, second, slots)
}

/// The facts of the launch, of each item at its stop, and of the slots that both have alike at their anchor.
fn known_there<D: Copy>(
    alloc: Global,
    launch: &[Form],
    alike: &[Alike],
    met: &Met<D>,
    meeting: Meeting,
) -> Result<Vec<Form>, WalkError>
    requires first { meeting.first < length met.now.ends.items }
    requires second { meeting.second < length met.now.ends.items }
    ensures { MatchResult result (λ v. forms v.items ≡ facts_about (forms launch.now) (notes_of alike.now) (meeting_seen (met_ends met.now) meeting)) IsMemory }
{
    let mut facts = Vec::new(alloc);
    copy_all(alloc, &mut facts, launch)?;
    facts_at_end(alloc, &mut facts, met, meeting.first)?;
    second_facts_at_end(alloc, &mut facts, met, meeting.second)?;
    push_anchor(alloc, &mut facts, alike, met, meeting)?;
    Ok(facts)
}

#[tactic(auto, using(facts::proofs::Facts::copies))]
/// Adds a fact, if there is one.
fn push_some(facts: &mut Vec<Form>, more: Option<Form>) -> Result<(), WalkError>
    ensures { MatchResult result (λ _. forms facts.new.items ≡ forms facts.old.items ++ listed_form more) IsMemory }
{
    if let Some(form) = more {
        facts.push(form)?;
    }
    Ok(())
}

/// The facts of two stops, which are to be impossible; none where the manner does not fit.
pub fn meeting_facts<D: Copy>(
    alloc: Global,
    launch: &[Form],
    alike: &[Alike],
    met: &Met<D>,
    meeting: Meeting,
    manner: Manner,
) -> Result<Option<Vec<Form>>, WalkError>
    requires first { meeting.first < length met.now.ends.items }
    requires second { meeting.second < length met.now.ends.items }
    ensures { MatchResult result (λ r. maybe_forms r ≡ facts_shown (manner_seen manner) (forms launch.now) (notes_of alike.now) (meeting_seen (met_ends met.now) meeting)) (DoNotFit (meeting_fits (meeting_seen (met_ends met.now) meeting))) }
{
    match manner {
        Manner::Plainly => {
            let goal = goal_of(alloc, met, meeting)?;
            let denial = denial_of(alloc, &goal)?;
            let mut facts = known_there(alloc, launch, alike, met, meeting)?;
            push_some(&mut facts, denial)?;
            Ok(Some(facts))
        }
        Manner::ByPositive | Manner::ByNegative | Manner::ByQuotient => Ok(None),
    }
}

/// A low end is there, and is at least 0.
fn is_from_zero(low: Option<i64>) -> bool
    ensures { result ≡ elements.is_from_zero low }
{
    match low {
        Some(low) => low >= 0,
        None => false,
    }
}

/// The domain alone shows a form of two stops.
fn is_shown<D: Domain>(known: &Known<D>, met: &Met<D>, meeting: Meeting, form: &Form) -> bool
    requires first { meeting.first < length met.now.ends.items }
    requires second { meeting.second < length met.now.ends.items }
    ensures { result ≡ specs.is_settled_of_two D.Domain (known_seen known.now) (met_end met.now meeting.first) (met_end met.now meeting.second) (form_seen form.now) }
{
    let first = held_at_end(met, meeting.first);
    let second = held_at_end(met, meeting.second);
    is_from_zero(element_of(known, first, second, form).bounds().low)
}

/// The domain alone shows what is to be shown of two stops.
pub fn is_agreed<D: Domain>(
    alloc: Global,
    known: &Known<D>,
    met: &Met<D>,
    meeting: Meeting,
) -> Result<bool, WalkError>
    requires first { meeting.first < length met.now.ends.items }
    requires second { meeting.second < length met.now.ends.items }
    ensures { MatchResult result (λ b. b ≡ is_settled_about D.Domain (known_seen known.now) (meeting_seen (met_ends met.now) meeting)) (DoNotFit (meeting_fits (meeting_seen (met_ends met.now) meeting))) }
{
    match goal_of(alloc, met, meeting)? {
        Some(form) => Ok(is_shown(known, met, meeting, &form)),
        None => Ok(false),
    }
}
