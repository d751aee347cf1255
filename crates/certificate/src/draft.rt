//! A certificate of which some lines are read, and what may stand behind them.

ghost use Rattle.std.specs.Prelude.{◌≡◌, IfOk};
ghost use Rattle.certificate_text.specs.Drafts as drafting;
ghost use Rattle.certificate_text.specs.Reading as reading;
ghost use Rattle.certificate.specs.View as view;
ghost use Rattle.certificate.specs.Items as items;
ghost use Rattle.certificate.specs.Drafts as drafts;
ghost use Rattle.certificate.specs.WordAnswers.{Means};

use crate::item::Item;
use crate::line_error::LineError;
use crate::narrow::is_narrow_item;
use crate::order::{bound_follows, entry_follows, has_line, place_follows};
use crate::tree::{Bound, Entry, EntrySort, Form, Lemma, Place, Spot, Step};
use std::alloc::{AllocError, Global};

/// The parts of a certificate whose lines are complete, whether it is wide, and whether the walk joins ways.
#[derive(Drop)]
pub struct Parts {
    pub is_wide: bool,
    pub joins: bool,
    pub places: Vec<Place>,
    pub bounds: Vec<Bound>,
    pub entries: Vec<Entry>,
}

/// The part of a draft to which the next line may add, behind the settled ones.
#[derive(Drop)]
pub enum Open {
    Nothing,
    InPlace(Place),
    InEntry(Entry),
    InLemma(Entry, Lemma),
    Ended,
}

#[derive(Drop)]
pub struct Draft {
    pub settled: Parts,
    pub opened: Open,
}

fn place_fits(settled: &Parts, spot: Spot) -> bool
    ensures { result ≡ drafting.place_fits (drafts.parts settled.now) (view.spot spot) }
{
    if !(settled.bounds.is_empty() && settled.entries.is_empty()) {
        return false;
    }
    place_follows(settled.places.as_slice(), spot)
}

fn bound_fits(settled: &Parts, bound: &Bound) -> bool
    ensures { result ≡ drafting.bound_fits (drafts.parts settled.now) (view.bound bound.now) }
{
    if !settled.entries.is_empty() {
        return false;
    }
    bound_follows(settled.bounds.as_slice(), bound.number)
}

fn entry_fits(settled: &Parts, obligation: u64) -> bool
    ensures { result ≡ drafting.entry_fits (drafts.parts settled.now) obligation }
{
    entry_follows(settled.entries.as_slice(), obligation)
}

/// The settled parts with the open one; an error where that is a place without a line or a lemma, or the end was read.
fn settle(settled: Parts, opened: Open) -> Result<Parts, LineError>
    ensures { Means drafts.parts result (drafting.settle (drafts.parts settled) (drafts.opened opened)) }
{
    let mut settled = settled;
    match opened {
        Open::Nothing => Ok(settled),
        Open::InPlace(place) => {
            if !has_line(&place) {
                return Err(LineError::Bad);
            }
            settled.places.push(place)?;
            Ok(settled)
        }
        Open::InEntry(entry) => {
            settled.entries.push(entry)?;
            Ok(settled)
        }
        Open::InLemma(_, _) | Open::Ended => Err(LineError::Bad),
    }
}

/// A place with one more line: `same` lines come first, then `fact` lines, then `mod` lines, then `multiple` lines; an error where the line
/// is none.
fn add_to_place(place: Place, item: Item) -> Result<Place, LineError>
    ensures { Means view.place result (drafting.add_to_place (view.place place) (items.item item)) }
{
    let mut place = place;
    match item {
        Item::Same(name) => {
            let forms = place.congruences.is_empty() && place.multiples.is_empty();
            if !(place.facts.is_empty() && forms) {
                return Err(LineError::Bad);
            }
            place.same.push(name)?;
            Ok(place)
        }
        Item::Fact(form) => {
            if !(place.congruences.is_empty() && place.multiples.is_empty()) {
                return Err(LineError::Bad);
            }
            place.facts.push(form)?;
            Ok(place)
        }
        Item::Congruence(congruence) => {
            if !place.multiples.is_empty() {
                return Err(LineError::Bad);
            }
            place.congruences.push(congruence)?;
            Ok(place)
        }
        Item::Multiple(multiple) => {
            place.multiples.push(multiple)?;
            Ok(place)
        }
        _ => Err(LineError::Bad),
    }
}

fn with_step(entry: Entry, step: Step) -> Result<Entry, AllocError>
    ensures { IfOk result (λ e. view.entry e ≡ drafting.with_step (view.entry entry) (view.step step)) }
{
    let mut entry = entry;
    entry.steps.push(step)?;
    Ok(entry)
}

fn with_lemma(entry: Entry, lemma: Lemma) -> Result<Entry, AllocError>
    ensures { IfOk result (λ e. view.entry e ≡ drafting.with_lemma (view.entry entry) (view.lemma lemma)) }
{
    let mut entry = entry;
    entry.lemmas.push(lemma)?;
    Ok(entry)
}

fn lemma_with_step(lemma: Lemma, step: Step) -> Result<Lemma, AllocError>
    ensures { IfOk result (λ l. view.lemma l ≡ drafting.lemma_with_step (view.lemma lemma) (view.step step)) }
{
    let mut lemma = lemma;
    lemma.steps.push(step)?;
    Ok(lemma)
}

/// A lemma whose steps follow.
fn lemma_at(alloc: Global, form: Form) -> Lemma
    ensures { view.lemma result ≡ drafting.lemma_at (view.form form) }
{
    let steps = Vec::new(alloc);
    Lemma { form, steps }
}

/// An entry with one more line: lemmas come before all other lines.
fn add_to_entry(alloc: Global, entry: Entry, item: Item) -> Result<Open, LineError>
    ensures { Means drafts.opened result (drafting.add_to_entry (view.entry entry) (items.item item)) }
{
    match item {
        Item::Step(step) => Ok(Open::InEntry(with_step(entry, step)?)),
        Item::Lemma(form) => {
            if !(entry.lemmas.is_empty() && entry.steps.is_empty()) {
                return Err(LineError::Bad);
            }
            Ok(Open::InLemma(entry, lemma_at(alloc, form)))
        }
        _ => Err(LineError::Bad),
    }
}

/// A lemma of an entry with one more line: behind it comes the next one, or what shows the obligation.
fn add_to_lemma(alloc: Global, entry: Entry, lemma: Lemma, item: Item) -> Result<Open, LineError>
    ensures { Means drafts.opened result (drafting.add_to_lemma (view.entry entry) (view.lemma lemma) (items.item item)) }
{
    match item {
        Item::Step(step) => Ok(Open::InLemma(entry, lemma_with_step(lemma, step)?)),
        Item::Lemma(form) => {
            let entry = with_lemma(entry, lemma)?;
            Ok(Open::InLemma(entry, lemma_at(alloc, form)))
        }
        Item::Main => Ok(Open::InEntry(with_lemma(entry, lemma)?)),
        _ => Err(LineError::Bad),
    }
}

/// Adds a line to the item that is open. It is bad where nothing is open.
fn add_to(alloc: Global, opened: Open, item: Item) -> Result<Open, LineError>
    ensures { Means drafts.opened result (drafting.add_to (drafts.opened opened) (items.item item)) }
{
    match opened {
        Open::InPlace(place) => Ok(Open::InPlace(add_to_place(place, item)?)),
        Open::InEntry(entry) => add_to_entry(alloc, entry, item),
        Open::InLemma(entry, lemma) => add_to_lemma(alloc, entry, lemma, item),
        Open::Nothing | Open::Ended => Err(LineError::Bad),
    }
}

fn add_place(alloc: Global, draft: Draft, spot: Spot) -> Result<Draft, LineError>
    ensures { Means drafts.draft result (drafting.add_place (drafts.draft draft) (view.spot spot)) }
{
    let settled = settle(draft.settled, draft.opened)?;
    if !place_fits(&settled, spot) {
        return Err(LineError::Bad);
    }
    let place = Place {
        spot,
        same: Vec::new(alloc),
        facts: Vec::new(alloc),
        congruences: Vec::new(alloc),
        multiples: Vec::new(alloc),
    };
    Ok(Draft {
        settled,
        opened: Open::InPlace(place),
    })
}

fn add_bound(draft: Draft, bound: Bound) -> Result<Draft, LineError>
    ensures { Means drafts.draft result (drafting.add_bound (drafts.draft draft) (view.bound bound)) }
{
    let mut settled = settle(draft.settled, draft.opened)?;
    if !bound_fits(&settled, &bound) {
        return Err(LineError::Bad);
    }
    settled.bounds.push(bound)?;
    Ok(Draft {
        settled,
        opened: Open::Nothing,
    })
}

fn add_entry(
    alloc: Global,
    draft: Draft,
    obligation: u64,
    sort: EntrySort,
) -> Result<Draft, LineError>
    ensures { Means drafts.draft result (drafting.add_entry (drafts.draft draft) obligation (view.sort sort)) }
{
    let settled = settle(draft.settled, draft.opened)?;
    if !entry_fits(&settled, obligation) {
        return Err(LineError::Bad);
    }
    let entry = Entry {
        obligation,
        sort,
        lemmas: Vec::new(alloc),
        steps: Vec::new(alloc),
    };
    Ok(Draft {
        settled,
        opened: Open::InEntry(entry),
    })
}

fn add_end(draft: Draft) -> Result<Draft, LineError>
    ensures { Means drafts.draft result (drafting.add_end (drafts.draft draft)) }
{
    let settled = settle(draft.settled, draft.opened)?;
    Ok(Draft {
        settled,
        opened: Open::Ended,
    })
}

fn add_within(alloc: Global, draft: Draft, item: Item) -> Result<Draft, LineError>
    ensures { Means drafts.draft result (drafting.add_within (drafts.draft draft) (items.item item)) }
{
    let Draft { settled, opened } = draft;
    let opened = add_to(alloc, opened, item)?;
    Ok(Draft { settled, opened })
}

/// A draft with one more line; an error where the line may not stand behind those that are read.
#[tactic(auto, unfolding(certificate_text::specs::Drafts::add))]
fn add(alloc: Global, draft: Draft, item: Item) -> Result<Draft, LineError>
    ensures { Means drafts.draft result (drafting.add (drafts.draft draft) (items.item item)) }
{
    match item {
        Item::Place(spot) => add_place(alloc, draft, spot),
        Item::Bound(bound) => add_bound(draft, bound),
        Item::Entry(obligation, sort) => add_entry(alloc, draft, obligation, sort),
        Item::End => add_end(draft),
        item => add_within(alloc, draft, item),
    }
}

/// A draft with one more line, which a certificate that is not wide may have.
pub fn add_fitting(alloc: Global, draft: Draft, item: Item) -> Result<Draft, LineError>
    ensures { Means drafts.draft result (reading.add_fitting (drafts.draft draft) (items.item item)) }
{
    if !(draft.settled.is_wide || is_narrow_item(&item)) {
        return Err(LineError::Bad);
    }
    add(alloc, draft, item)
}
