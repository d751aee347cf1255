//! What versions 1 and 2 have words for: no symbols of the second item, no products, no multiples, no loops that double, no lemmas.

ghost use Rattle.std.specs.Prelude.{◌≡◌, map};
ghost use Rattle.certificate_text.specs.Rules as rules;
ghost use Rattle.certificate.specs.View as view;
ghost use Rattle.certificate.specs.Items as items;
ghost use Rattle.certificate.specs.Drafts as drafts;

use crate::draft::Parts;
use crate::item::Item;
use crate::tree::{Bound, Congruence, Descent, Entry, EntrySort, Form, Name, Place, Step, Term};

fn is_narrow_name(name: &Name) -> bool
    ensures { result ≡ rules.is_narrow_name (view.name name.now) }
{
    match name {
        Name::Second(_) | Name::Product(_, _) => false,
        Name::Variable(_) | Name::AtAnchor(_) | Name::Argument(_) | Name::Length(_) => true,
        Name::Turns(_) | Name::Fresh(_) => true,
        Name::Groups(_) | Name::Group(_) | Name::Local(_) => true,
    }
}

#[tactic(auto, using(crate::proofs::Rows::all_rows))]
fn are_narrow_terms(terms: &[Term]) -> bool
    ensures { result ≡ rules.all rules.is_narrow_term (map view.term terms.now) }
{
    for term in terms {
        if !is_narrow_name(&term.name) {
            return false;
        }
    }
    true
}

pub fn is_narrow_form(form: &Form) -> bool
    ensures { result ≡ rules.is_narrow_form (view.form form.now) }
{
    are_narrow_terms(form.terms.as_slice())
}

#[tactic(auto, using(crate::proofs::Rows::all_rows))]
fn are_narrow_forms(forms: &[Form]) -> bool
    ensures { result ≡ rules.all rules.is_narrow_form (map view.form forms.now) }
{
    for form in forms {
        if !is_narrow_form(form) {
            return false;
        }
    }
    true
}

#[tactic(auto, using(crate::proofs::Rows::all_rows))]
fn are_narrow_congruences(congruences: &[Congruence]) -> bool
    ensures { result ≡ rules.all rules.is_narrow_congruence (map view.congruence congruences.now) }
{
    for congruence in congruences {
        if !is_narrow_form(&congruence.form) {
            return false;
        }
    }
    true
}

fn is_narrow_place(place: &Place) -> bool
    ensures { result ≡ rules.is_narrow_place (view.place place.now) }
{
    let congruences = are_narrow_congruences(place.congruences.as_slice());
    are_narrow_forms(place.facts.as_slice()) && (congruences && place.multiples.is_empty())
}

#[tactic(auto, using(crate::proofs::Rows::all_rows))]
fn are_narrow_places(places: &[Place]) -> bool
    ensures { result ≡ rules.all rules.is_narrow_place (map view.place places.now) }
{
    for place in places {
        if !is_narrow_place(place) {
            return false;
        }
    }
    true
}

fn is_narrow_descent(descent: Descent) -> bool
    ensures { result ≡ rules.is_narrow_descent (view.descent descent) }
{
    match descent {
        Descent::Down(_) | Descent::Halve => true,
        Descent::Double(_) => false,
    }
}

fn is_narrow_bound(bound: &Bound) -> bool
    ensures { result ≡ rules.is_narrow_bound (view.bound bound.now) }
{
    is_narrow_descent(bound.descent) && is_narrow_form(&bound.form)
}

#[tactic(auto, using(crate::proofs::Rows::all_rows))]
fn are_narrow_bounds(bounds: &[Bound]) -> bool
    ensures { result ≡ rules.all rules.is_narrow_bound (map view.bound bounds.now) }
{
    for bound in bounds {
        if !is_narrow_bound(bound) {
            return false;
        }
    }
    true
}

fn is_narrow_sort(sort: &EntrySort) -> bool
    ensures { result ≡ rules.is_narrow_sort (view.sort sort.now) }
{
    match sort {
        EntrySort::Show | EntrySort::Positive | EntrySort::Negative => true,
        EntrySort::Quotient(form) => is_narrow_form(form),
    }
}

fn is_narrow_step(step: &Step) -> bool
    ensures { result ≡ rules.is_narrow_step (view.step step.now) }
{
    match step {
        Step::Given(_) | Step::Sum(_) | Step::Divide(_) => true,
        Step::Product(_, _) => false,
    }
}

#[tactic(auto, using(crate::proofs::Rows::all_rows))]
fn are_narrow_steps(steps: &[Step]) -> bool
    ensures { result ≡ rules.all rules.is_narrow_step (map view.step steps.now) }
{
    for step in steps {
        if !is_narrow_step(step) {
            return false;
        }
    }
    true
}

fn is_narrow_entry(entry: &Entry) -> bool
    ensures { result ≡ rules.is_narrow_entry (view.entry entry.now) }
{
    let steps = are_narrow_steps(entry.steps.as_slice());
    is_narrow_sort(&entry.sort) && (entry.lemmas.is_empty() && steps)
}

#[tactic(auto, using(crate::proofs::Rows::all_rows))]
fn are_narrow_entries(entries: &[Entry]) -> bool
    ensures { result ≡ rules.all rules.is_narrow_entry (map view.entry entries.now) }
{
    for entry in entries {
        if !is_narrow_entry(entry) {
            return false;
        }
    }
    true
}

/// Whether versions 1 and 2 have words for these parts.
pub fn is_narrow(parts: &Parts) -> bool
    ensures { result ≡ rules.is_narrow (drafts.parts parts.now) }
{
    let bounds = are_narrow_bounds(parts.bounds.as_slice());
    let entries = are_narrow_entries(parts.entries.as_slice());
    let lines = are_narrow_places(parts.places.as_slice()) && (bounds && entries);
    !parts.joins && lines
}

/// Whether they have words for what a line says.
pub fn is_narrow_item(item: &Item) -> bool
    ensures { result ≡ rules.is_narrow_item (items.item item.now) }
{
    match item {
        Item::Place(_) | Item::Same(_) | Item::End => true,
        Item::Fact(form) => is_narrow_form(form),
        Item::Congruence(congruence) => is_narrow_form(&congruence.form),
        Item::Bound(bound) => is_narrow_bound(bound),
        Item::Entry(_, sort) => is_narrow_sort(sort),
        Item::Step(step) => is_narrow_step(step),
        Item::Multiple(_) | Item::Lemma(_) | Item::Main => false,
    }
}
