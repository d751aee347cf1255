//! Which entries have a text.

ghost use Rattle.std.specs.Prelude.{◌≡◌, map, IfOk};
ghost use Rattle.certificate_text.specs.Lines as meaning;
ghost use Rattle.certificate_text.specs.Rules as rules;
ghost use Rattle.certificate.specs.View as view;

use crate::proper::{is_form, is_integer, is_natural};
use crate::tree::{Entry, EntrySort, Lemma, Scaled, Step};
use std::alloc::{AllocError, Global};

fn is_sort(alloc: Global, sort: &EntrySort) -> Result<bool, AllocError>
    ensures { IfOk result (λ b. b ≡ rules.is_sort (view.sort sort.now)) }
{
    match sort {
        EntrySort::Show | EntrySort::Positive | EntrySort::Negative => Ok(true),
        EntrySort::Quotient(form) => is_form(alloc, form),
    }
}

fn is_scaled(part: Scaled) -> bool
    ensures { result ≡ rules.is_scaled (view.scaled part) }
{
    is_integer(part.factor) && is_integer(part.line)
}

#[tactic(auto, using(crate::proofs::Rows::all_rows))]
fn are_scaled(parts: &[Scaled]) -> bool
    ensures { result ≡ rules.all rules.is_scaled (map view.scaled parts.now) }
{
    for part in parts {
        if !is_scaled(*part) {
            return false;
        }
    }
    true
}

fn line_is_before(left: Scaled, right: Scaled) -> bool
    ensures { result ≡ meaning.line_is_before (view.scaled left) (view.scaled right) }
{
    left.line < right.line
}

#[tactic(auto, using(crate::proofs::Rows::rising_rows))]
fn parts_rise(parts: &[Scaled]) -> bool
    ensures { result ≡ rules.rises meaning.line_is_before (map view.scaled parts.now) }
{
    let mut i = 0;
    while i + 1 < parts.len() {
        if !line_is_before(parts[i], parts[i + 1]) {
            return false;
        }
        i += 1;
    }
    true
}

fn is_step(step: &Step) -> bool
    ensures { result ≡ rules.is_step (view.step step.now) }
{
    match step {
        Step::Given(fact) => is_integer(*fact),
        Step::Sum(parts) => {
            let parts = parts.as_slice();
            are_scaled(parts) && (parts_rise(parts) && !parts.is_empty())
        }
        Step::Divide(quotient) => is_scaled(*quotient),
        Step::Product(first, second) => is_integer(*first) && is_integer(*second),
    }
}

#[tactic(auto, using(crate::proofs::Rows::all_rows))]
fn are_steps(steps: &[Step]) -> bool
    ensures { result ≡ rules.all rules.is_step (map view.step steps.now) }
{
    for step in steps {
        if !is_step(step) {
            return false;
        }
    }
    true
}

fn is_lemma(alloc: Global, lemma: &Lemma) -> Result<bool, AllocError>
    ensures { IfOk result (λ b. b ≡ rules.is_lemma (view.lemma lemma.now)) }
{
    let form = is_form(alloc, &lemma.form)?;
    Ok(form && are_steps(lemma.steps.as_slice()))
}

#[tactic(auto, using(crate::proofs::Rows::all_rows))]
fn are_lemmas(alloc: Global, lemmas: &[Lemma]) -> Result<bool, AllocError>
    ensures { IfOk result (λ b. b ≡ rules.all rules.is_lemma (map view.lemma lemmas.now)) }
{
    for lemma in lemmas {
        if !is_lemma(alloc, lemma)? {
            return Ok(false);
        }
    }
    Ok(true)
}

fn is_entry(alloc: Global, entry: &Entry) -> Result<bool, AllocError>
    ensures { IfOk result (λ b. b ≡ rules.is_entry (view.entry entry.now)) }
{
    let sort = is_sort(alloc, &entry.sort)?;
    let lemmas = are_lemmas(alloc, entry.lemmas.as_slice())?;
    let numbered = is_natural(entry.obligation) && 1 <= entry.obligation;
    Ok(numbered && (sort && (lemmas && are_steps(entry.steps.as_slice()))))
}

#[tactic(auto, using(crate::proofs::Rows::all_rows))]
pub fn are_entries(alloc: Global, entries: &[Entry]) -> Result<bool, AllocError>
    ensures { IfOk result (λ b. b ≡ rules.all rules.is_entry (map view.entry entries.now)) }
{
    for entry in entries {
        if !is_entry(alloc, entry)? {
            return Ok(false);
        }
    }
    Ok(true)
}

#[tactic(auto, using(crate::proofs::Rows::rising_rows))]
pub fn entries_rise(entries: &[Entry]) -> bool
    ensures { result ≡ rules.rises rules.entry_is_before (map view.entry entries.now) }
{
    let mut i = 0;
    while i + 1 < entries.len() {
        if entries[i].obligation >= entries[i + 1].obligation {
            return false;
        }
        i += 1;
    }
    true
}
