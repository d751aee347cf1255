//! The derivation of an entry, and whether it refutes facts.

ghost use Rattle.std.specs.Prelude.{◌≡◌, ◌+◌, None, Some, IfOk, IsTrue, MatchOption, nat_le, map};
ghost use Rattle.std.specs.Option.{option_map};
ghost use Rattle.linear.specs.Products.{IsImpossibleWithProducts};
ghost use Rattle.linear.specs.Forms.{form as form_seen, forms};
ghost use Rattle.certificate.specs.View.{scaled as scaled_seen, step as step_seen, lemma as lemma_seen, entry as entry_seen, sort as sort_seen, form as names_seen};
ghost use Rattle.cut_proof.specs.View.{line as line_seen, lemma as shown_seen};
ghost use Rattle.two_thread.specs.Goals.{manner as manner_seen};
ghost use Rattle.entry_check.specs.Entries as entries;
ghost use Rattle.entry_check.specs.View.{stated as stated_seen};

use certificate::tree;
use certificate::tree::{Entry, EntrySort, Scaled, Step};
use certificate_notes::{Names, NamesError};
use cut_proof::{Derivation, Lemma, Line, refutes};
use linear::Form;
use std::alloc::{AllocError, Global};
use two_thread::Manner;

/// A number of a line or a fact; one that is none, or too large to be one, is 0, which names nothing.
fn line_number(number: i64) -> u32
    ensures { result ≡ entries.line_number number }
{
    if number < 0 || number > 4_294_967_295 {
        0
    } else {
        number as u32
    }
}

#[tactic(auto, using(crate::proofs::Making::made))]
/// The weights of a sum, each with the number of its line.
fn parts_of(alloc: Global, parts: &[Scaled]) -> Result<Vec<(i64, u32)>, AllocError>
    ensures { IfOk result (λ v. v.items ≡ map entries.part_of (map scaled_seen parts.now)) }
{
    let mut weighted = Vec::new(alloc);
    for part in parts {
        weighted.push((part.factor, line_number(part.line)))?;
    }
    Ok(weighted)
}

/// A line of a derivation.
fn line_of(alloc: Global, step: &Step) -> Result<Line, AllocError>
    ensures { IfOk result (λ l. line_seen l ≡ entries.line_of (step_seen step.now)) }
{
    match step {
        Step::Given(fact) => Ok(Line::Given(line_number(*fact))),
        Step::Sum(parts) => {
            let weighted = parts_of(alloc, parts.as_slice())?;
            Ok(Line::Sum(weighted))
        }
        Step::Divide(by) => Ok(Line::Div(by.factor, line_number(by.line))),
        Step::Product(first, second) => {
            Ok(Line::Product(line_number(*first), line_number(*second)))
        }
    }
}

#[tactic(auto, using(crate::proofs::Making::made))]
/// The lines of a derivation.
fn lines_of(alloc: Global, steps: &[Step]) -> Result<Vec<Line>, AllocError>
    ensures { IfOk result (λ v. map line_seen v.items ≡ map entries.line_of (map step_seen steps.now)) }
{
    let mut lines = Vec::new(alloc);
    for step in steps {
        lines.push(line_of(alloc, step)?)?;
    }
    Ok(lines)
}

/// The form of a lemma over the symbols of the kernel; none where it names something that the kernel lacks.
fn form_of(alloc: Global, names: &Names<'_>, form: &tree::Form) -> Result<Option<Form>, AllocError>
    ensures { IfOk result (λ r. option_map form_seen r ≡ stated_seen names.now (names_seen form.now)) }
{
    match names.form(alloc, form) {
        Ok(form) => Ok(form),
        Err(NamesError::Memory) => Err(AllocError),
    }
}

/// A lemma of a derivation; none where it names what the kernel lacks.
fn lemma_of(
    alloc: Global,
    names: &Names<'_>,
    lemma: &tree::Lemma,
) -> Result<Option<Lemma>, AllocError>
    ensures { IfOk result (λ r. option_map shown_seen r ≡ entries.lemma_of (stated_seen names.now) (lemma_seen lemma.now)) }
{
    let Some(form) = form_of(alloc, names, &lemma.form)? else {
        return Ok(None);
    };
    let lines = lines_of(alloc, lemma.steps.as_slice())?;
    Ok(Some(Lemma { form, lines }))
}

#[tactic(auto, using(certificate_notes::proofs::Each::each_rows))]
/// The lemmas of a derivation; none where one names what the kernel lacks.
fn lemmas_of(
    alloc: Global,
    names: &Names<'_>,
    lemmas: &[tree::Lemma],
) -> Result<Option<Vec<Lemma>>, AllocError>
    ensures { IfOk result (λ r. option_map (λ v. map shown_seen v.items) r ≡ entries.lemmas_of (stated_seen names.now) (map lemma_seen lemmas.now)) }
{
    let mut shown = Vec::new(alloc);
    for lemma in lemmas {
        let Some(one) = lemma_of(alloc, names, lemma)? else {
            return Ok(None);
        };
        shown.push(one)?;
    }
    Ok(Some(shown))
}

/// The derivation of an entry; none where a lemma names what the kernel lacks.
fn derivation_of(
    alloc: Global,
    names: &Names<'_>,
    entry: &Entry,
) -> Result<Option<Derivation>, AllocError>
    ensures { IfOk result (λ r. MatchOption r (entries.lemmas_of (stated_seen names.now) (entry_seen entry.now).lemmas ≡ None) (λ d. (entries.lemmas_of (stated_seen names.now) (entry_seen entry.now).lemmas ≡ Some (map shown_seen d.lemmas.items)) × (map line_seen d.lines.items ≡ map entries.line_of (entry_seen entry.now).steps))) }
{
    let Some(lemmas) = lemmas_of(alloc, names, entry.lemmas.as_slice())? else {
        return Ok(None);
    };
    let lines = lines_of(alloc, entry.steps.as_slice())?;
    Ok(Some(Derivation { lemmas, lines }))
}

/// So many lines and those of lemmas are at most 65,536.
fn fit(lemmas: &[tree::Lemma], own: usize) -> bool
    ensures { result ≡ nat_le (own + entries.lemma_lines (map lemma_seen lemmas.now)) 65536 }
{
    if own > 65_536 {
        return false;
    }
    let mut all = own;
    for lemma in lemmas {
        let count = lemma.steps.len();
        if count > 65_536 - all {
            return false;
        }
        all += count;
    }
    true
}

/// There are at most 64 lemmas, and with lemmas at most 65,536 lines, so many of the entry's own among them.
fn are_few(lemmas: &[tree::Lemma], own: usize) -> bool
    ensures { result ≡ entries.are_few (map lemma_seen lemmas.now) own }
{
    if lemmas.is_empty() {
        return true;
    }
    lemmas.len() <= 64 && fit(lemmas, own)
}

/// The manner in which an entry of a sort shows its obligation.
pub fn manner_of(sort: &EntrySort) -> Manner
    ensures { manner_seen result ≡ entries.manner_of (sort_seen sort.now) }
{
    match sort {
        EntrySort::Show => Manner::Plainly,
        EntrySort::Positive => Manner::ByPositive,
        EntrySort::Negative => Manner::ByNegative,
        EntrySort::Quotient(_) => Manner::ByQuotient,
    }
}

/// The derivation of an entry refutes the facts.
pub fn is_refuted(
    alloc: Global,
    facts: &[Form],
    names: &Names<'_>,
    entry: &Entry,
) -> Result<bool, AllocError>
    ensures exact { IfOk result (λ b. b ≡ entries.refutes_all (stated_seen names.now) (entry_seen entry.now) (forms facts.now)) }
    ensures impossible { IfOk result (λ b. IsTrue b → IsImpossibleWithProducts (forms facts.now)) }
{
    if !are_few(entry.lemmas.as_slice(), entry.steps.len()) {
        return Ok(false);
    }
    let Some(derivation) = derivation_of(alloc, names, entry)? else {
        return Ok(false);
    };
    refutes(alloc, facts, &derivation)
}
