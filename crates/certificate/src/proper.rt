//! Which names, terms and forms have a text.

ghost use Rattle.std.specs.Prelude.{◌≡◌, ◌&&◌, map, IfOk};
ghost use Rattle.std.specs.String.{string_bytes};
ghost use Rattle.certificate_text.specs.Forms as forms;
ghost use Rattle.lines.specs.Identifiers as identifiers;
ghost use Rattle.certificate_text.specs.Rules as rules;
ghost use Rattle.lines.specs.Lines as numbers;
ghost use Rattle.certificate.specs.View as view;

use crate::order::in_order;
use crate::spelling::{spelling, term_is_before};
use crate::tree::{Congruence, Form, Multiple, Name, Term};
use crate::word::is_identifier;
use std::alloc::{AllocError, Global};

pub fn is_natural(number: u64) -> bool
    ensures { result ≡ numbers.is_natural number }
{
    number < 1 << 63
}

/// Whether a number can be written in a certificate, as each `i64` can.
pub fn is_integer(number: i64) -> bool
    ensures { result ≡ numbers.is_integer number }
{
    i64::MIN <= number
}

pub fn is_spelt(name: &String) -> bool
    ensures { result ≡ identifiers.is_identifier (string_bytes name.now) }
{
    is_identifier(name.as_bytes())
}

/// Whether a name is one of one item alone, and can be written.
fn is_plain_name(name: &Name) -> bool
    ensures { result ≡ rules.is_plain_name (view.name name.now) }
{
    match name {
        Name::Variable(name) | Name::AtAnchor(name) => is_spelt(name),
        Name::Argument(name) | Name::Length(name) => is_spelt(name),
        Name::Turns(number) | Name::Fresh(number) => is_natural(*number),
        Name::Groups(_) | Name::Group(_) | Name::Local(_) => true,
        Name::Second(_) | Name::Product(_, _) => false,
    }
}

fn is_factor(name: &Name) -> bool
    ensures { result ≡ rules.is_factor (view.name name.now) }
{
    match name {
        Name::Second(name) => is_plain_name(name),
        Name::Variable(_) | Name::AtAnchor(_) | Name::Argument(_) | Name::Length(_) =>
            is_plain_name(name),
        Name::Turns(_) | Name::Fresh(_) => is_plain_name(name),
        Name::Groups(_) | Name::Group(_) | Name::Local(_) => true,
        Name::Product(_, _) => false,
    }
}

/// Whether two names may stand in a product in this order.
fn names_rise(alloc: Global, left: &Name, right: &Name) -> Result<bool, AllocError>
    ensures { IfOk result (λ b. b ≡ rules.names_rise (view.name left.now) (view.name right.now)) }
{
    let left = spelling(alloc, left)?;
    let right = spelling(alloc, right)?;
    Ok(in_order(left.as_bytes(), right.as_bytes()))
}

fn is_pair(alloc: Global, first: &Name, second: &Name) -> Result<bool, AllocError>
    ensures { IfOk result (λ b. b ≡ rules.is_pair (view.name first.now) (view.name second.now)) }
{
    let rise = names_rise(alloc, first, second)?;
    Ok(is_factor(first) && (is_factor(second) && rise))
}

fn is_triple(alloc: Global, first: &Name, second: &Name, third: &Name) -> Result<bool, AllocError>
    ensures { IfOk result (λ b. b ≡ (rules.is_factor (view.name first.now) && (rules.is_pair (view.name second.now) (view.name third.now) && rules.names_rise (view.name first.now) (view.name second.now)))) }
{
    let pair = is_pair(alloc, second, third)?;
    let rise = names_rise(alloc, first, second)?;
    Ok(is_factor(first) && (pair && rise))
}

fn is_product(alloc: Global, first: &Name, others: &Name) -> Result<bool, AllocError>
    ensures { IfOk result (λ b. b ≡ rules.is_product (view.name first.now) (view.name others.now)) }
{
    match others {
        Name::Product(second, third) => is_triple(alloc, first, second, third),
        Name::Variable(_) | Name::AtAnchor(_) | Name::Argument(_) | Name::Length(_) => is_pair(
            alloc, first, others,
        ),
        Name::Turns(_) | Name::Fresh(_) => is_pair(alloc, first, others),
        Name::Groups(_) | Name::Group(_) | Name::Local(_) | Name::Second(_) => is_pair(
            alloc, first, others,
        ),
    }
}

fn is_name(alloc: Global, name: &Name) -> Result<bool, AllocError>
    ensures { IfOk result (λ b. b ≡ rules.is_name (view.name name.now)) }
{
    match name {
        Name::Product(first, others) => is_product(alloc, first, others),
        Name::Variable(_) | Name::AtAnchor(_) | Name::Argument(_) | Name::Length(_) => Ok(is_factor(
            name,
        )),
        Name::Turns(_) | Name::Fresh(_) => Ok(is_factor(name)),
        Name::Groups(_) | Name::Group(_) | Name::Local(_) | Name::Second(_) => Ok(is_factor(name)),
    }
}

fn is_term(alloc: Global, term: &Term) -> Result<bool, AllocError>
    ensures { IfOk result (λ b. b ≡ rules.is_term (view.term term.now)) }
{
    let named = is_name(alloc, &term.name)?;
    Ok(is_integer(term.coefficient) && (term.coefficient != 0 && named))
}

#[tactic(auto, using(crate::proofs::Rows::all_rows))]
fn are_terms(alloc: Global, terms: &[Term]) -> Result<bool, AllocError>
    ensures { IfOk result (λ b. b ≡ rules.all rules.is_term (map view.term terms.now)) }
{
    for term in terms {
        if !is_term(alloc, term)? {
            return Ok(false);
        }
    }
    Ok(true)
}

/// Whether names rise in the order of their bytes.
#[tactic(auto, using(crate::proofs::Rows::rising_rows))]
fn terms_rise(alloc: Global, terms: &[Term]) -> Result<bool, AllocError>
    ensures { IfOk result (λ b. b ≡ rules.rises forms.term_is_before (map view.term terms.now)) }
{
    let mut i = 0;
    while i + 1 < terms.len() {
        if !term_is_before(alloc, &terms[i], &terms[i + 1])? {
            return Ok(false);
        }
        i += 1;
    }
    Ok(true)
}

pub fn is_form(alloc: Global, form: &Form) -> Result<bool, AllocError>
    ensures { IfOk result (λ b. b ≡ rules.is_form (view.form form.now)) }
{
    let terms = form.terms.as_slice();
    let named = are_terms(alloc, terms)?;
    let risen = terms_rise(alloc, terms)?;
    Ok(named && (risen && is_integer(form.constant)))
}

#[tactic(auto, using(crate::proofs::Rows::all_rows))]
pub fn are_forms(alloc: Global, forms: &[Form]) -> Result<bool, AllocError>
    ensures { IfOk result (λ b. b ≡ rules.all rules.is_form (map view.form forms.now)) }
{
    for form in forms {
        if !is_form(alloc, form)? {
            return Ok(false);
        }
    }
    Ok(true)
}

fn is_congruence(alloc: Global, congruence: &Congruence) -> Result<bool, AllocError>
    ensures { IfOk result (λ b. b ≡ rules.is_congruence (view.congruence congruence.now)) }
{
    let form = is_form(alloc, &congruence.form)?;
    Ok(is_natural(congruence.modulus) && (2 <= congruence.modulus && form))
}

#[tactic(auto, using(crate::proofs::Rows::all_rows))]
pub fn are_congruences(alloc: Global, congruences: &[Congruence]) -> Result<bool, AllocError>
    ensures { IfOk result (λ b. b ≡ rules.all rules.is_congruence (map view.congruence congruences.now)) }
{
    for congruence in congruences {
        if !is_congruence(alloc, congruence)? {
            return Ok(false);
        }
    }
    Ok(true)
}

fn is_multiple(alloc: Global, multiple: &Multiple) -> Result<bool, AllocError>
    ensures { IfOk result (λ b. b ≡ rules.is_multiple (view.multiple multiple.now)) }
{
    let of = is_form(alloc, &multiple.of)?;
    let form = is_form(alloc, &multiple.form)?;
    Ok(of && form)
}

#[tactic(auto, using(crate::proofs::Rows::all_rows))]
pub fn are_multiples(alloc: Global, multiples: &[Multiple]) -> Result<bool, AllocError>
    ensures { IfOk result (λ b. b ≡ rules.all rules.is_multiple (map view.multiple multiples.now)) }
{
    for multiple in multiples {
        if !is_multiple(alloc, multiple)? {
            return Ok(false);
        }
    }
    Ok(true)
}

#[tactic(auto, using(crate::proofs::Rows::all_rows))]
pub fn are_identifiers(names: &[String]) -> bool
    ensures { result ≡ rules.all identifiers.is_identifier (map string_bytes names.now) }
{
    for name in names {
        if !is_spelt(name) {
            return false;
        }
    }
    true
}
