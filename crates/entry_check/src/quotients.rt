//! The quotients that entries of congruences name.

ghost use Rattle.std.specs.Prelude.{◌≡◌, ◌<◌, ◌-◌, pos};
ghost use Rattle.facts.specs.Symbols.{constant};
ghost use Rattle.linear.specs.Forms.{form as form_seen};
ghost use Rattle.linear.specs.Terms.{terms as terms_seen};
ghost use Rattle.obligations.specs.View.{quotient_of as quotient_specs};
ghost use Rattle.entry_check.specs.Entries as entries;
ghost use Rattle.entry_check.specs.Hand.{IsHeld, obligation_at};

use crate::asked::Asked;
use crate::hand::Owed;
use arrival_claims::quotient_of;
use domain::Domain;
use linear::{Form, Term};
use obligations::Quotient;
use std::alloc::Global;
use two_thread::Met;

/// Two lists of terms are the same, in order.
fn same_terms(left: &[Term], right: &[Term]) -> bool
    ensures { result ≡ entries.same_terms (terms_seen left.now) (terms_seen right.now) }
{
    if left.len() != right.len() {
        return false;
    }
    for i in 0..left.len() {
        if left[i].coefficient != right[i].coefficient
            || left[i].symbol.number != right[i].symbol.number
        {
            return false;
        }
    }
    true
}

/// Two forms have the same constant and the same terms.
fn same_form(left: &Form, right: &Form) -> bool
    ensures { result ≡ entries.same_form (form_seen left.now) (form_seen right.now) }
{
    left.constant_part() == right.constant_part() && same_terms(left.terms(), right.terms())
}

/// The quotient of a claim; where its entry names none, `none`, the form 0.
fn named_by<'n>(quotients: &'n [Quotient], claim: u64, none: &'n Form) -> &'n Form
    requires { form_seen none.now ≡ constant (pos 0) }
    ensures { form_seen result.now ≡ quotient_specs quotients.now claim }
{
    match quotient_of(quotients, claim) {
        Some(form) => form,
        None => none,
    }
}

/// The entries of a claim and of the one before it name one quotient.
fn name_one(alloc: Global, quotients: &[Quotient], number: usize) -> bool
    requires { 0 < number }
    ensures { result ≡ entries.same_form (quotient_specs quotients.now number) (quotient_specs quotients.now (number - 1)) }
{
    let none = Form::constant(alloc, 0);
    let own = named_by(quotients, number as u64, &none);
    let before = named_by(quotients, number as u64 - 1, &none);
    same_form(own, before)
}

/// The entries of both claims of a congruence name one quotient; other obligations name none.
pub fn names_one<D: Domain>(asked: &Asked<'_, D>, met: &Met<D>, owed: Owed, number: usize) -> bool
    requires held { IsHeld met.now owed }
    requires first { 0 < number }
    ensures { result ≡ entries.names_one (quotient_specs asked.now.said.now.notes.now.quotients.items) number (obligation_at D.Domain asked.now.premises met.now owed) }
{
    let quotients = asked.said.notes.quotients.as_slice();
    !asked.premises.is_second_claim(met, owed) || name_one(asked.alloc, quotients, number)
}
