//! The second item's copies of forms.

ghost use Rattle.std.specs.Prelude.{◌≡◌, ◌++◌, ◌<◌, ◌≤◌, IfOk, MatchResult, true, false, length, map, pos};
ghost use Rattle.std.specs.Ordering.{int_eq};
ghost use Rattle.linear.specs.Forms.{form as form_seen, forms};
ghost use Rattle.linear.specs.Products.{are_small, packed as packed_factors, unpacked};
ghost use Rattle.linear.specs.Terms.{numbers, term as term_seen};
ghost use Rattle.facts.specs.Refusals.{IsMemory};
ghost use Rattle.walk_trees.specs.Seconds as copies;
ghost use Rattle.two_thread.specs.Seconds.{seconds as all_seconds, rise as numbers_rise, one_term, with_one, is_apart};
ghost use Rattle.two_thread.specs.View.{met_access};

use crate::looking::{index_of, place_of};
use crate::met::Met;
use facts::WalkError;
use linear::{Form, Symbol, Term};
use std::alloc::{AllocError, Global};

/// The second item's number of a symbol that is no product: the same one of the launch, else the one six families on.
fn shifted(number: u64) -> u64
    ensures { result ≡ copies.shifted number }
{
    let family = number % 16;
    if family < 3 || family >= 9 {
        return number;
    }
    number + 6
}

/// The numbers of a product's factors, each the second item's, packed as the factors are.
fn second_factors(packed: u64, most: u32) -> u64
    requires few { most ≤ 3 }
    requires small { are_small (unpacked most packed) ≡ true }
    ensures { result ≡ packed_factors (map copies.shifted (unpacked most packed)) }
{
    let digit = packed % 1048576;
    if most == 0 || digit == 0 {
        return 0;
    }
    let others = second_factors(packed / 1048576, most - 1);
    shifted(digit - 1) + 1 + 1048576 * others
}

/// The second item's symbol for one of the first item's; a product's by its factors.
fn second(symbol: Symbol) -> Symbol
    requires { copies.is_own_symbol symbol.number ≡ true }
    ensures { result.number ≡ copies.second symbol.number }
{
    if symbol.number % 16 != 15 {
        return Symbol {
            number: shifted(symbol.number),
        };
    }
    let factors = second_factors(symbol.number / 16, 3);
    Symbol {
        number: 15 + 16 * factors,
    }
}

/// The second item's symbols for the symbols of a form's terms, in their order.
fn seconds(alloc: Global, form: &Form) -> Result<Vec<Symbol>, AllocError>
    requires { copies.is_own (form_seen form.now) ≡ true }
    ensures { IfOk result (λ v. numbers v.items ≡ all_seconds (form_seen form.now).terms) }
{
    let mut symbols = Vec::new(alloc);
    for term in form.terms() {
        let symbol = second(term.symbol);
        symbols.push(symbol)?;
    }
    Ok(symbols)
}

/// Each symbol's number is above that of the one before.
fn rise(symbols: &[Symbol]) -> bool
    ensures { result ≡ numbers_rise (numbers symbols.now) }
{
    if symbols.is_empty() {
        return true;
    }
    let mut last = symbols[0].number;
    for symbol in &symbols[1..] {
        if last >= symbol.number {
            return false;
        }
        last = symbol.number;
    }
    true
}

/// The form of one term.
fn single(alloc: Global, symbol: Symbol, coefficient: i64) -> Result<Form, WalkError>
    requires { int_eq coefficient (pos 0) ≡ false }
    ensures { MatchResult result (λ f. form_seen f ≡ one_term symbol.number coefficient) IsMemory }
{
    let once = Form::symbol(alloc, symbol)?;
    let form = once.times(alloc, coefficient)?;
    Ok(form)
}

/// A form with one more term, of another symbol, which the form does not have.
fn with_single(alloc: Global, copy: &Form, symbol: Symbol, term: Term) -> Result<Form, WalkError>
    requires some { int_eq (term_seen term).coefficient (pos 0) ≡ false }
    requires apart { is_apart symbol.number (form_seen copy.now).terms ≡ true }
    ensures { MatchResult result (λ f. form_seen f ≡ with_one symbol.number (term_seen term).coefficient (form_seen copy.now)) IsMemory }
{
    let one = single(alloc, symbol, term.coefficient)?;
    let form = one.add(alloc, copy)?;
    Ok(form)
}

/// The second item's copy of a form, by its symbols, which are put in order.
fn in_order(alloc: Global, form: &Form, symbols: &[Symbol]) -> Result<Form, WalkError>
    requires own { copies.is_own (form_seen form.now) ≡ true }
    requires seconds { numbers symbols.now ≡ all_seconds (form_seen form.now).terms }
    ensures { MatchResult result (λ f. form_seen f ≡ copies.second_form (form_seen form.now)) IsMemory }
{
    let terms = form.terms();
    let mut copy = Form::constant(alloc, form.constant_part());
    let mut left = terms.len();
    while left > 0 {
        left -= 1;
        copy = with_single(alloc, &copy, symbols[left], terms[left])?;
    }
    Ok(copy)
}

/// The second item's copy of a form. Its symbols rise as the form's do but for rare large numbers.
pub fn second_form(alloc: Global, form: &Form) -> Result<Form, WalkError>
    requires { copies.is_own (form_seen form.now) ≡ true }
    ensures { MatchResult result (λ f. form_seen f ≡ copies.second_form (form_seen form.now)) IsMemory }
{
    let symbols = seconds(alloc, form)?;
    let others = symbols.as_slice();
    if !rise(others) {
        return in_order(alloc, form, others);
    }
    let copy = form.with_symbols(alloc, others)?;
    Ok(copy)
}

/// Adds the second item's copies of facts, in their order.
pub fn push_seconds(alloc: Global, facts: &mut Vec<Form>, of: &[Form]) -> Result<(), WalkError>
    requires { copies.are_own (forms of.now) ≡ true }
    ensures { MatchResult result (λ _. forms facts.new.items ≡ forms facts.old.items ++ copies.second_forms (forms of.now)) IsMemory }
{
    for form in of {
        let copy = second_form(alloc, form)?;
        facts.push(copy)?;
    }
    Ok(())
}

/// The facts before an access of the second item.
pub fn second_facts_before<D: Copy>(
    alloc: Global,
    facts: &mut Vec<Form>,
    met: &Met<D>,
    i: usize,
) -> Result<(), WalkError>
    requires { i < length met.now.accesses.items }
    ensures { MatchResult result (λ _. forms facts.new.items ≡ forms facts.old.items ++ copies.second_forms (met_access met.now i).it.facts) IsMemory }
{
    let place = place_of(met, i);
    let tagged = &met.paths[place.path];
    let count = tagged.path.accesses[place.item].facts;
    push_seconds(alloc, facts, &tagged.path.facts[..count])?;
    Ok(())
}

/// The second item's index at an access.
pub fn second_index_of<D: Copy>(alloc: Global, met: &Met<D>, i: usize) -> Result<Form, WalkError>
    requires { i < length met.now.accesses.items }
    ensures { MatchResult result (λ f. form_seen f ≡ copies.second_form (met_access met.now i).it.index) IsMemory }
{
    second_form(alloc, index_of(met, i))
}
