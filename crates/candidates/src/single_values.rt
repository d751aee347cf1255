//! Variables that have one value over ids and arguments wherever they get one.

use crate::fact_lines::{is_all_global, slot_of};
use guesses::{
    Factors, Leaf, Sight, copied, is_product, is_same, one_of, plain, try_difference, try_multiple,
    try_product, try_sum, variable,
};
use linear::{Form, LinearError, Symbol, Term};
use std::alloc::{AllocError, Global};

/// The values that a variable gets on all paths: none, one form over ids and arguments, or others.
#[derive(Drop)]
pub enum Given {
    Nothing,
    One(Form),
    Many,
}

/// The form is that symbol, once.
fn is_symbol(form: &Form, symbol: Symbol) -> bool {
    let [term] = form.terms() else {
        return false;
    };
    form.constant_part() == 0 && term.symbol == symbol && term.coefficient == 1
}

/// The place has the variable.
pub fn has_slot(sight: &Sight, slot: u32) -> bool {
    sight.slots.iter().any(|other| *other == slot)
}

/// The values of a variable so far with the value that one more path gives; none where that changes nothing.
fn given_more(alloc: Global, old: &Given, form: &Form) -> Result<Option<Given>, AllocError> {
    match old {
        Given::Nothing if is_all_global(form) => {
            let form = copied(alloc, form)?;
            Ok(Some(Given::One(form)))
        }
        Given::One(value) if is_same(value, form) => Ok(None),
        Given::Many => Ok(None),
        _ => Ok(Some(Given::Many)),
    }
}

fn add_value(
    alloc: Global,
    values: &mut [Given],
    slot: u32,
    form: &Form,
) -> Result<(), AllocError> {
    if let Some(old) = values.get_mut(slot as usize) {
        if let Some(more) = given_more(alloc, old, form)? {
            *old = more;
        }
    }
    Ok(())
}

/// Adds the values that one path gives to the variables of the place that it reaches, but for those that it leaves as they were.
fn add_leaf(
    alloc: Global,
    values: &mut [Given],
    from: &Sight,
    to: &Sight,
    leaf: &Leaf,
) -> Result<(), AllocError> {
    for slot in to.slots.iter() {
        let Some(form) = leaf.variables.get(*slot as usize) else {
            continue;
        };
        if has_slot(from, *slot) && is_symbol(form, variable(*slot)) {
            continue;
        }
        add_value(alloc, values, *slot, form)?;
    }
    Ok(())
}

/// The values that variables get on all paths, by their slots.
pub fn given_values(
    alloc: Global,
    sights: &[Sight],
    leaves: &[Leaf],
    slots: usize,
) -> Result<Vec<Given>, AllocError> {
    let mut values = Vec::new(alloc);
    for _ in 0..slots {
        values.push(Given::Nothing)?;
    }
    for leaf in leaves {
        if let (Some(from), Some(to)) = (sights.get(leaf.from), sights.get(leaf.to)) {
            add_leaf(alloc, values.as_mut_slice(), from, to, leaf)?;
        }
    }
    Ok(values)
}

/// The one value, over ids and arguments, of the variable of a symbol; none where it has several or none.
fn value_of(values: &[Given], symbol: Symbol) -> Option<&Form> {
    match values.get(slot_of(symbol)?) {
        Some(Given::One(form)) => Some(form),
        _ => None,
    }
}

fn replaced(
    alloc: Global,
    form: &Form,
    term: Term,
    values: &[Given],
) -> Result<Option<Form>, AllocError> {
    if is_product(term.symbol) {
        return replaced_product(alloc, form, term, values);
    }
    let Some(value) = value_of(values, term.symbol) else {
        return Ok(Some(form.copy(alloc)?));
    };
    match form.substitute(alloc, term.symbol, value) {
        Ok(form) => Ok(Some(form)),
        Err(LinearError::TooLarge) => Ok(None),
        Err(LinearError::Memory) => Err(AllocError),
    }
}

/// A form times a symbol, or the one value of its variable.
fn times_value(
    alloc: Global,
    form: &Form,
    symbol: Symbol,
    values: &[Given],
) -> Result<Option<Form>, AllocError> {
    match value_of(values, symbol) {
        Some(value) => try_product(alloc, form, value),
        None => {
            let one = one_of(alloc, symbol)?;
            try_product(alloc, form, &one)
        }
    }
}

/// The product of a term with the one value of each variable among its factors in its place.
fn product_of_values(
    alloc: Global,
    term: Term,
    values: &[Given],
) -> Result<Option<Form>, AllocError> {
    let factors = Factors::of(term.symbol);
    let mut product = Form::constant(alloc, term.coefficient);
    for factor in [factors.first, factors.second, factors.third] {
        if factor != 0 {
            let Some(next) = times_value(alloc, &product, plain(factor), values)? else {
                return Ok(None);
            };
            product = next;
        }
    }
    Ok(Some(product))
}

/// The form with the one values of a product's variables in their places.
fn replaced_product(
    alloc: Global,
    form: &Form,
    term: Term,
    values: &[Given],
) -> Result<Option<Form>, AllocError> {
    let Some(product) = product_of_values(alloc, term, values)? else {
        return Ok(None);
    };
    let one = one_of(alloc, term.symbol)?;
    let Some(own) = try_multiple(alloc, &one, term.coefficient)? else {
        return Ok(None);
    };
    match try_difference(alloc, form, &own)? {
        Some(others) => try_sum(alloc, &others, &product),
        None => Ok(None),
    }
}

/// The form with the one value of each variable that has one in its place.
pub fn settled(alloc: Global, form: &Form, values: &[Given]) -> Result<Option<Form>, AllocError> {
    let mut out = copied(alloc, form)?;
    for term in form.terms() {
        let Some(next) = replaced(alloc, &out, *term, values)? else {
            return Ok(None);
        };
        out = next;
    }
    Ok(Some(out))
}
