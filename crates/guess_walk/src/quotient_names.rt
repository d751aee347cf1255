//! Forms in names where no place narrows what a name means.

use crate::declared_names::Names;
use certificate::tree;
use facts::Family;
use guesses::{Factors, has_product, index_of};
use linear::{Form, Symbol};
use std::alloc::{AllocError, Global};

/// The variable of a slot is the first one that is called by its name.
fn is_first(variables: &[&str], slot: usize) -> bool {
    let Some(name) = variables.get(slot) else {
        return false;
    };
    for earlier in variables.iter().take(slot) {
        if *earlier == *name {
            return false;
        }
    }
    true
}

/// The name of a symbol, if it has one, means that symbol everywhere in the kernel.
fn is_plain(variables: &[&str], symbol: Symbol) -> bool {
    match Family::of(symbol) {
        Family::Variable(_) | Family::AtAnchor(_) => {}
        _ => return true,
    }
    let Ok(slot) = usize::try_from(index_of(symbol)) else {
        return false;
    };
    is_first(variables, slot)
}

/// The names of a symbol's factors mean these everywhere in the kernel.
fn are_plain(variables: &[&str], symbol: Symbol) -> bool {
    for factor in Factors::of(symbol).symbols() {
        if factor.is_some_and(|one| !is_plain(variables, one)) {
            return false;
        }
    }
    true
}

/// The names of a form's symbols mean these everywhere in the kernel.
pub fn is_plainly_named(names: &Names<'_>, form: &Form) -> bool {
    for term in form.terms() {
        if !are_plain(names.variables.as_slice(), term.symbol) {
            return false;
        }
    }
    true
}

impl<'a> Names<'a> {
    /// The slots of the variables whose name means another one, which is declared before.
    pub fn unnamed(&self, alloc: Global) -> Result<Vec<u64>, AllocError> {
        let variables = self.variables.as_slice();
        let mut slots = Vec::new(alloc);
        for slot in 0..variables.len() {
            if !is_first(variables, slot) {
                slots.push(slot as u64)?;
            }
        }
        Ok(slots)
    }

    /// The form in names as an entry names its quotient, where a name means the first variable that is called so; none where a symbol has
    /// no such name.
    pub fn quotient(&self, alloc: Global, form: &Form) -> Result<Option<tree::Form>, AllocError> {
        if !self.multiplies && has_product(form) {
            return Ok(None);
        }
        if !is_plainly_named(self, form) {
            return Ok(None);
        }
        self.form(alloc, form)
    }
}
