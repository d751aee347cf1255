//! The names of symbols, and forms in names.

use crate::declared_names::Names;
use crate::quotient_names::is_plainly_named;
use certificate::spelling::push_name;
use certificate::tree::{self, Dimension, Name};
use facts::{Family, Side};
use guesses::{Factors, index_of, is_product, plain};
use linear::{Form, Symbol};
use std::alloc::{AllocError, Global};
use std::cmp::Ordering;

/// A term with the spelling of its name.
#[derive(Drop)]
struct SpeltTerm {
    spelling: String,
    term: tree::Term,
}

fn dimension_of(index: u64) -> Option<Dimension> {
    match index {
        0 => Some(Dimension::First),
        1 => Some(Dimension::Second),
        2 => Some(Dimension::Third),
        _ => None,
    }
}

/// The name of a count or an id.
fn name_by_dimension(symbol: Symbol) -> Option<Name> {
    let dimension = dimension_of(index_of(symbol))?;
    match Family::of(symbol) {
        Family::Groups => Some(Name::Groups(dimension)),
        Family::Local(Side::First) => Some(Name::Local(dimension)),
        Family::Group(Side::First) => Some(Name::Group(dimension)),
        _ => None,
    }
}

/// The name of a new symbol, or of a loop's turns.
fn name_by_number(symbol: Symbol) -> Option<Name> {
    let index = index_of(symbol);
    match Family::of(symbol) {
        Family::New(Side::First) => {
            let number = index.checked_add(1)?;
            Some(Name::Fresh(number))
        }
        Family::Turns(Side::First) => Some(Name::Turns(index)),
        _ => None,
    }
}

/// How the kernel spells what the symbol stands for.
fn spelt_in_kernel<'a>(names: &Names<'a>, symbol: Symbol) -> Option<&'a str> {
    let Ok(index) = usize::try_from(index_of(symbol)) else {
        return None;
    };
    let found = match Family::of(symbol) {
        Family::Argument => names.arguments.get(index),
        Family::Length => names.buffers.get(index),
        Family::Variable(Side::First) | Family::AtAnchor(Side::First) => names.variables.get(index),
        _ => None,
    };
    match found {
        None => None,
        Some(name) => Some(*name),
    }
}

/// The name of what the kernel declares.
fn name_by_kernel(
    alloc: Global,
    names: &Names<'_>,
    symbol: Symbol,
) -> Result<Option<Name>, AllocError> {
    let Some(spelt) = spelt_in_kernel(names, symbol) else {
        return Ok(None);
    };
    let name = String::from_str(alloc, spelt)?;
    match Family::of(symbol) {
        Family::Argument => Ok(Some(Name::Argument(name))),
        Family::Length => Ok(Some(Name::Length(name))),
        Family::Variable(_) => Ok(Some(Name::Variable(name))),
        _ => Ok(Some(Name::AtAnchor(name))),
    }
}

/// The name of a symbol of the launch or the first item, which is no product; none where it has none.
fn name_of_first(
    alloc: Global,
    names: &Names<'_>,
    symbol: Symbol,
) -> Result<Option<Name>, AllocError> {
    match Family::of(symbol) {
        Family::Groups | Family::Local(_) | Family::Group(_) => Ok(name_by_dimension(symbol)),
        Family::New(_) | Family::Turns(_) => Ok(name_by_number(symbol)),
        Family::Argument | Family::Length | Family::Variable(_) | Family::AtAnchor(_) => {
            name_by_kernel(alloc, names, symbol)
        }
    }
}

/// The family of the first item that one of the second item is the copy of; none of another family.
fn first_family(symbol: Symbol) -> Option<Family> {
    match Family::of(symbol) {
        Family::Local(Side::Second) => Some(Family::Local(Side::First)),
        Family::Group(Side::Second) => Some(Family::Group(Side::First)),
        Family::New(Side::Second) => Some(Family::New(Side::First)),
        Family::Variable(Side::Second) => Some(Family::Variable(Side::First)),
        Family::AtAnchor(Side::Second) => Some(Family::AtAnchor(Side::First)),
        Family::Turns(Side::Second) => Some(Family::Turns(Side::First)),
        _ => None,
    }
}

/// The name of a symbol of the launch or of one of two items, which is no product; of one item only where that is asked for.
fn name_of_factor(
    alloc: Global,
    names: &Names<'_>,
    symbol: Symbol,
    is_of_two: bool,
) -> Result<Option<Name>, AllocError> {
    let Some(family) = first_family(symbol) else {
        return name_of_first(alloc, names, symbol);
    };
    if !is_of_two {
        return Ok(None);
    }
    let Ok(index) = u32::try_from(index_of(symbol)) else {
        return Ok(None);
    };
    let first = family.symbol(index as u64);
    match name_of_first(alloc, names, first)? {
        Some(name) => Ok(Some(Name::Second(Box::new(alloc, name)?))),
        None => Ok(None),
    }
}

/// A name with its spelling.
#[derive(Drop)]
struct SpeltName {
    spelling: String,
    name: Name,
}

/// Puts a name among others whose spellings fall, from the last to the first in the order of their bytes.
fn put_name(alloc: Global, spelt: &mut Vec<SpeltName>, name: Name) -> Result<(), AllocError> {
    let mut spelling = String::new(alloc);
    push_name(&mut spelling, &name)?;
    let mut index = 0usize;
    for other in spelt.iter() {
        if other.spelling.as_bytes().cmp(spelling.as_bytes()) == Ordering::Less {
            break;
        }
        index = index.saturating_add(1);
    }
    spelt.insert(index.min(spelt.len()), SpeltName { spelling, name })?;
    Ok(())
}

/// The product of names, of which the last stands first.
fn joined(alloc: Global, spelt: Vec<SpeltName>) -> Result<Option<Name>, AllocError> {
    let mut product = None;
    for one in spelt {
        product = match product {
            None => Some(one.name),
            Some(others) => {
                let first = Box::new(alloc, one.name)?;
                Some(Name::Product(first, Box::new(alloc, others)?))
            }
        };
    }
    Ok(product)
}

/// The factors of a product as symbols, equal ones side by side.
fn factors_of(symbol: Symbol) -> [u64; 3] {
    let factors = Factors::of(symbol);
    [factors.first, factors.second, factors.third]
}

/// The name of a product, its factors in the order of the bytes of their names.
fn name_of_product(
    alloc: Global,
    names: &Names<'_>,
    symbol: Symbol,
    is_of_two: bool,
) -> Result<Option<Name>, AllocError> {
    let mut spelt = Vec::new(alloc);
    for factor in factors_of(symbol) {
        if factor == 0 {
            continue;
        }
        let Some(name) = name_of_factor(alloc, names, plain(factor), is_of_two)? else {
            return Ok(None);
        };
        put_name(alloc, &mut spelt, name)?;
    }
    joined(alloc, spelt)
}

/// The name of a symbol in a certificate; none where it has none.
fn name_of(
    alloc: Global,
    names: &Names<'_>,
    symbol: Symbol,
    is_of_two: bool,
) -> Result<Option<Name>, AllocError> {
    if is_product(symbol) {
        name_of_product(alloc, names, symbol, is_of_two)
    } else {
        name_of_factor(alloc, names, symbol, is_of_two)
    }
}

/// A term with its spelling.
fn spelt(alloc: Global, coefficient: i64, name: Name) -> Result<SpeltTerm, AllocError> {
    let mut spelling = String::new(alloc);
    push_name(&mut spelling, &name)?;
    Ok(SpeltTerm {
        spelling,
        term: tree::Term { coefficient, name },
    })
}

/// The index at which a term of this spelling belongs among terms whose spellings rise.
fn index_among(terms: &[SpeltTerm], spelling: &str) -> usize {
    for (index, term) in terms.iter().enumerate() {
        if spelling.as_bytes().cmp(term.spelling.as_bytes()) == Ordering::Less {
            return index;
        }
    }
    terms.len()
}

/// A term more, in the order of the bytes of names.
fn put(terms: &mut Vec<SpeltTerm>, term: SpeltTerm) -> Result<(), AllocError> {
    let index = index_among(terms.as_slice(), term.spelling.as_str()).min(terms.len());
    terms.insert(index, term)?;
    Ok(())
}

/// The terms without their spellings.
fn unspelt(alloc: Global, terms: Vec<SpeltTerm>) -> Result<Vec<tree::Term>, AllocError> {
    let mut plain = Vec::new(alloc);
    for term in terms {
        plain.push(term.term)?;
    }
    Ok(plain)
}

impl<'a> Names<'a> {
    /// The form in names, where each of its symbols has one.
    pub fn form(&self, alloc: Global, form: &Form) -> Result<Option<tree::Form>, AllocError> {
        self.form_in(alloc, form, false)
    }

    /// The form in names of two items, as a lemma has it, where a name means the first variable that is called so; none where a symbol has
    /// no such name.
    pub fn form_of_two(
        &self,
        alloc: Global,
        form: &Form,
    ) -> Result<Option<tree::Form>, AllocError> {
        if !is_plainly_named(self, form) {
            return Ok(None);
        }
        self.form_in(alloc, form, true)
    }

    fn form_in(
        &self,
        alloc: Global,
        form: &Form,
        is_of_two: bool,
    ) -> Result<Option<tree::Form>, AllocError> {
        let mut terms = Vec::new(alloc);
        for term in form.terms() {
            let Some(name) = name_of(alloc, self, term.symbol, is_of_two)? else {
                return Ok(None);
            };
            let term = spelt(alloc, term.coefficient, name)?;
            put(&mut terms, term)?;
        }
        let terms = tree::SharedTerms::of(alloc, unspelt(alloc, terms)?)?;
        Ok(Some(tree::Form {
            terms,
            constant: form.constant_part(),
        }))
    }
}
