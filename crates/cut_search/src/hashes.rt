//! Numbers by which facts are found again. Facts of one number are taken for one, so that less may be found where two have it by chance.

use linear::Form;
use std::alloc::{AllocError, Global};

/// An odd number whose digits are without order.
const FACTOR: u64 = 0x9e37_79b9_7f4a_7c15;

fn mixed(hash: u64, word: u64) -> u64 {
    let product = (hash ^ word).wrapping_mul(FACTOR);
    product ^ (product >> 29)
}

/// The number of a form so many times. It does not begin with 0: the constant 0 and the symbol 0 would leave that 0, and a first term of
/// that symbol would count as a constant.
fn hash_of_multiple(form: &Form, factor: i64) -> u64 {
    let constant = form.constant_part().wrapping_mul(factor);
    let mut hash = mixed(FACTOR, constant.cast_unsigned());
    for term in form.terms() {
        let coefficient = term.coefficient.wrapping_mul(factor);
        hash = mixed(hash, term.symbol.number);
        hash = mixed(hash, coefficient.cast_unsigned());
    }
    hash
}

pub fn hash_of(form: &Form) -> u64 {
    hash_of_multiple(form, 1)
}

/// The number of the form with all signs turned.
pub fn hash_of_opposite(form: &Form) -> u64 {
    hash_of_multiple(form, -1)
}

/// The number of each fact.
pub fn hashes_of(alloc: Global, facts: &[Form]) -> Result<Vec<u64>, AllocError> {
    let mut hashes = Vec::with_capacity(alloc, facts.len())?;
    for fact in facts {
        hashes.push(hash_of(fact))?;
    }
    Ok(hashes)
}

/// The number of a whole list, by those of its facts.
pub fn hash_of_list(hashes: &[u64]) -> u64 {
    let mut hash = 0;
    for word in hashes {
        hash = mixed(hash, *word);
    }
    hash
}

/// The index at which a hash stands first in a list; none where it does not stand there.
pub fn first_place(hashes: &[u64], hash: u64) -> Option<usize> {
    for (place, word) in hashes.iter().enumerate() {
        if *word == hash {
            return Some(place);
        }
    }
    None
}
