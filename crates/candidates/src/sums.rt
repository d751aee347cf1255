//! Sums with so many times a form or a symbol; a number that is too large means that there is none.

use guesses::{one_of, try_multiple, try_sum};
use linear::{Form, Symbol};
use std::alloc::{AllocError, Global};

/// The sum and so many times another form.
pub fn plus_times(
    alloc: Global,
    sum: &Form,
    form: &Form,
    factor: i64,
) -> Result<Option<Form>, AllocError> {
    let Some(part) = try_multiple(alloc, form, factor)? else {
        return Ok(None);
    };
    try_sum(alloc, sum, &part)
}

/// The sum and so many times a symbol.
pub fn plus_symbol(
    alloc: Global,
    sum: &Form,
    symbol: Symbol,
    factor: i64,
) -> Result<Option<Form>, AllocError> {
    let symbol = one_of(alloc, symbol)?;
    plus_times(alloc, sum, &symbol, factor)
}
