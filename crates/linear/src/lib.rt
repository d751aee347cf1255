//! Section: Facts and domains. Promises forms whose operations mean what they say, or `TooLarge`; stands on `semantics`.
//!
//! Linear forms over numbered symbols, with coefficients and constants in `i64`.
//!
//! A form's terms rise strictly by symbol and have no coefficient 0, so equal forms are equal values. Each operation
//! answers exactly the form of whole numbers that `specs/Exact.antt` defines, or `TooLarge` where a number of it is no
//! `i64`. The product of two or three small symbols is a symbol too, with a number that tells them (`specs/Products.antt`).
#![tactic(auto)]

mod form;
pub mod laws;
mod merge;
mod products;
mod term;
mod term_list;

pub use form::{Fact, Form, LinearError};
pub use term::{Symbol, Term};
