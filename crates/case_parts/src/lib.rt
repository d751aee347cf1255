//! Section: Tests. Promises nothing: it asks parts of the program alone, for the tests of texts; stands on `verify` and below.
//!
//! Each part is asked by a word of a file of cases (`Part`), and writes what it finds as text. What asks for the whole program is `cases`.
#![tactic(auto)]

mod launched;
mod least;
mod logged;
mod meeting;
mod noted;
mod parts;
mod play;
mod spots;
mod stalled;
mod unreckoned_kernels;

pub use parts::{Asked, Part, part_of, push_part};
