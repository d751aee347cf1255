//! Section: Search. Promises derivations that refute, and points that meet the facts; stands on `cut_proof`.
//!
//! Searches for a derivation that refutes linear facts, or for whole numbers that meet them all. Nothing believes what is found: a
//! derivation is asked of `refutes`, and a point tried on each fact.
//!
//! The exact simplex method finds a sum of facts that is below 0, or a point of fractions that meets them; cuts (Gomory 1958) then part
//! that point from the whole ones, and bounds on single symbols seek a whole one near it. It ends by counts of its steps, so one list has
//! one answer. A tableau has rows of whole numbers over one denominator, with entries where they are not 0, and keeps what each slack, a
//! fact or a cut that is at least 0, and each symbol is over the variables that have no row. A step lets one of those in for a slack that
//! is below 0. A number that leaves `i64` ends the search. A list that is given up is tried once more in another order of steps, then with
//! all sums of two facts that round, then with the congruences of one modulus alone.
//!
//! Where facts have products of symbols, a list that this does not refute is tried with products of two facts (Handelman 1988): those of
//! which each symbol is at hand in some fact, or comes of one that is by an equality; then with lemmas, which let such a product be
//! divided by a fact; then with products in which one symbol may be another one.
#![tactic(auto)]

mod answer;
mod congruences;
mod cuts;
mod deciding;
mod digits;
mod dive;
mod divisions;
mod equalities;
mod following;
mod found;
mod hashes;
mod lemmas;
mod memory;
mod menu;
mod monomials;
mod multiplying;
mod numbers;
mod point;
mod pool;
mod proving;
mod quest;
mod real_points;
mod replacing;
mod row;
mod searching;
mod stop;
mod sums;
mod tableau;
mod unnamed;
mod whole;
mod writing;

pub use answer::{Answer, Point};
pub use divisions::quotients;
pub use memory::{Memory, Questions};
pub use searching::{Start, find, search};
