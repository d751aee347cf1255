//! Section: Walks. Promises exactly what a path claims where it comes to a place or to a loop's test; stands on `path_steps` and
//! `obligations`.
//!
//! What is said of places and loops, looked up and put in a path's own terms: facts, congruences and multiples where a place is reached,
//! rankings where a loop's test is reached and where it was true. Each contract is that of a step of `path_steps`.
#![tactic(auto)]

mod arriving;
mod claiming;
mod dividing;
mod factors;
mod lookups;
mod multiplying;
mod placing;
mod progress;
mod ranking;
mod replacing;
mod slots;
mod symbols;

pub use arriving::{refuse, stop};
pub use claiming::{claim_facts, claim_told};
pub use dividing::{claim_congruences, difference};
pub use lookups::{
    congruences_of, facts_of, multiples_of, quotient_of, ranking_of, same_of, visible_of,
};
pub use multiplying::claim_multiples;
pub use placing::Placing;
pub use ranking::{arrive, enter, stand_before};
pub use replacing::{PathForm, replaced};
pub use slots::{are_slots, is_kept, kind_at};
