//! Section: Walks. Promises exactly what is known of an item where a place's tree begins, and what one work-item finds along a path from
//! there to its end; stands on `path_steps`, `places` and `arrival_claims`.
//!
//! The walk of a place along one path. Of a term the operands come from left to right, then the operator at its own site; a choice walks
//! what it evaluates. Operands were brought to the kind of their operator before, and terms are lawful: of elaborated kernels all are.
//! Claims are as `arrival_claims` has them. What is left at a place stands from the outermost to the innermost; a path goes through it from
//! the innermost.
//!
//! Each contract is that of a step of `path_steps`, of the walk that the definitions have; it holds whatever goes on, and each error says
//! what is true of all that is found along the path. Statements tell how they are left (`specs/Flows.antt`).
#![tactic(auto)]

mod bit_places;
mod bits;
mod cases;
mod course;
mod dividing;
mod ends;
mod flow;
mod fronts;
mod heads;
mod holding;
mod joining;
mod known;
mod lawful;
mod loops;
mod masks;
mod meeting;
mod multiples;
mod narrowing;
mod operands;
mod operators;
mod powers;
mod products;
mod remainders;
mod rests;
mod root;
mod said;
mod shifts;
mod sliding;
mod slots;
mod statements;
mod terms;
mod variables;
mod walking;
mod widths;

pub use root::root_of;
pub use walking::walk_place;
