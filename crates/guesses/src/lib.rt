//! Section: Search. Promises nothing: the candidates of a search, facts of places and loops that nobody has shown; stands on `linear`.
//!
//! Candidates, and what there is to do with the forms in them. Nobody believes them: the check decides.
#![tactic(auto)]

mod candidate;
mod factors;
mod forms;
mod leaf;
mod ranking;
mod symbols;

pub use candidate::{Candidate, Line};
pub use factors::{Factors, is_product, plain, times};
pub use forms::{
    common_divisor, copied, divisor_of, has_product, is_same, one_of, plus, reduced, speaks_of,
    try_difference, try_multiple, try_product, try_sum, value_in,
};
pub use leaf::{Leaf, Sight};
pub use ranking::Ranking;
pub use symbols::{
    argument, at_anchor, group, groups, has_anchored, has_new, index_of, is_at_anchor, is_global,
    is_launch, is_new, is_turns, is_variable, length, local, new_symbol, turns, variable,
};
