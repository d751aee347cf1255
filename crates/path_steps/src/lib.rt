//! Section: Walks. Promises exactly what one work-item finds along a path of its walk; stands on `core_code`, `facts` and `walk_trees`.
//!
//! The steps of one work-item's walk along a kernel with choices, one path at a time: what is to be shown on the way, what is known
//! there, the accesses, and where it stops. A step's contract holds whatever goes on (`specs/Leads.antt`), and each error says what is
//! true of all that is found along the path (`specs/Refusals.antt`, `specs/Halts.antt`). The laws say of all paths in turn that they list
//! the tree.
#![tactic(auto)]

mod accesses;
mod bounds;
mod contents;
mod dividends;
mod dividing;
mod divisors;
mod ending;
mod exact;
mod halt;
mod held;
mod ids;
mod joins;
pub mod laws;
mod marks;
mod narrowing;
mod path;
mod ranges;
mod setting;
mod shares;
mod sharing;
mod steps;
mod telling;
mod tests;

pub use accesses::{access, in_length, load, stored};
pub use bounds::{bounds_of, is_natural, is_refuted, known_form};
pub use dividends::{asks_dividend, claim_dividend, is_exact, is_positive};
pub use dividing::{left_by, name_left, quotient, sized_quotient, times};
pub use divisors::claim_divisor;
pub use exact::{
    ranged_complement, ranged_difference, ranged_negation, ranged_product, ranged_sum,
    small_product,
};
pub use halt::Halt;
pub use held::{element_at, element_from, settles};
pub use ids::id_form;
pub use joins::{Differences, joined_differences, pick_joined};
pub use marks::Marks;
pub use narrowing::narrow;
pub use path::{
    Access, Arrived, Choice, Claim, Goal, Invented, Narrowed, Path, Ranked, Shared, Sort, Spot,
    Stop, Target, Value,
};
pub use ranges::{any_of, both_brought, brought, invent, unknown};
pub use setting::Setting;
pub use sharing::share;
pub use telling::{tell, tell_order_where};
pub use tests::{copied, difference, is_number, split, split_number};
