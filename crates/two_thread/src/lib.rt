//! Section: Walks. Promises exactly what is to be shown of a kernel's places; stands on `path_steps` and `obligations`.
//!
//! What is to be shown of all trees of a kernel's places: the claims of one item, the pairs of ends at which two items may be, and the
//! pairs of accesses that may clash, over all paths of all places, by their numbers; and the facts that are to be impossible of each.
#![tactic(auto)]

mod agreeing;
mod alike;
mod anchors;
mod answering;
mod arrays;
mod claims;
mod clashing;
mod crossings;
mod equal;
mod fences;
mod in_turn;
mod limit;
mod looking;
mod manner;
mod meetings;
mod met;
mod numbered;
mod on_path;
mod own_path;
mod parts;
mod quotients;
mod seconds;
mod showing;
mod stops;
mod two;
mod walked;

pub use agreeing::{is_agreed, meeting_facts, try_meeting};
pub use alike::{Alike, copy_alike};
pub use claims::{claim_facts, is_needed, is_settled, sort_of, spot_of_claim, try_denials};
pub use clashing::{is_apart, try_differences};
pub use crossings::{Crossing, Order, Pairing, Scope, Sought, is_of, spot_of, with_one};
pub use fences::is_fenced;
pub use manner::Manner;
pub use meetings::{About, Meeting, is_rest, two_meet};
pub use met::Met;
pub use numbered::{Obligations, Premises};
pub use on_path::OnPath;
pub use own_path::{OwnPath, own_paths};
pub use parts::Part;
pub use quotients::claims_second;
pub use showing::crossing_facts_by;
pub use stops::{spot_of_end, stop_of};
pub use walked::{Tagged, Walked};
