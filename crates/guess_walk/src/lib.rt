//! Section: Search. Promises nothing: a kernel's places, walked with candidates in the place of what a certificate says; stands on
//! `walk`, `certificate_notes` and `cut_search`.
//!
//! The walks are those of the check, narrow or wide. A range of an unsigned value, or that a dividend is not negative, is taken as shown as
//! long as the search shows it, or, of a hopeful walk, as long as its numbers are small. What a search found is written down here: symbols
//! get the names that a certificate has for them, and derivations become steps.
#![tactic(auto)]

mod claims;
mod declared_names;
mod leaves;
mod line_table;
mod loop_part;
mod noted;
mod place_parts;
mod quotient_names;
mod quotients;
mod resolving;
mod said;
mod sights;
mod steps;
mod subject;
mod symbol_names;
mod walking;

pub use declared_names::{Names, names_of};
pub use leaves::{Begun, begun_of, leaves_of, places_of_paths, reached};
pub use line_table::{LineTable, PlaceLines};
pub use quotients::{Division, FormDivision, Shown, both_sides, both_sides_by};
pub use resolving::{Request, Trust, facts_of, resolve};
pub use said::may_be_said;
pub use sights::{is_place, sights_of};
pub use steps::{lemmas_of, steps_of};
pub use subject::Subject;
pub use walking::{Extent, Limits, Walked, certificate_of, walk, with_accesses};
