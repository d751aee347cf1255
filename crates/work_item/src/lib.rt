//! Section: Work-items. Promises the next step of a work-item exactly as defined; stands on `core_code` and `launch`.
//!
//! Work-items: what one asks for next, and how it stands afterwards. It is the one step that machines and runs share. A kernel has to
//! be proper: its literals are numbers of their kinds, no shift by a number is by more than 31 or of an `int`, none by a term is of a size,
//! and a group has 1 to 1,024 items.
#![tactic(auto)]

pub mod ask;
pub mod dimension;
pub mod evaluation;
pub mod identity;
mod ids;
pub mod item;
pub mod left;
mod operations;
pub mod proper;
pub mod reckoned;
pub mod shifts;
pub mod trail;
