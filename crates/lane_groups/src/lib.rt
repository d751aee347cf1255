//! Section: Runs. Promises what a work-group's lane code stores, exactly as defined, and that of a pair-safe kernel its rounds
//! store the same; stands on `lane_words` and `write_log`.
//!
//! The work-items of a group as lanes: registers, masks, memory and stores. Each instruction is done for all items at once, as the machine
//! of the definitions does it (`lanes`).
#![tactic(auto)]

mod earlier;
mod flows;
mod group;
mod indexes;
pub mod laws;
mod loads;
mod local_id;
mod masks;
mod members;
mod opening;
mod operations;
mod overlay;
mod own;
mod places;
mod reads;
mod registers;
mod round;
mod row;
mod run;
mod sources;
mod standing;
mod steps;
mod stored;
mod stores;
mod stretches;
mod strip;
mod work_group;

pub use group::{Room, run_group, run_group_in};
pub use work_group::Group;
