//! Section: Gate. Promises what a certificate says of a kernel's places and loops, as notes, or that the kernel lacks what it names; stands
//! on `certificate`, `places` and `obligations`.
//!
//! The lines of a certificate about places and loops become notes: names become symbols of the place where they stand, and forms of the
//! text forms of the walk. What names anything that the kernel lacks becomes none.
#![tactic(auto)]

mod chart;
mod error;
mod forms;
mod front;
mod gathering;
mod kept;
pub mod laws;
mod lemmas;
mod names;
mod noting;
mod place_lines;
mod quotients;
mod ranking_lines;
mod scenes;
mod sight;
mod spots;
mod station;
mod visible;

pub use chart::{Chart, chart_of};
pub use error::NamesError;
pub use forms::fact;
pub use front::Front;
pub use gathering::Gathering;
pub use lemmas::names_of;
pub use names::Names;
pub use noting::notes_of;
pub use scenes::{Named, Scene};
pub use sight::{Sight, slot_of, symbol};
pub use station::{Station, loop_at, station_of};
