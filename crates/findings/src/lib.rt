//! Section: Replays. Promises exactly the line of a finding, and that a world shows what is seen in it; stands on `machine`.
//!
//! Findings: what is wrong with a kernel, where, and, of one that is confirmed, of which work-items and by which schedule. Nothing here
//! says that it is so: `diagnostics` confirms findings. What is wrong in a world is seen after a step of a work-item: its fault, else a
//! data race, else barrier divergence, with who comes where (`look`).
#![tactic(auto)]

mod alike;
mod finding;
mod sighting;
mod sizes;
mod visit;
mod wording;

pub use finding::{Finding, FindingKind, Grade, Spot, WorkItem, assemble, possible};
pub use sighting::{Sighting, look};
pub use visit::Visit;
pub use wording::line;
