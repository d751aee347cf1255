//! Section: Replays. Promises that a schedule replayed is a run of the definitions, and that such a run shows what it confirms;
//! stands on `findings` and `machine`.
//!
//! Schedules, replayed: event after event, up to the first that is not possible. Findings that the replay of a launch confirms; one that it
//! does not confirm is no more than possible, and promises nothing.
#![tactic(auto)]

mod confirmation;
pub mod replay;
mod turn;

pub use confirmation::confirm;
pub use findings::{Finding, FindingKind, Grade, Spot, WorkItem, line, possible};
