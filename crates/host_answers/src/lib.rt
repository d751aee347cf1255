//! Section: Program. Promises a host program, by numbers alone, of a kernel what `check` promises, of a launch whether it meets the
//! conditions, and of a run what `run` promises; stands on `telling`, `executor`, `host_shapes` and `host_launches`.
//!
//! What a host program is answered of texts and numbers. Nothing is kept between two calls, and no call reads or writes what another one does.
#![tactic(auto)]

mod answer;
mod building;
mod checking;
mod explanation;
mod given;
pub mod laws;
mod meeting;
mod putting;
mod running;

pub use answer::Answer;
pub use building::build_words;
pub use checking::checked;
pub use explanation::explained;
pub use meeting::meets;
pub use running::run_kernel;
