//! Section: Runs. Promises the result by rounds of an accepted kernel; stands on `cert_check` and `group_workers`.
//!
//! Accepted kernels, run: the kernel is lowered to lane code once, and work-group by work-group that is done by workers on threads, all
//! items of a group together, or by the calling thread alone (`run_here`). What a run answers is the result by rounds, and so what every
//! interleaving of all work-items leads to, whatever the number of workers and whichever of them runs which group. A kernel with an
//! operation that is not reckoned is not run.
#![tactic(auto)]

mod asking;
mod error;
mod group;
mod here;
mod kinds;
mod running;

pub use asking::{can_run, can_run_accepted};
pub use error::RunError;
pub use group::run_group;
pub use here::run_here;
pub use running::run;
