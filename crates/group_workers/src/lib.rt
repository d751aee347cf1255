//! Section: Runs. Promises buffers with the logs of all groups in their order; stands on `lane_groups`.
//!
//! The groups of a launch, run by workers that steal from one another.
//!
//! The groups are run in windows, of groups that come one after another. In a window groups are taken in stretches of some. Before the
//! workers start, stretch k goes to the deque of worker 1 + (k modulo the number of workers). Each worker empties its own deque, then steals
//! from each once round, until a round gave nothing. The calling thread is worker 1, and each worker starts the next one. A deque changes by
//! a push, a pop and a steal, and all three keep one rule: the deque, and what its owner and all passes have taken, hold only numbers of
//! that worker's share below the owner's next one, none twice. So who takes a number learns that it had not taken it before (`Took`); a
//! thief of a worker keeps what it has taken from one steal to the next. What is written rests on none of that: the type of a log says
//! which group's it is, and the collector runs each group of which no log came.
//!
//! A worker pushes the log of a group into a list that threads share without a lock (`boxcar`), and gives back the indexes that the pushes
//! answered. When a window's workers are done, the calling thread writes its logs in the order of the groups, and lets the list go.
//!
//! Where no thread may be started, the calling thread runs one group after the other, and writes the log of each (`run_groups_here`).
#![tactic(auto)]

use std::collections::LinkedList;

mod collector;
mod deque;
mod running;
mod task;
mod window;
mod worker;

pub use running::{run_groups, run_groups_here};
pub use task::Task;

/// Whether a port owns its deque, its owner's next number, and what it has taken. No value of it is made.
pub struct Hand {
    pub owns: bool,
    pub next: u64,
    pub taken: LinkedList<u64>,
}
