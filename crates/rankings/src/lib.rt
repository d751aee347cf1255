//! Section: Walks. Promises that ranked loops end, and that no solo run has more steps than the kernel costs; stands on `arrivals` and
//! `loop_bounds`.
//!
//! The cost of `loop_bounds` counts a statement, a test and a load as one step each, and of a choice the side that has more. `loop_free`:
//! this is enough in every solo run of a kernel without loops; barriers, loads, `if`, `return` and stray exits may occur.
//!
//! With loops, a number ranks each loop. What is to be shown of it speaks of the places' trees alone: that it is at most a limit where the
//! loop opens, above 0 where its test was true, and that it has fallen where a turn comes back to the test. From this follows here how
//! often the test is true at most in each solo run, and so how many steps a solo run has (`laws`).
#![tactic(auto)]

pub mod laws;
pub mod loop_free;
