//! Section: Meaning. Promises that a work-group run together, or as lane code, stores what its rounds do; stands on `reduction`.
//!
//! A work-group run together: its items go through the kernel's statements side by side, under masks, each over the round's opening memory
//! and its own overlay; a barrier ends a round. The same as lane code: operations on registers, each done for all items at once. Both are
//! definitions, with laws: they store what the result by rounds has, wherever the kernel is pair-safe.
#![tactic(auto)]

pub mod laws;
