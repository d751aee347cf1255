//! Section: Meaning. Promises that a device has no part in the runs of a kernel of which all is reckoned; stands on `semantics`.
//!
//! What a device gives for operations that are not reckoned is the machine of a launch. Where no such operation stands in a kernel, each
//! list of events leads to the same world on each machine.
#![tactic(auto)]

pub mod runs;
