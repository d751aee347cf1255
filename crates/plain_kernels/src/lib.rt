//! Section: Walks. Promises which refusals a plain kernel never gets; stands on `walk_trees` and `obligations`.
//!
//! Plain kernels, whose stores are `a[get_global_id(0) * K + C] = V;`: what the checker's domain settles of them, so that only their
//! indexes and pairs are left to a certificate. Laws alone.
#![tactic(auto)]

pub mod laws;
