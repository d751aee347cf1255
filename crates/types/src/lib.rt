//! Section: Kernel text. Promises exactly the core of a tree, or its first broken typing rule; stands on `syntax` and `core_code`.
//!
//! What a name stands for, what a declaration adds, and to which kinds operands are brought; and the typing of kernels: exactly the
//! elaborated kernel of the definitions, or the first broken rule with its place.
#![tactic(auto)]

pub mod assignments;
pub mod barriers;
pub mod calls;
pub mod check;
pub mod conversions;
pub mod declarations;
pub mod declared;
pub mod devices;
pub mod elaboration;
pub mod error;
pub mod jumps;
pub mod loads;
pub mod naming;
pub mod scope;
pub mod statements;
pub mod targets;
pub mod typed;
pub mod typing;
