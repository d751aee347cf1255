//! Section: Replays. Promises exactly what the definitions say of where operations that are not reckoned reach; stands on `core_code`.
//!
//! Operations that are not reckoned: what they give is the device's to say. Variables and arrays that may hold what comes of one are
//! marked, in a few passes over a kernel. Such an operation decides nothing where no test, no index, no divisor, no shift's count and no
//! operand of a result that may be out of range comes of one: then what a run does, but for values, is the same on every device.
#![tactic(auto)]

mod deciding;
mod marks;

pub use deciding::decides_nothing;
