//! Section: Meaning. Promises 32-bit words and operations exactly as defined; stands on `semantics`.
//!
//! 32-bit integers as OpenCL C has them, and the gate by which the workers of a run tell what they do.
//!
//! A `Word` is a number of one kind, and can hold no number that its kind lacks. Each operation answers exactly what
//! the definitions of the crate `semantics` say, that one word or that one fault, for all operands. No call takes
//! memory, waits or ends the process.
#![tactic(auto)]

mod gate;
mod word;

pub use gate::{Gate, Moment, Open};
pub use word::{
    Fault, Kind, Word, add, bit_and, bit_or, bit_xor, convert, count_of, div, is_zero, larger,
    less, mul, neg, not, power, read_as, rem, same_kind, settle, shift_left, shift_right, shl, shr,
    smaller, sub, truth,
};
