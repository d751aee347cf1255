//! Section: Kernel text. Promises the words of a line, and the numbers of decimals; stands on nothing.
//!
//! Texts of lines: a text is cut into lines, a line into words, and a word is read as a number.
#![tactic(auto)]

pub mod number;
pub mod pieces;
