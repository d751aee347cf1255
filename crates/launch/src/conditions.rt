//! Launch conditions.

ghost use Rattle.std.specs.Prelude.{◌≡◌, ◌≤◌, ◌≤ℤ◌, vec_len};
ghost use Rattle.words.specs.View.{value_of, kind_of};

use crate::number::Number;
use words::{Kind, Word};

/// Group counts from `low` to `high`, both included.
#[derive(Clone, Copy)]
pub struct CountRange {
    pub low: u32,
    pub high: u32,
    pub ghost some: { 1 ≤ low },
    pub ghost order: { low ≤ high },
    pub ghost most: { high ≤ 65536 },
}

/// The range of each dimension's group count.
#[derive(Clone, Copy)]
pub struct CountRanges {
    pub x: CountRange,
    pub y: CountRange,
    pub z: CountRange,
}

/// An argument from `low` to `high`, both included and of its parameter's kind.
#[derive(Clone, Copy)]
pub struct ArgumentRange {
    pub low: Word,
    pub high: Word,
    pub line: u32,
    pub ghost order: { value_of low ≤ℤ value_of high },
}

/// The dimensions of an NDRange (OpenCL 1.2, 3.2).
#[derive(Clone, Copy)]
pub enum Dimension {
    X,
    Y,
    Z,
}

/// A factor of a product: an argument, by its number among the value parameters, or a group count.
#[derive(Clone, Copy)]
pub enum Factor {
    Argument(u32),
    Groups(Dimension),
}

/// A number, or a number times an argument, times a group count, or times a product of two of these.
#[derive(Clone, Copy)]
pub enum Summand {
    Constant(Number),
    Argument {
        factor: Number,
        parameter: u32,
    },
    Groups {
        factor: Number,
        dimension: Dimension,
    },
    Product {
        factor: Number,
        first: Factor,
        second: Factor,
    },
}

/// A sum in conditions, of at most 8 summands.
#[derive(Drop)]
pub struct Sum {
    pub terms: Vec<Summand>,
    pub ghost few: { vec_len terms ≤ 8 },
}

/// A buffer of a kind has at least as many elements as a sum.
#[derive(Drop)]
pub struct Length {
    pub kind: Kind,
    pub least: Sum,
    pub line: u32,
}

/// The left sum is at least the right one.
#[derive(Drop)]
pub struct Requirement {
    pub left: Sum,
    pub right: Sum,
    pub line: u32,
}

/// Each element of a buffer (by its number among the buffer parameters) is at most a sum, or at least: when the launch begins, and each
/// store keeps it.
#[derive(Drop)]
pub struct Content {
    pub buffer: u32,
    pub is_upper: bool,
    pub sum: Sum,
    pub line: u32,
}

/// The conditions that a launch has to meet, each with the line of the text in which it stands.
#[derive(Drop)]
pub struct Conditions {
    pub groups: CountRanges,
    pub groups_line: u32,
    pub arguments: Vec<ArgumentRange>,
    pub lengths: Vec<Length>,
    pub requirements: Vec<Requirement>,
    pub contents: Vec<Content>,
    pub budget: u64,
}
