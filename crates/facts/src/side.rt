//! The two items of a pair.

/// One of the two items of a pair; where one item is enough, it is the first.
#[derive(Clone, Copy, PartialEq, Eq)]
pub enum Side {
    First,
    Second,
}
