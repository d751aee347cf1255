//! Launches.

use words::Word;

/// A number along each dimension: group counts, or ids.
#[derive(Debug, Clone, Copy, PartialEq, Eq)]
pub struct Counts {
    pub x: u32,
    pub y: u32,
    pub z: u32,
}

/// The words of each buffer parameter, in order.
#[derive(Debug, PartialEq, Eq, Drop)]
pub struct Buffers {
    pub words: Vec<Vec<Word>>,
}

/// Group counts, an argument for each value parameter, the buffers, and the word that fills local arrays.
#[derive(Debug, PartialEq, Eq, Drop)]
pub struct Launch {
    pub groups: Counts,
    pub arguments: Vec<Word>,
    pub buffers: Buffers,
    pub fill: u32,
}
