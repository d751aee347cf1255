//! What a search reads off the walks of a kernel's places.

use linear::Form;

/// A place by the numbers of its barrier and its loop, both none at the kernel's entry: the slots that are visible there, the slots whose
/// values at the anchor have symbols there (none at an anchor itself), and the loops around it, by their numbers.
#[derive(Drop)]
pub struct Sight {
    pub anchor: Option<u32>,
    pub head: Option<u32>,
    pub slots: Vec<u32>,
    pub before: Vec<u32>,
    pub loops: Vec<u32>,
}

/// The end of a path from one place to another one, both by their numbers in a list of sights; all forms are over the symbols of the path.
#[derive(Drop)]
pub struct Leaf {
    pub from: usize,
    pub to: usize,
    /// All that is known at the end; the first `begun` of them are known where the path begins.
    pub facts: Vec<Form>,
    pub begun: usize,
    /// Each variable's value, by its slot.
    pub variables: Vec<Form>,
    /// The values at the anchor, by the slots that have symbols of the anchor at the place that is reached.
    pub anchored: Vec<(u32, Form)>,
    /// The values of the rankings of the loops around the place that is reached, by the loops' numbers, when their tests were last true.
    pub ranks: Vec<(u32, Form)>,
}
