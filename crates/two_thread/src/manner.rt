//! How an obligation is shown.

/// The manner in which an obligation is shown: by its facts alone; of a divisor by what is so where it is positive, or where it is
/// negative; of a congruence by a quotient.
#[derive(Clone, Copy)]
pub enum Manner {
    Plainly,
    ByPositive,
    ByNegative,
    ByQuotient,
}
