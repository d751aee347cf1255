//! How a loop may end.

use certificate::tree::Descent;
use linear::Form;

/// A ranking of the loop of a number: where its test is true the form is above 0, and each turn makes it less.
#[derive(Drop)]
pub struct Ranking {
    pub number: u32,
    pub descent: Descent,
    pub form: Form,
}
