//! How loops end.

ghost use Rattle.std.specs.Prelude.{◌≡◌, ◌<◌, pos, ◌<ℤ◌, ◌≤ℤ◌, MatchOption};

use linear::Form;

/// The step by which a form falls in each turn, at least 1.
#[derive(Clone, Copy, Drop)]
pub struct Step {
    size: u64,
    ghost falls: { 0 < size },
}

impl Step {
    /// A step of that size, where it is 1 at least.
    pub fn new(size: u64) -> Option<Step>
        ensures { MatchOption result (size ≡ 0) (λ s. s.size ≡ size) }
    {
        if size == 0 {
            return None;
        }
        Some(Step { size })
    }

    /// The size of the step, which is above 0.
    pub fn size(self) -> u64
        ensures same { result ≡ self.size }
        ensures falls { 0 < result }
    {
        self.size
    }
}

/// A lower bound, of at least 1, of a form where its loop opens.
#[derive(Clone, Copy, Drop)]
pub struct Least {
    number: i64,
    ghost grows: { pos 0 <ℤ number },
}

impl Least {
    /// A lower bound of this number; none where that is below 1.
    pub fn new(number: i64) -> Option<Least>
        ensures { MatchOption result (number ≤ℤ pos 0) (λ l. l.number ≡ number) }
    {
        if number <= 0 {
            return None;
        }
        Some(Least { number })
    }

    /// The number, which is above 0.
    pub fn number(self) -> i64
        ensures same { result ≡ self.number }
        ensures grows { pos 0 <ℤ result }
    {
        self.number
    }
}

/// A ranking of a loop, which says why it ends.
#[derive(Drop)]
pub enum Bound {
    /// Each turn makes the form less by `step` at least, from at most `most` down to above 0.
    Down { form: Form, step: Step, most: i64 },
    /// Each turn makes the form at most half, from at most `most` down to above 0.
    Halving { form: Form, most: i64 },
    /// Each turn makes the form at least double, from at least `least` up to at most `most`.
    Doubling { form: Form, least: Least, most: i64 },
}

/// The bound of a loop, with the loop's number.
#[derive(Drop)]
pub struct LoopBound {
    pub number: u32,
    pub bound: Bound,
}
