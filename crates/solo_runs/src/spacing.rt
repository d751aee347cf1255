//! Numbers that divide a form in all states that were seen at a place.

use crate::seen::State;
use guesses::{divisor_of, value_in};
use linear::Form;

/// The values of a form in the states seen so far: what divides all of them, the first one, and whether they differ.
#[derive(Clone, Copy)]
struct Spacing {
    divisor: u64,
    first: Option<i64>,
    varies: bool,
}

impl Spacing {
    fn with(self, value: i64) -> Spacing {
        let varies = match self.first {
            None => false,
            Some(first) => first != value,
        };
        Spacing {
            divisor: divisor_of(self.divisor, value.unsigned_abs()),
            first: Some(value),
            varies: self.varies || varies,
        }
    }
}

/// The greatest number that divides the form's values at a place, if there are two of them at least.
pub fn divisor_at(states: &[State], place: usize, form: &Form) -> Option<u64> {
    let mut spacing = Spacing {
        divisor: 0,
        first: None,
        varies: false,
    };
    for state in states {
        if state.place == place {
            if let Some(value) = value_in(form, state.values.as_slice()) {
                spacing = spacing.with(value);
            }
            if spacing.divisor == 1 {
                return None;
            }
        }
    }
    if spacing.varies && spacing.divisor >= 2 {
        Some(spacing.divisor)
    } else {
        None
    }
}

/// The greatest power of two that divides a number.
pub fn power_in(number: u64) -> u64 {
    number & number.wrapping_neg()
}
