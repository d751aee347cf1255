//! What may be said where.

use guesses::{Candidate, Line, has_anchored, has_new};
use linear::Form;

/// No symbol is new, and none is of the anchor where one stands at an anchor itself or in a loop's test.
pub fn may_stand(form: &Form, is_behind: bool) -> bool {
    for term in form.terms() {
        if has_new(term.symbol) || (has_anchored(term.symbol) && !is_behind) {
            return false;
        }
    }
    true
}

/// The format has such a line at such a place.
pub fn may_be_said(candidate: &Candidate) -> bool {
    let is_behind = candidate.head.is_some();
    if candidate.anchor.is_none() && !is_behind {
        return false;
    }
    match &candidate.line {
        Line::Same(_) => !is_behind,
        Line::Fact(form) => may_stand(form, is_behind),
        Line::Multiple { modulus, form } => {
            (2 <= *modulus && *modulus <= i64::MAX as u64) && may_stand(form, is_behind)
        }
        Line::MultipleOf { of, form } => may_stand(of, is_behind) && may_stand(form, is_behind),
    }
}

/// The candidate may be said, and none of the first so many says the same.
pub fn is_due(candidates: &[Candidate], count: usize, candidate: &Candidate) -> bool {
    for earlier in candidates.iter().take(count) {
        if earlier.is_like(candidate) {
            return false;
        }
    }
    may_be_said(candidate)
}
