//! What may be said of a place.

use crate::forms::{copied, is_same};
use linear::Form;
use std::alloc::{AllocError, Global};

/// A line of a place: that the items of a group have a slot alike where they come to a barrier; that a form is at least 0; that a number
/// divides a form; that a form is a multiple of another.
#[derive(Drop)]
pub enum Line {
    Same(u32),
    Fact(Form),
    Multiple { modulus: u64, form: Form },
    MultipleOf { of: Form, form: Form },
}

impl Line {
    /// Two lines say the same.
    pub fn is_like(&self, other: &Line) -> bool {
        match (self, other) {
            (Line::Same(slot), Line::Same(other)) => *slot == *other,
            (Line::Fact(form), Line::Fact(other)) => is_same(form, other),
            (
                Line::Multiple { modulus, form },
                Line::Multiple {
                    modulus: number,
                    form: other,
                },
            ) => *modulus == *number && is_same(form, other),
            (
                Line::MultipleOf { of, form },
                Line::MultipleOf {
                    of: number,
                    form: other,
                },
            ) => is_same(of, number) && is_same(form, other),
            _ => false,
        }
    }

    /// A copy of the line.
    pub fn copy(&self, alloc: Global) -> Result<Line, AllocError> {
        match self {
            Line::Same(slot) => Ok(Line::Same(*slot)),
            Line::Fact(form) => {
                let form = copied(alloc, form)?;
                Ok(Line::Fact(form))
            }
            Line::Multiple { modulus, form } => {
                let form = copied(alloc, form)?;
                Ok(Line::Multiple {
                    modulus: *modulus,
                    form,
                })
            }
            Line::MultipleOf { of, form } => {
                let of = copied(alloc, of)?;
                let form = copied(alloc, form)?;
                Ok(Line::MultipleOf { of, form })
            }
        }
    }
}

/// Something that may be said of the place at a barrier, and at a loop's head on the way from it, by their numbers; and how late it is
/// tried.
#[derive(Drop)]
pub struct Candidate {
    pub anchor: Option<u32>,
    pub head: Option<u32>,
    pub rank: u32,
    pub line: Line,
}

impl Candidate {
    /// Two candidates say the same of one place; their ranks may differ.
    pub fn is_like(&self, other: &Candidate) -> bool {
        self.anchor == other.anchor && self.head == other.head && self.line.is_like(&other.line)
    }
}
