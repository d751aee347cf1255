//! What an index is put together of rows by.

use crate::keys::literal;
use crate::reaches::Reaches;
use crate::sums::Sum;
use core_code::tree::{Operator, Term};
use std::alloc::{AllocError, Global};

impl<'a> Reaches<'a> {
    /// A factor of a term that is known as a sum, with the other factor; none where the term is no such product.
    fn pitch(&self, term: &'a Term) -> Option<(Sum, &'a Term)> {
        match term {
            Term::Convert { of, .. } => self.pitch(of),
            Term::Binary {
                operator: Operator::Multiply,
                left,
                right,
                ..
            } => match self.exact(right) {
                Some(pitch) => Some((pitch, left)),
                None => Some((self.exact(left)?, right)),
            },
            _ => None,
        }
    }

    /// The pitch in a sum: a number of which one operand is a multiple, and one more than the other one is at most; and the other factor.
    /// Further numbers may be added to that.
    fn pitched(&self, term: &'a Term, more: i64) -> Option<(Sum, Sum, &'a Term)> {
        match term {
            Term::Convert { of, .. } => self.pitched(of, more),
            Term::Binary {
                operator: Operator::Add,
                left,
                right,
                ..
            } => {
                if let Some(number) = literal(right) {
                    return self.pitched(left, more.saturating_add(number));
                }
                if let Some((pitch, factor)) = self.pitch(left) {
                    let least = self.most(right)?.more(more)?.more(1)?;
                    return Some((pitch, least, factor));
                }
                let (pitch, factor) = self.pitch(right)?;
                Some((pitch, self.most(left)?.more(more)?.more(1)?, factor))
            }
            _ => {
                let (pitch, factor) = self.pitch(term)?;
                Some((pitch, Sum::number(more.saturating_add(1)), factor))
            }
        }
    }

    /// The pitches of an index that is put together of rows, at most three, each with the least that it has to be for
    /// rows to be apart.
    pub fn pitches(&self, alloc: Global, index: &'a Term) -> Result<Vec<(Sum, Sum)>, AllocError> {
        let mut found = Vec::new(alloc);
        let mut left = index;
        for _level in 0..3 {
            let Some((pitch, least, factor)) = self.pitched(self.resolved(left), 0) else {
                return Ok(found);
            };
            found.push((pitch, least))?;
            left = factor;
        }
        Ok(found)
    }
}
