//! Whether some launch may meet conditions.

use crate::said::sum_of;
use crate::sums::{Name, Sum};
use kernel_reading::{Source, read_source};
use launch::conditions::{Conditions, CountRange};
use launch_text::error::LaunchTextError;
use launch_text::read_conditions_as;
use std::alloc::{AllocError, Global};

/// The choice of a launch's values: the least ones, the greatest ones, or the greatest ones of the values alone that
/// are to be large.
#[derive(Clone, Copy)]
enum Choice {
    Least,
    Greatest,
    Mixed,
}

/// Sums of which the left one has to be at least the right one.
#[derive(Drop)]
struct Demands {
    all: Vec<(Sum, Sum)>,
}

impl Demands {
    /// What conditions require, and that the numbers of a buffer have room between what is said of the least and of the greatest; none
    /// where a sum is too large.
    fn of(alloc: Global, conditions: &Conditions) -> Result<Option<Demands>, AllocError> {
        let mut all = Vec::new(alloc);
        for requirement in conditions.requirements.iter() {
            let (Some(left), Some(right)) = (sum_of(&requirement.left), sum_of(&requirement.right))
            else {
                return Ok(None);
            };
            all.push((left, right))?;
        }
        for upper in conditions.contents.iter() {
            for lower in conditions.contents.iter() {
                if upper.is_upper && !lower.is_upper && upper.buffer == lower.buffer {
                    let (Some(left), Some(right)) = (sum_of(&upper.sum), sum_of(&lower.sum)) else {
                        return Ok(None);
                    };
                    all.push((left, right))?;
                }
            }
        }
        Ok(Some(Demands { all }))
    }

    /// Only what is to be large has the name.
    fn asks_more(&self, name: Name) -> bool {
        let is_left = self.all.iter().any(|pair| pair.0.has(name));
        is_left && !self.all.iter().any(|pair| pair.1.has(name))
    }

    fn is_great(&self, choice: Choice, name: Name) -> bool {
        match choice {
            Choice::Least => false,
            Choice::Greatest => true,
            Choice::Mixed => self.asks_more(name),
        }
    }

    fn count(&self, choice: Choice, dimension: u32, range: CountRange) -> i64 {
        if self.is_great(choice, Name::Groups(dimension)) {
            range.high as i64
        } else {
            range.low as i64
        }
    }

    /// All is met by the values of that choice.
    fn are_met(
        &self,
        alloc: Global,
        conditions: &Conditions,
        choice: Choice,
    ) -> Result<bool, AllocError> {
        let mut arguments = Vec::new(alloc);
        let mut slot: u32 = 0;
        for range in conditions.arguments.iter() {
            let is_great = self.is_great(choice, Name::Argument(slot));
            let word = if is_great { range.high } else { range.low };
            arguments.push(word.value())?;
            slot = slot.saturating_add(1);
        }
        let groups = [
            self.count(choice, 0, conditions.groups.x),
            self.count(choice, 1, conditions.groups.y),
            self.count(choice, 2, conditions.groups.z),
        ];
        for (left, right) in self.all.iter() {
            let values = (
                left.value(arguments.as_slice(), &groups),
                right.value(arguments.as_slice(), &groups),
            );
            match values {
                (Some(left), Some(right)) if left >= right => {}
                _ => return Ok(false),
            }
        }
        Ok(true)
    }
}

/// Some launch meets the conditions, by their text, of a kernel that is read: one at the least values, at the greatest, or at the
/// greatest of what they ask to be large. It may be that one does where no is answered.
pub fn may_be_met(
    alloc: Global,
    source: Source<'_>,
    conditions: &[u8],
) -> Result<bool, AllocError> {
    let Ok(typed) = read_source(alloc, source) else {
        return Err(AllocError);
    };
    let conditions = match read_conditions_as(alloc, &typed, conditions, true) {
        Ok(conditions) => conditions,
        Err(LaunchTextError::Memory) => return Err(AllocError),
        Err(LaunchTextError::Refused { .. }) => return Ok(false),
    };
    let Some(demands) = Demands::of(alloc, &conditions)? else {
        return Ok(false);
    };
    Ok(
        demands.are_met(alloc, &conditions, Choice::Least)?
            || demands.are_met(alloc, &conditions, Choice::Mixed)?
            || demands.are_met(alloc, &conditions, Choice::Greatest)?,
    )
}
