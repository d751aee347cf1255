//! With what variables begin.

use crate::affine::constant_of;
use crate::frame::Frame;
use core_code::tree::Term;
use std::alloc::{AllocError, Global};

/// The slots that were set, in the order of the text, each with the number above 0 that it was set to, if it was one.
#[derive(Drop)]
pub struct Starts {
    set: Vec<(u32, Option<u64>)>,
}

impl Starts {
    /// No slot was set yet.
    pub fn new(alloc: Global) -> Starts {
        Starts {
            set: Vec::new(alloc),
        }
    }

    /// A slot is set to a value.
    pub fn set(
        &mut self,
        alloc: Global,
        frame: &Frame,
        slot: u32,
        value: &Term,
    ) -> Result<(), AllocError> {
        let number = constant_of(alloc, frame, value)?;
        self.set.push((slot, number.and_then(above_zero)))?;
        Ok(())
    }

    /// The number above 0 to which a slot was set the last time; none where it was set to something else, or not at all.
    pub fn of(&self, slot: u32) -> Option<u64> {
        let mut last = None;
        for entry in self.set.as_slice() {
            if entry.0 == slot {
                last = entry.1;
            }
        }
        last
    }
}

/// A number above 0.
fn above_zero(number: i64) -> Option<u64> {
    match u64::try_from(number) {
        Ok(number) if number > 0 => Some(number),
        _ => None,
    }
}
