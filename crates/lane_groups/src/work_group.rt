//! A work-group of a launch.

ghost use Rattle.std.specs.Prelude.{◌≡◌, ◌+◌, ◌*◌, true, IfOk};
ghost use Rattle.semantics.specs.Setup.{member};
ghost use Rattle.core_code.specs.View.{kernel as kernel_seen};
ghost use Rattle.work_item.specs.Proper.{is_proper};
ghost use Rattle.lane_groups.specs.Groups.{setup};

use core_code::tree::{Array, Core};
use kernel_code::code::Op;
use launch::launches::Launch;
use std::alloc::{AllocError, Global};
use work_item::identity::group_size;

/// A kernel, its launch, and which of the launch's work-groups it is.
#[derive(Clone, Copy)]
pub struct Group<'b> {
    pub core: &'b Core,
    pub launch: &'b Launch,
    pub number: u64,
}

/// A run of a work-group, of whose loops each takes so many turns at most.
#[derive(Clone, Copy)]
pub struct Run<'a> {
    pub alloc: Global,
    pub group: &'a Group<'a>,
    pub turns: u64,
}

/// Operations, and the register that has what they compute.
#[derive(Clone, Copy)]
pub struct Computed<'a> {
    pub ops: &'a [Op],
    pub register: u32,
}

/// An element of an array, by the register that has its index.
#[derive(Clone, Copy)]
pub struct Element {
    pub array: Array,
    pub index: u32,
}

/// A product; past 64 bits there is no memory for so many work-items.
fn product(groups: u64, size: u64) -> Result<u64, AllocError>
    ensures { IfOk result (λ n. n ≡ groups * size) }
{
    groups.checked_mul(size).ok_or(AllocError)
}

/// A sum; past 64 bits there is no memory for so many work-items.
fn sum(first: u64, k: u64) -> Result<u64, AllocError>
    ensures { IfOk result (λ n. n ≡ first + k) }
{
    first.checked_add(k).ok_or(AllocError)
}

impl<'b> Group<'b> {
    /// The number of the k-th item.
    pub fn member(&self, k: u64) -> Result<u64, AllocError>
        requires { is_proper (kernel_seen self.now.core.now) ≡ true }
        ensures { IfOk result (λ i. i ≡ member (setup self.now) self.now.number k) }
    {
        let first = product(self.number, group_size(self.core))?;
        let number = sum(first, k)?;
        Ok(number)
    }
}
