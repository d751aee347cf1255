//! The ids of work-items.

ghost use Rattle.std.specs.Prelude.{◌≡◌, ◌<◌};
ghost use Rattle.semantics.specs.Launch.{product};
ghost use Rattle.semantics.specs.Setup as setup;
ghost use Rattle.launch.specs.View.{counts as counts_seen};
ghost use Rattle.core_code.specs.View.{function as function_seen};
ghost use Rattle.work_item.specs.View.{ids, id_by};

use crate::dimension::Dimension;
use core_code::tree::Function;
use launch::launches::Counts;

impl Dimension {
    /// The place of an item along a dimension past the third one: ids of 0, sizes of 1 (OpenCL 1.2, 6.12.1).
    pub fn past() -> Dimension
        ensures { ids result ≡ record { local = 0; group = 0; size = 1; count = 1 } }
    {
        Dimension {
            local: 0,
            group: 0,
            size: 1,
            count: 1,
        }
    }

    /// The number that a work-item function answers along the dimension (OpenCL 1.2, 6.12.1).
    pub fn id(self, function: Function) -> u32
        ensures { result ≡ id_by (ids self) (function_seen function) }
    {
        match function {
            Function::GlobalId => self.group * self.size + self.local,
            Function::LocalId => self.local,
            Function::GroupId => self.group,
            Function::GlobalSize => self.count * self.size,
            Function::LocalSize => self.size,
            Function::NumGroups => self.count,
        }
    }
}

/// The place that has a number among counts, the first dimension running fastest.
pub fn place(counts: Counts, number: u64) -> Counts
    requires { number < product (counts_seen counts) }
    ensures place { counts_seen result ≡ setup.place (counts_seen counts) number }
    ensures inside { setup.IsPlace (counts_seen counts) (counts_seen result) }
{
    let x = counts.x as u64;
    let y = counts.y as u64;
    Counts {
        x: (number % x) as u32,
        y: (number / x % y) as u32,
        z: (number / (x * y)) as u32,
    }
}
