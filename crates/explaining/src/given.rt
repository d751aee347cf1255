//! What conditions allow one value of.

use crate::said::sum_of;
use crate::sums::{Name, Sum};
use core_code::tree::{Core, Function};
use launch::conditions::{Conditions, Content, CountRange, CountRanges, Factor, Summand};
use launch::number::Number;
use std::alloc::{AllocError, Global};
use words::Kind;

/// The numbers of a dimension: its work-items in a group, and the groups that the conditions allow.
#[derive(Clone, Copy)]
struct Extent {
    size: u32,
    low: u32,
    high: u32,
}

/// One count of groups, which the conditions might ask for.
#[derive(Clone, Copy)]
pub struct OneCount {
    dimension: u32,
    ranges: [(u32, u32); 3],
}

/// The ends that conditions give the numbers of a buffer: whether there is a least one, whether it is not negative, and
/// whether there is a greatest one.
#[derive(Clone, Copy)]
struct Ends {
    has_least: bool,
    is_unsigned: bool,
    has_greatest: bool,
}

/// The lines by which the conditions might bound what a buffer holds, by its number: from below, from above, or both.
#[derive(Clone, Copy)]
pub struct Unbounded {
    buffer: u32,
    below: bool,
    above: bool,
}

/// The arguments that the conditions allow, by their slots, the extents of the dimensions, and what is said of the numbers that each buffer
/// holds.
#[derive(Drop)]
pub struct Given {
    arguments: Vec<(i64, i64)>,
    extents: [Extent; 3],
    buffers: Vec<Ends>,
    tops: Vec<Option<Sum>>,
    lengths: Vec<Option<Sum>>,
}

fn extent_of(size: u32, range: CountRange) -> Extent {
    Extent {
        size,
        low: range.low,
        high: range.high,
    }
}

fn extents(sizes: [u32; 3], groups: CountRanges) -> [Extent; 3] {
    let [x, y, z] = sizes;
    [
        extent_of(x, groups.x),
        extent_of(y, groups.y),
        extent_of(z, groups.z),
    ]
}

fn one_count(extent: Option<&Extent>, is_wanted: bool) -> (u32, u32) {
    match extent {
        Some(extent) if is_wanted => (extent.high, extent.high),
        Some(extent) => (extent.low, extent.high),
        None => (1, 1),
    }
}

/// The ends of a buffer of a kind of which no line speaks.
fn ends_of(kind: Kind) -> Ends {
    let is_unsigned = kind != Kind::Int;
    Ends {
        has_least: is_unsigned,
        is_unsigned,
        has_greatest: false,
    }
}

/// A number that is not negative.
fn is_unsigned(number: Number) -> bool {
    !number.negative || number.size == 0
}

impl Given {
    pub fn of(alloc: Global, core: &Core, conditions: &Conditions) -> Result<Given, AllocError> {
        let mut given = Given {
            arguments: Vec::new(alloc),
            extents: extents(core.sizes, conditions.groups),
            buffers: Vec::new(alloc),
            tops: Vec::new(alloc),
            lengths: Vec::new(alloc),
        };
        for range in conditions.arguments.iter() {
            given
                .arguments
                .push((range.low.value(), range.high.value()))?;
        }
        for kind in core.buffers.iter() {
            given.buffers.push(ends_of(*kind))?;
            given.tops.push(None)?;
        }
        for length in conditions.lengths.iter() {
            given.lengths.push(sum_of(&length.least))?;
        }
        for content in conditions.contents.iter() {
            given.take_line(content);
        }
        Ok(given)
    }

    /// Takes up what a line says of a buffer.
    fn take_line(&mut self, content: &Content) {
        if content.is_upper {
            if let Some(top) = self.tops.get_mut(content.buffer as usize) {
                *top = sum_of(&content.sum);
            }
        }
        let mut is_unsigned = true;
        for summand in content.sum.terms.iter() {
            is_unsigned = is_unsigned && self.is_unsigned_summand(*summand);
        }
        if let Some(ends) = self.buffers.get_mut(content.buffer as usize) {
            if content.is_upper {
                ends.has_greatest = true;
            } else {
                ends.has_least = true;
                ends.is_unsigned = ends.is_unsigned || is_unsigned;
            }
        }
    }

    fn is_unsigned_factor(&self, factor: Factor) -> bool {
        match factor {
            Factor::Argument(slot) => !self.may_be_negative(slot as usize),
            Factor::Groups(_) => true,
        }
    }

    /// A term of a sum is not negative at any launch.
    fn is_unsigned_summand(&self, summand: Summand) -> bool {
        match summand {
            Summand::Constant(number) => is_unsigned(number),
            Summand::Argument { factor, parameter } => {
                is_unsigned(factor) && !self.may_be_negative(parameter as usize)
            }
            Summand::Groups { factor, .. } => is_unsigned(factor),
            Summand::Product {
                factor,
                first,
                second,
            } => {
                is_unsigned(factor)
                    && self.is_unsigned_factor(first)
                    && self.is_unsigned_factor(second)
            }
        }
    }

    /// Whether the buffer may hold a negative number.
    pub fn may_hold_negative(&self, buffer: u32) -> bool {
        match self.buffers.get(buffer as usize) {
            Some(ends) => !ends.is_unsigned,
            None => true,
        }
    }

    /// The lines that would bound what a buffer holds; none where it is bounded.
    pub fn unbounded(&self, buffer: u32) -> Option<Unbounded> {
        let ends = self.buffers.get(buffer as usize)?;
        if ends.has_least && ends.has_greatest {
            return None;
        }
        Some(Unbounded {
            buffer,
            below: !ends.has_least,
            above: !ends.has_greatest,
        })
    }

    /// An argument of which one value is allowed.
    pub fn is_one(&self, slot: usize) -> bool {
        match self.arguments.get(slot) {
            Some((low, high)) => low == high,
            None => false,
        }
    }

    /// An argument that may be negative.
    pub fn may_be_negative(&self, slot: usize) -> bool {
        match self.arguments.get(slot) {
            Some((low, _)) => *low < 0,
            None => false,
        }
    }

    fn extent_at(&self, dimension: u32) -> Option<&Extent> {
        self.extents.get(dimension as usize)
    }

    /// Whether a work-item function gives the same number in a dimension at all launches.
    pub fn is_number(&self, function: Function, dimension: u32) -> bool {
        let Some(extent) = self.extent_at(dimension) else {
            return false;
        };
        match function {
            Function::LocalSize => true,
            Function::NumGroups | Function::GlobalSize => extent.low == extent.high,
            Function::LocalId => extent.size == 1,
            Function::GroupId => extent.high == 1,
            Function::GlobalId => extent.size == 1 && extent.high == 1,
        }
    }

    /// The range of an argument.
    pub fn range(&self, slot: usize) -> Option<(i64, i64)> {
        self.arguments.get(slot).copied()
    }

    pub fn has_argument(&self, slot: usize) -> bool {
        slot < self.arguments.len()
    }

    /// An argument as a sum.
    pub fn argument(&self, slot: usize) -> Option<Sum> {
        let (low, high) = self.range(slot)?;
        if low == high {
            Some(Sum::number(low))
        } else {
            Sum::of(1, Name::Argument(u32::try_from(slot).ok()?))
        }
    }

    /// The sum that a line of the conditions has for the greatest number of a buffer.
    pub fn top(&self, buffer: u32) -> Option<Sum> {
        *self.tops.get(buffer as usize)?
    }

    /// The sum that the length of a buffer is at least.
    pub fn length(&self, buffer: u32) -> Option<Sum> {
        *self.lengths.get(buffer as usize)?
    }

    /// So many times the groups of a dimension.
    fn groups(&self, dimension: u32, times: u32) -> Option<Sum> {
        let extent = self.extent_at(dimension)?;
        if extent.low == extent.high {
            Some(Sum::number((extent.low as i64).checked_mul(times as i64)?))
        } else {
            Sum::of(times as i64, Name::Groups(dimension))
        }
    }

    /// The largest value of a work-item function in a dimension.
    pub fn most_of(&self, function: Function, dimension: u32) -> Option<Sum> {
        let size = self.extent_at(dimension)?.size;
        match function {
            Function::GlobalId => self.groups(dimension, size)?.more(-1),
            Function::GroupId => self.groups(dimension, 1)?.more(-1),
            Function::LocalId => Some(Sum::number((size as i64).saturating_sub(1))),
            Function::GlobalSize => self.groups(dimension, size),
            Function::NumGroups => self.groups(dimension, 1),
            Function::LocalSize => Some(Sum::number(size as i64)),
        }
    }

    /// The least value of a work-item function in a dimension.
    pub fn least_of(&self, function: Function, dimension: u32) -> Option<Sum> {
        match function {
            Function::GlobalId | Function::GroupId | Function::LocalId => Some(Sum::number(0)),
            Function::GlobalSize | Function::NumGroups | Function::LocalSize => {
                self.most_of(function, dimension)
            }
        }
    }

    /// One count of groups in a dimension, for a function that would be a number by it.
    pub fn one_groups(&self, function: Function, dimension: u32) -> Option<OneCount> {
        match function {
            Function::GlobalSize | Function::NumGroups => Some(OneCount {
                dimension,
                ranges: [
                    one_count(self.extent_at(0), dimension == 0),
                    one_count(self.extent_at(1), dimension == 1),
                    one_count(self.extent_at(2), dimension == 2),
                ],
            }),
            _ => None,
        }
    }
}

impl OneCount {
    /// Two are of the same dimension.
    pub fn is_like(self, other: OneCount) -> bool {
        self.dimension == other.dimension
    }

    /// Writes the line of the conditions that allows the one count.
    pub fn push(self, out: &mut String) -> Result<(), AllocError> {
        out.push_str("groups")?;
        for (low, high) in self.ranges {
            write!(out, " {low}..{high}")?;
        }
        Ok(())
    }
}

impl Unbounded {
    pub fn buffer(self) -> u32 {
        self.buffer
    }

    pub fn is_below(self) -> bool {
        self.below
    }

    pub fn is_above(self) -> bool {
        self.above
    }

    /// Writes the lines of the conditions that bound what the buffer holds, by the names of the buffers.
    pub fn push(self, names: &[&str], out: &mut String) -> Result<(), AllocError> {
        let name = names.get(self.buffer as usize).copied().unwrap_or("?");
        match (self.below, self.above) {
            (true, true) => write!(out, "values {name} >= SUM and values {name} <= SUM"),
            (true, false) => write!(out, "values {name} >= SUM"),
            _ => write!(out, "values {name} <= SUM"),
        }
    }
}
