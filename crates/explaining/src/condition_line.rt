//! Lines of the conditions.

use crate::hints::OwnNames;
use crate::sums::Sum;
use std::alloc::AllocError;

/// A line of the conditions: the range of an argument, the length of a buffer, a requirement, or what a buffer holds.
#[derive(Clone, Copy)]
pub enum Line {
    Argument {
        slot: u32,
        low: i64,
        high: i64,
    },
    Length {
        buffer: u32,
        least: Sum,
    },
    Require {
        left: Sum,
        right: Sum,
    },
    Values {
        buffer: u32,
        is_upper: bool,
        sum: Sum,
    },
}

impl Line {
    /// The larger of two lines that say the like, but for a number; none where they do not.
    pub fn merged(self, other: Line) -> Option<Line> {
        match (self, other) {
            (
                Line::Length { buffer, least },
                Line::Length {
                    buffer: second,
                    least: more,
                },
            ) if buffer == second => match more.beyond(least) {
                Some(beyond) if beyond > 0 => Some(other),
                _ => Some(self),
            },
            (Line::Argument { slot, .. }, Line::Argument { slot: second, .. }) if slot == second =>
                Some(self),
            (
                Line::Require { left, right },
                Line::Require {
                    left: first,
                    right: more,
                },
            ) if first.beyond(left) == Some(0) => match more.beyond(right) {
                Some(beyond) if beyond > 0 => Some(other),
                Some(_) => Some(self),
                None => None,
            },
            (
                Line::Values {
                    buffer,
                    is_upper,
                    ..
                },
                Line::Values {
                    buffer: second,
                    is_upper: is_also_upper,
                    ..
                },
            ) if buffer == second && is_upper == is_also_upper => Some(self),
            _ => None,
        }
    }

    /// The line is of conditions of version 2.
    pub fn is_of_two(self) -> bool {
        match self {
            Line::Argument { .. } => false,
            Line::Length { least, .. } => least.has_product(),
            Line::Require { left, right } => left.has_product() || right.has_product(),
            Line::Values { .. } => true,
        }
    }

    /// All its numbers are such as conditions may have.
    pub fn may_be_said(self) -> bool {
        match self {
            Line::Argument { .. } => true,
            Line::Length { least: sum, .. } | Line::Values { sum, .. } => sum.may_be_said(),
            Line::Require { left, right } => left.may_be_said() && right.may_be_said(),
        }
    }

    /// Writes the line, by the names of the arguments and of the buffers.
    pub fn push(self, names: &OwnNames<'_>, out: &mut String) -> Result<(), AllocError> {
        let variables = names.variables.as_slice();
        match self {
            Line::Argument { slot, low, high } => {
                let name = variables.get(slot as usize).copied().unwrap_or("?");
                write!(out, "arg {name} {low}..{high}")
            }
            Line::Length { buffer, least } => {
                let name = names.buffers.get(buffer as usize).copied().unwrap_or("?");
                write!(out, "length {name} >= ")?;
                least.push(variables, out)
            }
            Line::Require { left, right } => {
                out.push_str("require ")?;
                left.push(variables, out)?;
                out.push_str(" >= ")?;
                right.push(variables, out)
            }
            Line::Values {
                buffer,
                is_upper,
                sum,
            } => {
                let name = names.buffers.get(buffer as usize).copied().unwrap_or("?");
                let sign = if is_upper { "<=" } else { ">=" };
                write!(out, "values {name} {sign} ")?;
                sum.push(variables, out)
            }
        }
    }
}
