//! Whether the point of a tableau is whole, and which numbers it gives its symbols.

use super::answer::Point;
use crate::row::{Row, Variable};
use crate::stop::Stop;
use std::alloc::Global;

/// The point of a tableau, where all symbols of it are whole.
pub fn point_of(alloc: Global, solved: &[Row]) -> Result<Option<Point>, Stop> {
    let mut point = Vec::new(alloc);
    for row in solved {
        let Some(value) = whole_value(row) else {
            return Ok(None);
        };
        if let Variable::Free(symbol) = row.basic {
            point.push((symbol, value))?;
        }
    }
    Ok(Some(point))
}

/// The point of a tableau is whole.
pub fn is_whole(solved: &[Row]) -> bool {
    for row in solved {
        if whole_value(row).is_none() {
            return false;
        }
    }
    true
}

/// The value of a row's variable, where it is whole.
fn whole_value(row: &Row) -> Option<i64> {
    match row.constant.checked_rem(row.denominator) {
        Some(0) => row.constant.checked_div(row.denominator),
        _ => None,
    }
}
