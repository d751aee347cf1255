//! What may be said where.

use crate::subject::Subject;
use core_code::tree::Statement;
use guesses::Sight;
use obligations::{Notes, Visible};
use places::{Place, Point};
use std::alloc::{AllocError, Global};

/// Lists the loops around a statement of that number, the outermost first, and gives whether it stands in this one.
#[cycle(around)]
fn around(statement: &Statement, number: u32, loops: &mut Vec<u32>) -> Result<bool, AllocError> {
    if statement.number() == number {
        return Ok(true);
    }
    match statement {
        Statement::If { taken, skipped, .. } => {
            if around_in(taken.as_slice(), number, loops)? {
                return Ok(true);
            }
            around_in(skipped.as_slice(), number, loops)
        }
        Statement::Loop {
            number: of,
            body,
            ..
        } => {
            loops.push(*of)?;
            if around_in(body.as_slice(), number, loops)? {
                return Ok(true);
            }
            loops.pop();
            Ok(false)
        }
        _ => Ok(false),
    }
}

/// Lists the loops around a statement of that number among statements, the outermost first, and gives whether it stands there.
#[cycle(around)]
fn around_in(body: &[Statement], number: u32, loops: &mut Vec<u32>) -> Result<bool, AllocError> {
    for statement in body {
        if around(statement, number, loops)? {
            return Ok(true);
        }
    }
    Ok(false)
}

fn number_at(point: &Option<Point<'_>>) -> Option<u32> {
    match point {
        None => None,
        Some(point) => Some(point.statement.number()),
    }
}

/// The slots that are visible at a statement, or at the entry.
fn slots_at(
    alloc: Global,
    visible: &[Visible],
    statement: Option<u32>,
) -> Result<Vec<u32>, AllocError> {
    for one in visible {
        if one.statement == statement {
            return Vec::from_slice(alloc, one.slots.as_slice());
        }
    }
    Ok(Vec::new(alloc))
}

/// The variables and the loops of which something may be said at a place.
fn sight_of(
    alloc: Global,
    body: &[Statement],
    visible: &[Visible],
    place: &Place<'_>,
) -> Result<Sight, AllocError> {
    let anchor = number_at(&place.anchor);
    let head = number_at(&place.head);
    let statement = if head.is_some() { head } else { anchor };
    let slots = slots_at(alloc, visible, statement)?;
    let before = if head.is_some() {
        slots_at(alloc, visible, anchor)?
    } else {
        Vec::new(alloc)
    };
    let mut loops = Vec::new(alloc);
    if let Some(number) = statement {
        around_in(body, number, &mut loops)?;
    }
    Ok(Sight {
        anchor,
        head,
        slots,
        before,
        loops,
    })
}

/// The variables and the loops of which something may be said, at each place of a kernel in order.
pub fn sights_of(
    alloc: Global,
    subject: &Subject<'_>,
    notes: &Notes,
) -> Result<Vec<Sight>, AllocError> {
    let body = subject.typed.core().body.as_slice();
    let mut sights = Vec::new(alloc);
    for place in subject.places {
        let sight = sight_of(alloc, body, notes.visible.as_slice(), place)?;
        sights.push(sight)?;
    }
    Ok(sights)
}

/// The place has this barrier as its anchor, and this loop as its head.
pub fn is_place(sight: &Sight, anchor: Option<u32>, head: Option<u32>) -> bool {
    sight.anchor == anchor && sight.head == head
}
