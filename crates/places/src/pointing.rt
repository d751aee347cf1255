//! The loops and barriers of a kernel, in order.

ghost use Rattle.std.specs.Prelude.{◌≡◌, ◌++◌, [], map, IfOk, OnOk};
ghost use Rattle.core_code.specs.View.{statement as statement_seen, statements as statements_seen};
ghost use Rattle.arrivals.specs.Points as meaning;
ghost use Rattle.places.specs.View.{left, point as point_seen};

use crate::point::{Point, Rest, inside, push_point};
use core_code::tree::Statement;
use std::alloc::{AllocError, Global};

/// Adds the points, loops and barriers, of a statement, in the order of the source.
#[cycle(points)]
fn points_one<'a>(
    alloc: Global,
    statement: &'a Statement,
    rest: &[Rest<'a>],
    points: &mut Vec<Point<'a>>,
) -> Result<(), AllocError>
    ensures { OnOk result (map point_seen points.new.items ≡ map point_seen points.old.items ++ meaning.points_one (statement_seen statement.now) (left rest.now)) }
{
    match statement {
        Statement::If { taken, skipped, .. } => {
            points_in(alloc, taken.as_slice(), rest, points)?;
            points_in(alloc, skipped.as_slice(), rest, points)?;
            Ok(())
        }
        Statement::Loop { body, update, .. } => {
            push_point(alloc, statement, rest, points)?;
            let turned = inside(alloc, rest, Rest::Turning(statement))?;
            points_body(
                alloc,
                body.as_slice(),
                update.as_slice(),
                turned.as_slice(),
                points,
            )?;
            points_in(alloc, update.as_slice(), turned.as_slice(), points)?;
            Ok(())
        }
        Statement::Barrier { .. } => push_point(alloc, statement, rest, points),
        Statement::Set { .. }
        | Statement::Store { .. }
        | Statement::Return { .. }
        | Statement::Break { .. }
        | Statement::Continue { .. } => Ok(()),
    }
}

/// Adds the points of a loop's body, by what is left when the loop has turned.
#[cycle(points)]
fn points_body<'a>(
    alloc: Global,
    body: &'a [Statement],
    update: &'a [Statement],
    turned: &[Rest<'a>],
    points: &mut Vec<Point<'a>>,
) -> Result<(), AllocError>
    ensures { OnOk result (map point_seen points.new.items ≡ map point_seen points.old.items ++ meaning.points (statements_seen body.now) (meaning.join (statements_seen update.now) (left turned.now))) }
{
    let rest = inside(alloc, turned, Rest::Fresh(update))?;
    points_in(alloc, body, rest.as_slice(), points)
}

/// Adds the points of statements one after the other.
#[cycle(points)]
fn points_in<'a>(
    alloc: Global,
    body: &'a [Statement],
    rest: &[Rest<'a>],
    points: &mut Vec<Point<'a>>,
) -> Result<(), AllocError>
    ensures { OnOk result (map point_seen points.new.items ≡ map point_seen points.old.items ++ meaning.points (statements_seen body.now) (left rest.now)) }
{
    for i in 0..body.len() {
        let behind = inside(alloc, rest, Rest::Fresh(&body[i + 1..]))?;
        points_one(alloc, &body[i], behind.as_slice(), points)?;
    }
    Ok(())
}

/// The points, loops and barriers, of a kernel's body, in the order of the source.
pub fn points_of<'a>(alloc: Global, body: &'a [Statement]) -> Result<Vec<Point<'a>>, AllocError>
    ensures { IfOk result (λ v. map point_seen v.items ≡ meaning.points (statements_seen body.now) []) }
{
    let mut points = Vec::new(alloc);
    points_in(alloc, body, &[], &mut points)?;
    Ok(points)
}
