//! Points of a kernel, and what is left behind them.

ghost use Rattle.std.specs.Prelude.{◌≡◌, ◌++◌, ◌∷◌, [], map, IfOk, OnOk};
ghost use Rattle.core_code.specs.View.{statement as statement_seen};
ghost use Rattle.arrivals.specs.Points as meaning;
ghost use Rattle.places.specs.View.{opened, left, point as point_seen};

use core_code::tree::Statement;
use std::alloc::{AllocError, Global};

/// Statements that are left: those of a list, or a loop that has turned.
#[derive(Clone, Copy)]
pub enum Rest<'a> {
    Fresh(&'a [Statement]),
    Turning(&'a Statement),
}

/// A loop or a barrier, with what is left behind it, the innermost last.
#[derive(Drop)]
pub struct Point<'a> {
    pub statement: &'a Statement,
    pub rest: Vec<Rest<'a>>,
}

impl<'a> Point<'a> {
    /// A copy of the point.
    pub fn copy(&self, alloc: Global) -> Result<Point<'a>, AllocError>
        ensures { IfOk result (λ p. point_seen p ≡ point_seen self.now) }
    {
        point_at(alloc, self.statement, self.rest.as_slice())
    }
}

/// The point at a statement.
fn point_at<'a>(
    alloc: Global,
    statement: &'a Statement,
    rest: &[Rest<'a>],
) -> Result<Point<'a>, AllocError>
    ensures { IfOk result (λ p. point_seen p ≡ meaning.point (statement_seen statement.now) (left rest.now)) }
{
    let rest = Vec::from_slice(alloc, rest)?;
    Ok(Point { statement, rest })
}

/// Adds a point: a statement, with what is left behind it.
pub fn push_point<'a>(
    alloc: Global,
    statement: &'a Statement,
    rest: &[Rest<'a>],
    points: &mut Vec<Point<'a>>,
) -> Result<(), AllocError>
    ensures { OnOk result (map point_seen points.new.items ≡ map point_seen points.old.items ++ meaning.point (statement_seen statement.now) (left rest.now) ∷ []) }
{
    let point = point_at(alloc, statement, rest)?;
    points.push(point)?;
    Ok(())
}

#[tactic(auto, using(crate::proofs::Stacking::stacked_more))]
/// The list of what is left, with `front` to be done before the rest.
pub fn inside<'a>(
    alloc: Global,
    rest: &[Rest<'a>],
    front: Rest<'a>,
) -> Result<Vec<Rest<'a>>, AllocError>
    ensures { IfOk result (λ v. left v.items ≡ opened front.entry (left rest.now)) }
{
    let mut all = Vec::from_slice(alloc, rest)?;
    all.push(front)?;
    Ok(all)
}
