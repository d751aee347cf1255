//! A head, from which a path begins.

ghost use Rattle.std.specs.Prelude.{◌≡◌, ◌∷◌, MatchResult};
ghost use Rattle.core_code.specs.View.{statement as statement_seen, statements as statements_seen};
ghost use Rattle.arrivals.specs.Points.{fresh};
ghost use Rattle.arrivals.specs.Symbolic.{draw_head};
ghost use Rattle.path_steps.specs.View.{followed, turns as turns_seen};
ghost use Rattle.arrival_claims.specs.Claims.{Comes};
ghost use Rattle.arrival_claims.specs.View.{placed};
ghost use Rattle.obligations.specs.Walking.{course};
ghost use Rattle.path_walk.specs.Heads.{TurnsOn, NotTurned, EndsAt};
ghost use Rattle.path_walk.specs.Rests.{ComesAlong, NotLeft};
ghost use Rattle.path_walk.specs.declared.flow.Flow.TheVariants.{Through};
ghost use Rattle.places.specs.View.{left, point as point_seen};

use crate::flow::Flow;
use crate::fronts::{walk_front, walk_fronts};
use crate::loops::test_head;
use crate::rests::walk_left;
use arrival_claims::Placing;
use core_code::tree::Statement;
use domain::Domain;
use path_steps::{Halt, Path};
use places::{Point, Rest};

/// A loop whose test was true: its body, its update and the loop itself.
fn turn_on<D: Domain>(
    placing: &Placing<'_, D>,
    path: &mut Path<D>,
    body: &[Statement],
    update: &[Statement],
    statement: &Statement,
    turns: &mut Option<Vec<u32>>,
) -> Result<Flow, Halt>
    ensures { MatchResult result (λ f. TurnsOn (placed D.Domain placing.now) (statements_seen body.now) (statements_seen update.now) (statement_seen statement.now) (followed path.old) (turns_seen turns.old) f (followed path.new) (turns_seen turns.new)) (λ h. NotTurned (placed D.Domain placing.now) (statements_seen body.now) (statements_seen update.now) (statement_seen statement.now) (followed path.old) (turns_seen turns.old) h (followed path.new)) }
{
    let flow = walk_fronts(placing, path, Flow::Through, body, turns)?;
    let flow = walk_fronts(placing, path, flow, update, turns)?;
    walk_front(placing, path, flow, true, statement, turns)
}

/// A statement that has not begun, and what is left behind it.
fn walk_fresh<D: Domain>(
    placing: &Placing<'_, D>,
    path: &mut Path<D>,
    statement: &Statement,
    rests: &[Rest<'_>],
    turns: &mut Option<Vec<u32>>,
) -> Result<(), Halt>
    ensures { MatchResult result (λ _. ComesAlong (placed D.Domain placing.now) (fresh (statement_seen statement.now) ∷ left rests.now) Through (followed path.old) (turns_seen turns.old) (followed path.new)) (λ h. NotLeft (placed D.Domain placing.now) (fresh (statement_seen statement.now) ∷ left rests.now) Through (followed path.old) (turns_seen turns.old) h (followed path.new)) }
{
    let flow = walk_front(placing, path, Flow::Through, false, statement, turns)?;
    walk_left(placing, path, flow, rests, turns)
}

/// Walks from a loop's head: its test comes first, then a turn or what is left behind the loop.
pub fn walk_head<D: Domain>(
    placing: &Placing<'_, D>,
    path: &mut Path<D>,
    head: &Point<'_>,
    turns: &mut Option<Vec<u32>>,
) -> Result<(), Halt>
    ensures { MatchResult result (λ _. Comes (followed path.old) (draw_head (course (placed D.Domain placing.now)) (point_seen head.now).statement (point_seen head.now).rest (turns_seen turns.old)) (followed path.new).found) (λ h. EndsAt (followed path.old) (draw_head (course (placed D.Domain placing.now)) (point_seen head.now).statement (point_seen head.now).rest (turns_seen turns.old)) h (followed path.new)) }
{
    let rests = head.rest.as_slice();
    match head.statement {
        Statement::Loop {
            number,
            test,
            body,
            update,
        } => {
            let holds = test_head(placing, path, *number, test)?;
            if !holds {
                return walk_left(placing, path, Flow::Through, rests, turns);
            }
            let body = body.as_slice();
            let update = update.as_slice();
            let flow = turn_on(placing, path, body, update, head.statement, turns)?;
            walk_left(placing, path, flow, rests, turns)
        }
        Statement::Set { .. }
        | Statement::Store { .. }
        | Statement::If { .. }
        | Statement::Barrier { .. }
        | Statement::Return { .. }
        | Statement::Break { .. }
        | Statement::Continue { .. } => { walk_fresh(placing, path, head.statement, rests, turns) }
    }
}
