//! Statements on a path from a place.

ghost use Rattle.std.specs.Prelude.{◌≡◌, MatchResult};
ghost use Rattle.core_code.specs.View.{statement as statement_seen, statements as statements_seen};
ghost use Rattle.arrivals.specs.Symbolic.{draw, draw_one};
ghost use Rattle.obligations.specs.Walking.{course};
ghost use Rattle.path_steps.specs.View.{followed, turns as turns_seen};
ghost use Rattle.arrival_claims.specs.View.{placed};
ghost use Rattle.path_walk.specs.Flows.{Goes, Fails};

use crate::course::{Store, test_at, walk_set, walk_store};
use crate::flow::{Flow, stop_here};
use crate::loops::{close_loop, open_loop, stop_at_head};
use arrival_claims::Placing;
use core_code::tree::Statement;
use domain::Domain;
use path_steps::{Halt, Path, Stop};
use places::holds_barrier;

/// One statement, a loop where it has turned or has not.
#[cycle(statements)]
pub fn walk_statement<D: Domain>(
    placing: &Placing<'_, D>,
    path: &mut Path<D>,
    again: bool,
    statement: &Statement,
    turns: &mut Option<Vec<u32>>,
) -> Result<Flow, Halt>
    ensures { MatchResult result (λ f. Goes (followed path.old) (turns_seen turns.old) (draw_one (course (placed D.Domain placing.now)) again (statement_seen statement.now)) f (followed path.new) (turns_seen turns.new)) (λ h. Fails (followed path.old) (turns_seen turns.old) (draw_one (course (placed D.Domain placing.now)) again (statement_seen statement.now)) h (followed path.new)) }
{
    match statement {
        Statement::Set {
            number,
            slot,
            value,
        } => {
            walk_set(placing, path, *number, *slot, value)?;
            Ok(Flow::Through)
        }
        Statement::Store {
            number,
            array,
            site,
            index,
            value,
        } => {
            let store = Store {
                array: *array,
                site: *site,
                index,
                value,
            };
            walk_store(placing, path, *number, store)?;
            Ok(Flow::Through)
        }
        Statement::If {
            number,
            test,
            taken,
            skipped,
        } => {
            let holds = test_at(placing, path, *number, test)?;
            if holds {
                return walk_statements(placing, path, taken.as_slice(), turns);
            }
            walk_statements(placing, path, skipped.as_slice(), turns)
        }
        Statement::Loop {
            number,
            test,
            body,
            update,
        } => {
            if !holds_barrier(body.as_slice(), update.as_slice()) {
                stop_at_head(placing, path, *number, again, turns)?;
                return Ok(Flow::Stopped);
            }
            let holds = open_loop(placing, path, *number, again, test, turns)?;
            if !holds {
                return Ok(Flow::Through);
            }
            let flow = walk_statements(placing, path, body.as_slice(), turns)?;
            close_loop(placing, path, flow, turns)
        }
        Statement::Barrier { number, .. } => {
            stop_here(placing, path, Stop::Barrier(*number), turns)?;
            Ok(Flow::Stopped)
        }
        Statement::Return { .. } => {
            stop_here(placing, path, Stop::End, turns)?;
            Ok(Flow::Stopped)
        }
        Statement::Break { of, .. } => Ok(Flow::Broke(*of)),
        Statement::Continue { of, .. } => Ok(Flow::Continued(*of)),
    }
}

/// Walks statements one after the other, and says how they are left.
#[cycle(statements)]
pub fn walk_statements<D: Domain>(
    placing: &Placing<'_, D>,
    path: &mut Path<D>,
    statements: &[Statement],
    turns: &mut Option<Vec<u32>>,
) -> Result<Flow, Halt>
    ensures { MatchResult result (λ f. Goes (followed path.old) (turns_seen turns.old) (draw (course (placed D.Domain placing.now)) (statements_seen statements.now)) f (followed path.new) (turns_seen turns.new)) (λ h. Fails (followed path.old) (turns_seen turns.old) (draw (course (placed D.Domain placing.now)) (statements_seen statements.now)) h (followed path.new)) }
{
    for statement in statements {
        match walk_statement(placing, path, false, statement, turns)? {
            Flow::Through => {}
            Flow::Broke(number) => return Ok(Flow::Broke(number)),
            Flow::Continued(number) => return Ok(Flow::Continued(number)),
            Flow::Stopped => return Ok(Flow::Stopped),
        }
    }
    Ok(Flow::Through)
}
