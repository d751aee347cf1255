//! A statement in front of what is left.

ghost use Rattle.std.specs.Prelude.{◌≡◌, MatchResult};
ghost use Rattle.core_code.specs.View.{statement as statement_seen, statements as statements_seen};
ghost use Rattle.path_steps.specs.View.{followed, turns as turns_seen};
ghost use Rattle.arrival_claims.specs.View.{placed};
ghost use Rattle.path_walk.specs.Fronts.{updated, Passes, NotPassed, PassAll, NoPass};
ghost use Rattle.path_walk.specs.Flows.{Goes, Fails};

use crate::flow::Flow;
use crate::statements::{walk_statement, walk_statements};
use arrival_claims::Placing;
use core_code::tree::Statement;
use domain::Domain;
use path_steps::{Halt, Path};

/// Goes on after a `continue` of a loop: with its update, then the loop itself.
pub fn walk_again<D: Domain>(
    placing: &Placing<'_, D>,
    path: &mut Path<D>,
    again: bool,
    statement: &Statement,
    turns: &mut Option<Vec<u32>>,
) -> Result<Flow, Halt>
    ensures { MatchResult result (λ f. Goes (followed path.old) (turns_seen turns.old) (updated (placed D.Domain placing.now) again (statement_seen statement.now)) f (followed path.new) (turns_seen turns.new)) (λ h. Fails (followed path.old) (turns_seen turns.old) (updated (placed D.Domain placing.now) again (statement_seen statement.now)) h (followed path.new)) }
{
    match walk_statements(placing, path, statement.update(), turns)? {
        Flow::Through => walk_statement(placing, path, again, statement, turns),
        Flow::Broke(number) => Ok(Flow::Broke(number)),
        Flow::Continued(number) => Ok(Flow::Continued(number)),
        Flow::Stopped => Ok(Flow::Stopped),
    }
}

/// A statement in front of what is left, where what stands before it was left that way.
pub fn walk_front<D: Domain>(
    placing: &Placing<'_, D>,
    path: &mut Path<D>,
    flow: Flow,
    again: bool,
    statement: &Statement,
    turns: &mut Option<Vec<u32>>,
) -> Result<Flow, Halt>
    ensures { MatchResult result (λ f. Passes (placed D.Domain placing.now) again (statement_seen statement.now) flow (followed path.old) (turns_seen turns.old) f (followed path.new) (turns_seen turns.new)) (λ h. NotPassed (placed D.Domain placing.now) again (statement_seen statement.now) flow (followed path.old) (turns_seen turns.old) h (followed path.new)) }
{
    match flow {
        Flow::Through => walk_statement(placing, path, again, statement, turns),
        Flow::Broke(number) => {
            if statement.number() == number {
                return Ok(Flow::Through);
            }
            Ok(Flow::Broke(number))
        }
        Flow::Continued(number) => {
            if statement.number() == number {
                return walk_again(placing, path, again, statement, turns);
            }
            Ok(Flow::Continued(number))
        }
        Flow::Stopped => Ok(Flow::Stopped),
    }
}

/// Statements in front of what is left, where what stands before them was left that way.
pub fn walk_fronts<D: Domain>(
    placing: &Placing<'_, D>,
    path: &mut Path<D>,
    flow: Flow,
    statements: &[Statement],
    turns: &mut Option<Vec<u32>>,
) -> Result<Flow, Halt>
    ensures { MatchResult result (λ f. PassAll (placed D.Domain placing.now) (statements_seen statements.now) flow (followed path.old) (turns_seen turns.old) f (followed path.new) (turns_seen turns.new)) (λ h. NoPass (placed D.Domain placing.now) (statements_seen statements.now) flow (followed path.old) (turns_seen turns.old) h (followed path.new)) }
{
    let mut left = flow;
    for statement in statements {
        left = walk_front(placing, path, left, false, statement, turns)?;
    }
    Ok(left)
}
