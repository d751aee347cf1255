//! Loops on a path from a place.

ghost use Rattle.std.specs.Prelude.{◌≡◌, MatchResult};
ghost use Rattle.core_code.specs.View.{term as term_seen};
ghost use Rattle.path_steps.specs.View.{followed, turns as turns_seen};
ghost use Rattle.arrival_claims.specs.Claims.{Comes, IsRefusedAt};
ghost use Rattle.arrival_claims.specs.View.{placed};
ghost use Rattle.path_walk.specs.Flows.{Opens, NotOpened, Closes, NotClosed, Tested, NotTested, head_of};

use crate::course::test_at;
use crate::flow::{Flow, stop_here, turn};
use arrival_claims::{Placing, arrive, enter};
use core_code::tree::Term;
use domain::Domain;
use facts::WalkError;
use path_steps::{Halt, Path, Stop};

/// The path stops at the test of a loop without a barrier.
pub fn stop_at_head<D: Domain>(
    placing: &Placing<'_, D>,
    path: &mut Path<D>,
    number: u32,
    again: bool,
    turns: &mut Option<Vec<u32>>,
) -> Result<(), WalkError>
    ensures { MatchResult result (λ _. Comes (followed path.old) (head_of (placed D.Domain placing.now) number again (turns_seen turns.old)) (followed path.new).found) (IsRefusedAt (followed path.old) (head_of (placed D.Domain placing.now) number again (turns_seen turns.old))) }
{
    arrive(placing, path, number, again)?;
    stop_here(placing, path, Stop::Head { number, again }, turns)
}

/// A loop with a barrier: its test, and whether it was true.
pub fn open_loop<D: Domain>(
    placing: &Placing<'_, D>,
    path: &mut Path<D>,
    number: u32,
    again: bool,
    test: &Term,
    turns: &mut Option<Vec<u32>>,
) -> Result<bool, Halt>
    ensures { MatchResult result (λ b. Opens (placed D.Domain placing.now) number again (term_seen test.now) (followed path.old) (turns_seen turns.old) b (followed path.new) (turns_seen turns.new)) (λ h. NotOpened (placed D.Domain placing.now) number again (term_seen test.now) (followed path.old) (turns_seen turns.old) h (followed path.new)) }
{
    arrive(placing, path, number, again)?;
    let holds = test_at(placing, path, number, test)?;
    if !holds {
        return Ok(false);
    }
    enter(placing, path, number)?;
    turn(turns, number)?;
    Ok(true)
}

/// Leaves the body of a loop with a barrier: a `break` goes on behind the loop, and a path that comes to the body's end without a barrier
/// stops.
pub fn close_loop<D: Domain>(
    placing: &Placing<'_, D>,
    path: &mut Path<D>,
    flow: Flow,
    turns: &mut Option<Vec<u32>>,
) -> Result<Flow, Halt>
    ensures { MatchResult result (λ f. Closes (placed D.Domain placing.now) flow (followed path.old) (turns_seen turns.old) f (followed path.new) (turns_seen turns.new)) (λ h. NotClosed (placed D.Domain placing.now) flow (followed path.old) (turns_seen turns.old) h (followed path.new)) }
{
    match flow {
        Flow::Broke(_) => Ok(Flow::Through),
        Flow::Stopped => Ok(Flow::Stopped),
        Flow::Through | Flow::Continued(_) => {
            stop_here(placing, path, Stop::End, turns)?;
            Ok(Flow::Stopped)
        }
    }
}

/// The test of a head, from which a path begins, and whether it was true.
pub fn test_head<D: Domain>(
    placing: &Placing<'_, D>,
    path: &mut Path<D>,
    number: u32,
    test: &Term,
) -> Result<bool, Halt>
    ensures { MatchResult result (λ b. Tested (placed D.Domain placing.now) number (term_seen test.now) (followed path.old) b (followed path.new)) (λ h. NotTested (placed D.Domain placing.now) number (term_seen test.now) (followed path.old) h (followed path.new)) }
{
    let holds = test_at(placing, path, number, test)?;
    if !holds {
        return Ok(false);
    }
    enter(placing, path, number)?;
    Ok(true)
}
