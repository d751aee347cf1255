//! The choices of the next path.

ghost use Rattle.std.specs.Prelude.{◌≡◌, ◌++◌, ◌∷◌, [], map, IfOk, MatchResult};
ghost use Rattle.facts.specs.Refusals.{IsMemory};
ghost use Rattle.path_steps.specs.Paths as paths;
ghost use Rattle.path_steps.specs.Turns as turns;
ghost use Rattle.path_steps.specs.View.{choice as choice_seen};
ghost use Rattle.walk.specs.View.{maybe_choices};

use facts::WalkError;
use path_steps::Choice;
use std::alloc::{AllocError, Global};

/// The first way is taken.
fn is_first(choice: Choice) -> bool
    ensures { result ≡ paths.is_first (choice_seen choice) }
{
    match choice {
        Choice::First => true,
        Choice::Other(_) => false,
    }
}

/// The choices in front, and then the other way of a fork, before which so many claims stand.
fn with_other(alloc: Global, front: &[Choice], count: u32) -> Result<Vec<Choice>, AllocError>
    ensures { IfOk result (λ v. map choice_seen v.items ≡ map choice_seen front.now ++ paths.Other count ∷ []) }
{
    let mut choices = Vec::from_slice(alloc, front)?;
    choices.push(Choice::Other(count))?;
    Ok(choices)
}

/// The choices of the path that comes after one along these choices, at whose end so many claims stand: the last first way becomes the
/// other one, and what came behind it is dropped.
pub fn next_choices(
    alloc: Global,
    taken: &[Choice],
    count: u32,
) -> Result<Option<Vec<Choice>>, WalkError>
    ensures { MatchResult result (λ next. maybe_choices next ≡ turns.next_choices (map choice_seen taken.now) count) IsMemory }
{
    let mut at = taken.len();
    while at > 0 {
        at -= 1;
        if is_first(taken[at]) {
            let choices = with_other(alloc, &taken[..at], count)?;
            return Ok(Some(choices));
        }
    }
    Ok(None)
}
