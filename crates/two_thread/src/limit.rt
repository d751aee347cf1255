//! A list that is to have at most so many.

ghost use Rattle.std.specs.Prelude.{◌≡◌, ◌++◌, ◌∷◌, [], ◌+◌, MatchResult, length};
ghost use Rattle.two_thread.specs.Refusals.{IsOver};

use facts::WalkError;

/// Adds one more obligation; an error where there are `most` already.
pub fn push_one<T: Copy>(found: &mut Vec<T>, most: usize, item: T) -> Result<(), WalkError>
    ensures { MatchResult result (λ _. found.new.items ≡ found.old.items ++ item ∷ []) (IsOver most (length found.old.items + 1)) }
{
    if found.len() >= most {
        return Err(WalkError::TooMany);
    }
    found.push(item)?;
    Ok(())
}
