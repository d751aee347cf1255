//! A path at hand, alone.

ghost use Rattle.std.specs.Prelude.{◌≡◌, ◌∷◌, [], true, IfOk, IfErr};
ghost use Rattle.facts.specs.Refusals.{IsMemory};
ghost use Rattle.obligations.specs.Owning.{all_own_accesses, all_own_ends};
ghost use Rattle.two_thread.specs.Paths.{accesses_seen, ends_seen};

use facts::WalkError;
use std::alloc::Global;
use two_thread::{Met, Tagged};

/// The claims, accesses and ends of one path, as those of a list with this path alone. The error is want of memory.
pub fn alone<D: Copy>(alloc: Global, path: Tagged<D>) -> Result<Met<D>, WalkError>
    requires accesses { all_own_accesses (accesses_seen path) ≡ true }
    requires ends { all_own_ends (ends_seen path) ≡ true }
    ensures paths { IfOk result (λ m. m.paths.items ≡ path ∷ []) }
    ensures memory { IfErr result IsMemory }
{
    let mut paths = Vec::new(alloc);
    paths.push(path)?;
    Met::of(alloc, paths)
}
