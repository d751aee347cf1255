//! Laws of ranked loops. Where they rest on what is shown of trees, they are of solo runs whose loads are answered by numbers that lines of
//! the conditions let buffers hold.

ghost use Rattle.std.specs.Prelude.{◌≡◌, ◌<◌, ◌≤◌, ℕ, ℤ, List, false};
ghost use Rattle.semantics.specs.Setup.{Setup, item_count};
ghost use Rattle.semantics.specs.Solo.{after};
ghost use Rattle.semantics.specs.Contents.{IsHonest};
ghost use Rattle.semantics.specs.Safety.{IsPairSafeWithin};
ghost use Rattle.arrivals.specs.Points.{AreFormed};
ghost use Rattle.arrivals.specs.Races.{AccessesShown};
ghost use Rattle.arrivals.specs.Faults.{FaultsShown, StoresShown};
ghost use Rattle.arrivals.specs.Shown.{Notes, Shown, IsSound, IsShort};
ghost use Rattle.loop_bounds.specs.declared.bound.LoopBound.{LoopBound};
ghost use Rattle.loop_bounds.specs.Costs.{cost};
ghost use Rattle.loop_bounds.specs.Turns.{turns_of};
ghost use Rattle.rankings.specs.Limits.{Limit, IsLimit, turns_within, limits, AreFitting};
ghost use Rattle.rankings.specs.Ranked.{RanksShown};
ghost use Rattle.rankings.specs.Within.{was_stopped, AreWithin, AlwaysWithin};

use arrivals::laws::shown_is_pair_safe;

/// If what is owed of ranks is shown, no loop has turned more often than its limit says, at any moment of a solo run that was not stopped.
pub fn turns_are_within_bounds()
    ensures { (s : Setup) (k : Notes) (limit : ℕ → Limit) → IsSound s → Shown s k → RanksShown s k limit → (i : ℕ) (ws : List ℤ) → i < item_count s → IsHonest s k.contents i ws → was_stopped (after s i ws).status ≡ false → AreWithin (λ n. turns_within (limit n)) (after s i ws).left }
{}

/// If what is owed of ranks is shown, no solo run has more steps than the kernel's body costs with as many turns as the limits say.
pub fn ranked_runs_are_short()
    ensures { (s : Setup) (k : Notes) (limit : ℕ → Limit) → IsSound s → Shown s k → RanksShown s k limit → IsShort s k.contents (cost (λ n. turns_within (limit n)) s.kernel.body) }
{}

/// Of a solo run in which, each time that a loop is entered, its test is true at most so often as is said of it: it has no more steps than
/// the kernel's body costs with that many turns. Nothing else need be shown of the kernel.
pub fn turns_bound_steps()
    ensures { (s : Setup) (turns : ℕ → ℕ) → AreFormed s.kernel.body → (i : ℕ) (ws : List ℤ) → AlwaysWithin turns s i ws → (after s i ws).steps ≤ cost turns s.kernel.body }
{}

/// Limits may be those of bounds that are listed: the cost is then that with the turns of the bounds. They are limits where their numbers
/// are of 64 bits.
pub fn listed_bounds_are_enough()
    ensures short { (s : Setup) (k : Notes) (bounds : List LoopBound) → IsSound s → Shown s k → RanksShown s k (limits bounds) → IsShort s k.contents (cost (turns_of bounds) s.kernel.body) }
    ensures fitting { (bounds : List LoopBound) → AreFitting bounds → (n : ℕ) → IsLimit (limits bounds n) }
{}

/// If what is owed of leaves, accesses, faults and stores is shown too, a ranked kernel is pair-safe within its cost.
pub fn ranked_kernels_are_pair_safe()
    ensures { (s : Setup) (k : Notes) (bounds : List LoopBound) → IsSound s → Shown s k → AccessesShown s k → FaultsShown s k → StoresShown s k → RanksShown s k (limits bounds) → IsPairSafeWithin k.contents s (cost (turns_of bounds) s.kernel.body) }
{
    shown_is_pair_safe();
}
