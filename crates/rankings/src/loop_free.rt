//! Laws of the steps of solo runs.

ghost use Rattle.std.specs.Prelude.{◌≡◌, ◌≤◌, ℕ, ℤ, List, true};
ghost use Rattle.semantics.specs.Setup.{Setup};
ghost use Rattle.semantics.specs.Solo.{after};
ghost use Rattle.loop_bounds.specs.Costs.{cost};
ghost use Rattle.rankings.specs.LoopFree.{is_loop_free};

/// Of a kernel without loops each item's steps, in each solo run, are at most the cost of its body, whatever is said of turns.
pub fn steps_are_within_the_cost()
    ensures { (s : Setup) (turns : ℕ → ℕ) → is_loop_free s.kernel.body ≡ true → (i : ℕ) (ws : List ℤ) → (after s i ws).steps ≤ cost turns s.kernel.body }
{}
