//! Laws of the definitions of bounds. Each is the contract of a function with an empty body.

ghost use Rattle.std.specs.Prelude.{◌≡◌, ◌≤◌, ◌∷◌, ℤ, List, length, true};
ghost use Rattle.linear.specs.Exact.{fits_i64};
ghost use Rattle.loop_bounds.specs.declared.bound.Bound.{Bound};
ghost use Rattle.loop_bounds.specs.Falling.{most, Opens, Runs};
ghost use Rattle.loop_bounds.specs.Turns.{turns};

/// If a loop's form opens, and in each turn falls or grows, as its bound says, the loop's test is true no more often than `turns` says.
pub fn turns_are_enough()
    ensures { (b : Bound) (x : ℤ) (xs : List ℤ) → fits_i64 (most b) ≡ true → Opens b x → Runs b x xs → length (x ∷ xs) ≤ turns b }
{}
