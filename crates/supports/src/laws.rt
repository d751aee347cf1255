//! What it is to be the greatest set that stands.

ghost use Rattle.std.specs.Prelude.{◌≡◌, ◌↔◌, ℕ, true};
ghost use Rattle.supports.specs.Candidates.{Supports, Candidates, Stands, IsInGreatest};

/// A set that has just the members of all sets that stand is one that stands.
pub fn the_greatest_stands()
    ensures { (supports : Supports) (set : Candidates) → ((c : ℕ) → (set c ≡ true) ↔ IsInGreatest supports c) → Stands supports set }
{}
