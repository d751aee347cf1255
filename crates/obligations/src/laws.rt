//! Laws of the definitions, each the contract of a function that does nothing.

ghost use Rattle.std.specs.Prelude.{◌≡◌, ℕ, Bool, true};
ghost use Rattle.std.specs.List.{All};
ghost use Rattle.semantics.specs.Launch.{Kernel, Launch, Fits};
ghost use Rattle.semantics.specs.Setup.{at_launch};
ghost use Rattle.semantics.specs.Conditions.{Conditions, Meets};
ghost use Rattle.semantics.specs.Safety.{IsPairSafeWithin};
ghost use Rattle.facts.specs.Launching.{are_sizes};
ghost use Rattle.arrivals.specs.Shown.{IsSound, IsShort};
ghost use Rattle.walk_trees.specs.Shown.{IsShownWithProducts};
ghost use Rattle.obligations.specs.Notes.{Notes};
ghost use Rattle.obligations.specs.Telling.{TellsOfItems};
ghost use Rattle.obligations.specs.Listing.{all_trees, accesses_of, ends_in};
ghost use Rattle.obligations.specs.Owning.{all_own_accesses, all_own_ends};
ghost use Rattle.obligations.specs.Shown.{obligations};
ghost use Rattle.loop_bounds.specs.Costs.{cost};
ghost use Rattle.obligations.specs.Limits.{turns_at, AreLimits};

use domain::Domain;

/// If all that is to be shown of a kernel is shown, whatever is said of its places and loops, the kernel is pair-safe at each launch that
/// meets the conditions, with any bound of its steps: loops, barriers, local arrays and exits included. So it is where loads are answered
/// by what lines of the conditions let buffers hold, and each store keeps that.
pub fn what_is_shown_by_places_is_pair_safe<D: Domain>()
    ensures { (k : Kernel) (c : Conditions) (n : Notes) (l : Launch) (bound : ℕ) → are_sizes k.sizes ≡ true → TellsOfItems n → All IsShownWithProducts (obligations D.Domain k c n) → Fits k l → Meets c l → IsSound (at_launch k l) → IsShort (at_launch k l) c.contents bound → IsPairSafeWithin c.contents (at_launch k l) bound }
{}

/// If the limits of rankings are limits, no item passes the cost of the kernel's body with as many turns as its loops have at most; no
/// bound of steps has to be known then.
pub fn what_is_shown_by_places_is_safe_within_its_cost<D: Domain>()
    ensures { (k : Kernel) (c : Conditions) (n : Notes) (l : Launch) → are_sizes k.sizes ≡ true → TellsOfItems n → AreLimits n → All IsShownWithProducts (obligations D.Domain k c n) → Fits k l → Meets c l → IsSound (at_launch k l) → IsPairSafeWithin c.contents (at_launch k l) (cost (turns_at n) k.body) }
{}

/// If what is said of places is of one item, all accesses and all ends of the trees of places, and what is known before them, have symbols
/// of the launch and of the first item alone.
pub fn trees_have_own_symbols<D: Domain>()
    ensures accesses { (k : Kernel) (c : Conditions) (n : Notes) → TellsOfItems n → all_own_accesses (accesses_of (all_trees D.Domain k c n)) ≡ true }
    ensures ends { (k : Kernel) (c : Conditions) (n : Notes) → TellsOfItems n → all_own_ends (ends_in (all_trees D.Domain k c n)) ≡ true }
{}
