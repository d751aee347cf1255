//! Laws of solo runs, from what is owed of leaves and fronts. They are of those whose loads are answered by numbers that lines of the
//! conditions let buffers hold.

ghost use Rattle.std.specs.Prelude.{ℕ, ℤ, List, ◌<◌, ◌≡◌, ◌≢◌};
ghost use Rattle.semantics.specs.Setup.{Setup, group_of, item_count};
ghost use Rattle.semantics.specs.Solo.{Access, Touched};
ghost use Rattle.semantics.specs.Contents.{IsHonest};
ghost use Rattle.semantics.specs.Safety.{Clash, WaitAlikeWithin, EndsLastWithin, IsPairSafeWithin};
ghost use Rattle.arrivals.specs.Shown.{Notes, Shown, IsSound, IsShort};
ghost use Rattle.arrivals.specs.Races.{AccessesShown};
ghost use Rattle.arrivals.specs.Faults.{FaultsShown, StoresShown};

/// If everything that is owed of leaves is shown, items of one group wait with equal lists left, and one that has ended has arrived at
/// least as often as the others.
pub fn arrivals_agree()
    ensures waits { (s : Setup) (k : Notes) → IsSound s → Shown s k → (i j : ℕ) → i < item_count s → j < item_count s → i ≢ j → group_of s i ≡ group_of s j → WaitAlikeWithin k.contents s i j }
    ensures ends { (s : Setup) (k : Notes) → IsSound s → Shown s k → (i j : ℕ) → i < item_count s → j < item_count s → i ≢ j → group_of s i ≡ group_of s j → EndsLastWithin k.contents s i j }
{}

/// If what is owed of accesses is shown too, no accesses of two items clash: in a space that every barrier fences the accesses of one visit
/// of an anchor are enough.
pub fn accesses_are_apart()
    ensures { (s : Setup) (k : Notes) → IsSound s → Shown s k → AccessesShown s k → (i j : ℕ) (ws vs : List ℤ) (a b : Access) → i < item_count s → j < item_count s → i ≢ j → IsHonest s k.contents i ws → IsHonest s k.contents j vs → Touched s i ws a → Touched s j vs b → Clash s a b → ⊥ }
{}

/// If no statement faults at a front, no solo run is stopped; if what is stored at each is a number that its buffer may hold, each store
/// keeps what buffers hold. With a bound of the steps, all that was shown is pair-safety then.
pub fn shown_is_pair_safe()
    ensures { (s : Setup) (k : Notes) (bound : ℕ) → IsSound s → Shown s k → AccessesShown s k → FaultsShown s k → StoresShown s k → IsShort s k.contents bound → IsPairSafeWithin k.contents s bound }
{}
