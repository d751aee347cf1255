//! Laws of events, runs, memory and results.

ghost use Rattle.std.specs.Prelude.{◌≡◌, ◌≢◌, ◌<◌, ◌⊎◌, ℕ, ℤ, List, ◌++◌, true, Some, None};
ghost use Rattle.std.specs.Bool.{Decides};
ghost use Rattle.semantics.specs.Word.{Fault, in_kind};
ghost use Rattle.semantics.specs.Core.{Site};
ghost use Rattle.semantics.specs.Launch.{Fits};
ghost use Rattle.semantics.specs.Setup.{Setup, item_count, group_size, group_count, member};
ghost use Rattle.semantics.specs.Memory.{Cell, Memory, kind_at};
ghost use Rattle.semantics.specs.Item.{Running, Waiting, Ended, Stopped, trail};
ghost use Rattle.semantics.specs.Solo.{Access};
ghost use Rattle.semantics.specs.World.{World, Event, Step, Release, happens, run, then_run, opening_world};
ghost use Rattle.semantics.specs.Safety.{Clash, Divergent};
ghost use Rattle.semantics.specs.Tests.{clashes, diverges};
ghost use Rattle.semantics.specs.Rounds.{applied, log_of, logged};

/// A run of two lists of events is the one after the other; so a prefix of a run is a run.
pub fn runs_go_on()
    ensures joined { (s : Setup) (es fs : List Event) (w : World) → run s (es ++ fs) w ≡ then_run (run s es w) (run s fs) }
    ensures prefix { (s : Setup) (es fs : List Event) (w v : World) → run s (es ++ fs) w ≡ Some v → (u : World) × (run s es w ≡ Some u) × (run s fs u ≡ Some v) }
{}

/// A step is possible exactly of an item that runs.
pub fn running_items_step()
    ensures possible { (s : Setup) (w : World) (i : ℕ) → i < item_count s → (w.items i).status ≡ Running → (v : World) × (happens s w (Step i) ≡ Some v) }
    ensures only { (s : Setup) (w v : World) (i : ℕ) → happens s w (Step i) ≡ Some v → (w.items i).status ≡ Running }
{}

/// A group goes past its barrier exactly where each of its items waits, with what is left of the first one: at one barrier, in the same
/// iterations of the same loops (OpenCL 1.2, 6.12.8).
pub fn groups_are_released_together()
    ensures together { (s : Setup) (w v : World) (g k : ℕ) → happens s w (Release g) ≡ Some v → k < group_size s → ((w.items (member s g k)).status ≡ Waiting) × (trail (w.items (member s g k)).left ≡ trail (w.items (member s g 0)).left) }
    ensures possible { (s : Setup) (w : World) (g : ℕ) → g < group_count s → ((k : ℕ) → k < group_size s → ((w.items (member s g k)).status ≡ Waiting) × (trail (w.items (member s g k)).left ≡ trail (w.items (member s g 0)).left)) → (v : World) × (happens s w (Release g) ≡ Some v) }
{}

/// A step changes no other item.
pub fn steps_change_one_item()
    ensures { (s : Setup) (w v : World) (i j : ℕ) → j ≢ i → happens s w (Step i) ≡ Some v → v.items j ≡ w.items j }
{}

/// An item that has ended, or that a fault has stopped, stays as it is in each event.
pub fn the_ended_stay()
    ensures { (s : Setup) (w v : World) (e : Event) (i : ℕ) → happens s w e ≡ Some v → ((w.items i).status ≡ Ended) ⊎ ((f : Fault) × (site : Site) × ((w.items i).status ≡ Stopped f site)) → v.items i ≡ w.items i }
{}

/// Along every run the numbers in memory stay in their array's kind.
pub fn memory_keeps_kinds()
    ensures { (s : Setup) (es : List Event) (w : World) (c : Cell) → Fits s.kernel s.launch → run s es (opening_world s) ≡ Some w → in_kind (kind_at s c) (w.memory c) ≡ true }
{}

/// The tests decide data races and barrier divergence.
pub fn tests_decide()
    ensures clash { (s : Setup) (a b : Access) → Decides (clashes s a b) (Clash s a b) }
    ensures divergence { (s : Setup) (w : World) (i j : ℕ) → Decides (diverges s w i j) (Divergent s w i j) }
{}

/// To apply stores in order is to apply their log.
pub fn logs_are_applied()
    ensures { (xs : List (Cell × ℤ)) (m : Memory) (c : Cell) → applied xs m c ≡ logged (log_of xs c None) (m c) }
{}
