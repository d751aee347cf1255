//! What sound cores keep, and what it means that no statement is found which may read a variable that is not set.

ghost use Rattle.std.specs.Prelude.{◌≡◌, ℕ, ◌+◌, ◌<◌, ◌≤◌, true, false, [], length, Some, None};
ghost use Rattle.semantics.specs.Core.{Statements};
ghost use Rattle.semantics.specs.Launch.{Kernel};
ghost use Rattle.semantics.specs.Setup.{Setup};
ghost use Rattle.arrivals.specs.Loops.{unmet};
ghost use Rattle.arrivals.specs.Points.{AreFormed, IsNumbered, points};
ghost use Rattle.arrivals.specs.Shown.{IsSound};
ghost use Rattle.lanes.specs.Lowering.{IsOrderly};
ghost use Rattle.lanes.specs.Order.{AllNumbered};
ghost use Rattle.work_item.specs.Proper.{is_proper};
ghost use Rattle.sound_cores.specs.Declarations.{declared_by, AllWithin};
ghost use Rattle.sound_cores.specs.Paths.{AllGo, Unset};
ghost use Rattle.sound_cores.specs.Sound.{is_sound};
ghost use Rattle.sound_cores.specs.Told.{AreTold};
ghost use Rattle.sound_cores.specs.Unset.{first_unset};

/// Statements that are told apart are formed, and their numbers tell their points apart.
pub fn what_is_told_apart_is_formed()
    ensures formed { (ss : Statements) → AreTold ss → AreFormed ss }
    ensures numbered { (ss : Statements) → AreTold ss → IsNumbered (points ss []) }
{}

/// A sound core is proper.
pub fn what_is_sound_is_proper()
    ensures { (k : Kernel) → is_sound k ≡ true → is_proper k ≡ true }
{}

/// The numbers of a sound core tell its statements apart: none stands twice, exits are of the loop around them, and updates only assign.
pub fn what_is_sound_is_told_apart()
    ensures { (k : Kernel) → is_sound k ≡ true → AreTold k.body }
{}

/// The statements of a sound core are numbered in rising order.
pub fn what_is_sound_rises()
    ensures { (k : Kernel) → is_sound k ≡ true → (low : ℕ) × (high : ℕ) × AllNumbered [] low high k.body }
{}

/// A sound core names only what it declares.
pub fn what_is_sound_is_within()
    ensures { (k : Kernel) → is_sound k ≡ true → AllWithin (declared_by k) k.body }
{}

/// A sound core is formed, and its numbers tell its points apart.
pub fn what_is_sound_is_formed()
    ensures { (k : Kernel) → is_sound k ≡ true → AreFormed k.body × IsNumbered (points k.body []) }
{}

/// A setup of a sound core is sound wherever each of the core's loops with a barrier meets one on each way through.
pub fn setups_of_sound_cores_are_sound_where_barriers_are_met()
    ensures { (k : Kernel) (s : Setup) → is_sound k ≡ true → s.kernel ≡ k → unmet k.body ≡ None → IsSound s }
{}

/// A sound core is orderly: it has lane code that stores what its work-groups do.
pub fn what_is_sound_is_orderly()
    ensures { (k : Kernel) → is_sound k ≡ true → IsOrderly k }
{}

/// Each path that reads a private variable unset is found: the number that is found is the least of a statement at which one does so.
pub fn each_path_that_reads_unset_is_found()
    ensures { (k : Kernel) (i m : ℕ) → i < length k.variables → AllGo (length k.arguments + i) false k.body (Unset m)
        → (n : ℕ) × (first_unset k ≡ Some n) × (n ≤ m) }
{}

/// Where no statement is found that may read a private variable which is not set, no path through the core reads one unset.
pub fn no_path_reads_what_is_not_set()
    ensures { (k : Kernel) → first_unset k ≡ None → (i : ℕ) → i < length k.variables
        → (n : ℕ) → AllGo (length k.arguments + i) false k.body (Unset n) → ⊥ }
{}

/// A statement that is found reads a private variable unset on some path: no core is refused without one.
pub fn some_path_reads_what_is_not_set()
    ensures { (k : Kernel) (n : ℕ) → first_unset k ≡ Some n
        → (i : ℕ) × (i < length k.variables) × AllGo (length k.arguments + i) false k.body (Unset n) }
{}
