//! A work-group run together, and lane code, against the result by rounds.

ghost use Rattle.std.specs.Prelude.{◌≡◌, ◌<◌, ◌≤◌, ◌+◌, ℕ, ℤ, List, [], None, true};
ghost use Rattle.semantics.specs.Word.{Word, Kind, Operator, Exact};
ghost use Rattle.semantics.specs.Core.{Statements};
ghost use Rattle.semantics.specs.Launch.{Fits};
ghost use Rattle.semantics.specs.Setup.{Setup, group_size, group_count};
ghost use Rattle.semantics.specs.Memory.{opening_memory};
ghost use Rattle.semantics.specs.Solo.{opening};
ghost use Rattle.semantics.specs.Conditions.{Content};
ghost use Rattle.semantics.specs.Contents.{IsKept};
ghost use Rattle.semantics.specs.Safety.{IsPairSafeWithin};
ghost use Rattle.semantics.specs.Rounds.{group_stores, group_log, log_of, rounds_end};
ghost use Rattle.reduction.specs.Budgets.{IsWithinBudget};
ghost use Rattle.lanes.specs.Reckoning.{two};
ghost use Rattle.lanes.specs.Bits.{bits, binary_bits, AreOfBits};
ghost use Rattle.lanes.specs.Order.{AllNumbered};
ghost use Rattle.lanes.specs.Together.{Group, Mask, all_together, stores_together};
ghost use Rattle.lanes.specs.Unchanged.{IsIdle, Same};
ghost use Rattle.lanes.specs.Machine.{stores_executed};
ghost use Rattle.lanes.specs.Plain.{IsPlain};
ghost use Rattle.lanes.specs.Lowering.{slots_of, lowered, AllWithin};

/// At a launch with exact sizes at which the kernel is pair-safe within a budget, in the solo runs that are answered by what lines of
/// conditions let buffers hold, and begins with memory that holds it, a work-group run together stores what its rounds store, in the same
/// order; so its log is that of the result by rounds. Without lines these are all solo runs, and any memory.
pub fn run_together_is_by_rounds()
    ensures stores { (cs : List Content) (s : Setup) → IsPlain s → (bound g low high : ℕ) → 0 < group_size s → g < group_count s → AllNumbered [] low high s.kernel.body → IsPairSafeWithin cs s bound → IsKept s cs (opening_memory s) → stores_together s bound g ≡ group_stores s bound g }
    ensures log { (cs : List Content) (s : Setup) → IsPlain s → (bound g low high a k : ℕ) → 0 < group_size s → g < group_count s → AllNumbered [] low high s.kernel.body → IsPairSafeWithin cs s bound → IsKept s cs (opening_memory s) → log_of (stores_together s bound g) (record { owner = 0; array = a; index = k }) None ≡ group_log s bound g a k }
{}

/// If sizes are exact, the rounds of a group come to an end and none of its items takes more steps than the budget in them, the group run
/// together stores what the rounds store.
pub fn ended_rounds_are_run_together()
    ensures { (s : Setup) → IsPlain s → (bound g low high : ℕ) → 0 < group_size s → AllNumbered [] low high s.kernel.body → IsWithinBudget s bound g → rounds_end s g (bound + 1) (bound + 1) (opening s) (opening_memory s) ≡ true → stores_together s bound g ≡ group_stores s bound g }
{}

/// Statements change nothing of a group where none of its items is on: they may be passed over.
pub fn idle_groups_stay()
    ensures { (s : Setup) (g turns : ℕ) (ss : Statements) (on : Mask) (w : Group) → IsIdle s g on w → Same s g w (all_together s g turns ss on w) }
{}

/// A kernel's lane code stores what its statements store together, at every launch.
pub fn lane_code_is_run_together()
    ensures { (s : Setup) (bound g : ℕ) → Fits s.kernel s.launch → AllWithin (slots_of s.kernel) s.kernel.body → stores_executed s bound g (lowered s.kernel) ≡ stores_together s bound g }
{}

/// At a launch with exact sizes at which the kernel is pair-safe so within a budget, lane code stores what the rounds store.
pub fn lane_code_is_by_rounds()
    ensures { (cs : List Content) (s : Setup) → IsPlain s → (bound g low high : ℕ) → 0 < group_size s → g < group_count s → Fits s.kernel s.launch → AllNumbered [] low high s.kernel.body → AllWithin (slots_of s.kernel) s.kernel.body → IsPairSafeWithin cs s bound → IsKept s cs (opening_memory s) → stores_executed s bound g (lowered s.kernel) ≡ group_stores s bound g }
{}

/// An operation on two words is one on their 32 bits, whatever their kinds; one on sizes is so of words that are sizes.
pub fn words_are_bits()
    ensures { (op : Operator) (k : Kind) (a b : Word) → AreOfBits k a b → bits (two op k a b) ≡ binary_bits op k (bits a) (bits b) }
{}
