//! What is read is numbered as in the source, its numbers tell its statements apart, and it names what it declares.

ghost use Rattle.std.specs.Prelude.{◌≡◌, ℕ, ◌+◌, [], Ok, None};
ghost use Rattle.semantics.specs.Launch.{Kernel as Core};
ghost use Rattle.semantics.specs.Setup.{Setup};
ghost use Rattle.arrivals.specs.Loops.{unmet};
ghost use Rattle.arrivals.specs.Points.{AreFormed, IsNumbered, points};
ghost use Rattle.arrivals.specs.Shown.{IsSound};
ghost use Rattle.texts.specs.Surface.{Kernel as Tree};
ghost use Rattle.texts.specs.KernelLimits.{statements_of};
ghost use Rattle.texts.specs.Spelling.{AreNumbered};
ghost use Rattle.types.specs.Scope.{Devices};
ghost use Rattle.types.specs.Elaboration.{elaborate};
ghost use Rattle.kernel_reading.specs.Kernels.{Kernel, Source, read};
ghost use Rattle.sound_cores.specs.Declarations.{declared_by, AllWithin};
ghost use Rattle.lanes.specs.Lowering.{IsOrderly};
ghost use Rattle.lanes.specs.Order.{AllNumbered};
ghost use Rattle.sound_cores.specs.Told.{AreTold};

/// A tree's statements are numbered from 1 in the order of the source, so its core's numbers lie as in the source, and tell its
/// statements apart.
pub fn what_is_elaborated_rises()
    ensures rises { (d : Devices) (t : Tree) (k : Core) → AreNumbered 1 t.body → elaborate d t ≡ Ok k → AllNumbered [] 1 (1 + statements_of t.body) k.body }
    ensures told { (d : Devices) (t : Tree) (k : Core) → AreNumbered 1 t.body → elaborate d t ≡ Ok k → AreTold k.body }
{}

/// The statements of each kernel that is read are numbered in rising order, and their numbers tell them apart.
pub fn what_is_read_rises()
    ensures rises { (text : Source) (k : Kernel) → read text ≡ Ok k → (low : ℕ) × (high : ℕ) × AllNumbered [] low high k.core.body }
    ensures told { (text : Source) (k : Kernel) → read text ≡ Ok k → AreTold k.core.body }
{}

/// Each kernel that is read of a text is formed, and its numbers tell its points apart.
pub fn what_is_read_is_formed()
    ensures { (text : Source) (k : Kernel) → read text ≡ Ok k → AreFormed k.core.body × IsNumbered (points k.core.body []) }
{}

/// A kernel that is read is sound wherever each of its loops with a barrier meets one on each way through.
pub fn what_is_read_is_sound_where_barriers_are_met()
    ensures { (text : Source) (k : Kernel) (s : Setup) → read text ≡ Ok k → s.kernel ≡ k.core → unmet k.core.body ≡ None → IsSound s }
{}

/// A core's statements name slots, buffers and local arrays that it declares.
pub fn what_is_elaborated_is_within()
    ensures { (d : Devices) (t : Tree) (k : Core) → elaborate d t ≡ Ok k → AllWithin (declared_by k) k.body }
{}

/// A kernel that is read names only what it declares.
pub fn what_is_read_is_within()
    ensures { (text : Source) (k : Kernel) → read text ≡ Ok k → AllWithin (declared_by k.core) k.core.body }
{}

/// A kernel that is read is orderly: it has lane code that stores what its work-groups do.
pub fn what_is_read_is_orderly()
    ensures { (text : Source) (k : Kernel) → read text ≡ Ok k → IsOrderly k.core }
{}
