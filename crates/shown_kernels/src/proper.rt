//! What is read is proper.

ghost use Rattle.std.specs.Prelude.{◌≡◌, true, Ok};
ghost use Rattle.texts.specs.Surface as surface;
ghost use Rattle.texts.specs.Spelling.{SpellsStatements};
ghost use Rattle.types.specs.Scope.{Devices};
ghost use Rattle.types.specs.Elaboration.{elaborate};
ghost use Rattle.semantics.specs.Launch as launch;
ghost use Rattle.kernel_reading.specs.Kernels.{Kernel, Source, read};
ghost use Rattle.work_item.specs.Proper.{are_proper, is_proper};

/// A tree's numbers are of their kinds, so its core's statements are proper, whatever devices it is typed for.
pub fn what_is_elaborated_is_proper()
    ensures { (d : Devices) (tree : surface.Kernel) (core : launch.Kernel) → SpellsStatements tree.body → elaborate d tree ≡ Ok core → are_proper core.body ≡ true }
{}

/// Each kernel that is read of a text is proper.
pub fn what_is_read_is_proper()
    ensures { (s : Source) (k : Kernel) → read s ≡ Ok k → is_proper k.core ≡ true }
{}
