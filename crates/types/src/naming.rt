//! Names that kernels have.

ghost use Rattle.std.specs.Prelude.{◌≡◌, false, Ok};
ghost use Rattle.semantics.specs.Launch as launch;
ghost use Rattle.texts.specs.Surface.{Kernel};
ghost use Rattle.types.specs.Scope.{Devices, is_one_of, reserved_names, called_names, begins_underscored};
ghost use Rattle.types.specs.Elaboration.{elaborate};

/// A kernel that is well typed has not the name of a function that stands in kernels, as `barrier`, nor of one that a compiler calls on its
/// own, nor one that begins with `_`: calls in its body are none of itself.
pub fn well_typed_kernels_are_not_called()
    ensures { (d : Devices) (k : Kernel) (core : launch.Kernel) → elaborate d k ≡ Ok core → (is_one_of reserved_names k.name ≡ false) × ((is_one_of called_names k.name ≡ false) × (begins_underscored k.name ≡ false)) }
{}
