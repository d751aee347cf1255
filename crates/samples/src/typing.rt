//! What typing says of small trees, by computation.

ghost use Rattle.std.specs.Prelude.{◌≡◌, [], ◌∷◌, pos, codes, Ok};
ghost use Rattle.semantics.specs.Word.{Int, Uint, Size, Add, Multiply, Divide, Less};
ghost use Rattle.semantics.specs.Word as word;
ghost use Rattle.semantics.specs.Core as core;
ghost use Rattle.texts.specs.Surface.{Arithmetic, Comparison, LeftShift, RightShift, Conditional};
ghost use Rattle.types.specs.TypeFaults.{UnknownName, NameTwice, WrongType, WriteToConst, LoadInCompoundIndex, ArrayInBlock, refused};
ghost use Rattle.types.specs.Scope.{Bits32, Any};
ghost use Rattle.types.specs.Typing.{typed, type_of};
ghost use Rattle.types.specs.Elaboration.{elaborate};
ghost use Rattle.samples.specs.Terms.{at, buffer};
ghost use Rattle.samples.specs.Surface.{mixed, siblings, own_initialiser, shadowed, constant, loaded_index, inner_array, named, renamed, hidden, name, number, variables, global_id, id_beside, least, declared_by_id, arguments_of, body_of, variables_of};

/// `b[n] += a[m] * n` is `b[n] = b[n] + a[m] * n`: operators bring operands to `uint`, the store converts to `int`. Sibling blocks
/// declare one name twice, each a slot of its own.
pub fn kernels_are_elaborated()
    ensures mixed { body_of (elaborate Bits32 mixed) ≡ core.one (core.Store 1 (buffer 1) (at 1) (core.Variable 0) (core.Convert Int (at 1) (core.Binary Add Uint (at 3) (core.Load (buffer 1) (at 1) (core.Variable 0)) (core.Binary Multiply Uint (at 5) (core.Load (buffer 0) (at 4) (core.Variable 1)) (core.Variable 0))))) core.none }
    ensures siblings { variables_of (elaborate Bits32 siblings) ≡ Uint ∷ Int ∷ [] }
    ensures hidden { arguments_of (elaborate Bits32 hidden) ≡ Uint ∷ [] }
{}

/// A name in its own initialiser, a visible name declared again, a store to `const`, a load in the index of a compound assignment, and a
/// local array in a block are no kernels. Nor is one with the name of a function that it may call, or that a compiler may call, or with a
/// name that is the compiler's.
pub fn others_are_refused()
    ensures own_initialiser { elaborate Bits32 own_initialiser ≡ refused UnknownName (at 4) }
    ensures shadowed { elaborate Bits32 shadowed ≡ refused NameTwice (at 2) }
    ensures constant { elaborate Bits32 constant ≡ refused WriteToConst (at 1) }
    ensures loaded_index { elaborate Bits32 loaded_index ≡ refused LoadInCompoundIndex (at 4) }
    ensures inner_array { elaborate Bits32 inner_array ≡ refused ArrayInBlock (at 6) }
    ensures barrier { elaborate Bits32 (named (codes "barrier")) ≡ refused NameTwice (at 7) }
    ensures called { elaborate Bits32 (named (codes "memset")) ≡ refused NameTwice (at 7) }
    ensures compilers { elaborate Bits32 (named (codes "_k")) ≡ refused NameTwice (at 7) }
    ensures renamed { elaborate Bits32 renamed ≡ refused NameTwice (at 2) }
{}

/// Read for any devices, an id is a size. An operator converts an `int` beside it to a size, and takes a `uint` as it is; a shift of it
/// is a product or a quotient; `?:` brings its other arm to a size; `min` does not take it beside a `uint`; and a `uint` that begins as an
/// id converts it.
pub fn ids_are_sizes()
    ensures added { type_of Any variables (id_beside (Arithmetic Add) (name (codes "i"))) ≡ Ok (typed Size (core.Binary Add Size (at 5) (core.Id Size core.GlobalId 0) (core.Convert Size (at 5) (core.Variable 0)))) }
    ensures divided { type_of Any variables (id_beside (Arithmetic Divide) (name (codes "i"))) ≡ Ok (typed Size (core.Binary Divide Size (at 5) (core.Id Size core.GlobalId 0) (core.Convert Size (at 5) (core.Variable 0)))) }
    ensures compared { type_of Any variables (id_beside (Comparison Less) (name (codes "i"))) ≡ Ok (typed Int (core.Compare Less Size (core.Id Size core.GlobalId 0) (core.Convert Size (at 5) (core.Variable 0)))) }
    ensures beside_uint { type_of Any variables (id_beside (Arithmetic Add) (name (codes "n"))) ≡ Ok (typed Size (core.Binary Add Size (at 5) (core.Id Size core.GlobalId 0) (core.Variable 1))) }
    ensures shifted_left { type_of Any variables (id_beside LeftShift (number 3)) ≡ Ok (typed Size (core.Binary Multiply Size (at 5) (core.Id Size core.GlobalId 0) (core.Literal Uint (pos 8)))) }
    ensures shifted_right { type_of Any variables (id_beside RightShift (number 3)) ≡ Ok (typed Size (core.Binary Divide Size (at 5) (core.Id Size core.GlobalId 0) (core.Literal Uint (pos 8)))) }
    ensures chosen { type_of Any variables (Conditional (at 6) (name (codes "n")) global_id (name (codes "i"))) ≡ Ok (typed Size (core.Select (core.Variable 1) (core.Id Size core.GlobalId 0) (core.Convert Size (at 6) (core.Variable 0)))) }
    ensures least { type_of Any variables least ≡ refused WrongType (at 9) }
    ensures declared { body_of (elaborate Any declared_by_id) ≡ core.one (core.Set 1 0 (core.Convert Uint (at 2) (core.Id Size core.GlobalId 0))) core.none }
{}

/// Read for the devices with 32 address bits, an id is a `uint`: an operator takes an `int` beside it as it is, and `min` takes it beside a
/// `uint`.
pub fn narrow_ids_are_uints()
    ensures added { type_of Bits32 variables (id_beside (Arithmetic Add) (name (codes "i"))) ≡ Ok (typed Uint (core.Binary Add Uint (at 5) (core.Id Uint core.GlobalId 0) (core.Variable 0))) }
    ensures shifted { type_of Bits32 variables (id_beside LeftShift (number 3)) ≡ Ok (typed Uint (core.Unary (word.ShiftLeft 3) Uint (at 5) (core.Id Uint core.GlobalId 0))) }
    ensures least { type_of Bits32 variables least ≡ Ok (typed Uint (core.Minimum (core.Id Uint core.GlobalId 0) (core.Variable 1))) }
{}
