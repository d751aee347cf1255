//! What bytes say, by computation: from the text of a small kernel to its elaborated form.

ghost use Rattle.std.specs.Prelude.{◌≡◌, pos, Ok, []};
ghost use Rattle.semantics.specs.Conditions.{Conditions};
ghost use Rattle.types.specs.Scope.{Bits32};
ghost use Rattle.reading.specs.Kernels.{read, text_for};
ghost use Rattle.reading.specs.Texts.{IsTextOf};
ghost use Rattle.plain_kernels.specs.Kernels.{IsPlain};
ghost use Rattle.samples.specs.Stores.{stores, kernel_of};

use reading::laws::bytes_are_the_text_of_what_is_read;

/// The bytes of five stores are the text of a kernel, which is plain wherever there are at most 1,024 groups and no line says what
/// a buffer holds: a store to the element of the
/// global id, one with a factor, one with a number more, one with both, and an `int` number.
pub fn stores_are_plain()
    ensures text { IsTextOf (text_for Bits32 stores) (kernel_of (read (text_for Bits32 stores))) }
    ensures plain { (c : Conditions) → c.groups.x.high ≡ pos 1024 → c.contents ≡ [] → IsPlain (kernel_of (read (text_for Bits32 stores))).core c }
{
    bytes_are_the_text_of_what_is_read();
}
