//! Kernels of texts, with what they keep.

ghost use Rattle.std.specs.Prelude.{◌≡◌, true, IfOk};
ghost use Rattle.core_code.specs.View.{kernel as core_seen};
ghost use Rattle.kernel_reading.specs.Answers.{Gives};
ghost use Rattle.kernel_reading.specs.Kernels.{read};
ghost use Rattle.kernel_reading.specs.Sources.{source};
ghost use Rattle.work_item.specs.Proper.{is_proper};

use kernel_reading::{KernelError, Source, read_source};
use std::alloc::Global;
use typed_kernels::Typed;

/// The kernel of a text, typed, or its first fault with its place. Its core is proper.
#[tactic(auto, using(crate::proofs::ProperReads::answers_proper))]
pub fn read_proper_kernel(alloc: Global, text: Source<'_>) -> Result<Typed, KernelError>
    ensures read { Gives result (read (source text.entry)) }
    ensures proper { IfOk result (λ t. is_proper (core_seen t.1) ≡ true) }
{
    read_source(alloc, text)
}
