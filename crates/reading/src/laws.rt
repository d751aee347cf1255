//! What is read of bytes, by the grammar of kernels.

ghost use Rattle.std.specs.Prelude.{◌≡◌, ℕ, List, Ok, Err};
ghost use Rattle.semantics.specs.Core.{Site};
ghost use Rattle.texts.specs.Spelling.{IsTextTree};
ghost use Rattle.reading.specs.Kernels.{Fault, Kernel, Source, read};
ghost use Rattle.reading.specs.Texts.{IsTextOf};
ghost use Rattle.reading.specs.Limits.{HasLocalSizes};

/// The bytes are the text of the kernel that is read.
pub fn bytes_are_the_text_of_what_is_read()
    ensures { (s : Source) (k : Kernel) → read s ≡ Ok k → IsTextOf s k }
{}

/// Each kernel whose text the bytes are is read of them: they are the text of one kernel at most, and of none where they are refused.
pub fn a_kernel_is_read_of_its_text()
    ensures { (s : Source) (k : Kernel) → IsTextOf s k → read s ≡ Ok k }
{}

/// A kernel that is read has identifiers as names, numbers of their kinds, and statements numbered in the order of the source.
pub fn what_is_read_is_the_tree_of_a_text()
    ensures { (s : Source) (k : Kernel) → read s ≡ Ok k → IsTextTree k.tree }
{}

/// Each dimension of its work-group has 1 to 1,024 work-items.
pub fn local_sizes_are_within_limits()
    ensures { (s : Source) (k : Kernel) → read s ≡ Ok k → HasLocalSizes k.core }
{}
