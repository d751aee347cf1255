//! What is read of bytes.

ghost use Rattle.std.specs.Prelude.{◌≡◌, Ok};
ghost use Rattle.reading.specs.Limits.{HasLocalSizes};
ghost use Rattle.kernel_reading.specs.Kernels.{Kernel, Source, read};
ghost use Rattle.kernel_reading.specs.Texts.{IsTextOf};

/// The bytes are the text of the kernel that is read.
pub fn bytes_are_the_text_of_what_is_read()
    ensures { (s : Source) (k : Kernel) → read s ≡ Ok k → IsTextOf s k }
{}

/// Each dimension of the work-group of what is read has 1 to 1,024 work-items.
pub fn local_sizes_are_within_limits()
    ensures { (s : Source) (k : Kernel) → read s ≡ Ok k → HasLocalSizes k.core }
{}
