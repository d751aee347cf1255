//! The texts that the program checks where it is given no word: a fill of a buffer, one item an element.

ghost use Rattle.std.specs.Prelude.{◌≡◌};
ghost use Rattle.kernel_reading.specs.Kernels as kernels;
ghost use Rattle.kernel_reading.specs.Kernels.{text_for};
ghost use Rattle.kernel_reading.specs.Sources.{source};
ghost use Rattle.program.specs.First.{first_kernel, first_conditions, first_certificate};

use kernel_reading::narrow;
use telling::Texts;

const KERNEL: &[u8] =
    b"__kernel __attribute__((reqd_work_group_size(64, 1, 1))) void k(__global uint *a) {\n\
       a[get_global_id(0)] = 1u;\n}\n";

const CONDITIONS: &[u8] = b"conditions 1\ngroups 1..1024 1..1 1..1\nlength a >= 65536\nbudget 1\n";

const CERTIFICATE: &[u8] = b"certificate 1\n\
    ob 3 show\ng 34\ng 39\ng 40\ns 64 1 1 2 1 3\n\
    ob 4 show\ng 33\ng 39\ng 41\ns 64 1 1 2 1 3\n\
    ob 5 show\ng 10\ng 21\ng 33\ng 34\ns 1 1 1 2 64 3 1 4\n\
    ob 6 show\ng 9\ng 22\ng 33\ng 35\ns 1 1 1 2 64 3 1 4\n\
    end\n";

/// The texts of the kernel, the conditions and the certificate that the program checks where it is given no word.
pub fn first_texts() -> Texts<'static>
    ensures kernel { source result.kernel ≡ text_for kernels.narrow first_kernel }
    ensures conditions { result.conditions.now ≡ first_conditions }
    ensures certificate { result.certificate.now ≡ first_certificate }
{
    Texts {
        kernel: narrow(KERNEL),
        conditions: CONDITIONS,
        certificate: CERTIFICATE,
    }
}
