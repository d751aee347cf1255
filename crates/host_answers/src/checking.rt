//! Whether a kernel is accepted.

ghost use Rattle.std.specs.Prelude.{◌≡◌, ◌≢◌};
ghost use Rattle.host_answers.specs.Options.{devices_by};
ghost use Rattle.host_answers.specs.Answers.{AreSafe, IsTrueRefusal};

use crate::answer::{Answer, answer_of};
use crate::given::source_of;
use cert_check::check_as;
use kernel_reading::laws::bytes_are_the_text_of_what_is_read;
use launch_text::laws::what_is_read_of_conditions_is_their_text;
use std::alloc::Global;

/// Whether a certificate shows a kernel safe under conditions: number 0, or the refusal's.
pub fn checked(
    alloc: Global,
    kernel: &[u8],
    conditions: &[u8],
    certificate: &[u8],
    options: u32,
) -> Answer
    ensures accepted { result.number ≡ 0 → AreSafe (devices_by options) kernel.now conditions.now }
    ensures refused { result.number ≢ 0 → IsTrueRefusal (devices_by options) kernel.now conditions.now certificate.now result }
{
    bytes_are_the_text_of_what_is_read();
    what_is_read_of_conditions_is_their_text();
    let source = source_of(kernel, conditions, options);
    match check_as(alloc, source, conditions, certificate, true) {
        Ok(accepted) => {
            drop(accepted);
            Answer {
                number: 0,
                column: 0,
                place: 0,
            }
        }
        Err(error) => answer_of(&error),
    }
}
