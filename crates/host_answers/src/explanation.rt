//! What an answer means, in words.

ghost use Rattle.host_answers.specs.Explaining.{IsExplained};
ghost use Rattle.host_answers.specs.Options.{devices_by, source_for};

use crate::given::source_of;
use crate::putting::put;
use std::alloc::Global;
use telling::{Texts, Verdict, explain_check};

/// Puts there, as far as there is room, what `explain` tells of a kernel under conditions with a certificate, and gives its length.
pub fn explained(
    alloc: Global,
    kernel: &[u8],
    conditions: &[u8],
    certificate: &[u8],
    options: u32,
    room: &mut [u8],
) -> u64
    ensures { IsExplained (source_for (devices_by options) kernel.now conditions.now) conditions.now certificate.now room.old room.new result }
{
    let texts = Texts {
        kernel: source_of(kernel, conditions, options),
        conditions,
        certificate,
    };
    match explain_check(alloc, texts, true) {
        Verdict::Done(text) => put(text.as_slice(), room),
        Verdict::Refused(text) => put(text.as_bytes(), room),
        Verdict::OutOfMemory => put(b"out of memory\n", room),
    }
}
