//! The options of a call.

ghost use Rattle.std.specs.Prelude.{◌≡◌};
ghost use Rattle.types.specs.Names.{devices as devices_seen};
ghost use Rattle.kernel_reading.specs.Sources.{source};
ghost use Rattle.host_answers.specs.Options as rules;

use kernel_reading::{Language, Reading, Source};
use types::devices::Devices;

/// The kernel is read for devices with 32 address bits, as by `--devices 32`.
const BITS32: u32 = 1;
/// The host answers for what the `values` lines say of buffers.
const HELD: u32 = 2;

fn devices_of(options: u32) -> Devices
    ensures { devices_seen result ≡ rules.devices_by options }
{
    if options & BITS32 != 0 {
        Devices::Bits32
    } else {
        Devices::Any
    }
}

/// Whether the host answers for what the `values` lines say.
pub fn is_held(options: u32) -> bool
    ensures { result ≡ rules.is_held options }
{
    options & HELD != 0
}

/// The text of a kernel of OpenCL C, with that of its conditions.
pub fn source_of<'a>(kernel: &'a [u8], conditions: &'a [u8], options: u32) -> Source<'a>
    ensures { source result ≡ rules.source_for (rules.devices_by options) kernel.now conditions.now }
{
    Source {
        reading: Reading {
            language: Language::OpenCl,
            devices: devices_of(options),
        },
        conditions,
        bytes: kernel,
    }
}
