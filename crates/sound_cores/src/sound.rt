//! Whether a core is sound.

ghost use Rattle.std.specs.Prelude.{◌≡◌};
ghost use Rattle.core_code.specs.View.{kernel as kernel_seen, statements as statements_seen};
ghost use Rattle.sound_cores.specs.Sound as specs;

use crate::declaring::{are_within, declared_by};
use crate::numbering::all_numbered;
use crate::placing::are_placed;
use core_code::tree::{Core, Statement};
use work_item::proper::is_proper;

fn is_numbered(statements: &[Statement]) -> bool
    ensures { result ≡ specs.is_some (specs.all_numbered 0 (statements_seen statements.now)) }
{
    all_numbered(0, statements).is_some()
}

/// Whether a core keeps what each core of a text of the plain language keeps: it is proper, its statements' numbers rise in the order in
/// which they stand, exits are of the innermost loop around them and updates only assign, and it names what it declares.
pub fn is_sound(core: &Core) -> bool
    ensures { result ≡ specs.is_sound (kernel_seen core.now) }
{
    let body = core.body.as_slice();
    is_proper(core)
        && is_numbered(body)
        && are_placed(None, body)
        && are_within(declared_by(core), body)
}
