//! Which obligations have an entry, by their numbers.

ghost use Rattle.std.specs.Prelude.{◌≡◌, ◌∷◌, ◌++◌, [], List, IfOk, true, slice_set};
ghost use Rattle.certificate_text.specs.Certificate as certificates;
ghost use Rattle.certificate.specs.View.{entry as entry_seen};
ghost use Rattle.entry_check.specs.Entries.{AreFlags};

use certificate::tree::Entry;
use std::alloc::{AllocError, Global};

/// A flag for each number from 0 to 65,536, none of which is set: no obligation has an entry.
pub fn no_flags(alloc: Global) -> Result<Vec<bool>, AllocError>
    ensures { IfOk result (λ v. AreFlags [] v.items) }
{
    let flags = vec![in alloc; false; 65_537]?;
    Ok(flags)
}

/// Sets the flag of a number; one past the last flag has none.
fn set_at(flags: &mut Vec<bool>, number: u64)
    ensures { flags.new.items ≡ slice_set flags.old.items number true }
{
    if let Some(flag) = flags.get_mut(number as usize) {
        *flag = true;
    }
}

/// Sets the flag of an entry's number: the flags of entries become those of these and one more.
pub fn set_flag(flags: &mut Vec<bool>, entry: &Entry)
    ensures { (es : List certificates.Entry) → AreFlags es flags.old.items → AreFlags (es ++ entry_seen entry.now ∷ []) flags.new.items }
{
    set_at(flags, entry.obligation);
}
