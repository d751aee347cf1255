//! What is known where a path begins.

ghost use Rattle.std.specs.Prelude.{◌≡◌, [], MatchResult};
ghost use Rattle.linear.specs.Forms.{forms};
ghost use Rattle.core_code.specs.View.{kernel as core_seen};
ghost use Rattle.obligations.specs.View.{seen};
ghost use Rattle.obligations.specs.Roots as roots;
ghost use Rattle.path_walk.specs.Rooted.{IsUnrooted};

use crate::ends::push_ranges;
use crate::multiples::push_quotients;
use crate::said::{congruences_at, facts_at, multiples_at};
use core_code::tree::Core;
use facts::{Side, WalkError, copy_all, item_facts};
use linear::Form;
use obligations::Notes;
use std::alloc::Global;

/// The facts of an item, the ends of the variables' kinds, and what is said of the place.
pub fn root_facts(
    alloc: Global,
    core: &Core,
    notes: &Notes,
    anchor: Option<u32>,
    head: Option<u32>,
) -> Result<Vec<Form>, WalkError>
    ensures { MatchResult result (λ v. forms v.items ≡ roots.root_facts (core_seen core.now) (seen notes.now []) anchor head) (λ e. IsUnrooted (roots.root_facts (core_seen core.now) (seen notes.now []) anchor head) e) }
{
    let mut known = item_facts(alloc, core.sizes, Side::First)?;
    push_ranges(alloc, &mut known, core, notes, anchor, head)?;
    copy_all(alloc, &mut known, facts_at(notes, anchor, head))?;
    let congruences = congruences_at(notes, anchor, head);
    let multiples = multiples_at(notes, anchor, head);
    push_quotients(alloc, &mut known, congruences, multiples)?;
    Ok(known)
}
