//! Anchors and spaces, compared.

ghost use Rattle.std.specs.Prelude.{◌≡◌};
ghost use Rattle.core_code.specs.View.{space as space_seen};
ghost use Rattle.obligations.specs.Meetings as meetings;
ghost use Rattle.obligations.specs.Crossings as specs;

use core_code::tree::Space;

/// Two anchors are the same: both the entry, or one barrier.
pub fn same_anchor(left: Option<u32>, right: Option<u32>) -> bool
    ensures { result ≡ meetings.same_anchor left right }
{
    match (left, right) {
        (None, None) => true,
        (Some(left), Some(right)) => left == right,
        (None, Some(_)) | (Some(_), None) => false,
    }
}

/// Two memory spaces are the same.
pub fn is_space(left: Space, right: Space) -> bool
    ensures { result ≡ specs.is_space (space_seen left) (space_seen right) }
{
    match (left, right) {
        (Space::Global, Space::Global) | (Space::Local, Space::Local) => true,
        (Space::Global, Space::Local) | (Space::Local, Space::Global) => false,
    }
}
