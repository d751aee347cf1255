//! Places of a kernel, by their numbers.

ghost use Rattle.std.specs.Prelude.{◌≡◌, map};
ghost use Rattle.obligations.specs.Notes.{number_at};
ghost use Rattle.places.specs.View.{place as place_seen, maybe_point};
ghost use Rattle.obligations.specs.View.{same_number as is_same};
ghost use Rattle.certificate.specs.View as view;
ghost use Rattle.certificate_notes.specs.Stations as stations;

use certificate::tree::Anchor;
use places::{Place, Point};

/// The number of a point's statement.
fn point_number(point: &Option<Point<'_>>) -> Option<u32>
    ensures { result ≡ number_at (maybe_point point.now) }
{
    match point {
        None => None,
        Some(point) => Some(point.statement.number()),
    }
}

fn same_number(left: Option<u32>, right: Option<u64>) -> bool
    ensures { result ≡ is_same left right }
{
    match (left, right) {
        (None, None) => true,
        (Some(left), Some(right)) => left as u64 == right,
        _ => false,
    }
}

pub fn anchor_number(anchor: Anchor) -> Option<u64>
    ensures { result ≡ stations.anchor_number (view.anchor anchor) }
{
    match anchor {
        Anchor::KernelEntry => None,
        Anchor::Barrier(number) => Some(number),
    }
}

/// The place has a barrier of this number as its anchor, or the entry, and a loop of that number, or none.
fn is_at(place: &Place<'_>, anchor: Option<u64>, head: Option<u64>) -> bool
    ensures { result ≡ stations.is_at anchor head (place_seen place.now) }
{
    same_number(point_number(&place.anchor), anchor) && same_number(point_number(&place.head), head)
}

/// Some place of the kernel has a barrier of this number as its anchor, or the entry, and a loop of that number, or none.
pub fn is_place(places: &[Place<'_>], anchor: Option<u64>, head: Option<u64>) -> bool
    ensures { result ≡ stations.is_place (map place_seen places.now) anchor head }
{
    for place in places {
        if is_at(place, anchor, head) {
            return true;
        }
    }
    false
}
