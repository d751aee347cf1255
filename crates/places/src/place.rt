//! Places of a kernel.

ghost use Rattle.std.specs.Prelude.{◌≡◌, ◌++◌, ◌∷◌, [], map, IfOk, OnOk, Some};
ghost use Rattle.core_code.specs.View.{statement as statement_seen};
ghost use Rattle.arrivals.specs.Places as meaning;
ghost use Rattle.places.specs.View.{lists as lists_seen, maybe_point, turns as turns_seen, place as place_seen, point as point_seen};

use crate::lists::Lists;
use crate::point::Point;
use std::alloc::{AllocError, Global};

/// The entry, where there is no anchor, or a barrier; where it is a head, the loop without a barrier that is reached from there, and the
/// loops with a barrier that turned on the way, the newest first, where that is one list.
#[derive(Drop)]
pub struct Place<'a> {
    pub anchor: Option<Point<'a>>,
    pub head: Option<Point<'a>>,
    pub turns: Option<Vec<u32>>,
}

/// A copy of an anchor.
fn copy_anchor<'a>(
    alloc: Global,
    anchor: &Option<Point<'a>>,
) -> Result<Option<Point<'a>>, AllocError>
    ensures { IfOk result (λ a. maybe_point a ≡ maybe_point anchor.now) }
{
    match anchor {
        None => Ok(None),
        Some(point) => {
            let point = point.copy(alloc)?;
            Ok(Some(point))
        }
    }
}

/// Adds the place that is the anchor itself.
pub fn push_own<'a>(
    alloc: Global,
    anchor: &Option<Point<'a>>,
    places: &mut Vec<Place<'a>>,
) -> Result<(), AllocError>
    ensures { OnOk result (map place_seen places.new.items ≡ map place_seen places.old.items ++ meaning.own_place (maybe_point anchor.now) ∷ []) }
{
    let anchor = copy_anchor(alloc, anchor)?;
    let place = Place {
        anchor,
        head: None,
        turns: Some(Vec::new(alloc)),
    };
    places.push(place)?;
    Ok(())
}

/// A head that is reached, with its lists.
fn head_at<'a>(
    alloc: Global,
    anchor: &Option<Point<'a>>,
    head: &Point<'a>,
    turns: Option<Vec<u32>>,
) -> Result<Place<'a>, AllocError>
    ensures { IfOk result (λ p. place_seen p ≡ record { anchor = maybe_point anchor.now; head = Some (point_seen head.now); turns = turns_seen turns }) }
{
    let anchor = copy_anchor(alloc, anchor)?;
    let head = head.copy(alloc)?;
    Ok(Place {
        anchor,
        head: Some(head),
        turns,
    })
}

/// Adds the place of a loop's head under an anchor, if it is reached from there.
pub fn push_head<'a>(
    alloc: Global,
    anchor: &Option<Point<'a>>,
    head: &Point<'a>,
    found: Lists,
    places: &mut Vec<Place<'a>>,
) -> Result<(), AllocError>
    ensures { OnOk result (map place_seen places.new.items ≡ map place_seen places.old.items ++ meaning.head_by (maybe_point anchor.now) (point_seen head.now) (lists_seen found) []) }
{
    let turns = match found {
        Lists::NoList => return Ok(()),
        Lists::OneList(list) => Some(list),
        Lists::TwoLists => None,
    };
    let place = head_at(alloc, anchor, head, turns)?;
    places.push(place)?;
    Ok(())
}
