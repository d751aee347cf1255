//! The numbers of points.

ghost use Rattle.std.specs.Prelude.{◌≡◌};
ghost use Rattle.places.specs.View.{maybe_point};
ghost use Rattle.obligations.specs.Notes as notes;
ghost use Rattle.walk.specs.Unfound.{statement_by};

use places::Point;

/// The number of a point's statement; none for the entry.
pub fn number_at(point: &Option<Point<'_>>) -> Option<u32>
    ensures { result ≡ notes.number_at (maybe_point point.now) }
{
    match point {
        None => None,
        Some(point) => Some(point.statement.number()),
    }
}

/// The number under which a place is told: its loop's, else its barrier's.
pub fn statement_of(anchor: Option<u32>, head: Option<u32>) -> Option<u32>
    ensures { result ≡ statement_by anchor head }
{
    match head {
        None => anchor,
        Some(number) => Some(number),
    }
}
