//! What is said of a place; of the entry nothing is.

ghost use Rattle.std.specs.Prelude.{◌≡◌, [], map};
ghost use Rattle.linear.specs.Forms.{forms};
ghost use Rattle.obligations.specs.View.{seen, congruence as congruence_seen, multiple as multiple_seen};
ghost use Rattle.obligations.specs.Roots as roots;

use arrival_claims::{congruences_of, facts_of, multiples_of};
use linear::Form;
use obligations::{Congruence, Multiple, Notes};

/// The facts that notes say of a place, by its anchor and its loop.
pub fn facts_at<'n>(notes: &'n Notes, anchor: Option<u32>, head: Option<u32>) -> &'n [Form]
    ensures { forms result.now ≡ roots.facts_at (seen notes.now []) anchor head }
{
    match (anchor, head) {
        (None, None) => &[],
        (None, Some(_)) | (Some(_), _) => facts_of(notes.places.as_slice(), anchor, head),
    }
}

/// The congruences that notes say of a place, by its anchor and its loop.
pub fn congruences_at<'n>(
    notes: &'n Notes,
    anchor: Option<u32>,
    head: Option<u32>,
) -> &'n [Congruence]
    ensures { map congruence_seen result.now ≡ roots.congruences_at (seen notes.now []) anchor head }
{
    match (anchor, head) {
        (None, None) => &[],
        (None, Some(_)) | (Some(_), _) => congruences_of(notes.places.as_slice(), anchor, head),
    }
}

/// The multiples that notes say of a place, by its anchor and its loop, in the wide walk.
pub fn multiples_at<'n>(notes: &'n Notes, anchor: Option<u32>, head: Option<u32>) -> &'n [Multiple]
    ensures { map multiple_seen result.now ≡ roots.multiples_at (seen notes.now []) anchor head }
{
    if !notes.is_wide {
        return &[];
    }
    match (anchor, head) {
        (None, None) => &[],
        (None, Some(_)) | (Some(_), _) => multiples_of(notes.places.as_slice(), anchor, head),
    }
}
