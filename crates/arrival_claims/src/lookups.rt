//! What is said of a place, a loop or a claim, by its number.

ghost use Rattle.std.specs.Prelude.{◌≡◌, pos, map, MatchOption};
ghost use Rattle.linear.specs.Forms.{form as form_seen, forms};
ghost use Rattle.facts.specs.Symbols.{constant};
ghost use Rattle.obligations.specs.View as view;

use linear::Form;
use loop_bounds::{Bound, LoopBound};
use obligations::{Congruence, Lines, Multiple, Quotient, Visible};

/// The numbers are the same, or there are none.
fn same_number(left: Option<u32>, right: Option<u32>) -> bool
    ensures { result ≡ view.same_number left right }
{
    match (left, right) {
        (None, None) => true,
        (Some(left), Some(right)) => left == right,
        _ => false,
    }
}

/// The lines are of the place.
fn is_of(lines: &Lines, anchor: Option<u32>, head: Option<u32>) -> bool
    ensures { result ≡ view.is_of anchor head lines.now }
{
    same_number(lines.anchor, anchor) && same_number(lines.head, head)
}

/// The facts that notes say of a place, by its anchor and its loop; none where nothing is said of it.
pub fn facts_of<'n>(places: &'n [Lines], anchor: Option<u32>, head: Option<u32>) -> &'n [Form]
    ensures { forms result.now ≡ view.facts_of places.now anchor head }
{
    for lines in places {
        if is_of(lines, anchor, head) {
            return lines.facts.as_slice();
        }
    }
    &[]
}

/// The congruences that notes say of a place, by its anchor and its loop; none where nothing is said of it.
pub fn congruences_of<'n>(
    places: &'n [Lines],
    anchor: Option<u32>,
    head: Option<u32>,
) -> &'n [Congruence]
    ensures { map view.congruence result.now ≡ view.congruences_of places.now anchor head }
{
    for lines in places {
        if is_of(lines, anchor, head) {
            return lines.congruences.as_slice();
        }
    }
    &[]
}

/// The multiples that notes say of a place, by its anchor and its loop; none where nothing is said of it.
pub fn multiples_of<'n>(
    places: &'n [Lines],
    anchor: Option<u32>,
    head: Option<u32>,
) -> &'n [Multiple]
    ensures { map view.multiple result.now ≡ view.multiples_of places.now anchor head }
{
    for lines in places {
        if is_of(lines, anchor, head) {
            return lines.multiples.as_slice();
        }
    }
    &[]
}

/// The slots that two items of a group have alike at a barrier.
pub fn same_of(places: &[Lines], barrier: u32) -> &[u32]
    ensures { result.now ≡ view.same_of places.now barrier }
{
    for lines in places {
        if is_of(lines, Some(barrier), None) {
            return lines.same.as_slice();
        }
    }
    &[]
}

/// The ranking of the loop with a number; none where none is said.
pub fn ranking_of(rankings: &[LoopBound], number: u32) -> Option<&Bound>
    ensures { MatchOption result (view.ranking_of rankings.now number ≡ view.no_ranking) (λ b. view.ranking_of rankings.now number ≡ view.ranking b.now) }
{
    for ranking in rankings {
        if ranking.number == number {
            return Some(&ranking.bound);
        }
    }
    None
}

/// The slots whose ranges are known at a barrier or a loop, or at the entry.
pub fn visible_of(all: &[Visible], statement: Option<u32>) -> &[u32]
    ensures { result.now ≡ view.visible_of all.now statement }
{
    for visible in all {
        if same_number(visible.statement, statement) {
            return visible.slots.as_slice();
        }
    }
    &[]
}

/// The quotient of a claim, where its entry names one.
pub fn quotient_of(quotients: &[Quotient], claim: u64) -> Option<&Form>
    ensures { MatchOption result (view.quotient_of quotients.now claim ≡ constant (pos 0)) (λ f. view.quotient_of quotients.now claim ≡ form_seen f.now) }
{
    for quotient in quotients {
        if quotient.claim as u64 == claim {
            return Some(&quotient.form);
        }
    }
    None
}
