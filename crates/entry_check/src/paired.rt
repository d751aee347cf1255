//! What paths have of which pairs are shown: their ends, or their accesses to one array. Either is a row.

ghost use Rattle.std.specs.Prelude.{◌≡◌, ◌<◌, [], IfOk, IfErr, drop, length};
ghost use Rattle.facts.specs.Refusals.{IsMemory};
ghost use Rattle.entry_check.specs.Rows.{CutsPairs, TakesPairs, all_alone, held_has_pairs, held_row, held_rows, pairs_with};
ghost use Rattle.entry_check.specs.Tallies.{IsSound};

use crate::asked::Asked;
use crate::crossings::{are_lone, take_crossings_with};
use crate::meetings::{are_final, take_meetings_with};
use crate::tally::Tally;
use domain::Domain;
use facts::WalkError;
use two_thread::{Met, Sought, is_of, is_rest, stop_of};
use walk::{FindError, Terrain};

/// Ends, or accesses to one array in one scope.
#[derive(Clone, Copy)]
pub enum Paired {
    Ends,
    Accesses(Sought),
}

/// The number of rows of the paths that are held.
pub fn row_count<D: Domain>(kind: Paired, met: &Met<D>) -> usize
    ensures { result ≡ length (held_rows kind met.now) }
{
    match kind {
        Paired::Ends => met.end_count(),
        Paired::Accesses(_) => met.access_count(),
    }
}

/// A row has pairs: an end is a barrier or the kernel's end, an access is to the array.
pub fn has_pairs_at<D: Domain>(kind: Paired, met: &Met<D>, i: usize) -> bool
    requires { i < length (held_rows kind met.now) }
    ensures { result ≡ held_has_pairs kind met.now i }
{
    match kind {
        Paired::Ends => is_rest(stop_of(met, i)),
        Paired::Accesses(sought) => is_of(sought, met, i),
    }
}

/// A row with those from a number on.
pub fn take_with<D: Domain>(
    tally: &mut Tally<'_, '_>,
    asked: &Asked<'_, D>,
    terrain: &Terrain<'_, D>,
    kind: Paired,
    met: &Met<D>,
    i: usize,
    from: usize,
) -> Result<(), FindError>
    requires sound { IsSound tally.old }
    requires first { i < length (held_rows kind met.now) }
    ensures sound { IfOk result (λ _. IsSound tally.new) }
    ensures takes { IfOk result (λ _. TakesPairs D.Domain asked.now kind (pairs_with asked.now terrain.now kind (held_row kind met.now i) (drop from (held_rows kind met.now))) [] tally.old tally.new) }
    ensures cuts { IfErr result (CutsPairs D.Domain asked.now kind (pairs_with asked.now terrain.now kind (held_row kind met.now i) (drop from (held_rows kind met.now))) tally.old) }
{
    match kind {
        Paired::Ends => take_meetings_with(tally, asked, met, i, from),
        Paired::Accesses(sought) => {
            take_crossings_with(tally, asked, terrain, sought, met, i, from)
        }
    }
}

/// Each row of the paths that are held is such that two of its sort have nothing to be shown.
pub fn are_alone<D: Domain>(
    asked: &Asked<'_, D>,
    terrain: &Terrain<'_, D>,
    kind: Paired,
    met: &Met<D>,
) -> Result<bool, WalkError>
    ensures exact { IfOk result (λ b. b ≡ all_alone terrain.now kind (held_rows kind met.now)) }
    ensures memory { IfErr result IsMemory }
{
    match kind {
        Paired::Ends => Ok(are_final(met)),
        Paired::Accesses(sought) => are_lone(asked, terrain, sought, met),
    }
}
