//! The pairs of ends of two items, each end with itself and those behind it.

ghost use Rattle.std.specs.Prelude.{◌≡◌, ◌++◌, [], None, IfOk, IfErr};
ghost use Rattle.two_thread.specs.Meetings.{all_meetings, meeting_fits};
ghost use Rattle.two_thread.specs.View.{met_ends};
ghost use Rattle.walk.specs.Cursors.{Stands, left_ends, stopped};
ghost use Rattle.entry_check.specs.Hand.{meeting_owed, notes_in};
ghost use Rattle.entry_check.specs.Tallies.{Fails, IsSound, Takes};
ghost use Rattle.entry_check.specs.View.{said as said_seen};

use crate::asked::Asked;
use crate::paired::Paired;
use crate::pairs::take_pairs;
use crate::tally::Tally;
use domain::Domain;
use two_thread::Met;
use walk::{FindError, Paths, Terrain};

/// All pairs of ends: of the paths that are held, then of those behind them.
pub fn take_all_ends<D: Domain>(
    tally: &mut Tally<'_, '_>,
    asked: &Asked<'_, D>,
    terrain: &Terrain<'_, D>,
    met: &mut Met<D>,
    behind: &Paths,
) -> Result<(), FindError>
    requires sound { IsSound tally.old }
    requires stands { Stands D.Domain terrain.now behind.now }
    requires starts { stopped behind.now ≡ None }
    ensures held { IfOk result (λ _. met.new.paths.items ≡ met.old.paths.items) }
    ensures sound { IfOk result (λ _. IsSound tally.new) }
    ensures takes { IfOk result (λ _. Takes (said_seen asked.now.said.now) (meeting_owed D.Domain asked.now.premises) meeting_fits (all_meetings (notes_in asked.now.premises) (met_ends met.old ++ left_ends D.Domain terrain.now behind.now)) [] tally.old tally.new) }
    ensures fails { IfErr result (Fails D.Domain terrain.now (said_seen asked.now.said.now) (meeting_owed D.Domain asked.now.premises) meeting_fits (all_meetings (notes_in asked.now.premises) (met_ends met.old ++ left_ends D.Domain terrain.now behind.now)) tally.old) }
{
    take_pairs(tally, asked, terrain, Paired::Ends, met, behind)
}
