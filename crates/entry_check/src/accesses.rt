//! The pairs of accesses of two items that may clash, array by array, each access with itself and those behind it.

ghost use Rattle.std.specs.Prelude.{◌≡◌, ◌++◌, [], None, IfOk, IfErr};
ghost use Rattle.core_code.specs.View.{space as space_seen};
ghost use Rattle.obligations.specs.Crossings.{crossings};
ghost use Rattle.obligations.specs.Fitting.{crossing_fits};
ghost use Rattle.two_thread.specs.View.{met_accesses};
ghost use Rattle.walk.specs.Cursors.{Stands, conditions_of, kernel_of, left_accesses, stopped};
ghost use Rattle.entry_check.specs.Hand.{crossing_owed};
ghost use Rattle.entry_check.specs.Pairs.{crossings_of_array, crossings_of_arrays};
ghost use Rattle.entry_check.specs.Tallies.{Fails, IsSound, Takes};
ghost use Rattle.entry_check.specs.View.{said as said_seen};

use crate::asked::Asked;
use crate::paired::Paired;
use crate::pairs::take_pairs;
use crate::tally::Tally;
use core_code::tree::Space;
use domain::Domain;
use two_thread::{Met, Scope, Sought, is_fenced};
use walk::{FindError, Paths, Terrain};

/// The pairs of one array: within a group, and, if it is a buffer, across groups.
fn take_array<D: Domain>(
    tally: &mut Tally<'_, '_>,
    asked: &Asked<'_, D>,
    terrain: &Terrain<'_, D>,
    fenced: bool,
    space: Space,
    number: usize,
    met: &mut Met<D>,
    behind: &Paths,
) -> Result<(), FindError>
    requires sound { IsSound tally.old }
    requires stands { Stands D.Domain terrain.now behind.now }
    requires starts { stopped behind.now ≡ None }
    ensures held { IfOk result (λ _. met.new.paths.items ≡ met.old.paths.items) }
    ensures sound { IfOk result (λ _. IsSound tally.new) }
    ensures takes { IfOk result (λ _. Takes (said_seen asked.now.said.now) (crossing_owed D.Domain asked.now.premises) crossing_fits (crossings_of_array terrain.now fenced (met_accesses met.old ++ left_accesses D.Domain terrain.now behind.now) (space_seen space) number) [] tally.old tally.new) }
    ensures fails { IfErr result (Fails D.Domain terrain.now (said_seen asked.now.said.now) (crossing_owed D.Domain asked.now.premises) crossing_fits (crossings_of_array terrain.now fenced (met_accesses met.old ++ left_accesses D.Domain terrain.now behind.now) (space_seen space) number) tally.old) }
{
    let within = Sought {
        space,
        number,
        fenced,
        scope: Scope::Within,
    };
    take_pairs(tally, asked, terrain, Paired::Accesses(within), met, behind)?;
    if let Space::Global = space {
        let across = Sought {
            scope: Scope::Across,
            ..within
        };
        take_pairs(tally, asked, terrain, Paired::Accesses(across), met, behind)?;
    }
    Ok(())
}

/// The pairs of all arrays of a space.
fn take_arrays<D: Domain, A>(
    tally: &mut Tally<'_, '_>,
    asked: &Asked<'_, D>,
    terrain: &Terrain<'_, D>,
    fenced: bool,
    space: Space,
    arrays: &[A],
    met: &mut Met<D>,
    behind: &Paths,
) -> Result<(), FindError>
    requires sound { IsSound tally.old }
    requires stands { Stands D.Domain terrain.now behind.now }
    requires starts { stopped behind.now ≡ None }
    ensures held { IfOk result (λ _. met.new.paths.items ≡ met.old.paths.items) }
    ensures sound { IfOk result (λ _. IsSound tally.new) }
    ensures takes { IfOk result (λ _. Takes (said_seen asked.now.said.now) (crossing_owed D.Domain asked.now.premises) crossing_fits (crossings_of_arrays terrain.now fenced (met_accesses met.old ++ left_accesses D.Domain terrain.now behind.now) (space_seen space) 0 arrays.now) [] tally.old tally.new) }
    ensures fails { IfErr result (Fails D.Domain terrain.now (said_seen asked.now.said.now) (crossing_owed D.Domain asked.now.premises) crossing_fits (crossings_of_arrays terrain.now fenced (met_accesses met.old ++ left_accesses D.Domain terrain.now behind.now) (space_seen space) 0 arrays.now) tally.old) }
{
    for number in 0..arrays.len() {
        take_array(tally, asked, terrain, fenced, space, number, met, behind)?;
    }
    Ok(())
}

/// All pairs of accesses: those of the buffers, then those of the local arrays.
pub fn take_all_accesses<D: Domain>(
    tally: &mut Tally<'_, '_>,
    asked: &Asked<'_, D>,
    terrain: &Terrain<'_, D>,
    met: &mut Met<D>,
    behind: &Paths,
) -> Result<(), FindError>
    requires sound { IsSound tally.old }
    requires stands { Stands D.Domain terrain.now behind.now }
    requires starts { stopped behind.now ≡ None }
    ensures held { IfOk result (λ _. met.new.paths.items ≡ met.old.paths.items) }
    ensures sound { IfOk result (λ _. IsSound tally.new) }
    ensures takes { IfOk result (λ _. Takes (said_seen asked.now.said.now) (crossing_owed D.Domain asked.now.premises) crossing_fits (crossings (kernel_of terrain.now) (conditions_of terrain.now) (met_accesses met.old ++ left_accesses D.Domain terrain.now behind.now)) [] tally.old tally.new) }
    ensures fails { IfErr result (Fails D.Domain terrain.now (said_seen asked.now.said.now) (crossing_owed D.Domain asked.now.premises) crossing_fits (crossings (kernel_of terrain.now) (conditions_of terrain.now) (met_accesses met.old ++ left_accesses D.Domain terrain.now behind.now)) tally.old) }
{
    let body = terrain.core.body.as_slice();
    let buffers = terrain.core.buffers.as_slice();
    let global = is_fenced(body, Space::Global);
    take_arrays(
        tally,
        asked,
        terrain,
        global,
        Space::Global,
        buffers,
        met,
        behind,
    )?;
    let arrays = terrain.core.arrays.as_slice();
    let local = is_fenced(body, Space::Local);
    take_arrays(
        tally,
        asked,
        terrain,
        local,
        Space::Local,
        arrays,
        met,
        behind,
    )
}
