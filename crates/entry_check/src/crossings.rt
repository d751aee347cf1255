//! The crossings of an access to one array with others.

ghost use Rattle.std.specs.Prelude.{◌≡◌, ◌<◌, [], IfOk, IfErr, MatchResult, drop, length, map};
ghost use Rattle.std.specs.List.{All};
ghost use Rattle.facts.specs.Refusals.{IsMemory};
ghost use Rattle.obligations.specs.Fitting.{crossing_fits};
ghost use Rattle.two_thread.specs.Refusals.{IsInside, IsOver};
ghost use Rattle.two_thread.specs.View.{crossing as crossing_seen, met_access, met_accesses};
ghost use Rattle.entry_check.specs.Hand.{crossing_owed};
ghost use Rattle.entry_check.specs.Pairs.{access_with, all_lone, crossing_at, crossing_fits_at, lone};
ghost use Rattle.entry_check.specs.Tallies.{Cuts, IsSound, Takes};
ghost use Rattle.entry_check.specs.View.{said as said_seen};

use crate::asked::Asked;
use crate::hand::Owed;
use crate::tally::Tally;
use domain::Domain;
use facts::WalkError;
use two_thread::{Crossing, Met, Pairing, Sought, with_one};
use walk::{FindError, Terrain};

/// The crossings of an access with those from a number on.
fn crossings_with<D: Domain>(
    asked: &Asked<'_, D>,
    terrain: &Terrain<'_, D>,
    sought: Sought,
    met: &Met<D>,
    i: usize,
    from: usize,
) -> Result<Vec<Crossing>, WalkError>
    requires first { i < length met.now.accesses.items }
    ensures exact { MatchResult result (λ v. map (crossing_seen (met_accesses met.now)) v.items ≡ access_with terrain.now sought (met_access met.now i) (drop from (met_accesses met.now))) (IsOver 65536 (length (access_with terrain.now sought (met_access met.now i) (drop from (met_accesses met.now))))) }
    ensures inside { IfOk result (λ v. All (IsInside (length met.now.accesses.items)) v.items) }
{
    let mut found = Vec::new(asked.alloc);
    let pairing = Pairing {
        sizes: terrain.core.sizes,
        conditions: terrain.conditions,
        met,
        most: 65_536,
    };
    for j in from..met.access_count() {
        with_one(&mut found, &pairing, sought, i, j)?;
    }
    Ok(found)
}

/// Crossings of what is held.
fn take_crossings<D: Domain>(
    tally: &mut Tally<'_, '_>,
    asked: &Asked<'_, D>,
    met: &Met<D>,
    crossings: &[Crossing],
) -> Result<(), FindError>
    requires sound { IsSound tally.old }
    requires inside { All (IsInside (length met.now.accesses.items)) crossings.now }
    ensures sound { IfOk result (λ _. IsSound tally.new) }
    ensures takes { IfOk result (λ _. Takes (said_seen asked.now.said.now) (crossing_at D.Domain asked.now.premises met.now) (crossing_fits_at met.now) crossings.now [] tally.old tally.new) }
    ensures cuts { IfErr result (Cuts (said_seen asked.now.said.now) (crossing_at D.Domain asked.now.premises met.now) (crossing_fits_at met.now) crossings.now tally.old) }
{
    for k in 0..crossings.len() {
        tally.take(asked, met, Owed::Accesses(crossings[k]))?;
    }
    Ok(())
}

/// An access with those from a number on.
pub fn take_crossings_with<D: Domain>(
    tally: &mut Tally<'_, '_>,
    asked: &Asked<'_, D>,
    terrain: &Terrain<'_, D>,
    sought: Sought,
    met: &Met<D>,
    i: usize,
    from: usize,
) -> Result<(), FindError>
    requires sound { IsSound tally.old }
    requires first { i < length (met_accesses met.now) }
    ensures sound { IfOk result (λ _. IsSound tally.new) }
    ensures takes { IfOk result (λ _. Takes (said_seen asked.now.said.now) (crossing_owed D.Domain asked.now.premises) crossing_fits (access_with terrain.now sought (met_access met.now i) (drop from (met_accesses met.now))) [] tally.old tally.new) }
    ensures cuts { IfErr result (Cuts (said_seen asked.now.said.now) (crossing_owed D.Domain asked.now.premises) crossing_fits (access_with terrain.now sought (met_access met.now i) (drop from (met_accesses met.now))) tally.old) }
{
    let found = crossings_with(asked, terrain, sought, met, i, from)?;
    take_crossings(tally, asked, met, found.as_slice())
}

/// An access gives no crossing with itself: it is no store to the array, or no two items of the scope differ.
fn is_lone<D: Domain>(
    asked: &Asked<'_, D>,
    terrain: &Terrain<'_, D>,
    sought: Sought,
    met: &Met<D>,
    i: usize,
) -> Result<bool, WalkError>
    requires { i < length met.now.accesses.items }
    ensures exact { IfOk result (λ b. b ≡ lone terrain.now sought (met_access met.now i)) }
    ensures memory { IfErr result IsMemory }
{
    let mut found = Vec::new(asked.alloc);
    let pairing = Pairing {
        sizes: terrain.core.sizes,
        conditions: terrain.conditions,
        met,
        most: 65_536,
    };
    with_one(&mut found, &pairing, sought, i, i)?;
    Ok(found.len() == 0)
}

/// No access of the paths that are held gives one.
pub fn are_lone<D: Domain>(
    asked: &Asked<'_, D>,
    terrain: &Terrain<'_, D>,
    sought: Sought,
    met: &Met<D>,
) -> Result<bool, WalkError>
    ensures exact { IfOk result (λ b. b ≡ all_lone terrain.now sought (met_accesses met.now)) }
    ensures memory { IfErr result IsMemory }
{
    for i in 0..met.access_count() {
        if !is_lone(asked, terrain, sought, met, i)? {
            return Ok(false);
        }
    }
    Ok(true)
}
