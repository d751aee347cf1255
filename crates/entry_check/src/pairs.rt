//! The pairs of what two items meet, ends or accesses: each row of a path with itself and those behind it.

ghost use Rattle.std.specs.Prelude.{◌≡◌, ◌<◌, ◌++◌, [], None, IfOk, IfErr, drop, length};
ghost use Rattle.walk.specs.Cursors.{IsUnfoundIn, Stands, stopped};
ghost use Rattle.entry_check.specs.Rows.{FailsPairs, TakesPairs, all_alone, all_pairs, held_row, held_rows, left_rows, pairs_from, pairs_with};
ghost use Rattle.entry_check.specs.Tallies.{IsSound};

use crate::asked::Asked;
use crate::held::{drop_last, hold_from, put_last};
use crate::paired::{Paired, are_alone, has_pairs_at, row_count, take_with};
use crate::tally::Tally;
use domain::Domain;
use two_thread::Met;
use walk::{FindError, Paths, Terrain, alone};

/// A row of the paths that are held with those of the paths behind them: these are gone along anew, and one at a time is put last.
fn take_behind<D: Domain>(
    tally: &mut Tally<'_, '_>,
    asked: &Asked<'_, D>,
    terrain: &Terrain<'_, D>,
    kind: Paired,
    met: &mut Met<D>,
    next: &mut Paths,
    i: usize,
) -> Result<(), FindError>
    requires sound { IsSound tally.old }
    requires stands { Stands D.Domain terrain.now next.old }
    requires starts { stopped next.old ≡ None }
    requires first { i < length (held_rows kind met.old) }
    ensures held { IfOk result (λ _. met.new.paths.items ≡ met.old.paths.items) }
    ensures sound { IfOk result (λ _. IsSound tally.new) }
    ensures takes { IfOk result (λ _. TakesPairs D.Domain asked.now kind (pairs_with asked.now terrain.now kind (held_row kind met.old i) (left_rows D.Domain terrain.now kind next.old)) [] tally.old tally.new) }
    ensures fails { IfErr result (FailsPairs D.Domain asked.now terrain.now kind (pairs_with asked.now terrain.now kind (held_row kind met.old i) (left_rows D.Domain terrain.now kind next.old)) tally.old) }
{
    let own = row_count(kind, met);
    while let Some(path) = next.next(terrain)? {
        put_last(asked.alloc, met, path)?;
        take_with(tally, asked, terrain, kind, met, i, own)?;
        drop_last(asked.alloc, met)?;
    }
    Ok(())
}

/// A row of the paths that are held with itself and all behind it, if it has pairs.
fn take_row<D: Domain>(
    tally: &mut Tally<'_, '_>,
    asked: &Asked<'_, D>,
    terrain: &Terrain<'_, D>,
    kind: Paired,
    met: &mut Met<D>,
    behind: &Paths,
    i: usize,
) -> Result<(), FindError>
    requires sound { IsSound tally.old }
    requires stands { Stands D.Domain terrain.now behind.now }
    requires starts { stopped behind.now ≡ None }
    requires first { i < length (held_rows kind met.old) }
    ensures held { IfOk result (λ _. met.new.paths.items ≡ met.old.paths.items) }
    ensures sound { IfOk result (λ _. IsSound tally.new) }
    ensures takes { IfOk result (λ _. TakesPairs D.Domain asked.now kind (pairs_from asked.now terrain.now kind (held_row kind met.old i) (drop i (held_rows kind met.old) ++ left_rows D.Domain terrain.now kind behind.now)) [] tally.old tally.new) }
    ensures fails { IfErr result (FailsPairs D.Domain asked.now terrain.now kind (pairs_from asked.now terrain.now kind (held_row kind met.old i) (drop i (held_rows kind met.old) ++ left_rows D.Domain terrain.now kind behind.now)) tally.old) }
{
    if !has_pairs_at(kind, met, i) {
        return Ok(());
    }
    let mut next = behind.copy(terrain)?;
    take_with(tally, asked, terrain, kind, met, i, i)?;
    take_behind(tally, asked, terrain, kind, met, &mut next, i)
}

/// The rows of the paths that are held, each with itself and all behind it.
fn take_held<D: Domain>(
    tally: &mut Tally<'_, '_>,
    asked: &Asked<'_, D>,
    terrain: &Terrain<'_, D>,
    kind: Paired,
    met: &mut Met<D>,
    behind: &Paths,
) -> Result<(), FindError>
    requires sound { IsSound tally.old }
    requires stands { Stands D.Domain terrain.now behind.now }
    requires starts { stopped behind.now ≡ None }
    ensures held { IfOk result (λ _. met.new.paths.items ≡ met.old.paths.items) }
    ensures sound { IfOk result (λ _. IsSound tally.new) }
    ensures takes { IfOk result (λ _. TakesPairs D.Domain asked.now kind (all_pairs asked.now terrain.now kind (held_rows kind met.old ++ left_rows D.Domain terrain.now kind behind.now)) (all_pairs asked.now terrain.now kind (left_rows D.Domain terrain.now kind behind.now)) tally.old tally.new) }
    ensures fails { IfErr result (FailsPairs D.Domain asked.now terrain.now kind (all_pairs asked.now terrain.now kind (held_rows kind met.old ++ left_rows D.Domain terrain.now kind behind.now)) tally.old) }
{
    for i in 0..row_count(kind, met) {
        take_row(tally, asked, terrain, kind, met, behind, i)?;
    }
    Ok(())
}

/// The rows of the paths that are left, as many paths at a time as are held at once.
fn take_left<D: Domain>(
    tally: &mut Tally<'_, '_>,
    asked: &Asked<'_, D>,
    terrain: &Terrain<'_, D>,
    kind: Paired,
    next: &mut Paths,
) -> Result<(), FindError>
    requires sound { IsSound tally.old }
    requires stands { Stands D.Domain terrain.now next.old }
    requires starts { stopped next.old ≡ None }
    ensures sound { IfOk result (λ _. IsSound tally.new) }
    ensures takes { IfOk result (λ _. TakesPairs D.Domain asked.now kind (all_pairs asked.now terrain.now kind (left_rows D.Domain terrain.now kind next.old)) [] tally.old tally.new) }
    ensures fails { IfErr result (FailsPairs D.Domain asked.now terrain.now kind (all_pairs asked.now terrain.now kind (left_rows D.Domain terrain.now kind next.old)) tally.old) }
{
    while let Some(path) = next.next(terrain)? {
        let mut met = hold_from(terrain, next, path)?;
        take_held(tally, asked, terrain, kind, &mut met, next)?;
    }
    Ok(())
}

/// Each row of the paths that are left is alone.
fn are_alone_behind<D: Domain>(
    asked: &Asked<'_, D>,
    terrain: &Terrain<'_, D>,
    kind: Paired,
    next: &mut Paths,
) -> Result<bool, FindError>
    requires stands { Stands D.Domain terrain.now next.old }
    requires starts { stopped next.old ≡ None }
    ensures exact { IfOk result (λ b. b ≡ all_alone terrain.now kind (left_rows D.Domain terrain.now kind next.old)) }
    ensures unfound { IfErr result (IsUnfoundIn D.Domain terrain.now) }
{
    let mut all = true;
    while let Some(path) = next.next(terrain)? {
        let met = alone(asked.alloc, path)?;
        let one = are_alone(asked, terrain, kind, &met)?;
        all = all & one;
    }
    Ok(all)
}

/// Each row is alone: then there are no pairs.
fn are_all_alone<D: Domain>(
    asked: &Asked<'_, D>,
    terrain: &Terrain<'_, D>,
    kind: Paired,
    met: &Met<D>,
    behind: &Paths,
) -> Result<bool, FindError>
    requires stands { Stands D.Domain terrain.now behind.now }
    requires starts { stopped behind.now ≡ None }
    ensures exact { IfOk result (λ b. b ≡ all_alone terrain.now kind (held_rows kind met.now ++ left_rows D.Domain terrain.now kind behind.now)) }
    ensures unfound { IfErr result (IsUnfoundIn D.Domain terrain.now) }
{
    if !are_alone(asked, terrain, kind, met)? {
        return Ok(false);
    }
    let mut next = behind.copy(terrain)?;
    are_alone_behind(asked, terrain, kind, &mut next)
}

/// All pairs of one kind: of the paths that are held, then of those behind them.
pub fn take_pairs<D: Domain>(
    tally: &mut Tally<'_, '_>,
    asked: &Asked<'_, D>,
    terrain: &Terrain<'_, D>,
    kind: Paired,
    met: &mut Met<D>,
    behind: &Paths,
) -> Result<(), FindError>
    requires sound { IsSound tally.old }
    requires stands { Stands D.Domain terrain.now behind.now }
    requires starts { stopped behind.now ≡ None }
    ensures held { IfOk result (λ _. met.new.paths.items ≡ met.old.paths.items) }
    ensures sound { IfOk result (λ _. IsSound tally.new) }
    ensures takes { IfOk result (λ _. TakesPairs D.Domain asked.now kind (all_pairs asked.now terrain.now kind (held_rows kind met.old ++ left_rows D.Domain terrain.now kind behind.now)) [] tally.old tally.new) }
    ensures fails { IfErr result (FailsPairs D.Domain asked.now terrain.now kind (all_pairs asked.now terrain.now kind (held_rows kind met.old ++ left_rows D.Domain terrain.now kind behind.now)) tally.old) }
{
    if are_all_alone(asked, terrain, kind, met, behind)? {
        return Ok(());
    }
    let mut next = behind.copy(terrain)?;
    take_held(tally, asked, terrain, kind, met, behind)?;
    take_left(tally, asked, terrain, kind, &mut next)
}
