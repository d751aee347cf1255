//! The claims of one item, path by path.

ghost use Rattle.std.specs.Prelude.{◌≡◌, ◌++◌, [], None, true, IfOk, IfErr};
ghost use Rattle.facts.specs.Refusals.{IsMemory};
ghost use Rattle.obligations.specs.Owning.{all_own_accesses, all_own_ends};
ghost use Rattle.two_thread.specs.Fitting.{claims_fit};
ghost use Rattle.two_thread.specs.Paths.{accesses_seen, claims_seen, ends_seen};
ghost use Rattle.two_thread.specs.View.{met_claims};
ghost use Rattle.walk.specs.Cursors.{IsUnfoundIn, Stands, left_claims, stopped, trees_of, walks_fit};
ghost use Rattle.walk.specs.Unfound.{HaveFewPaths};
ghost use Rattle.entry_check.specs.Hand.{claim_fits, claim_owed};
ghost use Rattle.entry_check.specs.Tallies.{Cuts, Fails, IsSound, Keeps, Takes};
ghost use Rattle.entry_check.specs.View.{said as said_seen};

use crate::asked::Asked;
use crate::hand::Owed;
use crate::tally::Tally;
use domain::Domain;
use facts::WalkError;
use std::alloc::Global;
use two_thread::{Met, Tagged, try_denials};
use walk::{FindError, Paths, Terrain, alone};

/// Whether the denial of each claim of the paths that are held has numbers of `i64` alone.
fn is_denied_held<D: Domain>(alloc: Global, met: &Met<D>) -> Result<bool, WalkError>
    ensures exact { IfOk result (λ b. b ≡ claims_fit (met_claims met.now)) }
    ensures memory { IfErr result IsMemory }
{
    match try_denials(alloc, met) {
        Ok(()) => Ok(true),
        Err(WalkError::TooLarge) => Ok(false),
        Err(error) => Err(error),
    }
}

/// Whether the denial of each claim of a path has numbers of `i64` alone.
fn is_denied<D: Domain>(alloc: Global, path: Tagged<D>) -> Result<bool, WalkError>
    requires accesses { all_own_accesses (accesses_seen path) ≡ true }
    requires ends { all_own_ends (ends_seen path) ≡ true }
    ensures exact { IfOk result (λ b. b ≡ claims_fit (claims_seen path)) }
    ensures memory { IfErr result IsMemory }
{
    let met = alone(alloc, path)?;
    is_denied_held(alloc, &met)
}

/// Whether the denial of each claim of the paths that are left has numbers of `i64` alone. All paths are walked, so a
/// refusal of the walk comes before any obligation.
fn are_denied_behind<D: Domain>(
    terrain: &Terrain<'_, D>,
    next: &mut Paths,
) -> Result<bool, FindError>
    requires stands { Stands D.Domain terrain.now next.old }
    requires starts { stopped next.old ≡ None }
    ensures exact { IfOk result (λ b. b ≡ claims_fit (left_claims D.Domain terrain.now next.old)) }
    ensures few { IfOk result (λ _. HaveFewPaths (trees_of D.Domain terrain.now)) }
    ensures walks { IfOk result (λ _. walks_fit (trees_of D.Domain terrain.now) ≡ true) }
    ensures unfound { IfErr result (IsUnfoundIn D.Domain terrain.now) }
{
    let mut all = true;
    while let Some(path) = next.next(terrain)? {
        let one = is_denied(terrain.setting.alloc, path)?;
        all = all & one;
    }
    Ok(all)
}

/// Whether the denial of each claim of all paths, held or behind these, has numbers of `i64` alone.
pub fn are_denied<D: Domain>(
    terrain: &Terrain<'_, D>,
    met: &Met<D>,
    behind: &Paths,
) -> Result<bool, FindError>
    requires stands { Stands D.Domain terrain.now behind.now }
    requires starts { stopped behind.now ≡ None }
    ensures exact { IfOk result (λ b. b ≡ claims_fit (met_claims met.now ++ left_claims D.Domain terrain.now behind.now)) }
    ensures few { IfOk result (λ _. HaveFewPaths (trees_of D.Domain terrain.now)) }
    ensures walks { IfOk result (λ _. walks_fit (trees_of D.Domain terrain.now) ≡ true) }
    ensures unfound { IfErr result (IsUnfoundIn D.Domain terrain.now) }
{
    let mut next = behind.copy(terrain)?;
    let held = is_denied_held(terrain.setting.alloc, met)?;
    let others = are_denied_behind(terrain, &mut next)?;
    Ok(held & others)
}

/// The claims of what is held.
fn take_claims<D: Domain>(
    tally: &mut Tally<'_, '_>,
    asked: &Asked<'_, D>,
    met: &Met<D>,
) -> Result<(), FindError>
    requires sound { IsSound tally.old }
    requires denied { tally.old.stopped ≡ None → claims_fit (met_claims met.now) ≡ true }
    ensures sound { IfOk result (λ _. IsSound tally.new) }
    ensures takes { IfOk result (λ _. Takes (said_seen asked.now.said.now) (claim_owed asked.now.premises) claim_fits (met_claims met.now) [] tally.old tally.new) }
    ensures keeps { IfOk result (λ _. Keeps tally.old tally.new) }
    ensures cuts { IfErr result (Cuts (said_seen asked.now.said.now) (claim_owed asked.now.premises) claim_fits (met_claims met.now) tally.old) }
{
    for i in 0..met.claim_count() {
        tally.take(asked, met, Owed::Claim(i))?;
    }
    Ok(())
}

/// The claims of the paths that are left.
fn take_claims_behind<D: Domain>(
    tally: &mut Tally<'_, '_>,
    asked: &Asked<'_, D>,
    terrain: &Terrain<'_, D>,
    next: &mut Paths,
) -> Result<(), FindError>
    requires sound { IsSound tally.old }
    requires stands { Stands D.Domain terrain.now next.old }
    requires starts { stopped next.old ≡ None }
    requires denied { tally.old.stopped ≡ None → claims_fit (left_claims D.Domain terrain.now next.old) ≡ true }
    ensures sound { IfOk result (λ _. IsSound tally.new) }
    ensures takes { IfOk result (λ _. Takes (said_seen asked.now.said.now) (claim_owed asked.now.premises) claim_fits (left_claims D.Domain terrain.now next.old) [] tally.old tally.new) }
    ensures fails { IfErr result (Fails D.Domain terrain.now (said_seen asked.now.said.now) (claim_owed asked.now.premises) claim_fits (left_claims D.Domain terrain.now next.old) tally.old) }
{
    while let Some(path) = next.next(terrain)? {
        let met = alone(asked.alloc, path)?;
        take_claims(tally, asked, &met)?;
    }
    Ok(())
}

/// All claims: of the paths that are held, and of those behind them.
pub fn take_all_claims<D: Domain>(
    tally: &mut Tally<'_, '_>,
    asked: &Asked<'_, D>,
    terrain: &Terrain<'_, D>,
    met: &Met<D>,
    behind: &Paths,
) -> Result<(), FindError>
    requires sound { IsSound tally.old }
    requires stands { Stands D.Domain terrain.now behind.now }
    requires starts { stopped behind.now ≡ None }
    requires denied { tally.old.stopped ≡ None → claims_fit (met_claims met.now ++ left_claims D.Domain terrain.now behind.now) ≡ true }
    ensures sound { IfOk result (λ _. IsSound tally.new) }
    ensures takes { IfOk result (λ _. Takes (said_seen asked.now.said.now) (claim_owed asked.now.premises) claim_fits (met_claims met.now ++ left_claims D.Domain terrain.now behind.now) [] tally.old tally.new) }
    ensures fails { IfErr result (Fails D.Domain terrain.now (said_seen asked.now.said.now) (claim_owed asked.now.premises) claim_fits (met_claims met.now ++ left_claims D.Domain terrain.now behind.now) tally.old) }
{
    let mut next = behind.copy(terrain)?;
    take_claims(tally, asked, met)?;
    take_claims_behind(tally, asked, terrain, &mut next)
}
