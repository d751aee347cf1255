//! Paths that are held, one after the other.

ghost use Rattle.std.specs.Prelude.{◌≡◌, ◌++◌, ◌∷◌, [], None, true, IfOk, IfErr, OnOk};
ghost use Rattle.facts.specs.Refusals.{IsMemory};
ghost use Rattle.obligations.specs.Owning.{all_own_accesses, all_own_ends};
ghost use Rattle.two_thread.specs.Paths.{accesses_seen, all_accesses, all_ends, ends_seen};
ghost use Rattle.walk.specs.Cursors.{IsUnfoundIn, Stands, stopped};
ghost use Rattle.entry_check.specs.Held.{Holds, IsWithoutLast};

use domain::Domain;
use facts::WalkError;
use std::alloc::Global;
use std::mem::replace;
use two_thread::{Met, Tagged};
use walk::{FindError, Paths, Terrain};

/// The room for paths that are held at once, counted in facts, claims and accesses. The last path may pass it.
const ROOM: usize = 8_192;

/// The room that is left behind a path.
fn room_behind<D: Copy>(room: usize, path: &Tagged<D>) -> usize {
    room.saturating_sub(path.path.facts.len())
        .saturating_sub(path.path.claims.len())
        .saturating_sub(path.path.accesses.len())
        .saturating_sub(1)
}

/// Holds these paths, and the next ones behind them, as long as there is room.
pub fn hold<D: Domain>(
    terrain: &Terrain<'_, D>,
    next: &mut Paths,
    from: Vec<Tagged<D>>,
) -> Result<Met<D>, FindError>
    requires stands { Stands D.Domain terrain.now next.old }
    requires starts { stopped next.old ≡ None }
    requires accesses { all_own_accesses (all_accesses from.items) ≡ true }
    requires ends { all_own_ends (all_ends from.items) ≡ true }
    ensures stands { OnOk result (Stands D.Domain terrain.now next.new) }
    ensures starts { OnOk result (stopped next.new ≡ None) }
    ensures holds { IfOk result (λ m. Holds D.Domain terrain.now next.old from.items next.new m.paths.items) }
    ensures unfound { IfErr result (IsUnfoundIn D.Domain terrain.now) }
{
    let mut paths = from;
    let mut room = ROOM;
    while room > 0 {
        let mut ahead = next.copy(terrain)?;
        let Some(path) = ahead.next(terrain)? else {
            break;
        };
        *next = ahead;
        room = room_behind(room, &path);
        paths.push(path)?;
    }
    let met = Met::of(terrain.setting.alloc, paths)?;
    Ok(met)
}

/// Holds a path, and the next ones behind it, as long as there is room.
pub fn hold_from<D: Domain>(
    terrain: &Terrain<'_, D>,
    next: &mut Paths,
    first: Tagged<D>,
) -> Result<Met<D>, FindError>
    requires stands { Stands D.Domain terrain.now next.old }
    requires starts { stopped next.old ≡ None }
    requires accesses { all_own_accesses (accesses_seen first) ≡ true }
    requires ends { all_own_ends (ends_seen first) ≡ true }
    ensures stands { OnOk result (Stands D.Domain terrain.now next.new) }
    ensures starts { OnOk result (stopped next.new ≡ None) }
    ensures holds { IfOk result (λ m. Holds D.Domain terrain.now next.old (first ∷ []) next.new m.paths.items) }
    ensures unfound { IfErr result (IsUnfoundIn D.Domain terrain.now) }
{
    let mut paths = Vec::new(terrain.setting.alloc);
    paths.push(first)?;
    hold(terrain, next, paths)
}

/// The paths that are held, and one more behind them.
fn with_last<D: Copy>(alloc: Global, met: Met<D>, path: Tagged<D>) -> Result<Met<D>, WalkError>
    requires accesses { all_own_accesses (accesses_seen path) ≡ true }
    requires ends { all_own_ends (ends_seen path) ≡ true }
    ensures paths { IfOk result (λ m. m.paths.items ≡ met.paths.items ++ path ∷ []) }
    ensures memory { IfErr result IsMemory }
{
    let mut paths = met.into_paths();
    paths.push(path)?;
    Met::of(alloc, paths)
}

/// The paths that are held without the last one.
fn without_last<D: Copy>(alloc: Global, met: Met<D>) -> Result<Met<D>, WalkError>
    ensures paths { IfOk result (λ m. IsWithoutLast met.paths.items m.paths.items) }
    ensures memory { IfErr result IsMemory }
{
    let mut paths = met.into_paths();
    let count = paths.len();
    paths.truncate(count.saturating_sub(1));
    Met::of(alloc, paths)
}

/// Puts a path behind those that are held. Where memory is wanted, nothing is held any more.
pub fn put_last<D: Copy>(alloc: Global, met: &mut Met<D>, path: Tagged<D>) -> Result<(), WalkError>
    requires accesses { all_own_accesses (accesses_seen path) ≡ true }
    requires ends { all_own_ends (ends_seen path) ≡ true }
    ensures paths { IfOk result (λ _. met.new.paths.items ≡ met.old.paths.items ++ path ∷ []) }
    ensures memory { IfErr result IsMemory }
{
    let nothing = Met::of(alloc, Vec::new(alloc))?;
    let held = replace(met, nothing);
    *met = with_last(alloc, held, path)?;
    Ok(())
}

/// Takes the last path away again.
pub fn drop_last<D: Copy>(alloc: Global, met: &mut Met<D>) -> Result<(), WalkError>
    ensures paths { IfOk result (λ _. IsWithoutLast met.old.paths.items met.new.paths.items) }
    ensures memory { IfErr result IsMemory }
{
    let nothing = Met::of(alloc, Vec::new(alloc))?;
    let held = replace(met, nothing);
    *met = without_last(alloc, held)?;
    Ok(())
}
