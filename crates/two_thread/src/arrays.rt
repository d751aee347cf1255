//! The pairs of accesses that may clash, array by array.

ghost use Rattle.std.specs.Prelude.{◌≡◌, ◌++◌, ◌+◌, IfOk, MatchResult, map, length, drop};
ghost use Rattle.std.specs.List.{All};
ghost use Rattle.core_code.specs.View.{space as space_seen, kernel as core_seen};
ghost use Rattle.launch.specs.View.{conditions as conditions_seen};
ghost use Rattle.facts.specs.View.{three};
ghost use Rattle.obligations.specs.Crossings as specs;
ghost use Rattle.two_thread.specs.Refusals.{IsInside, IsOver};
ghost use Rattle.two_thread.specs.View.{crossing as crossing_seen, met_accesses, Adds};

use crate::crossings::{Crossing, Pairing, Scope, Sought, crossings_in};
use crate::fences::is_fenced;
use crate::met::Met;
use core_code::tree::{Core, Space};
use facts::WalkError;
use launch::conditions::Conditions;
use std::alloc::Global;

/// Adds the crossings of one array: within a group, and, if it is a buffer, across groups.
fn crossings_of<D: Copy>(
    found: &mut Vec<Crossing>,
    pairing: &Pairing<'_, D>,
    fenced: bool,
    space: Space,
    number: usize,
) -> Result<(), WalkError>
    ensures exact { MatchResult result (λ _. Adds (met_accesses pairing.now.met.now) found.old.items found.new.items (specs.crossings_of (three pairing.now.sizes) (conditions_seen pairing.now.conditions.now) (λ _. fenced) (met_accesses pairing.now.met.now) (space_seen space) number)) (IsOver pairing.now.most (length found.old.items + length (specs.crossings_of (three pairing.now.sizes) (conditions_seen pairing.now.conditions.now) (λ _. fenced) (met_accesses pairing.now.met.now) (space_seen space) number))) }
    ensures inside { IfOk result (λ _. All (IsInside (length pairing.now.met.now.accesses.items)) found.old.items → All (IsInside (length pairing.now.met.now.accesses.items)) found.new.items) }
{
    let within = Sought {
        space,
        number,
        fenced,
        scope: Scope::Within,
    };
    crossings_in(found, pairing, within)?;
    if let Space::Global = space {
        let across = Sought {
            scope: Scope::Across,
            ..within
        };
        crossings_in(found, pairing, across)?;
    }
    Ok(())
}

/// The pairs of all arrays of a space.
fn crossings_from<D: Copy, A>(
    found: &mut Vec<Crossing>,
    pairing: &Pairing<'_, D>,
    fenced: bool,
    space: Space,
    arrays: &[A],
) -> Result<(), WalkError>
    ensures exact { MatchResult result (λ _. Adds (met_accesses pairing.now.met.now) found.old.items found.new.items (specs.crossings_from (three pairing.now.sizes) (conditions_seen pairing.now.conditions.now) (λ _. fenced) (met_accesses pairing.now.met.now) (space_seen space) 0 arrays.now)) (IsOver pairing.now.most (length found.old.items + length (specs.crossings_from (three pairing.now.sizes) (conditions_seen pairing.now.conditions.now) (λ _. fenced) (met_accesses pairing.now.met.now) (space_seen space) 0 arrays.now))) }
    ensures inside { IfOk result (λ _. All (IsInside (length pairing.now.met.now.accesses.items)) found.old.items → All (IsInside (length pairing.now.met.now.accesses.items)) found.new.items) }
{
    for number in 0..arrays.len() {
        crossings_of(found, pairing, fenced, space, number)?;
    }
    Ok(())
}

/// All of a kernel, at most so many: those of its buffers, then those of its local arrays.
pub fn all_crossings<D: Copy>(
    alloc: Global,
    core: &Core,
    conditions: &Conditions,
    met: &Met<D>,
    most: usize,
) -> Result<Vec<Crossing>, WalkError>
    ensures exact { MatchResult result (λ v. map (crossing_seen (met_accesses met.now)) v.items ≡ specs.crossings (core_seen core.now) (conditions_seen conditions.now) (met_accesses met.now)) (IsOver most (length (specs.crossings (core_seen core.now) (conditions_seen conditions.now) (met_accesses met.now)))) }
    ensures inside { IfOk result (λ v. All (IsInside (length met.now.accesses.items)) v.items) }
{
    let mut found = Vec::new(alloc);
    let pairing = Pairing {
        sizes: core.sizes,
        conditions,
        met,
        most,
    };
    let body = core.body.as_slice();
    let global = is_fenced(body, Space::Global);
    let buffers = core.buffers.as_slice();
    crossings_from(&mut found, &pairing, global, Space::Global, buffers)?;
    let local = is_fenced(body, Space::Local);
    let arrays = core.arrays.as_slice();
    crossings_from(&mut found, &pairing, local, Space::Local, arrays)?;
    Ok(found)
}
