//! What the domain holds where a path begins.

ghost use Rattle.std.specs.Prelude.{◌≡◌, ◌++◌, ◌<◌, length, map, MatchResult};
ghost use Rattle.core_code.specs.View.{kernel as core_seen};
ghost use Rattle.facts.specs.Refusals.{IsMemory};
ghost use Rattle.facts.specs.Symbols.{number};
ghost use Rattle.walk_trees.specs.Walks.{any_of};
ghost use Rattle.path_steps.specs.View.{invented_seen, narrowed_seen};
ghost use Rattle.obligations.specs.View.{congruence as congruence_seen, multiple as multiple_seen};
ghost use Rattle.obligations.specs.Roots as roots;
ghost use Rattle.facts.specs.Families.{symbol_in};
ghost use Rattle.path_walk.specs.Slots.{HasSlots};

use crate::variables::count_of;
use arrival_claims::kind_at;
use core_code::tree::{Core, Site};
use domain::Domain;
use facts::{Family, Side, WalkError};
use obligations::{Congruence, Multiple};
use path_steps::{Invented, Narrowed, Spot, Value, any_of};
use std::alloc::Global;

/// A new symbol's element, from before the first statement.
fn invented_at_root<D: Domain>(element: D) -> Invented<D>
    ensures { invented_seen result ≡ element }
{
    Invented {
        spot: Spot {
            statement: 0,
            site: Site { line: 0, column: 0 },
        },
        element,
    }
}

/// The elements of the quotients of congruences, of which nothing is known.
fn tops<D: Domain>(alloc: Global, congruences: &[Congruence]) -> Result<Vec<Invented<D>>, WalkError>
    ensures { MatchResult result (λ v. map invented_seen v.items ≡ roots.tops D.Domain (map congruence_seen congruences.now)) IsMemory }
{
    let mut elements = Vec::new(alloc);
    for _ in congruences {
        elements.push(invented_at_root(D::top()))?;
    }
    Ok(elements)
}

/// Adds those of the quotients of multiples.
fn push_tops<D: Domain>(
    elements: &mut Vec<Invented<D>>,
    multiples: &[Multiple],
) -> Result<(), WalkError>
    ensures { MatchResult result (λ _. map invented_seen elements.new.items ≡ map invented_seen elements.old.items ++ roots.tops D.Domain (map multiple_seen multiples.now)) IsMemory }
{
    for _ in multiples {
        elements.push(invented_at_root(D::top()))?;
    }
    Ok(())
}

/// The elements of the quotients of congruences, then those of multiples.
pub fn root_news<D: Domain>(
    alloc: Global,
    congruences: &[Congruence],
    multiples: &[Multiple],
) -> Result<Vec<Invented<D>>, WalkError>
    ensures { MatchResult result (λ v. map invented_seen v.items ≡ roots.tops D.Domain (map congruence_seen congruences.now) ++ roots.tops D.Domain (map multiple_seen multiples.now)) IsMemory }
{
    let mut elements = tops(alloc, congruences)?;
    push_tops(&mut elements, multiples)?;
    Ok(elements)
}

/// A variable is a number of its kind.
fn slot_narrowed<D: Domain>(core: &Core, family: Family, slot: usize) -> Narrowed<D>
    requires { slot < 576460752303423488 }
    ensures { narrowed_seen result ≡ record { symbol = number (symbol_in family slot); element = any_of D.Domain (roots.kind_of (core_seen core.now) slot) } }
{
    let element = any_of(kind_at(core, slot));
    Narrowed {
        symbol: family.symbol(slot as u64),
        element,
    }
}

/// Adds, for each variable, that the domain holds it to be a number of its kind.
fn push_narrowed<D: Domain>(
    narrowed: &mut Vec<Narrowed<D>>,
    core: &Core,
    variables: &[Value],
    family: Family,
) -> Result<(), WalkError>
    requires { length variables.now ≡ length (roots.kinds (core_seen core.now)) }
    ensures { MatchResult result (λ _. map narrowed_seen narrowed.new.items ≡ map narrowed_seen narrowed.old.items ++ roots.narrowed_from D.Domain (symbol_in family) 0 (roots.kinds (core_seen core.now))) IsMemory }
{
    for slot in 0..count_of(variables) {
        narrowed.push(slot_narrowed(core, family, slot))?;
    }
    Ok(())
}

/// The variables of a place, and at a loop those of the anchor too.
pub fn root_narrowed<D: Domain>(
    alloc: Global,
    core: &Core,
    variables: &[Value],
    anchor: Option<u32>,
    head: Option<u32>,
) -> Result<Vec<Narrowed<D>>, WalkError>
    requires { HasSlots (core_seen core.now) anchor head (length variables.now) }
    ensures { MatchResult result (λ v. map narrowed_seen v.items ≡ roots.root_narrowed D.Domain (core_seen core.now) anchor head) IsMemory }
{
    let mut narrowed = Vec::new(alloc);
    if anchor.is_some() || head.is_some() {
        push_narrowed(
            &mut narrowed,
            core,
            variables,
            Family::Variable(Side::First),
        )?;
    }
    if head.is_some() {
        push_narrowed(
            &mut narrowed,
            core,
            variables,
            Family::AtAnchor(Side::First),
        )?;
    }
    Ok(narrowed)
}
