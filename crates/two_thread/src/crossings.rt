//! The pairs of accesses that may clash: which they are.

ghost use Rattle.std.specs.Prelude.{◌≡◌, ◌++◌, ◌+◌, ◌<◌, ℕ, List, pos, IfOk, MatchResult, map, length, drop};
ghost use Rattle.std.specs.List.{All};
ghost use Rattle.launch.specs.View.{conditions as conditions_seen};
ghost use Rattle.facts.specs.Launching.{count_range};
ghost use Rattle.facts.specs.View.{three};
ghost use Rattle.walk_trees.specs.Pairs as pairs;
ghost use Rattle.obligations.specs.Crossings as specs;
ghost use Rattle.path_steps.specs.View.{target as target_seen, spot as spot_seen};
ghost use Rattle.two_thread.specs.Refusals.{IsInside, IsOver};
ghost use Rattle.two_thread.specs.View.{scope as scope_seen, order as order_seen, crossing as crossing_seen, sought_array, met_access, met_accesses, Adds};

use crate::anchors::{is_space, same_anchor};
use crate::limit::push_one;
use crate::looking::{anchor_of, target_of};
use crate::met::Met;
use core_code::tree::Space;
use facts::WalkError;
use launch::conditions::Conditions;
use path_steps::{Spot, Target};

/// Items of one group, which differ in a local id, or of two groups, which differ in a group id.
#[derive(Clone, Copy)]
pub enum Scope {
    Within,
    Across,
}

/// The order of two items in a dimension: the first one's id is below the second one's, or above it.
#[derive(Clone, Copy)]
pub enum Order {
    Below,
    Above,
}

/// Two accesses by their numbers, the second one made by the second item, how the items differ, and whether both are in one visit of
/// their anchor.
#[derive(Clone, Copy)]
pub struct Crossing {
    pub first: usize,
    pub second: usize,
    pub scope: Scope,
    pub dimension: u32,
    pub order: Order,
    pub alike: bool,
}

/// A class of pairs of accesses: their array, whether every barrier fences its space, and the items.
#[derive(Clone, Copy)]
pub struct Sought {
    pub space: Space,
    pub number: usize,
    pub fenced: bool,
    pub scope: Scope,
}

/// The input from which pairs are formed: the local sizes, the conditions, the accesses that were met, and the most
/// pairs that there may be.
#[derive(Drop)]
pub struct Pairing<'a, D> {
    pub sizes: [u32; 3],
    pub conditions: &'a Conditions,
    pub met: &'a Met<D>,
    pub most: usize,
}

/// The largest group count of a dimension.
fn highest_count(conditions: &Conditions, dimension: u32) -> u32
    requires { dimension < 3 }
    ensures { pos result ≡ (count_range (conditions_seen conditions.now) dimension).high }
{
    match dimension {
        0 => conditions.groups.x.high,
        1 => conditions.groups.y.high,
        _ => conditions.groups.z.high,
    }
}

/// Two items of the scope can differ in their id of this dimension.
fn differs(sizes: [u32; 3], conditions: &Conditions, scope: Scope, dimension: u32) -> bool
    requires { dimension < 3 }
    ensures { result ≡ pairs.differs (three sizes) (conditions_seen conditions.now) (scope_seen scope) dimension }
{
    match scope {
        Scope::Within => sizes[dimension as usize] > 1,
        Scope::Across => highest_count(conditions, dimension) > 1,
    }
}

/// A target is in the array that is looked for.
fn is_array(sought: Sought, target: Target) -> bool
    ensures { result ≡ specs.is_array (sought_array sought) (target_seen target) }
{
    is_space(target.array.space, sought.space) && target.array.number as usize == sought.number
}

/// An access is of the array.
pub fn is_of<D: Copy>(sought: Sought, met: &Met<D>, i: usize) -> bool
    requires { i < length met.now.accesses.items }
    ensures { result ≡ specs.is_array (sought_array sought) (met_access met.now i).it.target }
{
    is_array(sought, target_of(met, i))
}

/// An access is a store.
fn is_store<D: Copy>(met: &Met<D>, i: usize) -> bool
    requires { i < length met.now.accesses.items }
    ensures { result ≡ (met_access met.now i).it.target.is_store }
{
    target_of(met, i).is_store
}

/// Two accesses are of the array, and one of them at least is a store.
fn conflict<D: Copy>(sought: Sought, met: &Met<D>, i: usize, j: usize) -> bool
    requires first { i < length met.now.accesses.items }
    requires second { j < length met.now.accesses.items }
    ensures { result ≡ specs.conflict (sought_array sought) (met_access met.now i) (met_access met.now j) }
{
    is_of(sought, met, i) && is_of(sought, met, j) && (is_store(met, i) || is_store(met, j))
}

/// Two items may be at anchors at one time: of a group, where every barrier fences the space, at one anchor alone.
fn may_meet(sought: Sought, first: Option<u32>, second: Option<u32>) -> bool
    ensures { result ≡ specs.may_meet sought.fenced (scope_seen sought.scope) first second }
{
    if !sought.fenced {
        return true;
    }
    match sought.scope {
        Scope::Within => same_anchor(first, second),
        Scope::Across => true,
    }
}

/// Adds two crossings of one dimension, one for each order of the items' ids in it, where the ids can differ there.
fn two_orders<D: Copy>(
    found: &mut Vec<Crossing>,
    most: usize,
    met: &Met<D>,
    differ: bool,
    below: Crossing,
) -> Result<(), WalkError>
    ensures exact { MatchResult result (λ _. Adds (met_accesses met.now) found.old.items found.new.items (specs.two_orders differ (met_access met.now below.first) (met_access met.now below.second) (scope_seen below.scope) below.alike below.dimension)) (IsOver most (length found.old.items + length (specs.two_orders differ (met_access met.now below.first) (met_access met.now below.second) (scope_seen below.scope) below.alike below.dimension))) }
    ensures inside { IfOk result (λ _. (n : ℕ) → IsInside n below → All (IsInside n) found.old.items → All (IsInside n) found.new.items) }
{
    if !differ {
        return Ok(());
    }
    push_one(
        found,
        most,
        Crossing {
            order: Order::Below,
            ..below
        },
    )?;
    push_one(
        found,
        most,
        Crossing {
            order: Order::Above,
            ..below
        },
    )?;
    Ok(())
}

/// Adds the crossings of two accesses in each of the three dimensions in which the items' ids can differ, both orders of each.
fn all_orders<D: Copy>(
    found: &mut Vec<Crossing>,
    pairing: &Pairing<'_, D>,
    sought: Sought,
    i: usize,
    j: usize,
) -> Result<(), WalkError>
    ensures exact { MatchResult result (λ _. Adds (met_accesses pairing.now.met.now) found.old.items found.new.items (specs.all_orders (three pairing.now.sizes) (conditions_seen pairing.now.conditions.now) (scope_seen sought.scope) sought.fenced (met_access pairing.now.met.now i) (met_access pairing.now.met.now j))) (IsOver pairing.now.most (length found.old.items + length (specs.all_orders (three pairing.now.sizes) (conditions_seen pairing.now.conditions.now) (scope_seen sought.scope) sought.fenced (met_access pairing.now.met.now i) (met_access pairing.now.met.now j)))) }
    ensures inside { IfOk result (λ _. (n : ℕ) → i < n → j < n → All (IsInside n) found.old.items → All (IsInside n) found.new.items) }
{
    let crossing = Crossing {
        first: i,
        second: j,
        scope: sought.scope,
        dimension: 0,
        order: Order::Below,
        alike: sought.fenced,
    };
    let x = differs(pairing.sizes, pairing.conditions, sought.scope, 0);
    two_orders(found, pairing.most, pairing.met, x, crossing)?;
    let y = differs(pairing.sizes, pairing.conditions, sought.scope, 1);
    two_orders(
        found,
        pairing.most,
        pairing.met,
        y,
        Crossing {
            dimension: 1,
            ..crossing
        },
    )?;
    let z = differs(pairing.sizes, pairing.conditions, sought.scope, 2);
    two_orders(
        found,
        pairing.most,
        pairing.met,
        z,
        Crossing {
            dimension: 2,
            ..crossing
        },
    )?;
    Ok(())
}

/// Adds the crossings of one access of each item, if these conflict and may meet.
pub fn with_one<D: Copy>(
    found: &mut Vec<Crossing>,
    pairing: &Pairing<'_, D>,
    sought: Sought,
    i: usize,
    j: usize,
) -> Result<(), WalkError>
    requires first { i < length pairing.now.met.now.accesses.items }
    requires second { j < length pairing.now.met.now.accesses.items }
    ensures exact { MatchResult result (λ _. Adds (met_accesses pairing.now.met.now) found.old.items found.new.items (specs.with_one (three pairing.now.sizes) (conditions_seen pairing.now.conditions.now) sought.fenced (sought_array sought) (scope_seen sought.scope) (met_access pairing.now.met.now i) (met_access pairing.now.met.now j))) (IsOver pairing.now.most (length found.old.items + length (specs.with_one (three pairing.now.sizes) (conditions_seen pairing.now.conditions.now) sought.fenced (sought_array sought) (scope_seen sought.scope) (met_access pairing.now.met.now i) (met_access pairing.now.met.now j)))) }
    ensures inside { IfOk result (λ _. All (IsInside (length pairing.now.met.now.accesses.items)) found.old.items → All (IsInside (length pairing.now.met.now.accesses.items)) found.new.items) }
{
    let met = pairing.met;
    if conflict(sought, met, i, j) && may_meet(sought, anchor_of(met, i), anchor_of(met, j)) {
        all_orders(found, pairing, sought, i, j)?;
    }
    Ok(())
}

/// An access with those of the second item from the same one on.
fn with_each<D: Copy>(
    found: &mut Vec<Crossing>,
    pairing: &Pairing<'_, D>,
    sought: Sought,
    i: usize,
) -> Result<(), WalkError>
    requires { i < length pairing.now.met.now.accesses.items }
    ensures exact { MatchResult result (λ _. Adds (met_accesses pairing.now.met.now) found.old.items found.new.items (specs.with_each (three pairing.now.sizes) (conditions_seen pairing.now.conditions.now) sought.fenced (sought_array sought) (scope_seen sought.scope) (met_access pairing.now.met.now i) (drop i (met_accesses pairing.now.met.now)))) (IsOver pairing.now.most (length found.old.items + length (specs.with_each (three pairing.now.sizes) (conditions_seen pairing.now.conditions.now) sought.fenced (sought_array sought) (scope_seen sought.scope) (met_access pairing.now.met.now i) (drop i (met_accesses pairing.now.met.now))))) }
    ensures inside { IfOk result (λ _. All (IsInside (length pairing.now.met.now.accesses.items)) found.old.items → All (IsInside (length pairing.now.met.now.accesses.items)) found.new.items) }
{
    for j in i..pairing.met.accesses.len() {
        with_one(found, pairing, sought, i, j)?;
    }
    Ok(())
}

/// The pairs of one array in one scope.
pub fn crossings_in<D: Copy>(
    found: &mut Vec<Crossing>,
    pairing: &Pairing<'_, D>,
    sought: Sought,
) -> Result<(), WalkError>
    ensures exact { MatchResult result (λ _. Adds (met_accesses pairing.now.met.now) found.old.items found.new.items (specs.crossings_in (three pairing.now.sizes) (conditions_seen pairing.now.conditions.now) sought.fenced (sought_array sought) (scope_seen sought.scope) (met_accesses pairing.now.met.now))) (IsOver pairing.now.most (length found.old.items + length (specs.crossings_in (three pairing.now.sizes) (conditions_seen pairing.now.conditions.now) sought.fenced (sought_array sought) (scope_seen sought.scope) (met_accesses pairing.now.met.now)))) }
    ensures inside { IfOk result (λ _. All (IsInside (length pairing.now.met.now.accesses.items)) found.old.items → All (IsInside (length pairing.now.met.now.accesses.items)) found.new.items) }
{
    for i in 0..pairing.met.accesses.len() {
        with_each(found, pairing, sought, i)?;
    }
    Ok(())
}

/// The source place of an access, by its number.
pub fn spot_of<D: Copy>(met: &Met<D>, i: usize) -> Spot
    requires { i < length met.now.accesses.items }
    ensures { spot_seen result ≡ (met_access met.now i).it.target.spot }
{
    target_of(met, i).spot
}
