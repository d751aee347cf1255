//! Expressions with effects, drawn out.

ghost use Rattle.std.specs.Prelude.{◌≡◌, IfOk, Ok, true, false};
ghost use Rattle.core_code.specs.View.{site as site_seen, statement as statement_seen, term};
ghost use Rattle.words.specs.View.{kind as kind_seen};
ghost use Rattle.syntax.specs.View.{assign_sign, infix_sign};
ghost use Rattle.opencl_tree.specs.View.{expression, expressions, side as side_seen, step_sign as step_sign_seen};
ghost use Rattle.opencl_terms.specs.View.{scalar as scalar_seen};
ghost use Rattle.opencl_effects.specs.View.{sort as sort_seen};
ghost use Rattle.opencl_values.specs.View.{Gives, single as single_seen, value as value_seen};
ghost use Rattle.opencl_core.specs.Drawing as rules;
ghost use Rattle.opencl_core.specs.View as seen;

use crate::assigning::{Change, assigned, change_at, effect, is_void, step_sign};
use crate::calling::draw_call;
use crate::components::set_picked;
use crate::parts::{no_part, put_if};
use crate::rooms::{Part, Room};
use crate::sites::begin_of;
use core_code::tree::{Site, Statement, Term};
use kernel_names::{Sort as Standings, Standing};
use opencl_effects::effects::{
    clash, clash_among, clash_assigned, has_effect, is_helper, stores_twice,
};
use opencl_effects::marks::{Sort, places_are_apart};
use opencl_terms::scalars::{Scalar, is_unsettled};
use opencl_tree::tree::{Expr, Side, StepSign};
use opencl_values::error::{Construct, Fault, ValueError, refused};
use opencl_values::operations::infix_of;
use opencl_values::singles::{Single, alone, as_scalar, as_test, scalar_of_both};
use opencl_values::values::value_of;
use opencl_values::wholes::{Value, only, places, whole};
use std::alloc::{AllocError, Global};
use syntax::tree::{AssignSign, InfixSign};
use words::Kind;

// Keeps a value in variables that are made up.
fn keep(alloc: Global, at: Site, value: &Value, room: &mut Room) -> Result<u32, ValueError>
    ensures { Gives (λ slot. (slot, seen.room room.new)) result (rules.keep (site_seen at) (value_seen value.now) (seen.room room.old)) }
{
    let kind = value.of.scalar.kind(room.ids);
    let width = value.of.width;
    let slot = room.next_slots(at, width)?;
    set_picked(alloc, at, slot, value, places(width), room)?;
    room.make_all_up(alloc, at, kind, width)?;
    Ok(slot)
}

fn keep_drawn(
    alloc: Global,
    sort: Sort,
    at: Site,
    value: &Value,
    room: &mut Room,
) -> Result<(), ValueError>
    ensures { Gives (λ _. seen.room room.new) result (rules.keep_drawn (sort_seen sort) (site_seen at) (value_seen value.now) (seen.room room.old)) }
{
    let slot = keep(alloc, at, value, room)?;
    room.push_drawn(sort, at, value.of, slot)?;
    Ok(())
}

fn draw_value(
    alloc: Global,
    sort: Sort,
    at: Site,
    of: &Expr,
    room: &mut Room,
) -> Result<(), ValueError>
    ensures { Gives (λ _. seen.room room.new) result (rules.draw_value (sort_seen sort) (site_seen at) (expression of.now) (seen.room room.old)) }
{
    let value = value_of(alloc, room.known(), of)?;
    keep_drawn(alloc, sort, at, &value, room)
}

// A value that is not used.
fn dropped(alloc: Global, of: &Expr, room: &mut Room) -> Result<(), ValueError>
    ensures { Gives (λ _. seen.room room.new) result (rules.dropped (expression of.now) (seen.room room.old)) }
{
    let value = value_of(alloc, room.known(), of)?;
    keep(alloc, begin_of(of), &value, room)?;
    Ok(())
}

fn assign_change<'a>(at: Site, sign: AssignSign, target: &'a Expr, value: &'a Expr) -> Change<'a>
    ensures { seen.change result ≡ rules.assign_change (site_seen at) (assign_sign sign) (expression target.now) (expression value.now) }
{
    Change {
        at: begin_of(target),
        sign,
        sign_site: at,
        value: Some(value),
    }
}

// Where a step begins.
fn step_begin(at: Site, side: Side, target: &Expr) -> Site
    ensures { site_seen result ≡ rules.step_begin (site_seen at) (side_seen side) (expression target.now) }
{
    match side {
        Side::Before => at,
        Side::Behind => begin_of(target),
    }
}

fn step_change(at: Site, side: Side, sign: StepSign, target: &Expr) -> Change<'static>
    ensures { seen.change result ≡ rules.step_change (site_seen at) (side_seen side) (step_sign_seen sign) (expression target.now) }
{
    Change {
        at: step_begin(at, side, target),
        sign: step_sign(sign),
        sign_site: at,
        value: None,
    }
}

// A store of the value that was kept for a whole assignment.
fn storing_kept<'a>(change: Change<'a>, of: &'a Expr) -> Change<'a>
    ensures { seen.change result ≡ rules.storing_kept (seen.change change.entry) (expression of.now) }
{
    Change {
        at: change.at,
        sign: AssignSign::Plain,
        sign_site: change.sign_site,
        value: Some(of),
    }
}

// The value of an assignment, in the type of its target.
fn new_value(alloc: Global, change: Change, target: &Expr, room: &Room) -> Result<Value, ValueError>
    ensures { Gives value_seen result (rules.new_value (seen.change change.entry) (expression target.now) (seen.room room.now)) }
{
    let old = value_of(alloc, room.known(), target)?;
    let of = old.of;
    assigned(alloc, change, of, old, room)
}

fn draw_new<'a>(
    alloc: Global,
    sort: Sort,
    change: Change<'a>,
    of: &'a Expr,
    target: &Expr,
    room: &mut Room,
) -> Result<(), ValueError>
    ensures { Gives (λ _. seen.room room.new) result (rules.draw_new (sort_seen sort) (seen.change change.entry) (expression of.now) (expression target.now) (seen.room room.old)) }
{
    let value = new_value(alloc, change, target, room)?;
    keep_drawn(alloc, sort, change.sign_site, &value, room)?;
    change_at(alloc, storing_kept(change, of), target, room)
}

fn draw_old(alloc: Global, change: Change, target: &Expr, room: &mut Room) -> Result<(), ValueError>
    ensures { Gives (λ _. seen.room room.new) result (rules.draw_old (seen.change change.entry) (expression target.now) (seen.room room.old)) }
{
    draw_value(alloc, Sort::OfStep, change.sign_site, target, room)?;
    change_at(alloc, change, target, room)
}

// Whether an operator is `&&`, else it is `||`.
fn logical_sign(is_and: bool) -> InfixSign
    ensures { infix_sign result ≡ rules.logical_sign is_and }
{
    if is_and {
        InfixSign::LogicalAnd
    } else {
        InfixSign::LogicalOr
    }
}

fn neutral(is_and: bool) -> Single
    ensures { single_seen result ≡ rules.neutral is_and }
{
    if is_and {
        Single {
            scalar: Scalar::Int,
            term: Term::Literal {
                kind: Kind::Int,
                value: 1,
            },
        }
    } else {
        Single {
            scalar: Scalar::Int,
            term: Term::Literal {
                kind: Kind::Int,
                value: 0,
            },
        }
    }
}

// An operand of `&&` or `||` as 0 or 1.
fn tested(
    alloc: Global,
    is_and: bool,
    at: Site,
    of: &Expr,
    room: &Room,
) -> Result<Single, ValueError>
    ensures { Gives single_seen result (rules.tested is_and (site_seen at) (expression of.now) (seen.room room.now)) }
{
    let value = value_of(alloc, room.known(), of)?;
    let single = only(at, value)?;
    infix_of(
        alloc,
        room.ids,
        logical_sign(is_and),
        at,
        single,
        neutral(is_and),
    )
}

// Keeps the left operand of `&&` or `||` as 0 or 1.
fn keep_tested(
    alloc: Global,
    is_and: bool,
    at: Site,
    left: &Expr,
    room: &mut Room,
) -> Result<u32, ValueError>
    ensures { Gives (λ slot. (slot, seen.room room.new)) result (rules.keep_tested is_and (site_seen at) (expression left.now) (seen.room room.old)) }
{
    let single = tested(alloc, is_and, at, left, room)?;
    let value = whole(alloc, single)?;
    keep(alloc, at, &value, room)
}

fn set_tested(
    alloc: Global,
    is_and: bool,
    at: Site,
    of: &Expr,
    slot: u32,
    room: &mut Room,
) -> Result<(), ValueError>
    ensures { Gives (λ _. seen.room room.new) result (rules.set_tested is_and (site_seen at) (expression of.now) slot (seen.room room.old)) }
{
    let value = tested(alloc, is_and, at, of, room)?;
    room.set(slot, value.term, at)
}

// Puts the part that evaluates the right operand.
fn put_right(
    alloc: Global,
    is_and: bool,
    at: Site,
    number: u32,
    slot: u32,
    part: Part,
    room: &mut Room,
) -> Result<(), ValueError>
    ensures { Gives (λ _. seen.room room.new) result (Ok (rules.put_right is_and (site_seen at) number slot (seen.part part) (seen.room room.old))) }
{
    let test = Term::Variable { slot };
    let nothing = no_part(alloc);
    if is_and {
        put_if(at, number, test, part, nothing, room)
    } else {
        put_if(at, number, test, nothing, part, room)
    }
}

/// A test as a term.
pub fn test_of(alloc: Global, of: &Expr, room: &Room) -> Result<Term, ValueError>
    ensures { Gives term result (rules.test_of (expression of.now) (seen.room room.now)) }
{
    let value = value_of(alloc, room.known(), of)?;
    let single = only(begin_of(of), value)?;
    Ok(as_test(alloc, room.ids, begin_of(of), single)?)
}

/// The number and the test of an `if`.
pub fn counted_test(
    alloc: Global,
    at: Site,
    test: &Expr,
    room: &mut Room,
) -> Result<(u32, Term), ValueError>
    ensures { Gives (λ x. (x.0, term x.1, seen.room room.new)) result (rules.counted_test (site_seen at) (expression test.now) (seen.room room.old)) }
{
    let number = room.count(at)?;
    let test = test_of(alloc, test, room)?;
    Ok((number, test))
}

/// An arm of `?:`, apart: its value, and the number of the statement that is to keep it.
#[derive(Drop)]
pub struct Arm {
    pub part: Part,
    pub value: Single,
    pub number: u32,
}

// A part with one statement more.
#[tactic(auto, using(crate::proofs::Lists::behind_others, crate::proofs::Trees::parts))]
fn with_last(statement: Statement, at: Site, part: Part) -> Result<Part, AllocError>
    ensures { IfOk result (λ p. seen.part p ≡ rules.with_last (statement_seen statement) (site_seen at) (seen.part part)) }
{
    let number = statement.number();
    let Part {
        mut statements,
        mut standings,
    } = part;
    statements.push(statement)?;
    standings.push(Standing {
        number,
        site: at,
        sort: Standings::Other,
        last: number,
    })?;
    Ok(Part {
        statements,
        standings,
    })
}

fn arm_kept(
    alloc: Global,
    ids: Kind,
    at: Site,
    to: Scalar,
    slot: u32,
    arm: Arm,
) -> Result<Part, AllocError>
    ensures { IfOk result (λ p. seen.part p ≡ rules.arm_kept (kind_seen ids) (site_seen at) (scalar_seen to) slot (seen.arm arm)) }
{
    let Arm {
        part,
        value,
        number,
    } = arm;
    let value = as_scalar(alloc, ids, to, at, value)?;
    let statement = Statement::Set {
        number,
        slot,
        value,
    };
    with_last(statement, at, part)
}

// Puts the `if` of a choice, of which both arms are written.
fn put_choice(
    alloc: Global,
    counted: (Site, u32, Term),
    to: Scalar,
    slot: u32,
    arms: (Arm, Arm),
    room: &mut Room,
) -> Result<(), ValueError>
    ensures { Gives (λ _. seen.room room.new) result (Ok (rules.put_choice (site_seen counted.0) counted.1 (term counted.2) (scalar_seen to) slot (seen.arm arms.0) (seen.arm arms.1) (seen.room room.old))) }
{
    let (at, number, test) = counted;
    let (taken, skipped) = arms;
    let taken = arm_kept(alloc, room.ids, at, to, slot, taken)?;
    let skipped = arm_kept(alloc, room.ids, at, to, slot, skipped)?;
    put_if(at, number, test, taken, skipped, room)
}

fn keep_choice(
    alloc: Global,
    counted: (Site, u32, Term),
    to: Scalar,
    arms: (Arm, Arm),
    room: &mut Room,
) -> Result<(), ValueError>
    ensures { Gives (λ _. seen.room room.new) result (rules.keep_choice (site_seen counted.0) counted.1 (term counted.2) (scalar_seen to) (seen.arm arms.0) (seen.arm arms.1) (seen.room room.old)) }
{
    let at = counted.0;
    let slot = room.next_slot(at)?;
    put_choice(alloc, counted, to, slot, arms, room)?;
    let kind = to.kind(room.ids);
    room.make_up(alloc, at, kind)?;
    room.push_drawn(Sort::OfChoice, at, alone(to), slot)?;
    Ok(())
}

// The part that evaluates the right operand of `&&` or `||`.
#[cycle(drawing)]
fn right_part(
    alloc: Global,
    is_and: bool,
    at: Site,
    right: &Expr,
    slot: u32,
    room: &mut Room,
) -> Result<Part, ValueError>
    ensures { Gives (λ p. (seen.part p, seen.room room.new)) result (rules.right_part (rules.draw (expression right.now)) is_and (site_seen at) (expression right.now) slot (seen.room room.old)) }
{
    let before = room.set_apart(alloc);
    draw(alloc, right, room)?;
    set_tested(alloc, is_and, at, right, slot, room)?;
    Ok(room.rejoin(before))
}

#[cycle(drawing)]
fn draw_right(
    alloc: Global,
    is_and: bool,
    at: Site,
    right: &Expr,
    slot: u32,
    room: &mut Room,
) -> Result<(), ValueError>
    ensures { Gives (λ _. seen.room room.new) result (rules.draw_right (rules.draw (expression right.now)) is_and (site_seen at) (expression right.now) slot (seen.room room.old)) }
{
    let number = room.count(at)?;
    let part = right_part(alloc, is_and, at, right, slot, room)?;
    put_right(alloc, is_and, at, number, slot, part, room)
}

#[cycle(drawing)]
fn draw_logical(
    alloc: Global,
    is_and: bool,
    at: Site,
    left: &Expr,
    right: &Expr,
    room: &mut Room,
) -> Result<(), ValueError>
    ensures { Gives (λ _. seen.room room.new) result (rules.draw_logical (rules.draw (expression right.now)) is_and (site_seen at) (expression left.now) (expression right.now) (seen.room room.old)) }
{
    let slot = keep_tested(alloc, is_and, at, left, room)?;
    draw_right(alloc, is_and, at, right, slot, room)?;
    room.push_drawn(Sort::OfLogical, at, alone(Scalar::Int), slot)?;
    Ok(())
}

#[cycle(drawing)]
fn logical_drawn(
    alloc: Global,
    is_and: bool,
    at: Site,
    left: &Expr,
    right: &Expr,
    room: &mut Room,
) -> Result<(), ValueError>
    ensures { Gives (λ _. seen.room room.new) result (rules.logical_drawn (rules.draw (expression right.now)) is_and (site_seen at) (expression left.now) (expression right.now) (seen.room room.old)) }
{
    if has_effect(&room.helpers, right) {
        draw_logical(alloc, is_and, at, left, right, room)
    } else {
        Ok(())
    }
}

// Two operands, and what comes of them.
#[cycle(drawing)]
#[tactic(auto, unfolding(crate::specs::Drawing::draw_infix))]
fn draw_infix(
    alloc: Global,
    at: Site,
    sign: InfixSign,
    left: &Expr,
    right: &Expr,
    room: &mut Room,
) -> Result<(), ValueError>
    ensures { Gives (λ _. seen.room room.new) result (rules.draw_infix (rules.draw (expression left.now)) (rules.draw (expression right.now)) (site_seen at) (infix_sign sign) (expression left.now) (expression right.now) (seen.room room.old)) }
{
    match sign {
        InfixSign::LogicalAnd => {
            draw(alloc, left, room)?;
            logical_drawn(alloc, true, at, left, right, room)
        }
        InfixSign::LogicalOr => {
            draw(alloc, left, room)?;
            logical_drawn(alloc, false, at, left, right, room)
        }
        InfixSign::Arithmetic(_)
        | InfixSign::LeftShift
        | InfixSign::RightShift
        | InfixSign::Comparison(_) => {
            if clash(&room.helpers, left, right) {
                return refused(Fault::LeftOut(Construct::Effect), at);
            }
            draw(alloc, left, room)?;
            draw(alloc, right, room)
        }
    }
}

// The value of an arm of `?:`, which is a scalar.
fn arm_value(alloc: Global, at: Site, of: &Expr, room: &Room) -> Result<Single, ValueError>
    ensures { Gives single_seen result (rules.arm_value (site_seen at) (expression of.now) (seen.room room.now)) }
{
    let value = value_of(alloc, room.known(), of)?;
    only(at, value)
}

#[cycle(drawing)]
fn draw_arm(alloc: Global, at: Site, of: &Expr, room: &mut Room) -> Result<Arm, ValueError>
    ensures { Gives (λ a. (seen.arm a, seen.room room.new)) result (rules.draw_arm (rules.draw (expression of.now)) (site_seen at) (expression of.now) (seen.room room.old)) }
{
    let before = room.set_apart(alloc);
    draw(alloc, of, room)?;
    let value = arm_value(alloc, at, of, room)?;
    let number = room.count(at)?;
    let part = room.rejoin(before);
    Ok(Arm {
        part,
        value,
        number,
    })
}

#[cycle(drawing)]
fn both_arms(
    alloc: Global,
    at: Site,
    taken: &Expr,
    skipped: &Expr,
    room: &mut Room,
) -> Result<(Arm, Arm), ValueError>
    ensures { Gives (λ x. (seen.arm x.0, seen.arm x.1, seen.room room.new)) result (rules.both_arms (rules.draw (expression taken.now)) (rules.draw (expression skipped.now)) (site_seen at) (expression taken.now) (expression skipped.now) (seen.room room.old)) }
{
    let taken = draw_arm(alloc, at, taken, room)?;
    let skipped = draw_arm(alloc, at, skipped, room)?;
    Ok((taken, skipped))
}

#[cycle(drawing)]
fn draw_choice(
    alloc: Global,
    at: Site,
    test: &Expr,
    taken: &Expr,
    skipped: &Expr,
    room: &mut Room,
) -> Result<(), ValueError>
    ensures { Gives (λ _. seen.room room.new) result (rules.draw_choice (rules.draw (expression taken.now)) (rules.draw (expression skipped.now)) (site_seen at) (expression test.now) (expression taken.now) (expression skipped.now) (seen.room room.old)) }
{
    let (number, test) = counted_test(alloc, at, test, room)?;
    let arms = both_arms(alloc, at, taken, skipped, room)?;
    if is_unsettled(arms.0.value.scalar, arms.1.value.scalar) {
        return refused(Fault::LeftOut(Construct::Long), at);
    }
    let to = scalar_of_both(arms.0.value.scalar, arms.1.value.scalar);
    keep_choice(alloc, (at, number, test), to, arms, room)
}

#[cycle(drawing)]
fn choice_drawn(
    alloc: Global,
    at: Site,
    test: &Expr,
    taken: &Expr,
    skipped: &Expr,
    room: &mut Room,
) -> Result<(), ValueError>
    ensures { Gives (λ _. seen.room room.new) result (rules.choice_drawn (rules.draw (expression taken.now)) (rules.draw (expression skipped.now)) (site_seen at) (expression test.now) (expression taken.now) (expression skipped.now) (seen.room room.old)) }
{
    if has_effect(&room.helpers, taken) || has_effect(&room.helpers, skipped) {
        draw_choice(alloc, at, test, taken, skipped, room)
    } else {
        Ok(())
    }
}

#[cycle(drawing)]
#[tactic(auto, unfolding(crate::specs::Drawing::draw_all))]
fn draw_all(alloc: Global, of: &[Expr], room: &mut Room) -> Result<(), ValueError>
    ensures { Gives (λ _. seen.room room.new) result (rules.draw_all (expressions of.now) (seen.room room.old)) }
{
    for one in of {
        draw(alloc, one, room)?;
    }
    Ok(())
}

// The arguments of a call, or the parts of a vector.
#[cycle(drawing)]
fn draw_listed(alloc: Global, at: Site, of: &[Expr], room: &mut Room) -> Result<(), ValueError>
    ensures { Gives (λ _. seen.room room.new) result (rules.draw_listed (rules.draw_all (expressions of.now)) (site_seen at) (expressions of.now) (seen.room room.old)) }
{
    if clash_among(&room.helpers, of) {
        return refused(Fault::LeftOut(Construct::Effect), at);
    }
    draw_all(alloc, of, room)
}

// A step, whose target is drawn.
fn draw_step(
    alloc: Global,
    change: Change,
    side: Side,
    of: &Expr,
    target: &Expr,
    room: &mut Room,
) -> Result<(), ValueError>
    ensures { Gives (λ _. seen.room room.new) result (rules.draw_step (seen.change change.entry) (side_seen side) (expression of.now) (expression target.now) (seen.room room.old)) }
{
    match side {
        Side::Before => draw_new(alloc, Sort::OfStep, change, of, target, room),
        Side::Behind => draw_old(alloc, change, target, room),
    }
}

/// Writes out what an expression stores, and keeps the values of its parts with effects.
#[cycle(drawing)]
#[tactic(auto, unfolding(crate::specs::Drawing::draw))]
pub fn draw(alloc: Global, of: &Expr, room: &mut Room) -> Result<(), ValueError>
    ensures { Gives (λ _. seen.room room.new) result (rules.draw (expression of.now) (seen.room room.old)) }
{
    match of {
        Expr::Integer { .. }
        | Expr::Real { .. }
        | Expr::Name { .. }
        | Expr::SizeofType { .. }
        | Expr::SizeofOf { .. } => Ok(()),
        Expr::Call {
            site,
            name,
            arguments,
        } => {
            draw_listed(alloc, *site, arguments.as_slice(), room)?;
            draw_call(alloc, *site, name.as_str(), arguments.as_slice(), room)
        }
        Expr::Vector { site, parts, .. } => draw_listed(alloc, *site, parts.as_slice(), room),
        Expr::Index { site, of, index } => {
            if clash(&room.helpers, of, index) {
                return refused(Fault::LeftOut(Construct::Effect), *site);
            }
            draw(alloc, of, room)?;
            draw(alloc, index, room)
        }
        Expr::Member { of, .. } | Expr::Prefix { of, .. } | Expr::Cast { of, .. } => {
            draw(alloc, of, room)
        }
        Expr::Step {
            site,
            side,
            sign,
            of: target,
        } => {
            if stores_twice(target, target) {
                return refused(Fault::LeftOut(Construct::Effect), *site);
            }
            draw(alloc, target, room)?;
            let change = step_change(*site, *side, *sign, target);
            draw_step(alloc, change, *side, of, target, room)
        }
        Expr::Infix {
            site,
            sign,
            left,
            right,
        } => draw_infix(alloc, *site, *sign, left, right, room),
        Expr::Conditional {
            site,
            test,
            taken,
            skipped,
        } => {
            draw(alloc, test, room)?;
            choice_drawn(alloc, *site, test, taken, skipped, room)
        }
        Expr::Assign {
            site,
            sign,
            target,
            value,
        } => {
            if clash_assigned(&room.helpers, *sign, target, value) {
                return refused(Fault::LeftOut(Construct::Effect), *site);
            }
            draw(alloc, target, room)?;
            draw(alloc, value, room)?;
            let change = assign_change(*site, *sign, target, value);
            draw_new(alloc, Sort::OfAssign, change, of, target, room)
        }
        Expr::Comma {
            site,
            first,
            second,
        } => {
            draw(alloc, first, room)?;
            dropped(alloc, first, room)?;
            draw(alloc, second, room)?;
            draw_value(alloc, Sort::OfComma, *site, second, room)
        }
    }
}

/// What was drawn for other expressions is forgotten.
pub fn begin(alloc: Global, room: &mut Room)
    ensures { seen.room room.new ≡ rules.begun (seen.room room.old) }
{
    room.drawn = Vec::new(alloc);
}

// What is drawn is found by its sort and its place, so that each needs one of its own.
fn ask_places(alloc: Global, of: &Expr, room: &Room) -> Result<(), ValueError>
    ensures { Gives (λ _. seen.room room.now) result (rules.apart_in (expression of.now) (seen.room room.now)) }
{
    if !places_are_apart(alloc, &room.helpers, of)? {
        return refused(Fault::LeftOut(Construct::Effect), begin_of(of));
    }
    Ok(())
}

fn draw_apart(alloc: Global, of: &Expr, room: &mut Room) -> Result<(), ValueError>
    ensures { Gives (λ _. seen.room room.new) result (rules.draw_apart (expression of.now) (seen.room room.old)) }
{
    ask_places(alloc, of, room)?;
    draw(alloc, of, room)
}

/// Draws a whole expression.
pub fn draw_whole(alloc: Global, of: &Expr, room: &mut Room) -> Result<(), ValueError>
    ensures { Gives (λ _. seen.room room.new) result (rules.draw_whole (expression of.now) (seen.room room.old)) }
{
    begin(alloc, room);
    if has_effect(&room.helpers, of) {
        draw_apart(alloc, of, room)
    } else {
        Ok(())
    }
}

// Whether something within an expression that stands alone has an effect.
fn has_inner(room: &Room, of: &Expr) -> bool
    ensures { result ≡ rules.has_inner (seen.room room.now) (expression of.now) }
{
    match of {
        Expr::Assign { target, value, .. } => {
            has_effect(&room.helpers, target) || has_effect(&room.helpers, value)
        }
        Expr::Step { of, .. } => has_effect(&room.helpers, of),
        Expr::Comma { first, second, .. } => has_inner(room, first) || has_inner(room, second),
        Expr::Cast { of, .. } => has_inner(room, of),
        _ => has_effect(&room.helpers, of),
    }
}

// Draws an expression, and drops its value.
fn draw_dropped(alloc: Global, of: &Expr, room: &mut Room) -> Result<(), ValueError>
    ensures { Gives (λ _. seen.room room.new) result (rules.draw_dropped (expression of.now) (seen.room room.old)) }
{
    draw(alloc, of, room)?;
    dropped(alloc, of, room)
}

// An expression whose value is not used.
fn perform(alloc: Global, of: &Expr, room: &mut Room) -> Result<(), ValueError>
    ensures { Gives (λ _. seen.room room.new) result (rules.perform (expression of.now) (seen.room room.old)) }
{
    match of {
        Expr::Assign {
            site,
            sign,
            target,
            value,
        } => {
            if clash_assigned(&room.helpers, *sign, target, value) {
                return refused(Fault::LeftOut(Construct::Effect), *site);
            }
            draw(alloc, target, room)?;
            draw(alloc, value, room)?;
            change_at(
                alloc,
                assign_change(*site, *sign, target, value),
                target,
                room,
            )
        }
        Expr::Step {
            site,
            side,
            sign,
            of: target,
        } => {
            if stores_twice(target, target) {
                return refused(Fault::LeftOut(Construct::Effect), *site);
            }
            draw(alloc, target, room)?;
            change_at(
                alloc,
                step_change(*site, *side, *sign, target),
                target,
                room,
            )
        }
        Expr::Comma { first, second, .. } => {
            perform(alloc, first, room)?;
            perform(alloc, second, room)
        }
        Expr::Cast { to, of: inner, .. } => {
            if is_void(&to.base, &to.stars) {
                perform(alloc, inner, room)
            } else {
                draw_dropped(alloc, of, room)
            }
        }
        Expr::Call { name, .. } => {
            if is_helper(&room.helpers, name.as_str()) {
                draw(alloc, of, room)
            } else {
                draw_dropped(alloc, of, room)
            }
        }
        _ => draw_dropped(alloc, of, room),
    }
}

fn perform_apart(alloc: Global, of: &Expr, room: &mut Room) -> Result<(), ValueError>
    ensures { Gives (λ _. seen.room room.new) result (rules.perform_apart (expression of.now) (seen.room room.old)) }
{
    ask_places(alloc, of, room)?;
    perform(alloc, of, room)
}

// Whether one of the expressions whose values are not used stores nothing.
fn is_plain(of: &Expr) -> bool
    ensures { result ≡ rules.is_plain (expression of.now) }
{
    match of {
        Expr::Assign { .. } | Expr::Step { .. } => false,
        Expr::Comma { first, second, .. } => is_plain(first) || is_plain(second),
        Expr::Cast { of, .. } => is_plain(of),
        _ => true,
    }
}

fn evaluate_begun(alloc: Global, of: &Expr, room: &mut Room) -> Result<(), ValueError>
    ensures { Gives (λ _. seen.room room.new) result (rules.evaluate_begun (expression of.now) (seen.room room.old)) }
{
    if has_inner(room, of) || is_plain(of) {
        perform_apart(alloc, of, room)
    } else {
        effect(alloc, of, room)
    }
}

/// Writes an expression whose value is not used.
pub fn evaluate(alloc: Global, of: &Expr, room: &mut Room) -> Result<(), ValueError>
    ensures { Gives (λ _. seen.room room.new) result (rules.evaluate (expression of.now) (seen.room room.old)) }
{
    begin(alloc, room);
    evaluate_begun(alloc, of, room)
}
