//! What a `switch` goes by, where its labels stand alone.

ghost use Rattle.std.specs.Prelude.{◌≡◌, map};
ghost use Rattle.core_code.specs.View.{site as site_seen, term, unary_operator};
ghost use Rattle.opencl_tree.specs.View.{expression, statement as statement_seen, statements as statements_seen};
ghost use Rattle.opencl_values.specs.View.{Gives, single};
ghost use Rattle.opencl_core.specs.Choosing as rules;
ghost use Rattle.opencl_core.specs.ChoosingView.{label, maybe_label, met};
ghost use Rattle.opencl_core.specs.View as seen;

use crate::constants::constant_of;
use crate::drawing::draw_whole;
use crate::rooms::Room;
use crate::sites::begin_of;
use core_code::tree::{Site, Term, UnaryOperator};
use opencl_jumps::made::choice_name;
use opencl_tree::tree::{Expr, Stmt};
use opencl_values::error::{Construct, Fault, ValueError, refused};
use opencl_values::singles::{Single, alone};
use opencl_values::values::value_of;
use opencl_values::wholes::only;
use std::alloc::Global;

/// A number below 2^31, perhaps with a sign.
#[derive(Clone, Copy)]
pub struct Label {
    pub below: bool,
    pub size: u32,
}

fn above(of: Option<u32>) -> Option<Label>
    ensures { maybe_label result ≡ rules.above of }
{
    match of {
        None => None,
        Some(size) => Some(Label { below: false, size }),
    }
}

fn negated(of: Option<u32>) -> Option<Label>
    ensures { maybe_label result ≡ rules.negated of }
{
    match of {
        None => None,
        Some(size) => Some(Label {
            below: size != 0,
            size,
        }),
    }
}

fn signed(operator: UnaryOperator, of: Option<u32>) -> Option<Label>
    ensures { maybe_label result ≡ rules.signed (unary_operator operator) of }
{
    match operator {
        UnaryOperator::Negate => negated(of),
        _ => None,
    }
}

fn label_in(of: &Term) -> Option<Label>
    ensures { maybe_label result ≡ rules.label_in (term of.now) }
{
    match of {
        Term::Unary { operator, of, .. } => signed(*operator, constant_of(of)),
        _ => above(constant_of(of)),
    }
}

fn is_same_sign(a: bool, b: bool) -> bool
    ensures { result ≡ rules.is_same_sign a b }
{
    a && b || !a && !b
}

fn is_same(a: Label, b: Label) -> bool
    ensures { result ≡ rules.is_same (label a) (label b) }
{
    is_same_sign(a.below, b.below) && a.size == b.size
}

fn is_among(labels: &[Label], of: Label) -> bool
    ensures { result ≡ rules.is_among (map label labels.now) (label of) }
{
    for one in labels {
        if is_same(*one, of) {
            return true;
        }
    }
    false
}

// The value of an integer type.
fn single_of(alloc: Global, of: &Expr, room: &Room) -> Result<Single, ValueError>
    ensures { Gives single result (rules.single_of (expression of.now) (seen.room room.now)) }
{
    let value = value_of(alloc, room.known(), of)?;
    let value = only(begin_of(of), value)?;
    if value.scalar.is_float() {
        return refused(Fault::WrongType, begin_of(of));
    }
    Ok(value)
}

fn label_of(alloc: Global, of: &Expr, room: &Room) -> Result<Label, ValueError>
    ensures { Gives label result (rules.label_of (expression of.now) (seen.room room.now)) }
{
    let value = single_of(alloc, of, room)?;
    match label_in(&value.term) {
        None => refused(Fault::LeftOut(Construct::Choice), begin_of(of)),
        Some(label) => Ok(label),
    }
}

/// Labels that were met, and whether `default` was.
#[derive(Drop)]
pub struct Met {
    pub labels: Vec<Label>,
    pub others: bool,
}

fn meet_case(at: Site, of: Label, so: &mut Met) -> Result<(), ValueError>
    ensures { Gives (λ _. met so.new) result (rules.met_case (site_seen at) (label of) (met so.old)) }
{
    if is_among(&so.labels, of) {
        return refused(Fault::NameTwice, at);
    }
    so.labels.push(of)?;
    Ok(())
}

fn meet_default(at: Site, so: &mut Met) -> Result<(), ValueError>
    ensures { Gives (λ _. met so.new) result (rules.met_default (site_seen at) (met so.old)) }
{
    if so.others {
        return refused(Fault::NameTwice, at);
    }
    so.others = true;
    Ok(())
}

fn meet(
    alloc: Global,
    at: Site,
    statement: &Stmt,
    room: &Room,
    so: &mut Met,
) -> Result<(), ValueError>
    ensures { Gives (λ _. met so.new) result (rules.meet (site_seen at) (statement_seen statement.now) (seen.room room.now) (met so.old)) }
{
    match statement {
        Stmt::Case { site, value, .. } => {
            let label = label_of(alloc, value, room)?;
            meet_case(*site, label, so)
        }
        Stmt::Default { site, .. } => meet_default(*site, so),
        _ => refused(Fault::LeftOut(Construct::Choice), at),
    }
}

fn meet_all(
    alloc: Global,
    at: Site,
    labels: &[Stmt],
    room: &Room,
    so: &mut Met,
) -> Result<(), ValueError>
    ensures { Gives (λ _. met so.new) result (rules.meet_all (site_seen at) (statements_seen labels.now) (seen.room room.now) (met so.old)) }
{
    for statement in labels {
        meet(alloc, at, statement, room, so)?;
    }
    Ok(())
}

// The labels of a `switch`, of which none stands twice.
fn check_labels(alloc: Global, at: Site, labels: &[Stmt], room: &Room) -> Result<Met, ValueError>
    ensures { Gives met result (rules.meet_all (site_seen at) (statements_seen labels.now) (seen.room room.now) rules.none_met) }
{
    let mut so = Met {
        labels: Vec::new(alloc),
        others: false,
    };
    meet_all(alloc, at, labels, room, &mut so)?;
    Ok(so)
}

fn keep_choice<'a>(
    alloc: Global,
    at: Site,
    value: Single,
    room: &mut Room<'a>,
) -> Result<(), ValueError>
    ensures { Gives (λ _. seen.room room.new) result (rules.keep_choice (site_seen at) (single value) (seen.room room.old)) }
{
    let slot = room.next_slot(at)?;
    let of = alone(value.scalar.promoted());
    room.set(slot, value.term, at)?;
    room.declare_variable(alloc, at, choice_name(), of, true)
}

fn choose(alloc: Global, at: Site, test: &Expr, room: &mut Room) -> Result<(), ValueError>
    ensures { Gives (λ _. seen.room room.new) result (rules.choose (site_seen at) (expression test.now) (seen.room room.old)) }
{
    draw_whole(alloc, test, room)?;
    let value = single_of(alloc, test, room)?;
    keep_choice(alloc, at, value, room)
}

/// A `switch` with its labels alone: its test is kept in a variable.
#[tactic(auto, unfolding(crate::specs::Choosing::write_choice))]
pub fn write_choice(
    alloc: Global,
    at: Site,
    test: &Expr,
    labels: &[Stmt],
    room: &mut Room,
) -> Result<(), ValueError>
    ensures { Gives (λ _. seen.room room.new) result (rules.write_choice (site_seen at) (expression test.now) (statements_seen labels.now) (seen.room room.old)) }
{
    let _met = check_labels(alloc, at, labels, room)?;
    choose(alloc, at, test, room)
}
