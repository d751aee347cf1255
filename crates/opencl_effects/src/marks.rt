//! The places of operators by which what was written out before is found again.

ghost use Rattle.std.specs.Prelude.{◌≡◌, ◌||◌, OnOk, IfOk};
ghost use Rattle.core_code.specs.View.{site as site_seen};
ghost use Rattle.opencl_tree.specs.View.{expression, expressions};
ghost use Rattle.syntax.specs.View.{infix_sign};
ghost use Rattle.opencl_effects.specs.Effects as effects;
ghost use Rattle.opencl_effects.specs.Marks as rules;
ghost use Rattle.opencl_effects.specs.View as seen;

use crate::effects::{Helper, has_effect, is_helper};
use core_code::tree::Site;
use opencl_tree::tree::Expr;
use std::alloc::{AllocError, Global};
use syntax::tree::InfixSign;

const MOST_MARKS: usize = 1_024;

/// The sort of an operator that has a place.
#[derive(Clone, Copy)]
pub enum Sort {
    OfCall,
    OfStep,
    OfAssign,
    OfComma,
    OfLogical,
    OfChoice,
}

impl Sort {
    fn number(self) -> u8
        ensures { result ≡ rules.sort_number (seen.sort self) }
    {
        match self {
            Sort::OfCall => 0,
            Sort::OfStep => 1,
            Sort::OfAssign => 2,
            Sort::OfComma => 3,
            Sort::OfLogical => 4,
            Sort::OfChoice => 5,
        }
    }
}

/// A place, and what stands there.
#[derive(Clone, Copy)]
pub struct Mark {
    pub sort: Sort,
    pub site: Site,
}

/// Whether two places are the same, and what stands there is of one sort.
pub fn is_same(left: Mark, right: Mark) -> bool
    ensures { result ≡ rules.is_same (seen.mark left) (seen.mark right) }
{
    left.sort.number() == right.sort.number()
        && left.site.line == right.site.line
        && left.site.column == right.site.column
}

/// A mark, and whether its expression is written out before.
#[derive(Clone, Copy)]
pub struct Noted {
    pub mark: Mark,
    pub is_drawn: bool,
}

fn is_logical(sign: InfixSign) -> bool
    ensures { result ≡ rules.is_logical (infix_sign sign) }
{
    matches!(sign, InfixSign::LogicalAnd | InfixSign::LogicalOr)
}

fn note(is_drawn: bool, sort: Sort, site: Site, marks: &mut Vec<Noted>) -> Result<(), AllocError>
    ensures { OnOk result (seen.all_noted marks.new.items ≡ rules.noted is_drawn (seen.sort sort) (site_seen site) (seen.all_noted marks.old.items)) }
{
    marks.push(Noted {
        mark: Mark { sort, site },
        is_drawn,
    })?;
    Ok(())
}

fn note_infix(
    helpers: &[Helper],
    sign: InfixSign,
    site: Site,
    right: &Expr,
    marks: &mut Vec<Noted>,
) -> Result<(), AllocError>
    ensures { OnOk result (seen.all_noted marks.new.items ≡ rules.infix_noted (seen.helpers helpers.now) (infix_sign sign) (site_seen site) (expression right.now) (seen.all_noted marks.old.items)) }
{
    if is_logical(sign) {
        note(has_effect(helpers, right), Sort::OfLogical, site, marks)
    } else {
        Ok(())
    }
}

fn note_call(
    helpers: &[Helper],
    name: &str,
    site: Site,
    marks: &mut Vec<Noted>,
) -> Result<(), AllocError>
    ensures { OnOk result (seen.all_noted marks.new.items ≡ rules.call_noted (seen.helpers helpers.now) name.now (site_seen site) (seen.all_noted marks.old.items)) }
{
    if is_helper(helpers, name) {
        note(true, Sort::OfCall, site, marks)
    } else {
        Ok(())
    }
}

fn note_choice(
    helpers: &[Helper],
    site: Site,
    taken: &Expr,
    skipped: &Expr,
    marks: &mut Vec<Noted>,
) -> Result<(), AllocError>
    ensures { OnOk result (seen.all_noted marks.new.items ≡ rules.noted (effects.has_effect (seen.helpers helpers.now) (expression taken.now) || effects.has_effect (seen.helpers helpers.now) (expression skipped.now)) rules.OfChoice (site_seen site) (seen.all_noted marks.old.items)) }
{
    let is_drawn = has_effect(helpers, taken) || has_effect(helpers, skipped);
    note(is_drawn, Sort::OfChoice, site, marks)
}

// Pushes the marks of an expression.
#[cycle(marking)]
#[tactic(auto, using(crate::proofs::Rows::rows))]
fn push_marks(helpers: &[Helper], of: &Expr, marks: &mut Vec<Noted>) -> Result<(), AllocError>
    ensures { OnOk result (seen.all_noted marks.new.items ≡ rules.marks_behind (seen.helpers helpers.now) (seen.all_noted marks.old.items) (expression of.now)) }
{
    match of {
        Expr::Integer { .. }
        | Expr::Real { .. }
        | Expr::Name { .. }
        | Expr::SizeofType { .. }
        | Expr::SizeofOf { .. } => Ok(()),
        Expr::Call {
            site,
            name,
            arguments,
        } => {
            note_call(helpers, name.as_str(), *site, marks)?;
            push_all(helpers, arguments.as_slice(), marks)
        }
        Expr::Vector { parts, .. } => push_all(helpers, parts.as_slice(), marks),
        Expr::Index { of, index, .. } => {
            push_marks(helpers, of, marks)?;
            push_marks(helpers, index, marks)
        }
        Expr::Member { of, .. } | Expr::Prefix { of, .. } | Expr::Cast { of, .. } => {
            push_marks(helpers, of, marks)
        }
        Expr::Step { site, of, .. } => {
            note(true, Sort::OfStep, *site, marks)?;
            push_marks(helpers, of, marks)
        }
        Expr::Infix {
            site,
            sign,
            left,
            right,
        } => {
            note_infix(helpers, *sign, *site, right, marks)?;
            push_marks(helpers, left, marks)?;
            push_marks(helpers, right, marks)
        }
        Expr::Conditional {
            site,
            test,
            taken,
            skipped,
        } => {
            note_choice(helpers, *site, taken, skipped, marks)?;
            push_marks(helpers, test, marks)?;
            push_marks(helpers, taken, marks)?;
            push_marks(helpers, skipped, marks)
        }
        Expr::Assign {
            site,
            target,
            value,
            ..
        } => {
            note(true, Sort::OfAssign, *site, marks)?;
            push_marks(helpers, target, marks)?;
            push_marks(helpers, value, marks)
        }
        Expr::Comma {
            site,
            first,
            second,
        } => {
            note(true, Sort::OfComma, *site, marks)?;
            push_marks(helpers, first, marks)?;
            push_marks(helpers, second, marks)
        }
    }
}

#[cycle(marking)]
fn push_all(helpers: &[Helper], of: &[Expr], marks: &mut Vec<Noted>) -> Result<(), AllocError>
    ensures { OnOk result (seen.all_noted marks.new.items ≡ rules.marks_in (seen.helpers helpers.now) (seen.all_noted marks.old.items) (expressions of.now)) }
{
    for one in of {
        push_marks(helpers, one, marks)?;
    }
    Ok(())
}

fn meets(left: Noted, right: Noted) -> bool
    ensures { result ≡ rules.meets (seen.noted left) (seen.noted right) }
{
    is_same(left.mark, right.mark) && (left.is_drawn || right.is_drawn)
}

fn meets_any(mark: Noted, others: &[Noted]) -> bool
    ensures { result ≡ rules.meets_any (seen.noted mark) (seen.all_noted others.now) }
{
    for other in others {
        if meets(*other, mark) {
            return true;
        }
    }
    false
}

fn any_meet(marks: &[Noted]) -> bool
    ensures { result ≡ rules.any_meet (seen.all_noted marks.now) }
{
    match marks {
        [] => false,
        [first, others @ ..] => meets_any(*first, others) || any_meet(others),
    }
}

#[tactic(auto, using(crate::proofs::Rows::counts))]
fn are_apart(marks: &[Noted]) -> bool
    ensures { result ≡ rules.are_apart (seen.all_noted marks.now) }
{
    marks.len() <= MOST_MARKS && !any_meet(marks)
}

/// Whether what is written out of an expression is found by its sort and its place.
pub fn places_are_apart(alloc: Global, helpers: &[Helper], of: &Expr) -> Result<bool, AllocError>
    ensures { IfOk result (λ b. b ≡ rules.places_are_apart (seen.helpers helpers.now) (expression of.now)) }
{
    let mut marks = Vec::new(alloc);
    push_marks(helpers, of, &mut marks)?;
    Ok(are_apart(&marks))
}
