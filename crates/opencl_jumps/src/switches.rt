//! A `switch` by `if`s, and a `do` without `continue`.

ghost use Rattle.std.specs.Prelude.{◌≡◌, IfOk, [], ◌∷◌, ◌++◌, map};
ghost use Rattle.core_code.specs.View.{site as site_seen};
ghost use Rattle.opencl_tree.specs.View.{expression, maybe, statement as statement_seen, statements as statements_seen};
ghost use Rattle.opencl_jumps.specs.Switches as rules;
ghost use Rattle.opencl_jumps.specs.View as seen;

use crate::exits::{Exit, fits};
use crate::labels::{copy, may_write};
use crate::leaving::{alone, before, region};
use crate::made::{Head, block, choice, choice_name, counting, done, repeated, selected, variable};
use core_code::tree::{Relation, Site};
use opencl_tree::tree::{Expr, Stmt};
use std::alloc::{AllocError, Global};
use syntax::tree::InfixSign;

/// Statements behind a row of labels, with what tells that one of these is met.
#[derive(Drop)]
pub struct Group {
    pub is_default: bool,
    pub test: Option<Expr>,
    pub body: Vec<Stmt>,
}

/// A body, cut at its labels from its end on: what stands behind the label that was met last, whether nothing stands in front of it, its
/// group, those behind it, what stands at `default`, and the labels.
#[derive(Drop)]
pub struct Cut {
    pub front: Vec<Stmt>,
    pub is_row: bool,
    pub group: Group,
    pub groups: Vec<Group>,
    pub others: Vec<Stmt>,
    pub labels: Vec<Stmt>,
}

fn no_group(alloc: Global) -> Group
    ensures { seen.group result ≡ rules.no_group }
{
    Group {
        is_default: false,
        test: None,
        body: Vec::new(alloc),
    }
}

fn not_cut(alloc: Global) -> Cut
    ensures { seen.cut result ≡ rules.not_cut }
{
    Cut {
        front: Vec::new(alloc),
        is_row: false,
        group: no_group(alloc),
        groups: Vec::new(alloc),
        others: Vec::new(alloc),
        labels: Vec::new(alloc),
    }
}

// Operands, each in a box of its own.
fn boxes(alloc: Global, left: Expr, right: Expr) -> Result<(Box<Expr>, Box<Expr>), AllocError>
    ensures { IfOk result (λ b. (b.0.value ≡ left) × (b.1.value ≡ right)) }
{
    let left = Box::new(alloc, left)?;
    let right = Box::new(alloc, right)?;
    Ok((left, right))
}

fn is_met(alloc: Global, at: Site, label: &Expr) -> Result<Expr, AllocError>
    ensures { IfOk result (λ e. expression e ≡ rules.is_met (site_seen at) (expression label.now)) }
{
    let left = variable(alloc, at, choice_name())?;
    let right = copy(alloc, at, label)?;
    let (left, right) = boxes(alloc, left, right)?;
    Ok(Expr::Infix {
        site: at,
        sign: InfixSign::Comparison(Relation::Equal),
        left,
        right,
    })
}

fn either(alloc: Global, at: Site, one: Expr, other: Option<Expr>) -> Result<Expr, AllocError>
    ensures { IfOk result (λ e. expression e ≡ rules.either (site_seen at) (expression one) (maybe other)) }
{
    match other {
        None => Ok(one),
        Some(other) => {
            let (left, right) = boxes(alloc, one, other)?;
            Ok(Expr::Infix {
                site: at,
                sign: InfixSign::LogicalOr,
                left,
                right,
            })
        }
    }
}

fn with_case(alloc: Global, at: Site, label: &Expr, group: Group) -> Result<Group, AllocError>
    ensures { IfOk result (λ g. seen.group g ≡ rules.with_case (site_seen at) (expression label.now) (seen.group group)) }
{
    let one = is_met(alloc, at, label)?;
    let test = either(alloc, at, one, group.test)?;
    Ok(Group {
        is_default: group.is_default,
        test: Some(test),
        body: group.body,
    })
}

fn with_default(group: Group) -> Group
    ensures { seen.group result ≡ rules.with_default (seen.group group) }
{
    Group {
        is_default: true,
        test: group.test,
        body: group.body,
    }
}

// Groups, and one more behind them.
fn with_group(mut groups: Vec<Group>, group: Group) -> Result<Vec<Group>, AllocError>
    ensures { IfOk result (λ v. map seen.group v.items ≡ map seen.group groups.items ++ seen.group group ∷ []) }
{
    groups.push(group)?;
    Ok(groups)
}

// Where a group is whole.
fn closed(alloc: Global, cut: Cut) -> Result<Cut, AllocError>
    ensures { IfOk result (λ c. seen.cut c ≡ rules.closed (seen.cut cut)) }
{
    let Cut {
        front,
        is_row,
        group,
        groups,
        others,
        labels,
    } = cut;
    if group.is_default {
        return Ok(Cut {
            front,
            is_row,
            group: no_group(alloc),
            groups,
            others: group.body,
            labels,
        });
    }
    let groups = with_group(groups, group)?;
    Ok(Cut {
        front,
        is_row,
        group: no_group(alloc),
        groups,
        others,
        labels,
    })
}

// At the last label of a row.
fn behind_row(alloc: Global, cut: Cut) -> Cut
    ensures { seen.cut result ≡ rules.behind_row (seen.cut cut) }
{
    Cut {
        front: Vec::new(alloc),
        is_row: true,
        group: Group {
            is_default: false,
            test: None,
            body: cut.front,
        },
        groups: cut.groups,
        others: cut.others,
        labels: cut.labels,
    }
}

fn row(alloc: Global, cut: Cut) -> Result<Cut, AllocError>
    ensures { IfOk result (λ c. seen.cut c ≡ rules.row (seen.cut cut)) }
{
    if cut.is_row {
        Ok(cut)
    } else {
        Ok(behind_row(alloc, closed(alloc, cut)?))
    }
}

fn case_at(alloc: Global, number: u32, site: Site, value: Expr, cut: Cut) -> Result<Cut, AllocError>
    ensures { IfOk result (λ c. seen.cut c ≡ rules.case_at number (site_seen site) (expression value) (seen.cut cut)) }
{
    let group = with_case(alloc, site, &value, cut.group)?;
    let label = Stmt::Case {
        number,
        site,
        value,
    };
    let labels = before(label, cut.labels)?;
    Ok(Cut {
        front: cut.front,
        is_row: cut.is_row,
        group,
        groups: cut.groups,
        others: cut.others,
        labels,
    })
}

fn default_at(number: u32, site: Site, cut: Cut) -> Result<Cut, AllocError>
    ensures { IfOk result (λ c. seen.cut c ≡ rules.default_at number (site_seen site) (seen.cut cut)) }
{
    let group = with_default(cut.group);
    let labels = before(Stmt::Default { number, site }, cut.labels)?;
    Ok(Cut {
        front: cut.front,
        is_row: cut.is_row,
        group,
        groups: cut.groups,
        others: cut.others,
        labels,
    })
}

// A statement in front of the label that was met last.
fn in_front(statement: Stmt, cut: Cut) -> Result<Cut, AllocError>
    ensures { IfOk result (λ c. seen.cut c ≡ rules.in_front (statement_seen statement) (seen.cut cut)) }
{
    let front = before(statement, cut.front)?;
    Ok(Cut {
        front,
        is_row: false,
        group: cut.group,
        groups: cut.groups,
        others: cut.others,
        labels: cut.labels,
    })
}

fn cut_at(alloc: Global, statement: Stmt, cut: Cut) -> Result<Cut, AllocError>
    ensures { IfOk result (λ c. seen.cut c ≡ rules.cut_at (statement_seen statement) (seen.cut cut)) }
{
    match statement {
        Stmt::Case {
            number,
            site,
            value,
        } => case_at(alloc, number, site, value, row(alloc, cut)?),
        Stmt::Default { number, site } => default_at(number, site, row(alloc, cut)?),
        other => in_front(other, cut),
    }
}

fn cut_all(alloc: Global, body: Vec<Stmt>) -> Result<Cut, AllocError>
    ensures { IfOk result (λ c. seen.cut c ≡ rules.cut (statements_seen body.items)) }
{
    let mut left = body;
    let mut so = not_cut(alloc);
    while let Some(statement) = left.pop() {
        so = cut_at(alloc, statement, so)?;
    }
    Ok(so)
}

// An `if`, with what is done where its test does not hold.
fn linked(
    alloc: Global,
    at: Site,
    group: Group,
    skipped: Vec<Stmt>,
) -> Result<Vec<Stmt>, AllocError>
    ensures { IfOk result (λ v. statements_seen v.items ≡ rules.linked (site_seen at) (seen.group group) (statements_seen skipped.items)) }
{
    let Group { test, body, .. } = group;
    match test {
        None => Ok(skipped),
        Some(test) => {
            let taken = region(alloc, Exit::Breaking, at, body)?;
            alone(alloc, choice(0, at, test, taken, skipped))
        }
    }
}

fn chain(
    alloc: Global,
    at: Site,
    groups: Vec<Group>,
    so: Vec<Stmt>,
) -> Result<Vec<Stmt>, AllocError>
    ensures { IfOk result (λ v. statements_seen v.items ≡ rules.chain (site_seen at) (map seen.group groups.items) (statements_seen so.items)) }
{
    let mut all = so;
    for group in groups {
        all = linked(alloc, at, group, all)?;
    }
    Ok(all)
}

// What is done, with the labels.
fn chosen(alloc: Global, at: Site, cut: Cut) -> Result<(Vec<Stmt>, Vec<Stmt>), AllocError>
    ensures { IfOk result (λ x. (statements_seen x.0.items ≡ rules.chosen (site_seen at) (seen.cut cut)) × (statements_seen x.1.items ≡ (seen.cut cut).labels)) }
{
    let others = region(alloc, Exit::Breaking, at, cut.others)?;
    let all = chain(alloc, at, cut.groups, others)?;
    Ok((all, cut.labels))
}

fn written(alloc: Global, number: u32, site: Site, test: Expr, cut: Cut) -> Result<Stmt, AllocError>
    ensures { IfOk result (λ s. statement_seen s ≡ rules.written number (site_seen site) (expression test) (seen.cut cut)) }
{
    let (all, labels) = chosen(alloc, site, closed(alloc, cut)?)?;
    let body = before(selected(number, site, test, labels), all)?;
    Ok(block(number, site, body))
}

fn switch_of(
    alloc: Global,
    number: u32,
    site: Site,
    test: Expr,
    body: Vec<Stmt>,
) -> Result<Stmt, AllocError>
    ensures { IfOk result (λ s. statement_seen s ≡ rules.switch_of number (site_seen site) (expression test) (statements_seen body.items)) }
{
    if may_write(body.as_slice()) {
        let cut = cut_all(alloc, body)?;
        written(alloc, number, site, test, cut)
    } else {
        Ok(selected(number, site, test, body))
    }
}

fn do_body(alloc: Global, at: Site, body: Vec<Stmt>) -> Result<Vec<Stmt>, AllocError>
    ensures { IfOk result (λ v. statements_seen v.items ≡ rules.do_body (site_seen at) (statements_seen body.items)) }
{
    if fits(Exit::Continuing, body.as_slice()) {
        region(alloc, Exit::Continuing, at, body)
    } else {
        Ok(body)
    }
}

#[cycle(rewriting)]
fn rewritten_parts(
    alloc: Global,
    taken: Vec<Stmt>,
    skipped: Vec<Stmt>,
) -> Result<(Vec<Stmt>, Vec<Stmt>), AllocError>
    ensures { IfOk result (λ x. (statements_seen x.0.items ≡ rules.all_rewritten (statements_seen taken.items)) × (statements_seen x.1.items ≡ rules.all_rewritten (statements_seen skipped.items))) }
{
    let taken = all_rewritten(alloc, taken)?;
    let skipped = all_rewritten(alloc, skipped)?;
    Ok((taken, skipped))
}

#[cycle(rewriting)]
fn rewritten_do(alloc: Global, at: Site, body: Vec<Stmt>) -> Result<Vec<Stmt>, AllocError>
    ensures { IfOk result (λ v. statements_seen v.items ≡ rules.do_body (site_seen at) (rules.all_rewritten (statements_seen body.items))) }
{
    let body = all_rewritten(alloc, body)?;
    do_body(alloc, at, body)
}

// A statement without these.
#[cycle(rewriting)]
fn rewritten(alloc: Global, statement: Stmt) -> Result<Stmt, AllocError>
    ensures { IfOk result (λ s. statement_seen s ≡ rules.rewritten (statement_seen statement)) }
{
    match statement {
        Stmt::If {
            number,
            site,
            test,
            taken,
            skipped,
        } => {
            let (taken, skipped) = rewritten_parts(alloc, taken, skipped)?;
            Ok(choice(number, site, test, taken, skipped))
        }
        Stmt::While {
            number,
            site,
            test,
            body,
        } => {
            let body = all_rewritten(alloc, body)?;
            Ok(repeated(number, site, test, body))
        }
        Stmt::Do {
            number,
            site,
            body,
            test,
        } => {
            let body = rewritten_do(alloc, site, body)?;
            Ok(done(number, site, body, test))
        }
        Stmt::For {
            number,
            site,
            first,
            test,
            update,
            body,
        } => {
            let body = all_rewritten(alloc, body)?;
            let head = Head {
                first,
                test,
                update,
            };
            Ok(counting(number, site, head, body))
        }
        Stmt::Switch {
            number,
            site,
            test,
            body,
        } => {
            let body = all_rewritten(alloc, body)?;
            switch_of(alloc, number, site, test, body)
        }
        Stmt::Block { number, site, body } => {
            let body = all_rewritten(alloc, body)?;
            Ok(block(number, site, body))
        }
        other => Ok(other),
    }
}

/// Statements without `switch`, and without `continue` in a `do`, as far as that can be.
#[cycle(rewriting)]
pub fn all_rewritten(alloc: Global, body: Vec<Stmt>) -> Result<Vec<Stmt>, AllocError>
    ensures { IfOk result (λ v. statements_seen v.items ≡ rules.all_rewritten (statements_seen body.items)) }
{
    let mut left = body;
    let mut all = Vec::new(alloc);
    while let Some(statement) = left.pop() {
        let written = rewritten(alloc, statement)?;
        all = before(written, all)?;
    }
    Ok(all)
}
