//! Statements that no text has.

ghost use Rattle.std.specs.Prelude.{◌≡◌, IfOk};
ghost use Rattle.core_code.specs.View.{site as site_seen};
ghost use Rattle.opencl_tree.specs.Tree as tree;
ghost use Rattle.opencl_tree.specs.View.{base as base_seen, declarator, expression, first as first_seen, maybe, qualifiers, statement, statements as statements_seen};
ghost use Rattle.opencl_jumps.specs.Made as rules;
ghost use Rattle.opencl_jumps.specs.View.{exit};

use crate::exits::Exit;
use core_code::tree::Site;
use opencl_tokens::Scalar;
use opencl_tree::tree::{Declaration, Declarator, Expr, First, Initial, Stmt};
use opencl_tree::types::{Base, Qualifiers};
use std::alloc::{AllocError, Global};
use syntax::tree::AssignSign;
use words::Kind;

/// The variable that says whether statements were left.
#[tactic(auto, unfolding(crate::specs::Made::flag_of))]
pub fn flag_of(by: Exit) -> &'static str
    ensures { result.now ≡ rules.flag_of (exit by) }
{
    match by {
        Exit::Breaking => "break",
        Exit::Continuing => "continue",
        Exit::Returning => "goto",
    }
}

/// The variable with what a function gives.
#[tactic(auto, unfolding(crate::specs::Made::result_name))]
pub fn result_name() -> &'static str
    ensures { result.now ≡ rules.result_name }
{
    "return"
}

/// The variable that a `switch` goes by.
#[tactic(auto, unfolding(crate::specs::Made::choice_name))]
pub fn choice_name() -> &'static str
    ensures { result.now ≡ rules.choice_name }
{
    "switch"
}

/// A number.
pub fn number(site: Site, value: u32) -> Expr
    ensures { expression result ≡ rules.number (site_seen site) value }
{
    Expr::Integer {
        site,
        kind: Kind::Int,
        value,
    }
}

/// A variable.
pub fn variable(alloc: Global, site: Site, name: &str) -> Result<Expr, AllocError>
    ensures { IfOk result (λ e. expression e ≡ rules.variable (site_seen site) name.now) }
{
    let name = String::from_str(alloc, name)?;
    Ok(Expr::Name { site, name })
}

// A variable and a value, each in a box of its own.
fn boxes(
    alloc: Global,
    site: Site,
    name: &str,
    value: Expr,
) -> Result<(Box<Expr>, Box<Expr>), AllocError>
    ensures { IfOk result (λ b. (expression b.0.value ≡ rules.variable (site_seen site) name.now) × (b.1.value ≡ value)) }
{
    let value = Box::new(alloc, value)?;
    let target = Box::new(alloc, variable(alloc, site, name)?)?;
    Ok((target, value))
}

/// A variable gets a value.
pub fn assigned(alloc: Global, site: Site, name: &str, value: Expr) -> Result<Stmt, AllocError>
    ensures { IfOk result (λ s. statement s ≡ rules.assigned (site_seen site) name.now (expression value)) }
{
    let (target, value) = boxes(alloc, site, name, value)?;
    Ok(Stmt::Evaluate {
        number: 0,
        site,
        value: Expr::Assign {
            site,
            sign: AssignSign::Plain,
            target,
            value,
        },
    })
}

/// A variable gets 1.
pub fn flag_set(alloc: Global, site: Site, name: &str) -> Result<Stmt, AllocError>
    ensures { IfOk result (λ s. statement s ≡ rules.flag_set (site_seen site) name.now) }
{
    assigned(alloc, site, name, number(site, 1))
}

/// Statements that are gone through unless a variable is set.
pub fn unless_set(
    alloc: Global,
    site: Site,
    name: &str,
    skipped: Vec<Stmt>,
) -> Result<Stmt, AllocError>
    ensures { IfOk result (λ s. statement s ≡ rules.unless_set (site_seen site) name.now (statements_seen skipped.items)) }
{
    let test = variable(alloc, site, name)?;
    Ok(choice(0, site, test, Vec::new(alloc), skipped))
}

fn unqualified() -> Qualifiers
    ensures { qualifiers result ≡ rules.unqualified }
{
    Qualifiers {
        space: None,
        constant: false,
        volatile: false,
        restrict: false,
    }
}

fn named(alloc: Global, site: Site, name: &str) -> Result<Declarator, AllocError>
    ensures { IfOk result (λ d. declarator d ≡ rules.named (site_seen site) name.now) }
{
    let name = String::from_str(alloc, name)?;
    Ok(Declarator {
        site,
        name,
        stars: Vec::new(alloc),
        dimensions: Vec::new(alloc),
        initial: Initial::Given(number(site, 0)),
    })
}

/// A variable that begins as 0.
pub fn declared(alloc: Global, site: Site, base: Base, name: &str) -> Result<Stmt, AllocError>
    ensures { IfOk result (λ s. statement s ≡ rules.declared (site_seen site) (base_seen base) name.now) }
{
    let one = named(alloc, site, name)?;
    let mut declarators = Vec::new(alloc);
    declarators.push(one)?;
    Ok(Stmt::Declare(Declaration {
        number: 0,
        site,
        base,
        qualifiers: unqualified(),
        declarators,
    }))
}

/// A variable that says whether statements were left.
pub fn flag_declared(alloc: Global, site: Site, name: &str) -> Result<Stmt, AllocError>
    ensures { IfOk result (λ s. statement s ≡ rules.flag_declared (site_seen site) name.now) }
{
    let base = Base::Numbers {
        scalar: Scalar::Int,
        width: 1,
    };
    declared(alloc, site, base, name)
}

/// A block.
pub fn block(number: u32, site: Site, body: Vec<Stmt>) -> Stmt
    ensures { statement result ≡ tree.Block number (site_seen site) (statements_seen body.items) }
{
    Stmt::Block { number, site, body }
}

/// An `if`.
pub fn choice(number: u32, site: Site, test: Expr, taken: Vec<Stmt>, skipped: Vec<Stmt>) -> Stmt
    ensures { statement result ≡ tree.If number (site_seen site) (expression test) (statements_seen taken.items) (statements_seen skipped.items) }
{
    Stmt::If {
        number,
        site,
        test,
        taken,
        skipped,
    }
}

/// A `while`.
pub fn repeated(number: u32, site: Site, test: Expr, body: Vec<Stmt>) -> Stmt
    ensures { statement result ≡ tree.While number (site_seen site) (expression test) (statements_seen body.items) }
{
    Stmt::While {
        number,
        site,
        test,
        body,
    }
}

/// A `do`.
pub fn done(number: u32, site: Site, body: Vec<Stmt>, test: Expr) -> Stmt
    ensures { statement result ≡ tree.Do number (site_seen site) (statements_seen body.items) (expression test) }
{
    Stmt::Do {
        number,
        site,
        body,
        test,
    }
}

/// What a `for` has in parentheses.
#[derive(Drop)]
pub struct Head {
    pub first: First,
    pub test: Option<Expr>,
    pub update: Option<Expr>,
}

/// A `for`.
pub fn counting(number: u32, site: Site, head: Head, body: Vec<Stmt>) -> Stmt
    ensures { statement result ≡ tree.For number (site_seen site) (first_seen head.first) (maybe head.test) (maybe head.update) (statements_seen body.items) }
{
    Stmt::For {
        number,
        site,
        first: head.first,
        test: head.test,
        update: head.update,
        body,
    }
}

/// A `switch`.
pub fn selected(number: u32, site: Site, test: Expr, body: Vec<Stmt>) -> Stmt
    ensures { statement result ≡ tree.Switch number (site_seen site) (expression test) (statements_seen body.items) }
{
    Stmt::Switch {
        number,
        site,
        test,
        body,
    }
}
