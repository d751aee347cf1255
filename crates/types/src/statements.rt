//! Statements.

ghost use Rattle.std.specs.Prelude.{◌≡◌, ◌+◌, Ok};
ghost use Rattle.semantics.specs.Core as core;
ghost use Rattle.texts.specs.Declarations.{declared_first, declared_in, declared_by};
ghost use Rattle.types.specs.Elaboration as elaboration;
ghost use Rattle.texts.specs.Surface as surface;
ghost use Rattle.types.specs.Scope as scoping;
ghost use Rattle.types.specs.TypeFaults.{Checked};
ghost use Rattle.syntax.specs.View.{expression, assignment, first as first_of, statement as stmt, statements as stmts};
ghost use Rattle.core_code.specs.View.{term, statement, statements};
ghost use Rattle.types.specs.Arounds.{around as around_of};
ghost use Rattle.types.specs.Blocks.{behind, block, otherwise, repeated, turn};
ghost use Rattle.types.specs.Names.{scope_seen, one_seen, all_seen};
ghost use Rattle.types.specs.Answers.{Gives};
ghost use Rattle.types.specs.Rooms.{HasRoom};

use crate::assignments::elaborate_assignment;
use crate::barriers::barrier_of;
use crate::declared::{declare_local, elaborate_declaration, elaborate_first};
use crate::error::TypeError;
use crate::jumps::{Around, jump_to};
use crate::scope::Scope;
use crate::typing::type_of;
use core_code::tree::{LocalArray, Statement, Term};
use std::alloc::Global;
use syntax::tree::{Assignment, Expr, First, Stmt};

/// Statements in order, behind those that are there.
#[cycle(statements)]
#[tactic(auto, using(crate::proofs::Blocks::in_order), unfolding(crate::specs::Elaboration::elaborate_all))]
pub fn elaborate_all<'a>(
    alloc: Global,
    around: Around,
    scope: &mut Scope<'a>,
    body: &'a [Stmt],
    out: &mut Vec<Statement>,
) -> Result<(), TypeError>
    requires { HasRoom (scope_seen scope.old) (declared_by (stmts body.now)) }
    ensures { Gives (λ _. all_seen out.new.items scope.new) result (behind (statements out.old.items) (elaboration.elaborate_all (around_of around) (scope_seen scope.old) (stmts body.now))) }
{
    for s in body {
        elaborate_statement(alloc, around, scope, s, out)?;
    }
    Ok(())
}

// A block that stands there: its names go at its end.
#[cycle(statements)]
fn elaborate_block<'a>(
    alloc: Global,
    around: Around,
    scope: &mut Scope<'a>,
    body: &'a [Stmt],
    out: &mut Vec<Statement>,
) -> Result<(), TypeError>
    requires { HasRoom (scope_seen scope.old) (declared_by (stmts body.now)) }
    ensures { Gives (λ _. all_seen out.new.items scope.new) result (behind (statements out.old.items) (block (around_of around) (scope_seen scope.old) (stmts body.now))) }
{
    let outside = scope.visible.len();
    elaborate_all(alloc, around.inside(), scope, body, out)?;
    scope.visible.truncate(outside);
    Ok(())
}

/// A statement `if` without what is behind its `else`: its test, and what is done where that holds.
#[derive(Drop)]
struct Branch {
    number: u32,
    test: Term,
    taken: Vec<Statement>,
}

#[cycle(statements)]
#[tactic(auto, using(crate::proofs::Blocks::alone))]
fn elaborate_else<'a>(
    alloc: Global,
    around: Around,
    scope: &mut Scope<'a>,
    skipped: &'a [Stmt],
    branch: Branch,
) -> Result<Statement, TypeError>
    requires { HasRoom (scope_seen scope.old) (declared_by (stmts skipped.now)) }
    ensures { Gives (one_seen scope.new) result (otherwise (around_of around) (scope_seen scope.old) branch.number (term branch.test) (statements branch.taken.items) (stmts skipped.now)) }
{
    let mut inside = Vec::new(alloc);
    elaborate_block(alloc, around, scope, skipped, &mut inside)?;
    Ok(Statement::If {
        number: branch.number,
        test: branch.test,
        taken: branch.taken,
        skipped: inside,
    })
}

#[cycle(statements)]
#[tactic(auto, using(crate::proofs::Blocks::alone))]
fn elaborate_while<'a>(
    alloc: Global,
    scope: &mut Scope<'a>,
    body: &'a [Stmt],
    number: u32,
    test: &Expr,
) -> Result<Statement, TypeError>
    requires { HasRoom (scope_seen scope.old) (declared_by (stmts body.now)) }
    ensures { (around : elaboration.Around) (at : core.Site) → Gives (one_seen scope.new) result (elaboration.elaborate_statement around (scope_seen scope.old) (surface.While number at (expression test.now) (stmts body.now))) }
{
    let test = type_of(alloc, scope, test)?;
    let mut inside = Vec::new(alloc);
    elaborate_block(alloc, Around::InLoop(number), scope, body, &mut inside)?;
    Ok(Statement::Loop {
        number,
        test: test.term,
        body: inside,
        update: Vec::new(alloc),
    })
}

fn loop_with(
    alloc: Global,
    number: u32,
    test: Term,
    body: Vec<Statement>,
    update: Statement,
) -> Result<Statement, TypeError>
    ensures { Gives statement result (Ok (core.Loop number (term test) (statements body.items) (elaboration.single (statement update)))) }
{
    let mut updates = Vec::new(alloc);
    updates.push(update)?;
    Ok(Statement::Loop {
        number,
        test,
        body,
        update: updates,
    })
}

// The test and the update of a `for`.
fn turn_of(
    alloc: Global,
    scope: &Scope,
    test: &Expr,
    update: &Assignment,
) -> Result<(Term, Statement), TypeError>
    ensures { Gives (λ x. (term x.0, statement x.1)) result (turn (scope_seen scope.now) (expression test.now) (assignment update.now)) }
{
    let test = type_of(alloc, scope, test)?;
    let update = elaborate_assignment(alloc, scope, update)?;
    Ok((test.term, update))
}

// What a `for` repeats, after its first part.
#[cycle(statements)]
#[tactic(auto, using(crate::proofs::Blocks::alone))]
fn elaborate_repeated<'a>(
    alloc: Global,
    scope: &mut Scope<'a>,
    body: &'a [Stmt],
    number: u32,
    test: &Expr,
    update: &Assignment,
) -> Result<Statement, TypeError>
    requires { HasRoom (scope_seen scope.old) (declared_by (stmts body.now)) }
    ensures { Gives (one_seen scope.new) result (repeated (scope_seen scope.old) number (expression test.now) (assignment update.now) (stmts body.now)) }
{
    let (test, update) = turn_of(alloc, scope, test, update)?;
    let mut inside = Vec::new(alloc);
    elaborate_block(alloc, Around::InLoop(number), scope, body, &mut inside)?;
    loop_with(alloc, number, test, inside, update)
}

/// The parts of a `for` in its parentheses.
#[derive(Clone, Copy)]
struct Header<'a> {
    first: &'a First,
    test: &'a Expr,
    update: &'a Assignment,
}

#[cycle(statements)]
#[tactic(auto, using(crate::proofs::Blocks::alone))]
fn elaborate_for<'a>(
    alloc: Global,
    scope: &mut Scope<'a>,
    body: &'a [Stmt],
    out: &mut Vec<Statement>,
    number: u32,
    header: Header<'a>,
) -> Result<(), TypeError>
    requires { HasRoom (scope_seen scope.old) (declared_first (first_of header.first.now) + declared_by (stmts body.now)) }
    ensures { (around : elaboration.Around) (at : core.Site) → Gives (λ _. all_seen out.new.items scope.new) result (behind (statements out.old.items) (elaboration.elaborate_statement around (scope_seen scope.old) (surface.For number at (first_of header.entry.first.now) (expression header.entry.test.now) (assignment header.entry.update.now) (stmts body.now)))) }
{
    let outside = scope.visible.len();
    out.push(elaborate_first(alloc, scope, header.first)?)?;
    out.push(elaborate_repeated(alloc, scope, body, number, header.test, header.update)?)?;
    scope.visible.truncate(outside);
    Ok(())
}

// One statement behind those that are there.
fn push_one(out: &mut Vec<Statement>, answer: Result<Statement, TypeError>) -> Result<(), TypeError>
    ensures { (x : Checked elaboration.Elaborated) (after : scoping.Scope) → Gives (λ s. elaboration.elaborated (elaboration.single (statement s)) after) answer x → Gives (λ _. elaboration.elaborated (statements out.new.items) after) result (behind (statements out.old.items) x) }
{
    out.push(answer?)?;
    Ok(())
}

// A statement's core statements, behind those that are there.
#[cycle(statements)]
#[tactic(auto, unfolding(crate::specs::Elaboration::elaborate_statement))]
fn elaborate_statement<'a>(
    alloc: Global,
    around: Around,
    scope: &mut Scope<'a>,
    s: &'a Stmt,
    out: &mut Vec<Statement>,
) -> Result<(), TypeError>
    requires { HasRoom (scope_seen scope.old) (declared_in (stmt s.now)) }
    ensures { Gives (λ _. all_seen out.new.items scope.new) result (behind (statements out.old.items) (elaboration.elaborate_statement (around_of around) (scope_seen scope.old) (stmt s.now))) }
{
    match s {
        Stmt::Declare(declaration) => {
            push_one(out, elaborate_declaration(alloc, scope, declaration))
        }
        Stmt::DeclareArray {
            site,
            kind,
            name_site,
            name,
            length,
            ..
        } => {
            let array = LocalArray {
                kind: *kind,
                length: *length,
            };
            declare_local(scope, around, *site, *name_site, name.as_str(), array)
        }
        Stmt::Assign(assignment) => push_one(out, elaborate_assignment(alloc, scope, assignment)),
        Stmt::If {
            number,
            test,
            taken,
            skipped,
            ..
        } => {
            let test = type_of(alloc, scope, test)?;
            let mut inside = Vec::new(alloc);
            elaborate_block(alloc, around, scope, taken, &mut inside)?;
            let branch = Branch {
                number: *number,
                test: test.term,
                taken: inside,
            };
            push_one(out, elaborate_else(alloc, around, scope, skipped, branch))
        }
        Stmt::While {
            number,
            test,
            body,
            ..
        } => push_one(out, elaborate_while(alloc, scope, body, *number, test)),
        Stmt::For {
            number,
            first,
            test,
            update,
            body,
            ..
        } => {
            let header = Header {
                first,
                test,
                update,
            };
            elaborate_for(alloc, scope, body, out, *number, header)
        }
        Stmt::Barrier { number, flags, .. } => push_one(out, barrier_of(*number, flags)),
        Stmt::Jump { number, site, jump } => push_one(out, jump_to(*number, *site, around, *jump)),
        Stmt::Block { body, .. } => elaborate_block(alloc, around, scope, body, out),
    }
}
