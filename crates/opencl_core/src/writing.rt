//! Statements, written out.

ghost use Rattle.std.specs.Prelude.{◌≡◌, Ok, true, false};
ghost use Rattle.core_code.specs.View.{site as site_seen, term};
ghost use Rattle.opencl_tree.specs.View.{expression, expressions, first as first_seen, maybe, statement as statement_seen, statements as statements_seen};
ghost use Rattle.opencl_values.specs.View.{Gives};
ghost use Rattle.opencl_core.specs.Parts as parts;
ghost use Rattle.opencl_core.specs.Writing as rules;
ghost use Rattle.opencl_core.specs.View as seen;

use crate::choosing::write_choice;
use crate::components::set_picked;
use crate::declaring::{write_declaration, write_typedef};
use crate::drawing::{begin, counted_test, draw_whole, evaluate, test_of};
use crate::flags::called;
use crate::parts::{are_assignments, both_standings, no_part, put_if};
use crate::places::loop_of;
use crate::rooms::{Part, Room};
use crate::sites::begin_of;
use crate::templates::{Returned, Returning};
use core_code::tree::{Site, Statement, Term};
use kernel_names::Sort;
use opencl_effects::effects::{has_effect, is_helper};
use opencl_tree::tree::{Expr, First, Stmt};
use opencl_values::error::{Construct, Fault, ValueError, refused};
use opencl_values::values::value_of;
use opencl_values::vectors::converted_to;
use opencl_values::wholes::places;
use std::alloc::Global;
use words::Kind;

/// The surroundings of a statement: outside all loops, or in loops, the innermost of which has the number, and may test behind its body.
#[derive(Clone, Copy)]
pub enum Around {
    Outside,
    InLoop { number: u32, tests_last: bool },
}

fn always() -> Term
    ensures { term result ≡ rules.always }
{
    Term::Literal {
        kind: Kind::Int,
        value: 1,
    }
}

fn maybe_test(alloc: Global, of: &Option<Expr>, room: &Room) -> Result<Term, ValueError>
    ensures { Gives term result (rules.maybe_test (maybe of.now) (seen.room room.now)) }
{
    match of {
        None => Ok(always()),
        Some(of) => test_of(alloc, of, room),
    }
}

// The update of a loop, of which nothing else is written.
fn maybe_effect(alloc: Global, of: &Option<Expr>, room: &mut Room) -> Result<(), ValueError>
    ensures { Gives (λ _. seen.room room.new) result (rules.maybe_effect (maybe of.now) (seen.room room.old)) }
{
    match of {
        None => Ok(()),
        Some(of) => {
            evaluate(alloc, of, room)?;
            if !are_assignments(room.written.as_slice()) {
                return refused(Fault::LeftOut(Construct::Effect), begin_of(of));
            }
            Ok(())
        }
    }
}

fn first_written<'a>(alloc: Global, first: &'a First, room: &mut Room<'a>) -> Result<(), ValueError>
    ensures { Gives (λ _. seen.room room.new) result (rules.first_written (first_seen first.now) (seen.room room.old)) }
{
    match first {
        First::Absent => Ok(()),
        First::Declares(declaration) => write_declaration(alloc, declaration, room),
        First::Evaluates(of) => evaluate(alloc, of, room),
    }
}

// Puts a loop, of which the body and the update are written.
fn put_loop(
    at: Site,
    number: u32,
    test: Term,
    body: Part,
    update: Part,
    room: &mut Room,
) -> Result<(), ValueError>
    ensures { Gives (λ _. seen.room room.new) result (Ok (rules.put_loop (site_seen at) number (term test) (seen.part body) (seen.part update) (seen.room room.old))) }
{
    let inside = both_standings(body.standings, update.standings.as_slice())?;
    let statement = loop_of(number, test, body.statements, update.statements);
    room.put(statement, at, Sort::Turning, inside.as_slice())?;
    Ok(())
}

fn break_of(at: Site, of: u32, room: &mut Room) -> Result<(), ValueError>
    ensures { Gives (λ _. seen.room room.new) result (rules.break_of (site_seen at) of (seen.room room.old)) }
{
    let number = room.count(at)?;
    room.put(Statement::Break { number, of }, at, Sort::Other, &[])?;
    Ok(())
}

fn continue_of(at: Site, of: u32, room: &mut Room) -> Result<(), ValueError>
    ensures { Gives (λ _. seen.room room.new) result (rules.continue_of (site_seen at) of (seen.room room.old)) }
{
    let number = room.count(at)?;
    room.put(Statement::Continue { number, of }, at, Sort::Other, &[])?;
    Ok(())
}

fn left(at: Site, around: Around, room: &mut Room) -> Result<(), ValueError>
    ensures { Gives (λ _. seen.room room.new) result (rules.left (site_seen at) (seen.around around) (seen.room room.old)) }
{
    match around {
        Around::Outside => refused(Fault::JumpOutside, at),
        Around::InLoop { number, .. } => break_of(at, number, room),
    }
}

fn goes_on(at: Site, around: Around, room: &mut Room) -> Result<(), ValueError>
    ensures { Gives (λ _. seen.room room.new) result (rules.goes_on (site_seen at) (seen.around around) (seen.room room.old)) }
{
    match around {
        Around::Outside => refused(Fault::JumpOutside, at),
        Around::InLoop {
            tests_last: true,
            ..
        } => refused(Fault::LeftOut(Construct::Repetition), at),
        Around::InLoop {
            number,
            tests_last: false,
        } => continue_of(at, number, room),
    }
}

fn put_return(at: Site, room: &mut Room) -> Result<(), ValueError>
    ensures { Gives (λ _. seen.room room.new) result (rules.put_return (site_seen at) (seen.room room.old)) }
{
    let number = room.count(at)?;
    room.put(Statement::Return { number }, at, Sort::Other, &[])?;
    Ok(())
}

// The value that a function returns goes into its slots.
fn return_value(
    alloc: Global,
    at: Site,
    to: Returned,
    value: &Expr,
    room: &mut Room,
) -> Result<(), ValueError>
    ensures { Gives (λ _. seen.room room.new) result (rules.return_value (site_seen at) (seen.returned to) (expression value.now) (seen.room room.old)) }
{
    draw_whole(alloc, value, room)?;
    let value = value_of(alloc, room.known(), value)?;
    let value = converted_to(alloc, room.ids, at, to.of, value)?;
    set_picked(alloc, at, to.slot, &value, places(to.of.width), room)
}

/// What a `return` does.
pub fn returned(
    alloc: Global,
    at: Site,
    value: &Option<Expr>,
    room: &mut Room,
) -> Result<(), ValueError>
    ensures { Gives (λ _. seen.room room.new) result (rules.returned (site_seen at) (maybe value.now) (seen.room room.old)) }
{
    match (room.returns, value) {
        (Returning::OfKernel, None) => put_return(at, room),
        (Returning::OfFunction(None), None) => Ok(()),
        (Returning::OfFunction(Some(to)), Some(value)) => {
            return_value(alloc, at, to, value, room)
        }
        (Returning::OfKernel | Returning::OfFunction(None), Some(_))
        | (Returning::OfFunction(Some(_)), None) => refused(Fault::WrongType, at),
    }
}

// A call of a built-in function, whose arguments are drawn.
#[tactic(auto, unfolding(crate::specs::Writing::called_behind))]
fn called_behind(
    alloc: Global,
    of: &Expr,
    at: Site,
    name: &str,
    arguments: &[Expr],
    room: &mut Room,
) -> Result<(), ValueError>
    ensures { Gives (λ _. seen.room room.new) result (rules.called_behind (expression of.now) (site_seen at) name.now (expressions arguments.now) (seen.room room.old)) }
{
    draw_whole(alloc, of, room)?;
    called(alloc, at, name, arguments, room)
}

// A call of a function, whose value is not used.
#[tactic(auto, unfolding(crate::specs::Writing::call_evaluated))]
fn call_evaluated(
    alloc: Global,
    of: &Expr,
    at: Site,
    name: &str,
    arguments: &[Expr],
    room: &mut Room,
) -> Result<(), ValueError>
    ensures { Gives (λ _. seen.room room.new) result (rules.call_evaluated (expression of.now) (site_seen at) name.now (expressions arguments.now) (seen.room room.old)) }
{
    if is_helper(&room.helpers, name) {
        evaluate(alloc, of, room)
    } else {
        called_behind(alloc, of, at, name, arguments, room)
    }
}

fn evaluated(alloc: Global, of: &Expr, room: &mut Room) -> Result<(), ValueError>
    ensures { Gives (λ _. seen.room room.new) result (rules.evaluated (expression of.now) (seen.room room.old)) }
{
    match of {
        Expr::Call {
            site,
            name,
            arguments,
        } => call_evaluated(alloc, of, *site, name.as_str(), arguments, room),
        _ => evaluate(alloc, of, room),
    }
}

/// The number and the test of an `if`, of which the effects stand in front of it.
pub fn drawn_test(
    alloc: Global,
    at: Site,
    test: &Expr,
    room: &mut Room,
) -> Result<(u32, Term), ValueError>
    ensures { Gives (λ x. (x.0, term x.1, seen.room room.new)) result (rules.drawn_test (site_seen at) (expression test.now) (seen.room room.old)) }
{
    draw_whole(alloc, test, room)?;
    counted_test(alloc, at, test, room)
}

// The update of a loop, apart.
fn update_part(alloc: Global, update: &Option<Expr>, room: &mut Room) -> Result<Part, ValueError>
    ensures { Gives (λ p. (seen.part p, seen.room room.new)) result (parts.part (rules.maybe_effect (maybe update.now)) (seen.room room.old)) }
{
    let before = room.set_apart(alloc);
    maybe_effect(alloc, update, room)?;
    Ok(room.rejoin(before))
}

// The `break` of a loop, apart.
fn break_part(alloc: Global, at: Site, of: u32, room: &mut Room) -> Result<Part, ValueError>
    ensures { Gives (λ p. (seen.part p, seen.room room.new)) result (parts.part (rules.break_of (site_seen at) of) (seen.room room.old)) }
{
    let before = room.set_apart(alloc);
    break_of(at, of, room)?;
    Ok(room.rejoin(before))
}

// A loop is left where its test does not hold.
fn left_unless(
    alloc: Global,
    at: Site,
    test: &Expr,
    of: u32,
    room: &mut Room,
) -> Result<(), ValueError>
    ensures { Gives (λ _. seen.room room.new) result (rules.left_unless (site_seen at) (expression test.now) of (seen.room room.old)) }
{
    let (number, test) = drawn_test(alloc, at, test, room)?;
    let jump = break_part(alloc, at, of, room)?;
    put_if(at, number, test, no_part(alloc), jump, room)
}

/// Writes statements in order.
#[cycle(writing)]
#[tactic(auto, unfolding(crate::specs::Writing::write_all))]
pub fn write_all<'a>(
    alloc: Global,
    around: Around,
    body: &'a [Stmt],
    room: &mut Room<'a>,
) -> Result<(), ValueError>
    ensures { Gives (λ _. seen.room room.new) result (rules.write_all (seen.around around) (statements_seen body.now) (seen.room room.old)) }
{
    for statement in body {
        write_statement(alloc, around, statement, room)?;
    }
    Ok(())
}

// A block: its names end with it.
#[cycle(writing)]
fn block<'a>(
    alloc: Global,
    around: Around,
    body: &'a [Stmt],
    room: &mut Room<'a>,
) -> Result<(), ValueError>
    ensures { Gives (λ _. seen.room room.new) result (rules.block (rules.write_all (seen.around around) (statements_seen body.now)) (seen.room room.old)) }
{
    let scope = room.open(alloc);
    write_all(alloc, around, body, room)?;
    room.close(alloc, scope)?;
    Ok(())
}

// A block, apart.
#[cycle(writing)]
fn block_part<'a>(
    alloc: Global,
    around: Around,
    body: &'a [Stmt],
    room: &mut Room<'a>,
) -> Result<Part, ValueError>
    ensures { Gives (λ p. (seen.part p, seen.room room.new)) result (parts.part (rules.block (rules.write_all (seen.around around) (statements_seen body.now))) (seen.room room.old)) }
{
    let before = room.set_apart(alloc);
    block(alloc, around, body, room)?;
    Ok(room.rejoin(before))
}

/// An `if` that was counted, with its test and its first part.
#[derive(Drop)]
pub struct Branch {
    pub at: Site,
    pub number: u32,
    pub test: Term,
    pub taken: Part,
}

// The first part of an `if` that was counted, with its test.
#[cycle(writing)]
fn branch_of<'a>(
    alloc: Global,
    counted: (Site, u32, Term),
    around: Around,
    taken: &'a [Stmt],
    room: &mut Room<'a>,
) -> Result<Branch, ValueError>
    ensures { Gives (λ b. (site_seen b.at, b.number, term b.test, seen.part b.taken, seen.room room.new)) result (rules.branch_of (site_seen counted.0) counted.1 (term counted.2) (rules.write_all (seen.around around) (statements_seen taken.now)) (seen.room room.old)) }
{
    let (at, number, test) = counted;
    let taken = block_part(alloc, around, taken, room)?;
    Ok(Branch {
        at,
        number,
        test,
        taken,
    })
}

// The second part of an `if`.
#[cycle(writing)]
fn otherwise<'a>(
    alloc: Global,
    around: Around,
    branch: Branch,
    skipped: &'a [Stmt],
    room: &mut Room<'a>,
) -> Result<(), ValueError>
    ensures { Gives (λ _. seen.room room.new) result (rules.otherwise (site_seen branch.at) branch.number (term branch.test) (seen.part branch.taken) (rules.write_all (seen.around around) (statements_seen skipped.now)) (seen.room room.old)) }
{
    let skipped = block_part(alloc, around, skipped, room)?;
    put_if(
        branch.at,
        branch.number,
        branch.test,
        branch.taken,
        skipped,
        room,
    )
}

// The parts of a loop that tests in front of its body, which was counted.
#[cycle(writing)]
fn turned<'a>(
    alloc: Global,
    counted: (Site, u32, Term),
    body: &'a [Stmt],
    update: &Option<Expr>,
    room: &mut Room<'a>,
) -> Result<(), ValueError>
    ensures { Gives (λ _. seen.room room.new) result (rules.turned (site_seen counted.0) counted.1 (term counted.2) (rules.write_all (rules.InLoop counted.1 false) (statements_seen body.now)) (rules.maybe_effect (maybe update.now)) (seen.room room.old)) }
{
    let (at, number, test) = counted;
    let around = Around::InLoop {
        number,
        tests_last: false,
    };
    let body = block_part(alloc, around, body, room)?;
    let update = update_part(alloc, update, room)?;
    put_loop(at, number, test, body, update, room)
}

// A loop that tests in front of its body.
#[cycle(writing)]
fn loop_testing<'a>(
    alloc: Global,
    at: Site,
    test: &Option<Expr>,
    body: &'a [Stmt],
    update: &Option<Expr>,
    room: &mut Room<'a>,
) -> Result<(), ValueError>
    ensures { Gives (λ _. seen.room room.new) result (rules.loop_of (site_seen at) (rules.maybe_test (maybe test.now)) (λ n. rules.write_all (rules.InLoop n false) (statements_seen body.now)) (rules.maybe_effect (maybe update.now)) (seen.room room.old)) }
{
    begin(alloc, room);
    let number = room.count(at)?;
    let test = maybe_test(alloc, test, room)?;
    turned(alloc, (at, number, test), body, update, room)
}

// The body of a loop whose test has effects, as a block.
#[cycle(writing)]
fn tested_block<'a>(
    alloc: Global,
    at: Site,
    of: u32,
    body: &'a [Stmt],
    test: &Expr,
    room: &mut Room<'a>,
) -> Result<(), ValueError>
    ensures { Gives (λ _. seen.room room.new) result (rules.block (rules.tested_body (site_seen at) of (expression test.now) (rules.write_all (rules.InLoop of false) (statements_seen body.now))) (seen.room room.old)) }
{
    let scope = room.open(alloc);
    left_unless(alloc, at, test, of, room)?;
    let around = Around::InLoop {
        number: of,
        tests_last: false,
    };
    write_all(alloc, around, body, room)?;
    room.close(alloc, scope)?;
    Ok(())
}

#[cycle(writing)]
fn tested_part<'a>(
    alloc: Global,
    at: Site,
    number: u32,
    body: &'a [Stmt],
    test: &Expr,
    room: &mut Room<'a>,
) -> Result<Part, ValueError>
    ensures { Gives (λ p. (seen.part p, seen.room room.new)) result (parts.part (rules.block (rules.tested_body (site_seen at) number (expression test.now) (rules.write_all (rules.InLoop number false) (statements_seen body.now)))) (seen.room room.old)) }
{
    let before = room.set_apart(alloc);
    tested_block(alloc, at, number, body, test, room)?;
    Ok(room.rejoin(before))
}

// A loop whose test has effects.
#[cycle(writing)]
fn inner_loop<'a>(
    alloc: Global,
    at: Site,
    body: &'a [Stmt],
    test: &Expr,
    update: &Option<Expr>,
    room: &mut Room<'a>,
) -> Result<(), ValueError>
    ensures { Gives (λ _. seen.room room.new) result (rules.inner_loop (site_seen at) (expression test.now) (λ n. rules.write_all (rules.InLoop n false) (statements_seen body.now)) (rules.maybe_effect (maybe update.now)) (seen.room room.old)) }
{
    let number = room.count(at)?;
    let body = tested_part(alloc, at, number, body, test, room)?;
    let update = update_part(alloc, update, room)?;
    put_loop(at, number, always(), body, update, room)
}

// A `while` whose test has no effects.
#[cycle(writing)]
fn plain_while<'a>(
    alloc: Global,
    at: Site,
    body: &'a [Stmt],
    test: &Expr,
    room: &mut Room<'a>,
) -> Result<(), ValueError>
    ensures { Gives (λ _. seen.room room.new) result (rules.plain_while (site_seen at) (expression test.now) (λ n. rules.write_all (rules.InLoop n false) (statements_seen body.now)) (seen.room room.old)) }
{
    let (number, test) = drawn_test(alloc, at, test, room)?;
    let nothing = None;
    turned(alloc, (at, number, test), body, &nothing, room)
}

#[cycle(writing)]
#[tactic(auto, unfolding(crate::specs::Writing::while_of))]
fn while_loop<'a>(
    alloc: Global,
    at: Site,
    body: &'a [Stmt],
    test: &Expr,
    room: &mut Room<'a>,
) -> Result<(), ValueError>
    ensures { Gives (λ _. seen.room room.new) result (rules.while_of (site_seen at) (expression test.now) (λ n. rules.write_all (rules.InLoop n false) (statements_seen body.now)) (seen.room room.old)) }
{
    if has_effect(&room.helpers, test) {
        let nothing = None;
        inner_loop(alloc, at, body, test, &nothing, room)
    } else {
        plain_while(alloc, at, body, test, room)
    }
}

// The loop of a `for`, behind its first part.
#[cycle(writing)]
fn for_loop<'a>(
    alloc: Global,
    at: Site,
    test: &Option<Expr>,
    body: &'a [Stmt],
    update: &Option<Expr>,
    room: &mut Room<'a>,
) -> Result<(), ValueError>
    ensures { Gives (λ _. seen.room room.new) result (rules.for_of (site_seen at) (maybe test.now) (λ n. rules.write_all (rules.InLoop n false) (statements_seen body.now)) (rules.maybe_effect (maybe update.now)) (seen.room room.old)) }
{
    match test {
        Some(inner) if has_effect(&room.helpers, inner) => {
            inner_loop(alloc, at, body, inner, update, room)
        }
        _ => loop_testing(alloc, at, test, body, update, room),
    }
}

// The body of a `do` with its test, apart.
#[cycle(writing)]
fn do_part<'a>(
    alloc: Global,
    at: Site,
    number: u32,
    body: &'a [Stmt],
    test: &Expr,
    room: &mut Room<'a>,
) -> Result<Part, ValueError>
    ensures { Gives (λ p. (seen.part p, seen.room room.new)) result (parts.part (rules.do_body (site_seen at) number (rules.write_all (rules.InLoop number true) (statements_seen body.now)) (expression test.now)) (seen.room room.old)) }
{
    let before = room.set_apart(alloc);
    let around = Around::InLoop {
        number,
        tests_last: true,
    };
    block(alloc, around, body, room)?;
    left_unless(alloc, at, test, number, room)?;
    Ok(room.rejoin(before))
}

#[cycle(writing)]
fn do_loop<'a>(
    alloc: Global,
    at: Site,
    body: &'a [Stmt],
    test: &Expr,
    room: &mut Room<'a>,
) -> Result<(), ValueError>
    ensures { Gives (λ _. seen.room room.new) result (rules.do_loop (site_seen at) (λ n. rules.write_all (rules.InLoop n true) (statements_seen body.now)) (expression test.now) (seen.room room.old)) }
{
    let number = room.count(at)?;
    let body = do_part(alloc, at, number, body, test, room)?;
    put_loop(at, number, always(), body, no_part(alloc), room)
}

/// What a `for` has in parentheses.
#[derive(Clone, Copy)]
pub struct ForHead<'a> {
    pub at: Site,
    pub first: &'a First,
    pub test: &'a Option<Expr>,
    pub update: &'a Option<Expr>,
}

#[cycle(writing)]
#[tactic(auto, unfolding(crate::specs::Writing::for_whole))]
fn for_whole<'a>(
    alloc: Global,
    head: ForHead<'a>,
    body: &'a [Stmt],
    room: &mut Room<'a>,
) -> Result<(), ValueError>
    ensures { Gives (λ _. seen.room room.new) result (rules.for_whole (site_seen head.entry.at) (first_seen head.entry.first.now) (maybe head.entry.test.now) (λ n. rules.write_all (rules.InLoop n false) (statements_seen body.now)) (maybe head.entry.update.now) (seen.room room.old)) }
{
    let scope = room.open(alloc);
    first_written(alloc, head.first, room)?;
    for_loop(alloc, head.at, head.test, body, head.update, room)?;
    room.close(alloc, scope)?;
    Ok(())
}

/// Writes a statement.
#[cycle(writing)]
#[tactic(auto, using(crate::proofs::Trees::nodes), unfolding(crate::specs::Writing::write_statement))]
pub fn write_statement<'a>(
    alloc: Global,
    around: Around,
    statement: &'a Stmt,
    room: &mut Room<'a>,
) -> Result<(), ValueError>
    ensures { Gives (λ _. seen.room room.new) result (rules.write_statement (seen.around around) (statement_seen statement.now) (seen.room room.old)) }
{
    match statement {
        Stmt::Declare(declaration) => write_declaration(alloc, declaration, room),
        Stmt::Typedef(declaration) => write_typedef(declaration, room),
        Stmt::Evaluate { value, .. } => evaluated(alloc, value, room),
        Stmt::If {
            site,
            test,
            taken,
            skipped,
            ..
        } => {
            let (number, test) = drawn_test(alloc, *site, test, room)?;
            let branch = branch_of(alloc, (*site, number, test), around, taken, room)?;
            otherwise(alloc, around, branch, skipped, room)
        }
        Stmt::While {
            site,
            test,
            body,
            ..
        } => while_loop(alloc, *site, body, test, room),
        Stmt::Do {
            site,
            body,
            test,
            ..
        } => do_loop(alloc, *site, body, test, room),
        Stmt::For {
            site,
            first,
            test,
            update,
            body,
            ..
        } => {
            let head = ForHead {
                at: *site,
                first,
                test,
                update,
            };
            for_whole(alloc, head, body, room)
        }
        Stmt::Switch {
            site,
            test,
            body,
            ..
        } => write_choice(alloc, *site, test, body, room),
        Stmt::Case { site, .. } | Stmt::Default { site, .. } => refused(Fault::JumpOutside, *site),
        Stmt::Break { site, .. } => left(*site, around, room),
        Stmt::Continue { site, .. } => goes_on(*site, around, room),
        Stmt::Return { site, value, .. } => returned(alloc, *site, value, room),
        Stmt::Block { body, .. } => block(alloc, around, body, room),
        Stmt::Empty { .. } => Ok(()),
    }
}
