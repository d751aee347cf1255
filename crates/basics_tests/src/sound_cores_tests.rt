//! Tests of `sound_cores`: which cores are sound, and which variable may be read before it is set. Each core has one
//! value parameter, slot 0, two private variables, slots 1 and 2, and one buffer.

use core_code::tree::{Array, Core, Site, Space, Statement, Term};
use sound_cores::sound::is_sound;
use sound_cores::unset::first_unset;
use std::alloc::{AllocError, Global};
use std::test::Fail;
use words::Kind;

fn literal(value: u32) -> Term {
    Term::Literal {
        kind: Kind::Int,
        value,
    }
}

fn variable(slot: u32) -> Term {
    Term::Variable { slot }
}

fn set(number: u32, slot: u32, value: Term) -> Statement {
    Statement::Set {
        number,
        slot,
        value,
    }
}

fn store(number: u32, buffer: u32, value: Term) -> Statement {
    Statement::Store {
        number,
        array: Array {
            space: Space::Global,
            number: buffer,
        },
        site: Site { line: 1, column: 1 },
        index: literal(0),
        value,
    }
}

/// An `if` on the parameter.
fn either(number: u32, taken: Vec<Statement>, skipped: Vec<Statement>) -> Statement {
    Statement::If {
        number,
        test: variable(0),
        taken,
        skipped,
    }
}

fn turning(number: u32, test: Term, body: Vec<Statement>, update: Vec<Statement>) -> Statement {
    Statement::Loop {
        number,
        test,
        body,
        update,
    }
}

fn core_of(alloc: Global, body: Vec<Statement>) -> Result<Core, AllocError> {
    Ok(Core {
        sizes: [1, 1, 1],
        buffers: vec![in alloc; Kind::Int]?,
        arguments: vec![in alloc; Kind::Int]?,
        arrays: Vec::new(alloc),
        variables: vec![in alloc; Kind::Int, Kind::Int]?,
        body,
    })
}

fn sound(alloc: Global, body: Vec<Statement>) -> Result<bool, AllocError> {
    let core = core_of(alloc, body)?;
    Ok(is_sound(&core))
}

/// The number of the first statement that may read a variable which is not set; 0 where there is none.
fn unset(alloc: Global, body: Vec<Statement>) -> Result<u32, AllocError> {
    let core = core_of(alloc, body)?;
    Ok(first_unset(&core).unwrap_or(0))
}

/// A loop with a `break` of the loop of a number, and an update.
fn with_loop(alloc: Global, left: u32, update: Statement) -> Result<Vec<Statement>, AllocError> {
    let exit = vec![in alloc;
        Statement::Break {
            number: 4,
            of: left
        },
    ]?;
    let inner = vec![in alloc; either(3, exit, Vec::new(alloc))]?;
    let update = vec![in alloc; update]?;
    Ok(vec![in alloc;
        set(1, 1, variable(0)),
        turning(2, variable(1), inner, update),
    ]?)
}

#[test]
fn finds_numbers_that_rise(rt: HostRuntime) -> Result<(), Fail> {
    let alloc = rt.alloc();
    let twice = vec![in alloc; set(1, 1, variable(0)), set(1, 2, variable(0))]?;
    let falling = vec![in alloc; set(2, 1, variable(0)), set(1, 2, variable(0))]?;
    let inner = vec![in alloc; set(2, 1, variable(0))]?;
    let within = vec![in alloc; either(2, inner, Vec::new(alloc))]?;
    let apart = vec![in alloc; set(1, 1, variable(0)), set(7, 2, variable(0))]?;
    let found = [
        sound(alloc, twice)?,
        sound(alloc, falling)?,
        sound(alloc, within)?,
        sound(alloc, apart)?,
    ];
    assert_eq!(rt; found, [false, false, false, true]);
    Ok(())
}

#[test]
fn finds_exits_of_other_loops(rt: HostRuntime) -> Result<(), Fail> {
    let alloc = rt.alloc();
    let right = with_loop(alloc, 2, set(5, 1, variable(0)))?;
    let other = with_loop(alloc, 1, set(5, 1, variable(0)))?;
    let choice = either(5, Vec::new(alloc), Vec::new(alloc));
    let choosing = with_loop(alloc, 2, choice)?;
    let outside = vec![in alloc; Statement::Break { number: 1, of: 1 }]?;
    let found = [
        sound(alloc, right)?,
        sound(alloc, other)?,
        sound(alloc, choosing)?,
        sound(alloc, outside)?,
    ];
    assert_eq!(rt; found, [true, false, false, false]);
    Ok(())
}

#[test]
fn finds_what_is_not_declared(rt: HostRuntime) -> Result<(), Fail> {
    let alloc = rt.alloc();
    let slot = vec![in alloc; set(1, 3, variable(0))]?;
    let read = vec![in alloc; set(1, 1, variable(3))]?;
    let buffer = vec![in alloc; store(1, 1, variable(0))]?;
    let declared = vec![in alloc; store(1, 0, variable(2))]?;
    let large = vec![in alloc; set(1, 1, literal(1 << 31))]?;
    let found = [
        sound(alloc, slot)?,
        sound(alloc, read)?,
        sound(alloc, buffer)?,
        sound(alloc, declared)?,
        sound(alloc, large)?,
    ];
    assert_eq!(rt; found, [false, false, false, true, false]);
    Ok(())
}

#[test]
fn finds_the_first_that_is_not_set(rt: HostRuntime) -> Result<(), Fail> {
    let alloc = rt.alloc();
    let read = vec![in alloc; set(1, 1, variable(0)), set(2, 1, variable(2))]?;
    let own = vec![in alloc; set(1, 1, variable(1))]?;
    let both = vec![in alloc; store(1, 0, variable(2)), store(2, 0, variable(1))]?;
    let behind = vec![in alloc; set(1, 1, variable(0)), store(2, 0, variable(1))]?;
    let found = [
        unset(alloc, read)?,
        unset(alloc, own)?,
        unset(alloc, both)?,
        unset(alloc, behind)?,
    ];
    assert_eq!(rt; found, [2, 1, 1, 0]);
    Ok(())
}

/// An `if` that sets variable 1 where it is taken, with another statement where it is not, and a use of the variable.
fn choice(alloc: Global, skipped: Statement) -> Result<Vec<Statement>, AllocError> {
    let taken = vec![in alloc; set(2, 1, variable(0))]?;
    let skipped = vec![in alloc; skipped]?;
    Ok(vec![in alloc; either(1, taken, skipped), store(4, 0, variable(1))]?)
}

#[test]
fn looks_at_both_arms(rt: HostRuntime) -> Result<(), Fail> {
    let alloc = rt.alloc();
    let one = choice(alloc, set(3, 2, variable(0)))?;
    let both = choice(alloc, set(3, 1, variable(0)))?;
    let leaves = choice(alloc, Statement::Return { number: 3 })?;
    let found = [
        unset(alloc, one)?,
        unset(alloc, both)?,
        unset(alloc, leaves)?,
    ];
    assert_eq!(rt; found, [4, 0, 0]);
    Ok(())
}

/// A loop with a statement in its body and then one that sets variable 1; its update and what is behind it use the variable.
fn rounds(alloc: Global, test: Term, first: Statement) -> Result<Vec<Statement>, AllocError> {
    let body = vec![in alloc; first, set(4, 1, variable(0))]?;
    let update = vec![in alloc; set(5, 2, variable(1))]?;
    Ok(vec![in alloc; turning(1, test, body, update), store(6, 0, variable(1))]?)
}

/// A `break` or another exit where the parameter says so.
fn at_times(alloc: Global, exit: Statement) -> Result<Statement, AllocError> {
    let taken = vec![in alloc; exit]?;
    Ok(either(2, taken, Vec::new(alloc)))
}

#[test]
fn goes_round_loops(rt: HostRuntime) -> Result<(), Fail> {
    let alloc = rt.alloc();
    let barrier = Statement::Barrier {
        number: 2,
        local: true,
        global: true,
    };
    let tested = rounds(alloc, variable(0), barrier)?;
    let leave = at_times(alloc, Statement::Break { number: 3, of: 1 })?;
    let left = rounds(alloc, literal(1), leave)?;
    let turn = at_times(alloc, Statement::Continue { number: 3, of: 1 })?;
    let turned = rounds(alloc, literal(1), turn)?;
    let back = at_times(alloc, Statement::Return { number: 3 })?;
    let endless = rounds(alloc, literal(1), back)?;
    let found = [
        unset(alloc, tested)?,
        unset(alloc, left)?,
        unset(alloc, turned)?,
        unset(alloc, endless)?,
    ];
    assert_eq!(rt; found, [6, 6, 5, 0]);
    Ok(())
}
