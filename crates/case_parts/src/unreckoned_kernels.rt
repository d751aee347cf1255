// Kernels with an operation that is not reckoned, which no text has: whether they are run, and what the operation decides.

use core_code::tree::{Array, Core, Site, Space, Statement, Term};
use executor::can_run;
use std::alloc::{AllocError, Global};
use unreckoned::decides_nothing;
use words::Kind;

const FIRST_BUFFER: Array = Array {
    space: Space::Global,
    number: 0,
};

/// What becomes of the operation's result.
#[derive(Clone, Copy)]
enum Use {
    Stored,
    Index,
    Tested,
}

fn number(value: u32) -> Term {
    Term::Literal {
        kind: Kind::Uint,
        value,
    }
}

fn boxed(alloc: Global, value: u32) -> Result<Box<Term>, AllocError> {
    Ok(Box::new(alloc, number(value))?)
}

/// The operation 1 of 2, 3 and 4.
fn operation(alloc: Global) -> Result<Term, AllocError> {
    let first = boxed(alloc, 2)?;
    let second = boxed(alloc, 3)?;
    let third = boxed(alloc, 4)?;
    Ok(Term::Opaque {
        operation: 1,
        place: 0,
        kind: Kind::Uint,
        first,
        second,
        third,
    })
}

fn store(index: Term, value: Term) -> Statement {
    Statement::Store {
        number: 2,
        array: FIRST_BUFFER,
        site: Site { line: 1, column: 1 },
        index,
        value,
    }
}

/// The statement behind the one that sets the first variable to the operation's result.
fn second_statement(alloc: Global, used: Use) -> Statement {
    let result = Term::Variable { slot: 0 };
    match used {
        Use::Stored => store(number(0), result),
        Use::Index => store(result, number(0)),
        Use::Tested => Statement::If {
            number: 2,
            test: result,
            taken: Vec::new(alloc),
            skipped: Vec::new(alloc),
        },
    }
}

fn body_of(alloc: Global, used: Use) -> Result<Vec<Statement>, AllocError> {
    let mut body = Vec::new(alloc);
    body.push(Statement::Set {
        number: 1,
        slot: 0,
        value: operation(alloc)?,
    })?;
    body.push(second_statement(alloc, used))?;
    Ok(body)
}

fn core_of(alloc: Global, used: Use) -> Result<Core, AllocError> {
    let body = body_of(alloc, used)?;
    Ok(Core {
        sizes: [1, 1, 1],
        buffers: vec![in alloc; Kind::Uint]?,
        arguments: Vec::new(alloc),
        arrays: Vec::new(alloc),
        variables: vec![in alloc; Kind::Uint]?,
        body,
    })
}

fn push_use(alloc: Global, out: &mut String, name: &str, used: Use) -> Result<(), AllocError> {
    let core = core_of(alloc, used)?;
    let decides = if decides_nothing(alloc, &core)? {
        "nothing"
    } else {
        "something"
    };
    match can_run(&core) {
        Ok(()) => writeln!(out, "{name}: run, decides {decides}"),
        Err(error) => writeln!(out, "{name}: refused {error}, decides {decides}"),
    }
}

/// Writes of three kernels whether they are run, and whether the operation decides something.
pub fn push_unreckoned(alloc: Global, out: &mut String) -> Result<(), AllocError> {
    push_use(alloc, out, "stored", Use::Stored)?;
    push_use(alloc, out, "index", Use::Index)?;
    push_use(alloc, out, "tested", Use::Tested)
}
