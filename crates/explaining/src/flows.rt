//! The paths through statements, counted.

use crate::forks::{Sides, Tests, greater, sides_of, ways_of};
use crate::placing::{take_element, take_test, take_value};
use core_code::tree::{Statement, Term};
use places::{Point, Rest, holds_barrier};
use std::alloc::{AllocError, Global};

/// Numbers of paths: those that come through statements, those that leave them by `break` or `continue`, and those that
/// end there.
#[derive(Clone, Copy)]
pub struct Flows {
    through: u64,
    broke: u64,
    continued: u64,
    stopped: u64,
}

/// One path that comes through.
const THROUGH: Flows = Flows {
    through: 1,
    broke: 0,
    continued: 0,
    stopped: 0,
};

/// One path that ends.
const STOPPED: Flows = Flows {
    through: 0,
    broke: 0,
    continued: 0,
    stopped: 1,
};

impl Flows {
    /// So many times as many paths.
    fn times(self, count: u64) -> Flows {
        Flows {
            through: self.through.saturating_mul(count),
            broke: self.broke.saturating_mul(count),
            continued: self.continued.saturating_mul(count),
            stopped: self.stopped.saturating_mul(count),
        }
    }

    fn or(self, other: Flows) -> Flows {
        Flows {
            through: self.through.saturating_add(other.through),
            broke: self.broke.saturating_add(other.broke),
            continued: self.continued.saturating_add(other.continued),
            stopped: self.stopped.saturating_add(other.stopped),
        }
    }

    /// As many of each as the one that has more.
    fn greater(self, other: Flows) -> Flows {
        Flows {
            through: greater(self.through, other.through),
            broke: greater(self.broke, other.broke),
            continued: greater(self.continued, other.continued),
            stopped: greater(self.stopped, other.stopped),
        }
    }

    /// The paths of two statements, one behind the other: each path through the first goes on along each of the second.
    fn then(self, next: Flows) -> Flows {
        Flows { through: 0, ..self }.or(next.times(self.through))
    }

    /// The number of all paths.
    pub fn total(self) -> u64 {
        self.through
            .saturating_add(self.broke)
            .saturating_add(self.continued)
            .saturating_add(self.stopped)
    }

    /// The paths at a loop's update, to which a `continue` leads.
    fn at_update(self) -> Flows {
        Flows {
            through: self.through.saturating_add(self.continued),
            continued: 0,
            ..self
        }
    }

    /// The paths behind a loop, to which a `break` leads.
    fn behind_loop(self) -> Flows {
        Flows {
            through: self.through.saturating_add(self.broke),
            broke: 0,
            ..self.at_update()
        }
    }
}

/// The paths of a loop, by the sides of its test and the paths of its body: into the body, and behind the loop.
fn around(sides: Sides, body: Flows) -> Flows {
    let inside = Flows {
        stopped: body
            .stopped
            .saturating_add(body.through)
            .saturating_add(body.continued),
        through: 0,
        continued: 0,
        ..body
    };
    let outside = THROUGH.times(sides.fails);
    outside.or(inside.times(sides.holds)).behind_loop()
}

/// Variables that are a number on each path behind both branches; of a branch that nothing comes through nothing is asked.
fn meet(tests: &mut Tests<'_>, other: &[bool], own: Flows, others: Flows) {
    for (mark, before) in tests.settled.iter_mut().zip(other.iter()) {
        if own.through == 0 {
            *mark = *before;
        } else if others.through > 0 {
            *mark = *mark && *before;
        }
    }
}

/// A statement `if` with the paths of its branches.
fn parted(tests: &Tests<'_>, test: &Term, taken: Flows, skipped: Flows) -> Flows {
    let sides = sides_of(tests, test, true);
    if tests.is_settled(test) {
        return taken.greater(skipped).times(sides.total());
    }
    taken.times(sides.holds).or(skipped.times(sides.fails))
}

/// In how many ways the branches of an `if` are come to.
fn branches(tests: &Tests<'_>, test: &Term) -> Sides {
    let sides = sides_of(tests, test, true);
    if tests.is_settled(test) {
        return Sides {
            holds: sides.total(),
            fails: sides.total(),
        };
    }
    sides
}

/// The two branches of an `if`, each with its paths and the variables that are a number behind it.
fn joined(
    tests: &mut Tests<'_>,
    test: &Term,
    behind_taken: &[bool],
    taken: Flows,
    skipped: Flows,
) -> Flows {
    let flows = parted(tests, test, taken, skipped);
    meet(tests, behind_taken, skipped, taken);
    flows
}

/// Takes up the test of a statement, with the ways in which it holds and those in which it does not.
fn tested(
    alloc: Global,
    tests: &mut Tests<'_>,
    number: u32,
    test: &Term,
) -> Result<Sides, AllocError> {
    take_test(alloc, tests, number, test)?;
    Ok(sides_of(tests, test, true))
}

/// Takes up the test of an `if`, with the variables that are a number in front of its branches.
fn entered(
    alloc: Global,
    tests: &mut Tests<'_>,
    number: u32,
    test: &Term,
) -> Result<Vec<bool>, AllocError> {
    take_test(alloc, tests, number, test)?;
    Vec::from_slice(alloc, tests.settled.as_slice())
}

/// Goes back in front of a branch; the variables that are a number behind it.
fn turned_back(
    alloc: Global,
    tests: &mut Tests<'_>,
    before: Vec<bool>,
) -> Result<Vec<bool>, AllocError> {
    let behind = Vec::from_slice(alloc, tests.settled.as_slice())?;
    tests.settled = before;
    Ok(behind)
}

/// A variable is set.
fn set(
    alloc: Global,
    tests: &mut Tests<'_>,
    number: u32,
    slot: u32,
    value: &Term,
) -> Result<Flows, AllocError> {
    take_value(alloc, tests, number, value)?;
    let ways = ways_of(tests, value);
    tests.settle(slot, value);
    Ok(THROUGH.times(ways))
}

/// An element is set.
fn store(
    alloc: Global,
    tests: &mut Tests<'_>,
    number: u32,
    index: &Term,
    value: &Term,
) -> Result<Flows, AllocError> {
    take_element(alloc, tests, number, index, value)?;
    let flows = THROUGH.times(ways_of(tests, index));
    Ok(flows.times(ways_of(tests, value)))
}

/// One statement. A path goes into a loop with a barrier, from its test on; it ends at another loop.
#[cycle(flowing)]
fn walk(alloc: Global, tests: &mut Tests<'_>, statement: &Statement) -> Result<Flows, AllocError> {
    match statement {
        Statement::Set {
            number,
            slot,
            value,
        } => set(alloc, tests, *number, *slot, value),
        Statement::Store {
            number,
            index,
            value,
            ..
        } => store(alloc, tests, *number, index, value),
        Statement::If {
            number,
            test,
            taken,
            skipped,
        } => {
            let ways = tests.before;
            let sides = branches(tests, test);
            let before = entered(alloc, tests, *number, test)?;
            tests.before = ways.saturating_mul(sides.holds);
            let one = walk_all(alloc, tests, taken.as_slice())?;
            let behind = turned_back(alloc, tests, before)?;
            tests.before = ways.saturating_mul(sides.fails);
            let other = walk_all(alloc, tests, skipped.as_slice())?;
            tests.before = ways;
            Ok(joined(tests, test, behind.as_slice(), one, other))
        }
        Statement::Loop {
            number,
            test,
            body,
            update,
        } => {
            if !holds_barrier(body.as_slice(), update.as_slice()) {
                return Ok(STOPPED);
            }
            let sides = tested(alloc, tests, *number, test)?;
            let ways = tests.before;
            tests.before = ways.saturating_mul(sides.holds);
            let inside = walk_all(alloc, tests, body.as_slice())?;
            tests.before = ways;
            Ok(around(sides, inside))
        }
        Statement::Barrier { .. } | Statement::Return { .. } => Ok(STOPPED),
        Statement::Break { .. } => Ok(Flows {
            through: 0,
            broke: 1,
            ..THROUGH
        }),
        Statement::Continue { .. } => Ok(Flows {
            through: 0,
            continued: 1,
            ..THROUGH
        }),
    }
}

/// A loop that never turns may stand in front of the statement: it is no other stop, and not the only one of its block, which may have no
/// braces.
fn may_be_parted(statement: &Statement, count: usize) -> bool {
    match statement {
        Statement::Set { .. } | Statement::Store { .. } | Statement::If { .. } => count > 0,
        _ => false,
    }
}

/// Statements one after the other, as far as a path comes.
#[cycle(flowing)]
fn walk_all(alloc: Global, tests: &mut Tests<'_>, body: &[Statement]) -> Result<Flows, AllocError> {
    let before = tests.before;
    let mut flows = THROUGH;
    let mut count: usize = 0;
    for statement in body {
        if flows.through == 0 {
            tests.before = before;
            return Ok(flows);
        }
        let ways = before.saturating_mul(flows.through);
        if may_be_parted(statement, count) {
            tests.note_cut(statement.number(), ways);
        }
        tests.before = ways;
        let next = walk(alloc, tests, statement)?;
        flows = flows.then(next);
        count = count.saturating_add(1);
    }
    tests.before = before;
    Ok(flows)
}

/// A loop that has turned.
fn turn_again(
    alloc: Global,
    tests: &mut Tests<'_>,
    statement: &Statement,
) -> Result<Flows, AllocError> {
    match statement {
        Statement::Loop { .. } => walk(alloc, tests, statement),
        _ => Ok(STOPPED),
    }
}

/// Follows paths through the statements behind a place, the innermost of which stand last in the list.
fn go_on(
    alloc: Global,
    tests: &mut Tests<'_>,
    rests: &[Rest<'_>],
    begin: Flows,
) -> Result<Flows, AllocError> {
    let mut flows = begin;
    for rest in rests.iter().rev() {
        tests.before = flows.through;
        flows = match rest {
            Rest::Fresh(body) => flows.then(walk_all(alloc, tests, body)?),
            Rest::Turning(statement) => {
                let at_test = flows.at_update();
                at_test
                    .then(turn_again(alloc, tests, statement)?)
                    .behind_loop()
            }
        };
    }
    Ok(flows)
}

/// The paths from a loop's test: through a turn to the test, or behind the loop.
fn from_loop(
    alloc: Global,
    tests: &mut Tests<'_>,
    statement: &Statement,
    rests: &[Rest<'_>],
) -> Result<Flows, AllocError> {
    let Statement::Loop {
        number,
        test,
        body,
        update,
    } = statement
    else {
        return go_on(alloc, tests, rests, THROUGH);
    };
    let sides = tested(alloc, tests, *number, test)?;
    tests.before = sides.holds;
    let turned = walk_all(alloc, tests, body.as_slice())?.at_update();
    let turned = turned.then(walk_all(alloc, tests, update.as_slice())?);
    go_on(alloc, tests, rests, around(sides, turned))
}

/// The paths from a barrier or from a loop's test to the next barrier, loop or end.
pub fn paths_from(
    alloc: Global,
    tests: &mut Tests<'_>,
    point: &Point<'_>,
) -> Result<Flows, AllocError> {
    from_loop(alloc, tests, point.statement, point.rest.as_slice())
}

/// The paths from a kernel's beginning.
pub fn paths_of(
    alloc: Global,
    tests: &mut Tests<'_>,
    body: &[Statement],
) -> Result<Flows, AllocError> {
    walk_all(alloc, tests, body)
}
