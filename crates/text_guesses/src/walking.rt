//! The loops of a kernel, one after the other.

use crate::frame::Frame;
use crate::scan::numbers_of;
use crate::starts::Starts;
use crate::test_forms::{TestForm, keep_test};
use crate::turning::{Turning, turn_all};
use crate::ways::{Options, are_seen};
use crate::weights::{Digits, keep_parts, take_all};
use core_code::tree::{Core, Statement, Term};
use std::alloc::{AllocError, Global};

/// Which ways of a loop to end are told: those of its tests by one variable's steps, or those by two variables together.
#[derive(Clone, Copy, PartialEq, Eq)]
enum Wanted {
    Plain,
    Weighted,
}

/// The kernel's frame, the numbers of its text, the numbers by which walks saw variables step, whether loops may end by doubling, and which
/// ways to end are told.
#[derive(Drop)]
struct Given<'a> {
    frame: Frame,
    numbers: Vec<u64>,
    strides: &'a [(u32, i64)],
    may_double: bool,
    wanted: Wanted,
}

/// The number, the test and the statements of a loop, as they stand in the kernel.
#[derive(Clone, Copy)]
struct LoopText<'a> {
    number: u32,
    test: &'a Term,
    body: &'a [Statement],
    update: &'a [Statement],
}

/// The slots that were assigned so far, with what, and what was found.
#[derive(Drop)]
struct Walk {
    seen: Vec<u32>,
    starts: Starts,
    found: Vec<Options>,
}

/// The steps of variables in a turn of a loop, by its statements and by what walks saw, and whether something is halved.
fn turning_of(alloc: Global, given: &Given, text: LoopText) -> Result<Turning, AllocError> {
    let mut turning = Turning::new(alloc);
    turn_all(alloc, &given.frame, text.body, &mut turning)?;
    turn_all(alloc, &given.frame, text.update, &mut turning)?;
    for stride in given.strides {
        turning.keep(stride.0, stride.1)?;
    }
    Ok(turning)
}

/// Keeps the rankings that the test at a loop's head gives: of variables that double first, where loops may end so.
fn keep_head(
    alloc: Global,
    given: &Given,
    starts: &Starts,
    text: LoopText,
    turning: &Turning,
    options: &mut Options,
) -> Result<(), AllocError> {
    let mut forms = Vec::new(alloc);
    keep_test(alloc, &given.frame, text.test, true, &mut forms)?;
    if given.may_double {
        options.keep_doubles(alloc, forms.as_slice(), turning, starts)?;
    }
    options.keep_tests(alloc, forms.as_slice(), turning)
}

/// Keeps the rankings that the test at a loop's head gives of a queue, both of whose ends move.
fn keep_ends(
    alloc: Global,
    given: &Given,
    text: LoopText,
    turning: &Turning,
    options: &mut Options,
) -> Result<(), AllocError> {
    let mut forms = Vec::new(alloc);
    keep_test(alloc, &given.frame, text.test, true, &mut forms)?;
    options.keep_rooms(alloc, forms.as_slice(), turning, given.numbers.as_slice())
}

/// The statements end by leaving the loop.
fn leaves(number: u32, arm: &[Statement]) -> bool {
    match arm.last() {
        Some(Statement::Break { of, .. }) => *of == number,
        Some(Statement::Return { .. }) => true,
        _ => false,
    }
}

/// A test that leaves the loop where it does not go that way.
#[derive(Clone, Copy)]
struct Exit<'a> {
    test: &'a Term,
    truth: bool,
}

/// Keeps the rankings that a test in a loop's body gives, which leaves the loop where it does not go the way that `truth` says.
fn keep_exit(
    alloc: Global,
    given: &Given,
    walk: &Walk,
    exit: Exit,
    turning: &Turning,
    options: &mut Options,
) -> Result<(), AllocError> {
    let mut forms = Vec::new(alloc);
    keep_test(alloc, &given.frame, exit.test, exit.truth, &mut forms)?;
    for form in forms.as_slice() {
        if are_seen(&given.frame, walk.seen.as_slice(), &form.form) {
            options.keep_exit(alloc, form, turning)?;
        }
    }
    if given.may_double {
        options.keep_doubles(alloc, forms.as_slice(), turning, &walk.starts)?;
    }
    Ok(())
}

/// Keeps the rankings that those tests give which stand in the loop's body itself and leave the loop.
fn keep_exits(
    alloc: Global,
    given: &Given,
    walk: &Walk,
    text: LoopText,
    turning: &Turning,
    options: &mut Options,
) -> Result<(), AllocError> {
    for statement in text.body {
        if let Statement::If {
            test,
            taken,
            skipped,
            ..
        } = statement
        {
            if leaves(text.number, taken.as_slice()) {
                let exit = Exit { test, truth: false };
                keep_exit(alloc, given, walk, exit, turning, options)?;
            }
            if leaves(text.number, skipped.as_slice()) {
                let exit = Exit { test, truth: true };
                keep_exit(alloc, given, walk, exit, turning, options)?;
            }
        }
    }
    Ok(())
}

/// The forms that the tests tell which stand in the loop's body itself and leave the loop.
fn forms_of_exits(
    alloc: Global,
    given: &Given,
    text: LoopText,
    forms: &mut Vec<TestForm>,
) -> Result<(), AllocError> {
    for statement in text.body {
        if let Statement::If {
            test,
            taken,
            skipped,
            ..
        } = statement
        {
            if leaves(text.number, taken.as_slice()) {
                keep_parts(alloc, &given.frame, test, false, forms)?;
            }
            if leaves(text.number, skipped.as_slice()) {
                keep_parts(alloc, &given.frame, test, true, forms)?;
            }
        }
    }
    Ok(())
}

/// The ways in which a loop may end by two variables together.
fn weighted_of(
    alloc: Global,
    given: &Given,
    walk: &Walk,
    text: LoopText,
) -> Result<Options, AllocError> {
    let mut digits = Digits::new(alloc);
    take_all(alloc, &given.frame, text.body, &mut digits)?;
    take_all(alloc, &given.frame, text.update, &mut digits)?;
    let mut forms = Vec::new(alloc);
    keep_parts(alloc, &given.frame, text.test, true, &mut forms)?;
    forms_of_exits(alloc, given, text, &mut forms)?;
    let mut options = Options::new(alloc, text.number);
    for form in digits.weighted(alloc, forms.as_slice())? {
        if are_seen(&given.frame, walk.seen.as_slice(), &form) {
            options.keep_down(form)?;
        }
    }
    Ok(options)
}

/// The ways in which a loop may end by its tests and the steps of one variable each.
fn plain_of(
    alloc: Global,
    given: &Given,
    walk: &Walk,
    text: LoopText,
) -> Result<Options, AllocError> {
    let turning = turning_of(alloc, given, text)?;
    let mut options = Options::new(alloc, text.number);
    keep_head(alloc, given, &walk.starts, text, &turning, &mut options)?;
    keep_exits(alloc, given, walk, text, &turning, &mut options)?;
    keep_ends(alloc, given, text, &turning, &mut options)?;
    Ok(options)
}

fn enter_loop(
    alloc: Global,
    given: &Given,
    text: LoopText,
    walk: &mut Walk,
) -> Result<(), AllocError> {
    let options = match given.wanted {
        Wanted::Plain => plain_of(alloc, given, walk, text)?,
        Wanted::Weighted => weighted_of(alloc, given, walk, text)?,
    };
    walk.found.push(options)?;
    Ok(())
}

#[cycle(walks)]
fn visit(
    alloc: Global,
    given: &Given,
    statement: &Statement,
    walk: &mut Walk,
) -> Result<(), AllocError> {
    match statement {
        Statement::Set { slot, value, .. } => {
            walk.seen.push(*slot)?;
            walk.starts.set(alloc, &given.frame, *slot, value)
        }
        Statement::If { taken, skipped, .. } => {
            visit_all(alloc, given, taken.as_slice(), walk)?;
            visit_all(alloc, given, skipped.as_slice(), walk)
        }
        Statement::Loop {
            number,
            test,
            body,
            update,
        } => {
            let text = LoopText {
                number: *number,
                test,
                body: body.as_slice(),
                update: update.as_slice(),
            };
            enter_loop(alloc, given, text, walk)?;
            visit_all(alloc, given, body.as_slice(), walk)?;
            visit_all(alloc, given, update.as_slice(), walk)
        }
        Statement::Store { .. }
        | Statement::Barrier { .. }
        | Statement::Return { .. }
        | Statement::Break { .. }
        | Statement::Continue { .. } => Ok(()),
    }
}

#[cycle(walks)]
fn visit_all(
    alloc: Global,
    given: &Given,
    body: &[Statement],
    walk: &mut Walk,
) -> Result<(), AllocError> {
    for statement in body {
        visit(alloc, given, statement, walk)?;
    }
    Ok(())
}

/// The options of each loop of the kernel, in the order of their numbers.
fn all_options(alloc: Global, core: &Core, given: &Given) -> Result<Vec<Options>, AllocError> {
    let mut walk = Walk {
        seen: Vec::new(alloc),
        starts: Starts::new(alloc),
        found: Vec::new(alloc),
    };
    visit_all(alloc, given, core.body.as_slice(), &mut walk)?;
    Ok(walk.found)
}

/// The options of each loop of the kernel, in the order of their numbers, that its tests and its steps tell; for a wide walk, in which
/// loops may double and forms have products, or a narrow one. `strides` has steps of slots that are known beside those of the text.
pub fn guess_rankings(
    alloc: Global,
    core: &Core,
    is_wide: bool,
    strides: &[(u32, i64)],
) -> Result<Vec<Options>, AllocError> {
    let given = Given {
        frame: Frame::of(alloc, core, is_wide)?,
        numbers: numbers_of(alloc, core)?,
        strides,
        may_double: is_wide,
        wanted: Wanted::Plain,
    };
    all_options(alloc, core, &given)
}

/// The options of each loop of the kernel, in the order of their numbers, that rank it by two of its variables together, for a wide walk.
pub fn guess_weighted(alloc: Global, core: &Core) -> Result<Vec<Options>, AllocError> {
    let given = Given {
        frame: Frame::of(alloc, core, true)?,
        numbers: Vec::new(alloc),
        strides: &[],
        may_double: false,
        wanted: Wanted::Weighted,
    };
    all_options(alloc, core, &given)
}
