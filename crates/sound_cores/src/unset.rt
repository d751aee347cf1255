//! The first statement that may read a variable which is not set.

ghost use Rattle.std.specs.Prelude.{◌≡◌, ◌&&◌};
ghost use Rattle.core_code.specs.View.{term as term_seen, statement as statement_seen, statements as statements_seen};
ghost use Rattle.core_code.specs.View.{kernel as kernel_seen};
ghost use Rattle.sound_cores.specs.Unset as specs;
ghost use Rattle.sound_cores.specs.View.{ways as ways_seen};

use core_code::tree::{Core, Statement, Term};

fn reads(slot: usize, term: &Term) -> bool
    ensures { result ≡ specs.reads slot (term_seen term.now) }
{
    match term {
        Term::Literal { .. } | Term::Id { .. } => false,
        Term::Variable { slot: read } => *read as usize == slot,
        Term::Load { index, .. } | Term::Within { index, .. } => reads(slot, index),
        Term::Unary { of, .. } | Term::Convert { of, .. } | Term::Not { of } => reads(slot, of),
        Term::Binary { left, right, .. }
        | Term::Compare { left, right, .. }
        | Term::And { left, right }
        | Term::Or { left, right }
        | Term::Minimum { left, right }
        | Term::Maximum { left, right } => reads(slot, left) || reads(slot, right),
        Term::Select {
            test,
            taken,
            skipped,
        } => reads(slot, test) || reads(slot, taken) || reads(slot, skipped),
        Term::Shift { value, count, .. } => reads(slot, value) || reads(slot, count),
        Term::Opaque {
            first,
            second,
            third,
            ..
        } => reads(slot, first) || reads(slot, second) || reads(slot, third),
    }
}

fn is_always(test: &Term) -> bool
    ensures { result ≡ specs.is_always (term_seen test.now) }
{
    match test {
        Term::Literal { value, .. } => *value != 0,
        _ => false,
    }
}

/// Of a slot, behind statements: the least number of one that may read it unset; whether it is set behind them, and at each `break` and
/// each `continue` of the loop around them.
#[derive(Clone, Copy)]
pub struct Ways {
    pub unset: Option<u32>,
    pub after: bool,
    pub broken: bool,
    pub continued: bool,
}

fn earlier(a: Option<u32>, b: Option<u32>) -> Option<u32>
    ensures { result ≡ specs.earlier a b }
{
    match (a, b) {
        (None, b) => b,
        (a, None) => a,
        (Some(m), Some(n)) => Some(m.min(n)),
    }
}

fn unset_at(number: u32, is_read: bool, set: bool) -> Option<u32>
    ensures { result ≡ specs.unset_at number is_read set }
{
    if is_read && !set { Some(number) } else { None }
}

fn steps(unset: Option<u32>, after: bool) -> Ways
    ensures { ways_seen result ≡ specs.steps unset after }
{
    Ways {
        unset,
        after,
        broken: true,
        continued: true,
    }
}

fn follows(a: Ways, b: Ways) -> Ways
    ensures { ways_seen result ≡ specs.follows (ways_seen a) (ways_seen b) }
{
    Ways {
        unset: earlier(a.unset, b.unset),
        after: b.after,
        broken: a.broken && b.broken,
        continued: a.continued && b.continued,
    }
}

fn either(test: Option<u32>, a: Ways, b: Ways) -> Ways
    ensures { ways_seen result ≡ specs.either test (ways_seen a) (ways_seen b) }
{
    Ways {
        unset: earlier(test, earlier(a.unset, b.unset)),
        after: a.after && b.after,
        broken: a.broken && b.broken,
        continued: a.continued && b.continued,
    }
}

fn turns(test: Option<u32>, always: bool, set: bool, body: Ways, update: Ways) -> Ways
    ensures { ways_seen result ≡ specs.turns test always set (ways_seen body) (ways_seen update) }
{
    steps(
        earlier(test, earlier(body.unset, update.unset)),
        (always || set) && body.broken,
    )
}

fn both(a: bool, b: bool) -> bool
    ensures { result ≡ (a && b) }
{
    a && b
}

#[cycle(ways)]
fn ways_of(slot: usize, set: bool, statement: &Statement) -> Ways
    ensures { ways_seen result ≡ specs.ways slot set (statement_seen statement.now) }
{
    match statement {
        Statement::Set {
            number,
            slot: to,
            value,
        } => steps(
            unset_at(*number, reads(slot, value), set),
            set || *to as usize == slot,
        ),
        Statement::Store {
            number,
            index,
            value,
            ..
        } => steps(
            unset_at(*number, reads(slot, index) || reads(slot, value), set),
            set,
        ),
        Statement::If {
            number,
            test,
            taken,
            skipped,
        } => {
            let test = unset_at(*number, reads(slot, test), set);
            let taken = all_ways(slot, set, taken.as_slice());
            let skipped = all_ways(slot, set, skipped.as_slice());
            either(test, taken, skipped)
        }
        Statement::Loop {
            number,
            test,
            body,
            update,
        } => {
            let always = is_always(test);
            let test = unset_at(*number, reads(slot, test), set);
            let body = all_ways(slot, set, body.as_slice());
            let update = all_ways(slot, both(body.after, body.continued), update.as_slice());
            turns(test, always, set, body, update)
        }
        Statement::Barrier { .. } => steps(None, set),
        Statement::Return { .. } => steps(None, true),
        Statement::Break { .. } => Ways {
            unset: None,
            after: true,
            broken: set,
            continued: true,
        },
        Statement::Continue { .. } => Ways {
            unset: None,
            after: true,
            broken: true,
            continued: set,
        },
    }
}

#[cycle(ways)]
fn all_ways(slot: usize, set: bool, statements: &[Statement]) -> Ways
    ensures { ways_seen result ≡ specs.all_ways slot set (statements_seen statements.now) }
{
    let mut so_far = steps(None, set);
    for statement in statements {
        so_far = follows(so_far, ways_of(slot, so_far.after, statement));
    }
    so_far
}

/// The least number of a statement that may read a private variable which is not set on some path to it (C99 6.7.8p10); none where there
/// is no such path. Exits are taken to be of the innermost loop around them, as those of sound cores are.
pub fn first_unset(core: &Core) -> Option<u32>
    ensures { result ≡ specs.first_unset (kernel_seen core.now) }
{
    let first = core.arguments.len();
    let mut unset = None;
    for n in 0..core.variables.len() {
        let found = all_ways(first + n, false, core.body.as_slice());
        unset = earlier(unset, found.unset);
    }
    unset
}
