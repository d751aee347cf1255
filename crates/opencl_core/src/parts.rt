//! Parts of statements, written apart, and the `if` that they make.

ghost use Rattle.std.specs.Prelude.{◌≡◌, ◌++◌, IfOk, map, Ok};
ghost use Rattle.core_code.specs.View.{site as site_seen, statement as statement_seen, statements, term};
ghost use Rattle.kernel_names.specs.View.{standing as standing_seen};
ghost use Rattle.opencl_values.specs.View.{Gives};
ghost use Rattle.opencl_core.specs.Parts as rules;
ghost use Rattle.opencl_core.specs.View as seen;

use crate::places::if_of;
use crate::rooms::{Part, Room};
use core_code::tree::{Site, Statement, Term};
use kernel_names::{Sort, Standing};
use opencl_values::error::ValueError;
use std::alloc::{AllocError, Global};

/// A part in which nothing is written.
pub fn no_part(alloc: Global) -> Part
    ensures { seen.part result ≡ rules.no_part }
{
    Part {
        statements: Vec::new(alloc),
        standings: Vec::new(alloc),
    }
}

/// The standings of two parts, one behind the other.
#[tactic(auto, using(crate::proofs::Trees::parts))]
pub fn both_standings(
    first: Vec<Standing>,
    second: &[Standing],
) -> Result<Vec<Standing>, AllocError>
    ensures { IfOk result (λ v. map standing_seen v.items ≡ map standing_seen first.items ++ map standing_seen second.now) }
{
    let mut both = first;
    both.extend_from_slice(second)?;
    Ok(both)
}

/// Puts an `if`, of which both parts are written.
pub fn put_if(
    at: Site,
    number: u32,
    test: Term,
    taken: Part,
    skipped: Part,
    room: &mut Room,
) -> Result<(), ValueError>
    ensures { Gives (λ _. seen.room room.new) result (Ok (rules.put_if (site_seen at) number (term test) (seen.part taken) (seen.part skipped) (seen.room room.old))) }
{
    let inside = both_standings(taken.standings, skipped.standings.as_slice())?;
    let statement = if_of(number, test, taken.statements, skipped.statements);
    room.put(statement, at, Sort::Other, inside.as_slice())?;
    Ok(())
}

fn is_assignment(of: &Statement) -> bool
    ensures { result ≡ rules.is_assignment (statement_seen of.now) }
{
    matches!(of, Statement::Set { .. } | Statement::Store { .. })
}

/// Whether statements only assign.
pub fn are_assignments(of: &[Statement]) -> bool
    ensures { result ≡ rules.are_assignments (statements of.now) }
{
    for statement in of {
        if !is_assignment(statement) {
            return false;
        }
    }
    true
}
