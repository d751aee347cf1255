//! Fence flags, and calls that stand as statements.

ghost use Rattle.std.specs.Prelude.{◌≡◌};
ghost use Rattle.semantics.specs.Core as core;
ghost use Rattle.core_code.specs.View.{site as site_seen};
ghost use Rattle.syntax.specs.View.{infix_sign};
ghost use Rattle.texts.specs.Surface as surface;
ghost use Rattle.opencl_tree.specs.Tree as tree;
ghost use Rattle.opencl_tree.specs.View.{expression, expressions};
ghost use Rattle.opencl_values.specs.View.{Gives};
ghost use Rattle.opencl_core.specs.Flags as rules;
ghost use Rattle.opencl_core.specs.View as seen;

use crate::rooms::Room;
use crate::sites::begin_of;
use crate::vector_stores::write_vector;
use core_code::tree::{Operator, Site, Statement};
use kernel_names::Sort;
use opencl_tree::tree::Expr;
use opencl_values::error::{Construct, Fault, ValueError, refused};
use opencl_values::scope::meaning_of;
use opencl_values::widened::written_width;
use std::alloc::Global;
use syntax::tree::InfixSign;

/// Which fences there are.
#[derive(Clone, Copy)]
pub struct Fences {
    pub local: bool,
    pub global: bool,
}

// Whether a flag is the local one.
fn flag_named(name: &str) -> Option<bool>
    ensures { result ≡ rules.flag_named name.now }
{
    if name == "CLK_LOCAL_MEM_FENCE" {
        Some(true)
    } else if name == "CLK_GLOBAL_MEM_FENCE" {
        Some(false)
    } else {
        None
    }
}

fn one_flag(flag: &Expr) -> Result<bool, ValueError>
    ensures { Gives (λ local. local) result (rules.one_flag (expression flag.now)) }
{
    let Expr::Name { site, name } = flag else {
        return refused(Fault::BarrierFlags, begin_of(flag));
    };
    match flag_named(name.as_str()) {
        Some(local) => Ok(local),
        None => refused(Fault::BarrierFlags, *site),
    }
}

// Both flags joined by `|`, in either order; no other sign joins them.
fn joined(at: Site, sign: InfixSign, left: &Expr, right: &Expr) -> Result<Fences, ValueError>
    ensures { Gives seen.fences result (rules.fences_of (tree.Infix (site_seen at) (infix_sign sign) (expression left.now) (expression right.now))) }
{
    let InfixSign::Arithmetic(Operator::BitOr) = sign else {
        return refused(Fault::BarrierFlags, begin_of(left));
    };
    if one_flag(left)? == one_flag(right)? {
        return refused(Fault::BarrierFlags, begin_of(right));
    }
    Ok(Fences {
        local: true,
        global: true,
    })
}

/// One flag, or both joined by `|`.
pub fn fences_of(flags: &Expr) -> Result<Fences, ValueError>
    ensures { Gives seen.fences result (rules.fences_of (expression flags.now)) }
{
    if let Expr::Infix {
        site,
        sign,
        left,
        right,
    } = flags
    {
        return joined(*site, *sign, left, right);
    }
    let local = one_flag(flags)?;
    Ok(Fences {
        local,
        global: !local,
    })
}

// The flags of just one argument.
#[tactic(auto, using(crate::proofs::Arguments::arguments))]
fn fences_in(at: Site, arguments: &[Expr]) -> Result<Fences, ValueError>
    ensures { Gives seen.fences result (rules.fences_in (site_seen at) (expressions arguments.now)) }
{
    match arguments {
        [flags] => fences_of(flags),
        _ => refused(Fault::BarrierFlags, at),
    }
}

fn is_fence(name: &str) -> bool
    ensures { result ≡ rules.is_fence name.now }
{
    name == "mem_fence" || name == "read_mem_fence" || name == "write_mem_fence"
}

fn barrier(at: Site, arguments: &[Expr], room: &mut Room) -> Result<(), ValueError>
    ensures { Gives (λ _. seen.room room.new) result (rules.barrier (site_seen at) (expressions arguments.now) (seen.room room.old)) }
{
    let Fences { local, global } = fences_in(at, arguments)?;
    let number = room.count(at)?;
    let statement = Statement::Barrier {
        number,
        local,
        global,
    };
    room.put(statement, at, Sort::Waiting, &[])?;
    Ok(())
}

/// Whether a name is visible, so that it is no built-in one.
pub fn is_hidden(room: &Room, name: &str) -> bool
    ensures { result ≡ rules.is_hidden (seen.room room.now) name.now }
{
    meaning_of(&room.visible, name).is_some()
}

// Whether a file's own function or flag hides the built-in one.
fn is_own(name: &str, room: &Room) -> bool
    ensures { result ≡ rules.is_own name.now (seen.room room.now) }
{
    is_hidden(room, name)
        || is_hidden(room, "CLK_LOCAL_MEM_FENCE")
        || is_hidden(room, "CLK_GLOBAL_MEM_FENCE")
}

fn built_in(
    alloc: Global,
    at: Site,
    name: &str,
    arguments: &[Expr],
    room: &mut Room,
) -> Result<(), ValueError>
    ensures { Gives (λ _. seen.room room.new) result (rules.built_in (site_seen at) name.now (expressions arguments.now) (seen.room room.old)) }
{
    if name == "barrier" {
        return barrier(at, arguments, room);
    }
    if is_fence(name) {
        fences_in(at, arguments)?;
        return Ok(());
    }
    match written_width(name) {
        Some(width) => write_vector(alloc, at, width, arguments, room),
        None => refused(Fault::LeftOut(Construct::Effect), at),
    }
}

/// Writes a call that stands as a statement: a barrier, for which there is one, a fence, for which there is none, or stores of a vector.
pub fn called(
    alloc: Global,
    at: Site,
    name: &str,
    arguments: &[Expr],
    room: &mut Room,
) -> Result<(), ValueError>
    ensures { Gives (λ _. seen.room room.new) result (rules.called (site_seen at) name.now (expressions arguments.now) (seen.room room.old)) }
{
    if is_own(name, room) {
        return refused(Fault::LeftOut(Construct::Outside), at);
    }
    built_in(alloc, at, name, arguments, room)
}
