//! Barriers and their fence flags.

ghost use Rattle.std.specs.Prelude.{◌≡◌};
ghost use Rattle.types.specs.Elaboration as elaboration;
ghost use Rattle.texts.specs.Surface as surface;
ghost use Rattle.syntax.specs.View.{infix_sign, expression};
ghost use Rattle.core_code.specs.View.{site as site_of};
ghost use Rattle.core_code.specs.View.{statement};
ghost use Rattle.types.specs.Answers.{Gives};

use crate::error::{TypeError, TypeFault};
use core_code::tree::{Operator, Site, Statement};
use syntax::tree::{Expr, InfixSign};

// Whether a flag is the local one.
fn flag_named(name: &str) -> Option<bool>
    ensures { result ≡ elaboration.flag_named name.now }
{
    if name == "CLK_LOCAL_MEM_FENCE" {
        Some(true)
    } else if name == "CLK_GLOBAL_MEM_FENCE" {
        Some(false)
    } else {
        None
    }
}

fn refused<T>(site: Site) -> Result<T, TypeError>
    ensures { result ≡ Err (TypeError.At TypeFault.BarrierFlags site) }
{
    Err(TypeError::At {
        fault: TypeFault::BarrierFlags,
        site,
    })
}

fn one_flag(flag: &Expr) -> Result<bool, TypeError>
    ensures { Gives (λ local. local) result (elaboration.one_flag (expression flag.now)) }
{
    let Expr::Name { site, name } = flag else {
        return refused(flag.site());
    };
    match flag_named(name.as_str()) {
        Some(local) => Ok(local),
        None => refused(*site),
    }
}

// Both flags joined by `|`, in either order; no other sign joins them.
fn joined(
    number: u32,
    at: Site,
    sign: InfixSign,
    left: &Expr,
    right: &Expr,
) -> Result<Statement, TypeError>
    ensures { Gives statement result (elaboration.barrier_of number (surface.Infix (site_of at) (infix_sign sign) (expression left.now) (expression right.now))) }
{
    let InfixSign::Arithmetic(Operator::BitOr) = sign else {
        return refused(at);
    };
    if one_flag(left)? == one_flag(right)? {
        return refused(right.site());
    }
    Ok(Statement::Barrier {
        number,
        local: true,
        global: true,
    })
}

/// The core statement of a barrier with these flags: one, or both joined by `|`.
pub fn barrier_of(number: u32, flags: &Expr) -> Result<Statement, TypeError>
    ensures { Gives statement result (elaboration.barrier_of number (expression flags.now)) }
{
    if let Expr::Infix {
        site,
        sign,
        left,
        right,
    } = flags
    {
        return joined(number, *site, *sign, left, right);
    }
    let local = one_flag(flags)?;
    Ok(Statement::Barrier {
        number,
        local,
        global: !local,
    })
}
