//! Nodes of the tree, whose parts are boxed.

ghost use Rattle.std.specs.Prelude.{◌≡◌, IfOk};
ghost use Rattle.syntax.specs.View.{assign_sign};
ghost use Rattle.core_code.specs.View.{site as site_of};
ghost use Rattle.opencl_tree.specs.Tree as tree;
ghost use Rattle.opencl_tree.specs.View.{expression, prefix_sign, step_sign, side as side_of, type_name};
ghost use Rattle.opencl_parser.specs.Signs.{joined as joined_of};
ghost use Rattle.opencl_parser.specs.View.{join as join_of};

use crate::signs::Join;
use core_code::tree::Site;
use opencl_tree::tree::{Expr, PrefixSign, Side, StepSign};
use opencl_tree::types::TypeName;
use std::alloc::{AllocError, Global};
use syntax::tree::AssignSign;

/// A left operand and a right one, with what joins them.
pub fn joined(
    alloc: Global,
    join: Join,
    site: Site,
    left: Expr,
    right: Expr,
) -> Result<Expr, AllocError>
    ensures { IfOk result (λ e. expression e ≡ joined_of (join_of join) (site_of site) (expression left) (expression right)) }
{
    let left = Box::new(alloc, left)?;
    let right = Box::new(alloc, right)?;
    match join {
        Join::Operates(sign) => Ok(Expr::Infix {
            site,
            sign,
            left,
            right,
        }),
        Join::Sequence => Ok(Expr::Comma {
            site,
            first: left,
            second: right,
        }),
    }
}

pub fn assigned(
    alloc: Global,
    site: Site,
    sign: AssignSign,
    target: Expr,
    value: Expr,
) -> Result<Expr, AllocError>
    ensures { IfOk result (λ e. expression e ≡ tree.Assign (site_of site) (assign_sign sign) (expression target) (expression value)) }
{
    let target = Box::new(alloc, target)?;
    let value = Box::new(alloc, value)?;
    Ok(Expr::Assign {
        site,
        sign,
        target,
        value,
    })
}

pub fn conditional(
    alloc: Global,
    site: Site,
    test: Expr,
    taken: Expr,
    skipped: Expr,
) -> Result<Expr, AllocError>
    ensures { IfOk result (λ e. expression e ≡ tree.Conditional (site_of site) (expression test) (expression taken) (expression skipped)) }
{
    let test = Box::new(alloc, test)?;
    let taken = Box::new(alloc, taken)?;
    let skipped = Box::new(alloc, skipped)?;
    Ok(Expr::Conditional {
        site,
        test,
        taken,
        skipped,
    })
}

pub fn indexed(alloc: Global, site: Site, of: Expr, index: Expr) -> Result<Expr, AllocError>
    ensures { IfOk result (λ e. expression e ≡ tree.Index (site_of site) (expression of) (expression index)) }
{
    let of = Box::new(alloc, of)?;
    let index = Box::new(alloc, index)?;
    Ok(Expr::Index { site, of, index })
}

pub fn member(alloc: Global, site: Site, of: Expr, name: &str) -> Result<Expr, AllocError>
    ensures { IfOk result (λ e. expression e ≡ tree.Member (site_of site) (expression of) name.now) }
{
    let of = Box::new(alloc, of)?;
    let name = String::from_str(alloc, name)?;
    Ok(Expr::Member { site, of, name })
}

pub fn prefixed(alloc: Global, site: Site, sign: PrefixSign, of: Expr) -> Result<Expr, AllocError>
    ensures { IfOk result (λ e. expression e ≡ tree.Prefix (site_of site) (prefix_sign sign) (expression of)) }
{
    let of = Box::new(alloc, of)?;
    Ok(Expr::Prefix { site, sign, of })
}

pub fn stepped(
    alloc: Global,
    site: Site,
    side: Side,
    sign: StepSign,
    of: Expr,
) -> Result<Expr, AllocError>
    ensures { IfOk result (λ e. expression e ≡ tree.Step (site_of site) (side_of side) (step_sign sign) (expression of)) }
{
    let of = Box::new(alloc, of)?;
    Ok(Expr::Step {
        site,
        side,
        sign,
        of,
    })
}

pub fn cast(alloc: Global, site: Site, to: TypeName, of: Expr) -> Result<Expr, AllocError>
    ensures { IfOk result (λ e. expression e ≡ tree.Cast (site_of site) (type_name to) (expression of)) }
{
    let of = Box::new(alloc, of)?;
    Ok(Expr::Cast { site, to, of })
}

pub fn measured(alloc: Global, site: Site, of: Expr) -> Result<Expr, AllocError>
    ensures { IfOk result (λ e. expression e ≡ tree.SizeofOf (site_of site) (expression of)) }
{
    let of = Box::new(alloc, of)?;
    Ok(Expr::SizeofOf { site, of })
}
