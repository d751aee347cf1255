//! Where expressions begin.

ghost use Rattle.std.specs.Prelude.{◌≡◌};
ghost use Rattle.core_code.specs.View.{site as site_seen};
ghost use Rattle.opencl_tree.specs.View.{expression};
ghost use Rattle.opencl_core.specs.Sites as rules;

use core_code::tree::Site;
use opencl_tree::tree::{Expr, Side};

/// The place at which an expression begins; parentheses around it are not counted.
pub fn begin_of(of: &Expr) -> Site
    ensures { site_seen result ≡ rules.begin_of (expression of.now) }
{
    match of {
        Expr::Integer { site, .. }
        | Expr::Real { site, .. }
        | Expr::Name { site, .. }
        | Expr::Call { site, .. }
        | Expr::Prefix { site, .. }
        | Expr::Cast { site, .. }
        | Expr::Vector { site, .. }
        | Expr::SizeofType { site, .. }
        | Expr::SizeofOf { site, .. } => *site,
        Expr::Step { site, side, of, .. } => match side {
            Side::Before => *site,
            Side::Behind => begin_of(of),
        },
        Expr::Index { of, .. } | Expr::Member { of, .. } => begin_of(of),
        Expr::Infix { left, .. } => begin_of(left),
        Expr::Conditional { test, .. } => begin_of(test),
        Expr::Assign { target, .. } => begin_of(target),
        Expr::Comma { first, .. } => begin_of(first),
    }
}
