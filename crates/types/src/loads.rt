//! Where an expression loads first.

ghost use Rattle.std.specs.Prelude.{◌≡◌};
ghost use Rattle.std.specs.Option.{option_map};
ghost use Rattle.texts.specs.Limits as limits;
ghost use Rattle.types.specs.Elaboration as elaboration;
ghost use Rattle.syntax.specs.View.{expression, expressions};
ghost use Rattle.core_code.specs.View.{site as site_of};

use core_code::tree::Site;
use syntax::tree::Expr;

fn either(first: Option<Site>, second: Option<Site>) -> Option<Site>
    ensures { option_map site_of result ≡ limits.either (option_map site_of first) (option_map site_of second) }
{
    match first {
        Some(site) => Some(site),
        None => second,
    }
}

#[cycle(loads)]
fn first_load_in(arguments: &[Expr]) -> Option<Site>
    ensures { option_map site_of result ≡ elaboration.first_load_in (expressions arguments.now) }
{
    for argument in arguments {
        if let Some(site) = first_load(argument) {
            return Some(site);
        }
    }
    None
}

/// The place of an expression's first load, where it has one.
#[cycle(loads)]
#[tactic(auto, using(syntax::proofs::Rows::seen_call))]
pub fn first_load(e: &Expr) -> Option<Site>
    ensures { option_map site_of result ≡ elaboration.first_load (expression e.now) }
{
    match e {
        Expr::Number { .. } | Expr::Name { .. } => None,
        Expr::Element { site, .. } => Some(*site),
        Expr::Call { arguments, .. } => first_load_in(arguments.as_slice()),
        Expr::Prefix { of, .. } | Expr::Cast { of, .. } => first_load(of),
        Expr::Infix { left, right, .. } => either(first_load(left), first_load(right)),
        Expr::Conditional {
            test,
            taken,
            skipped,
            ..
        } => either(
            first_load(test),
            either(first_load(taken), first_load(skipped)),
        ),
    }
}
