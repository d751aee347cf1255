//! Terms that may be written twice.

ghost use Rattle.std.specs.Prelude.{◌≡◌};
ghost use Rattle.core_code.specs.View.{term};
ghost use Rattle.opencl_core.specs.Repeating as rules;

use core_code::tree::Term;

/// Whether a term has no load and no operation that is not reckoned.
pub fn is_steady(of: &Term) -> bool
    ensures { result ≡ rules.is_steady (term of.now) }
{
    match of {
        Term::Literal { .. } | Term::Variable { .. } | Term::Id { .. } => true,
        Term::Load { .. } | Term::Opaque { .. } => false,
        Term::Unary { of, .. } | Term::Convert { of, .. } | Term::Not { of } => is_steady(of),
        Term::Within { index, .. } => is_steady(index),
        Term::Binary { left, right, .. }
        | Term::Compare { left, right, .. }
        | Term::And { left, right }
        | Term::Or { left, right }
        | Term::Minimum { left, right }
        | Term::Maximum { left, right } => is_steady(left) && is_steady(right),
        Term::Shift { value, count, .. } => is_steady(value) && is_steady(count),
        Term::Select {
            test,
            taken,
            skipped,
        } => is_steady(test) && is_steady(taken) && is_steady(skipped),
    }
}
