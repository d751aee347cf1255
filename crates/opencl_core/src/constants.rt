//! Numbers that a text fixes.

ghost use Rattle.std.specs.Prelude.{◌≡◌, ℕ, ◌+◌, ◌*◌, ◌^◌, ◌<◌, IfSome};
ghost use Rattle.core_code.specs.View.{direction as direction_seen, operator as operator_seen, term};
ghost use Rattle.opencl_core.specs.Constants as rules;

use core_code::tree::{Direction, Operator, Term};

/// One more than the largest.
const TOO_LARGE: u64 = 2_147_483_648;

fn small(n: u64) -> Option<u32>
    ensures value { result ≡ rules.small n }
    ensures limit { IfSome result (λ m. m < 2147483648) }
{
    if n < TOO_LARGE { Some(n as u32) } else { None }
}

fn calculated(operator: Operator, left: u32, right: u32) -> Option<u32>
    requires left { left < 2147483648 }
    requires right { right < 2147483648 }
    ensures value { result ≡ rules.calculated (operator_seen operator) left right }
    ensures limit { IfSome result (λ m. m < 2147483648) }
{
    match operator {
        Operator::Add => small(u64::from(left) + u64::from(right)),
        Operator::Subtract if right <= left => Some(left - right),
        Operator::Multiply => small(u64::from(left) * u64::from(right)),
        Operator::Divide if right != 0 => Some(left / right),
        Operator::Remainder if right != 0 => Some(left % right),
        _ => None,
    }
}

fn shifted(direction: Direction, value: u32, count: u32) -> Option<u32>
    requires { value < 2147483648 }
    ensures value { result ≡ rules.shifted (direction_seen direction) value count }
    ensures limit { IfSome result (λ m. m < 2147483648) }
{
    if count >= 32 {
        return None;
    }
    match direction {
        Direction::Leftward => small(u64::from(value) << count),
        Direction::Rightward => Some(value >> count),
    }
}

/// The number that a term of literals is, below 2^31 in all its parts; none for other terms.
pub fn constant_of(of: &Term) -> Option<u32>
    ensures value { result ≡ rules.constant_of (term of.now) }
    ensures limit { IfSome result (λ m. m < 2147483648) }
{
    match of {
        Term::Literal { value, .. } => small(u64::from(*value)),
        Term::Convert { of, .. } => constant_of(of),
        Term::Binary {
            operator,
            left,
            right,
            ..
        } => {
            let left = constant_of(left)?;
            let right = constant_of(right)?;
            calculated(*operator, left, right)
        }
        Term::Shift {
            direction,
            value,
            count,
            ..
        } => {
            let value = constant_of(value)?;
            let count = constant_of(count)?;
            shifted(*direction, value, count)
        }
        _ => None,
    }
}
