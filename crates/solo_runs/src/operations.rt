//! Operations on whole numbers that stand for words of a kind; nothing where a work-item may not go on.

use core_code::tree::{Direction, Operator, Relation, UnaryOperator};
use words::Kind;

/// A number where it is from `low` to `high`.
fn among(low: i64, high: i64, exact: i64) -> Option<i64> {
    if low <= exact && exact <= high {
        Some(exact)
    } else {
        None
    }
}

/// The word of a kind that an exact result gives: a `uint` wraps; none of an `int` or of a size that is out of range.
pub fn settled(kind: Kind, exact: i64) -> Option<i64> {
    match kind {
        Kind::Int => among(-0x8000_0000, 0x7fff_ffff, exact),
        Kind::Uint => Some(exact.rem_euclid(0x1_0000_0000)),
        Kind::Size => among(0, 0xffff_ffff, exact),
    }
}

/// An operand, brought to the operator's kind; of an operator on sizes it stays as it is.
fn brought(kind: Kind, value: i64) -> i64 {
    match kind {
        Kind::Int | Kind::Size => value,
        Kind::Uint => value.rem_euclid(0x1_0000_0000),
    }
}

/// A product, whose low bits alone count but of sizes.
fn product(kind: Kind, left: i64, right: i64) -> Option<i64> {
    match kind {
        Kind::Int | Kind::Uint => Some(left.wrapping_mul(right)),
        Kind::Size => left.checked_mul(right),
    }
}

/// A remainder; none where the quotient is out of range.
fn remainder(kind: Kind, left: i64, right: i64) -> Option<i64> {
    let _quotient = settled(kind, left.checked_div(right)?)?;
    left.checked_rem(right)
}

/// An operand whose bits are taken; none of a size that is out of range.
fn bits(kind: Kind, value: i64) -> Option<i64> {
    match kind {
        Kind::Int | Kind::Uint => Some(value),
        Kind::Size => settled(kind, value),
    }
}

/// Two operands and their operator. Where a number wraps, its low bits are those of the exact one.
pub fn calculated(operator: Operator, kind: Kind, left: i64, right: i64) -> Option<i64> {
    let left = brought(kind, left);
    let right = brought(kind, right);
    let exact = match operator {
        Operator::Add => left.wrapping_add(right),
        Operator::Subtract => left.wrapping_sub(right),
        Operator::Multiply => product(kind, left, right)?,
        Operator::Divide => left.checked_div(right)?,
        Operator::Remainder => remainder(kind, left, right)?,
        Operator::BitAnd => bits(kind, left)? & bits(kind, right)?,
        Operator::BitOr => bits(kind, left)? | bits(kind, right)?,
        Operator::BitXor => bits(kind, left)? ^ bits(kind, right)?,
    };
    settled(kind, exact)
}

/// The result of an operator with one operand; none where it is an `int` or a size that is out of range.
pub fn changed(operator: UnaryOperator, kind: Kind, value: i64) -> Option<i64> {
    let value = brought(kind, value);
    let exact = match operator {
        UnaryOperator::Negate => value.wrapping_neg(),
        UnaryOperator::Complement => !value,
        UnaryOperator::ShiftLeft(count) => shifted_left(value, count)?,
        UnaryOperator::ShiftRight(count) => shifted_right(value, count)?,
    };
    settled(kind, exact)
}

fn shifted_left(value: i64, count: u32) -> Option<i64> {
    if count > 31 {
        return None;
    }
    let power = 1i64 << count;
    Some(value.wrapping_mul(power))
}

fn shifted_right(value: i64, count: u32) -> Option<i64> {
    if count > 31 {
        return None;
    }
    Some(value >> count)
}

/// The word of a kind that has the low 32 bits of a number.
fn read_bits(kind: Kind, value: i64) -> i64 {
    let bits = value.rem_euclid(0x1_0000_0000);
    match kind {
        Kind::Int if bits >= 0x8000_0000 => bits - 0x1_0000_0000,
        Kind::Int | Kind::Uint | Kind::Size => bits,
    }
}

/// A number shifted as far as the lowest five bits of another say; to the right it is rounded down.
pub fn shifted(direction: Direction, kind: Kind, value: i64, count: i64) -> i64 {
    let value = read_bits(kind, value);
    let count = count.rem_euclid(32) as u32;
    match direction {
        Direction::Leftward => read_bits(kind, value << count),
        Direction::Rightward => value >> count,
    }
}

/// An index that lies among so many elements.
pub fn within(length: u32, index: i64) -> Option<i64> {
    among(0, length as i64 - 1, index)
}

/// 1 where the relation holds, otherwise 0.
pub fn compared(relation: Relation, kind: Kind, left: i64, right: i64) -> i64 {
    let left = brought(kind, left);
    let right = brought(kind, right);
    let holds = match relation {
        Relation::Less => left < right,
        Relation::AtMost => left <= right,
        Relation::More => left > right,
        Relation::AtLeast => left >= right,
        Relation::Equal => left == right,
        Relation::Unequal => left != right,
    };
    truth(holds)
}

/// The word of a truth value: 1 for true, 0 for false.
pub fn truth(holds: bool) -> i64 {
    if holds { 1 } else { 0 }
}
