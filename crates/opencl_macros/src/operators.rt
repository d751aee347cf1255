//! What the operators of a condition give.

ghost use Rattle.std.specs.Prelude.{◌≡◌, ◌≤◌, ◌<◌, ◌^◌, Some};
ghost use Rattle.opencl_macros.specs.Operators as meaning;
ghost use Rattle.opencl_macros.specs.SeenConditions.{binary as binary_seen};

/// An operator of two operands.
#[derive(Clone, Copy)]
pub enum Binary {
    Times,
    Divided,
    Rest,
    Plus,
    Minus,
    ShiftLeft,
    ShiftRight,
    Less,
    Greater,
    LessEqual,
    GreaterEqual,
    Equal,
    NotEqual,
    And,
    Xor,
    Or,
    Both,
    Either,
}

fn settled(n: u64) -> Option<u64>
    ensures { result ≡ meaning.settled n }
{
    if n < 9_223_372_036_854_775_808 {
        Some(n)
    } else {
        None
    }
}

fn holding(holds: bool) -> Option<u64>
    ensures { result ≡ meaning.holding holds }
{
    Some(if holds { 1 } else { 0 })
}

fn product(a: u64, b: u64) -> Option<u64>
    ensures { result ≡ meaning.reckoned meaning.Times a b }
{
    match a.checked_mul(b) {
        Some(n) => settled(n),
        None => None,
    }
}

fn sum(a: u64, b: u64) -> Option<u64>
    ensures { result ≡ meaning.reckoned meaning.Plus a b }
{
    match a.checked_add(b) {
        Some(n) => settled(n),
        None => None,
    }
}

pub fn difference(a: u64, b: u64) -> Option<u64>
    ensures { result ≡ meaning.difference a b }
{
    if b <= a { Some(a - b) } else { None }
}

fn quotient(a: u64, b: u64) -> Option<u64>
    ensures { result ≡ meaning.quotient a b }
{
    if b == 0 { None } else { Some(a / b) }
}

fn remainder(a: u64, b: u64) -> Option<u64>
    ensures { result ≡ meaning.remainder a b }
{
    if b == 0 { None } else { Some(a % b) }
}

/// A power of two.
fn power(n: u64) -> u64
    requires { n < 63 }
    ensures { result ≡ 2 ^ n }
{
    1 << n
}

fn shifted_left(a: u64, b: u64) -> Option<u64>
    ensures { result ≡ meaning.shifted_left a b }
{
    if b < 63 { product(a, power(b)) } else { None }
}

fn shifted_right(a: u64, b: u64) -> Option<u64>
    ensures { result ≡ meaning.shifted_right a b }
{
    if b < 63 { Some(a / power(b)) } else { None }
}

/// Operators that have both operands.
fn reckoned(op: Binary, a: u64, b: u64) -> Option<u64>
    ensures { result ≡ meaning.reckoned (binary_seen op) a b }
{
    match op {
        Binary::Times => product(a, b),
        Binary::Divided => quotient(a, b),
        Binary::Rest => remainder(a, b),
        Binary::Plus => sum(a, b),
        Binary::Minus => difference(a, b),
        Binary::ShiftLeft => shifted_left(a, b),
        Binary::ShiftRight => shifted_right(a, b),
        Binary::Less => holding(a < b),
        Binary::Greater => holding(b < a),
        Binary::LessEqual => holding(a <= b),
        Binary::GreaterEqual => holding(b <= a),
        Binary::Equal => holding(a == b),
        Binary::NotEqual => holding(a != b),
        Binary::And => settled(a & b),
        Binary::Xor => settled(a ^ b),
        Binary::Or => settled(a | b),
        Binary::Both | Binary::Either => None,
    }
}

fn truth_in(value: Option<u64>) -> Option<u64>
    ensures { result ≡ meaning.truth_in value }
{
    match value {
        None => None,
        Some(n) => holding(n != 0),
    }
}

fn both_hold(a: Option<u64>, b: Option<u64>) -> Option<u64>
    ensures { result ≡ meaning.both_hold a b }
{
    match a {
        None => None,
        Some(n) => { if n == 0 { holding(false) } else { truth_in(b) } }
    }
}

fn one_holds(a: Option<u64>, b: Option<u64>) -> Option<u64>
    ensures { result ≡ meaning.one_holds a b }
{
    match a {
        None => None,
        Some(n) => { if n == 0 { truth_in(b) } else { holding(true) } }
    }
}

fn on_two(op: Binary, a: Option<u64>, b: Option<u64>) -> Option<u64>
    ensures { result ≡ meaning.on_two a b (meaning.reckoned (binary_seen op)) }
{
    match a {
        None => None,
        Some(x) => match b {
            None => None,
            Some(y) => reckoned(op, x, y),
        },
    }
}

pub fn binary_value(op: Binary, a: Option<u64>, b: Option<u64>) -> Option<u64>
    ensures { result ≡ meaning.binary (binary_seen op) a b }
{
    match op {
        Binary::Both => both_hold(a, b),
        Binary::Either => one_holds(a, b),
        _ => on_two(op, a, b),
    }
}

/// A number taken from 0.
pub fn negative(a: Option<u64>) -> Option<u64>
    ensures { result ≡ meaning.on_two (Some 0) a meaning.difference }
{
    match a {
        None => None,
        Some(n) => difference(0, n),
    }
}

pub fn negated(a: Option<u64>) -> Option<u64>
    ensures { result ≡ meaning.negated a }
{
    match a {
        None => None,
        Some(n) => holding(n == 0),
    }
}

/// Of two values one is chosen.
pub fn choice(c: Option<u64>, a: Option<u64>, b: Option<u64>) -> Option<u64>
    ensures { result ≡ meaning.choice c a b }
{
    match c {
        None => None,
        Some(n) => { if n == 0 { b } else { a } }
    }
}

/// The rank of an operator: the greater it is, the tighter the operator binds.
pub fn tightness(op: Binary) -> u32
    ensures is { result ≡ meaning.tightness (binary_seen op) }
    ensures few { result ≤ 11 }
{
    match op {
        Binary::Times | Binary::Divided | Binary::Rest => 11,
        Binary::Plus | Binary::Minus => 10,
        Binary::ShiftLeft | Binary::ShiftRight => 9,
        Binary::Less | Binary::Greater | Binary::LessEqual | Binary::GreaterEqual => 8,
        Binary::Equal | Binary::NotEqual => 7,
        Binary::And => 6,
        Binary::Xor => 5,
        Binary::Or => 4,
        Binary::Both => 3,
        Binary::Either => 2,
    }
}
