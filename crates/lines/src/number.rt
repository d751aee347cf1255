//! Numbers as they are written in decimal.

ghost use Rattle.std.specs.Prelude.{◌≡◌, ◌<◌, ◌≤◌, ◌^◌, false, IfOk, MatchOption};
ghost use Rattle.std.specs.Str.{all_ascii_digits};
ghost use Rattle.lines.specs.Bytes.{is_well_spelt};
ghost use Rattle.lines.specs.Lines.{is_decimal, value_of, natural_of, negative_of, integer_of};
ghost use Rattle.lines.specs.Numbers.{seen};

/// The faults for which a word is no number.
#[derive(Clone, Copy, Debug, PartialEq, Eq)]
pub enum NumberFault {
    NoDecimal,
    TooLarge,
}

/// A number from 0 on, where `i64` has it.
#[tactic(auto, unfolding(crate::specs::Lines::natural_of))]
pub fn natural(word: &[u8]) -> Result<u64, NumberFault>
    ensures exact { seen result ≡ natural_of word.now }
    ensures fits { IfOk result (λ n. n < 2 ^ 63) }
{
    if !is_decimal(word) {
        return Err(NumberFault::NoDecimal);
    }
    match value_of(word) {
        Some(n) if n < 1 << 63 => Ok(n),
        _ => Err(NumberFault::TooLarge),
    }
}

/// A number of either sign, where `i64` has it.
#[tactic(auto, unfolding(crate::specs::Lines::integer_of))]
pub fn integer(word: &[u8]) -> Result<i64, NumberFault>
    ensures { seen result ≡ integer_of word.now }
{
    if word.starts_with(b"-") {
        return negative(&word[1..]);
    }
    match natural(word) {
        Ok(n) => Ok(n as i64),
        Err(fault) => Err(fault),
    }
}

fn negative(digits: &[u8]) -> Result<i64, NumberFault>
    ensures { seen result ≡ negative_of digits.now }
{
    if !is_decimal(digits) {
        return Err(NumberFault::NoDecimal);
    }
    match value_of(digits) {
        Some(0) => Err(NumberFault::NoDecimal),
        Some(n) => match 0i64.checked_sub_unsigned(n) {
            Some(negative) => Ok(negative),
            None => Err(NumberFault::TooLarge),
        },
        None => Err(NumberFault::TooLarge),
    }
}

fn is_decimal(word: &[u8]) -> bool
    ensures { result ≡ is_decimal word.now }
{
    are_digits(word) && is_well_spelt(word)
}

fn are_digits(word: &[u8]) -> bool
    ensures { result ≡ all_ascii_digits word.now }
{
    for b in word {
        if !b.is_ascii_digit() {
            return false;
        }
    }
    true
}

fn is_well_spelt(digits: &[u8]) -> bool
    ensures { result ≡ is_well_spelt false digits.now }
{
    match digits {
        [] => false,
        [_] => true,
        [first, ..] => *first != b'0',
    }
}

/// The number that decimal digits stand for; none where 64 bits do not hold it.
fn value_of(digits: &[u8]) -> Option<u64>
    ensures { MatchOption result (2 ^ 64 ≤ value_of digits.now) (λ n. n ≡ value_of digits.now) }
{
    let mut n: u64 = 0;
    for b in digits {
        let Some(higher) = n.checked_mul(10) else {
            return None;
        };
        let Some(sum) = higher.checked_add(u64::from(b.saturating_sub(48))) else {
            return None;
        };
        n = sum;
    }
    Some(n)
}
