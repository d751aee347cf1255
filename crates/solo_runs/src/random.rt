//! Numbers that look random, and are the same on each run.

use words::Kind;

/// The last number, which is never 0.
#[derive(Clone, Copy)]
pub struct Random {
    state: u64,
}

impl Random {
    /// The numbers at their start, the same on each run.
    pub fn new() -> Random {
        Random {
            state: 0x9e37_79b9_7f4a_7c15,
        }
    }

    /// The next number (Marsaglia's xorshift).
    fn next(&mut self) -> u64 {
        let mut state = self.state;
        state ^= state << 13;
        state ^= state >> 7;
        state ^= state << 17;
        self.state = state;
        state
    }

    /// A random number below `end`, or 0 where that is 0.
    pub fn below(&mut self, end: u64) -> u64 {
        let next = self.next() >> 11;
        next.checked_rem(end).unwrap_or(0)
    }

    /// A random number from `low` to `high`.
    pub fn between(&mut self, low: i64, high: i64) -> i64 {
        let Some(span) = high.checked_sub(low) else {
            return low;
        };
        let step = self.below(span.unsigned_abs().saturating_add(1));
        match i64::try_from(step) {
            Ok(step) => low.saturating_add(step),
            Err(_) => low,
        }
    }

    /// The number that a load of that kind gives: most often a small one, now and then one near the kind's ends.
    pub fn loaded(&mut self, kind: Kind) -> i64 {
        let (low, high) = match kind {
            Kind::Int => (-0x8000_0000, 0x7fff_ffff),
            Kind::Uint | Kind::Size => (0, 0xffff_ffff),
        };
        match self.below(20) {
            0..=7 => self.between(0, 4),
            8..=13 => self.between(0, 299),
            14..=15 => self.between(high - 1, high),
            16 => self.between(65_535, 65_536),
            _ => self.between(low, high),
        }
    }

    /// A number where it is from `low` to `high`; else one that is, most often an end.
    pub fn within(&mut self, number: i64, low: i64, high: i64) -> i64 {
        if low <= number && number <= high {
            return number;
        }
        match self.below(4) {
            0 => low,
            1 => high,
            2 => self.between(low, high),
            _ if number < low => low,
            _ => high,
        }
    }
}
