//! The factors of products of symbols, by their numbers.

use linear::Symbol;

/// Factors have a place for numbers below this one each.
const PLACE: u64 = 1 << 20;

/// Symbols of this number and more are no factors.
const LARGE: u64 = 1_048_560;

/// Up to three factors in rising order, each as its number and 1; 0 behind the last one.
#[derive(Clone, Copy, PartialEq, Eq)]
pub struct Factors {
    pub first: u64,
    pub second: u64,
    pub third: u64,
}

/// The symbol is a product of others.
pub fn is_product(symbol: Symbol) -> bool {
    symbol.number % 16 == 15
}

impl Factors {
    /// The factors of a symbol, which is its own one factor where it is no product.
    pub fn of(symbol: Symbol) -> Factors {
        if !is_product(symbol) {
            return Factors {
                first: symbol.number.saturating_add(1),
                second: 0,
                third: 0,
            };
        }
        let all = symbol.number / 16;
        Factors {
            first: all % PLACE,
            second: (all / PLACE) % PLACE,
            third: (all / PLACE) / PLACE,
        }
    }

    /// The symbol of these factors.
    pub fn symbol(self) -> Symbol {
        if self.second == 0 {
            return plain(self.first);
        }
        let high = self.third.wrapping_mul(PLACE).wrapping_add(self.second);
        let all = high.wrapping_mul(PLACE).wrapping_add(self.first);
        Symbol {
            number: all.wrapping_mul(16).wrapping_add(15),
        }
    }

    /// The factors one by one as symbols, each once.
    pub fn symbols(self) -> [Option<Symbol>; 3] {
        self.each().map(|factor| {
            if factor == 0 {
                None
            } else {
                Some(plain(factor))
            }
        })
    }

    /// The factors with one more; none where there is no place, or one is too large.
    fn with(self, factor: u64) -> Option<Factors> {
        if self.third != 0 || factor > LARGE || self.first > LARGE {
            return None;
        }
        Some(self.put(factor))
    }

    /// One more factor in its place, where there is room for it.
    fn put(self, factor: u64) -> Factors {
        let Factors { first, second, .. } = self;
        if factor <= first {
            return Factors {
                first: factor,
                second: first,
                third: second,
            };
        }
        if second == 0 || factor <= second {
            return Factors {
                first,
                second: factor,
                third: second,
            };
        }
        Factors {
            first,
            second,
            third: factor,
        }
    }

    /// The factors but for one, which is among them.
    pub fn without(self, factor: u64) -> Factors {
        let Factors {
            first,
            second,
            third,
        } = self;
        if factor == first {
            return Factors {
                first: second,
                second: third,
                third: 0,
            };
        }
        if factor == second {
            return Factors {
                first,
                second: third,
                third: 0,
            };
        }
        Factors {
            first,
            second,
            third: 0,
        }
    }

    /// The factors one by one, 0 in the place of one that is not there or was there before.
    pub fn each(self) -> [u64; 3] {
        let second = if self.second == self.first {
            0
        } else {
            self.second
        };
        let third = if self.third == self.second {
            0
        } else {
            self.third
        };
        [self.first, second, third]
    }
}

/// The symbol of a factor alone.
pub fn plain(factor: u64) -> Symbol {
    Symbol {
        number: factor.saturating_sub(1),
    }
}

/// The product of two symbols; none where it has more than three factors, or one is too large.
pub fn times(one: Symbol, other: Symbol) -> Option<Symbol> {
    let first = Factors::of(one);
    let second = Factors::of(other);
    let both = if first.second == 0 {
        second.with(first.first)
    } else if second.second == 0 {
        first.with(second.first)
    } else {
        None
    };
    both.map(Factors::symbol)
}
