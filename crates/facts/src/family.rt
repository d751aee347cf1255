//! The families of symbols.

ghost use Rattle.std.specs.Prelude.{◌≡◌, ◌<◌, ◌+◌, ◌*◌, ◌/◌, ◌^◌, ℕ};
ghost use Rattle.facts.specs.Symbols.{number as number_of, symbol_of};
ghost use Rattle.facts.specs.Families.{symbol_in};

use crate::side::Side;
use linear::Symbol;

/// What a symbol stands for, its index aside: of the launch a group count, an argument or a buffer's length; of an item its local id, its
/// group id, a new symbol along its path, a private variable where the path begins, that variable at the anchor before it, and what ranked
/// a loop when its test was last true.
#[derive(Clone, Copy, PartialEq, Eq)]
pub enum Family {
    Groups,
    Argument,
    Length,
    Local(Side),
    Group(Side),
    New(Side),
    Variable(Side),
    AtAnchor(Side),
    Turns(Side),
}

impl Family {
    /// The family of a symbol. Numbers that no symbol has are taken for turns of the first item.
    #[tactic(auto, unfolding(crate::specs::Symbols::symbol_of), using(crate::proofs::Families::families))]
    pub fn of(symbol: Symbol) -> Family
        ensures { symbol_of symbol.number ≡ symbol_in result (symbol.number / 16) }
    {
        let number = symbol.number % 16;
        if number == 15 {
            return Family::Turns(Side::First);
        }
        match number {
            0 => Family::Groups,
            1 => Family::Argument,
            2 => Family::Length,
            3 => Family::Local(Side::First),
            4 => Family::Group(Side::First),
            5 => Family::New(Side::First),
            6 => Family::Variable(Side::First),
            7 => Family::AtAnchor(Side::First),
            8 => Family::Turns(Side::First),
            9 => Family::Local(Side::Second),
            10 => Family::Group(Side::Second),
            11 => Family::New(Side::Second),
            12 => Family::Variable(Side::Second),
            13 => Family::AtAnchor(Side::Second),
            _ => Family::Turns(Side::Second),
        }
    }

    /// The number of the first symbol of the family: 0 to 14. The others follow it in steps of 16.
    fn number(self) -> u64
        ensures value { (index : ℕ) → number_of (symbol_in self index) ≡ result + 16 * index }
        ensures small { result < 15 }
    {
        match self {
            Family::Groups => 0,
            Family::Argument => 1,
            Family::Length => 2,
            Family::Local(Side::First) => 3,
            Family::Group(Side::First) => 4,
            Family::New(Side::First) => 5,
            Family::Variable(Side::First) => 6,
            Family::AtAnchor(Side::First) => 7,
            Family::Turns(Side::First) => 8,
            Family::Local(Side::Second) => 9,
            Family::Group(Side::Second) => 10,
            Family::New(Side::Second) => 11,
            Family::Variable(Side::Second) => 12,
            Family::AtAnchor(Side::Second) => 13,
            Family::Turns(Side::Second) => 14,
        }
    }

    /// The symbol of that index: a dimension, a parameter, a buffer, a slot or a loop's number, or how many new symbols there were before.
    pub fn symbol(self, index: u64) -> Symbol
        requires { index < 1152921504606846976 }
        ensures { result.number ≡ number_of (symbol_in self index) }
    {
        Symbol {
            number: self.number() + 16 * index,
        }
    }
}
