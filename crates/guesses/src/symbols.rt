//! The symbols of the launch and of the first item.

ghost use Rattle.std.specs.Prelude.{◌<◌};

use crate::factors::{Factors, is_product};
use facts::{Family, Side};
use linear::Symbol;

/// The symbol of the group count of a dimension.
pub fn groups(dimension: u32) -> Symbol {
    Family::Groups.symbol(dimension as u64)
}

/// The symbol of the argument of a value parameter.
pub fn argument(parameter: u32) -> Symbol {
    Family::Argument.symbol(parameter as u64)
}

/// The symbol of a buffer's length.
pub fn length(buffer: u32) -> Symbol {
    Family::Length.symbol(buffer as u64)
}

/// The symbol of an item's local id in a dimension.
pub fn local(dimension: u32) -> Symbol {
    Family::Local(Side::First).symbol(dimension as u64)
}

/// The symbol of an item's group id in a dimension.
pub fn group(dimension: u32) -> Symbol {
    Family::Group(Side::First).symbol(dimension as u64)
}

/// A symbol that is new on a path, or where its place begins.
pub fn new_symbol(index: u32) -> Symbol {
    Family::New(Side::First).symbol(index as u64)
}

/// A private variable where a path begins.
pub fn variable(slot: u32) -> Symbol {
    Family::Variable(Side::First).symbol(slot as u64)
}

/// A private variable at the anchor.
pub fn at_anchor(slot: u32) -> Symbol {
    Family::AtAnchor(Side::First).symbol(slot as u64)
}

/// The symbol of the value of a loop's ranking when its test was last true.
pub fn turns(number: u32) -> Symbol {
    Family::Turns(Side::First).symbol(number as u64)
}

/// The index of a symbol in its family.
pub fn index_of(symbol: Symbol) -> u64
    ensures { result < 1152921504606846976 }
{
    symbol.number / 16
}

/// The symbol is new on a path, or where its place begins.
pub fn is_new(symbol: Symbol) -> bool {
    Family::of(symbol) == Family::New(Side::First)
}

/// The symbol is a private variable where a path begins.
pub fn is_variable(symbol: Symbol) -> bool {
    Family::of(symbol) == Family::Variable(Side::First)
}

/// The symbol is a private variable at the anchor.
pub fn is_at_anchor(symbol: Symbol) -> bool {
    Family::of(symbol) == Family::AtAnchor(Side::First)
}

/// The symbol is what ranked a loop when its test was last true.
pub fn is_turns(symbol: Symbol) -> bool {
    !is_product(symbol) && Family::of(symbol) == Family::Turns(Side::First)
}

/// A factor of the symbol is new on a path.
pub fn has_new(symbol: Symbol) -> bool {
    for factor in Factors::of(symbol).symbols() {
        if factor.is_some_and(is_new) {
            return true;
        }
    }
    false
}

/// A factor of the symbol is a private variable at the anchor.
pub fn has_anchored(symbol: Symbol) -> bool {
    for factor in Factors::of(symbol).symbols() {
        if factor.is_some_and(is_at_anchor) {
            return true;
        }
    }
    false
}

/// A symbol that is no product, of the launch: a group count, an argument or a length.
fn is_of_launch(symbol: Symbol) -> bool {
    matches!(
        Family::of(symbol),
        Family::Groups | Family::Argument | Family::Length
    )
}

/// A symbol of the launch, or a product of such symbols.
pub fn is_launch(symbol: Symbol) -> bool {
    if !is_product(symbol) {
        return is_of_launch(symbol);
    }
    for factor in Factors::of(symbol).symbols() {
        if factor.is_some_and(|one| !is_of_launch(one)) {
            return false;
        }
    }
    true
}

/// A symbol that is no product, of the launch or of the item.
fn is_fixed(symbol: Symbol) -> bool {
    is_of_launch(symbol)
        || matches!(
            Family::of(symbol),
            Family::Local(Side::First) | Family::Group(Side::First)
        )
}

/// A symbol of the launch or of the item, or a product of such symbols: it is the same wherever the item comes.
pub fn is_global(symbol: Symbol) -> bool {
    if !is_product(symbol) {
        return is_fixed(symbol);
    }
    for factor in Factors::of(symbol).symbols() {
        if factor.is_some_and(|one| !is_fixed(one)) {
            return false;
        }
    }
    true
}
