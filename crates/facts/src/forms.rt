//! Forms of one symbol, and of differences.

ghost use Rattle.std.specs.Prelude.{◌≡◌, ◌<◌, ◌^◌, MatchResult};
ghost use Rattle.linear.specs.Forms.{form};
ghost use Rattle.linear.specs.Exact as linear_exact;
ghost use Rattle.facts.specs.Symbols as symbols;
ghost use Rattle.facts.specs.View.{side};
ghost use Rattle.facts.specs.Families.{symbol_in};
ghost use Rattle.facts.specs.Refusals.{IsMemory, IsUnfit};

use crate::error::WalkError;
use crate::family::Family;
use crate::side::Side;
use linear::Form;
use std::alloc::Global;

/// A symbol of a family, once.
fn once(alloc: Global, family: Family, index: usize) -> Result<Form, WalkError>
    requires { index < 2 ^ 60 }
    ensures { MatchResult result (λ f. form f ≡ symbols.once (symbol_in family index)) IsMemory }
{
    let form = Form::symbol(alloc, family.symbol(index as u64))?;
    Ok(form)
}

/// The form that is the group count of a dimension, once.
pub fn once_groups(alloc: Global, dimension: u32) -> Result<Form, WalkError>
    ensures { MatchResult result (λ f. form f ≡ symbols.once (symbols.Groups dimension)) IsMemory }
{
    once(alloc, Family::Groups, dimension as usize)
}

/// The form that is the argument of a value parameter, once.
pub fn once_given(alloc: Global, parameter: usize) -> Result<Form, WalkError>
    requires { parameter < 2 ^ 59 }
    ensures { MatchResult result (λ f. form f ≡ symbols.once (symbols.ArgumentOf parameter)) IsMemory }
{
    once(alloc, Family::Argument, parameter)
}

/// The form that is the length of a buffer, once.
pub fn once_length(alloc: Global, buffer: usize) -> Result<Form, WalkError>
    requires { buffer < 2 ^ 59 }
    ensures { MatchResult result (λ f. form f ≡ symbols.once (symbols.Length buffer)) IsMemory }
{
    once(alloc, Family::Length, buffer)
}

/// The form that is an item's local id in a dimension, once.
pub fn once_local(alloc: Global, item: Side, dimension: u32) -> Result<Form, WalkError>
    ensures { MatchResult result (λ f. form f ≡ symbols.once (symbols.Local (side item) dimension)) IsMemory }
{
    once(alloc, Family::Local(item), dimension as usize)
}

/// The form that is an item's group id in a dimension, once.
pub fn once_group(alloc: Global, item: Side, dimension: u32) -> Result<Form, WalkError>
    ensures { MatchResult result (λ f. form f ≡ symbols.once (symbols.Group (side item) dimension)) IsMemory }
{
    once(alloc, Family::Group(item), dimension as usize)
}

/// The form that is an item's new symbol of this index, once.
pub fn once_new(alloc: Global, item: Side, index: usize) -> Result<Form, WalkError>
    requires { index < 2 ^ 60 }
    ensures { MatchResult result (λ f. form f ≡ symbols.once (symbols.New (side item) index)) IsMemory }
{
    once(alloc, Family::New(item), index)
}

/// A form less a number.
pub fn less_number(alloc: Global, of: &Form, number: i64) -> Result<Form, WalkError>
    ensures { MatchResult result (λ f. form f ≡ symbols.minus (form of.now) (symbols.constant number))
        (λ e. IsUnfit e (symbols.minus (form of.now) (symbols.constant number))) }
{
    let constant = Form::constant(alloc, number);
    let difference = of.sub(alloc, &constant)?;
    Ok(difference)
}

/// A number less a form.
pub fn number_less(alloc: Global, number: i64, of: &Form) -> Result<Form, WalkError>
    ensures { MatchResult result (λ f. form f ≡ symbols.minus (symbols.constant number) (form of.now))
        (λ e. IsUnfit e (symbols.minus (symbols.constant number) (form of.now))) }
{
    let constant = Form::constant(alloc, number);
    let difference = constant.sub(alloc, of)?;
    Ok(difference)
}
