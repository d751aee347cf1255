//! What conditions say of each launch that meets them, and of its items.

ghost use Rattle.std.specs.Prelude.{◌≡◌, ◌<◌, ◌++◌, ◌∷◌, [], ℕ, pos, ◌*◌, ◌^◌, ◌≤◌, ◌-ℤ◌, IfOk, IfSome, None, Some, MatchOption};
ghost use Rattle.std.specs.Prelude.{MatchResult, map};
ghost use Rattle.linear.specs.Forms.{form as form_seen, forms};
ghost use Rattle.linear.specs.Sizes.{size};
ghost use Rattle.words.specs.View.{value_of};
ghost use Rattle.launch.specs.Numbers.{number as number_seen};
ghost use Rattle.launch.specs.View.{factor as factor_seen, summand as summand_seen, sum as sum_seen, length_sum};
ghost use Rattle.launch.specs.View.{requirement as requirement_seen, dimension as dimension_seen};
ghost use Rattle.launch.specs.View.{count_range as count_range_seen, argument_range as argument_range_seen};
ghost use Rattle.launch.specs.View.{conditions as conditions_seen};
ghost use Rattle.semantics.specs.Setup.{along};
ghost use Rattle.semantics.specs.Conditions as meaning;
ghost use Rattle.facts.specs.Symbols as symbols;
ghost use Rattle.facts.specs.Launching as launching;
ghost use Rattle.facts.specs.View.{side, three};
ghost use Rattle.facts.specs.Refusals.{IsMemory};

use crate::error::WalkError;
use crate::forms::{
    less_number, number_less, once_given, once_group, once_groups, once_length, once_local,
};
use crate::side::Side;
use launch::conditions::{
    ArgumentRange, Conditions, CountRange, Dimension, Factor, Length, Requirement, Sum, Summand,
};
use launch::number::Number;
use linear::Form;
use std::alloc::Global;
use words::Word;

/// A number of 32 bits and a sign.
fn signed(number: Number) -> i64
    ensures { result ≡ number_seen number }
{
    if number.negative {
        -(number.size as i64)
    } else {
        number.size as i64
    }
}

/// The number of a dimension, from 0 to 2.
fn index_of(dimension: Dimension) -> u32
    ensures { result ≡ dimension_seen dimension }
{
    match dimension {
        Dimension::X => 0,
        Dimension::Y => 1,
        Dimension::Z => 2,
    }
}

/// The form that is an argument or a group count, once.
fn factor_form(alloc: Global, factor: Factor) -> Result<Form, WalkError>
    ensures { MatchResult result (λ f. form_seen f ≡ symbols.once (launching.factor_symbol (factor_seen factor))) IsMemory }
{
    match factor {
        Factor::Argument(parameter) => once_given(alloc, parameter as usize),
        Factor::Groups(dimension) => once_groups(alloc, index_of(dimension)),
    }
}

/// The form that is the product of two arguments or group counts, once, if it has a symbol.
fn product_form(alloc: Global, first: Factor, second: Factor) -> Result<Option<Form>, WalkError>
    ensures { MatchResult result (λ r. MatchOption r (launching.product_form (factor_seen first) (factor_seen second) ≡ None)
        (λ f. launching.product_form (factor_seen first) (factor_seen second) ≡ Some (form_seen f))) IsMemory }
{
    let left = factor_form(alloc, first)?;
    let right = factor_form(alloc, second)?;
    let product = left.product(alloc, &right)?;
    Ok(product)
}

/// The form of a product in a sum of conditions, if the product has a symbol.
fn multiple_form(
    alloc: Global,
    number: Number,
    first: Factor,
    second: Factor,
) -> Result<Option<Form>, WalkError>
    ensures exact { MatchResult result (λ r. MatchOption r
        (launching.summand_form (meaning.Product (number_seen number) (factor_seen first) (factor_seen second)) ≡ None)
        (λ f. launching.summand_form (meaning.Product (number_seen number) (factor_seen first) (factor_seen second))
        ≡ Some (form_seen f))) IsMemory }
    ensures small { IfOk result (λ r. IfSome r (λ f. size (form_seen f) ≤ 4294967295)) }
{
    let Some(product) = product_form(alloc, first, second)? else {
        return Ok(None);
    };
    let form = product.times(alloc, signed(number))?;
    Ok(Some(form))
}

/// The form of a summand of a sum in conditions, if its product has a symbol.
fn summand_form(alloc: Global, summand: Summand) -> Result<Option<Form>, WalkError>
    ensures exact { MatchResult result (λ r. MatchOption r (launching.summand_form (summand_seen summand) ≡ None)
        (λ f. launching.summand_form (summand_seen summand) ≡ Some (form_seen f))) IsMemory }
    ensures small { IfOk result (λ r. IfSome r (λ f. size (form_seen f) ≤ 4294967295)) }
{
    match summand {
        Summand::Constant(number) => Ok(Some(Form::constant(alloc, signed(number)))),
        Summand::Argument { factor, parameter } => {
            let form = once_given(alloc, parameter as usize)?.times(alloc, signed(factor))?;
            Ok(Some(form))
        }
        Summand::Groups { factor, dimension } => {
            let form = once_groups(alloc, index_of(dimension))?.times(alloc, signed(factor))?;
            Ok(Some(form))
        }
        Summand::Product {
            factor,
            first,
            second,
        } => multiple_form(alloc, factor, first, second),
    }
}

/// The form of a sum in conditions: the sum of its summands' forms, if all have one.
pub fn sum_form(alloc: Global, sum: &Sum) -> Result<Option<Form>, WalkError>
    ensures exact { MatchResult result (λ r. MatchOption r (launching.sum_form (sum_seen sum.now) ≡ None)
        (λ f. launching.sum_form (sum_seen sum.now) ≡ Some (form_seen f))) IsMemory }
    ensures small { IfOk result (λ r. IfSome r (λ f. size (form_seen f) ≤ 8 * 4294967295)) }
{
    let mut total = Form::constant(alloc, 0);
    for summand in sum.terms.as_slice() {
        let Some(form) = summand_form(alloc, *summand)? else {
            return Ok(None);
        };
        total = total.add(alloc, &form)?;
    }
    Ok(Some(total))
}

/// The number that a word stands for in its kind.
pub fn number_of(word: Word) -> i64
    ensures { result ≡ value_of word }
{
    word.value()
}

#[tactic(auto, using(crate::proofs::Facts::facts))]
/// Adds two facts, the low end before the high end.
fn push_two(facts: &mut Vec<Form>, low: Form, high: Form) -> Result<(), WalkError>
    ensures { MatchResult result (λ _. forms facts.new.items ≡ forms facts.old.items ++ form_seen low ∷ form_seen high ∷ []) IsMemory }
{
    facts.push(low)?;
    facts.push(high)?;
    Ok(())
}

/// Group counts of a dimension are in their range.
fn count_facts(
    alloc: Global,
    facts: &mut Vec<Form>,
    dimension: u32,
    range: CountRange,
) -> Result<(), WalkError>
    ensures { MatchResult result (λ _. forms facts.new.items
        ≡ forms facts.old.items ++ launching.ends (count_range_seen range) (symbols.once (symbols.Groups dimension))) IsMemory }
{
    let count = once_groups(alloc, dimension)?;
    let low = less_number(alloc, &count, range.low as i64)?;
    let high = number_less(alloc, range.high as i64, &count)?;
    push_two(facts, low, high)
}

/// Adds the facts that an argument is not below its least value, and not above its greatest one.
fn argument_fact(
    alloc: Global,
    facts: &mut Vec<Form>,
    parameter: usize,
    range: ArgumentRange,
) -> Result<(), WalkError>
    requires { parameter < 2 ^ 59 }
    ensures { MatchResult result (λ _. forms facts.new.items ≡ forms facts.old.items
        ++ launching.ends (argument_range_seen range) (symbols.once (symbols.ArgumentOf parameter))) IsMemory }
{
    let argument = once_given(alloc, parameter)?;
    let low = less_number(alloc, &argument, number_of(range.low))?;
    let high = number_less(alloc, number_of(range.high), &argument)?;
    push_two(facts, low, high)
}

/// Adds the facts that each argument is in its range, in the order of the parameters.
fn argument_facts(
    alloc: Global,
    facts: &mut Vec<Form>,
    ranges: &[ArgumentRange],
) -> Result<(), WalkError>
    ensures { MatchResult result (λ _. forms facts.new.items
        ≡ forms facts.old.items ++ launching.argument_facts 0 (map argument_range_seen ranges.now)) IsMemory }
{
    let mut parameter = 0usize;
    for range in ranges {
        argument_fact(alloc, facts, parameter, *range)?;
        parameter += 1;
    }
    Ok(())
}

/// A buffer is as long as its sum; of a sum without a form nothing is said.
fn least_length(alloc: Global, buffer: usize, least: &Sum) -> Result<Form, WalkError>
    requires { buffer < 2 ^ 59 }
    ensures { MatchResult result (λ f. form_seen f
        ≡ launching.difference (Some (symbols.once (symbols.Length buffer))) (launching.sum_form (sum_seen least.now))) IsMemory }
{
    let Some(sum) = sum_form(alloc, least)? else {
        return Ok(Form::constant(alloc, 0));
    };
    let low = once_length(alloc, buffer)?.sub(alloc, &sum)?;
    Ok(low)
}

/// A buffer is as long as its sum, and a `uint` counts its elements.
fn length_fact(
    alloc: Global,
    facts: &mut Vec<Form>,
    buffer: usize,
    length: &Length,
) -> Result<(), WalkError>
    requires { buffer < 2 ^ 59 }
    ensures { MatchResult result
        (λ _. forms facts.new.items ≡ forms facts.old.items ++ launching.length_ends buffer (length_sum length.now)) IsMemory }
{
    let low = least_length(alloc, buffer, &length.least)?;
    let elements = once_length(alloc, buffer)?;
    let high = number_less(alloc, 4_294_967_295, &elements)?;
    push_two(facts, low, high)
}

/// The buffers are as long as their sums.
fn length_facts(alloc: Global, facts: &mut Vec<Form>, lengths: &[Length]) -> Result<(), WalkError>
    ensures { MatchResult result
        (λ _. forms facts.new.items ≡ forms facts.old.items ++ launching.length_facts 0 (map length_sum lengths.now)) IsMemory }
{
    let mut buffer = 0usize;
    for length in lengths {
        length_fact(alloc, facts, buffer, length)?;
        buffer += 1;
    }
    Ok(())
}

/// The left sum is at least the right one; of a sum without a form nothing is said.
fn required(alloc: Global, requirement: &Requirement) -> Result<Form, WalkError>
    ensures { MatchResult result (λ f. form_seen f ≡ launching.required (requirement_seen requirement.now)) IsMemory }
{
    let Some(left) = sum_form(alloc, &requirement.left)? else {
        return Ok(Form::constant(alloc, 0));
    };
    let Some(right) = sum_form(alloc, &requirement.right)? else {
        return Ok(Form::constant(alloc, 0));
    };
    let form = left.sub(alloc, &right)?;
    Ok(form)
}

#[tactic(auto, using(crate::proofs::Facts::facts))]
/// Adds the fact that a requirement of the conditions is met.
fn requirement_fact(
    alloc: Global,
    facts: &mut Vec<Form>,
    requirement: &Requirement,
) -> Result<(), WalkError>
    ensures { MatchResult result (λ _. forms facts.new.items
        ≡ forms facts.old.items ++ launching.required (requirement_seen requirement.now) ∷ []) IsMemory }
{
    let fact = required(alloc, requirement)?;
    facts.push(fact)?;
    Ok(())
}

#[tactic(auto, using(crate::proofs::Facts::carried))]
/// Adds the facts that all requirements of the conditions are met, in their order.
fn requirement_facts(
    alloc: Global,
    facts: &mut Vec<Form>,
    requirements: &[Requirement],
) -> Result<(), WalkError>
    ensures { MatchResult result (λ _. forms facts.new.items
        ≡ forms facts.old.items ++ map launching.required (map requirement_seen requirements.now)) IsMemory }
{
    for requirement in requirements {
        requirement_fact(alloc, facts, requirement)?;
    }
    Ok(())
}

/// The facts that hold of each launch that meets the conditions: of its group counts, arguments, lengths and requirements.
pub fn launch_facts(alloc: Global, conditions: &Conditions) -> Result<Vec<Form>, WalkError>
    ensures { MatchResult result (λ fs. forms fs.items ≡ launching.launch_facts (conditions_seen conditions.now)) IsMemory }
{
    let mut facts = Vec::new(alloc);
    count_facts(alloc, &mut facts, 0, conditions.groups.x)?;
    count_facts(alloc, &mut facts, 1, conditions.groups.y)?;
    count_facts(alloc, &mut facts, 2, conditions.groups.z)?;
    argument_facts(alloc, &mut facts, conditions.arguments.as_slice())?;
    length_facts(alloc, &mut facts, conditions.lengths.as_slice())?;
    requirement_facts(alloc, &mut facts, conditions.requirements.as_slice())?;
    Ok(facts)
}

/// The last local id of a dimension: its local size less 1.
fn last_id(sizes: [u32; 3], dimension: u32) -> i64
    requires { dimension < 3 }
    ensures { result ≡ pos (along (three sizes) dimension 1) -ℤ pos 1 }
{
    sizes[dimension as usize] as i64 - 1
}

/// An item's local id is below the local size.
fn local_facts(
    alloc: Global,
    facts: &mut Vec<Form>,
    sizes: [u32; 3],
    item: Side,
    dimension: u32,
) -> Result<(), WalkError>
    requires { dimension < 3 }
    ensures { MatchResult result (λ _. forms facts.new.items
        ≡ forms facts.old.items ++ launching.local_facts (three sizes) (side item) dimension) IsMemory }
{
    let local = once_local(alloc, item, dimension)?;
    let last = number_less(alloc, last_id(sizes, dimension), &local)?;
    push_two(facts, local, last)
}

/// An item's group id is below the group count.
fn group_facts(
    alloc: Global,
    facts: &mut Vec<Form>,
    item: Side,
    dimension: u32,
) -> Result<(), WalkError>
    ensures { MatchResult result
        (λ _. forms facts.new.items ≡ forms facts.old.items ++ launching.group_facts (side item) dimension) IsMemory }
{
    let group = once_group(alloc, item, dimension)?;
    let behind = once_groups(alloc, dimension)?.sub(alloc, &group)?;
    let room = less_number(alloc, &behind, 1)?;
    push_two(facts, group, room)
}

/// An item's ids are below the local size and the group count.
fn id_facts(
    alloc: Global,
    facts: &mut Vec<Form>,
    sizes: [u32; 3],
    item: Side,
    dimension: u32,
) -> Result<(), WalkError>
    requires { dimension < 3 }
    ensures { MatchResult result
        (λ _. forms facts.new.items ≡ forms facts.old.items ++ launching.id_facts (three sizes) (side item) dimension) IsMemory }
{
    local_facts(alloc, facts, sizes, item, dimension)?;
    group_facts(alloc, facts, item, dimension)?;
    Ok(())
}

/// The facts that hold of each item's ids: from 0 on, and below the local sizes and the group counts.
pub fn item_facts(alloc: Global, sizes: [u32; 3], item: Side) -> Result<Vec<Form>, WalkError>
    ensures { MatchResult result (λ fs. forms fs.items ≡ launching.item_facts (three sizes) (side item)) IsMemory }
{
    let mut facts = Vec::new(alloc);
    id_facts(alloc, &mut facts, sizes, item, 0)?;
    id_facts(alloc, &mut facts, sizes, item, 1)?;
    id_facts(alloc, &mut facts, sizes, item, 2)?;
    Ok(facts)
}
