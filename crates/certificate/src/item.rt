//! What a line says, by its words.

ghost use Rattle.std.specs.Prelude.{◌≡◌, []};
ghost use Rattle.std.specs.Option.{option_map};
ghost use Rattle.std.specs.String.{string_bytes};
ghost use Rattle.certificate_text.specs.Lines as meaning;
ghost use Rattle.lines.specs.Left.{left};
ghost use Rattle.certificate.specs.View as view;
ghost use Rattle.certificate.specs.Items as items;
ghost use Rattle.certificate.specs.WordAnswers.{Means};

use crate::line_error::LineError;
use crate::name::{constant, form, identifier};
use crate::order::part_follows;
use crate::tree::{Bound, Congruence, EntrySort, Form, Multiple, Scaled, Spot, Step};
use crate::word::{descent, integer, is, natural, natural_from, scaled, spot};
use lines::pieces::Pieces;
use std::alloc::Global;

/// A line of a certificate between the first and the last, and the last, by what it says.
#[derive(Drop)]
pub enum Item {
    Place(Spot),
    Same(String),
    Fact(Form),
    Congruence(Congruence),
    Multiple(Multiple),
    Bound(Bound),
    Entry(u64, EntrySort),
    Lemma(Form),
    Main,
    Step(Step),
    End,
}

#[tactic(auto, unfolding(certificate_text::specs::Lines::congruence_of))]
fn congruence(alloc: Global, words: Pieces<'_>) -> Result<Congruence, LineError>
    ensures { Means view.congruence result (meaning.congruence_of (left words.entry)) }
{
    let Some((modulus, others)) = words.next() else {
        return Err(LineError::Bad);
    };
    let Some(modulus) = natural_from(2, modulus) else {
        return Err(LineError::Bad);
    };
    let form = form(alloc, others)?;
    Ok(Congruence { modulus, form })
}

/// A multiple, of the numbers of its two forms and of the word between them.
fn multiple_in(alloc: Global, form: &[u8], between: &[u8], of: &[u8]) -> Result<Multiple, LineError>
    ensures { Means view.multiple result (meaning.multiple_in form.now between.now of.now) }
{
    if !is(between, "of") {
        return Err(LineError::Bad);
    }
    let form = constant(alloc, Vec::new(alloc), form)?;
    let of = constant(alloc, Vec::new(alloc), of)?;
    Ok(Multiple { of, form })
}

#[tactic(auto, unfolding(certificate_text::specs::Lines::multiple_of))]
fn multiple(alloc: Global, words: Pieces<'_>) -> Result<Multiple, LineError>
    ensures { Means view.multiple result (meaning.multiple_of (left words.entry)) }
{
    let Some((form, others)) = words.next() else {
        return Err(LineError::Bad);
    };
    let Some((between, of)) = others.two() else {
        return Err(LineError::Bad);
    };
    multiple_in(alloc, form, between, of)
}

#[tactic(auto, unfolding(certificate_text::specs::Lines::bound_of))]
fn bound(alloc: Global, words: Pieces<'_>) -> Result<Bound, LineError>
    ensures { Means view.bound result (meaning.bound_of (left words.entry)) }
{
    let Some((number, others)) = words.next() else {
        return Err(LineError::Bad);
    };
    let Some(number) = natural(number) else {
        return Err(LineError::Bad);
    };
    let Some((shape, others)) = others.next() else {
        return Err(LineError::Bad);
    };
    let Some((descent, others)) = descent(shape, others) else {
        return Err(LineError::Bad);
    };
    let Some((most, others)) = others.next() else {
        return Err(LineError::Bad);
    };
    let Some(most) = integer(most) else {
        return Err(LineError::Bad);
    };
    let form = form(alloc, others)?;
    Ok(Bound {
        number,
        descent,
        most,
        form,
    })
}

fn plain_sort(word: &[u8]) -> Option<EntrySort>
    ensures { option_map view.sort result ≡ meaning.plain_sort word.now }
{
    if is(word, "show") {
        Some(EntrySort::Show)
    } else if is(word, "pos") {
        Some(EntrySort::Positive)
    } else if is(word, "neg") {
        Some(EntrySort::Negative)
    } else {
        None
    }
}

fn sort(alloc: Global, word: &[u8], words: Pieces<'_>) -> Result<EntrySort, LineError>
    ensures { Means view.sort result (meaning.sort_of word.now (left words.entry)) }
{
    if is(word, "quot") {
        return Ok(EntrySort::Quotient(form(alloc, words)?));
    }
    if !words.is_over() {
        return Err(LineError::Bad);
    }
    let Some(sort) = plain_sort(word) else {
        return Err(LineError::Bad);
    };
    Ok(sort)
}

#[tactic(auto, unfolding(certificate_text::specs::Lines::entry_of))]
fn entry(alloc: Global, words: Pieces<'_>) -> Result<Item, LineError>
    ensures { Means items.item result (meaning.entry_of (left words.entry)) }
{
    let Some((obligation, others)) = words.next() else {
        return Err(LineError::Bad);
    };
    let Some(obligation) = natural_from(1, obligation) else {
        return Err(LineError::Bad);
    };
    let Some((word, others)) = others.next() else {
        return Err(LineError::Bad);
    };
    let sort = sort(alloc, word, others)?;
    Ok(Item::Entry(obligation, sort))
}

fn given(words: Pieces<'_>) -> Result<Step, LineError>
    ensures { Means view.step result (meaning.given_of (left words.entry)) }
{
    let Some(word) = words.sole() else {
        return Err(LineError::Bad);
    };
    let Some(fact) = integer(word) else {
        return Err(LineError::Bad);
    };
    Ok(Step::Given(fact))
}

fn divide(words: Pieces<'_>) -> Result<Step, LineError>
    ensures { Means view.step result (meaning.divide_of (left words.entry)) }
{
    let Some((divisor, line)) = words.two() else {
        return Err(LineError::Bad);
    };
    let Some(quotient) = scaled(divisor, line) else {
        return Err(LineError::Bad);
    };
    Ok(Step::Divide(quotient))
}

#[tactic(auto, unfolding(certificate_text::specs::Lines::sum_of))]
fn sum(alloc: Global, words: Pieces<'_>) -> Result<Step, LineError>
    ensures { Means view.step result (meaning.sum_of [] (left words.entry)) }
{
    let mut parts: Vec<Scaled> = Vec::new(alloc);
    let mut rest = words;
    while let Some((weight, others)) = rest.next() {
        let Some((line, others)) = others.next() else {
            return Err(LineError::Bad);
        };
        let Some(part) = scaled(weight, line) else {
            return Err(LineError::Bad);
        };
        if !part_follows(parts.as_slice(), part) {
            return Err(LineError::Bad);
        }
        parts.push(part)?;
        rest = others;
    }
    if parts.is_empty() {
        return Err(LineError::Bad);
    }
    parts.shrink_to_fit();
    Ok(Step::Sum(parts))
}

fn product(words: Pieces<'_>) -> Result<Step, LineError>
    ensures { Means view.step result (meaning.product_of (left words.entry)) }
{
    let Some((first, second)) = words.two() else {
        return Err(LineError::Bad);
    };
    let Some(first) = integer(first) else {
        return Err(LineError::Bad);
    };
    let Some(second) = integer(second) else {
        return Err(LineError::Bad);
    };
    Ok(Step::Product(first, second))
}

fn place_item(alloc: Global, keyword: &[u8], words: Pieces<'_>) -> Result<Item, LineError>
    ensures { Means items.item result (meaning.place_item keyword.now (left words.entry)) }
{
    if is(keyword, "place") {
        let Some(word) = words.sole() else {
            return Err(LineError::Bad);
        };
        let Some(spot) = spot(Pieces::of(word, b'/')) else {
            return Err(LineError::Bad);
        };
        Ok(Item::Place(spot))
    } else if is(keyword, "same") {
        let Some(word) = words.sole() else {
            return Err(LineError::Bad);
        };
        Ok(Item::Same(identifier(alloc, word)?))
    } else if is(keyword, "fact") {
        Ok(Item::Fact(form(alloc, words)?))
    } else if is(keyword, "mod") {
        Ok(Item::Congruence(congruence(alloc, words)?))
    } else if is(keyword, "multiple") {
        Ok(Item::Multiple(multiple(alloc, words)?))
    } else {
        Err(LineError::Bad)
    }
}

fn lemma_item(alloc: Global, keyword: &[u8], words: Pieces<'_>) -> Result<Item, LineError>
    ensures { Means items.item result (meaning.lemma_item keyword.now (left words.entry)) }
{
    if is(keyword, "p") {
        Ok(Item::Step(product(words)?))
    } else if is(keyword, "l") {
        Ok(Item::Lemma(form(alloc, words)?))
    } else if is(keyword, "m") {
        if words.is_over() {
            Ok(Item::Main)
        } else {
            Err(LineError::Bad)
        }
    } else {
        place_item(alloc, keyword, words)
    }
}

fn step_item(alloc: Global, keyword: &[u8], words: Pieces<'_>) -> Result<Item, LineError>
    ensures { Means items.item result (meaning.step_item keyword.now (left words.entry)) }
{
    if is(keyword, "g") {
        Ok(Item::Step(given(words)?))
    } else if is(keyword, "s") {
        Ok(Item::Step(sum(alloc, words)?))
    } else if is(keyword, "d") {
        Ok(Item::Step(divide(words)?))
    } else {
        lemma_item(alloc, keyword, words)
    }
}

/// The line that the words of a line make; an error where they make none.
#[tactic(auto, unfolding(certificate_text::specs::Lines::item_of))]
pub fn read_item(alloc: Global, words: Pieces<'_>) -> Result<Item, LineError>
    ensures { Means items.item result (meaning.item_of (left words.entry)) }
{
    let Some((keyword, others)) = words.next() else {
        return Err(LineError::Bad);
    };
    if is(keyword, "loop") {
        Ok(Item::Bound(bound(alloc, others)?))
    } else if is(keyword, "ob") {
        entry(alloc, others)
    } else if is(keyword, "end") {
        if others.is_over() {
            Ok(Item::End)
        } else {
            Err(LineError::Bad)
        }
    } else {
        step_item(alloc, keyword, others)
    }
}
