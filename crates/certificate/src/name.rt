//! Names, terms and forms, by their words.

ghost use Rattle.std.specs.Prelude.{◌≡◌, ◌&&◌, [], map, IfOk, bytes_eq, codes};
ghost use Rattle.std.specs.String.{string_bytes};
ghost use Rattle.lines.specs.Lines.{follows};
ghost use Rattle.certificate_text.specs.Certificate.{Product};
ghost use Rattle.certificate_text.specs.Forms as forms;
ghost use Rattle.lines.specs.Left.{left};
ghost use Rattle.certificate.specs.View as view;
ghost use Rattle.certificate.specs.WordAnswers.{Means};

use crate::line_error::LineError;
use crate::order::{in_order, term_follows};
use crate::tree::{Form, Name, SharedTerms, Term};
use crate::word::{begins, dimension, integer, is, is_identifier, natural};
use lines::pieces::Pieces;
use std::alloc::{AllocError, Global};

#[tactic(auto, using(crate::proofs::Ascii::utf8))]
pub fn identifier(alloc: Global, word: &[u8]) -> Result<String, LineError>
    ensures { Means string_bytes result (forms.identifier_of word.now) }
{
    if !is_identifier(word) {
        return Err(LineError::Bad);
    }
    let Ok(text) = str::from_utf8(word) else {
        return Err(LineError::Bad);
    };
    Ok(String::from_str(alloc, text)?)
}

#[tactic(auto, unfolding(certificate_text::specs::Forms::dimensional_of))]
fn dimensional(alloc: Global, word: &[u8]) -> Result<Name, LineError>
    ensures { Means view.name result (forms.dimensional_of word.now) }
{
    if begins(word, "groups.") {
        let Some(dimension) = dimension(&word[7..]) else {
            return Err(LineError::Bad);
        };
        Ok(Name::Groups(dimension))
    } else if begins(word, "group.") {
        let Some(dimension) = dimension(&word[6..]) else {
            return Err(LineError::Bad);
        };
        Ok(Name::Group(dimension))
    } else if begins(word, "local.") {
        let Some(dimension) = dimension(&word[6..]) else {
            return Err(LineError::Bad);
        };
        Ok(Name::Local(dimension))
    } else {
        Ok(Name::Variable(identifier(alloc, word)?))
    }
}

#[tactic(auto, unfolding(certificate_text::specs::Forms::name_of))]
pub fn name(alloc: Global, word: &[u8]) -> Result<Name, LineError>
    ensures { Means view.name result (forms.name_of word.now) }
{
    if begins(word, "@") {
        Ok(Name::AtAnchor(identifier(alloc, &word[1..])?))
    } else if begins(word, "$") {
        let Some(number) = natural(&word[1..]) else {
            return Err(LineError::Bad);
        };
        Ok(Name::Turns(number))
    } else if begins(word, "#") {
        let Some(number) = natural(&word[1..]) else {
            return Err(LineError::Bad);
        };
        Ok(Name::Fresh(number))
    } else if begins(word, "arg.") {
        Ok(Name::Argument(identifier(alloc, &word[4..])?))
    } else if begins(word, "len.") {
        Ok(Name::Length(identifier(alloc, &word[4..])?))
    } else {
        dimensional(alloc, word)
    }
}

/// The second item's symbol of a name, where nothing stands behind its `'`.
fn second(alloc: Global, word: &[u8], behind: Pieces<'_>) -> Result<Name, LineError>
    ensures { Means view.name result (forms.second_of word.now (left behind.entry)) }
{
    let Some(rest) = behind.sole() else {
        return Err(LineError::Bad);
    };
    if !rest.is_empty() {
        return Err(LineError::Bad);
    }
    let name = name(alloc, word)?;
    Ok(Name::Second(Box::new(alloc, name)?))
}

/// A name, or with a `'` behind it the second item's.
fn factor(alloc: Global, word: &[u8]) -> Result<Name, LineError>
    ensures { Means view.name result (forms.factor_of word.now) }
{
    let Some((word, behind)) = Pieces::of(word, b'\'').next() else {
        return Err(LineError::Bad);
    };
    if behind.is_over() {
        return name(alloc, word);
    }
    second(alloc, word, behind)
}

fn product(alloc: Global, first: Name, others: Name) -> Result<Name, AllocError>
    ensures { IfOk result (λ n. view.name n ≡ Product (view.name first) (view.name others)) }
{
    let first = Box::new(alloc, first)?;
    let others = Box::new(alloc, others)?;
    Ok(Name::Product(first, others))
}

/// The product of two names, in the order of their bytes.
fn pair(alloc: Global, first: &[u8], second: &[u8]) -> Result<Name, LineError>
    ensures { Means view.name result (forms.pair_of first.now second.now) }
{
    let left = factor(alloc, first)?;
    let right = factor(alloc, second)?;
    if !in_order(first, second) {
        return Err(LineError::Bad);
    }
    Ok(product(alloc, left, right)?)
}

/// The product of three.
fn triple(alloc: Global, first: &[u8], second: &[u8], third: &[u8]) -> Result<Name, LineError>
    ensures { Means view.name result (forms.triple_of first.now second.now third.now) }
{
    let left = factor(alloc, first)?;
    let right = pair(alloc, second, third)?;
    if !in_order(first, second) {
        return Err(LineError::Bad);
    }
    Ok(product(alloc, left, right)?)
}

/// The product of a name and of one or two that stand behind it.
fn product_in(alloc: Global, word: &[u8], words: Pieces<'_>) -> Result<Name, LineError>
    ensures { Means view.name result (forms.product_in word.now (left words.entry)) }
{
    let Some((second, others)) = words.next() else {
        return Err(LineError::Bad);
    };
    if others.is_over() {
        return pair(alloc, word, second);
    }
    let Some(third) = others.sole() else {
        return Err(LineError::Bad);
    };
    triple(alloc, word, second, third)
}

/// One name, or the product of two or three.
fn names(alloc: Global, words: Pieces<'_>) -> Result<Name, LineError>
    ensures { Means view.name result (forms.names_of (left words.entry)) }
{
    let Some((first, others)) = words.next() else {
        return Err(LineError::Bad);
    };
    if others.is_over() {
        return factor(alloc, first);
    }
    product_in(alloc, first, others)
}

/// A term, of its number and its names.
fn term_in(alloc: Global, coefficient: &[u8], spellings: Pieces<'_>) -> Result<Term, LineError>
    ensures { Means view.term result (forms.term_in coefficient.now (left spellings.entry)) }
{
    let Some(coefficient) = integer(coefficient) else {
        return Err(LineError::Bad);
    };
    let name = names(alloc, spellings)?;
    if coefficient == 0 {
        return Err(LineError::Bad);
    }
    Ok(Term { coefficient, name })
}

fn term(alloc: Global, word: &[u8]) -> Result<Term, LineError>
    ensures { Means view.term result (forms.term_of word.now) }
{
    let Some((coefficient, spellings)) = Pieces::of(word, b'*').next() else {
        return Err(LineError::Bad);
    };
    term_in(alloc, coefficient, spellings)
}

/// Whether a term may stand behind those before it.
fn goes_on(alloc: Global, sign: &[u8], terms: &[Term], term: &Term) -> Result<bool, AllocError>
    ensures { IfOk result (λ b. b ≡ (bytes_eq sign.now (codes "+") && follows forms.term_is_before (map view.term terms.now) (view.term term.now))) }
{
    let is_next = term_follows(alloc, terms, term)?;
    Ok(is(sign, "+") && is_next)
}

/// A form with these terms, of the word of its constant.
pub fn constant(alloc: Global, terms: Vec<Term>, word: &[u8]) -> Result<Form, LineError>
    ensures { Means view.form result (forms.constant_of (map view.term terms.items) word.now) }
{
    let Some(constant) = integer(word) else {
        return Err(LineError::Bad);
    };
    let terms = SharedTerms::of(alloc, terms)?;
    Ok(Form { terms, constant })
}

/// The form that all the words make; an error where they make none.
#[tactic(auto, unfolding(certificate_text::specs::Forms::form_of))]
pub fn form(alloc: Global, words: Pieces<'_>) -> Result<Form, LineError>
    ensures { Means view.form result (forms.form_of [] (left words.entry)) }
{
    let mut terms = Vec::new(alloc);
    let mut rest = words;
    while let Some((word, others)) = rest.next() {
        let Some((sign, others)) = others.next() else {
            terms.shrink_to_fit();
            return constant(alloc, terms, word);
        };
        let term = term(alloc, word)?;
        if !goes_on(alloc, sign, terms.as_slice(), &term)? {
            return Err(LineError::Bad);
        }
        terms.push(term)?;
        rest = others;
    }
    Err(LineError::Bad)
}
