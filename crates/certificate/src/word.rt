//! What single words say, where nothing is kept of them.

ghost use Rattle.std.specs.Prelude.{◌≡◌, ◌<◌, ◌^◌, List, ℕ, nat_le, IfSome};
ghost use Rattle.std.specs.Option.{option_map};
ghost use Rattle.std.specs.Str.{bytes_eq};
ghost use Rattle.lines.specs.Bytes.{is_letter, is_word_byte};
ghost use Rattle.lines.specs.Lines.{natural_of, integer_of};
ghost use Rattle.certificate_text.specs.Forms as forms;
ghost use Rattle.lines.specs.Identifiers as identifiers;
ghost use Rattle.certificate_text.specs.Lines as meaning;
ghost use Rattle.lines.specs.Left.{left};
ghost use Rattle.certificate.specs.View as view;
ghost use Rattle.certificate.specs.WordAnswers.{descent_left};

use crate::tree::{Anchor, Descent, Dimension, Scaled, Spot};
use lines::number;
use lines::pieces::Pieces;

/// Whether a word has this spelling.
pub fn is(word: &[u8], spelling: &str) -> bool
    ensures { result ≡ bytes_eq word.now spelling.now }
{
    word == spelling.as_bytes()
}

/// Whether a word begins with this spelling.
pub fn begins(word: &[u8], front: &str) -> bool
    ensures { result ≡ forms.begins word.now front.now }
{
    word.starts_with(front.as_bytes())
}

pub fn natural(word: &[u8]) -> Option<u64>
    ensures exact { result ≡ forms.number (natural_of word.now) }
    ensures small { IfSome result (λ n. n < 2 ^ 63) }
{
    match number::natural(word) {
        Ok(number) => Some(number),
        Err(_) => None,
    }
}

pub fn natural_from(least: u64, word: &[u8]) -> Option<u64>
    ensures exact { result ≡ meaning.at_least least (natural_of word.now) }
    ensures small { IfSome result (λ n. n < 2 ^ 63) }
{
    let Some(number) = natural(word) else {
        return None;
    };
    if least <= number { Some(number) } else { None }
}

pub fn integer(word: &[u8]) -> Option<i64>
    ensures { result ≡ forms.number (integer_of word.now) }
{
    match number::integer(word) {
        Ok(number) => Some(number),
        Err(_) => None,
    }
}

fn is_letter(b: u8) -> bool
    ensures { result ≡ is_letter b }
{
    97 <= b && b <= 122 || (65 <= b && b <= 90 || b == b'_')
}

fn is_word_byte(b: u8) -> bool
    ensures { result ≡ is_word_byte b }
{
    is_letter(b) || 48 <= b && b <= 57
}

fn are_word_bytes(bytes: &[u8]) -> bool
    ensures { result ≡ identifiers.all_word_bytes bytes.now }
{
    for b in bytes {
        if !is_word_byte(*b) {
            return false;
        }
    }
    true
}

pub fn is_identifier(word: &[u8]) -> bool
    ensures { result ≡ identifiers.is_identifier word.now }
{
    match word {
        [] => false,
        [first, others @ ..] => is_letter(*first) && are_word_bytes(others),
    }
}

pub fn dimension(word: &[u8]) -> Option<Dimension>
    ensures { option_map view.dimension result ≡ forms.dimension_of word.now }
{
    if is(word, "0") {
        Some(Dimension::First)
    } else if is(word, "1") {
        Some(Dimension::Second)
    } else if is(word, "2") {
        Some(Dimension::Third)
    } else {
        None
    }
}

fn anchor(word: &[u8]) -> Option<Anchor>
    ensures { option_map view.anchor result ≡ meaning.anchor_of word.now }
{
    if is(word, "entry") {
        return Some(Anchor::KernelEntry);
    }
    if !begins(word, "b") {
        return None;
    }
    let Some(number) = natural(&word[1..]) else {
        return None;
    };
    Some(Anchor::Barrier(number))
}

fn head(words: Pieces<'_>) -> Option<Option<u64>>
    ensures { result ≡ meaning.head_of (left words.entry) }
{
    if words.is_over() {
        return Some(None);
    }
    let Some(word) = words.sole() else {
        return None;
    };
    if !begins(word, "h") {
        return None;
    }
    let Some(number) = natural(&word[1..]) else {
        return None;
    };
    Some(Some(number))
}

pub fn spot(words: Pieces<'_>) -> Option<Spot>
    ensures { option_map view.spot result ≡ meaning.spot_of (left words.entry) }
{
    let Some((word, others)) = words.next() else {
        return None;
    };
    let Some(anchor) = anchor(word) else {
        return None;
    };
    let Some(head) = head(others) else {
        return None;
    };
    Some(Spot { anchor, head })
}

pub fn descent<'a>(word: &[u8], words: Pieces<'a>) -> Option<(Descent, Pieces<'a>)>
    ensures { descent_left result ≡ meaning.descent_of word.now (left words.entry) }
{
    if is(word, "down") {
        let Some((step, others)) = words.next() else {
            return None;
        };
        let Some(step) = natural_from(1, step) else {
            return None;
        };
        Some((Descent::Down(step), others))
    } else if is(word, "halve") {
        Some((Descent::Halve, words))
    } else if is(word, "double") {
        let Some((least, others)) = words.next() else {
            return None;
        };
        let Some(least) = natural_from(1, least) else {
            return None;
        };
        Some((Descent::Double(least), others))
    } else {
        None
    }
}

pub fn scaled(factor: &[u8], line: &[u8]) -> Option<Scaled>
    ensures { option_map view.scaled result ≡ meaning.scaled_of factor.now line.now }
{
    let Some(factor) = integer(factor) else {
        return None;
    };
    let Some(line) = integer(line) else {
        return None;
    };
    Some(Scaled { factor, line })
}
