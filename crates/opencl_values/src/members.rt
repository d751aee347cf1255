//! Members of vectors.

ghost use Rattle.std.specs.Prelude.{◌≡◌, [], take, IfOk, Ok};
ghost use Rattle.core_code.specs.View.{site};
ghost use Rattle.opencl_terms.specs.Answers.{value_type};
ghost use Rattle.opencl_values.specs.Members as rules;
ghost use Rattle.opencl_values.specs.Wholes as wholes;
ghost use Rattle.opencl_values.specs.View.{value as value_seen, Gives};
ghost use Rattle.words.specs.View.{kind as kind_seen};

use crate::error::{Construct, Fault, ValueError, refused};
use crate::vectors::{Made, made_behind};
use crate::wholes::{Value, counting, is_among, places};
use core_code::tree::Site;
use opencl_terms::scalars::ValueType;
use std::alloc::{AllocError, Global};
use words::Kind;

static EVENS: [u32; 8] = [0, 2, 4, 6, 8, 10, 12, 14];

static ODDS: [u32; 8] = [1, 3, 5, 7, 9, 11, 13, 15];

fn evens() -> &'static [u32]
    ensures { result.now ≡ rules.evens }
{
    &EVENS
}

fn odds() -> &'static [u32]
    ensures { result.now ≡ rules.odds }
{
    &ODDS
}

fn place_lettered(letter: u8) -> Option<u32>
    ensures { result ≡ rules.place_lettered letter }
{
    if letter == b'w' {
        Some(3)
    } else if 120 <= letter && letter <= 122 {
        Some(letter as u32 - 120)
    } else {
        None
    }
}

fn place_numbered(digit: u8) -> Option<u32>
    ensures { result ≡ rules.place_numbered digit }
{
    if 48 <= digit && digit <= 57 {
        Some(digit as u32 - 48)
    } else if 97 <= digit && digit <= 102 {
        Some(digit as u32 - 87)
    } else if 65 <= digit && digit <= 70 {
        Some(digit as u32 - 55)
    } else {
        None
    }
}

fn place_named(numbered: bool, letter: u8) -> Option<u32>
    ensures { result ≡ rules.place_named numbered letter }
{
    if numbered {
        place_numbered(letter)
    } else {
        place_lettered(letter)
    }
}

fn push_place(
    at: Site,
    width: u32,
    picked: &mut Vec<u32>,
    place: Option<u32>,
) -> Result<(), ValueError>
    ensures { Gives (λ _. picked.new.items) result (rules.one_more (site at) width picked.old.items place) }
{
    match place {
        Some(place) if place < width => {
            picked.push(place)?;
            Ok(())
        }
        _ => refused(Fault::WrongType, at),
    }
}

fn picked_by(
    alloc: Global,
    at: Site,
    width: u32,
    numbered: bool,
    letters: &[u8],
) -> Result<Vec<u32>, ValueError>
    ensures { Gives (λ ps. ps.items) result (rules.picked_behind (site at) width numbered [] letters.now) }
{
    let mut picked = Vec::new(alloc);
    for letter in letters {
        push_place(at, width, &mut picked, place_named(numbered, *letter))?;
    }
    Ok(picked)
}

fn spelled(alloc: Global, at: Site, width: u32, name: &[u8]) -> Result<Vec<u32>, ValueError>
    ensures { Gives (λ ps. ps.items) result (rules.spelled (site at) width name.now) }
{
    match name {
        [] => refused(Fault::WrongType, at),
        [115 | 83, digits @ ..] => picked_by(alloc, at, width, true, digits),
        _ => picked_by(alloc, at, width, false, name),
    }
}

fn is_allowed(count: usize) -> bool
    ensures { result ≡ rules.lengths_allowed count }
{
    matches!(count, 1 | 2 | 3 | 4 | 8 | 16)
}

fn spelled_out(alloc: Global, at: Site, width: u32, name: &[u8]) -> Result<Vec<u32>, ValueError>
    ensures { Gives (λ ps. ps.items) result (rules.spelled_out (site at) width name.now) }
{
    let picked = spelled(alloc, at, width, name)?;
    if is_allowed(picked.len()) {
        Ok(picked)
    } else {
        refused(Fault::WrongType, at)
    }
}

fn half_of(width: u32) -> u32
    ensures { result ≡ rules.half_of width }
{
    width / 2 + width % 2
}

// The first of some places.
fn first_of(alloc: Global, all: &[u32], count: u32) -> Result<Vec<u32>, AllocError>
    ensures { IfOk result (λ ps. ps.items ≡ take count all.now) }
{
    let count = count as usize;
    if count < all.len() {
        Vec::from_slice(alloc, &all[..count])
    } else {
        Vec::from_slice(alloc, all)
    }
}

fn upper(alloc: Global, width: u32) -> Result<Vec<u32>, AllocError>
    ensures { IfOk result (λ ps. ps.items ≡ rules.upper width) }
{
    let all = places(width);
    let half = half_of(width) as usize;
    if half < all.len() {
        Vec::from_slice(alloc, &all[half..])
    } else {
        Ok(Vec::new(alloc))
    }
}

fn upper_places(alloc: Global, at: Site, width: u32) -> Result<Vec<u32>, ValueError>
    ensures { Gives (λ ps. ps.items) result (rules.without_third (site at) width (rules.upper width)) }
{
    if width == 3 {
        return refused(Fault::LeftOut(Construct::Vector), at);
    }
    Ok(upper(alloc, width)?)
}

fn odd_places(alloc: Global, at: Site, width: u32) -> Result<Vec<u32>, ValueError>
    ensures { Gives (λ ps. ps.items) result (rules.without_third (site at) width (take (rules.half_of width) rules.odds)) }
{
    if width == 3 {
        return refused(Fault::LeftOut(Construct::Vector), at);
    }
    Ok(first_of(alloc, odds(), half_of(width))?)
}

fn lower_places(alloc: Global, width: u32) -> Result<Vec<u32>, ValueError>
    ensures { Gives (λ ps. ps.items) result (Ok (take (rules.half_of width) wholes.counting)) }
{
    Ok(first_of(alloc, counting(), half_of(width))?)
}

fn even_places(alloc: Global, width: u32) -> Result<Vec<u32>, ValueError>
    ensures { Gives (λ ps. ps.items) result (Ok (take (rules.half_of width) rules.evens)) }
{
    Ok(first_of(alloc, evens(), half_of(width))?)
}

fn member_places(alloc: Global, at: Site, width: u32, name: &str) -> Result<Vec<u32>, ValueError>
    ensures { Gives (λ ps. ps.items) result (rules.member_places (site at) width name.now) }
{
    match name {
        "lo" => lower_places(alloc, width),
        "hi" => upper_places(alloc, at, width),
        "even" => even_places(alloc, width),
        "odd" => odd_places(alloc, at, width),
        _ => spelled_out(alloc, at, width, name.as_bytes()),
    }
}

fn places_of_member(
    alloc: Global,
    at: Site,
    of: ValueType,
    name: &str,
) -> Result<Vec<u32>, ValueError>
    ensures { Gives (λ ps. ps.items) result (rules.places_of_member (site at) (value_type of) name.now) }
{
    if !of.is_vector() {
        return refused(Fault::WrongType, at);
    }
    member_places(alloc, at, of.width, name)
}

fn first_in(picked: &[u32]) -> u32
    ensures { result ≡ rules.first_in picked.now }
{
    match picked {
        [] => 0,
        [first, ..] => *first,
    }
}

/// The components of a value that are picked.
pub fn picked_of(
    alloc: Global,
    ids: Kind,
    at: Site,
    of: &Value,
    picked: &[u32],
) -> Result<Value, AllocError>
    ensures { IfOk result (λ v. value_seen v ≡ rules.picked_of (kind_seen ids) (site at) (value_seen of.now) picked.now) }
{
    let made = Made::Picked(of, first_in(picked), picked);
    let Ok(width) = u32::try_from(picked.len()) else {
        return Err(AllocError);
    };
    Ok(Value {
        of: ValueType {
            scalar: of.of.scalar,
            width,
        },
        terms: made_behind(alloc, ids, at, made, Vec::new(alloc), picked)?,
    })
}

/// The value of a member (OpenCL 1.2, 6.1.7).
pub fn member_of(
    alloc: Global,
    ids: Kind,
    at: Site,
    of: Value,
    name: &str,
) -> Result<Value, ValueError>
    ensures { Gives value_seen result (rules.member_of (kind_seen ids) (site at) (value_seen of) name.now) }
{
    let picked = places_of_member(alloc, at, of.of, name)?;
    Ok(picked_of(alloc, ids, at, &of, picked.as_slice())?)
}

fn are_different(alloc: Global, picked: &[u32]) -> Result<bool, AllocError>
    ensures { IfOk result (λ b. b ≡ rules.are_different [] picked.now) }
{
    let mut so_far = Vec::new(alloc);
    for one in picked {
        if is_among(so_far.as_slice(), *one) {
            return Ok(false);
        }
        so_far.push(*one)?;
    }
    Ok(true)
}

/// The components that a member names which is assigned to: none of them twice.
pub fn target_places(
    alloc: Global,
    at: Site,
    of: ValueType,
    name: &str,
) -> Result<Vec<u32>, ValueError>
    ensures { Gives (λ ps. ps.items) result (rules.target_places (site at) (value_type of) name.now) }
{
    let picked = places_of_member(alloc, at, of, name)?;
    if are_different(alloc, picked.as_slice())? {
        Ok(picked)
    } else {
        refused(Fault::WrongType, at)
    }
}
