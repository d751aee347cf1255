//! Names that say how many components they are of.

ghost use Rattle.std.specs.Prelude.{◌≡◌, ◌≤◌, drop, take, length, IfOk};
ghost use Rattle.std.specs.Option.{option_map};
ghost use Rattle.opencl_values.specs.FunctionsView.{form_place};
ghost use Rattle.opencl_values.specs.Widened as rules;
ghost use Rattle.opencl_values.specs.WidenedView.{counted as counted_seen, wide as wide_seen};

use crate::functions::{Form, conversion_of};
use std::alloc::{AllocError, Global};

fn is_digit(byte: u8) -> bool
    ensures { result ≡ rules.is_digit byte }
{
    byte >= 48 && byte <= 57
}

fn letters_before(name: &[u8]) -> usize
    ensures letters { result ≡ rules.letters_before name.now }
    ensures within { result ≤ length name.now }
{
    let mut count = 0usize;
    for byte in name {
        if is_digit(*byte) {
            return count;
        }
        count += 1;
    }
    count
}

/// How many components digits mean, and how many digits these are.
#[derive(Clone, Copy)]
pub struct Counted {
    pub width: u32,
    pub digits: u32,
}

fn is_width(digit: u8) -> bool
    ensures { result ≡ rules.is_width digit }
{
    digit == 50 || digit == 51 || digit == 52 || digit == 56
}

fn one_digit(digits: &[u8]) -> Option<Counted>
    ensures { option_map counted_seen result ≡ rules.one_digit digits.now }
{
    match digits {
        [] => None,
        [digit, ..] => {
            if is_width(*digit) {
                Some(Counted {
                    width: (*digit - 48) as u32,
                    digits: 1,
                })
            } else {
                None
            }
        }
    }
}

fn count_in(digits: &[u8]) -> Option<Counted>
    ensures { option_map counted_seen result ≡ rules.counted digits.now }
{
    if digits.starts_with(b"16") {
        return Some(Counted {
            width: 16,
            digits: 2,
        });
    }
    one_digit(digits)
}

fn behind(name: &[u8], first: usize) -> &[u8]
    ensures { result.now ≡ drop first name.now }
{
    if first <= name.len() {
        &name[first..]
    } else {
        &[]
    }
}

fn front(name: &[u8], count: usize) -> &[u8]
    ensures { result.now ≡ take count name.now }
{
    if count <= name.len() {
        &name[..count]
    } else {
        name
    }
}

// A name without some digits.
fn without(alloc: Global, name: &[u8], letters: usize, digits: u32) -> Result<Vec<u8>, AllocError>
    requires { letters ≤ length name.now }
    ensures { IfOk result (λ v. v.items ≡ rules.without name.now letters digits) }
{
    let mut short = Vec::new(alloc);
    short.extend_from_slice(front(name, letters))?;
    short.extend_from_slice(behind(name, letters + digits as usize))?;
    Ok(short)
}

/// A conversion, and of how many components.
#[derive(Clone, Copy)]
pub struct Wide {
    pub width: u32,
    pub form: Form,
}

fn wide_with(width: u32, conversion: Option<(Form, u32)>) -> Option<Wide>
    ensures { option_map wide_seen result ≡ rules.wide width (option_map form_place conversion) }
{
    let (form, _) = conversion?;
    Some(Wide { width, form })
}

/// A conversion of vectors, and of how many components (OpenCL 1.2, 6.2.3 and 6.2.4.2).
#[tactic(auto, unfolding(crate::specs::Widened::wide_named))]
pub fn wide_named(alloc: Global, name: &str) -> Result<Option<Wide>, AllocError>
    ensures { IfOk result (λ w. option_map wide_seen w ≡ rules.wide_named name.now) }
{
    let name = name.as_bytes();
    let letters = letters_before(name);
    let Some(counted) = count_in(behind(name, letters)) else {
        return Ok(None);
    };
    let short = without(alloc, name, letters, counted.digits)?;
    Ok(wide_with(counted.width, conversion_of(short.as_slice())))
}

fn width_alone(rest: &[u8]) -> Option<u32>
    ensures { result ≡ rules.width_alone rest.now (rules.counted rest.now) }
{
    let counted = count_in(rest)?;
    if counted.digits as usize == rest.len() {
        Some(counted.width)
    } else {
        None
    }
}

fn width_behind(front: &[u8], name: &[u8]) -> Option<u32>
    ensures { result ≡ rules.width_behind front.now name.now }
{
    if name.starts_with(front) {
        width_alone(behind(name, front.len()))
    } else {
        None
    }
}

/// How many elements a name reads as a vector (OpenCL 1.2, 6.12.7).
#[tactic(auto, unfolding(crate::specs::Widened::read_width))]
pub fn read_width(name: &str) -> Option<u32>
    ensures { result ≡ rules.read_width name.now }
{
    width_behind(b"vload", name.as_bytes())
}

/// How many elements a name writes of a vector (OpenCL 1.2, 6.12.7).
#[tactic(auto, unfolding(crate::specs::Widened::written_width))]
pub fn written_width(name: &str) -> Option<u32>
    ensures { result ≡ rules.written_width name.now }
{
    width_behind(b"vstore", name.as_bytes())
}
