//! Whether arguments are those of a kernel's parameters.

ghost use Rattle.std.specs.Prelude.{◌≡◌, ◌<◌, length};
ghost use Rattle.host_launches.specs.Fitting as rules;

use crate::given::{Argument, Refusal};
use crate::numbers::has_word;
use crate::shapes::{Element, Shape};

/// As many elements as a `uint` counts.
const MOST_ELEMENTS: u64 = 4_294_967_295;

/// Whether one of the buffers among these is that memory.
fn is_among(memory: u64, arguments: &[Argument]) -> bool
    ensures { result ≡ rules.is_among memory arguments.now }
{
    for one in arguments {
        if one.kind == 1 && one.memory == memory {
            return true;
        }
    }
    false
}

fn value_fits(of: Element, at: u64, one: &Argument) -> Result<(), Refusal>
    ensures { result ≡ rules.value_fits of at one.now }
{
    if one.kind == 0 && one.bytes == of.size() as u64 && has_word(of.scalar, &one.words) {
        Ok(())
    } else {
        Err(Refusal {
            number: 41,
            place: at,
        })
    }
}

fn is_short(of: Element, one: &Argument) -> bool
    ensures { result ≡ rules.is_short of one.now }
{
    one.bytes / of.scalar.size() as u64 <= MOST_ELEMENTS
}

fn buffer_fits(of: Element, at: u64, one: &Argument, earlier: &[Argument]) -> Result<(), Refusal>
    ensures { result ≡ rules.buffer_fits of at one.now earlier.now }
{
    if one.kind != 1 || one.memory == 0 {
        return Err(Refusal {
            number: 41,
            place: at,
        });
    }
    if !is_short(of, one) {
        return Err(Refusal {
            number: 47,
            place: at,
        });
    }
    if is_among(one.memory, earlier) {
        return Err(Refusal {
            number: 44,
            place: at,
        });
    }
    Ok(())
}

fn local_fits(of: Element, count: u32, at: u64, one: &Argument) -> Result<(), Refusal>
    ensures { result ≡ rules.local_fits of count at one.now }
{
    if one.kind == 2 && count as u64 * of.size() as u64 <= one.bytes {
        Ok(())
    } else {
        Err(Refusal {
            number: 41,
            place: at,
        })
    }
}

fn argument_fits(shape: Shape, at: u64, one: &Argument, earlier: &[Argument]) -> Result<(), Refusal>
    ensures { result ≡ rules.argument_fits shape at one.now earlier.now }
{
    match shape {
        Shape::Value(of) => value_fits(of, at, one),
        Shape::Buffer(of) => buffer_fits(of, at, one, earlier),
        Shape::Local { element, count } => local_fits(element, count, at, one),
    }
}

fn each_fits(shapes: &[Shape], arguments: &[Argument]) -> Result<(), Refusal>
    requires { length shapes.now ≡ length arguments.now }
    ensures { result ≡ rules.each_fits arguments.now 0 shapes.now arguments.now }
{
    for (at, shape) in shapes.iter().enumerate() {
        argument_fits(*shape, at as u64, &arguments[at], &arguments[..at])?;
    }
    Ok(())
}

/// Whether there is an argument for each parameter, and each is its parameter's; else the first that is not.
pub fn arguments_fit(shapes: &[Shape], arguments: &[Argument]) -> Result<(), Refusal>
    ensures { result ≡ rules.arguments_fit shapes.now arguments.now }
{
    let (wanted, given) = (shapes.len(), arguments.len());
    if wanted != given {
        let place = if wanted <= given { wanted } else { given };
        return Err(Refusal {
            number: 41,
            place: place as u64,
        });
    }
    each_fits(shapes, arguments)
}
