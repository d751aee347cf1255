//! Parameters of plain texts: numbers of four bytes, and buffers of them.

ghost use Rattle.std.specs.Prelude.{◌≡◌, [], IfOk, map};
ghost use Rattle.syntax.specs.View.{parameter as parameter_seen};
ghost use Rattle.words.specs.View.{kind as kind_seen};
ghost use Rattle.host_shapes.specs.Meant.{all_meant, maybe_meant};
ghost use Rattle.host_shapes.specs.Types as rules;

use host_launches::{Element, Scalar, Shape};
use std::alloc::{AllocError, Global};
use syntax::tree::Parameter;
use words::Kind;

fn number_of(kind: Kind) -> Option<Scalar>
    ensures { result ≡ rules.number_of (kind_seen kind) }
{
    match kind {
        Kind::Int => Some(Scalar::Int),
        Kind::Uint => Some(Scalar::Uint),
        Kind::Size => None,
    }
}

fn buffer_of(kind: Kind) -> Option<Shape>
    ensures { maybe_meant result ≡ rules.plain_buffer (kind_seen kind) }
{
    let scalar = number_of(kind)?;
    Some(Shape::Buffer(Element { scalar, width: 1 }))
}

fn value_of(kind: Kind) -> Option<Shape>
    ensures { maybe_meant result ≡ rules.plain_value (kind_seen kind) }
{
    let scalar = number_of(kind)?;
    Some(Shape::Value(Element { scalar, width: 1 }))
}

fn shape_of(parameter: &Parameter) -> Option<Shape>
    ensures { maybe_meant result ≡ rules.plain_shape (parameter_seen parameter.now) }
{
    match parameter {
        Parameter::Buffer { kind, .. } => buffer_of(*kind),
        Parameter::Value { kind, .. } => value_of(*kind),
    }
}

/// What the parameters of a plain text ask.
pub fn shapes_in(alloc: Global, parameters: &[Parameter]) -> Result<Option<Vec<Shape>>, AllocError>
    ensures { IfOk result (λ s. all_meant s ≡ rules.with_plain [] (map parameter_seen parameters.now)) }
{
    let mut found = Vec::new(alloc);
    for parameter in parameters {
        let Some(shape) = shape_of(parameter) else {
            return Ok(None);
        };
        found.push(shape)?;
    }
    Ok(Some(found))
}
