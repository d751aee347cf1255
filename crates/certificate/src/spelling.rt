//! How names are spelt, and the order of their bytes.

ghost use Rattle.std.specs.Prelude.{◌≡◌, ◌++◌, IfOk, OnOk};
ghost use Rattle.std.specs.String.{string_bytes};
ghost use Rattle.certificate_text.specs.Text as text;
ghost use Rattle.certificate_text.specs.Forms as forms;
ghost use Rattle.certificate.specs.View as view;

use crate::tree::{Dimension, Name, Term};
use std::alloc::{AllocError, Global};
use std::cmp::Ordering;

fn push_dimension(out: &mut String, dimension: Dimension) -> Result<(), AllocError>
    ensures { OnOk result (string_bytes out.new ≡ string_bytes out.old ++ text.dimension_text (view.dimension dimension)) }
{
    match dimension {
        Dimension::First => out.push_str("0"),
        Dimension::Second => out.push_str("1"),
        Dimension::Third => out.push_str("2"),
    }
}

pub fn push_name(out: &mut String, name: &Name) -> Result<(), AllocError>
    ensures { OnOk result (string_bytes out.new ≡ string_bytes out.old ++ text.name_text (view.name name.now)) }
{
    match name {
        Name::Variable(name) => out.push_str(name.as_str()),
        Name::AtAnchor(name) => write!(out, "@{name}"),
        Name::Turns(number) => write!(out, "${number}"),
        Name::Fresh(number) => write!(out, "#{number}"),
        Name::Argument(name) => write!(out, "arg.{name}"),
        Name::Length(name) => write!(out, "len.{name}"),
        Name::Groups(dimension) => {
            out.push_str("groups.")?;
            push_dimension(out, *dimension)
        }
        Name::Group(dimension) => {
            out.push_str("group.")?;
            push_dimension(out, *dimension)
        }
        Name::Local(dimension) => {
            out.push_str("local.")?;
            push_dimension(out, *dimension)
        }
        Name::Second(name) => {
            push_name(out, name)?;
            out.push_str("'")
        }
        Name::Product(first, others) => {
            push_name(out, first)?;
            out.push_str("*")?;
            push_name(out, others)
        }
    }
}

pub(crate) fn spelling(alloc: Global, name: &Name) -> Result<String, AllocError>
    ensures { IfOk result (λ s. string_bytes s ≡ text.name_text (view.name name.now)) }
{
    let mut out = String::new(alloc);
    push_name(&mut out, name)?;
    Ok(out)
}

/// Whether a term stands before another, by the bytes of its name.
pub fn term_is_before(alloc: Global, left: &Term, right: &Term) -> Result<bool, AllocError>
    ensures { IfOk result (λ b. b ≡ forms.term_is_before (view.term left.now) (view.term right.now)) }
{
    let left = spelling(alloc, &left.name)?;
    let right = spelling(alloc, &right.name)?;
    Ok(left.as_bytes().cmp(right.as_bytes()) == Ordering::Less)
}
