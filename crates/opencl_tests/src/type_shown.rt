//! Writes types as texts for the tests.

use opencl_tree::types::{Base, Qualifiers, Space, TypeName};
use std::alloc::AllocError;

pub fn push_type(out: &mut String, name: &TypeName) -> Result<(), AllocError> {
    push_qualifiers(out, name.qualifiers)?;
    push_base(out, &name.base)?;
    push_stars(out, name.stars.as_slice())
}

pub fn push_base(out: &mut String, base: &Base) -> Result<(), AllocError> {
    match base {
        Base::Void => out.push_str("void"),
        Base::Numbers { scalar, width } => write!(out, "{scalar:?}{width}"),
        Base::Alias(name) => out.push_str(name.as_str()),
    }
}

fn space(found: Option<Space>) -> &'static str {
    match found {
        None => "",
        Some(Space::Global) => "global ",
        Some(Space::Local) => "local ",
        Some(Space::Constant) => "constant ",
        Some(Space::Private) => "private ",
    }
}

fn flag(is_set: bool, word: &'static str) -> &'static str {
    if is_set { word } else { "" }
}

pub fn push_qualifiers(out: &mut String, found: Qualifiers) -> Result<(), AllocError> {
    out.push_str(space(found.space))?;
    out.push_str(flag(found.constant, "const "))?;
    out.push_str(flag(found.volatile, "volatile "))?;
    out.push_str(flag(found.restrict, "restrict "))
}

pub fn push_stars(out: &mut String, stars: &[Qualifiers]) -> Result<(), AllocError> {
    for star in stars {
        out.push_str("*")?;
        push_qualifiers(out, *star)?;
    }
    Ok(())
}
