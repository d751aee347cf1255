//! Types by their names.

ghost use Rattle.std.specs.Prelude.{◌≡◌, ℕ};
ghost use Rattle.core_code.specs.View.{site};
ghost use Rattle.opencl_terms.specs.Answers.{value_type};
ghost use Rattle.opencl_terms.specs.View.{scalar as scalar_seen};
ghost use Rattle.opencl_tokens.specs.Spelling.{scalar as word_seen};
ghost use Rattle.opencl_tree.specs.View.{base as base_seen, type_name};
ghost use Rattle.opencl_values.specs.Faults as faults;
ghost use Rattle.opencl_values.specs.Names as rules;
ghost use Rattle.opencl_values.specs.Scope as scope;
ghost use Rattle.opencl_values.specs.View.{bindings, meaning_in, Gives};

use crate::error::{Construct, Fault, ValueError, refused};
use crate::scope::{Binding, Meaning, meaning_of};
use crate::wholes::words;
use core_code::tree::Site;
use opencl_terms::scalars::{Scalar, ValueType};
use opencl_tokens::Scalar as Word;
use opencl_tree::types::{Base, TypeName};

fn scalar_named(at: Site, of: Word) -> Result<Scalar, ValueError>
    ensures { Gives scalar_seen result (rules.scalar_named (site at) (word_seen of)) }
{
    match of {
        Word::Bool => Ok(Scalar::Boolean),
        Word::Char => Ok(Scalar::Char),
        Word::Uchar => Ok(Scalar::Uchar),
        Word::Short => Ok(Scalar::Short),
        Word::Ushort => Ok(Scalar::Ushort),
        Word::Int => Ok(Scalar::Int),
        Word::Uint => Ok(Scalar::Uint),
        Word::Long => Ok(Scalar::Long),
        Word::SizeT => Ok(Scalar::Size),
        Word::Float => Ok(Scalar::Float),
        Word::Ulong | Word::PtrdiffT => refused(Fault::LeftOut(Construct::Long), at),
        Word::Half => refused(Fault::LeftOut(Construct::Half), at),
        Word::Double => refused(Fault::LeftOut(Construct::Double), at),
    }
}

fn type_meant(at: Site, meaning: Option<&Meaning>) -> Result<ValueType, ValueError>
    ensures { Gives value_type result (faults.then (faults.found (meaning_in meaning.entry) faults.UnknownName (site at)) (rules.type_meant (site at))) }
{
    match meaning {
        None => refused(Fault::UnknownName, at),
        Some(Meaning::Type(of)) => Ok(*of),
        Some(Meaning::Unread) => refused(Fault::LeftOut(Construct::Outside), at),
        Some(_) => refused(Fault::WrongType, at),
    }
}

/// The type that a base names (OpenCL 1.2, 6.1.1; C99 6.7.7). It may be a vector's.
pub fn type_of_base(visible: &[Binding], base: &Base, at: Site) -> Result<ValueType, ValueError>
    ensures { Gives value_type result (rules.type_of_base (bindings visible.now) (base_seen base.now) (site at)) }
{
    match base {
        Base::Void => refused(Fault::WrongType, at),
        Base::Numbers { scalar, width } => {
            let scalar = scalar_named(at, *scalar)?;
            Ok(ValueType {
                scalar,
                width: *width as u32,
            })
        }
        Base::Alias(name) => type_meant(at, meaning_of(visible, name.as_str())),
    }
}

/// The scalar of a type of one component.
pub fn scalar_in(at: Site, of: ValueType) -> Result<Scalar, ValueError>
    ensures { Gives scalar_seen result (rules.scalar_in (site at) (value_type of)) }
{
    if of.is_vector() {
        refused(Fault::LeftOut(Construct::Vector), at)
    } else {
        Ok(of.scalar)
    }
}

/// The scalar that a name of a type is.
pub fn scalar_of_type(visible: &[Binding], of: &TypeName, at: Site) -> Result<Scalar, ValueError>
    ensures { Gives scalar_seen result (rules.scalar_of_type (bindings visible.now) (type_name of.now) (site at)) }
{
    let named = type_of_base(visible, &of.base, at)?;
    if of.stars.is_empty() {
        scalar_in(at, named)
    } else {
        refused(Fault::LeftOut(Construct::Pointer), at)
    }
}

/// The type that a name of a type is.
pub fn type_of_name(visible: &[Binding], of: &TypeName, at: Site) -> Result<ValueType, ValueError>
    ensures { Gives value_type result (rules.type_of_name (bindings visible.now) (type_name of.now) (site at)) }
{
    let named = type_of_base(visible, &of.base, at)?;
    if of.stars.is_empty() {
        Ok(named)
    } else {
        refused(Fault::LeftOut(Construct::Pointer), at)
    }
}

/// The bytes of a scalar (OpenCL 1.2, 6.3 k).
pub fn bytes_in(at: Site, of: Scalar) -> Result<u32, ValueError>
    ensures { Gives (λ n. n) result (rules.bytes_in (site at) (scalar_seen of)) }
{
    match of {
        Scalar::Char | Scalar::Uchar => Ok(1),
        Scalar::Short | Scalar::Ushort => Ok(2),
        Scalar::Int | Scalar::Uint | Scalar::Float => Ok(4),
        Scalar::Long => Ok(8),
        Scalar::Boolean | Scalar::Size => refused(Fault::LeftOut(Construct::DeviceSize), at),
    }
}

/// The bytes of a type; a vector of three has those of four (OpenCL 1.2, 6.3 k and 6.1.5).
pub fn bytes_of(at: Site, of: ValueType) -> Result<u32, ValueError>
    ensures { Gives (λ n. n) result (rules.bytes_of (site at) (value_type of)) }
{
    let bytes = bytes_in(at, of.scalar)?;
    match bytes.checked_mul(words(of.width)) {
        Some(bytes) => Ok(bytes),
        None => Err(ValueError::Memory),
    }
}
