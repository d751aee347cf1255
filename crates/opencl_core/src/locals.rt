//! Local arrays, and what buffers and they take.

ghost use Rattle.std.specs.Prelude.{◌≡◌, ◌+◌, nat_le, OnOk};
ghost use Rattle.core_code.specs.View.{local_array, site as site_seen};
ghost use Rattle.opencl_terms.specs.Answers.{value_type};
ghost use Rattle.opencl_terms.specs.View.{scalar as scalar_seen};
ghost use Rattle.opencl_values.specs.View.{Gives, fault};
ghost use Rattle.opencl_core.specs.Declaring as rules;
ghost use Rattle.opencl_core.specs.View as seen;

use crate::rooms::Room;
use core_code::tree::{Array, LocalArray, Site, Space};
use kernel_names::LocalName;
use opencl_terms::scalars::{Scalar, ValueType};
use opencl_values::error::{Construct, Fault, ValueError, refused};
use opencl_values::scope::Meaning;
use std::alloc::{AllocError, Global};

/// Buffers and local arrays together.
const MOST_ARRAYS: usize = 64;

/// Elements of all local arrays together.
pub const MOST_ELEMENTS: u32 = 1_048_576;

fn has_elements(scalar: Scalar) -> bool
    ensures { result ≡ rules.has_elements (scalar_seen scalar) }
{
    !matches!(scalar, Scalar::Boolean | Scalar::Size | Scalar::Long)
}

fn lacking(scalar: Scalar) -> Fault
    ensures { fault result ≡ rules.lacking (scalar_seen scalar) }
{
    match scalar {
        Scalar::Long => Fault::LeftOut(Construct::Long),
        _ => Fault::WrongType,
    }
}

/// The scalar of a type that elements in memory may have (OpenCL 1.2, 6.9 k).
pub fn element_of_type(at: Site, of: ValueType) -> Result<Scalar, ValueError>
    ensures { Gives scalar_seen result (rules.element_of_type (site_seen at) (value_type of)) }
{
    if has_elements(of.scalar) {
        Ok(of.scalar)
    } else {
        refused(lacking(of.scalar), at)
    }
}

/// A local array of `count` elements, with the lengths of its dimensions.
#[derive(Drop)]
pub struct LocalShape {
    pub of: ValueType,
    pub count: u32,
    pub lengths: Vec<u32>,
    pub is_constant: bool,
}

// Whether a sum is at most the most elements.
fn fits_behind(elements: u32, count: u32) -> bool
    ensures { result ≡ nat_le (elements + count) 1048576 }
{
    match elements.checked_add(count) {
        None => false,
        Some(sum) => sum <= MOST_ELEMENTS,
    }
}

impl<'a> Room<'a> {
    /// Whether one more buffer or local array may be declared.
    pub fn has_place(&self) -> bool
        ensures { result ≡ rules.has_place (seen.room self.now) }
    {
        let buffers = self.buffers.len();
        let arrays = self.arrays.len();
        buffers < MOST_ARRAYS && arrays < MOST_ARRAYS - buffers
    }

    // Whether a local array of so many elements may be declared.
    fn fits(&self, count: u32) -> bool
        ensures { result ≡ rules.fits count (seen.room self.now) }
    {
        self.has_place() && 1 <= count && fits_behind(self.elements, count)
    }

    /// Takes up a local array.
    pub fn push_local(
        &mut self,
        alloc: Global,
        at: Site,
        name: &str,
        array: LocalArray,
    ) -> Result<(), AllocError>
        ensures { OnOk result (seen.room self.new ≡ rules.kept (site_seen at) name.now (local_array array) (seen.room self.old)) }
    {
        let Some(elements) = self.elements.checked_add(array.length) else {
            return Err(AllocError);
        };
        self.elements = elements;
        self.arrays.push(array)?;
        let name = String::from_str(alloc, name)?;
        self.names.arrays.push(LocalName { name, site: at })?;
        Ok(())
    }

    /// The number of the next local array, where one of so many elements may be declared.
    pub fn next_array(&self, at: Site, count: u32) -> Result<u32, ValueError>
        ensures { Gives (λ n. n) result (rules.next_array (site_seen at) count (seen.room self.now)) }
    {
        if self.fits(count) {
            Ok(self.arrays.len() as u32)
        } else {
            refused(Fault::TooMany, at)
        }
    }

    /// Declares a local array.
    pub fn declare_local(
        &mut self,
        alloc: Global,
        at: Site,
        name: &'a str,
        local: LocalShape,
    ) -> Result<(), ValueError>
        ensures { Gives (λ _. seen.room self.new) result (rules.local_declared (site_seen at) name.now (seen.local local) (seen.room self.old)) }
    {
        let scalar = element_of_type(at, local.of)?;
        let number = self.next_array(at, local.count)?;
        let array = Array {
            space: Space::Local,
            number,
        };
        let kept = LocalArray {
            kind: scalar.stored_kind(),
            length: local.count,
        };
        let meaning = Meaning::Array {
            array,
            element: local.of,
            lengths: local.lengths,
            is_constant: local.is_constant,
        };
        self.declare(at, name, meaning)?;
        self.push_local(alloc, at, name, kept)?;
        Ok(())
    }
}
