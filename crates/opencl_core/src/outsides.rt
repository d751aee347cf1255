//! Where writing out begins.

ghost use Rattle.std.specs.Prelude.{◌≡◌, IfOk};
ghost use Rattle.opencl_values.specs.View.{bindings, maybe_row, meaning as meaning_seen};
ghost use Rattle.words.specs.View.{kind as kind_seen};
ghost use Rattle.opencl_core.specs.Outsides as rules;
ghost use Rattle.opencl_core.specs.View as seen;

use crate::rooms::Room;
use crate::templates::Returning;
use core_code::tree::Term;
use core_pieces::copies::copy_of;
use kernel_names::NameMap;
use opencl_values::scope::{Binding, Meaning};
use std::alloc::{AllocError, Global};
use words::Kind;

/// A room with the names that the file declares beside the kernel.
pub fn empty_room<'a>(
    alloc: Global,
    ids: Kind,
    sizes: [u32; 3],
    outside: Vec<Binding<'a>>,
) -> Room<'a>
    ensures { seen.room result ≡ rules.empty_room (kind_seen ids) (seen.three sizes) (bindings outside.entry.items) }
{
    Room {
        ids,
        sizes,
        around: outside.len(),
        visible: outside,
        drawn: Vec::new(alloc),
        helpers: Vec::new(alloc),
        templates: &[],
        returns: Returning::OfKernel,
        slots: Vec::new(alloc),
        arrays: Vec::new(alloc),
        elements: 0,
        buffers: Vec::new(alloc),
        next: 1,
        written: Vec::new(alloc),
        names: NameMap {
            parameters: Vec::new(alloc),
            variables: Vec::new(alloc),
            arrays: Vec::new(alloc),
            statements: Vec::new(alloc),
        },
    }
}

fn copied_row(alloc: Global, of: &Option<(u32, Term)>) -> Result<Option<(u32, Term)>, AllocError>
    ensures { IfOk result (λ r. maybe_row r ≡ maybe_row of.now) }
{
    match of {
        None => Ok(None),
        Some((length, row)) => {
            let row = copy_of(alloc, row)?;
            Ok(Some((*length, row)))
        }
    }
}

fn copied_meaning(alloc: Global, of: &Meaning) -> Result<Meaning, AllocError>
    ensures { IfOk result (λ m. meaning_seen m ≡ meaning_seen of.now) }
{
    match of {
        Meaning::Variable {
            of,
            slot,
            is_constant,
        } => Ok(Meaning::Variable {
            of: *of,
            slot: *slot,
            is_constant: *is_constant,
        }),
        Meaning::Array {
            array,
            element,
            lengths,
            is_constant,
        } => {
            let lengths = Vec::from_slice(alloc, lengths.as_slice())?;
            Ok(Meaning::Array {
                array: *array,
                element: *element,
                lengths,
                is_constant: *is_constant,
            })
        }
        Meaning::Own {
            array,
            element,
            lengths,
            is_constant,
            row,
        } => {
            let lengths = Vec::from_slice(alloc, lengths.as_slice())?;
            let row = copy_of(alloc, row)?;
            Ok(Meaning::Own {
                array: *array,
                element: *element,
                lengths,
                is_constant: *is_constant,
                row,
            })
        }
        Meaning::Pointer {
            array,
            element,
            is_constant,
            row,
            over,
            slot,
        } => {
            let row = copied_row(alloc, row)?;
            Ok(Meaning::Pointer {
                array: *array,
                element: *element,
                is_constant: *is_constant,
                row,
                over: *over,
                slot: *slot,
            })
        }
        Meaning::Number(bits) => Ok(Meaning::Number(*bits)),
        Meaning::Type(of) => Ok(Meaning::Type(*of)),
        Meaning::Unread => Ok(Meaning::Unread),
    }
}

/// The same names once more.
pub fn copied_names<'a>(
    alloc: Global,
    names: &[Binding<'a>],
) -> Result<Vec<Binding<'a>>, AllocError>
    ensures { IfOk result (λ v. bindings v.items ≡ bindings names.now) }
{
    let mut all = Vec::new(alloc);
    for binding in names {
        let meaning = copied_meaning(alloc, &binding.meaning)?;
        all.push(Binding {
            name: binding.name,
            meaning,
        })?;
    }
    Ok(all)
}
