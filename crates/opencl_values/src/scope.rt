//! Which names are visible, and what they mean.

ghost use Rattle.std.specs.Prelude.{◌≡◌};
ghost use Rattle.opencl_values.specs.Scope as scope;
ghost use Rattle.core_code.specs.View.{site as site_seen};
ghost use Rattle.opencl_effects.specs.View.{mark as mark_seen, sort as sort_seen};
ghost use Rattle.opencl_values.specs.View.{all_drawn, bindings, maybe_drawn, meaning_in, names as names_seen};

use core_code::tree::{Array, Site, Term};
use opencl_effects::marks::{Mark, Sort, is_same};
use opencl_terms::scalars::{Scalar, ValueType};
use words::Kind;

/// What a name means.
#[derive(Drop)]
pub enum Meaning {
    Variable {
        of: ValueType,
        slot: u32,
        is_constant: bool,
    },
    /// The lengths are those of the dimensions, the outermost first; a buffer has none.
    Array {
        array: Array,
        element: ValueType,
        lengths: Vec<u32>,
        is_constant: bool,
    },
    /// A private array: a row of a local array, which has one for each item of a group.
    Own {
        array: Array,
        element: ValueType,
        lengths: Vec<u32>,
        is_constant: bool,
        row: Term,
    },
    /// An array with an offset, which the slot has. Into a private array it has the length of that and its row. Where a buffer's elements
    /// are seen as ones of another type, `over` is the buffer's scalar.
    Pointer {
        array: Array,
        element: ValueType,
        is_constant: bool,
        row: Option<(u32, Term)>,
        over: Option<Scalar>,
        slot: u32,
    },
    /// A constant of an enumeration, by the 32 bits of an `int`.
    Number(u32),
    /// A name that a `typedef` made.
    Type(ValueType),
    /// What the file declares beside the kernel, which is not read.
    Unread,
}

/// A name with what it means.
#[derive(Drop)]
pub struct Binding<'a> {
    pub name: &'a str,
    pub meaning: Meaning,
}

/// The meaning of a name among those that are visible, in order of their declaration; the last of that name has it (C99 6.2.1p4).
pub fn meaning_of<'a>(visible: &'a [Binding<'_>], name: &str) -> Option<&'a Meaning>
    ensures { meaning_in result ≡ scope.meaning_of (bindings visible.now) name.now }
{
    let mut found = None;
    for binding in visible {
        if binding.name == name {
            found = Some(&binding.meaning);
        }
    }
    found
}

/// The value of an expression with effects that was written out before, by its sort and its site: it is kept in variables from a slot on.
#[derive(Clone, Copy)]
pub struct Drawn {
    pub mark: Mark,
    pub of: ValueType,
    pub slot: u32,
}

/// What the terms of expressions depend on: the kind of ids and sizes, the visible names, and what was written out before.
#[derive(Clone, Copy)]
pub struct Names<'a> {
    pub ids: Kind,
    pub visible: &'a [Binding<'a>],
    pub drawn: &'a [Drawn],
}

fn drawn_in(drawn: &[Drawn], mark: Mark) -> Option<Drawn>
    ensures { maybe_drawn result ≡ scope.drawn_in (all_drawn drawn.now) (mark_seen mark) }
{
    for one in drawn {
        if is_same(one.mark, mark) {
            return Some(*one);
        }
    }
    None
}

/// The value that was written out before for the expression of a sort at a site.
pub fn drawn_at(names: Names, sort: Sort, site: Site) -> Option<Drawn>
    ensures { maybe_drawn result ≡ scope.drawn_at (names_seen names.entry) (sort_seen sort) (site_seen site) }
{
    drawn_in(names.drawn, Mark { sort, site })
}
