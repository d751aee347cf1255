//! Which names are visible, and what they stand for.

ghost use Rattle.std.specs.Prelude.{◌≡◌};
ghost use Rattle.std.specs.Option.{option_map};
ghost use Rattle.types.specs.Scope as scope;
ghost use Rattle.types.specs.Names.{meaning_seen, names};

use crate::devices::Devices;
use core_code::tree::{Array, LocalArray};
use indexmap::IndexMap;
use words::Kind;

/// A private variable or value parameter, or a buffer parameter or local array.
#[derive(Clone, Copy)]
pub enum Meaning {
    Variable {
        slot: u32,
        kind: Kind,
    },
    Array {
        array: Array,
        kind: Kind,
        writable: bool,
    },
}

/// The visible names, in order of declaration, each with what it stands for.
pub type Visible<'a> = IndexMap<&'a str, Meaning>;

/// For which devices, the visible names in order of declaration, and all that was declared so far: the kinds of the slots and of the
/// buffers, and the local arrays.
#[derive(Drop)]
pub struct Scope<'a> {
    pub devices: Devices,
    pub visible: Visible<'a>,
    pub slots: Vec<Kind>,
    pub buffers: Vec<Kind>,
    pub arrays: Vec<LocalArray>,
}

/// The meaning of a name; none where it is not visible.
pub fn meaning_of(visible: &Visible, name: &str) -> Option<Meaning>
    ensures { option_map meaning_seen result ≡ scope.meaning_of (names visible.now) name.now }
{
    visible.get(name).copied()
}
