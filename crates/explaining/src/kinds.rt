//! The kinds of terms.

use core_code::tree::{Array, Core, Space, Term};
use words::Kind;

/// The kind of an argument or a private variable, by its slot.
fn kind_at(core: &Core, slot: u32) -> Kind {
    let place = slot as usize;
    let arguments = core.arguments.as_slice();
    let kind = match arguments.get(place) {
        Some(kind) => Some(kind),
        None => core
            .variables
            .as_slice()
            .get(place.saturating_sub(arguments.len())),
    };
    kind.copied().unwrap_or(Kind::Int)
}

/// The kind of an array's elements.
fn kind_in(core: &Core, array: Array) -> Kind {
    let number = array.number as usize;
    match array.space {
        Space::Global => core
            .buffers
            .as_slice()
            .get(number)
            .copied()
            .unwrap_or(Kind::Int),
        Space::Local => match core.arrays.as_slice().get(number) {
            Some(local) => local.kind,
            None => Kind::Int,
        },
    }
}

/// The kind of a term's value.
pub fn kind_of(core: &Core, term: &Term) -> Kind {
    match term {
        Term::Literal { kind, .. }
        | Term::Id { kind, .. }
        | Term::Unary { kind, .. }
        | Term::Binary { kind, .. }
        | Term::Convert { kind, .. }
        | Term::Shift { kind, .. }
        | Term::Opaque { kind, .. } => *kind,
        Term::Variable { slot } => kind_at(core, *slot),
        Term::Load { array, .. } => kind_in(core, *array),
        Term::Compare { .. } | Term::Not { .. } | Term::And { .. } | Term::Or { .. } => Kind::Int,
        Term::Select { taken, .. } => kind_of(core, taken),
        Term::Minimum { left: of, .. }
        | Term::Maximum { left: of, .. }
        | Term::Within { index: of, .. } => kind_of(core, of),
    }
}
