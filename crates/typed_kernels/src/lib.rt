//! Section: Kernel text. Promises a core with a map of names that tells of just the core's parameters; stands on `kernel_names`.
//!
//! Kernels that were typed, whatever their text was: what is told of their names, and their core. No crate above opens a tree but
//! those that read, print and test.
#![tactic(auto)]

ghost use Rattle.std.specs.Prelude.{◌≡◌, ◌≤◌, length};
ghost use Rattle.texts.specs.Declarations.{most_names};
ghost use Rattle.core_code.specs.View.{kernel as core_seen};
ghost use Rattle.kernel_names.specs.Parameters.{HasParameters};
ghost use Rattle.kernel_names.specs.View.{names_seen};

use core_code::tree::Core;
use kernel_names::NameMap;
use std::marker::Model;

/// A kernel's map of names with its core. The map tells of the core's parameters, and they are few.
#[derive(Drop)]
pub struct Typed {
    names: NameMap,
    core: Core,
}

impl Model for Typed {
    ghost use Rattle.std.specs.Prelude.{◌≤◌, length};
    ghost use Rattle.std.specs.Coded.{codes};
    ghost use Rattle.texts.specs.Declarations.{most_names};
    ghost use Rattle.core_code.specs.View.{kernel as core_seen};
    ghost use Rattle.core_code.specs.contracts.tree.Core as core_type;
    ghost use Rattle.core_code.specs.declared.tree.Core.{Core};
    ghost use Rattle.kernel_names.specs.Parameters.{HasParameters};
    ghost use Rattle.kernel_names.specs.View.{names_seen};
    ghost use Rattle.kernel_names.specs.contracts.NameMap as names_type;
    ghost use Rattle.kernel_names.specs.declared.NameMap.{NameMap};

    ghost Value = { NameMap × Core };

    ghost coded = { Prim.hlevel (codes, names_type.the_row.coded, core_type.the_row.coded) };

    ghost view = { λ t. (t.names, t.core) };

    ghost invariant = { λ t. (length t.names.parameters.items ≤ most_names) × HasParameters (names_seen t.names) (core_seen t.core) };
}

impl Typed {
    /// A core with its map of names, which tells of few parameters, as the caller has shown.
    pub fn new(names: NameMap, core: Core) -> Typed
        requires few { length names.parameters.items ≤ most_names }
        requires parameters { HasParameters (names_seen names) (core_seen core) }
        ensures { result ≡ (names, core) }
    {
        Typed { names, core }
    }

    /// The map of the kernel's names: what is told of it beside its core.
    pub fn names(&self) -> &NameMap
        ensures value { result.now ≡ self.now.0 }
        ensures parameters { HasParameters (names_seen self.now.0) (core_seen self.now.1) }
        ensures few { length self.now.0.parameters.items ≤ most_names }
    {
        &self.names
    }

    /// The core of the kernel.
    pub fn core(&self) -> &Core
        ensures value { result.now ≡ self.now.1 }
    {
        &self.core
    }
}
