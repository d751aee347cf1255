//! Kernels.

ghost use Rattle.std.specs.Prelude.{◌≡◌, drop};
ghost use Rattle.texts.specs.Declarations.{HasFewNames};
ghost use Rattle.types.specs.Elaboration as elaboration;
ghost use Rattle.syntax.specs.View.{kernel as tree_of};
ghost use Rattle.core_code.specs.View.{kernel};
ghost use Rattle.types.specs.Answers.{Gives};
ghost use Rattle.types.specs.Names.{devices as devices_seen};

use crate::declarations::may_name_kernel;
use crate::devices::Devices;
use crate::error::{TypeError, TypeFault};
use crate::jumps::Around;
use crate::scope::Scope;
use crate::statements::elaborate_all;
use core_code::tree::Core;
use indexmap::IndexMap;
use std::alloc::Global;
use syntax::tree::Kernel;
use words::Kind;

// The kinds behind the first ones.
fn behind(kinds: &[Kind], first: usize) -> &[Kind]
    ensures { result.now ≡ drop first kinds.now }
{
    if first <= kinds.len() {
        &kinds[first..]
    } else {
        &[]
    }
}

// The core of a kernel, or the first broken rule of its parameters, then of its statements.
#[tactic(auto, unfolding(crate::specs::Elaboration::elaborate_inside))]
fn elaborate_inside(alloc: Global, devices: Devices, tree: &Kernel) -> Result<Core, TypeError>
    requires { HasFewNames (tree_of tree.now) }
    ensures { Gives kernel result (elaboration.elaborate_inside (devices_seen devices) (tree_of tree.now)) }
{
    let mut scope = Scope {
        devices,
        visible: IndexMap::new(alloc),
        slots: Vec::new(alloc),
        buffers: Vec::new(alloc),
        arrays: Vec::new(alloc),
    };
    scope.declare_parameters(&tree.parameters)?;
    let buffers = Vec::from_slice(alloc, &scope.buffers)?;
    let arguments = Vec::from_slice(alloc, &scope.slots)?;
    let mut body = Vec::new(alloc);
    elaborate_all(alloc, Around::InKernel, &mut scope, &tree.body, &mut body)?;
    let variables = Vec::from_slice(alloc, behind(&scope.slots, arguments.len()))?;
    Ok(Core {
        sizes: tree.sizes,
        buffers,
        arguments,
        arrays: scope.arrays,
        variables,
        body,
    })
}

/// The core of a kernel for these devices, or its first broken rule: of its name, of its parameters, then of its statements.
#[tactic(auto, unfolding(crate::specs::Elaboration::elaborate))]
pub fn elaborate(alloc: Global, devices: Devices, tree: &Kernel) -> Result<Core, TypeError>
    requires { HasFewNames (tree_of tree.now) }
    ensures { Gives kernel result (elaboration.elaborate (devices_seen devices) (tree_of tree.now)) }
{
    if !may_name_kernel(tree.name.as_str()) {
        return Err(TypeError::At {
            fault: TypeFault::NameTwice,
            site: tree.name_site,
        });
    }
    elaborate_inside(alloc, devices, tree)
}
