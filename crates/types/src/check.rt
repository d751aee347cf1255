//! The typing of kernels.

ghost use Rattle.std.specs.Prelude.{◌≡◌, IfOk};
ghost use Rattle.texts.specs.Declarations.{HasFewNames};
ghost use Rattle.types.specs.Elaboration.{elaborate as elaborates};
ghost use Rattle.syntax.specs.View.{kernel as tree_seen};
ghost use Rattle.core_code.specs.View.{kernel as core_seen};
ghost use Rattle.types.specs.Answers.{Gives};
ghost use Rattle.types.specs.Names.{devices as devices_seen};
ghost use Rattle.kernel_names.specs.NameMap.{names_of};
ghost use Rattle.kernel_names.specs.View.{names_seen};

use crate::devices::Devices;
use crate::elaboration::elaborate;
use crate::error::TypeError;
use crate::typed::TypedTree;
use kernel_names::names_of;
use std::alloc::Global;
use syntax::tree::Kernel;
use typed_kernels::Typed;

/// The tree with its core and its map of names, where it is well typed for these devices, or its first broken rule with its place.
pub fn check_types(alloc: Global, devices: Devices, tree: Kernel) -> Result<TypedTree, TypeError>
    requires { HasFewNames (tree_seen tree) }
    ensures core { Gives (λ t. core_seen t.typed.1) result (elaborates (devices_seen devices) (tree_seen tree)) }
    ensures tree { IfOk result (λ t. t.tree ≡ tree) }
    ensures names { IfOk result (λ t. names_seen t.typed.0 ≡ names_of (tree_seen tree)) }
{
    let core = elaborate(alloc, devices, &tree)?;
    let names = names_of(alloc, &tree)?;
    Ok(TypedTree {
        typed: Typed::new(names, core),
        tree,
    })
}
