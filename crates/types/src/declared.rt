//! Declarations as statements, and the first part of a `for`.

ghost use Rattle.std.specs.Prelude.{◌≡◌, ℕ};
ghost use Rattle.semantics.specs.Core as core;
ghost use Rattle.texts.specs.Declarations.{declared_first};
ghost use Rattle.types.specs.Elaboration as elaboration;
ghost use Rattle.texts.specs.Surface as surface;
ghost use Rattle.words.specs.View.{kind as kind_of};
ghost use Rattle.syntax.specs.View.{declaration, first as first_of};
ghost use Rattle.core_code.specs.View.{site as site_of};
ghost use Rattle.types.specs.Names.{scope_seen, one_seen};
ghost use Rattle.types.specs.Answers.{Gives};
ghost use Rattle.types.specs.Rooms.{HasRoom};
ghost use Rattle.types.specs.Arounds.{around as around_of};

use crate::assignments::elaborate_assignment;
use crate::conversions::bring;
use crate::error::{TypeError, TypeFault};
use crate::jumps::Around;
use crate::scope::Scope;
use crate::typing::type_of;
use core_code::tree::{LocalArray, Site, Statement};
use std::alloc::Global;
use syntax::tree::{Declaration, First};

/// The core statement of a declaration, whose name is visible after its value.
#[tactic(auto, unfolding(crate::specs::Elaboration::elaborate_declaration))]
pub fn elaborate_declaration<'a>(
    alloc: Global,
    scope: &mut Scope<'a>,
    d: &'a Declaration,
) -> Result<Statement, TypeError>
    requires { HasRoom (scope_seen scope.old) 1 }
    ensures { Gives (one_seen scope.new) result (elaboration.elaborate_declaration (scope_seen scope.old) (declaration d.now)) }
{
    let value = type_of(alloc, scope, &d.value)?;
    let slot = scope.declare_variable(d.name_site, d.name.as_str(), d.kind)?;
    Ok(Statement::Set {
        number: d.number,
        slot,
        value: bring(alloc, d.kind, d.name_site, value)?,
    })
}

/// The core statement of the first part of a `for`.
pub fn elaborate_first<'a>(
    alloc: Global,
    scope: &mut Scope<'a>,
    first: &'a First,
) -> Result<Statement, TypeError>
    requires { HasRoom (scope_seen scope.old) (declared_first (first_of first.now)) }
    ensures { Gives (one_seen scope.new) result (elaboration.elaborate_first (scope_seen scope.old) (first_of first.now)) }
{
    match first {
        First::Declares(declaration) => elaborate_declaration(alloc, scope, declaration),
        First::Assigns(assignment) => elaborate_assignment(alloc, scope, assignment),
    }
}

/// A local array, which stands directly in the kernel's body.
#[tactic(auto, unfolding(crate::specs::Elaboration::elaborate_statement))]
pub fn declare_local<'a>(
    scope: &mut Scope<'a>,
    around: Around,
    site: Site,
    name_site: Site,
    name: &'a str,
    array: LocalArray,
) -> Result<(), TypeError>
    requires { HasRoom (scope_seen scope.old) 1 }
    ensures { (n : ℕ) → Gives (λ _. elaboration.elaborated core.none (scope_seen scope.new)) result (elaboration.elaborate_statement (around_of around) (scope_seen scope.old) (surface.DeclareArray n (site_of site) (kind_of array.kind) (site_of name_site) name.now array.length)) }
{
    if !around.is_in_kernel() {
        return Err(TypeError::At {
            fault: TypeFault::ArrayInBlock,
            site,
        });
    }
    scope.declare_array(name_site, name, array.kind, array.length)
}
