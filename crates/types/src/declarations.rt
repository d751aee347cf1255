//! What declarations add to a scope.

ghost use Rattle.std.specs.Prelude.{◌≡◌, map, length, IfOk};
ghost use Rattle.types.specs.Elaboration as elaboration;
ghost use Rattle.types.specs.Scope as scoping;
ghost use Rattle.types.specs.TypeFaults as rules;
ghost use Rattle.words.specs.View.{kind as kind_of};
ghost use Rattle.syntax.specs.View.{parameter as parameter_of};
ghost use Rattle.core_code.specs.View.{site};
ghost use Rattle.types.specs.Names.{scope_seen, meaning_seen};
ghost use Rattle.types.specs.Answers.{Gives};
ghost use Rattle.types.specs.Rooms.{HasRoom};

use crate::error::{TypeError, TypeFault};
use crate::scope::{Meaning, Scope, meaning_of};
use core_code::tree::{Array, LocalArray, Site, Space};
use syntax::tree::Parameter;
use words::Kind;

#[tactic(auto, unfolding(crate::specs::Scope::reserved_names))]
fn is_reserved(name: &str) -> bool
    ensures { result ≡ scoping.is_one_of scoping.reserved_names name.now }
{
    matches!(
        name,
        "get_global_id"
            | "get_local_id"
            | "get_group_id"
            | "get_global_size"
            | "get_local_size"
            | "get_num_groups"
            | "reqd_work_group_size"
            | "get_work_dim"
            | "CLK_LOCAL_MEM_FENCE"
            | "CLK_GLOBAL_MEM_FENCE"
            | "min"
            | "max"
            | "barrier"
    )
}

/// A name that belongs to the compiler, which may have a macro of that name (C99 7.1.3).
fn is_compilers(name: &str) -> bool
    ensures { result ≡ scoping.is_compilers name.now }
{
    match name.as_bytes() {
        [first, second, ..] => *first == b'_'
            && (*second == b'_' || 65 <= *second && *second <= 90),
        _ => false,
    }
}

/// A name that a compiler gives to a built-in function by a macro.
fn is_renamed(name: &str) -> bool
    ensures { result ≡ scoping.is_renamed name.now }
{
    name.starts_with("_cl_")
}

/// A name that no declaration may take, wherever it stands.
#[tactic(auto, unfolding(crate::specs::Scope::is_taken))]
fn is_taken(name: &str) -> bool
    ensures { result ≡ scoping.is_taken name.now }
{
    is_reserved(name) || is_compilers(name) || is_renamed(name)
}

fn begins_underscored(name: &str) -> bool
    ensures { result ≡ scoping.begins_underscored name.now }
{
    match name.as_bytes() {
        [first, ..] => *first == b'_',
        [] => false,
    }
}

/// A function that a compiler calls on its own.
#[tactic(auto, unfolding(crate::specs::Scope::called_names))]
fn is_called(name: &str) -> bool
    ensures { result ≡ scoping.is_one_of scoping.called_names name.now }
{
    matches!(name, "memcpy" | "memmove" | "memset" | "memcmp" | "bcmp")
}

/// Whether a kernel may have the name, which is declared at file scope (C99 6.2.1p4).
pub fn may_name_kernel(name: &str) -> bool
    ensures { result ≡ scoping.may_name_kernel name.now }
{
    !begins_underscored(name) && !is_called(name) && !is_taken(name)
}

/// Whether a declaration may take the name: it is not visible and not taken.
pub fn may_declare(scope: &Scope, name: &str) -> bool
    ensures { result ≡ scoping.may_declare (scope_seen scope.now) name.now }
{
    meaning_of(&scope.visible, name).is_none() && !is_taken(name)
}

impl<'a> Scope<'a> {
    // The name takes its meaning, where it may.
    fn bind(&mut self, at: Site, name: &'a str, meaning: Meaning) -> Result<(), TypeError>
        ensures { Gives (λ _. scope_seen self.new) result (rules.when (scoping.may_declare (scope_seen self.old) name.now) rules.NameTwice (site at) (scoping.bind (scope_seen self.old) name.now (meaning_seen meaning))) }
    {
        if !may_declare(self, name) {
            return Err(TypeError::At {
                fault: TypeFault::NameTwice,
                site: at,
            });
        }
        self.visible.insert(name, meaning)?;
        Ok(())
    }

    /// Declares a variable or a value parameter, which takes the next slot, and gives its slot.
    pub fn declare_variable(
        &mut self,
        at: Site,
        name: &'a str,
        kind: Kind,
    ) -> Result<u32, TypeError>
        requires { HasRoom (scope_seen self.old) 1 }
        ensures scope { Gives (λ _. scope_seen self.new) result (scoping.declare_variable (scope_seen self.old) (site at) name.now (kind_of kind)) }
        ensures slot { IfOk result (λ slot. slot ≡ length self.old.slots.items) }
    {
        let slot = self.slots.len() as u32;
        self.bind(at, name, Meaning::Variable { slot, kind })?;
        self.slots.push(kind)?;
        Ok(slot)
    }

    /// Declares a buffer parameter.
    pub fn declare_buffer(
        &mut self,
        at: Site,
        name: &'a str,
        kind: Kind,
        constant: bool,
    ) -> Result<(), TypeError>
        requires { HasRoom (scope_seen self.old) 1 }
        ensures { Gives (λ _. scope_seen self.new) result (scoping.declare_buffer (scope_seen self.old) (site at) name.now (kind_of kind) constant) }
    {
        let array = Array {
            space: Space::Global,
            number: self.buffers.len() as u32,
        };
        let meaning = Meaning::Array {
            array,
            kind,
            writable: !constant,
        };
        self.bind(at, name, meaning)?;
        self.buffers.push(kind)?;
        Ok(())
    }

    /// Declares a local array.
    pub fn declare_array(
        &mut self,
        at: Site,
        name: &'a str,
        kind: Kind,
        length: u32,
    ) -> Result<(), TypeError>
        requires { HasRoom (scope_seen self.old) 1 }
        ensures { Gives (λ _. scope_seen self.new) result (scoping.declare_array (scope_seen self.old) (site at) name.now (kind_of kind) length) }
    {
        let array = Array {
            space: Space::Local,
            number: self.arrays.len() as u32,
        };
        let meaning = Meaning::Array {
            array,
            kind,
            writable: true,
        };
        self.bind(at, name, meaning)?;
        self.arrays.push(LocalArray { kind, length })?;
        Ok(())
    }

    fn declare_parameter(&mut self, parameter: &'a Parameter) -> Result<(), TypeError>
        requires { HasRoom (scope_seen self.old) 1 }
        ensures { Gives (λ _. scope_seen self.new) result (elaboration.declare_parameter (scope_seen self.old) (parameter_of parameter.now)) }
    {
        match parameter {
            Parameter::Buffer {
                constant,
                kind,
                name_site,
                name,
            } => self.declare_buffer(*name_site, name.as_str(), *kind, *constant),
            Parameter::Value {
                kind,
                name_site,
                name,
            } => {
                self.declare_variable(*name_site, name.as_str(), *kind)?;
                Ok(())
            }
        }
    }

    /// Declares the parameters, from left to right.
    pub fn declare_parameters(&mut self, parameters: &'a [Parameter]) -> Result<(), TypeError>
        requires { HasRoom (scope_seen self.old) (length parameters.now) }
        ensures { Gives (λ _. scope_seen self.new) result (elaboration.declare_parameters (scope_seen self.old) (map parameter_of parameters.now)) }
    {
        for parameter in parameters {
            self.declare_parameter(parameter)?;
        }
        Ok(())
    }
}
