//! The functions that a kernel may call.

ghost use Rattle.std.specs.Prelude.{◌≡◌};
ghost use Rattle.types.specs.Scope as scope;
ghost use Rattle.types.specs.Typing as typing;
ghost use Rattle.types.specs.Functions.{function_seen, pick_seen};

use core_code::tree::Function;

/// The work-item function of a name.
#[tactic(auto, unfolding(crate::specs::Typing::function_named))]
pub fn function_named(name: &str) -> Option<Function>
    ensures { function_seen result ≡ typing.function_named name.now }
{
    match name {
        "get_global_id" => Some(Function::GlobalId),
        "get_local_id" => Some(Function::LocalId),
        "get_group_id" => Some(Function::GroupId),
        "get_global_size" => Some(Function::GlobalSize),
        "get_local_size" => Some(Function::LocalSize),
        "get_num_groups" => Some(Function::NumGroups),
        _ => None,
    }
}

/// The smaller or the larger one of two operands: `min` or `max` (OpenCL 1.2, 6.12.3).
#[derive(Clone, Copy)]
pub enum Pick {
    Minimum,
    Maximum,
}

/// The function `min` or `max`, by its name; none where it is neither.
pub fn pick_named(name: &str) -> Option<Pick>
    ensures { pick_seen result ≡ typing.pick_named name.now }
{
    if name == "min" {
        Some(Pick::Minimum)
    } else if name == "max" {
        Some(Pick::Maximum)
    } else {
        None
    }
}

// Of the names below, those that are not atomic.
#[tactic(auto, unfolding(crate::specs::Typing::left_out_names))]
fn is_left_out_name(name: &str) -> bool
    ensures { result ≡ scope.is_one_of typing.left_out_names name.now }
{
    matches!(
        name,
        "get_work_dim"
            | "get_global_offset"
            | "mem_fence"
            | "read_mem_fence"
            | "write_mem_fence"
            | "mul24"
            | "mad24"
            | "abs"
            | "clamp"
            | "async_work_group_copy"
            | "wait_group_events"
            | "prefetch"
    )
}

/// Whether OpenCL C has a function of that name that this language leaves out.
#[tactic(auto, unfolding(crate::specs::Typing::is_left_out))]
pub fn is_left_out(name: &str) -> bool
    ensures { result ≡ typing.is_left_out name.now }
{
    name.as_bytes().starts_with(b"atomic_")
        || name.as_bytes().starts_with(b"atom_")
        || is_left_out_name(name)
}
