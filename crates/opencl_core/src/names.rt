//! Which names declarations may take.

ghost use Rattle.std.specs.Prelude.{◌≡◌};
ghost use Rattle.opencl_core.specs.Names as rules;

#[tactic(auto, unfolding(crate::specs::Names::reserved_names))]
fn is_reserved(name: &str) -> bool
    ensures { result ≡ rules.is_one_of rules.reserved_names name.now }
{
    matches!(
        name,
        "get_global_id"
            | "get_local_id"
            | "get_group_id"
            | "get_global_size"
            | "get_local_size"
            | "get_num_groups"
            | "reqd_work_group_size"
            | "get_work_dim"
            | "CLK_LOCAL_MEM_FENCE"
            | "CLK_GLOBAL_MEM_FENCE"
            | "barrier"
    )
}

/// A name that belongs to the compiler, which may have a macro of that name (C99 7.1.3).
fn is_compilers(name: &str) -> bool
    ensures { result ≡ rules.is_compilers name.now }
{
    match name.as_bytes() {
        [first, second, ..] => *first == b'_'
            && (*second == b'_' || 65 <= *second && *second <= 90),
        _ => false,
    }
}

/// A name that a compiler gives to a built-in function by a macro.
fn is_renamed(name: &str) -> bool
    ensures { result ≡ rules.is_renamed name.now }
{
    name.starts_with("_cl_")
}

/// A name that no declaration may take, wherever it stands.
#[tactic(auto, unfolding(crate::specs::Names::is_taken))]
pub fn is_taken(name: &str) -> bool
    ensures { result ≡ rules.is_taken name.now }
{
    is_reserved(name) || is_compilers(name) || is_renamed(name)
}

fn begins_underscored(name: &str) -> bool
    ensures { result ≡ rules.begins_underscored name.now }
{
    match name.as_bytes() {
        [first, ..] => *first == b'_',
        [] => false,
    }
}

/// A function that a compiler calls on its own.
#[tactic(auto, unfolding(crate::specs::Names::called_names))]
fn is_called(name: &str) -> bool
    ensures { result ≡ rules.is_one_of rules.called_names name.now }
{
    matches!(name, "memcpy" | "memmove" | "memset" | "memcmp" | "bcmp")
}

/// Whether a kernel may have the name, which is declared at file scope (C99 6.2.1p4).
pub fn may_name_kernel(name: &str) -> bool
    ensures { result ≡ rules.may_name_kernel name.now }
{
    !begins_underscored(name) && !is_called(name) && !is_taken(name)
}
