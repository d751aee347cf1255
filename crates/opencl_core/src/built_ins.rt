//! Names of the standard's functions.

ghost use Rattle.std.specs.Prelude.{◌≡◌};
ghost use Rattle.opencl_core.specs.BuiltIns as rules;
ghost use Rattle.opencl_core.specs.Names as names;

#[tactic(auto, unfolding(crate::specs::BuiltIns::trigonometric_names))]
fn is_trigonometric(name: &str) -> bool
    ensures { result ≡ names.is_one_of rules.trigonometric_names name.now }
{
    matches!(
        name,
        "acos"
            | "acosh"
            | "acospi"
            | "asin"
            | "asinh"
            | "asinpi"
            | "atan"
            | "atan2"
            | "atanh"
            | "atanpi"
            | "atan2pi"
            | "cos"
            | "cosh"
            | "cospi"
            | "sin"
            | "sincos"
            | "sinh"
            | "sinpi"
            | "tan"
            | "tanh"
            | "tanpi"
    )
}

#[tactic(auto, unfolding(crate::specs::BuiltIns::exponential_names))]
fn is_exponential(name: &str) -> bool
    ensures { result ≡ names.is_one_of rules.exponential_names name.now }
{
    matches!(
        name,
        "cbrt"
            | "erf"
            | "erfc"
            | "exp"
            | "exp2"
            | "exp10"
            | "expm1"
            | "frexp"
            | "hypot"
            | "ilogb"
            | "ldexp"
            | "lgamma"
            | "lgamma_r"
            | "log"
            | "log2"
            | "log10"
            | "log1p"
            | "logb"
            | "pow"
            | "pown"
            | "powr"
            | "rootn"
            | "rsqrt"
            | "sqrt"
            | "tgamma"
    )
}

#[tactic(auto, unfolding(crate::specs::BuiltIns::rounding_names))]
fn is_rounding(name: &str) -> bool
    ensures { result ≡ names.is_one_of rules.rounding_names name.now }
{
    matches!(
        name,
        "ceil"
            | "copysign"
            | "fabs"
            | "fdim"
            | "floor"
            | "fma"
            | "fmax"
            | "fmin"
            | "fmod"
            | "fract"
            | "mad"
            | "maxmag"
            | "minmag"
            | "modf"
            | "nan"
            | "nextafter"
            | "remainder"
            | "remquo"
            | "rint"
            | "round"
            | "trunc"
    )
}

#[tactic(auto, unfolding(crate::specs::BuiltIns::whole_names))]
fn is_whole(name: &str) -> bool
    ensures { result ≡ names.is_one_of rules.whole_names name.now }
{
    matches!(
        name,
        "abs"
            | "abs_diff"
            | "add_sat"
            | "hadd"
            | "rhadd"
            | "clamp"
            | "clz"
            | "mad_hi"
            | "mad_sat"
            | "max"
            | "min"
            | "mul_hi"
            | "rotate"
            | "sub_sat"
            | "upsample"
            | "popcount"
            | "mad24"
            | "mul24"
    )
}

#[tactic(auto, unfolding(crate::specs::BuiltIns::common_names))]
fn is_common(name: &str) -> bool
    ensures { result ≡ names.is_one_of rules.common_names name.now }
{
    matches!(
        name,
        "degrees"
            | "mix"
            | "radians"
            | "step"
            | "smoothstep"
            | "sign"
            | "cross"
            | "dot"
            | "distance"
            | "length"
            | "normalize"
            | "fast_distance"
            | "fast_length"
            | "fast_normalize"
            | "shuffle"
            | "shuffle2"
            | "vec_step"
            | "printf"
            | "prefetch"
            | "wait_group_events"
    )
}

#[tactic(auto, unfolding(crate::specs::BuiltIns::relational_names))]
fn is_relational(name: &str) -> bool
    ensures { result ≡ names.is_one_of rules.relational_names name.now }
{
    matches!(
        name,
        "isequal"
            | "isnotequal"
            | "isgreater"
            | "isgreaterequal"
            | "isless"
            | "islessequal"
            | "islessgreater"
            | "isfinite"
            | "isinf"
            | "isnan"
            | "isnormal"
            | "isordered"
            | "isunordered"
            | "signbit"
            | "any"
            | "all"
            | "bitselect"
            | "select"
    )
}

#[tactic(auto, unfolding(crate::specs::BuiltIns::item_names))]
fn is_item(name: &str) -> bool
    ensures { result ≡ names.is_one_of rules.item_names name.now }
{
    matches!(
        name,
        "get_work_dim"
            | "get_global_size"
            | "get_global_id"
            | "get_local_size"
            | "get_local_id"
            | "get_num_groups"
            | "get_group_id"
            | "get_global_offset"
            | "barrier"
            | "mem_fence"
            | "read_mem_fence"
            | "write_mem_fence"
    )
}

#[tactic(auto, unfolding(crate::specs::BuiltIns::begins_as_value))]
fn begins_as_value(name: &str) -> bool
    ensures { result ≡ rules.begins_as_value name.now }
{
    name.starts_with("convert_")
        || name.starts_with("as_")
        || name.starts_with("vload")
        || name.starts_with("vstore")
        || name.starts_with("native_")
        || name.starts_with("half_")
}

#[tactic(auto, unfolding(crate::specs::BuiltIns::begins_as_access))]
fn begins_as_access(name: &str) -> bool
    ensures { result ≡ rules.begins_as_access name.now }
{
    name.starts_with("atomic_")
        || name.starts_with("atom_")
        || name.starts_with("async_")
        || name.starts_with("read_image")
        || name.starts_with("write_image")
        || name.starts_with("get_image_")
}

/// Whether a name is one of the standard's functions.
#[tactic(auto, unfolding(crate::specs::BuiltIns::is_built_in))]
pub fn is_built_in(name: &str) -> bool
    ensures { result ≡ rules.is_built_in name.now }
{
    is_trigonometric(name)
        || is_exponential(name)
        || is_rounding(name)
        || is_whole(name)
        || is_common(name)
        || is_relational(name)
        || is_item(name)
        || begins_as_value(name)
        || begins_as_access(name)
}
