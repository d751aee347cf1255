//! The built-in functions that are read, by their names.

ghost use Rattle.std.specs.Prelude.{◌≡◌, ◌≤◌, length, map};
ghost use Rattle.std.specs.Option.{option_map};
ghost use Rattle.opencl_values.specs.Functions as rules;
ghost use Rattle.opencl_values.specs.FunctionsView.{form, form_entry, form_place, construct_entry};
ghost use Rattle.opencl_values.specs.View.{construct};

use crate::error::Construct;
use core_code::tree::Function;
use opencl_terms::scalars::Scalar;

/// What is made of the arguments of a built-in function.
#[derive(Clone, Copy)]
pub enum Form {
    IdOf(Function),
    Converts(Scalar),
    /// What lies outside of the scalar becomes its least or greatest number.
    Saturates(Scalar),
    /// The same bits as another scalar.
    BitsAs(Scalar),
    /// So many integers of one scalar, and it gives one.
    Integers(u32),
    /// So many floats, and it gives one.
    Floats(u32),
    /// So many floats, and it gives an `int` of 0 or 1.
    Tests(u32),
    /// So many vectors, and it gives a float of all their components.
    Reduces(u32),
    /// So many vectors, and it gives one, each component of all of theirs.
    Spreads(u32),
    Offset,
    Lesser,
    Greater,
    Clamped,
    Absolute,
    Product24,
    Sum24,
    /// A float and an `int`, and it gives a float.
    Scaled,
    /// A `uint`, and it gives a float.
    FromBits,
    /// A float, and it gives an `int`.
    Exponent,
    /// Two values, of which a third one chooses.
    Selects,
    /// A vector, and the numbers of its components that it gives.
    Shuffles,
    /// Two vectors, and the numbers of their components that it gives.
    Joins,
    /// Two values, of which the bits of a third one choose.
    Mixes,
    /// An integer, and it gives an `int`: whether the highest bits of all components are 1, or else whether one is.
    Tops(bool),
    /// How many dimensions a launch has.
    Dimensions,
    Missing(Construct),
}

/// The functions of OpenCL 1.2, 6.12.2 to 6.12.6, and `get_work_dim`.
static FUNCTIONS: [(&[u8], Form); 147] = [
    (b"min", Form::Lesser),
    (b"max", Form::Greater),
    (b"clamp", Form::Clamped),
    (b"abs", Form::Absolute),
    (b"mul24", Form::Product24),
    (b"mad24", Form::Sum24),
    (b"abs_diff", Form::Integers(2)),
    (b"add_sat", Form::Integers(2)),
    (b"sub_sat", Form::Integers(2)),
    (b"hadd", Form::Integers(2)),
    (b"rhadd", Form::Integers(2)),
    (b"clz", Form::Integers(1)),
    (b"mad_hi", Form::Integers(3)),
    (b"mad_sat", Form::Integers(3)),
    (b"mul_hi", Form::Integers(2)),
    (b"rotate", Form::Integers(2)),
    (b"popcount", Form::Integers(1)),
    (b"acos", Form::Floats(1)),
    (b"acosh", Form::Floats(1)),
    (b"acospi", Form::Floats(1)),
    (b"asin", Form::Floats(1)),
    (b"asinh", Form::Floats(1)),
    (b"asinpi", Form::Floats(1)),
    (b"atan", Form::Floats(1)),
    (b"atanh", Form::Floats(1)),
    (b"atanpi", Form::Floats(1)),
    (b"cbrt", Form::Floats(1)),
    (b"ceil", Form::Floats(1)),
    (b"cos", Form::Floats(1)),
    (b"cosh", Form::Floats(1)),
    (b"cospi", Form::Floats(1)),
    (b"erf", Form::Floats(1)),
    (b"erfc", Form::Floats(1)),
    (b"exp", Form::Floats(1)),
    (b"exp2", Form::Floats(1)),
    (b"exp10", Form::Floats(1)),
    (b"expm1", Form::Floats(1)),
    (b"fabs", Form::Floats(1)),
    (b"floor", Form::Floats(1)),
    (b"lgamma", Form::Floats(1)),
    (b"log", Form::Floats(1)),
    (b"log2", Form::Floats(1)),
    (b"log10", Form::Floats(1)),
    (b"log1p", Form::Floats(1)),
    (b"logb", Form::Floats(1)),
    (b"rint", Form::Floats(1)),
    (b"round", Form::Floats(1)),
    (b"rsqrt", Form::Floats(1)),
    (b"sin", Form::Floats(1)),
    (b"sinh", Form::Floats(1)),
    (b"sinpi", Form::Floats(1)),
    (b"sqrt", Form::Floats(1)),
    (b"tan", Form::Floats(1)),
    (b"tanh", Form::Floats(1)),
    (b"tanpi", Form::Floats(1)),
    (b"tgamma", Form::Floats(1)),
    (b"trunc", Form::Floats(1)),
    (b"atan2", Form::Floats(2)),
    (b"atan2pi", Form::Floats(2)),
    (b"copysign", Form::Floats(2)),
    (b"fdim", Form::Floats(2)),
    (b"fmax", Form::Floats(2)),
    (b"fmin", Form::Floats(2)),
    (b"fmod", Form::Floats(2)),
    (b"hypot", Form::Floats(2)),
    (b"maxmag", Form::Floats(2)),
    (b"minmag", Form::Floats(2)),
    (b"nextafter", Form::Floats(2)),
    (b"pow", Form::Floats(2)),
    (b"powr", Form::Floats(2)),
    (b"remainder", Form::Floats(2)),
    (b"fma", Form::Floats(3)),
    (b"mad", Form::Floats(3)),
    (b"ldexp", Form::Scaled),
    (b"pown", Form::Scaled),
    (b"rootn", Form::Scaled),
    (b"nan", Form::FromBits),
    (b"ilogb", Form::Exponent),
    (b"half_cos", Form::Floats(1)),
    (b"half_exp", Form::Floats(1)),
    (b"half_exp2", Form::Floats(1)),
    (b"half_exp10", Form::Floats(1)),
    (b"half_log", Form::Floats(1)),
    (b"half_log2", Form::Floats(1)),
    (b"half_log10", Form::Floats(1)),
    (b"half_recip", Form::Floats(1)),
    (b"half_rsqrt", Form::Floats(1)),
    (b"half_sin", Form::Floats(1)),
    (b"half_sqrt", Form::Floats(1)),
    (b"half_tan", Form::Floats(1)),
    (b"native_cos", Form::Floats(1)),
    (b"native_exp", Form::Floats(1)),
    (b"native_exp2", Form::Floats(1)),
    (b"native_exp10", Form::Floats(1)),
    (b"native_log", Form::Floats(1)),
    (b"native_log2", Form::Floats(1)),
    (b"native_log10", Form::Floats(1)),
    (b"native_recip", Form::Floats(1)),
    (b"native_rsqrt", Form::Floats(1)),
    (b"native_sin", Form::Floats(1)),
    (b"native_sqrt", Form::Floats(1)),
    (b"native_tan", Form::Floats(1)),
    (b"half_divide", Form::Floats(2)),
    (b"half_powr", Form::Floats(2)),
    (b"native_divide", Form::Floats(2)),
    (b"native_powr", Form::Floats(2)),
    (b"degrees", Form::Floats(1)),
    (b"radians", Form::Floats(1)),
    (b"sign", Form::Floats(1)),
    (b"step", Form::Floats(2)),
    (b"mix", Form::Floats(3)),
    (b"smoothstep", Form::Floats(3)),
    (b"dot", Form::Reduces(2)),
    (b"distance", Form::Reduces(2)),
    (b"length", Form::Reduces(1)),
    (b"normalize", Form::Spreads(1)),
    (b"fast_distance", Form::Reduces(2)),
    (b"fast_length", Form::Reduces(1)),
    (b"fast_normalize", Form::Spreads(1)),
    (b"isequal", Form::Tests(2)),
    (b"isnotequal", Form::Tests(2)),
    (b"isgreater", Form::Tests(2)),
    (b"isgreaterequal", Form::Tests(2)),
    (b"isless", Form::Tests(2)),
    (b"islessequal", Form::Tests(2)),
    (b"islessgreater", Form::Tests(2)),
    (b"isordered", Form::Tests(2)),
    (b"isunordered", Form::Tests(2)),
    (b"isfinite", Form::Tests(1)),
    (b"isinf", Form::Tests(1)),
    (b"isnan", Form::Tests(1)),
    (b"isnormal", Form::Tests(1)),
    (b"signbit", Form::Tests(1)),
    (b"fract", Form::Missing(Construct::Pointer)),
    (b"frexp", Form::Missing(Construct::Pointer)),
    (b"lgamma_r", Form::Missing(Construct::Pointer)),
    (b"modf", Form::Missing(Construct::Pointer)),
    (b"remquo", Form::Missing(Construct::Pointer)),
    (b"sincos", Form::Missing(Construct::Pointer)),
    (b"cross", Form::Spreads(2)),
    (b"select", Form::Selects),
    (b"shuffle", Form::Shuffles),
    (b"shuffle2", Form::Joins),
    (b"bitselect", Form::Mixes),
    (b"any", Form::Tops(false)),
    (b"all", Form::Tops(true)),
    (b"get_work_dim", Form::Dimensions),
];

/// The work-item functions (6.12.1).
static ITEM_FUNCTIONS: [(&[u8], Form); 7] = [
    (b"get_global_id", Form::IdOf(Function::GlobalId)),
    (b"get_local_id", Form::IdOf(Function::LocalId)),
    (b"get_group_id", Form::IdOf(Function::GroupId)),
    (b"get_global_size", Form::IdOf(Function::GlobalSize)),
    (b"get_local_size", Form::IdOf(Function::LocalSize)),
    (b"get_num_groups", Form::IdOf(Function::NumGroups)),
    (b"get_global_offset", Form::Offset),
];

/// Conversions (6.2.3), and bits as another type (6.2.4.2).
static CONVERSIONS: [(&[u8], Form); 72] = [
    (b"convert_char", Form::Converts(Scalar::Char)),
    (b"convert_char_rte", Form::Converts(Scalar::Char)),
    (b"convert_char_rtz", Form::Converts(Scalar::Char)),
    (b"convert_char_rtp", Form::Converts(Scalar::Char)),
    (b"convert_char_rtn", Form::Converts(Scalar::Char)),
    (b"convert_char_sat", Form::Saturates(Scalar::Char)),
    (b"convert_char_sat_rte", Form::Saturates(Scalar::Char)),
    (b"convert_char_sat_rtz", Form::Saturates(Scalar::Char)),
    (b"convert_char_sat_rtp", Form::Saturates(Scalar::Char)),
    (b"convert_char_sat_rtn", Form::Saturates(Scalar::Char)),
    (b"convert_uchar", Form::Converts(Scalar::Uchar)),
    (b"convert_uchar_rte", Form::Converts(Scalar::Uchar)),
    (b"convert_uchar_rtz", Form::Converts(Scalar::Uchar)),
    (b"convert_uchar_rtp", Form::Converts(Scalar::Uchar)),
    (b"convert_uchar_rtn", Form::Converts(Scalar::Uchar)),
    (b"convert_uchar_sat", Form::Saturates(Scalar::Uchar)),
    (b"convert_uchar_sat_rte", Form::Saturates(Scalar::Uchar)),
    (b"convert_uchar_sat_rtz", Form::Saturates(Scalar::Uchar)),
    (b"convert_uchar_sat_rtp", Form::Saturates(Scalar::Uchar)),
    (b"convert_uchar_sat_rtn", Form::Saturates(Scalar::Uchar)),
    (b"convert_short", Form::Converts(Scalar::Short)),
    (b"convert_short_rte", Form::Converts(Scalar::Short)),
    (b"convert_short_rtz", Form::Converts(Scalar::Short)),
    (b"convert_short_rtp", Form::Converts(Scalar::Short)),
    (b"convert_short_rtn", Form::Converts(Scalar::Short)),
    (b"convert_short_sat", Form::Saturates(Scalar::Short)),
    (b"convert_short_sat_rte", Form::Saturates(Scalar::Short)),
    (b"convert_short_sat_rtz", Form::Saturates(Scalar::Short)),
    (b"convert_short_sat_rtp", Form::Saturates(Scalar::Short)),
    (b"convert_short_sat_rtn", Form::Saturates(Scalar::Short)),
    (b"convert_ushort", Form::Converts(Scalar::Ushort)),
    (b"convert_ushort_rte", Form::Converts(Scalar::Ushort)),
    (b"convert_ushort_rtz", Form::Converts(Scalar::Ushort)),
    (b"convert_ushort_rtp", Form::Converts(Scalar::Ushort)),
    (b"convert_ushort_rtn", Form::Converts(Scalar::Ushort)),
    (b"convert_ushort_sat", Form::Saturates(Scalar::Ushort)),
    (b"convert_ushort_sat_rte", Form::Saturates(Scalar::Ushort)),
    (b"convert_ushort_sat_rtz", Form::Saturates(Scalar::Ushort)),
    (b"convert_ushort_sat_rtp", Form::Saturates(Scalar::Ushort)),
    (b"convert_ushort_sat_rtn", Form::Saturates(Scalar::Ushort)),
    (b"convert_int", Form::Converts(Scalar::Int)),
    (b"convert_int_rte", Form::Converts(Scalar::Int)),
    (b"convert_int_rtz", Form::Converts(Scalar::Int)),
    (b"convert_int_rtp", Form::Converts(Scalar::Int)),
    (b"convert_int_rtn", Form::Converts(Scalar::Int)),
    (b"convert_int_sat", Form::Saturates(Scalar::Int)),
    (b"convert_int_sat_rte", Form::Saturates(Scalar::Int)),
    (b"convert_int_sat_rtz", Form::Saturates(Scalar::Int)),
    (b"convert_int_sat_rtp", Form::Saturates(Scalar::Int)),
    (b"convert_int_sat_rtn", Form::Saturates(Scalar::Int)),
    (b"convert_uint", Form::Converts(Scalar::Uint)),
    (b"convert_uint_rte", Form::Converts(Scalar::Uint)),
    (b"convert_uint_rtz", Form::Converts(Scalar::Uint)),
    (b"convert_uint_rtp", Form::Converts(Scalar::Uint)),
    (b"convert_uint_rtn", Form::Converts(Scalar::Uint)),
    (b"convert_uint_sat", Form::Saturates(Scalar::Uint)),
    (b"convert_uint_sat_rte", Form::Saturates(Scalar::Uint)),
    (b"convert_uint_sat_rtz", Form::Saturates(Scalar::Uint)),
    (b"convert_uint_sat_rtp", Form::Saturates(Scalar::Uint)),
    (b"convert_uint_sat_rtn", Form::Saturates(Scalar::Uint)),
    (b"convert_float", Form::Converts(Scalar::Float)),
    (b"convert_float_rte", Form::Converts(Scalar::Float)),
    (b"convert_float_rtz", Form::Converts(Scalar::Float)),
    (b"convert_float_rtp", Form::Converts(Scalar::Float)),
    (b"convert_float_rtn", Form::Converts(Scalar::Float)),
    (b"as_char", Form::BitsAs(Scalar::Char)),
    (b"as_uchar", Form::BitsAs(Scalar::Uchar)),
    (b"as_short", Form::BitsAs(Scalar::Short)),
    (b"as_ushort", Form::BitsAs(Scalar::Ushort)),
    (b"as_int", Form::BitsAs(Scalar::Int)),
    (b"as_uint", Form::BitsAs(Scalar::Uint)),
    (b"as_float", Form::BitsAs(Scalar::Float)),
];

/// Names that begin so are left out.
static BEGINNINGS: [(&[u8], Construct); 7] = [
    (b"atomic_", Construct::Atomic),
    (b"atom_", Construct::Atomic),
    (b"read_image", Construct::Image),
    (b"write_image", Construct::Image),
    (b"get_image", Construct::Image),
    (b"vload", Construct::Vector),
    (b"vstore", Construct::Vector),
];

#[tactic(auto, unfolding(crate::specs::Functions::functions))]
fn functions() -> &'static [(&'static [u8], Form)]
    ensures few { length result.now ≤ 1000 }
    ensures entries { map form_entry result.now ≡ rules.functions }
{
    &FUNCTIONS
}

#[tactic(auto, unfolding(crate::specs::Functions::item_functions))]
fn item_functions() -> &'static [(&'static [u8], Form)]
    ensures few { length result.now ≤ 1000 }
    ensures entries { map form_entry result.now ≡ rules.item_functions }
{
    &ITEM_FUNCTIONS
}

#[tactic(auto, unfolding(crate::specs::Functions::conversions))]
fn conversions() -> &'static [(&'static [u8], Form)]
    ensures few { length result.now ≤ 1000 }
    ensures entries { map form_entry result.now ≡ rules.conversions }
{
    &CONVERSIONS
}

#[tactic(auto, unfolding(crate::specs::Functions::beginnings))]
fn beginnings() -> &'static [(&'static [u8], Construct)]
    ensures { map construct_entry result.now ≡ rules.beginnings }
{
    &BEGINNINGS
}

impl Form {
    ghost use Rattle.std.specs.Prelude.{◌≡◌};
    ghost use Rattle.opencl_values.specs.Functions as rules;
    ghost use Rattle.opencl_values.specs.FunctionsView.{form};

    /// How many arguments the function takes.
    pub fn count(self) -> u32
        ensures { result ≡ rules.count_of (form self) }
    {
        match self {
            Form::IdOf(_)
            | Form::Converts(_)
            | Form::Saturates(_)
            | Form::BitsAs(_)
            | Form::Offset
            | Form::Absolute
            | Form::FromBits
            | Form::Exponent
            | Form::Tops(_) => 1,
            Form::Integers(count)
            | Form::Floats(count)
            | Form::Tests(count)
            | Form::Reduces(count)
            | Form::Spreads(count) => count,
            Form::Lesser | Form::Greater | Form::Product24 | Form::Scaled | Form::Shuffles => 2,
            Form::Clamped | Form::Sum24 | Form::Selects | Form::Joins | Form::Mixes => 3,
            Form::Dimensions | Form::Missing(_) => 0,
        }
    }
}

// The form of a name in a table, with its place there, counted from a number.
fn entry_at(table: &[(&[u8], Form)], name: &[u8], from: u32) -> Option<(Form, u32)>
    requires low { from ≤ 64 }
    requires few { length table.now ≤ 1000 }
    ensures { option_map form_place result ≡ rules.entry_at (map form_entry table.now) name.now from }
{
    let mut place = from;
    for (text, form) in table {
        if *text == name {
            return Some((*form, place));
        }
        place += 1;
    }
    None
}

/// The form of a name, with the number of its operation, where that is not reckoned.
#[tactic(auto, unfolding(crate::specs::Functions::form_named))]
pub fn form_named(name: &str) -> Option<(Form, u32)>
    ensures { option_map form_place result ≡ rules.form_named name.now }
{
    let name = name.as_bytes();
    if let Some(found) = entry_at(functions(), name, 64) {
        return Some(found);
    }
    if let Some(found) = entry_at(item_functions(), name, 0) {
        return Some(found);
    }
    entry_at(conversions(), name, 0)
}

/// The form of the name of a conversion of a scalar (OpenCL 1.2, 6.2.3 and 6.2.4.2).
pub fn conversion_of(name: &[u8]) -> Option<(Form, u32)>
    ensures { option_map form_place result ≡ rules.entry_at rules.conversions name.now 0 }
{
    entry_at(conversions(), name, 0)
}

/// What a name that is called, and not read, belongs to.
#[tactic(auto, unfolding(crate::specs::Functions::construct_called))]
pub fn construct_called(name: &str) -> Construct
    ensures { construct result ≡ rules.construct_called name.now }
{
    for (text, construct) in beginnings() {
        if name.as_bytes().starts_with(text) {
            return *construct;
        }
    }
    Construct::Function
}
