//! Names of which a compiler may have a macro.

ghost use Rattle.std.specs.Prelude.{◌≡◌};
ghost use Rattle.opencl_tokens.specs.Seen.{site as site_of};
ghost use Rattle.opencl_macros.specs.Compilers as meaning;
ghost use Rattle.opencl_macros.specs.Seen.{table, Gives};
ghost use Rattle.opencl_macros.specs.SeenConditions.{same_flag};

use crate::MacroError;
use crate::macros::{Entry, is_defined};
use opencl_tokens::Site;

/// Two underscores, or one and a capital letter.
fn is_reserved(name: &str) -> bool
    ensures { result ≡ meaning.is_reserved name.now }
{
    match name.as_bytes() {
        [first, second, ..] => *first == b'_'
            && (*second == b'_' || 65 <= *second && *second <= 90),
        _ => false,
    }
}

/// Macros of one beginning.
fn is_of_family(name: &str) -> bool
    ensures { result ≡ meaning.is_of_family name.now }
{
    name.starts_with("as_")
        || name.starts_with("CL_VERSION_")
        || name.starts_with("FLT_")
        || name.starts_with("DBL_")
        || name.starts_with("FP_")
        || name.starts_with("CLK_")
}

/// Each compiler has a macro of that name.
#[tactic(auto, unfolding(crate::specs::Compilers::standard_names))]
pub fn is_standard(name: &str) -> bool
    ensures { result ≡ meaning.is_standard name.now }
{
    matches!(
        name,
        "CHAR_BIT"
            | "CHAR_MAX"
            | "CHAR_MIN"
            | "SCHAR_MAX"
            | "SCHAR_MIN"
            | "UCHAR_MAX"
            | "SHRT_MAX"
            | "SHRT_MIN"
            | "USHRT_MAX"
            | "INT_MAX"
            | "INT_MIN"
            | "UINT_MAX"
            | "LONG_MAX"
            | "LONG_MIN"
            | "ULONG_MAX"
            | "FLT_MAX"
            | "FLT_MIN"
            | "FLT_EPSILON"
            | "MAXFLOAT"
            | "HUGE_VALF"
            | "INFINITY"
            | "NAN"
            | "M_E_F"
            | "M_LOG2E_F"
            | "M_LOG10E_F"
            | "M_LN2_F"
            | "M_LN10_F"
            | "M_PI_F"
            | "M_PI_2_F"
            | "M_PI_4_F"
            | "M_1_PI_F"
            | "M_2_PI_F"
            | "M_2_SQRTPI_F"
            | "M_SQRT2_F"
            | "M_SQRT1_2_F"
    )
}

#[tactic(auto, unfolding(crate::specs::Compilers::header_names))]
fn is_header_name(name: &str) -> bool
    ensures { result ≡ meaning.is_one_of meaning.header_names name.now }
{
    matches!(
        name,
        "HUGE_VAL"
            | "kernel_exec"
            | "cles_khr_int64"
            | "true"
            | "false"
            | "NULL"
            | "M_E"
            | "M_LOG2E"
            | "M_LOG10E"
            | "M_LN2"
            | "M_LN10"
            | "M_PI"
            | "M_PI_2"
            | "M_PI_4"
            | "M_1_PI"
            | "M_2_PI"
            | "M_2_SQRTPI"
            | "M_SQRT2"
            | "M_SQRT1_2"
    )
}

#[tactic(auto, unfolding(crate::specs::Compilers::half_names))]
fn is_half_name(name: &str) -> bool
    ensures { result ≡ meaning.is_one_of meaning.half_names name.now }
{
    matches!(
        name,
        "HALF_DIG"
            | "HALF_MANT_DIG"
            | "HALF_MAX_10_EXP"
            | "HALF_MAX_EXP"
            | "HALF_MIN_10_EXP"
            | "HALF_MIN_EXP"
            | "HALF_RADIX"
            | "HALF_MAX"
            | "HALF_MIN"
            | "HALF_EPSILON"
            | "M_E_H"
            | "M_LOG2E_H"
            | "M_LOG10E_H"
            | "M_LN2_H"
            | "M_LN10_H"
            | "M_PI_H"
            | "M_PI_2_H"
            | "M_PI_4_H"
            | "M_1_PI_H"
            | "M_2_PI_H"
            | "M_2_SQRTPI_H"
            | "M_SQRT2_H"
            | "M_SQRT1_2_H"
    )
}

/// A compiler may have a macro of that name, from itself or from the headers that it reads before the text.
pub fn is_compilers(name: &str) -> bool
    ensures { result ≡ meaning.is_compilers name.now }
{
    is_standard(name)
        || is_reserved(name)
        || is_of_family(name)
        || is_header_name(name)
        || is_half_name(name)
}

/// Whether a name is defined, where the text or the standard says so.
pub fn whether_defined(entries: &[Entry<'_>], site: Site, name: &str) -> Result<bool, MacroError>
    ensures { Gives same_flag result (meaning.whether_defined (table entries.now) (site_of site) name.now) }
{
    if is_defined(name, entries) || is_standard(name) {
        Ok(true)
    } else if is_compilers(name) {
        Err(MacroError::At(site))
    } else {
        Ok(false)
    }
}
