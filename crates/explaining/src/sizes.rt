//! Where a kernel computes with ids that are not cast, whose bits differ from device to device.

ghost use Rattle.std.specs.Prelude.{◌≡◌, ◌++◌, ℕ, List, OnOk};
ghost use Rattle.std.specs.String.{string_bytes};

use crate::hints::order_of;
use crate::kinds::kind_of;
use crate::paragraph::push_paragraph;
use crate::parts::{statements_of, terms_of};
use crate::source::push_site;
use core_code::tree::{Core, Site, Term};
use kernel_reading::{KernelError, Reading, Source, read_source};
use std::alloc::{AllocError, Global};
use types::devices::Devices;
use words::Kind;

/// The text on a kernel that computes with sizes: it may differ on devices with other address bits.
const COMPUTED: &str =
    "The kernel computes with an id or a size that is not cast, or has a signed number beside one. This answer is for devices \
    with 32 address bits, where that is done modulo 2^32; a device with 64 computes with 64 bits.";

/// The text on a kernel that is accepted for any devices, too.
const SAME: &str =
    "With --devices any the kernel is accepted, too: it has the same results on every device.";

/// Advice for a kernel that is not accepted for any devices.
const CAST: &str =
    "Where 32 bits are meant, cast the id: (uint)get_global_id(0) is the same on every device.";

/// Whether a term may have a negative value: an `int`, but for a number of the text.
fn may_be_negative(core: &Core, term: &Term) -> bool {
    !matches!(term, Term::Literal { .. }) && kind_of(core, term) == Kind::Int
}

/// The place of an operator that computes with a size, or where a signed number stands beside one and becomes a size.
fn size_at(core: &Core, term: &Term) -> Option<Site> {
    match term {
        Term::Convert {
            kind: Kind::Size,
            site,
            of,
        } if may_be_negative(core, of) => Some(*site),
        Term::Unary {
            kind: Kind::Size,
            site,
            ..
        }
        | Term::Binary {
            kind: Kind::Size,
            site,
            ..
        } => Some(*site),
        _ => None,
    }
}

/// The first one of two places in the source.
fn first_of(one: Option<Site>, other: Site) -> Site {
    match one {
        Some(site) if order_of(site) <= order_of(other) => site,
        _ => other,
    }
}

/// The first place of a kernel, in the order of the source, where it computes with a size or a signed number becomes one.
fn first_use(alloc: Global, core: &Core) -> Result<Option<Site>, AllocError> {
    let mut first = None;
    let statements = statements_of(alloc, core.body.as_slice())?;
    for statement in &statements {
        let terms = terms_of(alloc, statement)?;
        for term in &terms {
            if let Some(site) = size_at(core, term) {
                first = Some(first_of(first, site));
            }
        }
    }
    Ok(first)
}

/// The place where a kernel that is refused for any devices breaks a rule.
fn fault_of(error: &KernelError) -> Option<Site> {
    match error.place() {
        Some((line, column)) => Some(Site { line, column }),
        None => None,
    }
}

/// The first place where a kernel's text computes with a size, or is no kernel for any devices; none where there is none.
fn first_place(alloc: Global, kernel: Source<'_>) -> Result<Option<Site>, AllocError> {
    let source = Source {
        reading: Reading {
            language: kernel.reading.language,
            devices: Devices::Any,
        },
        conditions: kernel.conditions,
        bytes: kernel.bytes,
    };
    match read_source(alloc, source) {
        Ok(typed) => first_use(alloc, typed.core()),
        Err(error) => Ok(fault_of(&error)),
    }
}

/// Whether a kernel computes with ids or sizes that are not cast: by an operator, or with a signed number beside one; and not only by an
/// index, or a comparison or a conversion of numbers that are not negative.
pub fn computes_with_sizes(alloc: Global, kernel: Source<'_>) -> Result<bool, AllocError> {
    let place = first_place(alloc, kernel)?;
    Ok(place.is_some())
}

/// Where a kernel computes with sizes, and what is said of it for any devices: the number of its refusal, or that it is accepted.
fn told_sizes(
    alloc: Global,
    kernel: &[u8],
    site: Site,
    refusal: Option<u8>,
) -> Result<String, AllocError> {
    let mut out = String::new(alloc);
    out.push_str("\n")?;
    push_paragraph(&mut out, "", COMPUTED)?;
    push_site(alloc, &mut out, kernel, site, false, "computed with an id")?;
    match refusal {
        None => push_paragraph(&mut out, "", SAME)?,
        Some(number) => {
            let refused = format!(in alloc; "With --devices any it is refused by {number}.")?;
            push_paragraph(&mut out, "", &refused)?;
            push_paragraph(&mut out, "", CAST)?;
        }
    }
    Ok(out)
}

/// Adds to a text where an accepted kernel computes with ids or sizes that are not cast, and what is said of it for any devices: the number
/// by which it is refused, or that it is accepted.
pub fn explain_sizes(
    alloc: Global,
    kernel: Source<'_>,
    refusal: Option<u8>,
    out: &mut String,
) -> Result<(), AllocError>
    ensures { OnOk result ((more : List ℕ) × (string_bytes out.new ≡ string_bytes out.old ++ more)) }
{
    let Some(site) = first_place(alloc, kernel)? else {
        return out.push_str("");
    };
    let text = told_sizes(alloc, kernel.bytes, site, refusal)?;
    out.push_str(&text)
}
