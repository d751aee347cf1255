//! Section: OpenCL text. Promises exactly the core and the map of names of a text of OpenCL C, or its first fault; stands on
//! `opencl_files`, `opencl_core`, `launch_text` and `sound_cores`.
//!
//! The bytes of a text of OpenCL C to a core with its map of names. The head of conditions may name the kernel, define macros for the text,
//! and say how large its work-groups are and how many elements its local pointers have. What kernels of the plain language keep by theorems
//! is tested of what was written out, so that those who stand above need not know where a core came from.
#![tactic(auto)]

ghost use Rattle.std.specs.Prelude.{◌≡◌, true, length, map, nat_le, IfOk};
ghost use Rattle.core_code.specs.View.{kernel as core_seen, site as site_seen};
ghost use Rattle.kernel_names.specs.View.{names_seen};
ghost use Rattle.words.specs.View.{kind as kind_seen};
ghost use Rattle.types.specs.Names.{devices as devices_seen};
ghost use Rattle.launch_text.specs.View.{head as head_seen};
ghost use Rattle.opencl_tokens.specs.Seen.{joined as joined_seen, token as token_seen};
ghost use Rattle.opencl_parser.specs.View.{lexemes as lexemes_seen};
ghost use Rattle.opencl_files.specs.View.{kernel_text as text_seen};
ghost use Rattle.opencl_values.specs.View.{Gives as Values, bindings};
ghost use Rattle.opencl_core.specs.Kernels as core_rules;
ghost use Rattle.opencl_core.specs.View as cores;
ghost use Rattle.opencl_reading.specs.Kernels as kernels;
ghost use Rattle.opencl_reading.specs.Kernels.{read};
ghost use Rattle.opencl_reading.specs.Answers.{Gives, outside, overloaded as overloaded_seen, too_many as too_many_seen};

pub mod defines;
pub mod error;
mod file_types;
mod heads;
mod jumps;
mod kinds;
mod left_out;
mod names;
mod overloads;

use crate::defines::{joined_lines, tokens_behind};
use crate::error::OpenClError;
use crate::file_types::push_meant;
use crate::heads::{agreed, are_locals, counts};
use crate::jumps::rewritten_text;
use crate::kinds::tells_parameters;
use crate::names::{names_in, unread};
use crate::overloads::first_overloading;
use bumpalo::Bump;
use core_code::tree::Site;
use kernel_names::site_at;
use launch_text::head::Head;
use opencl_core::heads::LocalCount;
use opencl_core::kernels::{Written, kernel_of};
use opencl_files::files::chosen_kernel;
use opencl_files::tree::KernelText;
use opencl_macros::{MacroError, preprocessed};
use opencl_tokens::{Joined, Lexeme, TextFault, Token, TokenError, join, lexemes, tokens};
use opencl_values::error::{Construct, Fault, ValueError};
use opencl_values::scope::Binding;
use sound_cores::sound::is_sound;
use sound_cores::unset::first_unset;
use std::alloc::{AllocError, Global};
use typed_kernels::Typed;
use types::devices::Devices;
use words::Kind;

/// The most parameters of a kernel.
const MOST_PARAMETERS: usize = 96;

/// A written kernel with few parameters, none of whose variables may be read before it is set.
fn tested(alloc: Global, at: Site, of: Written) -> Result<Typed, OpenClError>
    requires { nat_le (length of.names.parameters.items) 96 ≡ true }
    ensures { Gives result (kernels.tested (site_seen at) (cores.written of)) }
{
    if is_sound(&of.core) && tells_parameters(alloc, &of.core, &of.names)? {
        Ok(Typed::new(of.names, of.core))
    } else {
        Err(OpenClError::Unsound(at))
    }
}

/// The fault of a kernel with something that is too many or too large.
fn too_many(at: Site) -> OpenClError
    ensures { result ≡ too_many_seen at }
{
    OpenClError::Core(ValueError::At {
        fault: Fault::TooMany,
        site: at,
    })
}

/// A written kernel with few parameters.
fn with_few(alloc: Global, at: Site, of: Written) -> Result<Typed, OpenClError>
    requires { nat_le (length of.names.parameters.items) 96 ≡ true }
    ensures { Gives result (kernels.all_set (site_seen at) (cores.written of) (kernels.first_unset (core_seen of.core))) }
{
    match first_unset(&of.core) {
        Some(number) => Err(OpenClError::Core(ValueError::At {
            fault: Fault::Unset,
            site: site_at(&of.names, Some(number)),
        })),
        None => tested(alloc, at, of),
    }
}

/// A written kernel, where all that is asked of one holds.
fn checked(alloc: Global, at: Site, of: Written) -> Result<Typed, OpenClError>
    ensures { Gives result (kernels.checked (site_seen at) (cores.written of)) }
{
    if of.names.parameters.len() <= MOST_PARAMETERS {
        with_few(alloc, at, of)
    } else {
        Err(too_many(at))
    }
}

/// A kernel's text, and the names that its file declares beside it.
#[derive(Drop)]
struct FileText {
    names: Vec<String>,
    text: KernelText,
}

/// The core that a kernel's text stands for, where these names are declared outside of it.
fn core_of<'a>(
    alloc: Global,
    ids: Kind,
    outside: Vec<Binding<'a>>,
    text: &'a KernelText,
    counts: &[LocalCount],
    sizes: [u32; 3],
) -> Result<Written, ValueError>
    ensures { Values cores.written result (core_rules.kernel_of (kind_seen ids) (bindings outside.entry.items) (text_seen text.now).functions (cores.three sizes) (text_seen text.now).header (map cores.local_count counts.now) (text_seen text.now).body) }
{
    kernel_of(
        alloc,
        ids,
        outside,
        &text.functions,
        sizes,
        &text.header,
        counts,
        &text.body,
    )
}

/// A kernel of these work-group sizes, whose local pointers have these lengths.
fn of_size(
    alloc: Global,
    ids: Kind,
    file: &FileText,
    counts: &[LocalCount],
    sizes: [u32; 3],
) -> Result<Typed, OpenClError>
    ensures { Gives result (kernels.of_size (kind_seen ids) (outside file.now) (text_seen file.now.text) (map cores.local_count counts.now) (cores.three sizes)) }
{
    let text = &file.text;
    let mut outside = unread(alloc, &file.names)?;
    push_meant(alloc, ids, text, &mut outside)?;
    match core_of(alloc, ids, outside, text, counts, sizes) {
        Ok(of) => checked(alloc, text.header.site, of),
        Err(error) => Err(OpenClError::Core(error)),
    }
}

/// Whether a work-group has 1 to 1,024 work-items.
fn are_sizes(sizes: [u32; 3]) -> bool
    ensures { result ≡ kernels.are_sizes (cores.three sizes) }
{
    let [x, y, z] = sizes;
    x <= 1024 && y <= 1024 && z <= 1024 && 0 < x * y * z && x * y * z <= 1024
}

/// A kernel of these work-group sizes, where the head gives lengths to its local pointers alone, to each once.
fn with_locals(
    alloc: Global,
    ids: Kind,
    file: &FileText,
    head: &Head<'_>,
    sizes: [u32; 3],
) -> Result<Typed, OpenClError>
    ensures { Gives result (kernels.with_locals (kind_seen ids) (outside file.now) (text_seen file.now.text) (head_seen head.now) (cores.three sizes)) }
{
    let header = &file.text.header;
    if are_locals(&header.parameters, &head.locals) {
        let counts = counts(alloc, &head.locals)?;
        of_size(alloc, ids, file, &counts, sizes)
    } else {
        Err(OpenClError::NoSuchLocal(header.site))
    }
}

/// A kernel of these work-group sizes, where they are no more than a work-group has.
fn with_sizes(
    alloc: Global,
    ids: Kind,
    file: &FileText,
    head: &Head<'_>,
    sizes: [u32; 3],
) -> Result<Typed, OpenClError>
    ensures { Gives result (kernels.with_sizes (kind_seen ids) (outside file.now) (text_seen file.now.text) (head_seen head.now) (cores.three sizes)) }
{
    if are_sizes(sizes) {
        with_locals(alloc, ids, file, head, sizes)
    } else {
        Err(too_many(file.text.header.site))
    }
}

/// The kernel of a file's text, where that or the head says how large its work-groups are.
#[tactic(auto, using(crate::proofs::Handing::handed))]
fn with_head(
    alloc: Global,
    ids: Kind,
    file: &FileText,
    head: &Head<'_>,
) -> Result<Typed, OpenClError>
    ensures { Gives result (kernels.with_head (kind_seen ids) (outside file.now) (head_seen head.now) (text_seen file.now.text)) }
{
    let header = &file.text.header;
    let sizes = agreed(header.site, header.sizes, head.sizes)?;
    with_sizes(alloc, ids, file, head, sizes)
}

/// The fault of a file with overloaded functions.
fn overloaded(at: Site) -> OpenClError
    ensures { result ≡ overloaded_seen at }
{
    OpenClError::Core(ValueError::At {
        fault: Fault::LeftOut(Construct::Outside),
        site: at,
    })
}

/// The kernel of a text that was chosen from a file's lexemes.
fn of_text(
    alloc: Global,
    ids: Kind,
    head: &Head<'_>,
    tokens: &[Lexeme],
    text: KernelText,
) -> Result<Typed, OpenClError>
    ensures { Gives result (kernels.of_text (kind_seen ids) (head_seen head.now) (lexemes_seen tokens.now) (text_seen text)) }
{
    let text = rewritten_text(alloc, text)?;
    let names = names_in(alloc, tokens)?;
    with_head(alloc, ids, &FileText { names, text }, head)
}

/// The kernel of a file's lexemes: the one that the head names, or the only one.
fn of_lexemes(
    alloc: Global,
    ids: Kind,
    head: &Head<'_>,
    tokens: &[Lexeme],
) -> Result<Typed, OpenClError>
    ensures { Gives result (kernels.of_lexemes (kind_seen ids) (head_seen head.now) (lexemes_seen tokens.now)) }
{
    if let Some(at) = first_overloading(tokens) {
        return Err(overloaded(at));
    }
    match chosen_kernel(alloc, head.kernel, tokens) {
        Ok(text) => of_text(alloc, ids, head, tokens, text),
        Err(error) => Err(OpenClError::File(error)),
    }
}

/// The kernel of tokens in which no directive and no macro is left.
fn of_expanded(
    alloc: Global,
    ids: Kind,
    head: &Head<'_>,
    found: &[Token],
) -> Result<Typed, OpenClError>
    ensures { Gives result (kernels.of_expanded (kind_seen ids) (head_seen head.now) (map token_seen found.now)) }
{
    match lexemes(alloc, found) {
        Ok(found) => of_lexemes(alloc, ids, head, &found),
        Err(error) => Err(OpenClError::Text(error)),
    }
}

/// The kernel of tokens behind definitions that are given.
fn with_given<'a>(
    alloc: Global,
    ids: Kind,
    head: &Head<'_>,
    found: &'a [Token<'a>],
    given: &'a [Token<'a>],
) -> Result<Typed, OpenClError>
    ensures { Gives result (kernels.with_given (kind_seen ids) (head_seen head.now) (map token_seen found.now) (map token_seen given.now)) }
{
    let pool = Bump::new(alloc);
    match preprocessed(alloc, &pool, given, found) {
        Ok(out) => of_expanded(alloc, ids, head, &out),
        Err(MacroError::At(site)) => Err(OpenClError::Text(TokenError::At {
            fault: TextFault::Preprocessor,
            site,
        })),
        Err(MacroError::Memory) => Err(OpenClError::Memory),
    }
}

fn with_texts<'a>(
    alloc: Global,
    ids: Kind,
    head: &Head<'_>,
    found: &'a [Token<'a>],
    given: &'a [Token<'a>],
    lines: &'a [Joined],
) -> Result<Typed, OpenClError>
    ensures { Gives result (kernels.with_texts (kind_seen ids) (head_seen head.now) (map token_seen found.now) (map token_seen given.now) (map joined_seen lines.now)) }
{
    match tokens_behind(alloc, given, lines) {
        Ok(given) => with_given(alloc, ids, head, found, &given),
        Err(error) => Err(OpenClError::Text(error)),
    }
}

/// The kernel of tokens behind those of the macros that each build has, and behind what the head defines.
fn with_defines<'a>(
    alloc: Global,
    ids: Kind,
    head: &Head<'_>,
    found: &'a [Token<'a>],
    given: &'a [Token<'a>],
) -> Result<Typed, OpenClError>
    ensures { Gives result (kernels.with_defines (kind_seen ids) (head_seen head.now) (map token_seen found.now) (map token_seen given.now)) }
{
    match joined_lines(alloc, &head.defines) {
        Ok(lines) => with_texts(alloc, ids, head, found, given, &lines),
        Err(error) => Err(OpenClError::Text(error)),
    }
}

fn with_lines<'a>(
    alloc: Global,
    ids: Kind,
    head: &Head<'_>,
    found: &'a [Token<'a>],
    lines: &'a Joined,
) -> Result<Typed, OpenClError>
    ensures { Gives result (kernels.with_lines (kind_seen ids) (head_seen head.now) (map token_seen found.now) (joined_seen lines.now)) }
{
    match tokens(alloc, lines) {
        Ok(given) => with_defines(alloc, ids, head, found, &given),
        Err(error) => Err(OpenClError::Text(error)),
    }
}

/// Macros that stand for the same in each build of OpenCL C 1.2.
const VERSIONS: &[u8] =
    b"#define __OPENCL_VERSION__ 120\n#define __OPENCL_C_VERSION__ 120\n#define __ENDIAN_LITTLE__ 1\n";

const OLDER_VERSIONS: &[u8] =
    b"#define CL_VERSION_1_0 100\n#define CL_VERSION_1_1 110\n#define CL_VERSION_1_2 120\n";

#[tactic(auto, unfolding(crate::specs::Kernels::constants))]
pub fn constants(alloc: Global) -> Result<Vec<u8>, AllocError>
    ensures { IfOk result (λ v. v.items ≡ kernels.constants) }
{
    let mut text = Vec::from_slice(alloc, VERSIONS)?;
    text.extend_from_slice(OLDER_VERSIONS)?;
    Ok(text)
}

fn of_tokens<'a>(
    alloc: Global,
    ids: Kind,
    head: &Head<'_>,
    found: &'a [Token<'a>],
) -> Result<Typed, OpenClError>
    ensures { Gives result (kernels.of_tokens (kind_seen ids) (head_seen head.now) (map token_seen found.now)) }
{
    let text = constants(alloc)?;
    match join(alloc, &text) {
        Ok(lines) => with_lines(alloc, ids, head, found, &lines),
        Err(error) => Err(OpenClError::Text(error)),
    }
}

fn of_lines(alloc: Global, ids: Kind, head: &Head<'_>, lines: &Joined) -> Result<Typed, OpenClError>
    ensures { Gives result (kernels.of_lines (kind_seen ids) (head_seen head.now) (joined_seen lines.now)) }
{
    match tokens(alloc, lines) {
        Ok(found) => of_tokens(alloc, ids, head, &found),
        Err(error) => Err(OpenClError::Text(error)),
    }
}

/// The kernel of a text of OpenCL C that is read with the head of conditions, or its first fault with its place.
#[tactic(auto, unfolding(crate::specs::Kernels::read))]
pub fn read(
    alloc: Global,
    devices: Devices,
    head: &Head<'_>,
    bytes: &[u8],
) -> Result<Typed, OpenClError>
    ensures { Gives result (read (devices_seen devices) (head_seen head.now) bytes.now) }
{
    match join(alloc, bytes) {
        Ok(lines) => of_lines(alloc, devices.size_kind(), head, &lines),
        Err(error) => Err(OpenClError::Text(error)),
    }
}
