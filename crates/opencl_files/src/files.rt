//! The kernel that is chosen of a file.

ghost use Rattle.std.specs.Option.{option_map};
ghost use Rattle.opencl_parser.specs.View.{lexemes, text_seen};
ghost use Rattle.opencl_files.specs.Files as files;
ghost use Rattle.opencl_files.specs.View.{Answers, gathered as gathered_seen, kernel as kernel_seen, kernel_text as kernel_text_seen};

use crate::chunks::cut_file;
use crate::constants::with_constants;
use crate::errors::{FileError, FileFault};
use crate::fronts::{Gathered, gather};
use crate::functions::{Ends, Kernel, chosen, kernels};
use crate::headers::function;
use crate::tree::KernelText;
use opencl_parser::front::site_at;
use opencl_parser::stops::ParseError;
use opencl_tokens::Lexeme;
use std::alloc::Global;

fn text_with(
    alloc: Global,
    gathered: Gathered<'_>,
    tokens: &[Lexeme],
) -> Result<KernelText, FileError>
    ensures { Answers kernel_text_seen result (files.text_with (gathered_seen gathered.entry) (lexemes tokens.now)) }
{
    let tokens = with_constants(alloc, &gathered.constants, tokens)?;
    match function(alloc, gathered.known.as_slice(), &tokens) {
        Ok(((header, body), _)) => Ok(KernelText {
            header,
            body,
            aliases: gathered.aliases,
            enumerations: gathered.enumerations,
            functions: gathered.functions,
        }),
        Err(ParseError::At { fault, site }) => Err(FileError::At {
            fault: FileFault::Text(fault),
            site,
        }),
        Err(ParseError::Memory) => Err(FileError::Memory),
    }
}

fn kernel_text(alloc: Global, kernel: Kernel<'_>) -> Result<KernelText, FileError>
    ensures { Answers kernel_text_seen result (files.kernel_text (kernel_seen kernel.entry)) }
{
    let before = gather(alloc, kernel.before)?;
    text_with(alloc, before, kernel.lexemes)
}

/// The kernel of the wanted name, or the only one, where none is wanted; the last lexeme is `End`. Else the first fault and its place.
#[tactic(auto, using(crate::proofs::Telling::telling), unfolding(crate::specs::Files::chosen_kernel))]
pub fn chosen_kernel(
    alloc: Global,
    wanted: Option<&str>,
    tokens: &[Lexeme],
) -> Result<KernelText, FileError>
    ensures { Answers kernel_text_seen result (files.chosen_kernel (option_map text_seen wanted.entry) (lexemes tokens.now)) }
{
    let file = cut_file(alloc, tokens)?;
    let found = kernels(alloc, file.chunks.as_slice())?;
    let ends = Ends {
        first: site_at(tokens),
        end: file.end,
    };
    let kernel = chosen(alloc, ends, wanted, found.as_slice())?;
    kernel_text(alloc, kernel)
}
