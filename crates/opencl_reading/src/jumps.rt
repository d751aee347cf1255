//! The text of a kernel without jumps that a core does not have.

ghost use Rattle.std.specs.Prelude.{◌≡◌, IfOk, map};
ghost use Rattle.opencl_files.specs.View.{kernel_text as text_seen};
ghost use Rattle.opencl_core.specs.View.{function};
ghost use Rattle.opencl_reading.specs.Jumps as rules;

use opencl_files::tree::{Header, KernelText};
use opencl_jumps::functions::function_body;
use opencl_jumps::switches::all_rewritten;
use opencl_tree::tree::Stmt;
use std::alloc::{AllocError, Global};

fn rewritten_function(
    alloc: Global,
    of: (Header, Vec<Stmt>),
) -> Result<(Header, Vec<Stmt>), AllocError>
    ensures { IfOk result (λ f. function f ≡ rules.rewritten_function (function of)) }
{
    let (header, body) = of;
    let body = function_body(alloc, header.site, &header.base, body)?;
    Ok((header, body))
}

fn rewritten_functions(
    alloc: Global,
    all: Vec<(Header, Vec<Stmt>)>,
) -> Result<Vec<(Header, Vec<Stmt>)>, AllocError>
    ensures { IfOk result (λ v. map function v.items ≡ map rules.rewritten_function (map function all.items)) }
{
    let mut written = Vec::new(alloc);
    for one in all {
        let new = rewritten_function(alloc, one)?;
        written.push(new)?;
    }
    Ok(written)
}

/// The text of a kernel, and so the functions in front of it.
pub fn rewritten_text(alloc: Global, text: KernelText) -> Result<KernelText, AllocError>
    ensures { IfOk result (λ t. text_seen t ≡ rules.rewritten_text (text_seen text)) }
{
    let body = all_rewritten(alloc, text.body)?;
    let functions = rewritten_functions(alloc, text.functions)?;
    Ok(KernelText {
        header: text.header,
        body,
        aliases: text.aliases,
        enumerations: text.enumerations,
        functions,
    })
}
