//! The text of buffers.

ghost use Rattle.std.specs.Prelude.{◌≡◌, ◌++◌, map, IfOk, OnOk};
ghost use Rattle.std.specs.List.{flat_map};
ghost use Rattle.std.specs.String.{string_bytes};
ghost use Rattle.words.specs.View.{word as word_seen};
ghost use Rattle.launch_text.specs.LaunchText as text;
ghost use Rattle.kernel_names.specs.View.{names_seen};
ghost use Rattle.syntax.specs.View.{parameter as parameter_of};
ghost use Rattle.launch_text.specs.View as view;

use launch::launches::Buffers;
use std::alloc::{AllocError, Global};
use syntax::tree::Parameter;
use typed_kernels::Typed;
use words::Word;

fn push_word(out: &mut String, word: Word) -> Result<(), AllocError>
    ensures { OnOk result (string_bytes out.new ≡ string_bytes out.old ++ text.word_text (word_seen word)) }
{
    let value = word.value();
    write!(out, " {value}")
}

#[tactic(auto, using(crate::proofs::Texts::one_word, crate::proofs::Texts::no_word))]
fn push_words(out: &mut String, words: &[Word]) -> Result<(), AllocError>
    ensures { OnOk result (string_bytes out.new ≡ string_bytes out.old ++ flat_map text.word_text (map word_seen words.now)) }
{
    for word in words {
        push_word(out, *word)?;
    }
    Ok(())
}

fn push_buffer(out: &mut String, name: &str, words: &[Word]) -> Result<(), AllocError>
    ensures { OnOk result (string_bytes out.new ≡ string_bytes out.old ++ text.buffer_text name.now (map word_seen words.now)) }
{
    write!(out, "buffer {name} list")?;
    push_words(out, words)?;
    out.push_str("\n")
}

fn push_buffers(
    out: &mut String,
    parameters: &[Parameter],
    buffers: &[Vec<Word>],
) -> Result<(), AllocError>
    ensures { OnOk result (string_bytes out.new ≡ string_bytes out.old ++ text.buffers_text (map parameter_of parameters.now) (map view.words buffers.now)) }
{
    let mut at = 0;
    for parameter in parameters {
        let name = match parameter {
            Parameter::Buffer { name, .. } => name.as_str(),
            Parameter::Value { .. } => continue,
        };
        let Some(words) = buffers.get(at) else {
            return Ok(());
        };
        push_buffer(out, name, words)?;
        at += 1;
    }
    Ok(())
}

/// The text of a kernel's buffers: a line `buffer NAME list W W ..` for each buffer parameter.
pub fn write_buffers(alloc: Global, typed: &Typed, buffers: &Buffers) -> Result<String, AllocError>
    ensures { IfOk result (λ s. string_bytes s ≡ text.buffers_text (names_seen typed.now.0).parameters (view.buffers buffers.now.words)) }
{
    let names = typed.names();
    let mut out = String::new(alloc);
    push_buffers(&mut out, &names.parameters, &buffers.words)?;
    Ok(out)
}
