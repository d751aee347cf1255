//! The kinds of what a run answers.

ghost use Rattle.std.specs.Prelude.{◌≡◌, IfOk, map};
ghost use Rattle.words.specs.View.{kind as kind_seen, word as word_seen, value_of};
ghost use Rattle.core_code.specs.View.{kernel as core_seen};
ghost use Rattle.cert_check.specs.View.{typed_of};
ghost use Rattle.write_log.specs.Written.{words_of};
ghost use Rattle.executor.specs.Kinds.{words, typed, read, of_kinds};

use cert_check::Accepted;
use launch::launches::Buffers;
use std::alloc::{AllocError, Global};
use words::{Kind, Word, read_as};

/// The words of a buffer, read as its kind.
fn of_kind(alloc: Global, row: &[Word], kind: Kind) -> Result<Vec<Word>, AllocError>
    ensures { IfOk result (λ v. words v ≡ map (read (kind_seen kind)) (map value_of row.now)) }
{
    let mut words = Vec::with_capacity(alloc, row.len())?;
    for word in row {
        words.push(read_as(*word, kind))?;
    }
    Ok(words)
}

/// The words of buffers, read as their kinds.
fn of_kinds(alloc: Global, buffers: &Buffers, kinds: &[Kind]) -> Result<Buffers, AllocError>
    ensures { IfOk result (λ b. typed b ≡ of_kinds (map kind_seen kinds.now) (words_of buffers.now)) }
{
    let mut words = Vec::with_capacity(alloc, buffers.words.len())?;
    let mut left = kinds;
    for row in &buffers.words {
        let Some((kind, others)) = left.split_first() else {
            return Ok(Buffers { words });
        };
        words.push(of_kind(alloc, row.as_slice(), *kind)?)?;
        left = others;
    }
    Ok(Buffers { words })
}

/// The words of buffers, read as the kinds of an accepted kernel's buffer parameters.
pub fn of_parameters(
    alloc: Global,
    accepted: &Accepted,
    buffers: &Buffers,
) -> Result<Buffers, AllocError>
    ensures { IfOk result (λ b. typed b ≡ of_kinds (core_seen (typed_of accepted.now).1).buffers (words_of buffers.now)) }
{
    let core = accepted.typed().core();
    of_kinds(alloc, buffers, core.buffers.as_slice())
}
