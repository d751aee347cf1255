//! What names of a file mean in its kernel.

ghost use Rattle.std.specs.Prelude.{◌≡◌, ◌≤◌, ◌+◌, ◌<◌, ◌^◌, IfOk, OnOk, [], map, string_bytes};
ghost use Rattle.opencl_parser.specs.View.{lexemes};
ghost use Rattle.opencl_tokens.specs.Seen.{lexeme_kind};
ghost use Rattle.opencl_files.specs.View.{turn as turn_seen};
ghost use Rattle.opencl_values.specs.View.{bindings};
ghost use Rattle.opencl_reading.specs.FileNames as rules;
ghost use Rattle.opencl_reading.specs.Answers.{looking};

use opencl_files::chunks::{Turn, turn_of};
use opencl_tokens::{Lexeme, LexemeKind, Word};
use opencl_values::scope::{Binding, Meaning};
use std::alloc::{AllocError, Global};

/// How many brackets are open; whether a list of constants is due, behind `enum`; how many brackets are open in such a list.
#[derive(Clone, Copy)]
pub struct Looking {
    pub depth: usize,
    pub is_due: bool,
    pub within: usize,
}

fn is_enum(kind: LexemeKind) -> bool
    ensures { result ≡ rules.is_enum (lexeme_kind kind.entry) }
{
    matches!(kind, LexemeKind::Word(Word::Enum))
}

fn deeper(now: Looking) -> Looking
    requires depth { now.depth + 1 < 2 ^ 64 }
    requires within { now.within + 1 < 2 ^ 64 }
    ensures seen { looking result ≡ rules.deeper (looking now) }
    ensures few { result.depth ≤ now.depth + 1 }
    ensures few_within { result.within ≤ now.within + 1 }
{
    Looking {
        depth: now.depth + 1,
        is_due: false,
        within: if now.is_due || 0 < now.within {
            now.within + 1
        } else {
            0
        },
    }
}

fn turned(now: Looking, turn: Turn) -> Looking
    requires depth { now.depth + 1 < 2 ^ 64 }
    requires within { now.within + 1 < 2 ^ 64 }
    ensures seen { looking result ≡ rules.turned (looking now) (turn_seen turn) }
    ensures few { result.depth ≤ now.depth + 1 }
    ensures few_within { result.within ≤ now.within + 1 }
{
    match turn {
        Turn::Opens(_) => deeper(now),
        Turn::Closes(_) => Looking {
            depth: now.depth.saturating_sub(1),
            is_due: false,
            within: now.within.saturating_sub(1),
        },
        Turn::Ends => Looking {
            depth: now.depth,
            is_due: false,
            within: now.within,
        },
        Turn::Stops | Turn::Other => now,
    }
}

fn looked(now: Looking, kind: LexemeKind) -> Looking
    requires depth { now.depth + 1 < 2 ^ 64 }
    requires within { now.within + 1 < 2 ^ 64 }
    ensures seen { looking result ≡ rules.looked (looking now) (lexeme_kind kind.entry) }
    ensures few { result.depth ≤ now.depth + 1 }
    ensures few_within { result.within ≤ now.within + 1 }
{
    if is_enum(kind) {
        Looking {
            depth: now.depth,
            is_due: true,
            within: now.within,
        }
    } else {
        turned(now, turn_of(kind))
    }
}

fn declares(now: Looking) -> bool
    ensures { result ≡ rules.declares (looking now) }
{
    now.depth == 0 || 0 < now.within
}

fn push_kind(
    alloc: Global,
    declares: bool,
    kind: LexemeKind,
    found: &mut Vec<String>,
) -> Result<(), AllocError>
    ensures { OnOk result (map string_bytes found.new.items ≡ rules.with_kind declares (lexeme_kind kind.entry) (map string_bytes found.old.items)) }
{
    match kind {
        LexemeKind::Name(name) if declares => {
            found.push(String::from_str(alloc, name)?)?;
            Ok(())
        }
        _ => Ok(()),
    }
}

/// The names that a file's lexemes declare outside functions.
pub fn names_in(alloc: Global, tokens: &[Lexeme]) -> Result<Vec<String>, AllocError>
    ensures { IfOk result (λ ns. map string_bytes ns.items ≡ rules.with_names rules.at_first [] (lexemes tokens.now)) }
{
    let mut found = Vec::new(alloc);
    let mut now = Looking {
        depth: 0,
        is_due: false,
        within: 0,
    };
    for token in tokens {
        push_kind(alloc, declares(now), token.kind, &mut found)?;
        now = looked(now, token.kind);
    }
    Ok(found)
}

/// Names that have no meaning in the kernel, but hide what is built in.
pub fn unread<'a>(alloc: Global, names: &'a [String]) -> Result<Vec<Binding<'a>>, AllocError>
    ensures { IfOk result (λ bs. bindings bs.items ≡ map rules.unread (map string_bytes names.now)) }
{
    let mut found = Vec::new(alloc);
    for name in names {
        found.push(Binding {
            name: name.as_str(),
            meaning: Meaning::Unread,
        })?;
    }
    Ok(found)
}
