//! Texts, written.

ghost use Rattle.std.specs.Prelude.{◌≡◌, ℕ, List, IsTrue, take};
ghost use Rattle.std.specs.Io.KnownBytes.{Appends};

use std::io::{ErrorKind, Write};

/// Writes a text, and says whether all of it was taken. As `write_all`, but of a writer that fails it is known what it has gained: a
/// front of the text.
pub fn is_written<W: Write>(text: &[u8], to: &mut W) -> bool
    ensures front { (n : ℕ) × Appends (W.contents to.old) (W.contents to.new) (take n text.now) }
    ensures whole { IsTrue result → Appends (W.contents to.old) (W.contents to.new) text.now }
{
    let mut at = 0;
    for _ in 0..u64::MAX {
        if at == text.len() {
            return true;
        }
        match to.write(&text[at..]) {
            Ok(0) => return false,
            Ok(taken) => at += taken,
            Err(error) if error.kind() == ErrorKind::Interrupted => {}
            Err(_) => return false,
        }
    }
    false
}
