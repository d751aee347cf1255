//! What stands before the entries of a certificate's text, line by line.

ghost use Rattle.std.specs.Prelude.{◌≡◌, ◌+◌, ◌≤◌, ◌^◌, true, false, length};
ghost use Rattle.lines.specs.Lines.{is_empty};
ghost use Rattle.lines.specs.Left.{left};
ghost use Rattle.certificate.specs.Drafts as drafts;
ghost use Rattle.certificate.specs.EntriesLeft.{has_begun as begins, read_rows};
ghost use Rattle.certificate.specs.EntryCursors.{Opens};
ghost use Rattle.certificate.specs.Numbers.{numbered_draft};
ghost use Rattle.certificate.specs.Tables.{table as table_seen};

use crate::cursor::add_row;
use crate::draft::Open;
use crate::entry_reader::Entries;
use crate::error::CertError;
use crate::form_table::FormTable;
use crate::line_error::LineError;
use crate::numbered_reader::NumberedDraft;
use crate::reader::bad;
use lines::pieces::Pieces;
use std::alloc::Global;

/// Whether the line of the first entry, or the last line, was read.
fn has_begun(opened: &Open) -> bool
    ensures { result ≡ begins (drafts.opened opened.now) }
{
    match opened {
        Open::Nothing | Open::InPlace(_) => false,
        Open::InEntry(_) | Open::InLemma(_, _) | Open::Ended => true,
    }
}

/// Goes on from a draft up to the line of the first entry, or to the last line.
pub fn open_rows<'a>(
    alloc: Global,
    is_numbered: bool,
    table: FormTable,
    begun: NumberedDraft,
    start: usize,
    lines: Pieces<'a>,
) -> Result<Entries<'a>, CertError>
    requires room { start + length (left lines) ≤ 2 ^ 32 + 3 }
    requires used { begun.used ≤ length (table_seen table) }
    requires none { is_empty (numbered_draft begun).read.settled.entries ≡ true }
    requires before { begins (drafts.opened begun.read.opened) ≡ false }
    ensures { Opens result (read_rows is_numbered (table_seen table) start (numbered_draft begun) (left lines.entry)) }
{
    let mut draft = begun;
    let mut number = start;
    let mut rest = lines;
    while let Some((line, others)) = rest.next() {
        if others.is_over() {
            return Err(bad(number));
        }
        match add_row(alloc, is_numbered, &table, draft, line) {
            Ok(next) => draft = next,
            Err(LineError::Bad) => return Err(bad(number)),
            Err(LineError::Memory) => return Err(CertError::Memory),
        }
        number += 1;
        rest = others;
        if has_begun(&draft.read.opened) {
            return Ok(Entries::behind(alloc, is_numbered, table, draft, number, rest));
        }
    }
    Err(bad(number))
}
