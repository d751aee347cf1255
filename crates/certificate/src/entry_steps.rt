//! The next entry of a certificate's text.

ghost use Rattle.std.specs.Prelude.{◌≡◌, ◌≤◌, true, length};
ghost use Rattle.std.specs.Option.{option_map};
ghost use Rattle.lines.specs.Lines.{is_empty};
ghost use Rattle.certificate.specs.EntriesLeft.{add_row as row_added};
ghost use Rattle.certificate.specs.EntryAnswers.{Goes, left_at, settled_first, taken};
ghost use Rattle.certificate.specs.Numbers.{numbered_draft};
ghost use Rattle.certificate.specs.Tables.{table as table_seen};
ghost use Rattle.certificate.specs.WordAnswers.{Means};

use crate::cursor::{Cursor, add_row, end_fault};
use crate::error::CertError;
use crate::form_table::FormTable;
use crate::line_error::LineError;
use crate::numbered_reader::NumberedDraft;
use crate::reader::bad;
use crate::tree::Entry;
use std::alloc::Global;

/// One more line, and the entry that it settles.
fn take_row(
    alloc: Global,
    is_numbered: bool,
    table: &FormTable,
    draft: NumberedDraft,
    line: &[u8],
) -> Result<(Option<Entry>, NumberedDraft), LineError>
    requires { is_empty (numbered_draft draft).read.settled.entries ≡ true }
    ensures { Means taken result (option_map settled_first (row_added is_numbered (table_seen table.now) (numbered_draft draft) line.now)) }
{
    let mut draft = add_row(alloc, is_numbered, table, draft, line)?;
    let entry = draft.read.settled.entries.pop();
    Ok((entry, draft))
}

/// The next entry, and where the line behind the one that settled it stands; no entry at the end.
pub fn next_entry<'a>(
    alloc: Global,
    is_numbered: bool,
    table: &FormTable,
    from: Cursor<'a>,
) -> Result<(Option<Entry>, Cursor<'a>), CertError>
    requires { from.draft.used ≤ length (table_seen table.now) }
    ensures { Goes is_numbered (table_seen table.now) (left_at is_numbered (table_seen table.now) from.entry) result }
{
    let Cursor {
        mut draft,
        mut number,
        mut rest,
    } = from;
    while let Some((line, others)) = rest.next() {
        if others.is_over() {
            if let Some(fault) = end_fault(is_numbered, table, number, &draft, line) {
                return Err(CertError::Refused(fault));
            }
            let end = Cursor {
                draft,
                number,
                rest,
            };
            return Ok((None, end));
        }
        match take_row(alloc, is_numbered, table, draft, line) {
            Ok((entry, next)) => {
                if entry.is_some() {
                    let behind = Cursor {
                        draft: next,
                        number: number + 1,
                        rest: others,
                    };
                    return Ok((entry, behind));
                }
                draft = next;
            }
            Err(LineError::Bad) => return Err(bad(number)),
            Err(LineError::Memory) => return Err(CertError::Memory),
        }
        number += 1;
        rest = others;
    }
    Err(bad(number))
}
