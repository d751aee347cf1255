//! The entries of a certificate's text, from the line behind the first one's.

ghost use Rattle.std.specs.Prelude.{◌≡◌, ◌+◌, ◌≤◌, ◌^◌, true, length};
ghost use Rattle.std.specs.Option.{option_map};
ghost use Rattle.lines.specs.Lines.{is_empty};
ghost use Rattle.certificate_text.specs.NumberedReading as reading;
ghost use Rattle.lines.specs.Left.{left as lines_left};
ghost use Rattle.certificate.specs.Answers.{fault};
ghost use Rattle.certificate.specs.EntriesLeft.{add_row as row_added, fault_of, finish_rows};
ghost use Rattle.certificate.specs.Numbers.{numbered_draft};
ghost use Rattle.certificate.specs.Tables.{table as table_seen};
ghost use Rattle.certificate.specs.WordAnswers.{Means};

use crate::draft::Open;
use crate::error::CertFault;
use crate::form_table::FormTable;
use crate::line_error::LineError;
use crate::numbered_reader::{NumberedDraft, add_numbered, begun, table_start};
use crate::reader::add_line;
use lines::pieces::Pieces;
use std::alloc::Global;

/// A reader within an entry: the parts that were read of it, the number of the next line, and the lines that are left.
/// No entry is settled.
#[derive(Drop)]
pub struct Cursor<'a> {
    pub draft: NumberedDraft,
    pub number: usize,
    pub rest: Pieces<'a>,
    pub ghost room: { number + length (lines_left rest) ≤ 2 ^ 32 + 3 },
    pub ghost settled: { is_empty (numbered_draft draft).read.settled.entries ≡ true },
}

impl<'a> Cursor<'a> {
    /// A cursor at no text.
    pub fn nowhere(alloc: Global) -> Cursor<'a>
        ensures { result.draft.used ≡ 0 }
    {
        Cursor {
            draft: begun(alloc, false, false),
            number: 0,
            rest: Pieces::of(b"", b'\n'),
        }
    }
}

/// The draft with one more line, which has forms, or numbers of forms.
pub fn add_row(
    alloc: Global,
    is_numbered: bool,
    table: &FormTable,
    draft: NumberedDraft,
    line: &[u8],
) -> Result<NumberedDraft, LineError>
    ensures { Means numbered_draft result (row_added is_numbered (table_seen table.now) (numbered_draft draft) line.now) }
{
    if is_numbered {
        return add_numbered(alloc, table, draft, line);
    }
    let NumberedDraft { used, read } = draft;
    let read = add_line(alloc, read, line)?;
    Ok(NumberedDraft { used, read })
}

/// The fault of a text that ends here, with this behind its last line feed: the last line was not read, something stands behind it, or a
/// form of the table was not used. None where it may end so.
pub fn end_fault(
    is_numbered: bool,
    table: &FormTable,
    number: usize,
    draft: &NumberedDraft,
    rest: &[u8],
) -> Option<CertFault>
    requires { draft.now.used ≤ length (table_seen table.now) }
    ensures { option_map fault result ≡ fault_of (finish_rows is_numbered (table_seen table.now) number (numbered_draft draft.now) rest.now) }
{
    let Open::Ended = &draft.read.opened else {
        return Some(CertFault::BadLine(number));
    };
    if !rest.is_empty() {
        return Some(CertFault::BadLine(number));
    }
    let used = draft.used as usize;
    if is_numbered && used != table.len() {
        let start = table_start(draft.read.settled.joins);
        return Some(CertFault::BadLine(used + start));
    }
    None
}
