//! What stands before the entries of a text of version 1.

ghost use Rattle.std.specs.Prelude.{◌≡◌, ◌≤◌, ◌^◌, length};
ghost use Rattle.std.specs.Option.{option_map};
ghost use Rattle.lines.specs.Lines.{words};
ghost use Rattle.certificate_text.specs.Drafts as drafting;
ghost use Rattle.certificate_text.specs.Reading as reading;
ghost use Rattle.lines.specs.Left.{left};
ghost use Rattle.certificate.specs.WordAnswers.{Means};
ghost use Rattle.certificate.specs.Answers.{fault};
ghost use Rattle.certificate.specs.Drafts as drafts;
ghost use Rattle.certificate.specs.EntryCursors.{Opens};
ghost use Rattle.certificate.specs.declared.error.CertError.TheVariants.{Refused};
ghost use Rattle.certificate.specs.declared.error.CertFault.TheVariants.{BadLine};

use crate::draft::{Draft, add_fitting};
use crate::entry_reader::Entries;
use crate::error::{CertError, CertFault};
use crate::form_table::FormTable;
use crate::item::read_item;
use crate::line_error::LineError;
use crate::numbered_reader::begun;
use crate::opening::open_rows;
use crate::word::{integer, is};
use lines::pieces::Pieces;
use std::alloc::Global;

/// The longest text that is read, in bytes.
pub const LIMIT: usize = 16_777_216;

/// The error of a line that says nothing, by its number.
pub fn bad(line: usize) -> CertError
    ensures { result ≡ Refused (BadLine line) }
{
    CertError::Refused(CertFault::BadLine(line))
}

/// The number M of a line `certificate M`; none where the line is another one.
pub fn version(line: &[u8]) -> Option<i64>
    ensures { result ≡ reading.version_of (words line.now) }
{
    let Some((keyword, version)) = Pieces::of(line, b' ').two() else {
        return None;
    };
    if !is(keyword, "certificate") {
        return None;
    }
    integer(version)
}

/// The fault of a certificate's first line: it is no such line, or the version is not 1; none where it is `certificate 1`.
fn head_fault(line: &[u8]) -> Option<CertFault>
    ensures { option_map fault result ≡ reading.head_fault (words line.now) }
{
    match version(line) {
        None => Some(CertFault::BadLine(1)),
        Some(1) => None,
        Some(_) => Some(CertFault::OtherVersion),
    }
}

/// The draft with one more line.
pub fn add_line(alloc: Global, draft: Draft, line: &[u8]) -> Result<Draft, LineError>
    ensures { Means drafts.draft result (reading.add_line (drafts.draft draft) line.now) }
{
    let item = read_item(alloc, Pieces::of(line, b' '))?;
    add_fitting(alloc, draft, item)
}

/// The lines behind the first one, up to the first entry's.
fn open_lines<'a>(alloc: Global, lines: Pieces<'a>) -> Result<Entries<'a>, CertError>
    requires { length (left lines) ≤ 2 ^ 32 }
    ensures { Opens result (reading.read_lines 2 drafting.nothing_yet (left lines.entry)) }
{
    let table = FormTable::new(alloc);
    open_rows(alloc, false, table, begun(alloc, false, false), 2, lines)
}

/// The entries of a text of version 1, and what stands before them, or the first fault there.
pub fn open_one<'a>(alloc: Global, text: &'a [u8]) -> Result<Entries<'a>, CertError>
    ensures { Opens result (reading.certificate_of text.now) }
{
    if text.len() > LIMIT {
        return Err(bad(1));
    }
    let Some((first, others)) = Pieces::of(text, b'\n').next() else {
        return Err(bad(1));
    };
    if others.is_over() {
        return Err(bad(1));
    }
    if let Some(fault) = head_fault(first) {
        return Err(CertError::Refused(fault));
    }
    open_lines(alloc, others)
}
