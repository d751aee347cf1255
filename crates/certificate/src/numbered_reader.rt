//! What stands before the entries of a text of version 2, or of a wide certificate's text of version 4.

ghost use Rattle.std.specs.Prelude.{◌≡◌, ◌≤◌, ◌^◌, [], length};
ghost use Rattle.std.specs.Option.{option_map};
ghost use Rattle.lines.specs.Lines.{words};
ghost use Rattle.certificate_text.specs.Drafts as drafting;
ghost use Rattle.certificate_text.specs.NumberedReading as reading;
ghost use Rattle.certificate_text.specs.Reading as reading_one;
ghost use Rattle.lines.specs.Left.{left};
ghost use Rattle.certificate.specs.Answers.{fault};
ghost use Rattle.certificate.specs.EntryCursors.{Opens};
ghost use Rattle.certificate.specs.Numbers as numbers;
ghost use Rattle.certificate.specs.Tables.{table as table_seen};
ghost use Rattle.certificate.specs.WordAnswers.{Means};

use crate::draft::{Draft, Open, Parts, add_fitting};
use crate::entry_reader::Entries;
use crate::error::{CertError, CertFault};
use crate::form_table::FormTable;
use crate::item::read_item;
use crate::line_error::LineError;
use crate::name::form;
use crate::narrow::is_narrow_form;
use crate::numbers::filled;
use crate::opening::open_rows;
use crate::reader::{LIMIT, bad, version};
use crate::word::is;
use lines::pieces::Pieces;
use std::alloc::Global;

/// A draft, and the largest number of a form that its lines used.
#[derive(Drop)]
pub struct NumberedDraft {
    pub used: u64,
    pub read: Draft,
}

/// A draft before its first line.
pub fn begun(alloc: Global, is_wide: bool, joins: bool) -> NumberedDraft
    ensures { numbers.numbered_draft result ≡ reading.numbered_draft 0 (drafting.begun is_wide joins) }
{
    let settled = Parts {
        is_wide,
        joins,
        places: Vec::new(alloc),
        bounds: Vec::new(alloc),
        entries: Vec::new(alloc),
    };
    let read = Draft {
        settled,
        opened: Open::Nothing,
    };
    NumberedDraft { used: 0, read }
}

/// The draft with one more line.
pub fn add_numbered(
    alloc: Global,
    table: &FormTable,
    draft: NumberedDraft,
    line: &[u8],
) -> Result<NumberedDraft, LineError>
    ensures { Means numbers.numbered_draft result (reading.add_numbered (table_seen table.now) (numbers.numbered_draft draft) line.now) }
{
    let item = read_item(alloc, Pieces::of(line, b' '))?;
    let (used, item) = filled(alloc, table, draft.used, item)?;
    let read = add_fitting(alloc, draft.read, item)?;
    Ok(NumberedDraft { used, read })
}

/// The line of the first form: behind the first line, and the line `join` of a certificate that joins.
pub fn table_start(joins: bool) -> usize
    ensures { result ≡ reading.table_start joins }
{
    if joins { 3 } else { 2 }
}

/// The words behind `form`, where a line begins so.
pub fn table_words(line: &[u8]) -> Option<Pieces<'_>>
    ensures { option_map left result ≡ reading.table_words (words line.now) }
{
    let Some((keyword, others)) = Pieces::of(line, b' ').next() else {
        return None;
    };
    if !is(keyword, "form") {
        return None;
    }
    Some(others)
}

/// The table with one form more; an error where the words make none, or one that is there already, or one that a certificate of this kind
/// may not have.
pub fn add_form(
    alloc: Global,
    is_wide: bool,
    table: FormTable,
    words: Pieces<'_>,
) -> Result<FormTable, LineError>
    ensures { Means table_seen result (reading.add_form is_wide (table_seen table) (left words.entry)) }
{
    let mut table = table;
    let form = form(alloc, words)?;
    if !(is_wide || is_narrow_form(&form)) {
        return Err(LineError::Bad);
    }
    if !table.add(alloc, form)? {
        return Err(LineError::Bad);
    }
    Ok(table)
}

/// The lines of the table, and those up to the first entry's.
fn open_table<'a>(
    alloc: Global,
    is_wide: bool,
    joins: bool,
    lines: Pieces<'a>,
) -> Result<Entries<'a>, CertError>
    requires { length (left lines) ≤ 2 ^ 32 }
    ensures { Opens result (reading.read_table is_wide joins [] (reading.table_start joins) (left lines.entry)) }
{
    let mut table = FormTable::new(alloc);
    let mut number = table_start(joins);
    let mut rest = lines;
    while let Some((line, others)) = rest.next() {
        if others.is_over() {
            return Err(bad(number));
        }
        let Some(words) = table_words(line) else {
            return open_rows(
                alloc,
                true,
                table,
                begun(alloc, is_wide, joins),
                number,
                rest,
            );
        };
        match add_form(alloc, is_wide, table, words) {
            Ok(next) => table = next,
            Err(LineError::Bad) => return Err(bad(number)),
            Err(LineError::Memory) => return Err(CertError::Memory),
        }
        number += 1;
        rest = others;
    }
    Err(bad(number))
}

/// Whether that is the line `join`, which a wide certificate may have: behind its line feed something stands.
fn is_join(is_wide: bool, line: &[u8], others: Pieces<'_>) -> bool
    ensures { result ≡ reading.is_join is_wide line.now (left others.entry) }
{
    is_wide && (is(line, "join") && !others.is_over())
}

/// The lines behind the first one, up to the first entry's.
fn open_behind<'a>(
    alloc: Global,
    is_wide: bool,
    lines: Pieces<'a>,
) -> Result<Entries<'a>, CertError>
    requires { length (left lines) ≤ 2 ^ 32 }
    ensures { Opens result (reading.read_behind is_wide (left lines.entry)) }
{
    let Some((line, others)) = lines.next() else {
        return Err(bad(2));
    };
    if is_join(is_wide, line, others) {
        return open_table(alloc, is_wide, true, others);
    }
    open_table(alloc, is_wide, false, lines)
}

/// Whether that is the version: 2, or of a wide certificate 4.
fn is_version(is_wide: bool, version: i64) -> bool
    ensures { result ≡ reading.is_version is_wide version }
{
    if is_wide { version == 4 } else { version == 2 }
}

/// The fault of a certificate's first line: it is no such line, or of another version; none where it is `certificate 2`, or
/// `certificate 4` of a wide one.
fn head_fault(is_wide: bool, line: &[u8]) -> Option<CertFault>
    ensures { option_map fault result ≡ reading.numbered_head is_wide (reading_one.version_of (words line.now)) }
{
    let Some(version) = version(line) else {
        return Some(CertFault::BadLine(1));
    };
    if is_version(is_wide, version) {
        return None;
    }
    Some(CertFault::OtherVersion)
}

/// The entries of a text of version 2, or of a wide certificate's text of version 4, and what stands before them, or the first fault there.
pub(crate) fn open_numbered<'a>(
    alloc: Global,
    is_wide: bool,
    text: &'a [u8],
) -> Result<Entries<'a>, CertError>
    ensures { Opens result (reading.numbered_certificate is_wide text.now) }
{
    if text.len() > LIMIT {
        return Err(bad(1));
    }
    let Some((first, others)) = Pieces::of(text, b'\n').next() else {
        return Err(bad(1));
    };
    if others.is_over() {
        return Err(bad(1));
    }
    if let Some(fault) = head_fault(is_wide, first) {
        return Err(CertError::Refused(fault));
    }
    open_behind(alloc, is_wide, others)
}
