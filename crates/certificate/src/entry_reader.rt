//! The entries of a certificate's text, one after the other.

ghost use Rattle.std.specs.Prelude.{◌≡◌, ◌≤◌, length, map};
ghost use Rattle.certificate.specs.Drafts.{parts as parts_seen};
ghost use Rattle.certificate.specs.EntriesLeft.{with_entries as entries_put};
ghost use Rattle.certificate.specs.Tables.{table as table_seen};
ghost use Rattle.certificate.specs.View as view;

use crate::certificate::Certificate;
use crate::cursor::Cursor;
use crate::draft::{Draft, Parts};
use crate::entry_steps::next_entry;
use crate::error::CertError;
use crate::form_table::FormTable;
use crate::numbered_reader::NumberedDraft;
use crate::tree::{Bound, Entry, Place};
use lines::pieces::Pieces;
use std::alloc::Global;
use std::mem::replace;

/// The entries of a certificate's text, one after the other. What stands before them is kept; of the entries only what was read of the
/// next one is held.
#[derive(Drop)]
pub struct Entries<'a> {
    alloc: Global,
    is_numbered: bool,
    table: FormTable,
    front: Parts,
    cursor: Cursor<'a>,
    stopped: Option<CertError>,
    ghost used: { cursor.draft.used ≤ length (table_seen table) },
}

fn copy_of(error: &CertError) -> CertError
    ensures { result ≡ error.now }
{
    match error {
        CertError::Refused(fault) => CertError::Refused(*fault),
        CertError::Memory => CertError::Memory,
    }
}

/// The same parts with these entries.
fn with_entries(front: Parts, entries: Vec<Entry>) -> Parts
    ensures { parts_seen result ≡ entries_put (map view.entry entries.items) (parts_seen front) }
{
    Parts { entries, ..front }
}

impl<'a> Entries<'a> {
    ghost use Rattle.std.specs.Prelude.{◌+◌, ◌^◌, [], map, true, Option, None, Some, Ok, Err, IfOk, IfErr};
    ghost use Rattle.lines.specs.Lines.{is_empty};
    ghost use Rattle.certificate_text.specs.Certificate as certificates;
    ghost use Rattle.certificate_text.specs.Rules.{is_any_certificate};
    ghost use Rattle.lines.specs.Left.{left as lines_left};
    ghost use Rattle.certificate.specs.Certificates.{Says};
    ghost use Rattle.certificate.specs.Drafts.{opened, parts};
    ghost use Rattle.certificate.specs.EntriesLeft.{has_begun, gathered, read_rows, whole_of};
    ghost use Rattle.certificate.specs.EntryAnswers.{Ceases};
    ghost use Rattle.certificate.specs.EntryCursors.{front, left, stopped, Answers, Opens};
    ghost use Rattle.certificate.specs.Numbers.{numbered_draft};
    ghost use Rattle.certificate.specs.View as view;
    ghost use Rattle.certificate.specs.declared.error.CertError.{CertError};

    /// The entries behind the line of the first one, or behind the last line: what was settled stands before them.
    pub(crate) fn behind(
        alloc: Global,
        is_numbered: bool,
        table: FormTable,
        draft: NumberedDraft,
        number: usize,
        rest: Pieces<'a>,
    ) -> Entries<'a>
        requires room { number + length (lines_left rest) ≤ 2 ^ 32 + 3 }
        requires used { draft.used ≤ length (table_seen table) }
        requires begun { has_begun (opened draft.read.opened) ≡ true }
        requires none { is_empty (numbered_draft draft).read.settled.entries ≡ true }
        ensures { Opens (Ok result) (read_rows is_numbered (table_seen table) number (numbered_draft draft) (lines_left rest.entry)) }
    {
        let NumberedDraft { used, read } = draft;
        let Draft {
            settled: front,
            opened,
        } = read;
        let settled = Parts {
            is_wide: front.is_wide,
            joins: front.joins,
            places: Vec::new(alloc),
            bounds: Vec::new(alloc),
            entries: Vec::new(alloc),
        };
        let read = Draft { settled, opened };
        let cursor = Cursor {
            draft: NumberedDraft { used, read },
            number,
            rest,
        };
        Entries {
            alloc,
            is_numbered,
            table,
            front,
            cursor,
            stopped: None,
        }
    }

    /// The next entry, or none at the end. An error is answered again by each later call.
    pub fn next(&mut self) -> Result<Option<Entry>, CertError>
        ensures next { stopped self.old ≡ None → Answers self.old result self.new }
        ensures again { (e : CertError) → stopped self.old ≡ Some e → (result ≡ Err e) × (stopped self.new ≡ Some e) }
        ensures front { front self.new ≡ front self.old }
    {
        if let Some(error) = &self.stopped {
            return Err(copy_of(error));
        }
        let cursor = replace(&mut self.cursor, Cursor::nowhere(self.alloc));
        match next_entry(self.alloc, self.is_numbered, &self.table, cursor) {
            Ok((entry, behind)) => {
                self.cursor = behind;
                Ok(entry)
            }
            Err(error) => {
                self.stopped = Some(copy_of(&error));
                Err(error)
            }
        }
    }

    /// Whether the certificate is wide.
    pub fn is_wide(&self) -> bool
        ensures { result ≡ (front self.now).is_wide }
    {
        self.front.is_wide
    }

    /// Whether the walk joins ways.
    pub fn joins(&self) -> bool
        ensures { result ≡ (front self.now).joins }
    {
        self.front.joins
    }

    /// The places that stand before the entries, in the order of the text.
    pub fn places(&self) -> &[Place]
        ensures { map view.place result.now ≡ (front self.now).places }
    {
        self.front.places.as_slice()
    }

    /// The lines that say how loops end, the loops' numbers rising.
    pub fn bounds(&self) -> &[Bound]
        ensures { map view.bound result.now ≡ (front self.now).bounds }
    {
        self.front.bounds.as_slice()
    }

    /// The front of the certificate, which stands before its entries.
    fn before(self) -> Parts
        ensures { parts result ≡ front self.entry }
    {
        let Entries { front, .. } = self;
        front
    }

    /// All entries that are left.
    fn rest(&mut self) -> Result<Vec<Entry>, CertError>
        requires { stopped self.old ≡ None }
        ensures all { IfOk result (λ es. left self.old ≡ whole_of (map view.entry es.items)) }
        ensures refused { IfErr result (λ e. Ceases e (left self.old)) }
        ensures front { front self.new ≡ front self.old }
    {
        let mut entries = Vec::new(self.alloc);
        while let Some(entry) = self.next()? {
            entries.push(entry)?;
        }
        Ok(entries)
    }

    /// The certificate of what stands before the entries, and of all that are left.
    pub(crate) fn gather(self) -> Result<Certificate, CertError>
        requires starts { stopped self ≡ None }
        requires proper { (c : certificates.Certificate) → gathered (front self) (left self) ≡ Ok c → is_any_certificate c ≡ true }
        ensures { Says result (gathered (front self.entry) (left self.entry)) }
    {
        let mut from = self;
        match from.rest() {
            Ok(entries) => {
                let parts = with_entries(from.before(), entries);
                Ok(Certificate::of(parts))
            }
            Err(error) => Err(error),
        }
    }
}
