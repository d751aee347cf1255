//! What the text of a certificate says of a kernel, gone over once.

ghost use Rattle.std.specs.Prelude.{◌≡◌, [], ◌∷◌, ◌++◌, List, None, map, IfOk, IfErr, OnOk};
ghost use Rattle.std.specs.Option.{option_map};
ghost use Rattle.arrivals.specs.Places.{Place as PlaceMeant};
ghost use Rattle.certificate_text.specs.Certificate as certificates;
ghost use Rattle.certificate.specs.Certificates.{Refuses};
ghost use Rattle.certificate.specs.EntriesLeft.{with_entries};
ghost use Rattle.certificate.specs.EntryAnswers.{Ceases};
ghost use Rattle.certificate.specs.EntryCursors.{front, left, stopped, Opens};
ghost use Rattle.certificate.specs.View.{entry as entry_seen};
ghost use Rattle.certificate.specs.declared.error.CertError.TheVariants as errors;
ghost use Rattle.certificate_notes.specs.Gathered.{gathered};
ghost use Rattle.certificate_notes.specs.Noted.{noted_by};
ghost use Rattle.certificate_notes.specs.NamesView.{names as names_seen};
ghost use Rattle.certificate_notes.specs.NotesView.{notes as notes_seen};
ghost use Rattle.core_code.specs.View.{kernel as core_seen};
ghost use Rattle.entry_check.specs.Entries.{AreFlags};
ghost use Rattle.places.specs.View.{place as place_seen};
ghost use Rattle.kernel_names.specs.View.{names_seen as map_seen};
ghost use Rattle.cert_check.specs.Breadth.{text_says};
ghost use Rattle.cert_check.specs.Told.{IsToldOf};

use certificate::error::CertError;
use certificate::tree::Entry;
use certificate::{Entries, open_any, open_wide};
use certificate_notes::{Front, Gathering, Names, NamesError, names_of};
use entry_check::{no_flags, set_flag};
use obligations::Notes;
use places::Place;
use std::alloc::Global;
use typed_kernels::Typed;

/// Notes of a kernel's places and loops, none where it lacks what a certificate names, and which obligations have an entry.
#[derive(Drop)]
pub(crate) struct Told {
    pub(crate) notes: Option<Notes>,
    pub(crate) flags: Vec<bool>,
}

/// The entries of a text of version 1 or 2, or, where the check is wide, of version 4, and what stands before them.
pub(crate) fn open_as<'a>(
    alloc: Global,
    text: &'a [u8],
    is_wide: bool,
) -> Result<Entries<'a>, CertError>
    ensures { Opens result (text_says is_wide text.now) }
{
    if is_wide {
        open_wide(alloc, text)
    } else {
        open_any(alloc, text)
    }
}

/// Notes of what stands before the entries.
fn begin(
    alloc: Global,
    names: &Names<'_>,
    places: &[Place<'_>],
    entries: &Entries<'_>,
) -> Result<Gathering, CertError>
    ensures notes { IfOk result (λ g. gathered g ≡ noted_by (names_seen names.now) (map place_seen places.now) (with_entries [] (front entries.now))) }
    ensures memory { IfErr result (λ e. e ≡ errors.Memory) }
{
    let before = Front {
        is_wide: entries.is_wide(),
        joins: entries.joins(),
        places: entries.places(),
        bounds: entries.bounds(),
    };
    match Gathering::begin(alloc, names, places, &before) {
        Ok(gathering) => Ok(gathering),
        Err(NamesError::Memory) => Err(CertError::Memory),
    }
}

/// Notes an entry, and sets its flag.
fn add(
    alloc: Global,
    names: &Names<'_>,
    entry: &Entry,
    gathering: &mut Gathering,
    flags: &mut Vec<bool>,
) -> Result<(), CertError>
    ensures notes { OnOk result ((ps : List PlaceMeant) (cert : certificates.Certificate) (es : List certificates.Entry) → gathered gathering.old ≡ noted_by (names_seen names.now) ps (with_entries es cert) → gathered gathering.new ≡ noted_by (names_seen names.now) ps (with_entries (es ++ entry_seen entry.now ∷ []) cert)) }
    ensures flags { OnOk result ((es : List certificates.Entry) → AreFlags es flags.old.items → AreFlags (es ++ entry_seen entry.now ∷ []) flags.new.items) }
    ensures memory { IfErr result (λ e. e ≡ errors.Memory) }
{
    set_flag(flags, entry);
    match gathering.add(alloc, names, entry) {
        Ok(()) => Ok(()),
        Err(NamesError::Memory) => Err(CertError::Memory),
    }
}

/// Goes over all entries, to the end of the text.
fn go_over(
    alloc: Global,
    names: &Names<'_>,
    entries: &mut Entries<'_>,
    gathering: &mut Gathering,
    flags: &mut Vec<bool>,
) -> Result<(), CertError>
    requires { stopped entries.old ≡ None }
    ensures whole { IfOk result (λ _. (left entries.old).fault ≡ None) }
    ensures notes { OnOk result ((ps : List PlaceMeant) (cert : certificates.Certificate) → gathered gathering.old ≡ noted_by (names_seen names.now) ps (with_entries [] cert) → gathered gathering.new ≡ noted_by (names_seen names.now) ps (with_entries (left entries.old).entries cert)) }
    ensures flags { OnOk result (AreFlags [] flags.old.items → AreFlags (left entries.old).entries flags.new.items) }
    ensures refused { IfErr result (λ e. Ceases e (left entries.old)) }
{
    while let Some(entry) = entries.next()? {
        add(alloc, names, &entry, gathering, flags)?;
    }
    Ok(())
}

/// Goes over the entries of a certificate once, and gathers their notes and flags behind those of its front.
fn told_by(
    alloc: Global,
    names: &Names<'_>,
    places: &[Place<'_>],
    entries: &mut Entries<'_>,
) -> Result<Told, CertError>
    requires { stopped entries.old ≡ None }
    ensures whole { IfOk result (λ _. (left entries.old).fault ≡ None) }
    ensures notes { IfOk result (λ t. option_map notes_seen t.notes ≡ noted_by (names_seen names.now) (map place_seen places.now) (with_entries (left entries.old).entries (front entries.old))) }
    ensures flags { IfOk result (λ t. AreFlags (left entries.old).entries t.flags.items) }
    ensures refused { IfErr result (λ e. Ceases e (left entries.old)) }
{
    let mut gathering = begin(alloc, names, places, entries)?;
    let mut flags = no_flags(alloc)?;
    go_over(alloc, names, entries, &mut gathering, &mut flags)?;
    Ok(Told {
        notes: gathering.notes(),
        flags,
    })
}

/// Reads the text of a certificate once, to its end, and answers what it tells of a kernel. An error is the text's
/// first fault, or want of memory.
pub(crate) fn tell(
    alloc: Global,
    typed: &Typed,
    places: &[Place<'_>],
    text: &[u8],
    is_wide: bool,
) -> Result<Told, CertError>
    ensures told { IfOk result (IsToldOf is_wide (core_seen typed.now.1) (map_seen typed.now.0) (map place_seen places.now) text.now) }
    ensures refused { IfErr result (λ e. Refuses e (text_says is_wide text.now)) }
{
    let names = match names_of(alloc, typed) {
        Ok(names) => names,
        Err(NamesError::Memory) => return Err(CertError::Memory),
    };
    let mut entries = open_as(alloc, text, is_wide)?;
    told_by(alloc, &names, places, &mut entries)
}
