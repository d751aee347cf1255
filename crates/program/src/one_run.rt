//! One run of the program over files and writers.

ghost use Rattle.std.specs.Prelude.{◌≡◌, ◌≢◌, ℕ, List, [], ◌∷◌, Bool, true, false, IfOk, OnOk, codes};
ghost use Rattle.std.specs.Option.{option_map};
ghost use Rattle.kernel_reading.specs.Kernels as kernels;
ghost use Rattle.kernel_reading.specs.Kernels.{text_for, text_under};
ghost use Rattle.kernel_reading.specs.Sources.{language as language_seen, reading as reading_seen, source};
ghost use Rattle.telling.specs.Verdicts.{Checks};
ghost use Rattle.telling.specs.Proving.{IsProvedText};
ghost use Rattle.telling.specs.ProvingVerdicts.{Proves};
ghost use Rattle.telling.specs.Migrating.{Migrates};
ghost use Rattle.command_line.specs.Words.{texts, has_wide, has_opencl, HasWord, HasNames, AsksWorkers, AsksReading, HasSearch, HasShowing, HasSubject};
ghost use Rattle.program.specs.First.{first_kernel, first_conditions, first_certificate};
ghost use Rattle.program.specs.Running.{IsOf, Reads, Does, IsPut, Saves, saving, limit_in, limit_by, kernel_read, conditions_read, certificate_read, HasNoWord, Success, IsOut, Output};
ghost use Rattle.program.specs.Refusing.{Refusal};
ghost use Rattle.program.specs.Verdicts.{Tells, Kept, Moved, IsTold, IsWritten, IsStopped};

use crate::files::{FileFault, Files};
use crate::first::first_texts;
use crate::writing::is_written;
use command_line::{Line, Names, Search, Showing, Subject, read_line};
use kernel_reading::{Language, Reading, Source};
use std::alloc::Global;
use std::io::Write;
use std::sync::Wait;
use std::thread::Threads;
use telling::{
    Effort, Sought, Texts, Unwatched, Verdict, Watcher, check_texts, explain_check, explain_texts,
    migrate_text, print_text, prove_texts, run_texts, show_text,
};

/// The line on the standard error where words are no command line.
pub const USAGE: &str = "usage: kverify prove | check | run | print | migrate\n";

/// The reasons for which there is no verdict.
#[derive(Clone, Copy)]
enum Stop<'a> {
    /// The file of this name cannot be read or written.
    File(&'a str),
    Memory,
    Usage,
}

/// The texts of a kernel, its conditions and its certificate, as their files have them.
#[derive(Drop)]
struct Found {
    kernel: Vec<u8>,
    conditions: Vec<u8>,
    certificate: Vec<u8>,
}

impl Found {
    /// The texts, of which the kernel's is read in this way.
    fn texts(&self, reading: Reading) -> Texts<'_>
        ensures kernel { source result.kernel ≡ text_under (reading_seen reading) self.now.conditions.items self.now.kernel.items }
        ensures conditions { result.conditions.now ≡ self.now.conditions.items }
        ensures certificate { result.certificate.now ≡ self.now.certificate.items }
    {
        Texts {
            kernel: Source {
                reading,
                conditions: &self.conditions,
                bytes: &self.kernel,
            },
            conditions: &self.conditions,
            certificate: &self.certificate,
        }
    }
}

/// The longest plain text of a kernel, in bytes.
const PLAIN_LIMIT: u64 = 65_536;

/// The longest text of a kernel in a language, in bytes.
fn kernel_limit(language: Language) -> u64
    ensures { result ≡ limit_in (language_seen language) }
{
    match language {
        Language::Plain => PLAIN_LIMIT,
        Language::OpenCl => 1_048_576,
    }
}

/// The bytes of a file, of at most so many and one more.
fn text_of<'a, F: Files>(files: &mut F, name: &'a str, limit: u64) -> Result<Vec<u8>, Stop<'a>>
    ensures text { IfOk result (λ v. IsOf (F.contents files.old) (record { name = name.now; limit = limit; bytes = v.items })) }
    ensures given { IfOk result (λ v. F.gives files.old name.now limit v.items files.new) }
    ensures same { (n : List ℕ) → F.contents files.new n ≡ F.contents files.old n }
{
    match files.read(name, limit) {
        Ok(bytes) => Ok(bytes),
        Err(FileFault::Failed) => Err(Stop::File(name)),
        Err(FileFault::Memory) => Err(Stop::Memory),
    }
}

/// Reads the files of the kernel, the conditions and the certificate, in this order.
fn texts_of<'a, F: Files>(files: &mut F, names: Names<'a>) -> Result<Found, Stop<'a>>
    ensures reads { IfOk result (λ t. Reads F.contents F.gives files.old files.new (kernel_read (limit_by (reading_seen names.entry.reading)) names.entry.kernel.now t.kernel.items ∷ conditions_read names.entry.conditions.now t.conditions.items ∷ certificate_read names.entry.certificate.now t.certificate.items ∷ [])) }
    ensures same { (n : List ℕ) → F.contents files.new n ≡ F.contents files.old n }
{
    let kernel = text_of(files, names.kernel, kernel_limit(names.reading.language))?;
    let conditions = text_of(files, names.conditions, 65_536)?;
    let certificate = text_of(files, names.certificate, 16_777_216)?;
    Ok(Found {
        kernel,
        conditions,
        certificate,
    })
}

/// The check of the texts that stand in the program.
fn first_verdict(alloc: Global) -> Verdict
    ensures { Checks false result (text_for kernels.narrow first_kernel) first_conditions first_certificate }
{
    check_texts(alloc, first_texts(), false)
}

/// The verdict of `check` on files.
fn checked<'a, F: Files>(
    alloc: Global,
    names: Names<'a>,
    files: &mut F,
) -> Result<Verdict, Stop<'a>>
    ensures verdict { (ws : List (List ℕ)) → HasWord ws 0 (codes "check") → HasNames ws names.entry → IfOk result (λ v. Tells (Does F.contents F.gives files.old files.new) ws v) }
    ensures same { (n : List ℕ) → F.contents files.new n ≡ F.contents files.old n }
{
    let found = texts_of(files, names)?;
    Ok(check_texts(alloc, found.texts(names.reading), names.is_wide))
}

/// The verdict of `run` on files.
fn ran<'a, R: Threads + Wait + Sync, F: Files>(
    rt: &R,
    alloc: Global,
    names: Names<'a>,
    launch: &'a str,
    workers: u32,
    files: &mut F,
) -> Result<Verdict, Stop<'a>>
    ensures verdict { (ws : List (List ℕ)) → HasWord ws 0 (codes "run") → HasNames ws names.entry → HasWord ws 4 launch.now → AsksWorkers ws workers → IfOk result (λ v. Tells (Does F.contents F.gives files.old files.new) ws v) }
    ensures same { (n : List ℕ) → F.contents files.new n ≡ F.contents files.old n }
{
    let found = texts_of(files, names)?;
    let launch = text_of(files, launch, 4_194_304)?;
    let texts = found.texts(names.reading);
    Ok(run_texts(rt, alloc, texts, &launch, workers, names.is_wide))
}

/// Puts a text into a file.
fn put<'a, F: Files>(files: &mut F, name: &'a str, text: &[u8]) -> Result<(), Stop<'a>>
    ensures written { OnOk result (IsPut F.contents files.old files.new (record { name = name.now; text = text.now })) }
    ensures others { (n : List ℕ) → n ≢ name.now → F.contents files.new n ≡ F.contents files.old n }
{
    match files.write(name, text) {
        Ok(()) => Ok(()),
        Err(FileFault::Failed) => Err(Stop::File(name)),
        Err(FileFault::Memory) => Err(Stop::Memory),
    }
}

/// Puts a text into the file that is named, if one is.
fn saved<'a, F: Files>(files: &mut F, out: Option<&'a str>, text: &[u8]) -> Result<(), Stop<'a>>
    ensures saved { OnOk result (Saves F.contents files.old files.new (saving (option_map (λ w. w.now) out.entry) text.now)) }
    ensures others { (n : List ℕ) → option_map (λ w. w.now) out.entry ≢ Some n → F.contents files.new n ≡ F.contents files.old n }
{
    match out {
        Some(name) => put(files, name, text),
        None => Ok(()),
    }
}

/// Writes a certificate that was found or migrated to the file that the words name, if they do; only then anything is told of it.
fn kept<'a, F: Files>(
    files: &mut F,
    out: Option<&'a str>,
    sought: Sought,
) -> Result<Verdict, Stop<'a>>
    ensures verdict { (is_wide : Bool) (workers : ℕ) (kernel : kernels.Source) (conditions : List ℕ) → Proves is_wide sought workers kernel conditions → IfOk result (λ v. Kept F.contents files.old files.new (option_map (λ w. w.now) out.entry) is_wide workers kernel conditions v) }
    ensures moved { (old : List ℕ) → Migrates sought old → IfOk result (λ v. Moved F.contents files.old files.new (option_map (λ w. w.now) out.entry) old v) }
    ensures others { (n : List ℕ) → option_map (λ w. w.now) out.entry ≢ Some n → F.contents files.new n ≡ F.contents files.old n }
{
    match sought {
        Sought::Found {
            written,
            certificate,
        } => {
            saved(files, out, &certificate)?;
            Ok(Verdict::Done(written))
        }
        Sought::Refused(text) => Ok(Verdict::Refused(text)),
        Sought::OutOfMemory => Ok(Verdict::OutOfMemory),
    }
}

/// Reads a kernel and its conditions, and searches a certificate. An error is a file that cannot be read.
fn searched<'a, R: Threads + Wait + Sync, F: Files, W: Watcher>(
    rt: &R,
    alloc: Global,
    search: Search<'a>,
    files: &mut F,
    watcher: &W,
) -> Result<Sought, Stop<'a>>
    ensures reads { IfOk result (λ f. (kernel : List ℕ) × (conditions : List ℕ) × Reads F.contents F.gives files.old files.new (kernel_read (limit_by (reading_seen search.entry.reading)) search.entry.kernel.now kernel ∷ conditions_read search.entry.conditions.now conditions ∷ []) × Proves search.entry.is_wide f search.entry.workers (text_under (reading_seen search.entry.reading) conditions kernel) conditions) }
    ensures same { (n : List ℕ) → F.contents files.new n ≡ F.contents files.old n }
{
    let kernel = text_of(files, search.kernel, kernel_limit(search.reading.language))?;
    let conditions = text_of(files, search.conditions, 65_536)?;
    let effort = Effort {
        workers: search.workers,
        is_wide: search.is_wide,
        may_widen: search.is_wide,
    };
    let text = Source {
        reading: search.reading,
        conditions: &conditions,
        bytes: &kernel,
    };
    Ok(prove_texts(rt, alloc, text, &conditions, effort, watcher))
}

/// The search for a certificate of files.
fn proved<'a, R: Threads + Wait + Sync, F: Files, W: Watcher>(
    rt: &R,
    alloc: Global,
    search: Search<'a>,
    files: &mut F,
    watcher: &W,
) -> Result<Verdict, Stop<'a>>
    ensures verdict { (ws : List (List ℕ)) → HasWord ws 0 (codes "prove") → HasSearch ws search.entry → IfOk result (λ v. Tells (Does F.contents F.gives files.old files.new) ws v) }
    ensures others { (n : List ℕ) → option_map (λ w. w.now) search.entry.out ≢ Some n → F.contents files.new n ≡ F.contents files.old n }
{
    let sought = searched(rt, alloc, search, files, watcher)?;
    kept(files, search.out, sought)
}

/// The verdict of `explain` on files with a certificate: the check of it, its answer explained.
fn explained_check<'a, F: Files>(
    alloc: Global,
    names: Names<'a>,
    files: &mut F,
) -> Result<Verdict, Stop<'a>>
    ensures verdict { (ws : List (List ℕ)) → HasWord ws 0 (codes "explain") → HasNames ws names.entry → IfOk result (λ v. Tells (Does F.contents F.gives files.old files.new) ws v) }
    ensures same { (n : List ℕ) → F.contents files.new n ≡ F.contents files.old n }
{
    let found = texts_of(files, names)?;
    Ok(explain_check(alloc, found.texts(names.reading), names.is_wide))
}

/// The search for a certificate of files, its answer explained.
fn explained_search<'a, R: Threads + Wait + Sync, F: Files, W: Watcher>(
    rt: &R,
    alloc: Global,
    subject: Subject<'a>,
    files: &mut F,
    watcher: &W,
) -> Result<Verdict, Stop<'a>>
    ensures verdict { (ws : List (List ℕ)) → HasWord ws 0 (codes "explain") → HasWord ws 1 subject.entry.kernel.now → HasWord ws 2 subject.entry.conditions.now → HasNoWord ws 3 → subject.entry.is_wide ≡ has_wide ws → AsksReading ws (reading_seen subject.entry.reading) → IfOk result (λ v. Tells (Does F.contents F.gives files.old files.new) ws v) }
    ensures same { (n : List ℕ) → F.contents files.new n ≡ F.contents files.old n }
{
    let kernel = text_of(
        files,
        subject.kernel,
        kernel_limit(subject.reading.language),
    )?;
    let conditions = text_of(files, subject.conditions, 65_536)?;
    let text = Source {
        reading: subject.reading,
        conditions: &conditions,
        bytes: &kernel,
    };
    let is_wide = subject.is_wide;
    Ok(explain_texts(rt, alloc, text, &conditions, is_wide, watcher))
}

/// The verdict of `explain` on files, with what it means: that of the check, where a certificate is named, else that of the search.
fn explained<'a, R: Threads + Wait + Sync, F: Files, W: Watcher>(
    rt: &R,
    alloc: Global,
    subject: Subject<'a>,
    files: &mut F,
    watcher: &W,
) -> Result<Verdict, Stop<'a>>
    ensures verdict { (ws : List (List ℕ)) → HasWord ws 0 (codes "explain") → HasSubject ws subject.entry → IfOk result (λ v. Tells (Does F.contents F.gives files.old files.new) ws v) }
    ensures same { (n : List ℕ) → F.contents files.new n ≡ F.contents files.old n }
{
    let Subject {
        kernel,
        conditions,
        certificate,
        is_wide,
        reading,
    } = subject;
    match certificate {
        Some(certificate) => explained_check(
            alloc,
            Names {
                kernel,
                conditions,
                certificate,
                is_wide,
                reading,
            },
            files,
        ),
        None => explained_search(rt, alloc, subject, files, watcher),
    }
}

/// The canonical text of a file's kernel.
fn printed<'a, F: Files>(alloc: Global, kernel: &'a str, files: &mut F) -> Result<Verdict, Stop<'a>>
    ensures verdict { (ws : List (List ℕ)) → HasWord ws 0 (codes "print") → HasWord ws 1 kernel.now → has_opencl ws ≡ false → IfOk result (λ v. Tells (Does F.contents F.gives files.old files.new) ws v) }
    ensures same { (n : List ℕ) → F.contents files.new n ≡ F.contents files.old n }
{
    let text = text_of(files, kernel, PLAIN_LIMIT)?;
    Ok(print_text(alloc, &text))
}

/// What is shown of a file's kernel under the head of the conditions of another one.
fn shown_under<'a, F: Files>(
    alloc: Global,
    kernel: &'a str,
    conditions: &'a str,
    reading: Reading,
    files: &mut F,
) -> Result<Verdict, Stop<'a>>
    ensures verdict { (ws : List (List ℕ)) → HasWord ws 0 (codes "print") → HasWord ws 1 kernel.now → HasWord ws 2 conditions.now → has_opencl ws ≡ true → AsksReading ws (reading_seen reading) → IfOk result (λ v. Tells (Does F.contents F.gives files.old files.new) ws v) }
    ensures same { (n : List ℕ) → F.contents files.new n ≡ F.contents files.old n }
{
    let bytes = text_of(files, kernel, kernel_limit(reading.language))?;
    let said = text_of(files, conditions, 65_536)?;
    let text = Source {
        reading,
        conditions: &said,
        bytes: &bytes,
    };
    Ok(show_text(alloc, text))
}

/// What is shown of a file's kernel.
fn shown_alone<'a, F: Files>(
    alloc: Global,
    kernel: &'a str,
    reading: Reading,
    files: &mut F,
) -> Result<Verdict, Stop<'a>>
    ensures verdict { (ws : List (List ℕ)) → HasWord ws 0 (codes "print") → HasWord ws 1 kernel.now → HasNoWord ws 2 → has_opencl ws ≡ true → AsksReading ws (reading_seen reading) → IfOk result (λ v. Tells (Does F.contents F.gives files.old files.new) ws v) }
    ensures same { (n : List ℕ) → F.contents files.new n ≡ F.contents files.old n }
{
    let bytes = text_of(files, kernel, kernel_limit(reading.language))?;
    let text = Source {
        reading,
        conditions: &[],
        bytes: &bytes,
    };
    Ok(show_text(alloc, text))
}

/// The verdict of `print` on files of OpenCL C.
fn shown<'a, F: Files>(
    alloc: Global,
    showing: Showing<'a>,
    files: &mut F,
) -> Result<Verdict, Stop<'a>>
    ensures verdict { (ws : List (List ℕ)) → HasWord ws 0 (codes "print") → HasShowing ws showing.entry → IfOk result (λ v. Tells (Does F.contents F.gives files.old files.new) ws v) }
    ensures same { (n : List ℕ) → F.contents files.new n ≡ F.contents files.old n }
{
    let Showing {
        kernel,
        conditions,
        reading,
    } = showing;
    match conditions {
        Some(conditions) => shown_under(alloc, kernel, conditions, reading, files),
        None => shown_alone(alloc, kernel, reading, files),
    }
}

/// Reads a certificate of version 1 from a file, and writes it in version 2 to another one.
fn migrated<'a, F: Files>(
    alloc: Global,
    old: &'a str,
    new: &'a str,
    files: &mut F,
) -> Result<Verdict, Stop<'a>>
    ensures verdict { (ws : List (List ℕ)) → HasWord ws 0 (codes "migrate") → HasWord ws 1 old.now → HasWord ws 2 new.now → IfOk result (λ v. Tells (Does F.contents F.gives files.old files.new) ws v) }
    ensures others { (n : List ℕ) → n ≢ new.now → F.contents files.new n ≡ F.contents files.old n }
{
    let text = text_of(files, old, 16_777_216)?;
    let sought = migrate_text(alloc, &text);
    kept(files, Some(new), sought)
}

/// The verdict on what the words ask for.
fn verdict_of<'a, R: Threads + Wait + Sync, F: Files, W: Watcher>(
    rt: &R,
    alloc: Global,
    words: &'a [String],
    files: &mut F,
    watcher: &W,
) -> Result<Verdict, Stop<'a>>
    ensures verdict { IfOk result (λ v. Tells (Does F.contents F.gives files.old files.new) (texts words.now) v) }
    ensures others { (n : List ℕ) → (IsOut (texts words.now) n → ⊥) → F.contents files.new n ≡ F.contents files.old n }
{
    match read_line(alloc, words) {
        Ok(Line::First) => Ok(first_verdict(alloc)),
        Ok(Line::Check(names)) => checked(alloc, names, files),
        Ok(
            Line::Run {
                names,
                launch,
                workers,
            },
        ) => ran(rt, alloc, names, launch, workers, files),
        Ok(Line::Prove(search)) => proved(rt, alloc, search, files, watcher),
        Ok(Line::Explain(subject)) => explained(rt, alloc, subject, files, watcher),
        Ok(Line::Print(kernel)) => printed(alloc, kernel, files),
        Ok(Line::Show(showing)) => shown(alloc, showing, files),
        Ok(Line::Migrate { old, new }) => migrated(alloc, old, new, files),
        Ok(Line::Usage) => Err(Stop::Usage),
        Err(_) => Err(Stop::Memory),
    }
}

/// Writes a text to the standard output: the status, or 3 where that fails.
fn written<O: Write>(status: u8, text: &[u8], out: &mut O) -> u8
    ensures { IsWritten text.now (O.contents out.old) (O.contents out.new) status result }
{
    if is_written(text, out) { status } else { 3 }
}

/// Writes to the standard error. Whether that fails changes nothing.
fn warned<E: Write>(status: u8, text: &[u8], err: &mut E) -> u8
    ensures { result ≡ status }
{
    match err.write_all(text) {
        Ok(()) | Err(_) => status,
    }
}

/// Writes the reason for which there is no verdict, and gives its status.
fn stopped<E: Write>(stop: Stop, err: &mut E) -> u8
    ensures { IsStopped result }
{
    match stop {
        Stop::Usage => warned(2, USAGE.as_bytes(), err),
        Stop::Memory => warned(4, b"out of memory\n", err),
        Stop::File(name) => match writeln!(err, "file: {name}") {
            Ok(()) | Err(_) => 3,
        },
    }
}

/// Writes a verdict's text or line to the output, or that memory ran out to the other writer, and gives the status: 0, 1 or 4; 3 where
/// the output fails.
fn told<O: Write, E: Write>(verdict: Verdict, out: &mut O, err: &mut E) -> u8
    ensures { IsTold verdict (O.contents out.old) (O.contents out.new) result }
{
    match verdict {
        Verdict::Done(text) => written(0, &text, out),
        Verdict::Refused(line) => written(1, line.as_bytes(), out),
        Verdict::OutOfMemory => warned(4, b"out of memory\n", err),
    }
}

/// One run of the program, as by `tool`. Where it looks for a certificate, whoever watches is told how far it is, and that it is over
/// before anything is told of it.
pub fn tool_watched<R: Threads + Wait + Sync, F: Files, O: Write, E: Write, W: Watcher>(
    rt: &R,
    alloc: Global,
    words: &[String],
    files: &mut F,
    out: &mut O,
    err: &mut E,
    watcher: &W,
) -> u8
    ensures output { Output (Success (Does F.contents F.gives files.old files.new) IsProvedText (texts words.now)) (Refusal (Does F.contents F.gives files.old files.new) (texts words.now)) (O.contents out.old) (O.contents out.new) result }
    ensures files { (n : List ℕ) → (IsOut (texts words.now) n → ⊥) → F.contents files.new n ≡ F.contents files.old n }
{
    match verdict_of(rt, alloc, words, files, watcher) {
        Ok(verdict) => {
            watcher.end();
            told(verdict, out, err)
        }
        Err(stop) => {
            watcher.end();
            stopped(stop, err)
        }
    }
}

/// One run of the program: reads the files that the words name, in their order, then answers. The status is 0 accepted or done, 1
/// refused, 2 no command line, 3 a file or the output that fails, 4 out of memory.
pub fn tool<R: Threads + Wait + Sync, F: Files, O: Write, E: Write>(
    rt: &R,
    alloc: Global,
    words: &[String],
    files: &mut F,
    out: &mut O,
    err: &mut E,
) -> u8
    ensures output { Output (Success (Does F.contents F.gives files.old files.new) IsProvedText (texts words.now)) (Refusal (Does F.contents F.gives files.old files.new) (texts words.now)) (O.contents out.old) (O.contents out.new) result }
    ensures files { (n : List ℕ) → (IsOut (texts words.now) n → ⊥) → F.contents files.new n ≡ F.contents files.old n }
{
    tool_watched(rt, alloc, words, files, out, err, &Unwatched)
}
