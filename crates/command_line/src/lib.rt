//! Section: Program. Promises which words name which files and devices; stands on `kernel_reading` and `clap`.
//!
//! The command line. `clap` says whether the words are one; the files are the words that are no option, in their order.
#![tactic(auto)]

ghost use Rattle.std.specs.Prelude.{◌≡◌, ℕ, List, IfOk, IfSome, true, false, codes, slice_get};
ghost use Rattle.std.specs.Fmt.{decimal};
ghost use Rattle.std.specs.Option.{option_map};
ghost use Rattle.types.specs.Names.{devices as devices_seen};
ghost use Rattle.kernel_reading.specs.Sources.{language as language_seen, reading as reading_seen};
ghost use Rattle.command_line.specs.Words.{texts, operands, saved_as, workers_as, devices_as, has_wide, has_opencl, IsNumberOf, AsksWorkers};
ghost use Rattle.command_line.specs.Words.{IsDevicesOf, AsksDevices, language_by, AsksReading};
ghost use Rattle.command_line.specs.Words.{HasWord, HasNames, HasSubject, HasShowing, Asks};

use clap::error::{Error, ErrorKind};
use clap::{Arg, ArgAction, Command};
use kernel_reading::{Language, Reading};
use std::alloc::{AllocError, Global};
use types::devices::Devices;

/// A command, with the names of the files that it is asked of.
#[derive(Clone, Copy)]
pub enum Line<'a> {
    /// The check of the texts that stand in the program.
    First,
    Check(Names<'a>),
    Run {
        names: Names<'a>,
        launch: &'a str,
        workers: u32,
    },
    Prove(Search<'a>),
    Explain(Subject<'a>),
    /// The canonical text of a file's kernel.
    Print(&'a str),
    Show(Showing<'a>),
    /// The certificate of a file, written in version 2 to another one.
    Migrate {
        old: &'a str,
        new: &'a str,
    },
    /// The words are no command line.
    Usage,
}

/// The files of a kernel, its conditions and its certificate, whether the wide check is asked for, and how the kernel is read.
#[derive(Clone, Copy)]
pub struct Names<'a> {
    pub kernel: &'a str,
    pub conditions: &'a str,
    pub certificate: &'a str,
    pub is_wide: bool,
    pub reading: Reading,
}

/// The files that `prove` is asked of, a kernel's and its conditions', the file to write, where one is named, how many workers, whether
/// the wide search is asked for, and how the kernel is read.
#[derive(Clone, Copy)]
pub struct Search<'a> {
    pub kernel: &'a str,
    pub conditions: &'a str,
    pub out: Option<&'a str>,
    pub workers: u32,
    pub is_wide: bool,
    pub reading: Reading,
}

/// The files that `explain` is asked of: a kernel's, its conditions', and a certificate's, where one is named; whether it is of the wide
/// check, and how the kernel is read.
#[derive(Clone, Copy)]
pub struct Subject<'a> {
    pub kernel: &'a str,
    pub conditions: &'a str,
    pub certificate: Option<&'a str>,
    pub is_wide: bool,
    pub reading: Reading,
}

/// The files of which `print` shows what is made of OpenCL C: a kernel's and its conditions', where they are named; and how the kernel is
/// read.
#[derive(Clone, Copy)]
pub struct Showing<'a> {
    pub kernel: &'a str,
    pub conditions: Option<&'a str>,
    pub reading: Reading,
}

/// A decimal of at most 4294967295, with no sign and no zero before it.
fn decimal(alloc: Global, text: &str) -> Result<Option<u32>, AllocError>
    ensures { IfOk result (λ n. IfSome n (λ n. text.now ≡ decimal n)) }
{
    let Ok(number) = text.parse::<u32>() else {
        return Ok(None);
    };
    let spelled = format!(in alloc; "{number}")?;
    Ok((spelled.as_str() == text).then_some(number))
}

/// The words of a command: its name, its files, of which the first ones have to be there, its options, and those that have no value.
#[derive(Clone, Copy)]
struct Form<'a> {
    name: &'a str,
    files: &'a [&'a str],
    needed: usize,
    options: &'a [&'a str],
    flags: &'a [&'a str],
}

/// The options without a value of a command that looks at a certificate or for one.
const FLAGS: &[&str] = &["wide", "opencl"];

/// The form of a command.
fn form_of(command: Option<&str>) -> Option<Form<'static>> {
    let (name, files, needed, options, flags): (_, &[&str], _, &[&str], &[&str]) = match command? {
        "check" => (
            "check",
            &["KERNEL", "CONDITIONS", "CERTIFICATE"],
            3,
            &["devices"],
            FLAGS,
        ),
        "run" => (
            "run",
            &["KERNEL", "CONDITIONS", "CERTIFICATE", "LAUNCH"],
            4,
            &["workers", "devices"],
            FLAGS,
        ),
        "prove" => (
            "prove",
            &["KERNEL", "CONDITIONS"],
            2,
            &["workers", "out", "devices"],
            FLAGS,
        ),
        "explain" => (
            "explain",
            &["KERNEL", "CONDITIONS", "CERTIFICATE"],
            2,
            &["devices"],
            FLAGS,
        ),
        "print" => (
            "print",
            &["KERNEL", "CONDITIONS"],
            1,
            &["devices"],
            &["opencl"],
        ),
        "migrate" => ("migrate", &["OLD", "NEW"], 2, &[], &[]),
        _ => return None,
    };
    Some(Form {
        name,
        files,
        needed,
        options,
        flags,
    })
}

/// An option with a value is written as two words, and there are just those of the form.
fn is_spelled(words: &[String], form: Form<'_>) -> bool {
    words.iter().all(|word| is_known(word.as_str(), form))
}

/// Whether a word is no option or one of the form's.
fn is_known(word: &str, form: Form<'_>) -> bool {
    match word.strip_prefix("--") {
        Some(name) => has_name(form.options, name) || has_name(form.flags, name),
        None => true,
    }
}

/// Whether a name is one of these.
fn has_name(names: &[&str], name: &str) -> bool {
    names.iter().any(|other| *other == name)
}

/// The parser of a form of the command line: its files and its options.
fn command_of<'a>(alloc: Global, form: Form<'a>) -> Result<Command<'a>, AllocError> {
    let mut command = Command::new(alloc, form.name);
    for (at, name) in form.files.iter().enumerate() {
        let file = Arg::new(alloc, name).required(at < form.needed);
        command = command.arg(file.action(ArgAction::Set))?;
    }
    for name in form.options {
        let option = Arg::new(alloc, name).long(name);
        command = command.arg(option.action(ArgAction::Set))?;
    }
    for name in form.flags {
        let flag = Arg::new(alloc, name).long(name);
        command = command.arg(flag.action(ArgAction::SetTrue))?;
    }
    Ok(command)
}

/// The n-th word that is neither an option nor an option's value, from 0.
fn operand(words: &[String], n: u32) -> Option<&str>
    ensures { option_map (λ w. w.now) result ≡ slice_get (operands false (texts words.now)) n }
{
    let mut left = n;
    let mut is_value = false;
    for word in words {
        if is_value {
            is_value = false;
        } else if word.as_str() == "--workers"
            || word.as_str() == "--out"
            || word.as_str() == "--devices"
        {
            is_value = true;
        } else if word.as_str() != "--wide" && word.as_str() != "--opencl" {
            if left == 0 {
                return Some(word.as_str());
            }
            left -= 1;
        }
    }
    None
}

/// Whether one of the words is `--wide`.
fn is_wide(words: &[String]) -> bool
    ensures { result ≡ has_wide (texts words.now) }
{
    for word in words {
        if word.as_str() == "--wide" {
            return true;
        }
    }
    false
}

/// Whether one of the words is `--opencl`.
fn is_opencl(words: &[String]) -> bool
    ensures { result ≡ has_opencl (texts words.now) }
{
    for word in words {
        if word.as_str() == "--opencl" {
            return true;
        }
    }
    false
}

/// The word behind the first `--out`.
fn out_of(words: &[String]) -> Option<&str>
    ensures { option_map (λ w. w.now) result ≡ saved_as false (texts words.now) }
{
    let mut is_name = false;
    for word in words {
        if is_name {
            return Some(word.as_str());
        }
        is_name = word.as_str() == "--out";
    }
    None
}

/// The word behind the first `--devices`.
fn devices_word(words: &[String]) -> Option<&str>
    ensures { option_map (λ w. w.now) result ≡ devices_as false (texts words.now) }
{
    let mut is_name = false;
    for word in words {
        if is_name {
            return Some(word.as_str());
        }
        is_name = word.as_str() == "--devices";
    }
    None
}

/// The devices that a word says, those with 32 address bits where there is no word; none where it is neither `any` nor `32`.
fn devices_of(word: Option<&str>) -> Option<Devices>
    ensures { IfSome result (λ d. IsDevicesOf (option_map (λ w. w.now) word.entry) (devices_seen d)) }
{
    match word {
        Some(text) if text == "any" => Some(Devices::Any),
        Some(text) if text == "32" => Some(Devices::Bits32),
        Some(_) => None,
        None => Some(Devices::Bits32),
    }
}

/// The devices that the words say, those with 32 address bits where they say none; none where they say no such devices.
fn devices_in(words: &[String]) -> Option<Devices>
    ensures { IfSome result (λ d. AsksDevices (texts words.now) (devices_seen d)) }
{
    devices_of(devices_word(words))
}

/// The language that words ask for.
fn language_in(words: &[String]) -> Language
    ensures { language_seen result ≡ language_by (has_opencl (texts words.now)) }
{
    if is_opencl(words) {
        Language::OpenCl
    } else {
        Language::Plain
    }
}

/// The way in which the words have the kernel read; none where they say no such devices.
fn reading_in(words: &[String]) -> Option<Reading>
    ensures { IfSome result (λ r. AsksReading (texts words.now) (reading_seen r)) }
{
    Some(Reading {
        language: language_in(words),
        devices: devices_in(words)?,
    })
}

/// The files that words name, behind the command, and the devices; none where there are too few files, or the devices are none.
fn names_of<'a>(words: &'a [String]) -> Option<Names<'a>>
    ensures { IfSome result (λ names. HasNames (texts words.now) names) }
{
    Some(Names {
        kernel: operand(words, 1)?,
        conditions: operand(words, 2)?,
        certificate: operand(words, 3)?,
        is_wide: is_wide(words),
        reading: reading_in(words)?,
    })
}

/// Want of memory is told apart from words that are no command line.
fn unread(error: &Error) -> Result<bool, AllocError> {
    if error.kind() == ErrorKind::OutOfMemory {
        return Err(AllocError);
    }
    Ok(false)
}

/// The word behind the first `--workers`.
fn workers_word(words: &[String]) -> Option<&str>
    ensures { option_map (λ w. w.now) result ≡ workers_as false (texts words.now) }
{
    let mut is_number = false;
    for word in words {
        if is_number {
            return Some(word.as_str());
        }
        is_number = word.as_str() == "--workers";
    }
    None
}

/// The number that a word says, 1 where there is no word; none where it is no number.
fn number_of(alloc: Global, word: Option<&str>) -> Result<Option<u32>, AllocError>
    ensures { IfOk result (λ n. IfSome n (λ n. IsNumberOf (option_map (λ w. w.now) word.entry) n)) }
{
    match word {
        Some(text) => decimal(alloc, text),
        None => Ok(Some(1)),
    }
}

/// Whether the words are a command line of this form.
fn is_of(alloc: Global, form: Form<'_>, words: &[String]) -> Result<bool, AllocError> {
    if !is_spelled(words, form) {
        return Ok(false);
    }
    match command_of(alloc, form)?.try_get_matches_from(words) {
        Ok(_) => Ok(true),
        Err(error) => unread(&error),
    }
}

/// The number of workers that the words say, 1 where they say none; none where it is no number.
fn workers_in(alloc: Global, words: &[String]) -> Result<Option<u32>, AllocError>
    ensures { IfOk result (λ n. IfSome n (AsksWorkers (texts words.now))) }
{
    number_of(alloc, workers_word(words))
}

/// `check` of the three files that the words name, or no command line where they name fewer, or devices that are none.
fn check_of<'a>(words: &'a [String]) -> Line<'a>
    requires { HasWord (texts words.now) 0 (codes "check") }
    ensures { Asks (texts words.now) result }
{
    match names_of(words) {
        Some(names) => Line::Check(names),
        None => Line::Usage,
    }
}

/// `run` of the four files that the words name, or no command line where they name fewer, or devices that are none.
fn run_of<'a>(words: &'a [String], workers: u32) -> Line<'a>
    requires command { HasWord (texts words.now) 0 (codes "run") }
    requires workers { AsksWorkers (texts words.now) workers }
    ensures { Asks (texts words.now) result }
{
    let (Some(names), Some(launch)) = (names_of(words), operand(words, 4)) else {
        return Line::Usage;
    };
    Line::Run {
        names,
        launch,
        workers,
    }
}

/// `prove` of the two files that the words name, or no command line where they name fewer, or devices that are none.
fn prove_of<'a>(words: &'a [String], workers: u32) -> Line<'a>
    requires command { HasWord (texts words.now) 0 (codes "prove") }
    requires workers { AsksWorkers (texts words.now) workers }
    ensures { Asks (texts words.now) result }
{
    let (Some(kernel), Some(conditions), Some(reading)) = (
        operand(words, 1),
        operand(words, 2),
        reading_in(words),
    ) else {
        return Line::Usage;
    };
    Line::Prove(Search {
        kernel,
        conditions,
        out: out_of(words),
        workers,
        is_wide: is_wide(words),
        reading,
    })
}

/// The kernel, the conditions and the certificate that the words name, if they name one, and the devices.
fn subject_of<'a>(words: &'a [String]) -> Option<Subject<'a>>
    ensures { IfSome result (λ subject. HasSubject (texts words.now) subject) }
{
    Some(Subject {
        kernel: operand(words, 1)?,
        conditions: operand(words, 2)?,
        certificate: operand(words, 3),
        is_wide: is_wide(words),
        reading: reading_in(words)?,
    })
}

/// `explain` of the two or three files that the words name, or no command line where they name fewer, or devices that are none.
fn explain_of<'a>(words: &'a [String]) -> Line<'a>
    requires { HasWord (texts words.now) 0 (codes "explain") }
    ensures { Asks (texts words.now) result }
{
    match subject_of(words) {
        Some(subject) => Line::Explain(subject),
        None => Line::Usage,
    }
}

/// The kernel and the conditions that the words name, if they name any, and the devices.
fn showing_of<'a>(words: &'a [String]) -> Option<Showing<'a>>
    requires { has_opencl (texts words.now) ≡ true }
    ensures { IfSome result (λ showing. HasShowing (texts words.now) showing) }
{
    Some(Showing {
        kernel: operand(words, 1)?,
        conditions: operand(words, 2),
        reading: reading_in(words)?,
    })
}

/// `print` of OpenCL C, of the one or two files that the words name, or no command line where they name none, or devices that are none.
fn show_of<'a>(words: &'a [String]) -> Line<'a>
    requires command { HasWord (texts words.now) 0 (codes "print") }
    requires opencl { has_opencl (texts words.now) ≡ true }
    ensures { Asks (texts words.now) result }
{
    match showing_of(words) {
        Some(showing) => Line::Show(showing),
        None => Line::Usage,
    }
}

/// `print` of the one file that the words name, or no command line where they name none, or two, or devices.
fn plain_print_of<'a>(words: &'a [String]) -> Line<'a>
    requires command { HasWord (texts words.now) 0 (codes "print") }
    requires plain { has_opencl (texts words.now) ≡ false }
    ensures { Asks (texts words.now) result }
{
    match (operand(words, 1), operand(words, 2), devices_word(words)) {
        (Some(kernel), None, None) => Line::Print(kernel),
        _ => Line::Usage,
    }
}

/// `print` of the files that the words name.
fn print_of<'a>(words: &'a [String]) -> Line<'a>
    requires { HasWord (texts words.now) 0 (codes "print") }
    ensures { Asks (texts words.now) result }
{
    if is_opencl(words) {
        show_of(words)
    } else {
        plain_print_of(words)
    }
}

/// `migrate` of the two files that the words name, or no command line where they name fewer.
fn migrate_of<'a>(words: &'a [String]) -> Line<'a>
    requires { HasWord (texts words.now) 0 (codes "migrate") }
    ensures { Asks (texts words.now) result }
{
    let (Some(old), Some(new)) = (operand(words, 1), operand(words, 2)) else {
        return Line::Usage;
    };
    Line::Migrate { old, new }
}

/// The command line of words of which the first is a command; any other first word makes no command line.
fn asked<'a>(words: &'a [String], workers: u32) -> Line<'a>
    requires { AsksWorkers (texts words.now) workers }
    ensures { Asks (texts words.now) result }
{
    match operand(words, 0) {
        Some(command) if command == "check" => check_of(words),
        Some(command) if command == "run" => run_of(words, workers),
        Some(command) if command == "prove" => prove_of(words, workers),
        Some(command) if command == "explain" => explain_of(words),
        Some(command) if command == "print" => print_of(words),
        Some(command) if command == "migrate" => migrate_of(words),
        _ => Line::Usage,
    }
}

/// The command line that the words are, options left out; the first word is the command. An error is want of memory.
pub fn read_line<'a>(alloc: Global, words: &'a [String]) -> Result<Line<'a>, AllocError>
    ensures { IfOk result (λ line. Asks (texts words.now) line) }
{
    if words.is_empty() {
        return Ok(Line::First);
    }
    let Some(form) = form_of(operand(words, 0)) else {
        return Ok(Line::Usage);
    };
    if !is_of(alloc, form, words)? {
        return Ok(Line::Usage);
    }
    match workers_in(alloc, words)? {
        Some(workers) => Ok(asked(words, workers)),
        None => Ok(Line::Usage),
    }
}
