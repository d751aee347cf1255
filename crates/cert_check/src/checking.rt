//! The check, narrow or wide.

ghost use Rattle.std.specs.Prelude.{◌≡◌, ℕ, List, Bool, true, false, map, Ok, IfOk, IfErr};
ghost use Rattle.semantics.specs.Conditions as meaning;
ghost use Rattle.launch.specs.View.{conditions as conditions_seen};
ghost use Rattle.launch_text.specs.View.{lined};
ghost use Rattle.launch_text.specs.ConditionsReading.{conditions_of};
ghost use Rattle.kernel_names.specs.View.{names_seen};
ghost use Rattle.core_code.specs.View.{kernel as core_seen};
ghost use Rattle.facts.specs.Launching.{are_sizes};
ghost use Rattle.arrivals.specs.Places as meant;
ghost use Rattle.places.specs.Answers.{IsRefused};
ghost use Rattle.places.specs.View.{place as place_seen};
ghost use Rattle.kernel_reading.specs.Kernels as kernel_texts;
ghost use Rattle.kernel_reading.specs.Kernels.{read, text_for};
ghost use Rattle.kernel_reading.specs.Sources.{source};
ghost use Rattle.kernel_reading.specs.Answers.{kernel_seen};
ghost use Rattle.cert_check.specs.Accepting.{IsAccepted, IsAcceptedBy, IsAcceptedWithin, HasHeadline};
ghost use Rattle.cert_check.specs.Alike.{AreAlike, AreNotOfTwoOrThree, HoldsOf, HoldsOfBy, IsOfOneOrTwo};
ghost use Rattle.cert_check.specs.Checked.{AllIsShown, IsTold, StopsBy};
ghost use Rattle.cert_check.specs.Refusing.{AreMet, IsPassed, IsPassedBy, Tells, TellsBy};
ghost use Rattle.cert_check.specs.Told.{IsToldOf};
ghost use Rattle.cert_check.specs.Plainly.{OnPlain, OnPlainBy};
ghost use Rattle.cert_check.specs.View.{typed_of, kept};

use crate::accepted::Accepted;
use crate::error::CheckError;
use crate::first_pass::{Told, open_as, tell};
use crate::showing::show;
use certificate_text::laws::either_version_is_read;
use domain::Elements;
use entry_check::ShowError;
use kernel_names::{NameMap, site_at};
use kernel_reading::laws::local_sizes_are_within_limits;
use kernel_reading::{Source, narrow, read_source};
use launch::conditions::Conditions;
use launch_text::error::LaunchTextError;
use launch_text::laws::texts_of_version_1_are_read_alike;
use launch_text::read_conditions_as;
use places::{Place, PlaceError, places};
use plain_kernels::laws::{
    forms_of_plain_kernels_fit, plain_kernels_have_one_place, ranges_of_plain_kernels_are_settled,
};
use reduction::pair_safe_within_on_devices;
use semantics::honesty::{launches_begin_kept, without_lines_all_runs_are_honest};
use shown_kernels::laws::what_is_read_and_shown_is_pair_safe_within;
use shown_kernels::proper::what_is_read_is_proper;
use shown_kernels::sound::what_is_read_is_orderly;
use std::alloc::Global;
use typed_kernels::Typed;

/// The refusal of a kernel that has no places, with its place in the source.
fn unplaced(typed: &Typed, error: PlaceError) -> CheckError
    requires { IsRefused (core_seen typed.now.1).body error }
    ensures { (is_wide : Bool) (c : meaning.Conditions) (certificate : List ℕ) → StopsBy is_wide typed.now c certificate result }
{
    match error {
        PlaceError::Missed(number) => CheckError::Missed(site_at(typed.names(), Some(number))),
        PlaceError::Memory => CheckError::Conditions(LaunchTextError::Memory),
    }
}

/// The refusal of a kernel that is not shown; where there are too many paths, with the place in the source.
fn unshown(kernel: &NameMap, error: ShowError) -> CheckError
    ensures { IsTold (names_seen kernel.now) error result }
{
    match error {
        ShowError::ManyPaths(statement) => CheckError::ManyPaths(site_at(kernel, statement)),
        ShowError::NotShown(number) => CheckError::Show(ShowError::NotShown(number)),
        ShowError::Walk(error) => CheckError::Show(ShowError::Walk(error)),
        ShowError::OverBudget => CheckError::Show(ShowError::OverBudget),
        ShowError::Memory => CheckError::Show(ShowError::Memory),
    }
}

/// A kernel under conditions, with what the text of a certificate tells of it, and the text once more.
fn accept_told(
    alloc: Global,
    typed: &Typed,
    conditions: &Conditions,
    places: &[Place<'_>],
    told: Told,
    certificate: &[u8],
    is_wide: bool,
) -> Result<(), CheckError>
    requires sizes { are_sizes (core_seen typed.now.1).sizes ≡ true }
    requires places { map place_seen places.now ≡ meant.places (core_seen typed.now.1).body }
    requires met { AreMet typed.now }
    requires told { IsToldOf is_wide (core_seen typed.now.1) (names_seen typed.now.0) (map place_seen places.now) certificate.now told }
    ensures passed { IfOk result (λ _. IsPassedBy is_wide typed.now (conditions_seen conditions.now) certificate.now) }
    ensures shown { IfOk result (λ _. AllIsShown (core_seen typed.now.1) (conditions_seen conditions.now)) }
    ensures stopped { IfErr result (StopsBy is_wide typed.now (conditions_seen conditions.now) certificate.now) }
{
    let Told { notes, flags } = told;
    let Some(notes) = notes else {
        return Err(CheckError::Show(ShowError::NotShown(0)));
    };
    let mut entries = match open_as(alloc, certificate, is_wide) {
        Ok(entries) => entries,
        Err(error) => return Err(CheckError::Certificate(error)),
    };
    match show(
        alloc,
        typed,
        conditions,
        places,
        &notes,
        flags,
        &mut entries,
    ) {
        Ok(()) => Ok(()),
        Err(error) => Err(unshown(typed.names(), error)),
    }
}

/// A kernel under conditions, with a certificate by its text. The text is gone over twice, and one entry is held at a time: at first for
/// its faults, its notes and the numbers of its entries, then for what the entries show.
fn accept(
    alloc: Global,
    typed: &Typed,
    conditions: &Conditions,
    certificate: &[u8],
    is_wide: bool,
) -> Result<(), CheckError>
    requires { are_sizes (core_seen typed.now.1).sizes ≡ true }
    ensures passed { IfOk result (λ _. IsPassedBy is_wide typed.now (conditions_seen conditions.now) certificate.now) }
    ensures shown { IfOk result (λ _. AllIsShown (core_seen typed.now.1) (conditions_seen conditions.now)) }
    ensures stopped { IfErr result (StopsBy is_wide typed.now (conditions_seen conditions.now) certificate.now) }
{
    let places = match places(alloc, typed.core()) {
        Ok(places) => places,
        Err(error) => return Err(unplaced(typed, error)),
    };
    let told = match tell(alloc, typed, places.as_slice(), certificate, is_wide) {
        Ok(told) => told,
        Err(error) => return Err(CheckError::Certificate(error)),
    };
    accept_told(
        alloc,
        typed,
        conditions,
        places.as_slice(),
        told,
        certificate,
        is_wide,
    )
}

/// The check as `check` has it, or as `check_wide` does, of a kernel that is read for these devices: for any, ids have a kind of their own,
/// and what is accepted has the headline on each.
pub fn check_as(
    alloc: Global,
    kernel: Source<'_>,
    conditions: &[u8],
    certificate: &[u8],
    is_wide: bool,
) -> Result<Accepted, CheckError>
    ensures kernel { IfOk result (λ a. read (source kernel.entry) ≡ Ok (kernel_seen (typed_of a))) }
    ensures conditions { IfOk result (λ a. conditions_of is_wide (names_seen (typed_of a).0).parameters conditions.now ≡ Ok (lined (kept a))) }
    ensures passed { IfOk result (λ a. IsPassedBy is_wide (typed_of a) (conditions_seen (kept a)) certificate.now) }
    ensures refused { TellsBy is_wide result (source kernel.entry) conditions.now certificate.now }
    ensures plain { OnPlainBy is_wide result (source kernel.entry) conditions.now certificate.now }
    ensures two { (two : List ℕ) → AreAlike certificate.now two → HoldsOfBy is_wide result (source kernel.entry) conditions.now two }
    ensures one { (one : List ℕ) → AreAlike one certificate.now → HoldsOfBy is_wide result (source kernel.entry) conditions.now one }
    ensures alike { IsOfOneOrTwo certificate.now → AreNotOfTwoOrThree conditions.now → HoldsOf result (source kernel.entry) conditions.now certificate.now }
    ensures pair { IfOk result (λ a. IsAcceptedBy is_wide (core_seen (typed_of a).1) (conditions_seen (kept a))) }
    ensures headline { IfOk result (λ a. HasHeadline (core_seen (typed_of a).1) (conditions_seen (kept a))) }
{
    either_version_is_read();
    texts_of_version_1_are_read_alike();
    plain_kernels_have_one_place();
    forms_of_plain_kernels_fit();
    ranges_of_plain_kernels_are_settled();
    let typed = match read_source(alloc, kernel) {
        Ok(typed) => typed,
        Err(error) => return Err(CheckError::Kernel(error)),
    };
    let conditions = match read_conditions_as(alloc, &typed, conditions, is_wide) {
        Ok(conditions) => conditions,
        Err(error) => return Err(CheckError::Conditions(error)),
    };
    local_sizes_are_within_limits();
    match accept(alloc, &typed, &conditions, certificate, is_wide) {
        Ok(()) => {}
        Err(error) => return Err(error),
    }
    pair_safe_within_on_devices();
    launches_begin_kept();
    without_lines_all_runs_are_honest();
    what_is_read_is_proper();
    what_is_read_is_orderly();
    what_is_read_and_shown_is_pair_safe_within::<Elements>();
    Ok(Accepted::of(typed, conditions))
}

/// A kernel, launch conditions and a certificate, each by its text. What is accepted is pair-safe at each launch that meets the
/// conditions, and the headline holds there. What is refused first, in this order: the kernel, the conditions, a loop whose barrier an
/// iteration can miss, the certificate's text, what it tells of that the kernel lacks, over 256 paths of a place, over 65,536 obligations
/// or a number that is too large, the obligations by their numbers, entries past the last of them, the budget. A certificate of version 1
/// and the same in version 2 have the same answer, want of memory aside.
pub fn check(
    alloc: Global,
    kernel: &[u8],
    conditions: &[u8],
    certificate: &[u8],
) -> Result<Accepted, CheckError>
    ensures kernel { IfOk result (λ a. read (text_for kernel_texts.narrow kernel.now) ≡ Ok (kernel_seen (typed_of a))) }
    ensures conditions { IfOk result (λ a. conditions_of false (names_seen (typed_of a).0).parameters conditions.now ≡ Ok (lined (kept a))) }
    ensures passed { IfOk result (λ a. IsPassed (typed_of a) (conditions_seen (kept a)) certificate.now) }
    ensures refused { Tells result (text_for kernel_texts.narrow kernel.now) conditions.now certificate.now }
    ensures plain { OnPlain result (text_for kernel_texts.narrow kernel.now) conditions.now certificate.now }
    ensures two { (two : List ℕ) → AreAlike certificate.now two → HoldsOf result (text_for kernel_texts.narrow kernel.now) conditions.now two }
    ensures one { (one : List ℕ) → AreAlike one certificate.now → HoldsOf result (text_for kernel_texts.narrow kernel.now) conditions.now one }
    ensures pair { IfOk result (λ a. IsAccepted (core_seen (typed_of a).1) (conditions_seen (kept a))) }
    ensures headline { IfOk result (λ a. HasHeadline (core_seen (typed_of a).1) (conditions_seen (kept a))) }
{
    check_as(alloc, narrow(kernel), conditions, certificate, false)
}

/// As `check`, of conditions of versions 2 and 3 and of certificates of version 4, too: these are wide, and with them
/// the check knows more of a kernel. What is accepted is pair-safe in the runs whose loads are answered by what the
/// conditions let buffers hold; where no line says what they hold it is pair-safe as ever. Of conditions of version 1
/// and a certificate of version 1 or 2 the answer holds as that of `check`.
pub fn check_wide(
    alloc: Global,
    kernel: &[u8],
    conditions: &[u8],
    certificate: &[u8],
) -> Result<Accepted, CheckError>
    ensures kernel { IfOk result (λ a. read (text_for kernel_texts.narrow kernel.now) ≡ Ok (kernel_seen (typed_of a))) }
    ensures conditions { IfOk result (λ a. conditions_of true (names_seen (typed_of a).0).parameters conditions.now ≡ Ok (lined (kept a))) }
    ensures passed { IfOk result (λ a. IsPassedBy true (typed_of a) (conditions_seen (kept a)) certificate.now) }
    ensures refused { TellsBy true result (text_for kernel_texts.narrow kernel.now) conditions.now certificate.now }
    ensures plain { OnPlainBy true result (text_for kernel_texts.narrow kernel.now) conditions.now certificate.now }
    ensures two { (two : List ℕ) → AreAlike certificate.now two → HoldsOfBy true result (text_for kernel_texts.narrow kernel.now) conditions.now two }
    ensures one { (one : List ℕ) → AreAlike one certificate.now → HoldsOfBy true result (text_for kernel_texts.narrow kernel.now) conditions.now one }
    ensures alike { IsOfOneOrTwo certificate.now → AreNotOfTwoOrThree conditions.now → HoldsOf result (text_for kernel_texts.narrow kernel.now) conditions.now certificate.now }
    ensures pair { IfOk result (λ a. IsAcceptedWithin (core_seen (typed_of a).1) (conditions_seen (kept a))) }
    ensures headline { IfOk result (λ a. HasHeadline (core_seen (typed_of a).1) (conditions_seen (kept a))) }
{
    check_as(alloc, narrow(kernel), conditions, certificate, true)
}
