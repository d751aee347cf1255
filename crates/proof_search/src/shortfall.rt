//! The findings of a search that came to nothing.

ghost use Rattle.std.specs.Prelude.{◌≡◌, true, None, IfOk, IfSome, OnOk};
ghost use Rattle.core_code.specs.View.{kernel as core_seen};
ghost use Rattle.typed_kernels.specs.TypedKernel.{TypedKernel};
ghost use Rattle.launch.specs.declared.conditions.Conditions as code;
ghost use Rattle.launch.specs.View.{conditions as conditions_seen};
ghost use Rattle.launch_text.specs.Fits.{IsOf};
ghost use Rattle.launch_text.specs.View.{lined};
ghost use Rattle.kernel_reading.specs.Answers.{kernel_seen};
ghost use Rattle.work_item.specs.Proper.{is_proper};
ghost use Rattle.findings.specs.View.{finding as finding_seen};
ghost use Rattle.proof_search.specs.Findings.{IsTrue, AreTrue};

use certificate_search::{Mark, Missing};
use diagnostics::{Finding, Spot, confirm, possible};
use kernel_names::site_at;
use launch::conditions::Conditions;
use launch::probe::probe;
use launch_text::laws::a_least_launch_fits;
use path_steps::Sort;
use std::alloc::{AllocError, Global};
use typed_kernels::Typed;
use words::{Fault, Kind};

/// The most findings that are told.
const MOST: usize = 16;

/// The kind of finding that an obligation of this sort leaves where it is not shown. None of those that a safe kernel may fail: that a
/// value of `uint` was not wrapped round, that a dividend is not negative, and that a guess holds.
fn kind_of(sort: Sort) -> Option<diagnostics::FindingKind> {
    match sort {
        Sort::OfRange(Kind::Int) | Sort::OfQuotient => {
            Some(diagnostics::FindingKind::Fault(Fault::Overflow))
        }
        Sort::OfRange(Kind::Size) => Some(diagnostics::FindingKind::Size),
        Sort::OfIndex => Some(diagnostics::FindingKind::Fault(Fault::OutOfBounds)),
        Sort::OfDivisor => Some(diagnostics::FindingKind::Fault(Fault::DivisionByZero)),
        Sort::OfRanking => Some(diagnostics::FindingKind::Bound),
        Sort::OfContent => Some(diagnostics::FindingKind::Values),
        Sort::OfPair => Some(diagnostics::FindingKind::Race),
        Sort::OfSame | Sort::OfMeeting => Some(diagnostics::FindingKind::Divergence),
        Sort::OfRange(Kind::Uint) | Sort::OfFact | Sort::OfCongruence => None,
    }
}

/// The place in the source that a mark stands for.
fn spot_of(typed: &Typed, mark: Mark) -> Spot {
    match mark {
        Mark::Store(site) => Spot::Store(site),
        Mark::Load(site) => Spot::Load(site),
        Mark::At(site) => Spot::At(site),
        Mark::Barrier(number) => Spot::Barrier(site_at(typed.names(), Some(number))),
        Mark::Loop(number) => Spot::At(site_at(typed.names(), Some(number))),
        Mark::End => Spot::End,
    }
}

/// The possible finding of an obligation that is not shown, if it leaves one.
fn suspected(alloc: Global, typed: &Typed, missing: Missing) -> Result<Option<Finding>, AllocError>
    ensures { IfOk result (λ found. IfSome found (λ f. (finding_seen f).schedule ≡ None)) }
{
    let Some(kind) = kind_of(missing.sort) else {
        return Ok(None);
    };
    let first = spot_of(typed, missing.first);
    let finding = match missing.second {
        Some(mark) => possible(alloc, kind, &[first, spot_of(typed, mark)])?,
        None => possible(alloc, kind, &[first])?,
    };
    Ok(Some(finding))
}

/// One more that is only possible, where it is not like one that is there, and there are not too many.
fn push_new(all: &mut Vec<Finding>, finding: Finding) -> Result<(), AllocError>
    requires { (finding_seen finding).schedule ≡ None }
    ensures { OnOk result ((t : TypedKernel) (c : code.Conditions) → AreTrue t c all.old.items → AreTrue t c all.new.items) }
{
    if all.len() >= MOST || all.iter().any(|other| other.is_like(&finding)) {
        return Ok(());
    }
    all.push(finding)?;
    Ok(())
}

/// The finding that a replay of the launch at the least values confirms, if there is such a launch and it shows one.
fn confirmed(
    alloc: Global,
    typed: &Typed,
    conditions: &Conditions,
) -> Result<Option<Finding>, AllocError>
    requires proper { is_proper (core_seen typed.now.1) ≡ true }
    requires of { IsOf (core_seen typed.now.1) (lined conditions.now) }
    ensures { IfOk result (λ found. IfSome found (λ f. IsTrue (kernel_seen typed.now) (conditions_seen conditions.now) (finding_seen f))) }
{
    a_least_launch_fits();
    let found = probe(alloc, conditions)?;
    match found {
        Some(launch) => confirm(alloc, typed, &launch),
        None => Ok(None),
    }
}

/// A list of the finding that a replay confirms, or an empty one.
fn replayed(
    alloc: Global,
    typed: &Typed,
    conditions: &Conditions,
) -> Result<Vec<Finding>, AllocError>
    requires proper { is_proper (core_seen typed.now.1) ≡ true }
    requires of { IsOf (core_seen typed.now.1) (lined conditions.now) }
    ensures { IfOk result (λ v. AreTrue typed.now conditions.now v.items) }
{
    let mut all = Vec::new(alloc);
    if let Some(finding) = confirmed(alloc, typed, conditions)? {
        all.push(finding)?;
    }
    Ok(all)
}

/// Adds the possible finding of an obligation that is not shown to the list.
fn push_suspect(
    alloc: Global,
    typed: &Typed,
    missing: Missing,
    all: &mut Vec<Finding>,
) -> Result<(), AllocError>
    ensures { OnOk result ((t : TypedKernel) (c : code.Conditions) → AreTrue t c all.old.items → AreTrue t c all.new.items) }
{
    match suspected(alloc, typed, missing)? {
        Some(finding) => push_new(all, finding),
        None => Ok(()),
    }
}

/// Adds the possible findings of all obligations that are not shown to the list, in their order.
fn push_suspects(
    alloc: Global,
    typed: &Typed,
    missing: &[Missing],
    all: &mut Vec<Finding>,
) -> Result<(), AllocError>
    ensures { OnOk result ((t : TypedKernel) (c : code.Conditions) → AreTrue t c all.old.items → AreTrue t c all.new.items) }
{
    for one in missing {
        push_suspect(alloc, typed, *one, all)?;
    }
    Ok(())
}

/// The findings of obligations that are not shown, at most 16, which are only possible.
pub fn suspects_of(
    alloc: Global,
    typed: &Typed,
    missing: &[Missing],
) -> Result<Vec<Finding>, AllocError> {
    let mut all = Vec::new(alloc);
    push_suspects(alloc, typed, missing, &mut all)?;
    Ok(all)
}

/// The findings of obligations that are not shown, at most 16: the one that a replay confirms first, in the place of its like, then those
/// that are only possible. An error is want of memory.
pub fn findings_of(
    alloc: Global,
    typed: &Typed,
    conditions: &Conditions,
    missing: &[Missing],
) -> Result<Vec<Finding>, AllocError>
    requires proper { is_proper (core_seen typed.now.1) ≡ true }
    requires of { IsOf (core_seen typed.now.1) (lined conditions.now) }
    ensures { IfOk result (λ v. AreTrue typed.now conditions.now v.items) }
{
    let mut all = replayed(alloc, typed, conditions)?;
    push_suspects(alloc, typed, missing, &mut all)?;
    Ok(all)
}
