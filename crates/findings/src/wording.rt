//! The lines of findings.

ghost use Rattle.std.specs.Prelude.{◌≡◌, ◌++◌, Some, map, IfOk, OnOk};
ghost use Rattle.std.specs.List.{slice_get};
ghost use Rattle.std.specs.String.{string_bytes};
ghost use Rattle.words.specs.View.{fault as fault_seen};
ghost use Rattle.core_code.specs.View.{site as site_seen};
ghost use Rattle.launch.specs.View.{counts as counts_seen};
ghost use Rattle.findings.specs.View.{kind as kind_seen, spot as spot_seen, work_item as work_item_seen, schedule, finding as finding_seen};
ghost use Rattle.findings.specs.Wording as text;

use crate::finding::{Finding, FindingKind, Grade, Spot, WorkItem};
use core_code::tree::Site;
use launch::launches::Counts;
use std::alloc::{AllocError, Global};
use words::Fault;

fn push_fault(out: &mut String, fault: Fault) -> Result<(), AllocError>
    ensures { OnOk result (string_bytes out.new ≡ string_bytes out.old ++ text.fault_text (fault_seen fault)) }
{
    match fault {
        Fault::DivisionByZero => out.push_str("fault F1"),
        Fault::Overflow => out.push_str("fault F2"),
        Fault::OutOfBounds => out.push_str("fault F3"),
    }
}

fn push_kind(out: &mut String, kind: FindingKind) -> Result<(), AllocError>
    ensures { OnOk result (string_bytes out.new ≡ string_bytes out.old ++ text.kind_text (kind_seen kind)) }
{
    match kind {
        FindingKind::Race => out.push_str("race"),
        FindingKind::Divergence => out.push_str("divergence"),
        FindingKind::Fault(fault) => push_fault(out, fault),
        FindingKind::Size => out.push_str("fault F4"),
        FindingKind::Bound => out.push_str("bound"),
        FindingKind::Values => out.push_str("values"),
    }
}

fn push_grade(out: &mut String, grade: &Grade) -> Result<(), AllocError>
    ensures { OnOk result (string_bytes out.new ≡ string_bytes out.old ++ text.grade_text (schedule grade.now)) }
{
    match grade {
        Grade::Possible => out.push_str(" possible"),
        Grade::Confirmed(_) => out.push_str(" confirmed"),
    }
}

fn push_site(out: &mut String, site: Site) -> Result<(), AllocError>
    ensures { OnOk result (string_bytes out.new ≡ string_bytes out.old ++ text.site_text (site_seen site)) }
{
    let line = site.line;
    let column = site.column;
    write!(out, "{line}:{column}")
}

fn push_spot(out: &mut String, spot: Spot) -> Result<(), AllocError>
    ensures { OnOk result (string_bytes out.new ≡ string_bytes out.old ++ text.spot_text (spot_seen spot)) }
{
    let (word, site) = match spot {
        Spot::Store(site) => ("store ", site),
        Spot::Load(site) => ("load ", site),
        Spot::Barrier(site) => ("barrier ", site),
        Spot::End => return out.push_str("end"),
        Spot::At(site) => ("", site),
    };
    out.push_str(word)?;
    push_site(out, site)
}

fn push_ids(out: &mut String, ids: Counts) -> Result<(), AllocError>
    ensures { OnOk result (string_bytes out.new ≡ string_bytes out.old ++ text.ids_text (counts_seen ids)) }
{
    let Counts { x, y, z } = ids;
    write!(out, "{x} {y} {z}")
}

/// Writes a work-item: the ids of its group and its local id.
fn push_item(out: &mut String, item: WorkItem) -> Result<(), AllocError>
    ensures { OnOk result (string_bytes out.new ≡ string_bytes out.old ++ text.item_text (Some (work_item_seen item))) }
{
    out.push_str(" by group ")?;
    push_ids(out, item.group)?;
    out.push_str(" local ")?;
    push_ids(out, item.local)
}

/// Writes the work-item that comes to the site of a number; nothing where that is not known.
#[tactic(auto, using(crate::proofs::Texts::seen_item, crate::proofs::Texts::no_item))]
fn push_item_at(out: &mut String, items: &[WorkItem], number: usize) -> Result<(), AllocError>
    ensures { OnOk result (string_bytes out.new ≡ string_bytes out.old ++ text.item_text (slice_get (map work_item_seen items.now) number)) }
{
    match items.get(number) {
        Some(item) => push_item(out, *item),
        None => Ok(()),
    }
}

fn push_separator(out: &mut String, number: usize) -> Result<(), AllocError>
    ensures { OnOk result (string_bytes out.new ≡ string_bytes out.old ++ text.separator number) }
{
    out.push_str(if number == 0 { ": " } else { ", " })
}

#[tactic(auto, using(crate::proofs::Texts::one_site, crate::proofs::Texts::no_site))]
fn push_sites(out: &mut String, sites: &[Spot], items: &[WorkItem]) -> Result<(), AllocError>
    ensures { OnOk result (string_bytes out.new ≡ string_bytes out.old ++ text.sites_text 0 (map spot_seen sites.now) (map work_item_seen items.now)) }
{
    for number in 0..sites.len() {
        push_separator(out, number)?;
        push_spot(out, sites[number])?;
        push_item_at(out, items, number)?;
    }
    Ok(())
}

/// The line of a finding.
pub fn line(alloc: Global, finding: &Finding) -> Result<String, AllocError>
    ensures { IfOk result (λ line. string_bytes line ≡ text.finding_text (finding_seen finding.now)) }
{
    let mut out = String::new(alloc);
    push_kind(&mut out, finding.kind)?;
    push_grade(&mut out, &finding.grade)?;
    push_sites(&mut out, &finding.sites, &finding.items)?;
    out.push_str("\n")?;
    Ok(out)
}
