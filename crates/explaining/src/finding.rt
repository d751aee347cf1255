//! One finding, told.

ghost use Rattle.std.specs.Prelude.{◌≡◌, true};
ghost use Rattle.core_code.specs.View.{kernel as core_seen};
ghost use Rattle.work_item.specs.Proper.{is_proper};
ghost use Rattle.launch_text.specs.Fits.{IsOf};
ghost use Rattle.launch_text.specs.View.{lined};

use crate::causes::site_of;
use crate::paragraph::push_paragraph;
use crate::scene::push_scene;
use crate::source::{push_label, push_site};
use crate::titles::{confirmed, label, meant, possible};
use findings::{Finding, Grade, Spot};
use kernel_reading::Source;
use launch::conditions::Conditions;
use launch::probe::probe;
use launch_text::laws::a_least_launch_fits;
use launch_text::read_conditions_as;
use machine::world::Event;
use shown_kernels::kernel::read_proper_kernel;
use std::alloc::{AllocError, Global};
use typed_kernels::Typed;

/// The text of a kernel, the devices that it is read for, and the text of its conditions.
#[derive(Clone, Copy)]
pub struct Subject<'a> {
    pub source: Source<'a>,
    pub conditions: &'a [u8],
}

/// The number and the title of a finding.
fn push_title(
    alloc: Global,
    number: usize,
    finding: &Finding,
    out: &mut String,
) -> Result<(), AllocError> {
    let meant = meant(finding.kind);
    let text = match finding.grade {
        Grade::Possible => {
            let name = possible(finding.kind);
            format!(in alloc; "{number}. Possible {name}: {meant}")?
        }
        Grade::Confirmed(_) => {
            let name = confirmed(finding.kind);
            format!(in alloc; "{number}. {name}, confirmed by a replay: {meant}")?
        }
    };
    push_paragraph(out, "", &text)
}

/// The line of a site that another one has, too, is shown once.
fn line_of(finding: &Finding, number: usize) -> Option<u32> {
    match site_of(*finding.sites.get(number)?) {
        Some(site) => Some(site.line),
        None => None,
    }
}

/// Writes a site of a finding with its line of the source, and which work-item comes there.
fn push_spot(
    alloc: Global,
    kernel: &[u8],
    finding: &Finding,
    number: usize,
    spot: Spot,
    out: &mut String,
) -> Result<(), AllocError> {
    let label = label(alloc, finding.kind, spot, finding.items.get(number))?;
    match site_of(spot) {
        Some(site) => {
            let is_shown = number > 0 && line_of(finding, number - 1) == Some(site.line);
            push_site(alloc, out, kernel, site, is_shown, &label)
        }
        None => push_label(out, &label),
    }
}

/// Writes the sites of a finding, each with its line of the source.
fn push_spots(
    alloc: Global,
    kernel: &[u8],
    finding: &Finding,
    out: &mut String,
) -> Result<(), AllocError> {
    for (number, spot) in finding.sites.iter().enumerate() {
        push_spot(alloc, kernel, finding, number, *spot, out)?;
    }
    Ok(())
}

/// Writes what a replay of the launch at the least values shows of a finding; nothing where the conditions have no such launch.
fn push_replay(
    alloc: Global,
    typed: &Typed,
    conditions: &Conditions,
    finding: &Finding,
    events: &[Event],
    out: &mut String,
) -> Result<(), AllocError>
    requires proper { is_proper (core_seen typed.now.1) ≡ true }
    requires of { IsOf (core_seen typed.now.1) (lined conditions.now) }
{
    a_least_launch_fits();
    let found = probe(alloc, conditions)?;
    match found {
        Some(launch) => push_scene(alloc, typed, &launch, finding, events, out),
        None => Ok(()),
    }
}

/// Writes what the replay of a finding shows, with the conditions given as a text.
fn push_under(
    alloc: Global,
    typed: &Typed,
    conditions: &[u8],
    finding: &Finding,
    events: &[Event],
    out: &mut String,
) -> Result<(), AllocError>
    requires { is_proper (core_seen typed.now.1) ≡ true }
{
    match read_conditions_as(alloc, typed, conditions, true) {
        Ok(conditions) => push_replay(alloc, typed, &conditions, finding, events, out),
        Err(_) => Err(AllocError),
    }
}

/// Writes what the replay of a finding shows, with the kernel and the conditions given as texts.
fn push_replayed(
    alloc: Global,
    subject: Subject,
    finding: &Finding,
    events: &[Event],
    out: &mut String,
) -> Result<(), AllocError> {
    match read_proper_kernel(alloc, subject.source) {
        Ok(typed) => push_under(alloc, &typed, subject.conditions, finding, events, out),
        Err(_) => Err(AllocError),
    }
}

/// Writes a finding behind an empty line: its title, its sites in the source, and, where it is confirmed, its replay.
pub fn push_finding(
    alloc: Global,
    subject: Subject,
    number: usize,
    finding: &Finding,
    out: &mut String,
) -> Result<(), AllocError> {
    out.push_str("\n")?;
    push_title(alloc, number, finding, out)?;
    push_spots(alloc, subject.source.bytes, finding, out)?;
    match &finding.grade {
        Grade::Confirmed(events) => {
            push_replayed(alloc, subject, finding, events.as_slice(), out)
        }
        Grade::Possible => Ok(()),
    }
}
