//! The quotients that entries name, in symbols.

ghost use Rattle.std.specs.Prelude.{◌≡◌, IfOk, Option, List, map, cond, None};
ghost use Rattle.linear.specs.Forms.{form as form_seen};
ghost use Rattle.certificate_text.specs.Certificate as meant;
ghost use Rattle.certificate.specs.View as view;
ghost use Rattle.certificate_notes.specs.Noted as noted;
ghost use Rattle.certificate_notes.specs.View.{chart as chart_seen, scene as scene_seen, sight as sight_seen, named};
ghost use Rattle.certificate_notes.specs.NamesView.{names as names_seen};
ghost use Rattle.certificate_notes.specs.NotesView.{quoted as quoted_seen};
ghost use Rattle.certificate_notes.specs.Behind.{after};

use crate::chart::Chart;
use crate::error::NamesError;
use crate::forms::fact;
use crate::names::Names;
use crate::scenes::Scene;
use crate::sight::Sight;
use certificate::tree;
use certificate::tree::{Entry, EntrySort};
use obligations::Quotient;
use std::alloc::Global;

/// The numbers of the loops.
pub fn loops_among(alloc: Global, scenes: &[Scene<'_>]) -> Result<Vec<u32>, NamesError>
    ensures { IfOk result (λ v. v.items ≡ noted.loops_among (map scene_seen scenes.now)) }
{
    let mut loops = Vec::new(alloc);
    for scene in scenes {
        if scene.is_loop {
            loops.push(scene.number)?;
        }
    }
    Ok(loops)
}

/// Adds the quotient that is named for a claim; false where it names what the kernel lacks.
fn push_quoted(
    alloc: Global,
    chart: &Chart<'_>,
    sight: &Sight<'_>,
    claim: u64,
    form: &tree::Form,
    quotients: &mut Vec<Quotient>,
) -> Result<bool, NamesError>
    requires { sight_seen sight.now ≡ noted.anywhere (chart_seen chart.now) }
    ensures { IfOk result (λ b. (rest : Option (List noted.Quoted)) → cond b (after (map quoted_seen quotients.new.items) rest) None ≡ after (map quoted_seen quotients.old.items) (noted.quoted_first (chart_seen chart.now) claim (meant.Quotient (view.form form.now)) rest)) }
{
    if claim >= 4_294_967_296 {
        return Ok(false);
    }
    let Some(form) = fact(alloc, chart, sight, form)? else {
        return Ok(false);
    };
    quotients.push(Quotient {
        claim: claim as u32,
        form,
    })?;
    Ok(true)
}

/// Adds the quotient that an entry names, if it names one; false where that names what the kernel lacks.
fn push_first(
    alloc: Global,
    chart: &Chart<'_>,
    sight: &Sight<'_>,
    entry: &Entry,
    quotients: &mut Vec<Quotient>,
) -> Result<bool, NamesError>
    requires { sight_seen sight.now ≡ noted.anywhere (chart_seen chart.now) }
    ensures { IfOk result (λ b. (rest : Option (List noted.Quoted)) → cond b (after (map quoted_seen quotients.new.items) rest) None ≡ after (map quoted_seen quotients.old.items) (noted.quoted_first (chart_seen chart.now) entry.now.obligation (view.sort entry.now.sort) rest)) }
{
    match &entry.sort {
        EntrySort::Show | EntrySort::Positive | EntrySort::Negative => Ok(true),
        EntrySort::Quotient(form) => {
            push_quoted(alloc, chart, sight, entry.obligation, form, quotients)
        }
    }
}

/// Adds the quotient that an entry names, if it names one; false where that names what the kernel lacks.
pub fn push_quotient(
    alloc: Global,
    names: &Names<'_>,
    entry: &Entry,
    quotients: &mut Vec<Quotient>,
) -> Result<bool, NamesError>
    ensures { IfOk result (λ b. (rest : Option (List noted.Quoted)) → cond b (after (map quoted_seen quotients.new.items) rest) None ≡ after (map quoted_seen quotients.old.items) (noted.quoted_first (names_seen names.now) entry.now.obligation (view.sort entry.now.sort) rest)) }
{
    let all = names.chart.names.as_slice();
    let sight = Sight {
        here: all,
        before: all,
        around: names.loops.as_slice(),
        has_new: true,
        has_second: false,
    };
    push_first(alloc, &names.chart, &sight, entry, quotients)
}
