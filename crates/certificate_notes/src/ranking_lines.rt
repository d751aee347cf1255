//! How loops end, in symbols.

ghost use Rattle.std.specs.Prelude.{◌≡◌, IfOk, map, Some};
ghost use Rattle.std.specs.Option.{option_map};
ghost use Rattle.linear.specs.Forms.{form as form_seen};
ghost use Rattle.certificate_text.specs.Rules.{all};
ghost use Rattle.certificate.specs.View as view;
ghost use Rattle.obligations.specs.View.{ranking};
ghost use Rattle.certificate_notes.specs.Noted as noted;
ghost use Rattle.certificate_notes.specs.View.{chart as chart_seen, scene as scene_seen};
ghost use Rattle.certificate_notes.specs.NotesView.{ranked as ranked_seen};

use crate::chart::Chart;
use crate::error::NamesError;
use crate::forms::fact;
use crate::scenes::Scene;
use crate::station::{in_test, loop_at};
use certificate::tree;
use certificate::tree::Descent;
use linear::Form;
use loop_bounds::{Bound, Least, LoopBound, Step};
use std::alloc::Global;

/// From where on a form doubles, where the number is one of a certificate's text, and above 0.
fn least_of(number: u64) -> Option<Least>
    ensures { option_map (λ l. l.number) result ≡ noted.least_of number }
{
    if number >= 1 << 63 {
        return None;
    }
    Least::new(number as i64)
}

/// The ranking of the loop of a number, by a form over the kernel's symbols; none where its numbers make no ranking.
fn ranked(number: u32, form: Form, descent: Descent, most: i64) -> Option<LoopBound>
    ensures { option_map ranked_seen result ≡ noted.ranked number (Some (form_seen form)) (noted.bound_of (view.descent descent) most) }
{
    match descent {
        Descent::Halve => Some(LoopBound {
            number,
            bound: Bound::Halving { form, most },
        }),
        Descent::Down(size) => {
            let Some(step) = Step::new(size) else {
                return None;
            };
            Some(LoopBound {
                number,
                bound: Bound::Down { form, step, most },
            })
        }
        Descent::Double(from) => {
            let Some(least) = least_of(from) else {
                return None;
            };
            Some(LoopBound {
                number,
                bound: Bound::Doubling { form, least, most },
            })
        }
    }
}

/// The ranking of a loop; none where the kernel lacks the loop or something that is named there.
fn ranked_of(
    alloc: Global,
    chart: &Chart<'_>,
    bound: &tree::Bound,
) -> Result<Option<LoopBound>, NamesError>
    ensures { IfOk result (λ r. option_map ranked_seen r ≡ noted.ranked_of (chart_seen chart.now) (view.bound bound.now)) }
{
    let Some(scene) = loop_at(chart.scenes.as_slice(), bound.number) else {
        return Ok(None);
    };
    let sight = in_test(scene);
    let Some(form) = fact(alloc, chart, &sight, &bound.form)? else {
        return Ok(None);
    };
    Ok(ranked(scene.number, form, bound.descent, bound.most))
}

#[tactic(auto, using(crate::proofs::Each::each_rows))]
/// The rankings of loops that a certificate says, in symbols; none where one names what the kernel lacks.
pub fn rankings_of(
    alloc: Global,
    chart: &Chart<'_>,
    bounds: &[tree::Bound],
) -> Result<Option<Vec<LoopBound>>, NamesError>
    ensures { IfOk result (λ r. option_map (λ v. map ranked_seen v.items) r ≡ noted.each (noted.ranked_of (chart_seen chart.now)) (map view.bound bounds.now)) }
{
    let mut rankings = Vec::new(alloc);
    for bound in bounds {
        let Some(one) = ranked_of(alloc, chart, bound)? else {
            return Ok(None);
        };
        rankings.push(one)?;
    }
    Ok(Some(rankings))
}

/// Some line is of the loop.
fn is_bounded(bounds: &[tree::Bound], number: u32) -> bool
    ensures { result ≡ noted.is_bounded (map view.bound bounds.now) number }
{
    for bound in bounds {
        if bound.number == number as u64 {
            return true;
        }
    }
    false
}

/// A scene is no loop, or a line of the certificate says how the loop ends.
fn has_line(bounds: &[tree::Bound], scene: &Scene<'_>) -> bool
    ensures { result ≡ noted.has_line (map view.bound bounds.now) (scene_seen scene.now) }
{
    !scene.is_loop || is_bounded(bounds, scene.number)
}

#[tactic(auto, using(certificate::proofs::Rows::all_rows))]
/// Each loop among the scenes has a line that says how it ends.
pub fn have_lines(bounds: &[tree::Bound], scenes: &[Scene<'_>]) -> bool
    ensures { result ≡ all (noted.has_line (map view.bound bounds.now)) (map scene_seen scenes.now) }
{
    for scene in scenes {
        if !has_line(bounds, scene) {
            return false;
        }
    }
    true
}
