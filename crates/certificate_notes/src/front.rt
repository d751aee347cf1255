//! What a certificate says before its entries, as notes.

ghost use Rattle.std.specs.Prelude.{◌≡◌, IfOk, map};
ghost use Rattle.std.specs.Option.{option_map};
ghost use Rattle.certificate.specs.View as view;
ghost use Rattle.places.specs.View.{place as place_seen};
ghost use Rattle.certificate_notes.specs.Noted as noted;
ghost use Rattle.certificate_notes.specs.Gathered.{front as front_seen};
ghost use Rattle.certificate_notes.specs.View.{chart as chart_seen};
ghost use Rattle.certificate_notes.specs.NamesView.{names as names_seen};
ghost use Rattle.certificate_notes.specs.NotesView.{lines as lines_seen, notes as notes_seen};

use crate::chart::Chart;
use crate::error::NamesError;
use crate::names::Names;
use crate::place_lines::lines_of;
use crate::ranking_lines::{have_lines, rankings_of};
use crate::visible::visible_in;
use certificate::tree;
use obligations::{Lines, Notes};
use places::Place;
use std::alloc::Global;

/// The front of a certificate, which stands before its entries: whether it is wide, whether the walk joins ways, its
/// notes on places, and the rankings of loops.
#[derive(Clone, Copy)]
pub struct Front<'a> {
    pub is_wide: bool,
    pub joins: bool,
    pub places: &'a [tree::Place],
    pub bounds: &'a [tree::Bound],
}

#[tactic(auto, using(crate::proofs::Each::each_rows))]
/// The notes of all places of which a certificate says something; none where it names what the kernel lacks.
fn all_lines(
    alloc: Global,
    chart: &Chart<'_>,
    places: &[Place<'_>],
    said: &[tree::Place],
) -> Result<Option<Vec<Lines>>, NamesError>
    ensures { IfOk result (λ r. option_map (λ v. map lines_seen v.items) r ≡ noted.each (noted.lines_of (chart_seen chart.now) (map place_seen places.now)) (map view.place said.now)) }
{
    let mut lines = Vec::new(alloc);
    for place in said {
        let Some(one) = lines_of(alloc, chart, places, place)? else {
            return Ok(None);
        };
        lines.push(one)?;
    }
    Ok(Some(lines))
}

/// The notes of what stands before the entries; none where a loop lacks its line, or the kernel lacks what a line names.
pub fn noted_before(
    alloc: Global,
    names: &Names<'_>,
    kernel_places: &[Place<'_>],
    front: &Front<'_>,
) -> Result<Option<Notes>, NamesError>
    ensures { IfOk result (λ r. option_map notes_seen r ≡ noted.noted_by (names_seen names.now) (map place_seen kernel_places.now) (front_seen front.now)) }
{
    let chart = &names.chart;
    if !have_lines(front.bounds, chart.scenes.as_slice()) {
        return Ok(None);
    }
    let Some(places) = all_lines(alloc, chart, kernel_places, front.places)? else {
        return Ok(None);
    };
    let Some(rankings) = rankings_of(alloc, chart, front.bounds)? else {
        return Ok(None);
    };
    let visible = visible_in(alloc, chart)?;
    Ok(Some(Notes {
        is_wide: front.is_wide,
        joins: front.joins,
        places,
        rankings,
        visible,
        quotients: Vec::new(alloc),
    }))
}
