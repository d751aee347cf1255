//! How each loop may end, and which way is tried.

use certificate::tree::Descent;
use guesses::{Ranking, copied};
use linear::Form;
use solo_runs::Observed;
use std::alloc::{AllocError, Global};
use text_guesses::Options;

/// A copy of a ranking.
fn again(alloc: Global, ranking: &Ranking) -> Result<Ranking, AllocError> {
    let form = copied(alloc, &ranking.form)?;
    Ok(Ranking {
        number: ranking.number,
        descent: ranking.descent,
        form,
    })
}

/// No ranking at all: nothing shows it of a loop that turns.
fn none(alloc: Global, number: u32) -> Ranking {
    Ranking {
        number,
        descent: Descent::Down(1),
        form: Form::constant(alloc, 0),
    }
}

/// The ranking of each loop that is chosen among its options; one that shows nothing where a loop has none.
pub fn chosen(
    alloc: Global,
    options: &[Options],
    choices: &[usize],
) -> Result<Vec<Ranking>, AllocError> {
    let mut rankings = Vec::new(alloc);
    for i in 0..options.len() {
        let choice = choices.get(i).copied().unwrap_or(0);
        let ranking = match options[i].rankings.get(choice) {
            Some(ranking) => again(alloc, ranking)?,
            None => none(alloc, options[i].number),
        };
        rankings.push(ranking)?;
    }
    Ok(rankings)
}

/// The rankings of one loop that no run refutes.
fn standing(
    alloc: Global,
    options: &Options,
    observed: &Observed,
) -> Result<Vec<Ranking>, AllocError> {
    let mut kept = Vec::new(alloc);
    for ranking in options.rankings.as_slice() {
        if !observed.refutes_ranking(ranking) {
            kept.push(again(alloc, ranking)?)?;
        }
    }
    Ok(kept)
}

/// The rankings of one loop that no run refutes; the first one where all are.
fn unrefuted(alloc: Global, options: Options, observed: &Observed) -> Result<Options, AllocError> {
    let mut kept = standing(alloc, &options, observed)?;
    if kept.is_empty() {
        if let Some(first) = options.rankings.first() {
            kept.push(again(alloc, first)?)?;
        }
    }
    Ok(Options {
        number: options.number,
        rankings: kept,
    })
}

/// The options of each loop without the rankings that a run refutes, even where it refutes all.
pub fn all_standing(
    alloc: Global,
    options: &[Options],
    observed: &Observed,
) -> Result<Vec<Options>, AllocError> {
    let mut all = Vec::new(alloc);
    for one in options {
        all.push(Options {
            number: one.number,
            rankings: standing(alloc, one, observed)?,
        })?;
    }
    Ok(all)
}

/// The options of each loop without the rankings that a run refutes.
pub fn all_unrefuted(
    alloc: Global,
    options: Vec<Options>,
    observed: &Observed,
) -> Result<Vec<Options>, AllocError> {
    let mut kept = Vec::new(alloc);
    for one in options {
        let one = unrefuted(alloc, one, observed)?;
        kept.push(one)?;
    }
    Ok(kept)
}

/// Copies of rankings behind others.
fn push_again(alloc: Global, all: &mut Vec<Ranking>, more: &[Ranking]) -> Result<(), AllocError> {
    for ranking in more {
        all.push(again(alloc, ranking)?)?;
    }
    Ok(())
}

/// The rankings of each loop that are tried last, and behind them the others.
pub fn last_tried(
    alloc: Global,
    last: &[Options],
    options: &[Options],
) -> Result<Vec<Options>, AllocError> {
    let mut all = Vec::new(alloc);
    for one in options {
        let mut rankings = Vec::new(alloc);
        if let Some(first) = last.iter().find(|other| other.number == one.number) {
            push_again(alloc, &mut rankings, first.rankings.as_slice())?;
        }
        push_again(alloc, &mut rankings, one.rankings.as_slice())?;
        all.push(Options {
            number: one.number,
            rankings,
        })?;
    }
    Ok(all)
}

/// Runs refute each ranking of a loop that has some.
fn are_refuted(options: &Options, observed: &Observed) -> bool {
    !options.rankings.as_slice().is_empty()
        && options
            .rankings
            .iter()
            .all(|ranking| observed.refutes_ranking(ranking))
}

/// Runs refute all rankings of some loop that has rankings.
pub fn is_hopeless(options: &[Options], observed: &Observed) -> bool {
    options.iter().any(|one| are_refuted(one, observed))
}

/// The next choices, of the loops whose rankings were not shown; whether there are any.
pub fn advance(options: &[Options], choices: &mut [usize], loops: &[u32]) -> bool {
    let mut moved = false;
    for i in 0..options.len() {
        if !loops.contains(&options[i].number) {
            continue;
        }
        if let Some(choice) = choices.get_mut(i) {
            let next = choice.saturating_add(1);
            if next < options[i].rankings.len() {
                *choice = next;
                moved = true;
            }
        }
    }
    moved
}
