//! What the ends of a walk's paths tell.

ghost use Rattle.std.specs.Prelude.{◌≡◌, true};
ghost use Rattle.core_code.specs.View.{kernel as core_seen};
ghost use Rattle.facts.specs.Launching.{are_sizes};

use crate::sights::is_place;
use crate::subject::Subject;
use crate::walking::Walked;
use arrival_claims::Placing;
use domain::Elements;
use facts::{WalkError, copy_all};
use guesses::{Leaf, Sight, at_anchor, copied, one_of, turns};
use linear::Form;
use obligations::Notes;
use path_steps::{Arrived, Choice, Path, Ranked, Stop, Value};
use path_walk::root_of;
use std::alloc::{AllocError, Global};
use two_thread::Tagged;
use walk::{FindError, setting_of};

/// The beginning of a place's paths: how many facts are known there, and the variables' values.
#[derive(Drop)]
pub struct Begun {
    pub facts: usize,
    pub variables: Vec<Form>,
}

fn forms_of(alloc: Global, values: &[Value]) -> Result<Vec<Form>, AllocError> {
    let mut forms = Vec::new(alloc);
    for value in values {
        let form = copied(alloc, &value.form)?;
        forms.push(form)?;
    }
    Ok(forms)
}

/// The facts and the variables with which the paths of one place begin.
fn one_begun(placing: &Placing<'_, Elements>) -> Result<Begun, WalkError>
    requires { are_sizes (core_seen placing.now.core.now).sizes ≡ true }
{
    let alloc = placing.setting.alloc;
    let root = root_of(placing, 0, Vec::new(alloc))?;
    let variables = forms_of(alloc, root.variables.as_slice())?;
    Ok(Begun {
        facts: root.facts.len(),
        variables,
    })
}

/// The facts and the variables with which the paths of each place begin, in the order of the places.
pub fn begun_of(
    alloc: Global,
    subject: &Subject<'_>,
    notes: &Notes,
    sights: &[Sight],
) -> Result<Vec<Begun>, FindError> {
    let core = subject.typed.core();
    let setting = setting_of::<Elements>(
        alloc,
        notes.is_wide,
        notes.joins,
        core,
        subject.conditions,
        Vec::new(alloc),
    )?;
    let mut all = Vec::new(alloc);
    for sight in sights {
        let placing = Placing {
            setting: &setting,
            core,
            notes,
            anchor: sight.anchor,
            head: sight.head,
        };
        let one = one_begun(&placing)?;
        all.push(one)?;
    }
    Ok(all)
}

/// The first path of a place takes the first way at each fork.
fn is_first(path: &Path<Elements>) -> bool {
    for choice in path.taken.as_slice() {
        match choice {
            Choice::First => {}
            Choice::Other(_) => return false,
        }
    }
    true
}

/// The number of the place at which each path begins.
pub fn places_of_paths(
    alloc: Global,
    paths: &[Tagged<Elements>],
) -> Result<Vec<usize>, AllocError> {
    let mut places = Vec::new(alloc);
    let mut begun: usize = 0;
    for tagged in paths {
        if is_first(&tagged.path) {
            begun = begun.saturating_add(1);
        }
        places.push(begun.saturating_sub(1))?;
    }
    Ok(places)
}

/// The place of a barrier or a loop's head that a path comes to; none at an item's end.
pub fn reached(stop: Stop, anchor: Option<u32>, sights: &[Sight]) -> Option<usize> {
    let (anchor, head) = match stop {
        Stop::Barrier(number) => (Some(number), None),
        Stop::Head { number, .. } => (anchor, Some(number)),
        Stop::End => return None,
    };
    sights
        .iter()
        .position(|sight| is_place(sight, anchor, head))
}

/// The value at the anchor of a slot.
fn value_at_anchor(
    alloc: Global,
    from: &Sight,
    begun: &Begun,
    slot: u32,
) -> Result<Form, AllocError> {
    if from.head.is_none() {
        if let Some(form) = begun.variables.get(slot as usize) {
            return copied(alloc, form);
        }
    }
    one_of(alloc, at_anchor(slot))
}

/// The values at the anchor of the slots that the place reached knows there.
fn anchored_of(
    alloc: Global,
    from: &Sight,
    begun: &Begun,
    to: &Sight,
) -> Result<Vec<(u32, Form)>, AllocError> {
    let mut anchored = Vec::new(alloc);
    for slot in to.before.as_slice() {
        let form = value_at_anchor(alloc, from, begun, *slot)?;
        anchored.push((*slot, form))?;
    }
    Ok(anchored)
}

/// The value of a loop's ranking when its test was last true, on the path or before it; none where the loop is around neither.
fn rank_of(
    alloc: Global,
    ranks: &[Ranked],
    from: &Sight,
    number: u32,
) -> Result<Option<Form>, AllocError> {
    let mut at = ranks.len();
    for _ in 0..ranks.len() {
        at = at.saturating_sub(1);
        let Some(ranked) = ranks.get(at) else {
            continue;
        };
        if ranked.number == number {
            return Ok(Some(copied(alloc, &ranked.form)?));
        }
    }
    if from.loops.as_slice().contains(&number) {
        return Ok(Some(one_of(alloc, turns(number))?));
    }
    Ok(None)
}

/// The values of the rankings of the loops around the place reached when their tests were last true, with the loops' numbers.
fn ranks_of(
    alloc: Global,
    ranks: &[Ranked],
    from: &Sight,
    to: &Sight,
) -> Result<Vec<(u32, Form)>, AllocError> {
    let mut found = Vec::new(alloc);
    for number in to.loops.as_slice() {
        if let Some(form) = rank_of(alloc, ranks, from, *number)? {
            found.push((*number, form))?;
        }
    }
    Ok(found)
}

/// The places, by their numbers, from which a path comes and which it reaches, with what is known where it begins.
#[derive(Clone, Copy)]
struct Way<'a> {
    from: usize,
    to: usize,
    sights: &'a [Sight],
    begun: &'a Begun,
}

/// The end of a path as guesses see it; none where its places are not of the kernel.
fn leaf_of(
    alloc: Global,
    path: &Path<Elements>,
    end: &Arrived,
    way: Way<'_>,
) -> Result<Option<Leaf>, WalkError> {
    let (Some(from), Some(to)) = (way.sights.get(way.from), way.sights.get(way.to)) else {
        return Ok(None);
    };
    let mut facts = Vec::new(alloc);
    let count = end.facts.min(path.facts.len());
    copy_all(alloc, &mut facts, &path.facts[..count])?;
    let variables = forms_of(alloc, end.variables.as_slice())?;
    let anchored = anchored_of(alloc, from, way.begun, to)?;
    let ranks = ranks_of(alloc, path.ranks.as_slice(), from, to)?;
    Ok(Some(Leaf {
        from: way.from,
        to: way.to,
        facts,
        begun: way.begun.facts,
        variables,
        anchored,
        ranks,
    }))
}

/// Adds the ends of one path that come to a place.
fn push_leaves(
    alloc: Global,
    leaves: &mut Vec<Leaf>,
    tagged: &Tagged<Elements>,
    from: usize,
    sights: &[Sight],
    begun: &Begun,
) -> Result<(), WalkError> {
    for end in tagged.path.ends.as_slice() {
        let Some(to) = reached(end.stop, tagged.anchor, sights) else {
            continue;
        };
        let way = Way {
            from,
            to,
            sights,
            begun,
        };
        if let Some(leaf) = leaf_of(alloc, &tagged.path, end, way)? {
            leaves.push(leaf)?;
        }
    }
    Ok(())
}

/// The ends of all paths at barriers and heads.
pub fn leaves_of(
    alloc: Global,
    walked: &Walked,
    sights: &[Sight],
    begun: &[Begun],
) -> Result<Vec<Leaf>, FindError> {
    let paths = walked.found.paths();
    let places = places_of_paths(alloc, paths)?;
    let mut leaves = Vec::new(alloc);
    for i in 0..paths.len() {
        let from = places.get(i).copied().unwrap_or(0);
        let Some(start) = begun.get(from) else {
            continue;
        };
        push_leaves(alloc, &mut leaves, &paths[i], from, sights, start)?;
    }
    Ok(leaves)
}
