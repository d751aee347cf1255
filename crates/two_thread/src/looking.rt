//! Accesses by their numbers.

ghost use Rattle.std.specs.Prelude.{◌≡◌, ◌<◌, ◌++◌, MatchResult, length};
ghost use Rattle.linear.specs.Forms.{form as form_seen, forms};
ghost use Rattle.facts.specs.Refusals.{IsMemory};
ghost use Rattle.path_steps.specs.View.{target as target_seen, held_seen};
ghost use Rattle.two_thread.specs.View.{met_access, IsPlaceOf};

use crate::met::Met;
use crate::on_path::OnPath;
use crate::two::Here;
use facts::{WalkError, copy_all};
use linear::Form;
use path_steps::Target;
use std::alloc::Global;

/// The path on which an access stands, and its number there, by its number among all accesses.
pub fn place_of<D: Copy>(met: &Met<D>, i: usize) -> OnPath
    requires { i < length met.now.accesses.items }
    ensures { IsPlaceOf met.now i result }
{
    met.accesses[i]
}

/// The target of an access, by its number: a store or a load, the array, and the source place.
pub fn target_of<D: Copy>(met: &Met<D>, i: usize) -> Target
    requires { i < length met.now.accesses.items }
    ensures { target_seen result ≡ (met_access met.now i).it.target }
{
    let place = place_of(met, i);
    let tagged = &met.paths[place.path];
    tagged.path.accesses[place.item].target
}

/// The anchor of the place at which an access's path begins; none for the entry.
pub fn anchor_of<D: Copy>(met: &Met<D>, i: usize) -> Option<u32>
    requires { i < length met.now.accesses.items }
    ensures { result ≡ (met_access met.now i).anchor }
{
    let place = place_of(met, i);
    met.paths[place.path].anchor
}

/// The path of an access begins at a loop's head.
pub fn is_of_head<D: Copy>(met: &Met<D>, i: usize) -> bool
    requires { i < length met.now.accesses.items }
    ensures { result ≡ (met_access met.now i).is_head }
{
    let place = place_of(met, i);
    met.paths[place.path].is_head
}

/// The index of an access, by its number, as a form over the symbols of its path.
pub fn index_of<D: Copy>(met: &Met<D>, i: usize) -> &Form
    requires { i < length met.now.accesses.items }
    ensures { form_seen result.now ≡ (met_access met.now i).it.index }
{
    let place = place_of(met, i);
    let tagged = &met.paths[place.path];
    &tagged.path.accesses[place.item].index
}

/// Adds the facts that an access's path has found before it.
pub fn facts_before<D: Copy>(
    alloc: Global,
    facts: &mut Vec<Form>,
    met: &Met<D>,
    i: usize,
) -> Result<(), WalkError>
    requires { i < length met.now.accesses.items }
    ensures { MatchResult result (λ _. forms facts.new.items ≡ forms facts.old.items ++ (met_access met.now i).it.facts) IsMemory }
{
    let place = place_of(met, i);
    let tagged = &met.paths[place.path];
    let count = tagged.path.accesses[place.item].facts;
    copy_all(alloc, facts, &tagged.path.facts[..count])?;
    Ok(())
}

/// The symbols that the path of an access has invented and narrowed before it, with what the domain knows of them.
pub fn held_before<D: Copy>(met: &Met<D>, i: usize) -> Here<'_, D>
    requires { i < length met.now.accesses.items }
    ensures { held_seen result.news.now result.narrowed.now ≡ (met_access met.now i).it.held }
{
    let place = place_of(met, i);
    let tagged = &met.paths[place.path];
    let access = &tagged.path.accesses[place.item];
    Here {
        news: &tagged.path.news[..access.news],
        narrowed: &tagged.path.narrowed[..access.narrowed],
    }
}
