//! What lines of the conditions say that buffers hold: facts of a loaded value, and what is owed of a stored one.

ghost use Rattle.std.specs.Prelude.{◌≡◌, true, map, nat_eq, MatchResult};
ghost use Rattle.linear.specs.Forms.{form as form_seen};
ghost use Rattle.words.specs.View.{kind as kind_seen};
ghost use Rattle.core_code.specs.View.{array as array_seen, site as site_seen};
ghost use Rattle.facts.specs.Refusals.{IsUnfit};
ghost use Rattle.facts.specs.View.{buffer_bound as bound_seen};
ghost use Rattle.walk_trees.specs.Bits.{tell_where};
ghost use Rattle.walk_trees.specs.Contents as contents;
ghost use Rattle.walk_trees.specs.Terms as terms;
ghost use Rattle.walk_trees.specs.Walks as walks;
ghost use Rattle.path_steps.specs.Lines.{claim_where, keep};
ghost use Rattle.path_steps.specs.Leads.{Steps};
ghost use Rattle.path_steps.specs.Refusals.{StopsAtStep};
ghost use Rattle.path_steps.specs.View.{followed, setting as seen, value as value_seen};

use crate::path::{Path, Sort, Value};
use crate::ranges::{brought, claim_form};
use crate::setting::Setting;
use crate::telling::tell;
use crate::tests::difference;
use core_code::tree::{Array, Site, Space};
use domain::Domain;
use facts::{BufferBound, WalkError};
use linear::Form;
use std::alloc::Global;
use words::Kind;

/// A line is of a buffer.
fn is_of(bound: &BufferBound, buffer: u32) -> bool
    ensures { result ≡ nat_eq (bound_seen bound.now).buffer buffer }
{
    bound.buffer == buffer
}

/// The fact that a line gives of a number that its buffer holds; where its sum has no form, a fact that says nothing.
fn content_fact(alloc: Global, bound: &BufferBound, form: &Form) -> Result<Form, WalkError>
    ensures { MatchResult result (λ f. form_seen f ≡ contents.content_fact (bound_seen bound.now) (form_seen form.now)) (λ e. IsUnfit e (contents.content_fact (bound_seen bound.now) (form_seen form.now))) }
{
    match &bound.sum {
        Some(sum) => {
            if bound.is_upper {
                difference(alloc, sum, form)
            } else {
                difference(alloc, form, sum)
            }
        }
        None => Ok(Form::constant(alloc, 0)),
    }
}

/// The obligation of a number that is stored; where the line's sum has no form, one that never holds.
fn content_owed(alloc: Global, bound: &BufferBound, form: &Form) -> Result<Form, WalkError>
    ensures { MatchResult result (λ f. form_seen f ≡ contents.content_owed (bound_seen bound.now).is_upper (bound_seen bound.now).sum (form_seen form.now)) (λ e. IsUnfit e (contents.content_owed (bound_seen bound.now).is_upper (bound_seen bound.now).sum (form_seen form.now))) }
{
    match &bound.sum {
        Some(sum) => {
            if bound.is_upper {
                difference(alloc, sum, form)
            } else {
                difference(alloc, form, sum)
            }
        }
        None => Ok(Form::constant(alloc, -1)),
    }
}

/// Adds the fact that a line gives of a number, where the line is of its buffer. It narrows.
fn know_content<D: Domain>(
    setting: &Setting<D>,
    path: &mut Path<D>,
    buffer: u32,
    bound: &BufferBound,
    form: &Form,
) -> Result<(), WalkError>
    ensures { MatchResult result (λ _. Steps (followed path.old) (followed path.new) (tell_where (seen D.Domain setting.now) (nat_eq (bound_seen bound.now).buffer buffer) (contents.content_fact (bound_seen bound.now) (form_seen form.now)))) (λ e. StopsAtStep (followed path.old) e (tell_where (seen D.Domain setting.now) (nat_eq (bound_seen bound.now).buffer buffer) (contents.content_fact (bound_seen bound.now) (form_seen form.now)))) }
{
    if !is_of(bound, buffer) {
        return Ok(());
    }
    let fact = content_fact(setting.alloc, bound, form)?;
    tell(setting, path, fact)
}

/// Adds the facts that the lines of a buffer give of a number that it holds, one after another.
fn know_of_buffer<D: Domain>(
    setting: &Setting<D>,
    path: &mut Path<D>,
    buffer: u32,
    form: &Form,
) -> Result<(), WalkError>
    ensures { MatchResult result (λ _. Steps (followed path.old) (followed path.new) (contents.know_contents (seen D.Domain setting.now) (contents.of_buffer buffer (seen D.Domain setting.now).contents) (form_seen form.now))) (λ e. StopsAtStep (followed path.old) e (contents.know_contents (seen D.Domain setting.now) (contents.of_buffer buffer (seen D.Domain setting.now).contents) (form_seen form.now))) }
{
    for bound in setting.contents.as_slice() {
        know_content(setting, path, buffer, bound, form)?;
    }
    Ok(())
}

/// Adds the facts that the lines of an array give of a number that it holds, one after another; of a local array there
/// are none.
pub fn know_contents<D: Domain>(
    setting: &Setting<D>,
    path: &mut Path<D>,
    array: Array,
    form: &Form,
) -> Result<(), WalkError>
    ensures { MatchResult result (λ _. Steps (followed path.old) (followed path.new) (contents.know_contents (seen D.Domain setting.now) (contents.contents_of (seen D.Domain setting.now) (array_seen array)) (form_seen form.now))) (λ e. StopsAtStep (followed path.old) e (contents.know_contents (seen D.Domain setting.now) (contents.contents_of (seen D.Domain setting.now) (array_seen array)) (form_seen form.now))) }
{
    match array.space {
        Space::Global => know_of_buffer(setting, path, array.number, form),
        Space::Local => Ok(()),
    }
}

/// A claim of what a line owes of a number that is stored, where the line is of its buffer.
fn claim_content<D: Domain>(
    setting: &Setting<D>,
    path: &mut Path<D>,
    buffer: u32,
    bound: &BufferBound,
    form: &Form,
) -> Result<(), WalkError>
    ensures { MatchResult result (λ _. Steps (followed path.old) (followed path.new) (claim_where (seen D.Domain setting.now) (nat_eq (bound_seen bound.now).buffer buffer) (bound_seen bound.now) (form_seen form.now))) (λ e. StopsAtStep (followed path.old) e (claim_where (seen D.Domain setting.now) (nat_eq (bound_seen bound.now).buffer buffer) (bound_seen bound.now) (form_seen form.now))) }
{
    if !is_of(bound, buffer) {
        return Ok(());
    }
    let owed = content_owed(setting.alloc, bound, form)?;
    claim_form(setting, path, Sort::OfContent, true, owed)
}

/// Claims of what the lines of a buffer owe of a number that is stored, one after another.
fn claim_contents<D: Domain>(
    setting: &Setting<D>,
    path: &mut Path<D>,
    buffer: u32,
    form: &Form,
) -> Result<(), WalkError>
    ensures { MatchResult result (λ _. Steps (followed path.old) (followed path.new) (contents.claim_contents (seen D.Domain setting.now) (contents.of_buffer buffer (seen D.Domain setting.now).contents) (form_seen form.now))) (λ e. StopsAtStep (followed path.old) e (contents.claim_contents (seen D.Domain setting.now) (contents.of_buffer buffer (seen D.Domain setting.now).contents) (form_seen form.now))) }
{
    for bound in setting.contents.as_slice() {
        claim_content(setting, path, buffer, bound, form)?;
    }
    Ok(())
}

/// No line is of a buffer.
fn is_free<D: Domain>(setting: &Setting<D>, buffer: u32) -> bool
    ensures { result ≡ walks.is_none (contents.of_buffer buffer (seen D.Domain setting.now).contents) }
{
    for bound in setting.contents.as_slice() {
        if is_of(bound, buffer) {
            return false;
        }
    }
    true
}

/// A stored value, brought to the kind of its buffer at the site of the store, keeps what the buffer's lines say.
fn keep_lines<D: Domain>(
    setting: &Setting<D>,
    path: &mut Path<D>,
    buffer: u32,
    kind: Kind,
    site: Site,
    value: Value,
) -> Result<(), WalkError>
    ensures { MatchResult result (λ _. Steps (followed path.old) (followed path.new) (keep (seen D.Domain setting.now) (contents.of_buffer buffer (seen D.Domain setting.now).contents) (kind_seen kind) (site_seen site) (value_seen value))) (λ e. StopsAtStep (followed path.old) e (keep (seen D.Domain setting.now) (contents.of_buffer buffer (seen D.Domain setting.now).contents) (kind_seen kind) (site_seen site) (value_seen value))) }
{
    let place = path.spot_at(site);
    path.stand(place);
    let kept = brought(setting, path, kind, value)?;
    claim_contents(setting, path, buffer, &kept.form)
}

/// A stored value keeps what the lines of its buffer say, where there are any.
fn keep_of_buffer<D: Domain>(
    setting: &Setting<D>,
    path: &mut Path<D>,
    buffer: u32,
    kind: Kind,
    site: Site,
    value: Value,
) -> Result<(), WalkError>
    ensures { MatchResult result (λ _. Steps (followed path.old) (followed path.new) (terms.keep_contents (seen D.Domain setting.now) (contents.of_buffer buffer (seen D.Domain setting.now).contents) (kind_seen kind) (site_seen site) (value_seen value))) (λ e. StopsAtStep (followed path.old) e (terms.keep_contents (seen D.Domain setting.now) (contents.of_buffer buffer (seen D.Domain setting.now).contents) (kind_seen kind) (site_seen site) (value_seen value))) }
{
    if is_free(setting, buffer) {
        return Ok(());
    }
    keep_lines(setting, path, buffer, kind, site, value)
}

/// A stored value keeps what its array holds; of a local array nothing is said.
pub fn keep_contents<D: Domain>(
    setting: &Setting<D>,
    path: &mut Path<D>,
    array: Array,
    kind: Kind,
    site: Site,
    value: Value,
) -> Result<(), WalkError>
    ensures { MatchResult result (λ _. Steps (followed path.old) (followed path.new) (terms.keep_contents (seen D.Domain setting.now) (contents.contents_of (seen D.Domain setting.now) (array_seen array)) (kind_seen kind) (site_seen site) (value_seen value))) (λ e. StopsAtStep (followed path.old) e (terms.keep_contents (seen D.Domain setting.now) (contents.contents_of (seen D.Domain setting.now) (array_seen array)) (kind_seen kind) (site_seen site) (value_seen value))) }
{
    match array.space {
        Space::Global => keep_of_buffer(setting, path, array.number, kind, site, value),
        Space::Local => Ok(()),
    }
}
