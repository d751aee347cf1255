//! Which claims that need not be shown are taken as shown: ranges of unsigned values, and that a dividend is not negative.

ghost use Rattle.std.specs.Prelude.{◌≤◌, ◌<◌, length};
ghost use Rattle.two_thread.specs.Listed.{listed};
ghost use Rattle.plain_kernels.specs.Domains.{domain};

use crate::claims::Claims;
use crate::noted::Noted;
use crate::subject::Subject;
use crate::walking::{Extent, Walked, extended};
use certificate::Certificate;
use cut_search::{Answer, Memory, Questions};
use domain::Elements;
use guesses::is_same;
use linear::Form;
use path_steps::Sort;
use std::alloc::{AllocError, Global};
use std::thread::Threads;
use two_thread::{Manner, Obligations, OnPath, Part, Tagged};
use walk::FindError;
use words::Kind;

/// When such a claim is taken as shown: where its numbers are small, or where the search shows it.
#[derive(Clone, Copy, PartialEq, Eq)]
pub enum Trust {
    Hopeful,
    Searched,
}

/// What is asked of a walk: when such claims are taken as shown, which obligations are wanted, and by how many workers at most.
#[derive(Clone, Copy)]
pub struct Request {
    pub trust: Trust,
    pub extent: Extent,
    pub workers: u32,
}

/// The largest numbers of a claim that is hoped for.
const COEFFICIENT: u64 = 1 << 36;

const CONSTANT: u64 = 1 << 40;

fn is_small(form: &Form) -> bool {
    if form.constant_part().unsigned_abs() >= CONSTANT {
        return false;
    }
    for term in form.terms() {
        if term.coefficient.unsigned_abs() >= COEFFICIENT {
            return false;
        }
    }
    true
}

/// The facts of an obligation in a manner; none where it does not fit.
pub fn facts_of(
    alloc: Global,
    found: &Obligations<Elements>,
    number: usize,
    manner: Manner,
) -> Result<Option<Vec<Form>>, FindError>
    requires first { 0 < number }
    requires last { number ≤ length (listed domain found.now) }
{
    Ok(found.facts(alloc, number, manner)?)
}

/// What an obligation asks for is taken as shown.
fn is_taken(
    alloc: Global,
    trust: Trust,
    found: &Obligations<Elements>,
    number: usize,
    questions: &mut Questions<'_>,
) -> Result<bool, FindError>
    requires first { 0 < number }
    requires last { number ≤ length (listed domain found.now) }
{
    let Some(facts) = facts_of(alloc, found, number, Manner::Plainly)? else {
        return Ok(false);
    };
    match trust {
        Trust::Hopeful => Ok(facts.last().is_some_and(is_small)),
        Trust::Searched => match questions.ask(alloc, facts.as_slice())? {
            Answer::Proof(_) => Ok(true),
            Answer::Model(_) | Answer::Undecided => Ok(false),
        },
    }
}

/// The obligation is an end of an unsigned value's range that was taken as shown, or that a dividend is not negative, which has the same
/// sort; and nothing but a search shows it. Such an obligation is needed where it is taken so.
fn is_open(alloc: Global, found: &Obligations<Elements>, number: usize) -> Result<bool, FindError>
    requires first { 0 < number }
    requires last { number ≤ length (listed domain found.now) }
{
    match found.sort(number) {
        Sort::OfRange(Kind::Uint) => {
            if !found.is_needed(number) {
                return Ok(false);
            }
            Ok(!found.is_settled(alloc, number)?)
        }
        _ => Ok(false),
    }
}

/// A claim that is not to be taken as shown, though it was: its number, where it stands, and how many facts are known before it.
#[derive(Clone, Copy)]
struct Untaken {
    number: usize,
    at: OnPath,
    facts: usize,
}

/// Two paths of one place have the first so many facts in common.
fn is_shared(left: &Tagged<Elements>, right: &Tagged<Elements>, count: usize) -> bool {
    if left.anchor != right.anchor || left.is_head != right.is_head {
        return false;
    }
    let (Some(first), Some(second)) = (
        left.path.facts.as_slice().get(..count),
        right.path.facts.as_slice().get(..count),
    ) else {
        return false;
    };
    first
        .iter()
        .zip(second.iter())
        .all(|(one, other)| is_same(one, other))
}

/// A path goes on behind a claim of another path before it.
fn is_behind(paths: &[Tagged<Elements>], path: usize, untaken: &Untaken) -> bool {
    match (paths.get(untaken.at.path), paths.get(path)) {
        (Some(left), Some(right)) => is_shared(left, right, untaken.facts),
        _ => true,
    }
}

/// A path goes on behind one of these claims.
fn is_behind_any(paths: &[Tagged<Elements>], path: usize, untaken: &[Untaken]) -> bool {
    for one in untaken {
        if is_behind(paths, path, one) {
            return true;
        }
    }
    false
}

/// What a walk is asked: of which claims, by their numbers, it is known already whether they are taken, and whether one claim is enough.
#[derive(Drop)]
struct Asking {
    decided: Vec<bool>,
    is_single: bool,
}

impl Asking {
    fn is_decided(&self, number: usize) -> bool {
        self.decided.get(number).copied().unwrap_or(true)
    }

    fn decide(&mut self, number: usize) {
        if let Some(flag) = self.decided.get_mut(number) {
            *flag = true;
        }
    }

    /// Forgets what was decided of the claims behind one.
    fn forget_behind(&mut self, number: usize) {
        let from = number.saturating_add(1).min(self.decided.len());
        for flag in self.decided[from..].iter_mut() {
            *flag = false;
        }
    }
}

fn facts_before(paths: &[Tagged<Elements>], at: OnPath) -> usize {
    match paths
        .get(at.path)
        .and_then(|tagged| tagged.path.claims.get(at.item))
    {
        Some(claim) => claim.facts,
        None => 0,
    }
}

/// The claims that are not to be taken as shown, though they were, of each path the first: those that stand behind another one are looked
/// at in the next walk, which has other forms there.
fn untaken_of(
    alloc: Global,
    trust: Trust,
    found: &Obligations<Elements>,
    asking: &mut Asking,
    questions: &mut Questions<'_>,
) -> Result<Vec<Untaken>, FindError> {
    let mut untaken: Vec<Untaken> = Vec::new(alloc);
    // (the path of the claims that come, and whether they stand behind one that was found)
    let mut path = usize::MAX;
    let mut is_passed = false;
    for i in 0..found.len() {
        let number = i + 1;
        let Part::Claim(at) = found.part(number) else {
            return Ok(untaken);
        };
        if at.path != path {
            path = at.path;
            is_passed = is_behind_any(found.paths(), path, untaken.as_slice());
        }
        if is_passed || asking.is_decided(number) {
            continue;
        }
        asking.decide(number);
        if is_open(alloc, found, number)? && !is_taken(alloc, trust, found, number, questions)? {
            is_passed = true;
            untaken.push(Untaken {
                number,
                at,
                facts: facts_before(found.paths(), at),
            })?;
            if asking.is_single {
                return Ok(untaken);
            }
        }
    }
    Ok(untaken)
}

/// How many claims each path has.
fn shape_of(alloc: Global, found: &Obligations<Elements>) -> Result<Vec<usize>, AllocError> {
    let mut shape = Vec::new(alloc);
    for tagged in found.paths() {
        shape.push(tagged.path.claims.len())?;
    }
    Ok(shape)
}

/// How many facts there are on all paths.
fn facts_in(found: &Obligations<Elements>) -> usize {
    let mut count: usize = 0;
    for tagged in found.paths() {
        count = count.saturating_add(tagged.path.facts.len());
    }
    count
}

/// Sets the flags of claims.
fn flag_all(flags: &mut [bool], untaken: &[Untaken], value: bool) {
    for one in untaken {
        if let Some(flag) = flags.get_mut(one.number) {
            *flag = value;
        }
    }
}

/// The claims of a walk in which each claim that is taken as shown is to be taken so; nothing where the kernel lacks what the certificate
/// names, or where that takes over 4,000 walks. A walk takes back what is taken on all paths at once; where the paths have other claims
/// then, so that the numbers of claims behind the first one are others, it takes back one claim at a time.
fn resolved_claims<R: Threads + Sync>(
    rt: &R,
    alloc: Global,
    subject: &Subject<'_>,
    certificate: &Certificate,
    request: Request,
    memory: &mut Memory,
) -> Result<Option<Walked>, FindError> {
    let mut flags = vec![in alloc; true; 65_537]?;
    let mut asking = Asking {
        decided: vec![in alloc; false; 65_537]?,
        is_single: false,
    };
    let mut shape: Vec<usize> = Vec::new(alloc);
    let mut last: Vec<Untaken> = Vec::new(alloc);
    let Some(noted) = Noted::of(alloc, subject, certificate)? else {
        return Ok(None);
    };
    let mut before: Option<Claims> = None;
    for _ in 0..4_000 {
        let (workers, now_flagged) = (request.workers, flags.as_slice());
        let claims = noted.claims(rt, alloc, workers, subject.conditions, now_flagged, before)?;
        let found = &claims.found;
        memory.count(facts_in(found));
        let now = shape_of(alloc, found)?;
        if last.len() > 1 && now.as_slice() != shape.as_slice() {
            flag_all(flags.as_mut_slice(), &last.as_slice()[1..], true);
            asking.forget_behind(last.as_slice()[0].number);
            asking.is_single = true;
            last.clear();
            before = Some(claims);
            continue;
        }
        shape = now;
        let mut questions = Questions::over(alloc, memory)?;
        last = untaken_of(alloc, request.trust, found, &mut asking, &mut questions)?;
        let own = questions.into_own();
        memory.take(own)?;
        if last.is_empty() {
            return Ok(Some(noted.with(claims)));
        }
        flag_all(flags.as_mut_slice(), last.as_slice(), false);
        before = Some(claims);
    }
    Ok(None)
}

/// A walk in which each claim that is taken as shown is to be taken so, with the obligations that are asked for; nothing where the kernel
/// lacks what the certificate names, or where that takes too many walks.
pub fn resolve<R: Threads + Sync>(
    rt: &R,
    alloc: Global,
    subject: &Subject<'_>,
    certificate: &Certificate,
    request: Request,
    memory: &mut Memory,
) -> Result<Option<Walked>, FindError> {
    match resolved_claims(rt, alloc, subject, certificate, request, memory)? {
        Some(walked) => Ok(Some(extended(alloc, walked, request.extent)?)),
        None => Ok(None),
    }
}
