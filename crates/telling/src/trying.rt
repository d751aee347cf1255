//! Lines of the conditions that are tried by searches: with which of them is less left?

use explaining::{Cuts, Outlook, Proposal, Remedy, amended, may_be_met, part_paths, propose};
use findings::Finding;
use kernel_reading::Source;
use proof_search::{Found, Left, find_watched, left_by};
use std::alloc::{AllocError, Global};
use std::thread::Threads;
use verify::{Effort, Watcher};

/// A kernel with its conditions, and how it is searched.
#[derive(Drop)]
pub struct Trials<'a, R, W> {
    pub rt: &'a R,
    pub kernel: Source<'a>,
    pub conditions: &'a [u8],
    pub is_wide: bool,
    pub watcher: &'a W,
}

/// Which of the lines that are proposed are tried, and whether the certificate that is found with them passes the budget.
#[derive(Drop)]
struct Trial {
    flags: Vec<bool>,
    is_over: bool,
}

/// The finding is among these.
fn is_among(findings: &[Finding], finding: &Finding) -> bool {
    findings.iter().any(|other| other.is_like(finding))
}

/// All of one list are in the other.
fn are_among(findings: &[Finding], all: &[Finding]) -> bool {
    findings.iter().all(|finding| is_among(all, finding))
}

/// How many flags are set.
fn count_set(flags: &[bool]) -> usize {
    flags.iter().filter(|flag| **flag).count()
}

fn is_set(flags: &[bool], number: usize) -> bool {
    flags.get(number).copied().unwrap_or(false)
}

/// The flags without one.
fn without(alloc: Global, flags: &[bool], number: usize) -> Result<Vec<bool>, AllocError> {
    let mut others = Vec::from_slice(alloc, flags)?;
    if let Some(flag) = others.get_mut(number) {
        *flag = false;
    }
    Ok(others)
}

/// The numbers of the findings of a list that are in the second one, or in none where there is no second one, and not in the third one.
fn gone(
    alloc: Global,
    findings: &[Finding],
    before: Option<&[Finding]>,
    after: &[Finding],
) -> Result<Vec<usize>, AllocError> {
    let mut numbers = Vec::new(alloc);
    for (number, finding) in findings.iter().enumerate() {
        let was_there = match before {
            Some(before) => is_among(before, finding),
            None => true,
        };
        if was_there && !is_among(after, finding) {
            numbers.push(number)?;
        }
    }
    Ok(numbers)
}

/// The lines that are proposed for a finding which is not left with all of them.
fn promising(
    alloc: Global,
    findings: &[Finding],
    proposals: &[Proposal],
    least: &[Finding],
) -> Result<Vec<bool>, AllocError> {
    let mut flags = Vec::new(alloc);
    for proposal in proposals {
        let is_promising = proposal.of.iter().any(|number| match findings.get(*number) {
            Some(finding) => !is_among(least, finding),
            None => false,
        });
        flags.push(is_promising)?;
    }
    Ok(flags)
}

/// The remedy that is a proposed line.
fn remedy_of(alloc: Global, proposal: &Proposal, shows: Vec<usize>) -> Result<Remedy, AllocError> {
    Ok(Remedy {
        line: String::from_str(alloc, &proposal.line)?,
        is_of_two: proposal.is_of_two,
        shows,
    })
}

/// What no remedy alone is needed for counts for the first one.
fn push_rest(remedies: &mut [Remedy], numbers: &[usize]) -> Result<(), AllocError> {
    for number in numbers {
        let is_told = remedies
            .iter()
            .any(|remedy| remedy.shows.as_slice().contains(number));
        if !is_told {
            if let Some(first) = remedies.first_mut() {
                first.shows.push(*number)?;
            }
        }
    }
    Ok(())
}

impl<'a, R: Threads + Sync, W: Watcher> Trials<'a, R, W> {
    /// What a search leaves under the conditions as they are.
    fn left(&self, alloc: Global) -> Result<Option<Left>, AllocError> {
        left_by(
            self.rt,
            alloc,
            self.kernel,
            self.conditions,
            self.is_wide,
            self.watcher,
        )
    }

    /// What a search leaves under conditions with those lines whose flags are set; none where no launch is seen to meet them.
    fn left_with(
        &self,
        alloc: Global,
        proposals: &[Proposal],
        flags: &[bool],
    ) -> Result<Option<Left>, AllocError> {
        let mut lines = Vec::new(alloc);
        let mut is_of_two = false;
        for (proposal, flag) in proposals.iter().zip(flags.iter()) {
            if *flag {
                lines.push(String::from_str(alloc, &proposal.line)?)?;
                is_of_two = is_of_two || proposal.is_of_two;
            }
        }
        let text = amended(alloc, self.conditions, lines.as_slice(), is_of_two)?;
        if !may_be_met(alloc, self.kernel, text.as_slice())? {
            return Ok(None);
        }
        left_by(
            self.rt,
            alloc,
            self.kernel,
            text.as_slice(),
            self.is_wide,
            self.watcher,
        )
    }

    /// The lines of which each is tried: the promising ones, where no more is left with these than with all.
    fn first_trial(
        &self,
        alloc: Global,
        findings: &[Finding],
        proposals: &[Proposal],
        best: &Left,
    ) -> Result<Trial, AllocError> {
        let least = best.findings.as_slice();
        let flags = promising(alloc, findings, proposals, least)?;
        let count = count_set(flags.as_slice());
        if 0 < count && count < proposals.len() {
            if let Some(left) = self.left_with(alloc, proposals, flags.as_slice())? {
                if are_among(left.findings.as_slice(), least) {
                    return Ok(Trial {
                        flags,
                        is_over: left.is_over,
                    });
                }
            }
        }
        Ok(Trial {
            flags: vec![in alloc; true; proposals.len()]?,
            is_over: best.is_over,
        })
    }

    /// What a line is needed for, of those that are tried: the findings that are left without it and not with all lines. Where there are
    /// none, the trial goes on without it.
    fn shown_by(
        &self,
        alloc: Global,
        findings: &[Finding],
        proposals: &[Proposal],
        least: &[Finding],
        trial: &mut Trial,
        number: usize,
    ) -> Result<Option<Vec<usize>>, AllocError> {
        if count_set(trial.flags.as_slice()) == 1 {
            return Ok(Some(gone(alloc, findings, None, least)?));
        }
        let flags = without(alloc, trial.flags.as_slice(), number)?;
        let Some(left) = self.left_with(alloc, proposals, flags.as_slice())? else {
            return Ok(Some(gone(alloc, findings, None, least)?));
        };
        let before = left.findings.as_slice();
        if are_among(before, least) {
            trial.flags = flags;
            trial.is_over = left.is_over;
            return Ok(None);
        }
        Ok(Some(gone(alloc, findings, Some(before), least)?))
    }

    /// The lines that are needed to leave no more than with all of them, each with the findings that it is needed for, and whether the
    /// certificate that is found with them passes the budget.
    fn remedies(
        &self,
        alloc: Global,
        findings: &[Finding],
        proposals: &[Proposal],
        best: &Left,
    ) -> Result<(Vec<Remedy>, bool), AllocError> {
        let least = best.findings.as_slice();
        let mut remedies = Vec::new(alloc);
        let mut trial = self.first_trial(alloc, findings, proposals, best)?;
        for (number, proposal) in proposals.iter().enumerate() {
            if is_set(trial.flags.as_slice(), number) {
                let shows = self.shown_by(alloc, findings, proposals, least, &mut trial, number)?;
                if let Some(shows) = shows {
                    remedies.push(remedy_of(alloc, proposal, shows)?)?;
                }
            }
        }
        let all = gone(alloc, findings, None, least)?;
        push_rest(remedies.as_mut_slice(), all.as_slice())?;
        Ok((remedies, trial.is_over))
    }

    /// The lines that may help with findings, of a version that is read.
    fn proposals(&self, alloc: Global, findings: &[Finding]) -> Result<Vec<Proposal>, AllocError> {
        let mut kept = Vec::new(alloc);
        for proposal in propose(alloc, self.kernel, self.conditions, findings)? {
            if self.is_wide || !proposal.is_of_two {
                kept.push(proposal)?;
            }
        }
        Ok(kept)
    }

    /// What is left with all lines that are proposed, where there are any.
    fn best(&self, alloc: Global, proposals: &[Proposal]) -> Result<Option<Left>, AllocError> {
        if proposals.is_empty() {
            return Ok(None);
        }
        let flags = vec![in alloc; true; proposals.len()]?;
        self.left_with(alloc, proposals, flags.as_slice())
    }

    /// What is left, with the lines that help.
    fn with_remedies(&self, alloc: Global, left: Left) -> Result<Outlook, AllocError> {
        let Left {
            findings,
            is_whole,
            ..
        } = left;
        let proposals = self.proposals(alloc, findings.as_slice())?;
        let mut outlook = Outlook {
            left: findings,
            is_whole,
            remedies: Vec::new(alloc),
            is_enough: false,
            is_over: false,
        };
        if let Some(best) = self.best(alloc, proposals.as_slice())? {
            let left = outlook.left.as_slice();
            if best.is_whole && best.findings.len() < left.len() {
                let (remedies, is_over) = self.remedies(alloc, left, proposals.as_slice(), &best)?;
                outlook.remedies = remedies;
                outlook.is_enough = best.findings.is_empty();
                outlook.is_over = is_over;
            }
        }
        Ok(outlook)
    }

    /// What a search leaves, with the lines that help; none where it finds a certificate, or comes to something else.
    pub fn outlook(&self, alloc: Global) -> Result<Option<Outlook>, AllocError> {
        match self.left(alloc)? {
            Some(left) if !left.findings.is_empty() => Ok(Some(self.with_remedies(alloc, left)?)),
            _ => Ok(None),
        }
    }

    /// Where loops that never turn part the paths of the kernel, and whether the search finds a certificate with them.
    pub fn cuts(&self, alloc: Global) -> Result<Option<Cuts>, AllocError> {
        let found = part_paths(alloc, self.kernel, self.conditions, self.is_wide)?;
        let Some(Cuts { sites, text, .. }) = found else {
            return Ok(None);
        };
        let parted = Source {
            reading: self.kernel.reading,
            conditions: self.kernel.conditions,
            bytes: text.as_slice(),
        };
        let left = left_by(
            self.rt,
            alloc,
            parted,
            self.conditions,
            self.is_wide,
            self.watcher,
        )?;
        let is_enough = match left {
            Some(left) => left.findings.is_empty(),
            None => false,
        };
        Ok(Some(Cuts {
            sites,
            text,
            is_enough,
        }))
    }

    /// The text of the certificate of the narrow walk; none where it finds none.
    pub fn found_narrowly(&self, alloc: Global) -> Option<Vec<u8>> {
        let narrowly = Effort {
            workers: 1,
            is_wide: self.is_wide,
            may_widen: false,
        };
        match find_watched(
            self.rt,
            alloc,
            self.kernel,
            self.conditions,
            narrowly,
            self.watcher,
        ) {
            Ok(Found { text, .. }) => Some(text),
            Err(_) => None,
        }
    }
}
