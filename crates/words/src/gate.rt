//! The gate: through it the workers of a run tell a test what they do.

/// Is told what each worker of a run does, as a test does to steer or to watch it. No answer of a run rests on it.
pub trait Gate: Sync {
    /// Hears from the worker of this number that the moment has come.
    fn at(&self, worker: u32, moment: Moment);
}

/// The moments of a worker in a run.
#[derive(Debug, Clone, Copy, PartialEq, Eq)]
pub enum Moment {
    /// The worker examines this candidate next.
    Examine(u32),
    /// The worker has refuted this candidate.
    Refuted(u32),
    /// The worker has claimed this group.
    Claimed(u64),
    /// The worker has run this group.
    Done(u64),
    /// The worker ends. This is each worker's last moment.
    Ended,
}

/// A gate that does nothing.
#[derive(Debug, Clone, Copy)]
pub struct Open;

impl Gate for Open {
    fn at(&self, _worker: u32, _moment: Moment) {}
}
