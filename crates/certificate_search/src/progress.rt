//! How far a search is, told to whoever watches it.

/// The progress of a search: the number of its attempt and of the round of that, each from 1, and the number of
/// obligations that are left to be looked at.
#[derive(Clone, Copy)]
pub struct Progress {
    pub attempt: u32,
    pub round: u32,
    pub left: usize,
}

/// Whoever watches a search. What is found does not depend on it.
pub trait Watcher {
    /// Takes notice of how far the search is.
    fn tell(&self, progress: Progress);

    /// Takes notice that nothing more is told.
    fn end(&self);
}

/// A watcher that ignores what it is told.
#[derive(Clone, Copy)]
pub struct Unwatched;

impl Watcher for Unwatched {
    fn tell(&self, _progress: Progress) {}

    fn end(&self) {}
}

/// By how many workers a search is made, who watches it, and which attempt and round it makes.
#[derive(Drop)]
pub struct Course<'a, W> {
    pub workers: u32,
    pub watcher: &'a W,
    pub attempt: u32,
    pub round: u32,
}

impl<'a, W: Watcher> Course<'a, W> {
    /// The same search in a round.
    pub fn in_round(&self, round: u32) -> Course<'a, W> {
        Course {
            workers: self.workers,
            watcher: self.watcher,
            attempt: self.attempt,
            round,
        }
    }

    /// The same search in an attempt.
    pub fn in_attempt(&self, attempt: u32) -> Course<'a, W> {
        Course {
            workers: self.workers,
            watcher: self.watcher,
            attempt,
            round: 1,
        }
    }

    /// Tells whoever watches that so many obligations are left.
    pub fn tell(&self, left: usize) {
        self.watcher.tell(Progress {
            attempt: self.attempt,
            round: self.round,
            left,
        });
    }
}
