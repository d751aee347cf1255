//! Windows: groups of which the logs are kept together, one window after another.

ghost use Rattle.std.specs.Prelude.{◌≡◌, ◌<◌, ◌≤◌};

use launch::launches::Buffers;

/// Groups, one after another, up to an end.
#[derive(Clone, Copy)]
pub struct Window {
    pub first: u64,
    pub end: u64,
}

impl Window {
    /// Of so many groups the next ones from a group on, so many at most, but one at least.
    pub fn next(first: u64, count: u64, size: u64) -> Window
        requires { first < count }
        ensures { (result.first ≡ first) × (first < result.end) × (result.end ≤ count) }
    {
        let end = first.saturating_add(size.max(1)).min(count);
        Window { first, end }
    }

    /// How many groups a window has.
    pub fn groups(self) -> u64 {
        self.end.saturating_sub(self.first)
    }
}

/// The bytes that the logs of a window take, about, for each of some workers: it is worth the start of their threads.
const BYTES_OF_A_WORKER: u64 = 2 << 20;

/// The bytes that they take at most, about.
const MOST_BYTES: u64 = 32 << 20;

/// The bytes that they take, about, where one worker runs alone: few enough to be written while they are at hand.
const BYTES_ALONE: u64 = 256 << 10;

/// The bytes of a log with its lists, about, but for the words in it.
const BYTES_OF_A_LOG: u64 = 1024;

/// The bytes of an element's word.
const BYTES_OF_A_WORD: u64 = 8;

/// The groups of a worker in a window, at least.
const GROUPS_OF_A_WORKER: u64 = 8;

/// The bytes that the logs of a window take, about.
fn bytes_of_a_window(workers: u32) -> u64 {
    if workers < 2 {
        return BYTES_ALONE;
    }
    let bytes = workers as u64 * BYTES_OF_A_WORKER;
    bytes.min(MOST_BYTES)
}

/// How many words buffers have.
fn words_in(buffers: &Buffers) -> u64 {
    let mut words = 0u64;
    for row in &buffers.words {
        words = words.saturating_add(row.len() as u64);
    }
    words
}

/// How many groups a window has, of so many groups that store to buffers. Two groups of an accepted kernel store to no element both, so the
/// logs of all groups have no more elements than the buffers. Each window gets its part of them.
pub fn groups_of_a_window(groups: u64, buffers: &Buffers, workers: u32) -> u64 {
    let of_words = words_in(buffers).saturating_mul(BYTES_OF_A_WORD);
    let of_logs = groups.saturating_mul(BYTES_OF_A_LOG);
    let bytes = of_words.saturating_add(of_logs);
    let windows = bytes.checked_div(bytes_of_a_window(workers)).unwrap_or(0);
    let share = groups / windows.max(1);
    share
        .saturating_add(1)
        .max(workers as u64 * GROUPS_OF_A_WORKER)
}
