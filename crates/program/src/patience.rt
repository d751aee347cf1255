//! What is said on a terminal while a search takes long.

use std::io::{self, Write};
use std::sync::{Condvar, Mutex, Wait};
use std::time::{Clock, Duration};
use telling::Progress;

/// How far a search is, as far as it was told; whether it is over; and whether a line of it stands on the terminal.
#[derive(Drop)]
struct State {
    progress: Option<Progress>,
    is_over: bool,
    is_shown: bool,
}

impl State {
    /// Writes how far the search is, in the place of what stands on the terminal's line.
    fn write<E: Write>(&self, to: &mut E) -> io::Result<()> {
        match self.progress {
            None => write!(to, "\r\x1b[Kkverify: looking for a certificate"),
            Some(
                Progress {
                    attempt,
                    round,
                    left,
                },
            ) => write!(
                to,
                "\r\x1b[Kkverify: attempt {attempt}, round {round}, obligations left: {left}"
            ),
        }
    }
}

/// A line on a terminal that says how far a search is. The thread that searches and the one that writes share it.
#[derive(Drop)]
pub struct StatusLine {
    state: Mutex<State>,
    news: Condvar,
}

impl StatusLine {
    pub fn new() -> StatusLine {
        StatusLine {
            state: Mutex::new(State {
                progress: None,
                is_over: false,
                is_shown: false,
            }),
            news: Condvar::new(),
        }
    }

    /// Takes notice of how far the search is.
    pub fn note(&self, rt: &impl Wait, progress: Progress) {
        let mut state = self.state.lock(rt);
        state.progress = Some(progress);
    }

    /// Makes known that the search is over: what stands of it on the terminal is wiped, and nothing more is written.
    pub fn end<E: Write>(&self, rt: &impl Wait, to: &mut E) {
        let mut state = self.state.lock(rt);
        state.is_over = true;
        if state.is_shown {
            let _wiped = to.write_all(b"\r\x1b[K");
        }
        state.is_shown = false;
        self.news.notify_all();
    }

    /// Waits for the end of the search, at most so long. Where it does not come, writes how far the search is. Says whether it is over.
    pub fn write_within<R: Wait + Clock, E: Write>(
        &self,
        rt: &R,
        time: Duration,
        to: &mut E,
    ) -> bool {
        let guard = self.state.lock(rt);
        let (mut state, waited) = self
            .news
            .wait_timeout_while(rt, guard, time, |state| !state.is_over);
        if !waited.timed_out() {
            return true;
        }
        state.is_shown = true;
        let _written = state.write(to);
        false
    }
}
