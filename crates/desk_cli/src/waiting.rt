//! Progress on standard error while a text takes long.

use desk_may::Progress;
use std::rt::Runtime;
use std::time::Instant;

/// How many seconds pass before the first report of progress, and between two.
const PAUSE: u64 = 2;

/// Reports progress every two seconds.
#[derive(Drop)]
pub(crate) struct Waiting<'a> {
    rt: &'a HostRuntime,
    /// When the first lay was tried; `None` before that, or without a clock.
    begun: Option<Instant>,
    /// How often progress was reported.
    told: u64,
}

impl<'a> Waiting<'a> {
    /// Returns a value that has reported nothing yet.
    pub(crate) fn new(rt: &'a HostRuntime) -> Waiting<'a> {
        Waiting {
            rt,
            begun: None,
            told: 0,
        }
    }

    /// Returns how many seconds have passed since the first lay was tried.
    fn seconds(&mut self) -> u64 {
        if self.begun.is_none() {
            self.begun = Instant::now(self.rt).ok();
        }
        match &self.begun {
            Some(begun) => begun.elapsed(self.rt).map_or(0, |passed| passed.as_secs()),
            None => 0,
        }
    }

    /// Says how far a text is, if it is time to.
    fn say(&mut self, done: usize, of: usize) {
        if self.seconds() / PAUSE > self.told {
            self.told = self.told.saturating_add(1);
            let _ = eprintln!(self.rt; "desk: {done} of {of} lays and tokens are tried");
        }
    }
}

impl Progress for Waiting<'_> {
    fn tell(&mut self, done: usize, of: usize) {
        self.say(done, of);
    }
}
