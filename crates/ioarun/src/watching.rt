//! What a terminal is told while work takes long.

use ioa_command::Gate;
use std::alloc::Global;
use std::io::Write;
use std::sync::atomic::{AtomicBool, AtomicU64, Ordering};
use std::sync::{Arc, Wait};
use std::thread::{self, JoinHandle, Threads};
use std::time::{Clock, Duration, Instant};

/// How long a terminal is told nothing, and how long it is from one line to the next, in seconds.
const SILENCE: u64 = 2;

/// How often it is seen whether all is done, in milliseconds: a program that is watched ends so much later at most.
const PAUSE: u64 = 20;

/// What the work and who watches it share: how many actions a run has recorded, and whether all is done. They are
/// counted only if somebody watches.
#[derive(Debug, Drop)]
pub struct Watched {
    is_watched: bool,
    actions: AtomicU64,
    is_done: AtomicBool,
}

impl Watched {
    /// Work that has not begun.
    pub fn new(is_watched: bool) -> Self {
        Watched {
            is_watched,
            actions: AtomicU64::new(0),
            is_done: AtomicBool::new(false),
        }
    }

    /// All is done: whoever watches ends.
    pub fn finish(&self) {
        self.is_done.store(true, Ordering::SeqCst);
    }
}

impl Gate for Watched {
    fn looked(&self, _worker: usize, _node: i64) {}

    fn before_commit(&self, _worker: usize) {}

    fn after_commit(&self, _worker: usize) {
        if self.is_watched {
            self.actions.fetch_add(1, Ordering::SeqCst);
        }
    }
}

/// Starts a thread that tells a terminal how far the work has come, if there is memory for it and a thread can be made.
pub fn start_watching<
    R: Threads + Wait + Clock + Copy + Send + Drop + 'static,
    E: Write + Send + Drop + 'static,
>(rt: R, alloc: Global, watched: &Arc<Watched>, terminal: E) -> Option<JoinHandle<()>> {
    let shared = Arc::try_clone(watched).ok()?;
    thread::spawn(&rt, move || watch(&rt, alloc, &shared, terminal)).ok()
}

/// Tells a terminal how far the work has come, every two seconds, until all is done.
fn watch<R: Wait + Clock, E: Write + Drop>(
    rt: &R,
    alloc: Global,
    watched: &Watched,
    mut terminal: E,
) {
    let Ok(began) = Instant::now(rt) else {
        return;
    };
    let mut next = SILENCE;
    for _ in rt.forever() {
        if watched.is_done.load(Ordering::SeqCst) {
            return;
        }
        thread::sleep(rt, Duration::from_millis(PAUSE));
        let Ok(taken) = began.elapsed(rt) else {
            return;
        };
        if taken.as_secs() >= next {
            tell(alloc, watched, taken.as_secs(), &mut terminal);
            next = taken.as_secs().saturating_add(SILENCE);
        }
    }
}

/// Tells a terminal how long the work has taken, and how many actions a run has recorded. Whether it is seen changes
/// nothing.
fn tell<E: Write>(alloc: Global, watched: &Watched, seconds: u64, terminal: &mut E) {
    let actions = watched.actions.load(Ordering::SeqCst);
    let line = if actions == 0 {
        format!(in alloc; "ioarun: {seconds} seconds so far\n")
    } else {
        format!(in alloc; "ioarun: {seconds} seconds and {actions} actions so far\n")
    };
    if let Ok(line) = line {
        let _told = terminal.write(line.as_bytes());
    }
}
