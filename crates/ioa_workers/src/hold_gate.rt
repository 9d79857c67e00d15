//! A gate that holds two workers.

use ioa_boards::Gate;
use std::sync::atomic::{AtomicBool, AtomicU64, Ordering};
use std::thread;
use std::time::{Clock, Duration};

/// How many milliseconds a turn of a wait sleeps.
const TURN: u64 = 1;

/// A gate by which one sees that two workers run at once, and that no lock is held while a node's turn is computed. It
/// holds worker `other` behind its first look until worker `held` has looked too, and worker `held` there until worker
/// `other` has committed `count` times. The two are different workers. A wait sleeps for a millisecond a turn, for at
/// most `turns` turns. Once a wait has lasted so long, nobody is held any more.
#[derive(Drop)]
pub struct HoldGate<'a, R> {
    rt: &'a R,
    held: usize,
    other: usize,
    count: u64,
    turns: u64,
    has_looked: AtomicBool,
    commits: AtomicU64,
    has_expired: AtomicBool,
}

impl<'a, R: Clock> HoldGate<'a, R> {
    /// The gate before any worker has come to it.
    pub fn new(rt: &'a R, held: usize, other: usize, count: u64, turns: u64) -> Self {
        HoldGate {
            rt,
            held,
            other,
            count,
            turns,
            has_looked: AtomicBool::new(false),
            commits: AtomicU64::new(0),
            has_expired: AtomicBool::new(false),
        }
    }

    /// Whether a wait has used all its turns.
    pub fn expired(&self) -> bool {
        self.has_expired.load(Ordering::SeqCst)
    }

    /// Waits for the first look of worker `held`.
    fn wait_for_look(&self) {
        for _ in 0..self.turns {
            if self.has_looked.load(Ordering::SeqCst) || self.expired() {
                return;
            }
            self.sleep();
        }
        self.has_expired.store(true, Ordering::SeqCst);
    }

    /// Waits for the commits of worker `other`.
    fn wait_for_commits(&self) {
        for _ in 0..self.turns {
            if self.commits.load(Ordering::SeqCst) >= self.count || self.expired() {
                return;
            }
            self.sleep();
        }
        self.has_expired.store(true, Ordering::SeqCst);
    }

    /// Sleeps for one turn.
    fn sleep(&self) {
        thread::sleep(self.rt, Duration::from_millis(TURN));
    }
}

impl<'a, R: Clock> Gate for HoldGate<'a, R> {
    fn looked(&self, worker: usize, _node: i64) {
        if worker == self.held {
            self.has_looked.store(true, Ordering::SeqCst);
            self.wait_for_commits();
        } else if worker == self.other {
            self.wait_for_look();
        }
    }

    fn before_commit(&self, _worker: usize) {}

    fn after_commit(&self, worker: usize) {
        if worker == self.other {
            self.commits.fetch_add(1, Ordering::SeqCst);
        }
    }
}
