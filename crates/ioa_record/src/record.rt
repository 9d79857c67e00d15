//! The record that a run leaves.

ghost use Rattle.std.specs.Prelude.{◌≡◌, length, sum};

use ioa_compose::Conf;
use ioa_rawlog::RawLog;
use ioa_transitions::Entry;

/// What a run leaves behind. The type keeps that the counts of its workers add up to the length of its schedule.
pub struct Record {
    /// The entries of the steps that were taken, in order.
    pub schedule: RawLog<Entry>,
    /// The configurations at the end: nodes by number, channels in the order of their declaration, scripts by number.
    pub states: Vec<Conf>,
    /// How many actions each worker recorded, worker 0 first.
    pub commits: Vec<u64>,
    ghost complete: { sum commits.items ≡ length schedule },
}

/// By hand, so that crates above do not prove again how the parts are let go (DECISIONS).
impl Drop for Record {
    fn drop(self) {
        let Record {
            schedule: _,
            states: _,
            commits: _,
        } = self;
    }
}
