//! What the words of the command line say.

use ioa_pipeline::Options;

/// How a text is run, and where the gate holds whom.
#[derive(Clone, Copy, Debug)]
pub(crate) struct Row {
    /// How many workers, steps and attempts there are.
    pub(crate) options: Options,
    /// The worker that is held in its first look, until the other has committed so often.
    pub(crate) held: usize,
    /// The other worker, which is held in its first look until the first has come to its own.
    pub(crate) other: usize,
    /// How often the other has to commit.
    pub(crate) count: u64,
    /// For how many turns of a sleep each of the two is held at most.
    pub(crate) turns: u64,
}

/// The row of the words, the program's name first, if they are seven numbers in their ranges.
pub(crate) fn row_of(words: &[&str]) -> Option<Row> {
    match words {
        [_, workers, steps, attempts, held, other, count, turns] => Some(Row {
            options: options_of(workers, steps, attempts)?,
            held: held.parse::<usize>().ok()?,
            other: other.parse::<usize>().ok()?,
            count: count.parse::<u64>().ok()?,
            turns: turns.parse::<u64>().ok()?,
        }),
        _ => None,
    }
}

/// The options of these numbers.
fn options_of(workers: &str, steps: &str, attempts: &str) -> Option<Options> {
    let workers = workers.parse::<u64>().ok()?;
    let steps = steps.parse::<u64>().ok()?;
    let attempts = attempts.parse::<u64>().ok()?;
    Options::within(workers, steps, attempts)
}
