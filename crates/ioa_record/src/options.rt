//! The options of a run, with the ranges of the profile.

ghost use Rattle.std.specs.Prelude.{◌≡◌, ◌≤◌};
ghost use Rattle.std.specs.Option.{SomeIff};
ghost use Rattle.ioa_record.specs.Options.{AreInRange, plain_options};

use std::marker::Model;

/// The greatest number of workers of a run.
pub const GREATEST_WORKERS: u64 = 64;

/// The greatest number of steps of a run.
pub const GREATEST_STEPS: u64 = 1_000_000;

/// The greatest number of attempts of a node.
pub const GREATEST_ATTEMPTS: u64 = 1_000_000;

/// The number of workers of a run if none is given.
pub const DEFAULT_WORKERS: u64 = 1;

/// The number of steps of a run if none is given.
pub const DEFAULT_STEPS: u64 = 10_000;

/// The number of attempts of a node if none is given.
pub const DEFAULT_ATTEMPTS: u64 = 1_000;

/// What a run is told beside its text: how many workers run the nodes, from 1 to [`GREATEST_WORKERS`]; how many steps
/// its schedule may have, from 0 to [`GREATEST_STEPS`]; and how many attempts each node has, from 1 to
/// [`GREATEST_ATTEMPTS`]. A contract sees the three numbers.
#[derive(Clone, Copy, Debug, PartialEq, Eq)]
pub struct Options {
    workers: u64,
    steps: u64,
    attempts: u64,
}

impl Model for Options {
    ghost use Rattle.ioa_record.specs.Options.{PlainOptions, AreInRange};

    ghost Value = { PlainOptions };

    ghost view = { λ o. record { workers = o.workers; steps = o.steps; attempts = o.attempts } };

    ghost invariant = { λ o. AreInRange o.workers o.steps o.attempts };

    ghost inverse = { λ s. record { workers = s.workers; steps = s.steps; attempts = s.attempts } };
}

impl Options {
    /// The options with these numbers.
    pub fn new(workers: u64, steps: u64, attempts: u64) -> Self
        requires { AreInRange workers steps attempts }
        ensures { result ≡ plain_options workers steps attempts }
    {
        Options {
            workers,
            steps,
            attempts,
        }
    }

    /// The options with these numbers, if all are in their range.
    pub fn within(workers: u64, steps: u64, attempts: u64) -> Option<Self>
        ensures { SomeIff result (AreInRange workers steps attempts) (plain_options workers steps attempts) }
    {
        if (1..=GREATEST_WORKERS).contains(&workers)
            && steps <= GREATEST_STEPS
            && (1..=GREATEST_ATTEMPTS).contains(&attempts)
        {
            Some(Options::new(workers, steps, attempts))
        } else {
            None
        }
    }

    /// How many workers run the nodes.
    pub fn workers(&self) -> u64
        ensures value { result ≡ self.now.workers }
        ensures range { (1 ≤ result) × (result ≤ GREATEST_WORKERS) }
    {
        self.workers
    }

    /// How many steps the schedule may have.
    pub fn steps(&self) -> u64
        ensures value { result ≡ self.now.steps }
        ensures range { result ≤ GREATEST_STEPS }
    {
        self.steps
    }

    /// How many attempts each node has.
    pub fn attempts(&self) -> u64
        ensures value { result ≡ self.now.attempts }
        ensures range { (1 ≤ result) × (result ≤ GREATEST_ATTEMPTS) }
    {
        self.attempts
    }
}

impl Default for Options {
    ghost use Rattle.std.specs.Prelude.{◌≡◌};
    ghost use Rattle.ioa_record.specs.Options.{default_options};

    ghost is_default = { λ o. o ≡ default_options };

    fn default() -> Self {
        Options::new(DEFAULT_WORKERS, DEFAULT_STEPS, DEFAULT_ATTEMPTS)
    }
}
