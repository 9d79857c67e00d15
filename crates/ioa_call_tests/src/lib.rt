//! Tests of calls that the program does not make: values that are shared and sequences of many items, streams that halt
//! and fail, joint steps and replays, looks at the largest system, a book under its lock, workers on boards of another
//! book, threads that are refused, and traces.
//!
//! **A crate of its own**, since a crate with tests is proved twice, and each such crate loads the statements of all
//! crates below it anew. So these tests, which cross all crates, share one.
//!
//! **Must not know**: private names.
#![tactic(auto)]

#[cfg(test)]
mod boards;
#[cfg(test)]
mod input;
#[cfg(test)]
mod lock;
#[cfg(test)]
mod looks;
#[cfg(test)]
mod output;
#[cfg(test)]
mod queues;
#[cfg(test)]
mod replays;
#[cfg(test)]
mod sequences;
#[cfg(test)]
mod sets;
#[cfg(test)]
mod sharing;
#[cfg(test)]
mod texts;
#[cfg(test)]
mod threads;
#[cfg(test)]
mod traces;
#[cfg(test)]
mod whole;
