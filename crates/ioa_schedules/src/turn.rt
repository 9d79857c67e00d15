//! What a turn of a block comes to.

use ioa_terms::{Callee, Firing, Shape};

/// How many statements a turn takes at most (profile): one in which the block stands at no `fire` by then is
/// idle, and the next turn goes on from there.
pub const TURN_LIMIT: usize = 1000;

/// How a turn of a block ends (profile).
#[derive(Clone, Copy)]
pub enum Turn<'a> {
    /// The block stands at this `fire`. It keeps the values of the arguments.
    Fire(&'a Firing<usize, Callee, Shape>),
    /// The block has taken as many statements as a turn may, and has more to do.
    Idle,
    /// Nothing is left to do.
    Done,
}
