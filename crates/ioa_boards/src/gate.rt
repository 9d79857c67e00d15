//! Gates.

/// What is called between the steps of workers, outside of the lock: so a test can hold a worker there. It tells
/// nothing to a worker, and so can't alter what a worker does, but only when. Workers and nodes are told by their
/// numbers.
pub trait Gate {
    /// A worker has looked at a node.
    fn looked(&self, worker: usize, node: i64);

    /// A worker is about to attempt a commit.
    fn before_commit(&self, worker: usize);

    /// A worker has committed.
    fn after_commit(&self, worker: usize);
}

/// The gate that holds nobody.
#[derive(Clone, Copy, Debug, Default)]
pub struct Open;

impl Gate for Open {
    fn looked(&self, _worker: usize, _node: i64) {}

    fn before_commit(&self, _worker: usize) {}

    fn after_commit(&self, _worker: usize) {}
}
