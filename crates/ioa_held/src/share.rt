//! Shares: how many commits a worker has made.

ghost use Rattle.std.specs.Prelude.{◌≡◌, ◌<◌, IfOk, length, replicate, sum};

use std::alloc::{AllocError, Global};
use std::marker::Model;
use std::sync::ledger;
use std::sync::ledger::Ledger;

/// A worker's part of the sum of all commits, and how many of them are its own. The type keeps that the part has just
/// this amount: so the counts of all shares sum to the length of the log.
#[derive(Drop)]
pub struct Share<L: Ledger> {
    pub(crate) count: u64,
    pub(crate) part: ledger::Share<L>,
}

impl<L: Ledger> Model for Share<L> {
    ghost use Rattle.std.specs.Prelude.{◌≡◌, ℕ};

    ghost Value = { ℕ };

    ghost view = { λ s. s.count };

    ghost invariant = { λ s. (s.part.parts ≡ 1) × (s.part.amount ≡ s.count) };
}

/// So many shares of a part each, which count nothing yet, out of a share that has as many parts.
pub(crate) fn shares_of<L: Ledger>(
    alloc: Global,
    mut rest: ledger::Share<L>,
    workers: u64,
) -> Result<Vec<Share<L>>, AllocError>
    requires parts { rest.parts ≡ workers }
    requires amount { rest.amount ≡ 0 }
    ensures { IfOk result (λ v. v.items ≡ replicate workers 0) }
{
    let mut shares = Vec::new(alloc);
    for _ in 0..workers {
        let part = rest.split_off(1, 0);
        shares.push(Share::first(part))?;
    }
    Ok(shares)
}

/// What each share counts.
pub(crate) fn counts_of<L: Ledger>(
    alloc: Global,
    shares: &[Share<L>],
) -> Result<Vec<u64>, AllocError>
    ensures { IfOk result (λ v. v.items ≡ shares.now) }
{
    let mut counts = Vec::new(alloc);
    for share in shares {
        counts.push(share.count())?;
    }
    Ok(counts)
}

/// All parts of some shares, put together.
pub(crate) fn whole_of<L: Ledger>(mut shares: Vec<Share<L>>) -> ledger::Share<L>
    requires { 0 < length shares.items }
    ensures parts { result.parts ≡ length shares.items }
    ensures amount { result.amount ≡ sum shares.items }
{
    let mut whole = match shares.pop() {
        Some(last) => last.into_part(),
        None => unreachable!(),
    };
    while let Some(share) = shares.pop() {
        whole.merge(share.into_part());
    }
    whole
}

impl<L: Ledger> Share<L> {
    /// A share that counts nothing yet.
    fn first(part: ledger::Share<L>) -> Self
        requires parts { part.parts ≡ 1 }
        requires amount { part.amount ≡ 0 }
        ensures { result ≡ 0 }
    {
        Share { count: 0, part }
    }

    /// The part alone.
    fn into_part(self) -> ledger::Share<L>
        ensures parts { result.parts ≡ 1 }
        ensures amount { result.amount ≡ self }
    {
        self.part
    }

    /// How many commits were made with it.
    pub fn count(&self) -> u64
        ensures { result ≡ self.now }
    {
        self.count
    }
}
