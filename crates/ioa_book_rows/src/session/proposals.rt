//! Proposals, and their commits.

use super::BookRows;
use crate::answers::{action_text, committed_text, refused_text};
use crate::reading::{action_of, count_of};
use ioa_actions::StepFault;
use ioa_book::{Book, Committed, Proposal, Refused};
use ioa_rawlog::Spare;
use ioa_rows::CommandFault;
use ioa_sharing::Origin;
use ioa_transitions::Entry;
use std::alloc::{AllocError, Global};
use std::sync::ledger::Ledger;

impl<O: Origin, L: Ledger> BookRows<O, L> {
    /// Proposes an action on a look.
    pub(super) fn propose(&mut self, words: &[&str]) -> Result<String, CommandFault> {
        let found = self.proposed(words)?;
        self.keep_found(found)
    }

    /// What comes of the proposal of an action on a look.
    fn proposed(&self, words: &[&str]) -> Result<Result<Proposal<O>, StepFault>, CommandFault> {
        match words {
            [look, rest @ ..] => {
                let look = self.look_at(count_of(look)?)?;
                let action = action_of(self.alloc, self.constants(), rest)?;
                let fired = Entry::of(self.alloc, action)?;
                Ok(look.propose(self.alloc, &fired))
            }
            _ => Err(CommandFault::Bad("a look and an action are wanted")),
        }
    }

    /// Keeps a proposal, or tells why there is none.
    fn keep_found(
        &mut self,
        found: Result<Proposal<O>, StepFault>,
    ) -> Result<String, CommandFault> {
        match found {
            Ok(proposal) => Ok(self.keep(proposal)?),
            Err(fault) => Ok(format!(in self.alloc; "{fault}")?),
        }
    }

    /// Keeps a proposal, and tells its number and its action.
    fn keep(&mut self, proposal: Proposal<O>) -> Result<String, AllocError> {
        let number = self.proposals.len();
        self.proposals.push(Some(proposal))?;
        self.kept_text(number)
    }

    /// The number and the action of a proposal.
    fn kept_text(&self, number: usize) -> Result<String, AllocError> {
        match self.proposals.get(number) {
            Some(Some(proposal)) => {
                let action = action_text(self.alloc, proposal.entry().action())?;
                format!(in self.alloc; "proposal {number} of {action}")
            }
            _ => String::from_str(self.alloc, "no proposal"),
        }
    }

    /// How long the log was at the look of a proposal.
    pub(super) fn proposal_length(&self, number: usize) -> Result<String, CommandFault> {
        match self.proposals.get(number) {
            Some(Some(proposal)) => {
                let length = proposal.length();
                Ok(format!(in self.alloc; "{length}")?)
            }
            _ => Err(CommandFault::Bad("there is no such proposal")),
        }
    }

    /// Commits a proposal. One that is refused stays.
    pub(super) fn commit(&mut self, number: usize) -> Result<String, CommandFault> {
        match (&mut self.book, self.proposals.get_mut(number)) {
            (Some(book), Some(place)) => commit_at(self.alloc, book, place, &mut self.spare),
            (None, _) => Err(CommandFault::Bad("there is no book")),
            (_, None) => Err(CommandFault::Bad("there is no such proposal")),
        }
    }
}

/// Commits the proposal in a place, which is then empty. One that is refused stays in its place.
fn commit_at<O: Origin>(
    alloc: Global,
    book: &mut Book<O>,
    place: &mut Option<Proposal<O>>,
    kept: &mut Option<Spare<Entry>>,
) -> Result<String, CommandFault> {
    let spare = spare_of(alloc, kept)?;
    match place.take() {
        Some(proposal) => {
            let (done, left) = book.commit(proposal, spare);
            *kept = left;
            Ok(done_text(alloc, place, done)?)
        }
        None => {
            *kept = Some(spare);
            Err(CommandFault::Bad("the proposal is committed"))
        }
    }
}

/// The spare that is kept, or a new one.
pub(super) fn spare_of(
    alloc: Global,
    kept: &mut Option<Spare<Entry>>,
) -> Result<Spare<Entry>, AllocError> {
    match kept.take() {
        Some(spare) => Ok(spare),
        None => Spare::make(alloc),
    }
}

/// What comes of the commit of a proposal, which comes into this place if it is refused.
fn done_text<O: Origin>(
    alloc: Global,
    place: &mut Option<Proposal<O>>,
    done: Result<Committed<O>, Refused<O>>,
) -> Result<String, AllocError> {
    match done {
        Ok(committed) => committed_text(alloc, committed.index, committed.entry.action()),
        Err(refused) => put_back(alloc, place, refused),
    }
}

/// Puts a refused proposal back into its place, and tells why it was refused.
fn put_back<O: Origin>(
    alloc: Global,
    place: &mut Option<Proposal<O>>,
    refused: Refused<O>,
) -> Result<String, AllocError> {
    let Refused { refusal, proposal } = refused;
    let proposal = place.insert(proposal);
    refused_text(alloc, &refusal, proposal.entry().action())
}
