//! Proposals of entries.

ghost use Rattle.std.specs.Prelude.{◌≡◌, IfOk, Some};
ghost use Rattle.std.specs.Arc.{arc_value};
ghost use Rattle.std.specs.Option.{option_copied};
ghost use Rattle.ioa_commits.specs.Proposals.{IsTrueProposal, node_read, participants_next, participants_read};
ghost use Rattle.ioa_commits.specs.Proposals.{plain_participant, plain_proposal, queue_read, reads_of};

use crate::versioned::VersionedConf;
use ioa_compose::Conf;
use ioa_sharing::Origin;
use ioa_transitions::Entry;
use std::alloc::{AllocError, Global};
use std::marker::Model;
use std::sync::Arc;

/// What was read of a participant, and its configuration after its own step. It is one word, so that it is moved at
/// little cost. A commit leaves in it the configuration that was held, and then it is room for another one.
pub struct Participant<O: Origin> {
    /// The two, each of which can be written over.
    pub parts: Box<Parts<O>>,
}

/// By hand, so that crates above do not prove again how the parts are let go (DECISIONS).
impl<O: Origin> Drop for Participant<O> {
    #[inline(always)]
    fn drop(self) {
        let Participant { parts: _ } = self;
    }
}

/// The parts of a participant.
pub struct Parts<O: Origin> {
    /// What was read.
    pub read: VersionedConf<O>,
    /// The configuration after the step.
    pub next: Arc<Conf>,
}

/// By hand, so that crates above do not prove again how the parts are let go (DECISIONS).
impl<O: Origin> Drop for Parts<O> {
    #[inline(always)]
    fn drop(self) {
        let Parts { read: _, next: _ } = self;
    }
}

impl<O: Origin> Model for Participant<O> {
    ghost use Rattle.std.specs.Arc.{arc_value};
    ghost use Rattle.ioa_commits.specs.Proposals.{PlainParticipant, plain_participant, plain_participant_code};

    ghost Value = { PlainParticipant };

    ghost coded = { plain_participant_code };

    ghost view = { λ p. plain_participant p.parts.value.read (arc_value p.parts.value.next) };
}

impl<O: Origin> Participant<O> {
    /// A participant of which this was read, and whose step leads to this configuration.
    pub fn new(alloc: Global, read: VersionedConf<O>, next: Arc<Conf>) -> Result<Self, AllocError>
        ensures { IfOk result (λ p. p ≡ plain_participant read (arc_value next)) }
    {
        let parts = Box::new(alloc, Parts { read, next })?;
        Ok(Participant { parts })
    }

    /// What was read.
    pub fn read(&self) -> &VersionedConf<O>
        ensures { result.now ≡ self.now.read }
    {
        &self.parts.read
    }
}

/// An entry with what was read of its participants, and their new configurations. The type keeps that these are the
/// participants' own steps from what was read. It is a few words, so that it is moved at little cost.
#[derive(Drop)]
pub struct Proposal<O: Origin> {
    pub(crate) entry: Entry,
    /// The same entry, for the log.
    pub(crate) again: Entry,
    pub(crate) length: usize,
    pub(crate) queue: Option<Participant<O>>,
    pub(crate) node: Participant<O>,
}

impl<O: Origin> Model for Proposal<O> {
    ghost use Rattle.ioa_commits.specs.Proposals.{PlainProposal, plain_proposal, plain_proposal_code};

    ghost Value = { PlainProposal };

    ghost coded = { plain_proposal_code };

    ghost use Rattle.ioa_commits.specs.Proposals.{IsTrueProposal, participants_next, participants_read};

    ghost view = { λ p. plain_proposal p.entry p.length (participants_read p.queue p.node) };

    ghost invariant = { λ p.
        IsTrueProposal p.entry p.again (participants_read p.queue p.node) (participants_next p.queue p.node) };
}

impl<O: Origin> Proposal<O> {
    /// The proposal of an entry whose participants were read so, and whose own steps lead to these configurations: a
    /// queue, if one takes part, and a node. `again` is the entry once more, for the log.
    pub fn new(
        entry: Entry,
        again: Entry,
        length: usize,
        queue: Option<Participant<O>>,
        node: Participant<O>,
    ) -> Self
        requires { IsTrueProposal entry again (participants_read queue node) (participants_next queue node) }
        ensures { result ≡ plain_proposal entry length (participants_read queue node) }
    {
        Proposal {
            entry,
            again,
            length,
            queue,
            node,
        }
    }

    /// The entry.
    pub fn entry(&self) -> &Entry
        ensures { result.now ≡ self.now.entry }
    {
        &self.entry
    }

    /// How long the log was at the look.
    pub fn length(&self) -> usize
        ensures { result ≡ self.now.length }
    {
        self.length
    }

    /// What was read of the queue, if one takes part.
    pub fn queue(&self) -> Option<&VersionedConf<O>>
        ensures { option_copied result ≡ queue_read self.now.reads }
    {
        match &self.queue {
            Some(queue) => Some(queue.read()),
            None => None,
        }
    }

    /// What was read of the node.
    pub fn node(&self) -> &VersionedConf<O>
        ensures node { Some result.now ≡ node_read self.now.reads }
        ensures reads { reads_of (queue_read self.now.reads) result.now ≡ self.now.reads }
    {
        self.node.read()
    }
}
