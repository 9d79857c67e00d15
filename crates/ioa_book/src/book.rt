//! The book of commits.

ghost use Rattle.std.specs.Prelude.{◌≡◌, ◌≤◌, ◌%◌, [], IfOk, IfErr, IfSome, IsSome, OnOk, OnSome, Some, None};
ghost use Rattle.std.specs.Prelude.{if◌then◌else◌, is_some, length, nat_eq, true};
ghost use Rattle.ioa_values.specs.Outcome.{Answers};
ghost use Rattle.ioa_actions.specs.declared.component.Component.{Component};
ghost use Rattle.ioa_compose.specs.Start.{start};
ghost use Rattle.ioa_commits.specs.Books.{held_of, plain_book, states_held};
ghost use Rattle.ioa_commits.specs.Commits as commits;
ghost use Rattle.ioa_commits.specs.Proposals.{participants_read};
ghost use Rattle.ioa_commits.specs.Versions.{read_confs};
ghost use Rattle.ioa_book.specs.BookLaws.{IsLawful};
ghost use Rattle.ioa_book.specs.Looks as spec;

use crate::outcome::LookFault;
use crate::snapshot::Snapshot;
use ioa_commits::{Committed, Journal, Proposal, Refused, VersionedConf};
use ioa_compose::{Conf, start};
use ioa_rawlog::{RawLog, Spare};
use ioa_sharing::{MakerOf, Origin};
use ioa_system::System;
use ioa_transitions::Entry;
use std::alloc::{AllocError, Global};
use std::marker::Model;

/// A run under way: the configurations at its start, those held now with their versions, and the actions recorded in
/// between. A contract sees the start, the log and the limit. The type keeps that the log replays from the start to the
/// configurations held, that each version held is how often its component has taken part, and that the log is no longer
/// than the limit. What the book holds is shared with whoever looks at it, and bears numbers of the book's maker: by
/// these a commit tells in constant time that a configuration is the one that was read. `O` stands for the maker.
pub struct Book<O: Origin> {
    journal: Journal<O>,
}

/// By hand, so that crates above do not prove again how the parts are let go (DECISIONS).
impl<O: Origin> Drop for Book<O> {
    fn drop(self) {
        let Book { journal: _ } = self;
    }
}

impl<O: Origin> Model for Book<O> {
    ghost use Rattle.ioa_commits.specs.Books.{PlainBook, plain_book_code};

    ghost Value = { PlainBook };

    ghost coded = { plain_book_code };

    ghost view = { λ b. b.journal };
}

impl<O: Origin> Book<O> {
    /// The book of a system in which nothing is recorded yet, and in which at most so many actions may be. The maker
    /// gives what the book holds its numbers.
    pub fn new(
        alloc: Global,
        maker: MakerOf<O>,
        system: &System,
        limit: usize,
    ) -> Result<Self, AllocError>
        requires { limit ≤ 1000000 }
        ensures { IfOk result (λ b. b ≡ plain_book (start system.now) [] limit) }
    {
        let start = start(alloc, system)?;
        let journal = Journal::new(alloc, maker, start, limit)?;
        Ok(Book { journal })
    }

    /// The actions recorded so far. They are an execution that leads to the configurations held, whatever was looked
    /// at, proposed and refused in between.
    pub fn log(&self) -> &RawLog<Entry>
        ensures value { result.now ≡ self.now.log }
        ensures law { IsLawful self.now }
    {
        self.journal.log()
    }

    /// The configurations at the start.
    pub fn start(&self) -> &[Conf]
        ensures { result.now ≡ self.now.start }
    {
        self.journal.start()
    }

    /// How many actions may be recorded.
    pub fn limit(&self) -> usize
        ensures { result ≡ self.now.limit }
    {
        self.journal.limit()
    }

    /// A look at a node: it reads the configurations of the node, of the channels to it and from it, and of its script,
    /// with their versions, and how long the log is. `Unknown` (53) if there is no such node. Nothing is copied: the
    /// look owns what it reads together with the book. It asks for memory only if it reads more than 128 components.
    pub fn look(&self, alloc: Global, node: i64) -> Result<Snapshot<O>, LookFault>
        ensures { Answers LookFault.Memory (λ s. s) result (spec.look_answer self.now node) }
    {
        let mut look = Snapshot::of_nothing(alloc, node);
        self.look_first(&mut look)?;
        Ok(look)
    }

    /// The same look once more, in its place: it shows the book as it is now. What is held as it was read stays; only
    /// of what is another one now a new owner is taken. `Unknown` (53) if there is no such node, and then the look is
    /// as it was. After `Memory` (3) it may be partly of before and partly of now. Returns whether it shows the same as
    /// before, but for the length of the log. That is found in constant time for each component, and may be missed
    /// where equal configurations were made apart.
    #[inline(always)]
    pub fn look_again(&self, look: &mut Snapshot<O>) -> Result<bool, LookFault>
        ensures again { Answers LookFault.Memory (λ _. look.new) result (spec.look_answer self.now look.old.node) }
        ensures node { look.new.node ≡ look.old.node }
        ensures same { IfOk result (λ b. b ≡ true → look.new.reads ≡ look.old.reads) }
        ensures unknown { IfErr result (λ f. f ≡ LookFault.Unknown → look.new ≡ look.old) }
    {
        if self.has_node(look.node()) {
            let is_same = self.refresh(look)?;
            Ok(is_same)
        } else {
            Err(LookFault::Unknown)
        }
    }

    /// The same of a look in which nothing is read yet.
    fn look_first(&self, look: &mut Snapshot<O>) -> Result<(), LookFault>
        ensures { Answers LookFault.Memory (λ _. look.new) result (spec.look_answer self.now look.old.node) }
    {
        if self.has_node(look.node()) {
            self.fill(look)?;
            Ok(())
        } else {
            Err(LookFault::Unknown)
        }
    }

    /// Reads what the node of a look has to do with, into as many places as it takes.
    #[inline(never)]
    #[tactic(auto, using(crate::proofs::OwnReads::look_made))]
    fn fill(&self, look: &mut Snapshot<O>) -> Result<(), AllocError>
        ensures { OnOk result (spec.IsLookAt self.now look.old.node look.new) }
    {
        let slots = self.journal.index().own(look.node());
        look.fill(self.log().len(), slots, self.journal.held())?;
        Ok(())
    }

    /// Reads what the node of a look has to do with, into the places that there are. Returns whether all was there
    /// already.
    #[inline(always)]
    #[tactic(auto, using(crate::proofs::OwnReads::look_made))]
    fn refresh(&self, look: &mut Snapshot<O>) -> Result<bool, AllocError>
        ensures again { OnOk result (spec.IsLookAt self.now look.old.node look.new) }
        ensures node { look.new.node ≡ look.old.node }
        ensures same { IfOk result (λ b. b ≡ true → look.new.reads ≡ look.old.reads) }
    {
        let slots = self.journal.index().own(look.node());
        let is_same = look.refresh(self.log().len(), slots, self.journal.held())?;
        Ok(is_same)
    }

    /// Whether there is a node of this number.
    fn has_node(&self, node: i64) -> bool
        ensures { result ≡ is_some (held_of self.now (Component.Node node)) }
    {
        self.journal.index().has_node(node)
    }

    /// Commits a proposal: the new configurations are held, the versions of the participants rise by one, and the
    /// action is recorded. The reasons to refuse it are tested in this order: `Unknown` (53), `Stale` (50), `Differs`
    /// (51), each of the first participant that it applies to, and `Full` (52). After a refusal the book is as it was.
    /// A commit takes no memory: the spare is linked to the log if its last block is full, and else comes back.
    pub fn commit(
        &mut self,
        proposal: Proposal<O>,
        spare: Spare<Entry>,
    ) -> (Result<Committed<O>, Refused<O>>, Option<Spare<Entry>>)
        ensures committed { IfOk result.0 (λ c. commits.IsCommitted self.old proposal c.index c.entry self.new) }
        ensures reads { IfOk result.0 (λ c. participants_read c.queue c.node ≡ proposal.reads) }
        ensures refused { IfErr result.0 (λ r. commits.IsRefused self.old proposal r.refusal r.proposal self.new) }
        ensures linked { IfOk result.0 (λ _.
            result.1 ≡ (if nat_eq (length self.old.log % 64) 0 then None else Some spare)) }
        ensures kept { IfErr result.0 (λ _. result.1 ≡ Some spare) }
    {
        self.journal.commit(proposal, spare)
    }

    /// Commits the proposal that is offered, if a quick test shows that it stands, and if the log needs no spare. If
    /// not, nothing is told of it, nothing is done, and [`Book::commit`] commits or refuses it. The proposal is taken
    /// out of its place if it is committed. The test takes constant time for each participant. It asks that no
    /// component stands twice in the book, which is so in the book of a system, and that what was read is held still,
    /// the very configuration.
    #[inline(always)]
    pub fn commit_quickly(&mut self, offer: &mut Option<Proposal<O>>) -> Option<Committed<O>>
        ensures committed { IfSome result (λ c. IfSome offer.old
            (λ p. commits.IsCommitted self.old p c.index c.entry self.new)) }
        ensures reads { IfSome result (λ c. IfSome offer.old (λ p. participants_read c.queue c.node ≡ p.reads)) }
        ensures offered { OnSome result (IsSome offer.old) }
        ensures kept { result ≡ None → (self.new ≡ self.old) × (offer.new ≡ offer.old) }
    {
        self.journal.commit_quickly(offer)
    }

    /// Copies of the configurations held.
    pub fn states(&self, alloc: Global) -> Result<Vec<Conf>, AllocError>
        ensures { IfOk result (λ v. v.items ≡ states_held self.now) }
    {
        states_of(alloc, self.journal.held())
    }

    /// Takes the book apart: what is recorded, and the maker, with which another book of the same origin can be made.
    /// This can't fail, so whoever also wants the configurations held asks for their memory first.
    pub fn into_parts(self) -> (RawLog<Entry>, MakerOf<O>)
        ensures log { result.0 ≡ self.log }
        ensures law { IsLawful self }
    {
        let _log = self.log();
        let Book { journal } = self;
        journal.into_parts()
    }
}

/// Copies of the configurations alone.
fn states_of<O: Origin>(alloc: Global, held: &[VersionedConf<O>]) -> Result<Vec<Conf>, AllocError>
    ensures { IfOk result (λ v. v.items ≡ read_confs held.now) }
{
    let mut states = Vec::new(alloc);
    for read in held {
        states.push(read.conf().try_copy(alloc)?)?;
    }
    Ok(states)
}
