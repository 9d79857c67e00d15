//! What is held and recorded, and its commits.

ghost use Rattle.std.specs.Prelude.{◌≡◌, ◌+◌, ◌%◌, ◌^◌, ◌<◌, ◌≤◌, if◌then◌else◌, [], ◌∷◌, ◌++◌, IfOk, IfErr, IfSome};
ghost use Rattle.std.specs.Prelude.{IsSome, IsTrue, OnSome};
ghost use Rattle.std.specs.Prelude.{None, Some, length, nat_eq, nat_lt, slice_get};
ghost use Rattle.std.specs.Option.{option_copied};
ghost use Rattle.ioa_compose.specs.Composition.{component_names};
ghost use Rattle.ioa_compose.specs.Executions.{replay};
ghost use Rattle.ioa_commits.specs.Books.{held_of, holdings, plain_book, states_held};
ghost use Rattle.ioa_commits.specs.Commits as commits;
ghost use Rattle.ioa_commits.specs.Proposals.{node_read, participants_read, queue_read, reads_of};
ghost use Rattle.ioa_commits.specs.Slots.{AreDistinct, AreHeldIn};
ghost use Rattle.ioa_commits.specs.Versions.{PlainVersionedConf, read_component};

use crate::holding::{
    Slots, advance_all, are_distinct, at_slot, components_of, first_versions, put_all, raise_at,
};
use crate::outcome::{CommitRefusal, Committed, Refused};
use crate::proposal::Proposal;
use crate::standing::{Test, refusal_by};
use crate::versioned::VersionedConf;
use ioa_actions::Component;
use ioa_compose::Conf;
use ioa_index::Index;
use ioa_rawlog::{RawLog, Spare};
use ioa_sharing::{MakerOf, Origin};
use ioa_transitions::Entry;
use std::alloc::{AllocError, Global};
use std::marker::Model;

/// A run under way: the configurations at its start, those held now with their versions, and the entries recorded in
/// between. A contract sees the start, the log and the limit. The type keeps that the log replays from the start to the
/// configurations held, that each version held is how often its component has taken part, and that the log is no longer
/// than the limit. What is held is shared with whoever has read it, and bears numbers of the maker: by these a commit
/// tells in constant time that a configuration is the one that was read. `O` stands for the maker.
pub struct Journal<O: Origin> {
    start: Vec<Conf>,
    held: Vec<VersionedConf<O>>,
    index: Index,
    /// Whether no component stands in two slots, as in a book of a system.
    is_distinct: bool,
    log: RawLog<Entry>,
    limit: usize,
    maker: MakerOf<O>,
}

/// By hand, so that crates above do not prove again how the parts are let go (DECISIONS).
impl<O: Origin> Drop for Journal<O> {
    fn drop(self) {
        let Journal {
            start: _,
            held: _,
            index: _,
            is_distinct: _,
            log: _,
            limit: _,
            maker: _,
        } = self;
    }
}

impl<O: Origin> Model for Journal<O> {
    ghost use Rattle.ioa_commits.specs.Books.{PlainBook, plain_book, plain_book_code};

    ghost Value = { PlainBook };

    ghost coded = { plain_book_code };

    ghost view = { λ j. plain_book j.start.items j.log j.limit };

    ghost use Rattle.ioa_commits.specs.Books.{IsKept};
    ghost use Rattle.std.specs.Prelude.{◌≡◌, true};
    ghost use Rattle.ioa_commits.specs.Slots.{AreDistinct};

    ghost invariant = { λ j. IsKept j.start.items j.held.items j.index j.log j.limit
        × (j.is_distinct ≡ true → AreDistinct j.index) };
}

/// Puts an entry behind the others of a log. The spare comes back unless it was linked.
fn append(log: &mut RawLog<Entry>, entry: Entry, spare: Spare<Entry>) -> Option<Spare<Entry>>
    requires { length log.old + 1 < 2 ^ 64 }
    ensures appended { log.new ≡ log.old ++ entry ∷ [] }
    ensures linked { result ≡ (if nat_eq (length log.old % 64) 0 then None else Some spare) }
{
    match log.push(entry, Some(spare)) {
        Ok(left) => left,
        Err(_) => unreachable!(),
    }
}

/// Puts an entry behind the others of a log whose last block has room.
#[inline(always)]
fn append_within(log: &mut RawLog<Entry>, entry: Entry)
    requires fits { length log.old + 1 < 2 ^ 64 }
    requires room { 0 < length log.old % 64 }
    ensures { log.new ≡ log.old ++ entry ∷ [] }
{
    match log.push(entry, None) {
        Ok(_) => {}
        Err(_) => unreachable!(),
    }
}

impl<O: Origin> Journal<O> {
    /// The journal of a run that begins with these configurations, in which nothing is recorded yet, and in which at
    /// most so many entries may be. The maker gives what is held its numbers.
    pub fn new(
        alloc: Global,
        mut maker: MakerOf<O>,
        start: Vec<Conf>,
        limit: usize,
    ) -> Result<Self, AllocError>
        requires { limit ≤ 1000000 }
        ensures { IfOk result (λ j. j ≡ plain_book start.items [] limit) }
    {
        let held = first_versions(alloc, &mut maker, &start)?;
        let components = components_of(alloc, &start)?;
        let index = Index::new(alloc, components)?;
        let is_distinct = are_distinct(&index, held.len());
        Ok(Journal {
            start,
            held,
            index,
            is_distinct,
            log: RawLog::new(),
            limit,
            maker,
        })
    }

    /// The entries recorded so far. They replay from the start to the configurations held, and are within the limit.
    pub fn log(&self) -> &RawLog<Entry>
        ensures value { result.now ≡ self.now.log }
        ensures leads { replay self.now.log self.now.start ≡ Some (states_held self.now) }
        ensures within { length self.now.log ≤ self.now.limit }
    {
        &self.log
    }

    /// The configurations at the start.
    pub fn start(&self) -> &[Conf]
        ensures { result.now ≡ self.now.start }
    {
        &self.start
    }

    /// How many entries there may be.
    pub fn limit(&self) -> usize
        ensures { result ≡ self.now.limit }
    {
        self.limit
    }

    /// The configurations held, each with its version.
    pub fn held(&self) -> &[VersionedConf<O>]
        ensures { result.now ≡ holdings self.now }
    {
        self.held.as_slice()
    }

    /// The index of their components.
    pub fn index(&self) -> &Index
        ensures { result.now ≡ component_names (states_held self.now) }
    {
        &self.index
    }

    /// What is held of a component.
    pub fn find(&self, component: Component) -> Option<&VersionedConf<O>>
        ensures { option_copied result ≡ held_of self.now component }
    {
        self.find_near(component, 0)
    }

    /// The same, in constant time if it is held in the slot `near`.
    #[inline(always)]
    fn find_near(&self, component: Component, near: usize) -> Option<&VersionedConf<O>>
        ensures { option_copied result ≡ held_of self.now component }
    {
        let slot = self.index.slot_near(component, near)?;
        at_slot(&self.held, slot)
    }

    /// What a test has against what was read of a component.
    fn refusal_by(&self, test: Test, read: &VersionedConf<O>) -> Option<CommitRefusal>
        ensures { result ≡ commits.refusal_by test read.now (held_of self.now (read_component read.now)) }
    {
        refusal_by(test, read, self.find_near(read.component(), read.slot()))
    }

    /// The first that a test refuses of what was read of a queue and a node.
    fn first_of_two(
        &self,
        test: Test,
        queue: &VersionedConf<O>,
        node: &VersionedConf<O>,
    ) -> Option<CommitRefusal>
        ensures { result ≡ commits.first_refusal test self.now (reads_of (Some queue.now) node.now) }
    {
        let refusal = self.refusal_by(test, queue);
        if refusal.is_some() {
            return refusal;
        }
        self.refusal_by(test, node)
    }

    /// The first that a test refuses of what a proposal read.
    fn first_refusal(&self, test: Test, proposal: &Proposal<O>) -> Option<CommitRefusal>
        ensures { result ≡ commits.first_refusal test self.now proposal.now.reads }
    {
        match proposal.queue() {
            None => self.refusal_by(test, proposal.node()),
            Some(queue) => self.first_of_two(test, queue, proposal.node()),
        }
    }

    /// Why a proposal is refused, if it is.
    fn refusal(&self, proposal: &Proposal<O>) -> Option<CommitRefusal>
        ensures { result ≡ commits.refusal_of self.now proposal.now.reads }
    {
        let unknown = self.first_refusal(Test::Known, proposal);
        if unknown.is_some() {
            return unknown;
        }
        let stale = self.first_refusal(Test::Current, proposal);
        if stale.is_some() {
            return stale;
        }
        let differs = self.first_refusal(Test::Same, proposal);
        if differs.is_some() {
            return differs;
        }
        self.full()
    }

    /// `Full` (52) if the log is as long as the limit allows.
    fn full(&self) -> Option<CommitRefusal>
        ensures { result ≡ commits.full self.now }
    {
        if self.has_room() {
            None
        } else {
            Some(CommitRefusal::Full)
        }
    }

    /// Whether the log is shorter than the limit allows.
    fn has_room(&self) -> bool
        ensures { result ≡ nat_lt (length self.now.log) self.now.limit }
    {
        self.log.len() < self.limit
    }

    /// The slot in which a configuration that was read is still held, the very one, with its version. It takes constant
    /// time, and may be missed where equal configurations were made apart.
    #[inline(always)]
    fn slot_held(&self, read: &VersionedConf<O>) -> Option<usize>
        ensures { IfSome result (λ s. slice_get (holdings self.now) s ≡ Some read.now) }
    {
        let slot = read.slot();
        if read.is_held(at_slot(self.held(), slot)?) {
            Some(slot)
        } else {
            None
        }
    }

    /// The slots in which all that a proposal read is still held, if it is.
    #[inline(always)]
    fn slots_held(&self, proposal: &Proposal<O>) -> Option<Slots>
        ensures { IfSome result (λ s. (r : PlainVersionedConf) → node_read proposal.now.reads ≡ Some r →
            AreHeldIn (holdings self.now) s.queue s.node (queue_read proposal.now.reads) r) }
    {
        let node = self.slot_held(proposal.node())?;
        match proposal.queue() {
            None => Some(Slots { queue: node, node }),
            Some(queue) => {
                let queue = self.slot_held(queue)?;
                Some(Slots { queue, node })
            }
        }
    }

    /// Whether no component stands in two slots.
    #[inline(always)]
    fn is_distinct(&self) -> bool
        ensures { IsTrue result → AreDistinct (component_names (states_held self.now)) }
    {
        self.is_distinct
    }

    /// The slots of what a proposal read, if it stands by what can be told quickly.
    #[inline(always)]
    fn slots_standing(&self, proposal: &Proposal<O>) -> Option<Slots>
        ensures { IfSome result (λ s. commits.StandsQuickly self.now proposal.now.reads s.queue s.node) }
    {
        let _node = proposal.node();
        if self.is_distinct() && self.has_room() && !self.log().needs_spare() {
            self.slots_held(proposal)
        } else {
            None
        }
    }

    /// Commits the proposal that is offered, if a quick test shows that it stands, and if the log needs no spare. If
    /// not, nothing is told of it, nothing is done, and [`Journal::commit`] commits or refuses it. The proposal is
    /// taken out of its place if it is committed.
    #[inline(always)]
    pub fn commit_quickly(&mut self, offer: &mut Option<Proposal<O>>) -> Option<Committed<O>>
        ensures committed { IfSome result (λ c. IfSome offer.old
            (λ p. commits.IsCommitted self.old p c.index c.entry self.new)) }
        ensures reads { IfSome result (λ c. IfSome offer.old (λ p. participants_read c.queue c.node ≡ p.reads)) }
        ensures offered { OnSome result (IsSome offer.old) }
        ensures kept { result ≡ None → (self.new ≡ self.old) × (offer.new ≡ offer.old) }
    {
        let slots = match offer {
            Some(proposal) => self.slots_standing(proposal)?,
            None => return None,
        };
        match offer.take() {
            Some(proposal) => Some(self.record_held(proposal, slots)),
            None => None,
        }
    }

    /// Commits a proposal that stands by what can be told quickly.
    #[inline(always)]
    fn record_held(&mut self, proposal: Proposal<O>, slots: Slots) -> Committed<O>
        requires { commits.StandsQuickly self.old proposal.reads slots.queue slots.node }
        ensures committed { commits.IsCommitted self.old proposal result.index result.entry self.new }
        ensures reads { participants_read result.queue result.node ≡ proposal.reads }
    {
        let Proposal {
            entry,
            again,
            length: _length,
            queue,
            node,
        } = proposal;
        let index = self.log.len();
        append_within(&mut self.log, again);
        let (queue, node) = advance_all(&mut self.held, slots, &mut self.maker, queue, node);
        Committed {
            index,
            entry,
            queue,
            node,
        }
    }

    /// Commits a proposal: the new configurations are held, the versions of the participants rise by one, and the entry
    /// is recorded. The reasons to refuse it are tested in this order: `Unknown` (53), `Stale` (50), `Differs` (51),
    /// each of the first participant that it applies to, and `Full` (52). After a refusal the book is as it was. It
    /// takes no memory: the spare is room for more entries, and comes back if there is room already.
    pub fn commit(
        &mut self,
        proposal: Proposal<O>,
        spare: Spare<Entry>,
    ) -> (Result<Committed<O>, Refused<O>>, Option<Spare<Entry>>)
        ensures committed { IfOk result.0 (λ c. commits.IsCommitted self.old proposal c.index c.entry self.new) }
        ensures reads { IfOk result.0 (λ c. participants_read c.queue c.node ≡ proposal.reads) }
        ensures refused { IfErr result.0 (λ r. commits.IsRefused self.old proposal r.refusal r.proposal self.new) }
        ensures linked { IfOk result.0 (λ _.
            result.1 ≡ (if nat_eq (length self.old.log % 64) 0 then None else Some spare)) }
        ensures kept { IfErr result.0 (λ _. result.1 ≡ Some spare) }
    {
        if let Some(refusal) = self.refusal(&proposal) {
            return (Err(Refused { refusal, proposal }), Some(spare));
        }
        let (committed, back) = self.record(proposal, spare);
        (Ok(committed), back)
    }

    /// Commits a proposal that is not refused.
    fn record(
        &mut self,
        proposal: Proposal<O>,
        spare: Spare<Entry>,
    ) -> (Committed<O>, Option<Spare<Entry>>)
        requires { commits.refusal_of self.old proposal.reads ≡ None }
        ensures committed { commits.IsCommitted self.old proposal result.0.index result.0.entry self.new }
        ensures reads { participants_read result.0.queue result.0.node ≡ proposal.reads }
        ensures linked { result.1 ≡ (if nat_eq (length self.old.log % 64) 0 then None else Some spare) }
    {
        let Proposal {
            entry,
            again,
            length: _length,
            queue,
            node,
        } = proposal;
        let index = self.log.len();
        let left = append(&mut self.log, again, spare);
        raise_at(
            &mut self.held,
            self.index.own(entry.action().node()),
            entry.action(),
        );
        let (queue, node) = put_all(&mut self.held, &self.index, &mut self.maker, queue, node);
        let committed = Committed {
            index,
            entry,
            queue,
            node,
        };
        (committed, left)
    }

    /// What is recorded, and the maker.
    pub fn into_parts(self) -> (RawLog<Entry>, MakerOf<O>)
        ensures { result.0 ≡ self.log }
    {
        let Journal {
            start: _,
            held: _,
            index: _,
            is_distinct: _,
            log,
            limit: _,
            maker,
        } = self;
        (log, maker)
    }
}
