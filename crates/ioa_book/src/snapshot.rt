//! Looks at a node.

ghost use Rattle.std.specs.Prelude.{◌≡◌, [], ◌∷◌, IfOk, OnOk, Some, true};
ghost use Rattle.std.specs.Option.{option_copied};
ghost use Rattle.std.specs.Ordering.{int_eq};
ghost use Rattle.ioa_values.specs.Outcome.{Answers};
ghost use Rattle.ioa_actions.specs.ActionParts.{node_of};
ghost use Rattle.ioa_compose.specs.Participants.{participants_of};
ghost use Rattle.ioa_commits.specs.Versions.{read_component};
ghost use Rattle.ioa_book.specs.Looks.{plain_snapshot};
ghost use Rattle.ioa_book.specs.Proposals as spec;
ghost use Rattle.ioa_book.specs.Slots.{items_at};

use crate::proposing::{proposal_of_one, proposal_of_two};
use crate::reading::{ROOM, read_again, read_in_place};
use crate::reads::Reads;
use crate::rooms::Rooms;
use ioa_actions::{Action, Component, StepFault};
use ioa_commits::{Proposal, VersionedConf};
use ioa_compose::{Parties, participants};
use ioa_sharing::Origin;
use ioa_transitions::Entry;
use smallvec::SmallVec;
use std::alloc::{AllocError, Global};
use std::marker::Model;

/// What a look at a node has read: the configurations of the node, of the channels to it and from it, and of its
/// script, each with its version, and how long the log was. It has room for as many as a node of a system of 64 nodes
/// can have to do with, so it asks for no memory; more go to the heap. What is read stands in an `Option`, since a
/// place in which nothing is read yet has a blank.
pub struct Snapshot<O: Origin> {
    node: i64,
    length: usize,
    reads: SmallVec<Option<VersionedConf<O>>, ROOM>,
}

/// By hand, so that crates above do not prove again how the parts are let go (DECISIONS).
impl<O: Origin> Drop for Snapshot<O> {
    #[inline(always)]
    fn drop(self) {
        let Snapshot {
            node: _,
            length: _,
            reads: _,
        } = self;
    }
}

impl<O: Origin> Model for Snapshot<O> {
    ghost use Rattle.ioa_book.specs.Looks.{PlainSnapshot, plain_snapshot, plain_snapshot_code};
    ghost use Rattle.ioa_book.specs.Slots.{those_there};

    ghost Value = { PlainSnapshot };

    ghost coded = { plain_snapshot_code };

    ghost view = { λ s. plain_snapshot s.node s.length (those_there s.reads.items) };
}

impl<O: Origin> Snapshot<O> {
    /// A look at a node that has read nothing yet.
    pub(crate) fn of_nothing(alloc: Global, node: i64) -> Self
        ensures { result ≡ plain_snapshot node 0 [] }
    {
        Snapshot {
            node,
            length: 0,
            reads: SmallVec::new(alloc),
        }
    }

    /// Reads what is held in these slots, while the log is so long, into as many places as it takes.
    #[inline(never)]
    pub(crate) fn fill(
        &mut self,
        length: usize,
        slots: &[usize],
        held: &[VersionedConf<O>],
    ) -> Result<(), AllocError>
        ensures again { OnOk result (self.new ≡ plain_snapshot self.old.node length (items_at slots.now held.now)) }
        ensures node { self.new.node ≡ self.old.node }
    {
        read_again(&mut self.reads, slots, held)?;
        self.length = length;
        Ok(())
    }

    /// The same, into the places that there are if these are as many. Returns whether all was there already.
    #[inline(always)]
    pub(crate) fn refresh(
        &mut self,
        length: usize,
        slots: &[usize],
        held: &[VersionedConf<O>],
    ) -> Result<bool, AllocError>
        ensures again { OnOk result (self.new ≡ plain_snapshot self.old.node length (items_at slots.now held.now)) }
        ensures node { self.new.node ≡ self.old.node }
        ensures same { IfOk result (λ b. b ≡ true → self.new.reads ≡ self.old.reads) }
    {
        if self.reads.len() == slots.len() {
            let is_same = read_in_place(self.reads.as_mut_slice(), slots, held)?;
            self.length = length;
            Ok(is_same)
        } else {
            self.fill(length, slots, held)?;
            Ok(false)
        }
    }

    /// The node that was looked at.
    pub fn node(&self) -> i64
        ensures { result ≡ self.now.node }
    {
        self.node
    }

    /// How long the log was.
    pub fn length(&self) -> usize
        ensures { result ≡ self.now.length }
    {
        self.length
    }

    /// What was read, in the order of the components.
    pub fn reads(&self) -> Reads<'_, O>
        ensures { result ≡ self.now.reads }
    {
        Reads::over(self.reads.as_slice())
    }

    /// What was read of a component, if it was.
    #[inline(always)]
    pub fn read_of(&self, component: Component) -> Option<&VersionedConf<O>>
        ensures { option_copied result ≡ spec.find_read component self.now.reads }
    {
        for read in self.reads() {
            if component == read.component() {
                return Some(read);
            }
        }
        None
    }

    /// A proposal to take the action of an entry on what was read; what that entry chose does not count. `NotMine` (41)
    /// if the action is another node's than the one looked at; `NoChannel` (42) if a participant was not read; else the
    /// first fault of the participants' own steps, the queue's first. The snapshot stays as it is. The entry is only
    /// lent: the proposal and the log own it beside whoever lent it, and of one that is no step nothing is copied.
    pub fn propose(&self, alloc: Global, fired: &Entry) -> Result<Proposal<O>, StepFault>
        ensures { Answers StepFault.Memory (λ p. p) result (spec.proposal_answer fired.now.action self.now) }
    {
        let mut rooms = Rooms::none();
        let fired = fired.try_clone()?;
        self.propose_in(alloc, fired, None, &mut rooms)
    }

    /// The same proposal, with room for it: where nobody else owns what is there, the new configurations are written
    /// over that. If `rule_number` is that of the action's rule in the node's program, the rule is not searched for.
    #[inline(always)]
    pub fn propose_in(
        &self,
        alloc: Global,
        fired: Entry,
        rule_number: Option<usize>,
        rooms: &mut Rooms<O>,
    ) -> Result<Proposal<O>, StepFault>
        ensures { Answers StepFault.Memory (λ p. p) result (spec.proposal_answer fired.action self.now) }
    {
        if is_own(fired.action(), self.node) {
            self.propose_step(alloc, fired, rule_number, rooms)
        } else {
            Err(StepFault::NotMine)
        }
    }

    /// A proposal to take an action of the node that was looked at.
    #[inline(always)]
    fn propose_step(
        &self,
        alloc: Global,
        fired: Entry,
        rule_number: Option<usize>,
        rooms: &mut Rooms<O>,
    ) -> Result<Proposal<O>, StepFault>
        ensures { Answers StepFault.Memory (λ p. p) result (spec.step_answer fired.action self.now) }
    {
        match participants(fired.action()) {
            Parties::One(node) => self.propose_alone(alloc, fired, rule_number, node, rooms),
            Parties::Two(queue, node) => {
                self.propose_with(alloc, fired, rule_number, queue, node, rooms)
            }
        }
    }

    /// A proposal to take an action in which a node alone takes part.
    #[inline(always)]
    fn propose_alone(
        &self,
        alloc: Global,
        fired: Entry,
        rule_number: Option<usize>,
        node: Component,
        rooms: &mut Rooms<O>,
    ) -> Result<Proposal<O>, StepFault>
        requires { participants_of fired.action ≡ node ∷ [] }
        ensures { Answers StepFault.Memory (λ p. p) result (spec.step_answer fired.action self.now) }
    {
        match self.read_of(node) {
            Some(node) => { proposal_of_one(alloc, fired, rule_number, self.length(), node, rooms) }
            None => Err(StepFault::NoChannel),
        }
    }

    /// A proposal to take an action in which a queue and a node take part.
    #[inline(never)]
    fn propose_with(
        &self,
        alloc: Global,
        fired: Entry,
        rule_number: Option<usize>,
        queue: Component,
        node: Component,
        rooms: &mut Rooms<O>,
    ) -> Result<Proposal<O>, StepFault>
        requires { participants_of fired.action ≡ queue ∷ node ∷ [] }
        ensures { Answers StepFault.Memory (λ p. p) result (spec.step_answer fired.action self.now) }
    {
        match self.read_of(queue) {
            Some(queue) => self.propose_beside(alloc, fired, rule_number, queue, node, rooms),
            None => Err(StepFault::NoChannel),
        }
    }

    /// The same, if this was read of the queue.
    fn propose_beside(
        &self,
        alloc: Global,
        fired: Entry,
        rule_number: Option<usize>,
        queue: &VersionedConf<O>,
        node: Component,
        rooms: &mut Rooms<O>,
    ) -> Result<Proposal<O>, StepFault>
        requires parts { participants_of fired.action ≡ read_component queue.now ∷ node ∷ [] }
        requires found { Some queue.now ≡ spec.find_read (read_component queue.now) self.now.reads }
        ensures { Answers StepFault.Memory (λ p. p) result (spec.step_answer fired.action self.now) }
    {
        match self.read_of(node) {
            Some(node) => proposal_of_two(
                alloc,
                fired,
                rule_number,
                self.length(),
                queue,
                node,
                rooms,
            ),
            None => Err(StepFault::NoChannel),
        }
    }
}

/// Whether an action is one of this node.
#[inline(always)]
fn is_own(action: &Action, node: i64) -> bool
    ensures { result ≡ int_eq (node_of action.now) node }
{
    action.node() == node
}
