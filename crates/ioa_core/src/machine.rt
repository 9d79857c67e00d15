//! The core machine.

ghost use Rattle.std.specs.Prelude.{◌≡◌, ◌<◌, ◌≤◌, [], IfErr, IfOk, OnErr, OnOk, false, length, replicate, slice_get};
ghost use Rattle.std.specs.Prelude.{true};
ghost use Rattle.std.specs.List.{list_any, sum};
ghost use Rattle.ioa_book.specs.BookLaws.{IsLawful};
ghost use Rattle.ioa_compose.specs.Start.{start};
ghost use Rattle.ioa_core.specs.Cores as spec;
ghost use Rattle.ioa_core.specs.Cores.{IsHaltedAt, book_of, empty, has_proposal, plain_core};
ghost use Rattle.ioa_core.specs.Hands.{IsPastProposal};
ghost use Rattle.ioa_core.specs.Replies.{is_memory};
ghost use Rattle.ioa_core.specs.declared.event.Event.TheVariants as event;

use crate::event::Event;
use crate::hand::{
    Drawn, Hand, draw, empty_hands, is_proposed, look_at, no_counts, put_hand, take_hand,
};
use crate::reply::{Reply, reply_to_refusal};
use ioa_actions::Action;
use ioa_book::{Book, Proposal};
use ioa_rawlog::{RawLog, Spare};
use ioa_sharing::{MakerOf, Origin};
use ioa_system::System;
use ioa_transitions::Entry;
use std::alloc::{AllocError, Global};
use std::marker::Model;

/// Hands that look, propose and commit over one book. A contract sees the start, the log, how long it may be, what each
/// hand holds (a node and how long the log was at the look, or an entry and the same), and how many commits each hand
/// has made: no configuration that is held and no version. The type keeps that each look shows what the log led to at
/// its length, that the log is an execution from the start, and that the counts sum to its length. `O` stands for the
/// maker of the book.
pub struct Core<O: Origin> {
    book: Book<O>,
    hands: Vec<Hand<O>>,
    counts: Vec<usize>,
    /// The spare for the next commit, if one is left.
    spare: Option<Spare<Entry>>,
}

/// By hand, so that crates above do not prove again how the parts are let go (DECISIONS).
impl<O: Origin> Drop for Core<O> {
    fn drop(self) {
        let Core {
            book: _,
            hands: _,
            counts: _,
            spare: _,
        } = self;
    }
}

impl<O: Origin> Model for Core<O> {
    ghost use Rattle.std.specs.Prelude.{map};
    ghost use Rattle.ioa_core.specs.Cores.{PlainCore, plain_core, plain_core_code};
    ghost use Rattle.ioa_core.specs.Hands.{IsTied, hand_view};

    ghost Value = { PlainCore };

    ghost coded = { plain_core_code };

    ghost view = { λ c.
        plain_core c.book.start c.book.log c.book.limit (map hand_view c.hands.items) c.counts.items };

    ghost invariant = { λ c. IsTied c.book c.hands.items c.counts.items };
}

/// Want of memory. The core stands after the events that the replies answer, as if the others had not come: so the rest
/// of the events can be tried again.
#[derive(Debug, Drop)]
pub struct Halt {
    /// The replies to the first events. If room for all replies was refused there is none.
    pub replies: Vec<Reply>,
}

impl<O: Origin> Core<O> {
    /// The core of a system in which nothing is recorded yet and so many hands hold nothing. At most so many actions
    /// may be recorded. The maker gives what the book holds its numbers.
    pub fn new(
        alloc: Global,
        maker: MakerOf<O>,
        system: &System,
        limit: usize,
        hands: usize,
    ) -> Result<Self, AllocError>
        requires { limit ≤ 1000000 }
        ensures { IfOk result (λ c.
            c ≡ plain_core (start system.now) [] limit (replicate hands empty) (replicate hands 0)) }
    {
        let counts = no_counts(alloc, hands)?;
        let hands = empty_hands(alloc, hands)?;
        let book = Book::new(alloc, maker, system, limit)?;
        Ok(Core {
            book,
            hands,
            counts,
            spare: None,
        })
    }

    /// How many commits each hand has made.
    pub fn counts(&self) -> &[usize]
        ensures value { result.now ≡ self.now.counts }
        ensures counted { sum self.now.counts ≡ length self.now.log }
    {
        &self.counts
    }

    /// The entries recorded so far. Whatever the hands did, they are an execution that leads to the configurations
    /// held, and each was counted at the hand that committed it.
    pub fn log(&self) -> &RawLog<Entry>
        ensures value { result.now ≡ self.now.log }
        ensures law { IsLawful (book_of self.now) }
        ensures counted { sum self.now.counts ≡ length self.now.log }
    {
        self.book.log()
    }

    /// Takes the core apart: what is recorded, and the maker, with which another book of the same origin can be made.
    pub fn into_parts(self) -> (RawLog<Entry>, MakerOf<O>)
        ensures log { result.0 ≡ self.log }
        ensures law { IsLawful (book_of self) }
    {
        let Core {
            book,
            hands: _,
            counts: _,
            spare: _,
        } = self;
        book.into_parts()
    }

    /// Does what an event says. After want of memory the core is as it was.
    fn answer(&mut self, alloc: Global, event: &Event) -> Result<Reply, AllocError>
        ensures answer { IfOk result (λ r. spec.answer self.old event.now ≡ (r, self.new)) }
        ensures calm { IfOk result (λ r. is_memory r ≡ false) }
        ensures unchanged { OnErr result (self.new ≡ self.old) }
    {
        if event.hand() < self.hands.len() {
            self.answer_by(alloc, event)
        } else {
            Ok(Reply::NoHand)
        }
    }

    /// The same, if there is such a hand.
    fn answer_by(&mut self, alloc: Global, event: &Event) -> Result<Reply, AllocError>
        requires { spec.hand_of event.now < length self.old.hands }
        ensures answer { IfOk result (λ r. spec.answer self.old event.now ≡ (r, self.new)) }
        ensures calm { IfOk result (λ r. is_memory r ≡ false) }
        ensures unchanged { OnErr result (self.new ≡ self.old) }
    {
        match event {
            Event::Look { hand, node } => self.look(alloc, *hand, *node),
            Event::Propose { hand, action } => self.propose(alloc, *hand, action),
            Event::Commit { hand } => self.commit(alloc, *hand),
            Event::Abandon { hand } => Ok(self.abandon(*hand)),
        }
    }

    /// A hand looks at a node.
    fn look(&mut self, alloc: Global, hand: usize, node: i64) -> Result<Reply, AllocError>
        requires { hand < length self.old.hands }
        ensures answer { IfOk result (λ r. spec.answer self.old (event.Look hand node) ≡ (r, self.new)) }
        ensures calm { IfOk result (λ r. is_memory r ≡ false) }
        ensures unchanged { OnErr result (self.new ≡ self.old) }
    {
        match look_at(alloc, &self.book, node)? {
            Some(look) => {
                put_hand(&mut self.hands, hand, Hand::Looked(look));
                Ok(Reply::Looked)
            }
            None => Ok(Reply::NoNode),
        }
    }

    /// A hand proposes an action on its look.
    fn propose(&mut self, alloc: Global, hand: usize, action: &Action) -> Result<Reply, AllocError>
        requires { hand < length self.old.hands }
        ensures answer { IfOk result (λ r. spec.answer self.old (event.Propose hand action.now) ≡ (r, self.new)) }
        ensures calm { IfOk result (λ r. is_memory r ≡ false) }
        ensures unchanged { OnErr result (self.new ≡ self.old) }
    {
        match draw(alloc, &self.hands[hand], action)? {
            Drawn::Proposal(proposal) => {
                put_hand(&mut self.hands, hand, Hand::Proposed(proposal));
                Ok(Reply::Proposed)
            }
            Drawn::Refused(fault) => Ok(Reply::Refused(fault)),
            Drawn::Nothing => Ok(Reply::NothingLooked),
        }
    }

    /// A hand commits its proposal. A spare is made before, if none is left.
    fn commit(&mut self, alloc: Global, hand: usize) -> Result<Reply, AllocError>
        requires { hand < length self.old.hands }
        ensures answer { IfOk result (λ r. spec.answer self.old (event.Commit hand) ≡ (r, self.new)) }
        ensures calm { IfOk result (λ r. is_memory r ≡ false) }
        ensures unchanged { OnErr result (self.new ≡ self.old) }
    {
        if is_proposed(&self.hands[hand]) {
            let spare = spare_of(alloc, &mut self.spare)?;
            Ok(self.commit_held(hand, spare))
        } else {
            Ok(Reply::NothingProposed)
        }
    }

    /// The same, if it holds one.
    fn commit_held(&mut self, hand: usize, spare: Spare<Entry>) -> Reply
        requires { has_proposal (slice_get self.old.hands hand) ≡ true }
        ensures answer { spec.answer self.old (event.Commit hand) ≡ (result, self.new) }
        ensures calm { is_memory result ≡ false }
    {
        match take_hand(&mut self.hands, hand) {
            Hand::Proposed(proposal) => self.commit_proposal(hand, proposal, spare),
            Hand::Empty | Hand::Looked(_) => unreachable!(),
        }
    }

    /// Commits a proposal that a hand held, and counts it.
    fn commit_proposal(&mut self, hand: usize, proposal: Proposal<O>, spare: Spare<Entry>) -> Reply
        requires within { hand < length self.old.hands }
        requires made { IsPastProposal (book_of self.old) proposal }
        ensures answer { spec.commit_on self.old hand proposal.entry proposal.length ≡ (result, self.new) }
        ensures calm { is_memory result ≡ false }
    {
        let (outcome, left) = self.book.commit(proposal, spare);
        self.spare = left;
        match outcome {
            Ok(committed) => {
                self.counts[hand] += 1;
                Reply::Committed(committed.index)
            }
            Err(refused) => reply_to_refusal(refused.refusal),
        }
    }

    /// A hand lets go what it holds.
    fn abandon(&mut self, hand: usize) -> Reply
        requires { hand < length self.old.hands }
        ensures answer { spec.answer self.old (event.Abandon hand) ≡ (result, self.new) }
        ensures calm { is_memory result ≡ false }
    {
        put_hand(&mut self.hands, hand, Hand::Empty);
        Reply::Abandoned
    }
}

/// The spare that is there, or else a new one.
fn spare_of(alloc: Global, spare: &mut Option<Spare<Entry>>) -> Result<Spare<Entry>, AllocError> {
    match spare.take() {
        Some(block) => Ok(block),
        None => Spare::make(alloc),
    }
}

/// Does what the events say, one after another, and gives the reply to each. Room for all replies is asked for before
/// the first event. `Halt` is want of memory: its replies are those to a beginning of the events, shorter than the
/// whole, and the core stands after that. So no reply is a proposal that is refused with `Memory` (3).
pub fn interleave<O: Origin>(
    alloc: Global,
    core: &mut Core<O>,
    events: &[Event],
) -> Result<Vec<Reply>, Halt>
    ensures replies { IfOk result (λ rs. rs.items ≡ spec.replies core.old events.now) }
    ensures after { OnOk result (core.new ≡ spec.core_after core.old events.now) }
    ensures halt { IfErr result (λ h. IsHaltedAt core.old events.now h.replies.items core.new) }
    ensures calm { IfOk result (λ rs. list_any is_memory rs.items ≡ false) }
    ensures calm_halt { IfErr result (λ h. list_any is_memory h.replies.items ≡ false) }
{
    let mut replies = Vec::new(alloc);
    if !events.is_empty() && replies.reserve(events.len()).is_err() {
        return Err(Halt { replies });
    }
    for event in events {
        match core.answer(alloc, event) {
            Ok(reply) => replies.push_reserved(reply),
            Err(AllocError) => return Err(Halt { replies }),
        }
    }
    Ok(replies)
}
