//! What hands hold.

ghost use Rattle.std.specs.Prelude.{◌≡◌, ◌<◌, IfOk, false, get_or, length, replicate, set};
ghost use Rattle.ioa_actions.specs.declared.fault.StepFault.{StepFault};
ghost use Rattle.ioa_book.specs.Looks.{look_answer};
ghost use Rattle.ioa_book.specs.Proposals.{proposal_answer};
ghost use Rattle.ioa_core.specs.Hands.{drawn_by, drawn_on, is_proposed, is_refused_for_memory, look_result};
ghost use Rattle.ioa_core.specs.declared.hand.Drawn.{Drawn};
ghost use Rattle.ioa_core.specs.declared.hand.Hand.{Hand};

use ioa_actions::{Action, StepFault};
use ioa_book::{Book, LookFault, Proposal, Snapshot};
use ioa_sharing::Origin;
use ioa_transitions::Entry;
use std::alloc::{AllocError, Global};
use std::mem;

/// What a hand holds. A look is large, and stands behind a pointer.
#[derive(Drop)]
pub(crate) enum Hand<O: Origin> {
    /// Nothing.
    Empty,
    /// A look at a node.
    Looked(Box<Snapshot<O>>),
    /// A proposal on a look.
    Proposed(Proposal<O>),
}

/// What comes of proposing an action on what a hand holds.
#[derive(Drop)]
pub(crate) enum Drawn<O: Origin> {
    /// The proposal.
    Proposal(Proposal<O>),
    /// The action is no step on the look.
    Refused(StepFault),
    /// The hand holds no look.
    Nothing,
}

/// So many hands that hold nothing.
pub(crate) fn empty_hands<O: Origin>(
    alloc: Global,
    count: usize,
) -> Result<Vec<Hand<O>>, AllocError>
    ensures { IfOk result (λ v. v.items ≡ replicate count Hand.Empty) }
{
    let mut hands = Vec::new(alloc);
    for _ in 0..count {
        hands.push(Hand::Empty)?;
    }
    Ok(hands)
}

/// As many counts, each 0.
pub(crate) fn no_counts(alloc: Global, count: usize) -> Result<Vec<usize>, AllocError>
    ensures { IfOk result (λ v. v.items ≡ replicate count 0) }
{
    let mut counts = Vec::new(alloc);
    for _ in 0..count {
        counts.push(0)?;
    }
    Ok(counts)
}

/// Whether a hand holds a proposal.
pub(crate) fn is_proposed<O: Origin>(hand: &Hand<O>) -> bool
    ensures { result ≡ is_proposed hand.now }
{
    match hand {
        Hand::Proposed(_) => true,
        Hand::Empty | Hand::Looked(_) => false,
    }
}

/// Puts something into a hand, and lets go what it held.
pub(crate) fn put_hand<O: Origin>(hands: &mut Vec<Hand<O>>, hand: usize, held: Hand<O>)
    requires { hand < length hands.old.items }
    ensures { hands.new.items ≡ set hands.old.items hand held }
{
    let _before = mem::replace(&mut hands[hand], held);
}

/// Takes out of a hand what it holds.
pub(crate) fn take_hand<O: Origin>(hands: &mut Vec<Hand<O>>, hand: usize) -> Hand<O>
    requires { hand < length hands.old.items }
    ensures taken { result ≡ get_or hands.old.items hand Hand.Empty }
    ensures left { hands.new.items ≡ set hands.old.items hand Hand.Empty }
{
    mem::replace(&mut hands[hand], Hand::Empty)
}

/// A look at a node, or none if there is no such node.
pub(crate) fn look_at<O: Origin>(
    alloc: Global,
    book: &Book<O>,
    node: i64,
) -> Result<Option<Box<Snapshot<O>>>, AllocError>
    ensures { IfOk result (λ found. look_answer book.now node ≡ look_result found) }
{
    match book.look(alloc, node) {
        Ok(look) => Ok(Some(Box::new(alloc, look)?)),
        Err(LookFault::Unknown) => Ok(None),
        Err(LookFault::Memory) => Err(AllocError),
    }
}

/// What comes of proposing an action on what a hand holds.
pub(crate) fn draw<O: Origin>(
    alloc: Global,
    hand: &Hand<O>,
    action: &Action,
) -> Result<Drawn<O>, AllocError>
    ensures drawn { IfOk result (λ d. d ≡ drawn_by action.now hand.now) }
    ensures calm { IfOk result (λ d. is_refused_for_memory d ≡ false) }
{
    match hand {
        Hand::Looked(look) => draw_on(alloc, look, action),
        Hand::Empty | Hand::Proposed(_) => Ok(Drawn::Nothing),
    }
}

/// The same on a look.
fn draw_on<O: Origin>(
    alloc: Global,
    look: &Snapshot<O>,
    action: &Action,
) -> Result<Drawn<O>, AllocError>
    ensures drawn { IfOk result (λ d. d ≡ drawn_on (proposal_answer action.now look.now)) }
    ensures calm { IfOk result (λ d. is_refused_for_memory d ≡ false) }
{
    let fired = Entry::of(alloc, action.try_copy(alloc)?)?;
    match look.propose(alloc, &fired) {
        Ok(proposal) => Ok(Drawn::Proposal(proposal)),
        Err(StepFault::Memory) => Err(AllocError),
        Err(fault) => Ok(Drawn::Refused(fault)),
    }
}
