//! Entries of a record, taken once more.

ghost use Rattle.std.specs.Prelude.{◌≡◌, [], ◌∷◌, IfOk, OnOk, Some, Ok, true};
ghost use Rattle.ioa_actions.specs.ActionParts as spec;
ghost use Rattle.ioa_book.specs.Looks.{IsLookAt, snapshot_after};
ghost use Rattle.ioa_book.specs.Proposals.{proposal_answer};
ghost use Rattle.ioa_commits.specs.Commits.{IsCommitted};
ghost use Rattle.ioa_commits.specs.Versions.{read_confs};
ghost use Rattle.ioa_compose.specs.Composition as conf;
ghost use Rattle.ioa_tell.specs.Marks as mark;
ghost use Rattle.ioa_tell.specs.Steps.{HearsTaken, IsNext};
ghost use Rattle.ioa_tell.specs.Told.{TellsOn};

use crate::event::Event;
use crate::fault::TellFault;
use crate::tells::Tells;
use ioa_actions::Component;
use ioa_book::{Book, Committed, Proposal, Refused, Snapshot, VersionedConf};
use ioa_compose::Conf;
use ioa_rawlog::Spare;
use ioa_reasons::{conf_of, queue_of};
use ioa_sharing::Origin;
use ioa_transitions::Entry;
use std::alloc::{AllocError, Global};

/// Takes an entry once more, which is to be that of the proposal, and tells it.
pub(crate) fn take<O: Origin, T: Tells>(
    alloc: Global,
    book: &mut Book<O>,
    look: &mut Snapshot<O>,
    entry: &Entry,
    proposal: Proposal<O>,
    spare: &mut Option<Spare<Entry>>,
    out: &mut T,
) -> Result<(), TellFault>
    requires fresh { IsLookAt book.old look.old.node look.old }
    requires proposed { proposal_answer proposal.entry.action look.old ≡ Ok proposal }
    ensures told { OnOk result (TellsOn T.hears book.old book.new (entry.now ∷ []) [] out.old out.new
        (mark.took entry.now ∷ [])) }
    ensures same { OnOk result (proposal.entry ≡ entry.now) }
{
    if is_proposed(&proposal, entry) {
        take_proposed(alloc, book, look, entry, proposal, spare, out)
    } else {
        Err(TellFault::Differs)
    }
}

/// Whether a proposal is of this entry.
fn is_proposed<O: Origin>(proposal: &Proposal<O>, entry: &Entry) -> bool
    ensures { result ≡ true → proposal.now.entry ≡ entry.now }
{
    proposal.entry().equals(entry)
}

/// The same of an entry that is that of the proposal.
fn take_proposed<O: Origin, T: Tells>(
    alloc: Global,
    book: &mut Book<O>,
    look: &mut Snapshot<O>,
    entry: &Entry,
    proposal: Proposal<O>,
    spare: &mut Option<Spare<Entry>>,
    out: &mut T,
) -> Result<(), TellFault>
    requires fresh { IsLookAt book.old look.old.node look.old }
    requires proposed { proposal_answer proposal.entry.action look.old ≡ Ok proposal }
    requires same { proposal.entry ≡ entry.now }
    ensures { OnOk result (TellsOn T.hears book.old book.new (entry.now ∷ []) [] out.old out.new
        (mark.took entry.now ∷ [])) }
{
    let number = look.length();
    let before = node_of(look, entry)?;
    commit(alloc, book, proposal, spare)?;
    refresh(book, look)?;
    tell_taken(alloc, look, number, entry, before.conf(), out)
}

/// What a look shows of the node of an entry, which owns it beside the look.
fn node_of<O: Origin>(look: &Snapshot<O>, entry: &Entry) -> Result<VersionedConf<O>, TellFault>
    ensures { IfOk result (λ r. conf.find_conf (Component.Node (spec.node_of entry.now.action))
        (read_confs look.now.reads) ≡ Some r.conf) }
{
    read_of(look, Component::Node(entry.action().node()))
}

/// Looks once more at a node that was looked at.
pub(crate) fn refresh<O: Origin>(book: &Book<O>, look: &mut Snapshot<O>) -> Result<(), TellFault>
    ensures { OnOk result (IsLookAt book.now look.old.node look.new) }
{
    book.look_again(look)?;
    Ok(())
}

/// What a look shows of a component, which owns it beside the look.
fn read_of<O: Origin>(
    look: &Snapshot<O>,
    component: Component,
) -> Result<VersionedConf<O>, TellFault>
    ensures { IfOk result (λ r. conf.find_conf component (read_confs look.now.reads) ≡ Some r.conf) }
{
    match look.read_of(component) {
        Some(read) => Ok(read.try_copy()?),
        None => Err(TellFault::Differs),
    }
}

/// Commits a proposal.
fn commit<O: Origin>(
    alloc: Global,
    book: &mut Book<O>,
    proposal: Proposal<O>,
    spare: &mut Option<Spare<Entry>>,
) -> Result<(), TellFault>
    ensures { OnOk result (IsNext book.old proposal.entry book.new) }
{
    let block = spare_of(alloc, spare)?;
    match commit_with(book, proposal, block, spare) {
        Ok(_) => Ok(()),
        Err(_) => Err(TellFault::Differs),
    }
}

/// The same with a block, of which is kept what is left.
fn commit_with<O: Origin>(
    book: &mut Book<O>,
    proposal: Proposal<O>,
    block: Spare<Entry>,
    spare: &mut Option<Spare<Entry>>,
) -> Result<Committed<O>, Refused<O>>
    ensures { IfOk result (λ c. IsCommitted book.old proposal c.index c.entry book.new) }
{
    let (result, left) = book.commit(proposal, block);
    *spare = left;
    result
}

/// The spare that is there, or else a new one.
fn spare_of(alloc: Global, spare: &mut Option<Spare<Entry>>) -> Result<Spare<Entry>, AllocError> {
    match spare.take() {
        Some(block) => Ok(block),
        None => Spare::make(alloc),
    }
}

/// Tells an action that was taken, on a look at its node after it.
fn tell_taken<O: Origin, T: Tells>(
    alloc: Global,
    look: &Snapshot<O>,
    number: usize,
    entry: &Entry,
    before: &Conf,
    out: &mut T,
) -> Result<(), TellFault>
    ensures { OnOk result (HearsTaken T.hears look.now number entry.now before.now out.old out.new) }
{
    let Some(after) = conf_of(look, Component::Node(entry.action().node())) else {
        return Err(TellFault::Differs);
    };
    let queue = queue_of(look, entry.action());
    let event = Event::Taken {
        number,
        entry,
        before,
        after,
        queue,
    };
    out.event(alloc, event)
}
