//! What the program keeps between its commands: a text, a book, a core, looks, proposals and passes.

mod books;
mod hands;
mod looks;
mod passes;
mod proposals;

use crate::blank::BlankOf;
use crate::desk::Desk;
use crate::reading::{count_of, only_count, only_number};
use ioa_book::{Book, Proposal, Snapshot};
use ioa_core::Core;
use ioa_passes::Pass;
use ioa_rawlog::Spare;
use ioa_rows::{CommandFault, Session};
use ioa_sharing::{MakerOf, Origin, SharedOf};
use ioa_system::System;
use ioa_transitions::Entry;
use ioa_values::Word;
use std::alloc::{AllocError, Global};
use std::sync::Arc;
use std::sync::ledger::Ledger;

/// The help of the program.
const HELP: &str = "\
Answers a script of commands about books of commits: writes the script from standard input anew, with the answers.
A line `= ..` is an answer, an empty line and a line `# ..` are remarks. Looks, proposals, systems and passes are
counted from 0.

| LINE                    adds a line to the system text; the first one after a book begins a new text
book LIMIT                makes a book of the text, in which at most LIMIT actions may be recorded, and drops all looks
                          and proposals: a book; or why the text is refused
another LIMIT             the same, but all looks and proposals stay, so those of the book before can be tried on it
look NODE                 looks at a node: look NUMBER at node NODE; or 53 Unknown
again LOOK                looks again at the node of a look, in its place: look NUMBER at node NODE; or 53 Unknown
propose LOOK ACTION       proposes an action on a look: proposal NUMBER of ACTION; or why it is no step
commit PROPOSAL           commits a proposal: INDEX ACTION; or the refusal, and the action of the proposal, which stays
log                       the actions that are recorded, or: no action
length look LOOK          how long the log was at a look
length proposal PROPOSAL  how long the log was at the look of a proposal
count LOOK                how many components a look has read
version LOOK COMPONENT    the version that a look has read of a component, or: not read
same LOOK LOOK COMPONENT  whether two looks have read equal configurations of a component: equal, different, not read
end                       takes the book apart: the actions that are recorded, and how many states they lead to

The core machine: hands that look, propose and commit, each of which holds one look or one proposal, counted from 0. If
there is no such hand, the reply is NoHand.

core HANDS LIMIT          makes a core of the text, in place of the book: a core; or why the text is refused
hand HAND look NODE       a hand looks at a node: Looked or NoNode
hand HAND propose ACTION  it proposes an action on its look: Proposed, Refused with the fault of the step, NothingLooked
hand HAND commit          it commits its proposal: Committed with the index in the log, 50 Stale with a component, its
                          version at the look and its version now, 52 Full, or NothingProposed
hand HAND abandon         it lets go what it holds: Abandoned
counts                    how many commits each hand has made

A book as it stands under the commit lock, with one share of what is committed. A script can make one such book, and no
other book behind it.

system                    keeps the system of the text: system NUMBER; or why the text is refused
held SYSTEM LIMIT         makes such a book of a system, in place of the book; looks and proposals stay: a held book
pass SYSTEM               makes a pass that has seen nothing of a system yet: pass NUMBER
rise PASS LOOK            lets a pass rise to a look: risen; or 54 Older
view PASS NODE            looks at a node of the held book under a pass, as look does; or 53 Unknown, or 54 Older
review PASS LOOK          the same at the node of a look, in its place
attempt PASS PROPOSAL     commits a proposal under a pass, as commit does; or 54 Older
seen PASS COMPONENT       the version at which a pass has seen a component
seen PASS log             how long the log was when the pass saw it
share                     how many commits the share counts
opened SYSTEM             whether the held book was opened with this system: true or false
finish SYSTEM LIMIT TIMES finishes the held book, with each receipt handed in so many times: the actions that are
                          recorded, how many states they lead to, and the commits of each share; or the fault, and
                          the book stays

ACTION is send VALUE FROM TO, receive VALUE FROM TO, local NODE NAME VALUE.., or stimulus NODE NAME VALUE.., and a VALUE
is a number, true, false or a constant of the text. COMPONENT is node NODE, channel FROM TO, or script NODE.";

/// The session of the program. `O` stands for the maker of its books, and `L` for the ledger of its held book.
pub(crate) struct BookRows<O: Origin, L: Ledger> {
    alloc: Global,
    /// The system text, line by line.
    text: String,
    /// Whether a book was made of the text.
    is_read: bool,
    /// The system of the last text that was not refused.
    system: Option<Arc<System>>,
    /// The systems that are kept.
    systems: Vec<SharedOf<O, System, Global>>,
    /// What makes the next book, if there is none.
    maker: Option<MakerOf<O>>,
    book: Option<Box<Book<O>>>,
    core: Option<Box<Core<O>>>,
    /// What the held book is opened with, until it is.
    blank: Option<BlankOf<L>>,
    desk: Option<Box<Desk<O, L>>>,
    looks: Vec<Snapshot<O>>,
    /// The proposals; none in the place of one that is committed.
    proposals: Vec<Option<Proposal<O>>>,
    passes: Vec<Pass>,
    /// The spare for the next commit, if one is left.
    spare: Option<Spare<Entry>>,
}

/// By hand, so that no function proves again how the parts are let go.
impl<O: Origin, L: Ledger> Drop for BookRows<O, L> {
    fn drop(self) {
        let BookRows {
            alloc: _,
            text: _,
            is_read: _,
            system: _,
            systems: _,
            maker: _,
            book: _,
            core: _,
            blank: _,
            desk: _,
            looks: _,
            proposals: _,
            passes: _,
            spare: _,
        } = self;
    }
}

impl<O: Origin, L: Ledger> BookRows<O, L> {
    /// A session with no text and no book.
    pub(crate) fn new(alloc: Global, maker: MakerOf<O>, blank: BlankOf<L>) -> Self {
        BookRows {
            alloc,
            text: String::new(alloc),
            is_read: false,
            system: None,
            systems: Vec::new(alloc),
            maker: Some(maker),
            book: None,
            core: None,
            blank: Some(blank),
            desk: None,
            looks: Vec::new(alloc),
            proposals: Vec::new(alloc),
            passes: Vec::new(alloc),
            spare: None,
        }
    }

    /// The book.
    fn book(&self) -> Result<&Book<O>, CommandFault> {
        match &self.book {
            Some(book) => Ok(book),
            None => Err(CommandFault::Bad("there is no book")),
        }
    }

    /// The constants of the last text that was not refused.
    fn constants(&self) -> &[Word] {
        match &self.system {
            Some(system) => system.names().as_slice(),
            None => &[],
        }
    }

    /// Answers a command that is no line of a text.
    fn answer_words(&mut self, command: &str) -> Result<String, CommandFault> {
        let words = words_of(self.alloc, command)?;
        match words.as_slice() {
            [name, rest @ ..] => self.answer_named(name, rest),
            [] => Err(CommandFault::Bad("a command is wanted")),
        }
    }

    /// Answers the command of a name, with the words behind it.
    fn answer_named(&mut self, name: &str, words: &[&str]) -> Result<String, CommandFault> {
        match name.as_bytes() {
            b"book" => self.begin(only_count(words)?),
            b"another" => self.open(only_count(words)?),
            b"look" => self.look(only_number(words)?),
            b"again" => self.again(only_count(words)?),
            b"propose" => self.propose(words),
            b"commit" => self.commit(only_count(words)?),
            b"log" => self.log(words),
            b"length" => self.length(words),
            b"count" => self.count(only_count(words)?),
            b"version" => self.version(words),
            b"same" => self.same(words),
            b"end" => self.end(words),
            b"core" => self.begin_core(words),
            b"hand" => self.hand(words),
            b"counts" => self.counts(words),
            _ => self.answer_at_desk(name, words),
        }
    }

    /// The same of a command about passes and the held book.
    fn answer_at_desk(&mut self, name: &str, words: &[&str]) -> Result<String, CommandFault> {
        match name.as_bytes() {
            b"system" => self.keep_system(words),
            b"held" => self.hold(words),
            b"pass" => self.pass(only_count(words)?),
            b"rise" => self.rise(words),
            b"view" => self.view(words),
            b"review" => self.review(words),
            b"attempt" => self.attempt(words),
            b"seen" => self.seen(words),
            b"share" => self.share(words),
            b"opened" => self.opened(only_count(words)?),
            b"finish" => self.finish(words),
            _ => Err(CommandFault::Bad("there is no such command")),
        }
    }

    /// How long the log was at a look, or at the look of a proposal.
    fn length(&self, words: &[&str]) -> Result<String, CommandFault> {
        match words {
            [of, number] => self.length_of(of, count_of(number)?),
            _ => Err(CommandFault::Bad("look or proposal and a number are wanted")),
        }
    }

    /// How long the log was at what a word says.
    fn length_of(&self, of: &str, number: usize) -> Result<String, CommandFault> {
        match of.as_bytes() {
            b"look" => self.look_length(number),
            b"proposal" => self.proposal_length(number),
            _ => Err(CommandFault::Bad("look or proposal is wanted")),
        }
    }
}

/// The words of a command.
fn words_of(alloc: Global, command: &str) -> Result<Vec<&str>, AllocError> {
    command.split_whitespace().collect(alloc)
}

impl<O: Origin, L: Ledger> Session for BookRows<O, L> {
    fn help(&self) -> &'static str {
        HELP
    }

    fn answer(&mut self, command: &str) -> Result<String, CommandFault> {
        match command.strip_prefix("| ") {
            Some(line) => self.add_line(line),
            None => self.answer_words(command),
        }
    }
}
