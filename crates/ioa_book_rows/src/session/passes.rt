//! Passes, and a book as it stands under the commit lock.

ghost use Rattle.std.specs.Prelude.{◌≤◌};

use super::BookRows;
use super::books::MOST_ACTIONS;
use super::proposals::spare_of;
use crate::desk::Desk;
use crate::reading::{component_of, count_of, count_within, no_more, number_of, two_counts};
use ioa_book::Snapshot;
use ioa_passes::{Pass, ViewFault};
use ioa_rows::CommandFault;
use ioa_sharing::{MakerOf, Origin, SharedOf};
use ioa_system::System;
use std::alloc::{AllocError, Global};
use std::sync::Arc;
use std::sync::ledger::Ledger;

impl<O: Origin, L: Ledger> BookRows<O, L> {
    /// Keeps the system of the text.
    pub(super) fn keep_system(&mut self, words: &[&str]) -> Result<String, CommandFault> {
        no_more(words)?;
        match self.read()? {
            Some(refusal) => Ok(refusal),
            None => self.number_system(),
        }
    }

    /// Gives the system that was read a number, and tells how many were kept before it.
    fn number_system(&mut self) -> Result<String, CommandFault> {
        self.clear();
        match (&self.system, &mut self.maker) {
            (Some(system), Some(maker)) => {
                Ok(system_text(self.alloc, maker, system, &mut self.systems)?)
            }
            _ => Err(CommandFault::Bad("there is no maker")),
        }
    }

    /// The kept system of a number.
    fn system_at(&self, number: usize) -> Result<&SharedOf<O, System, Global>, CommandFault> {
        match self.systems.get(number) {
            Some(system) => Ok(system),
            None => Err(CommandFault::Bad("there is no such system")),
        }
    }

    /// Makes the held book of a kept system.
    pub(super) fn hold(&mut self, words: &[&str]) -> Result<String, CommandFault> {
        match words {
            [system, limit] => {
                let system = count_of(system)?;
                let limit = count_within(
                    limit,
                    MOST_ACTIONS,
                    "a number of actions up to 1000000 is wanted",
                )?;
                self.hold_system(system, limit)
            }
            _ => Err(CommandFault::Bad("a system and a limit are wanted")),
        }
    }

    /// The same with the system of a number.
    fn hold_system(&mut self, number: usize, limit: usize) -> Result<String, CommandFault>
        requires { limit ≤ 1000000 }
    {
        self.clear();
        match (self.systems.get(number), self.maker.is_some()) {
            (Some(_), true) => self.open_desk(number, limit),
            (None, _) => Err(CommandFault::Bad("there is no such system")),
            (_, false) => Err(CommandFault::Bad("there was a held book")),
        }
    }

    /// The same, if there is such a system and a maker.
    fn open_desk(&mut self, number: usize, limit: usize) -> Result<String, CommandFault>
        requires { limit ≤ 1000000 }
    {
        match (
            self.systems.get(number),
            self.maker.take(),
            self.blank.take(),
        ) {
            (Some(system), Some(maker), Some(blank)) => {
                self.desk = Some(Desk::open(self.alloc, maker, blank, system, limit)?);
                Ok(String::from_str(self.alloc, "a held book")?)
            }
            _ => Err(CommandFault::Bad("there was a held book")),
        }
    }

    /// Makes a pass that has seen nothing.
    pub(super) fn pass(&mut self, system: usize) -> Result<String, CommandFault> {
        let pass = Pass::new(self.alloc, self.system_at(system)?.get())?;
        Ok(self.keep_pass(pass)?)
    }

    /// Keeps a pass, and tells its number.
    fn keep_pass(&mut self, pass: Pass) -> Result<String, AllocError> {
        let number = self.passes.len();
        self.passes.push(pass)?;
        format!(in self.alloc; "pass {number}")
    }

    /// Lets a pass rise to a look.
    pub(super) fn rise(&mut self, words: &[&str]) -> Result<String, CommandFault> {
        let (pass, look) = two_counts(words)?;
        match (self.passes.get_mut(pass), self.looks.get(look)) {
            (Some(pass), Some(look)) => Ok(risen_text(self.alloc, pass, look)?),
            (None, _) => Err(CommandFault::Bad("there is no such pass")),
            (_, None) => Err(CommandFault::Bad("there is no such look")),
        }
    }

    /// Looks at a node of the held book.
    pub(super) fn view(&mut self, words: &[&str]) -> Result<String, CommandFault> {
        match words {
            [pass, node] => self.view_node(count_of(pass)?, number_of(node)?),
            _ => Err(CommandFault::Bad("a pass and a node are wanted")),
        }
    }

    fn view_node(&mut self, pass: usize, node: i64) -> Result<String, CommandFault> {
        match (&self.desk, self.passes.get_mut(pass)) {
            (Some(desk), Some(pass)) => {
                let look = desk.look(self.alloc, pass, node);
                Ok(self.keep_viewed(look)?)
            }
            (None, _) => Err(CommandFault::Bad("there is no held book")),
            (_, None) => Err(CommandFault::Bad("there is no such pass")),
        }
    }

    /// Keeps a look, or tells why there is none.
    fn keep_viewed(&mut self, found: Result<Snapshot<O>, ViewFault>) -> Result<String, AllocError> {
        match found {
            Ok(look) => self.keep_look(look),
            Err(fault) => format!(in self.alloc; "{fault}"),
        }
    }

    /// Looks again at the node of a look of the held book, in its place.
    pub(super) fn review(&mut self, words: &[&str]) -> Result<String, CommandFault> {
        let (pass, number) = two_counts(words)?;
        match (
            &self.desk,
            self.passes.get_mut(pass),
            self.looks.get_mut(number),
        ) {
            (Some(desk), Some(pass), Some(look)) => {
                Ok(reviewed_text(self.alloc, number, look.node(), desk.look_again(look, pass))?)
            }
            (None, _, _) => Err(CommandFault::Bad("there is no held book")),
            (_, None, _) => Err(CommandFault::Bad("there is no such pass")),
            (_, _, None) => Err(CommandFault::Bad("there is no such look")),
        }
    }

    /// Commits a proposal under a pass. One that is missed stays.
    pub(super) fn attempt(&mut self, words: &[&str]) -> Result<String, CommandFault> {
        let (pass, proposal) = two_counts(words)?;
        let spare = spare_of(self.alloc, &mut self.spare)?;
        match (
            &mut self.desk,
            self.passes.get_mut(pass),
            self.proposals.get_mut(proposal),
        ) {
            (Some(desk), Some(pass), Some(place)) => {
                desk.attempt(self.alloc, pass, place, spare, &mut self.spare)
            }
            (None, _, _) => Err(CommandFault::Bad("there is no held book")),
            (_, None, _) => Err(CommandFault::Bad("there is no such pass")),
            (_, _, None) => Err(CommandFault::Bad("there is no such proposal")),
        }
    }

    /// What a pass has seen.
    pub(super) fn seen(&self, words: &[&str]) -> Result<String, CommandFault> {
        match words {
            [pass, of, nodes @ ..] => self.seen_of(count_of(pass)?, of, nodes),
            _ => Err(CommandFault::Bad("a pass and log or a component are wanted")),
        }
    }

    fn seen_of(&self, pass: usize, of: &str, nodes: &[&str]) -> Result<String, CommandFault> {
        match self.passes.get(pass) {
            Some(pass) => {
                let seen = seen_by(pass, of, nodes)?;
                Ok(format!(in self.alloc; "{seen}")?)
            }
            None => Err(CommandFault::Bad("there is no such pass")),
        }
    }

    /// How many commits the share counts.
    pub(super) fn share(&self, words: &[&str]) -> Result<String, CommandFault> {
        no_more(words)?;
        match &self.desk {
            Some(desk) => {
                let count = desk.count();
                Ok(format!(in self.alloc; "{count}")?)
            }
            None => Err(CommandFault::Bad("there is no held book")),
        }
    }

    /// Whether the held book was opened with a kept system.
    pub(super) fn opened(&self, number: usize) -> Result<String, CommandFault> {
        let system = self.system_at(number)?;
        match &self.desk {
            Some(desk) => {
                let is_opened = desk.is_opened_with(system);
                Ok(format!(in self.alloc; "{is_opened}")?)
            }
            None => Err(CommandFault::Bad("there is no held book")),
        }
    }

    /// Finishes the held book.
    pub(super) fn finish(&mut self, words: &[&str]) -> Result<String, CommandFault> {
        match words {
            [system, limit, times] => {
                let system = count_of(system)?;
                let limit = count_of(limit)?;
                self.finish_with(system, limit, count_of(times)?)
            }
            _ => Err(CommandFault::Bad("a system, a limit and a number of times are wanted")),
        }
    }

    /// The same with the system of a number.
    fn finish_with(
        &mut self,
        system: usize,
        limit: usize,
        times: usize,
    ) -> Result<String, CommandFault> {
        match self.systems.get(system) {
            Some(system) => finish_at(self.alloc, &mut self.desk, system, limit, times),
            None => Err(CommandFault::Bad("there is no such system")),
        }
    }
}

/// Finishes the held book in a place, which is then empty. One that is not finished stays in its place.
fn finish_at<O: Origin, L: Ledger>(
    alloc: Global,
    place: &mut Option<Box<Desk<O, L>>>,
    system: &SharedOf<O, System, Global>,
    limit: usize,
    times: usize,
) -> Result<String, CommandFault> {
    match place.take() {
        Some(desk) => {
            let receipts = desk.receipts(alloc, times)?;
            Ok(desk.finish(alloc, system, limit, receipts, place)?)
        }
        None => Err(CommandFault::Bad("there is no held book")),
    }
}

/// Keeps a system behind others, with a number of its own, and tells how many were there before it.
fn system_text<O: Origin>(
    alloc: Global,
    maker: &mut MakerOf<O>,
    system: &Arc<System>,
    systems: &mut Vec<SharedOf<O, System, Global>>,
) -> Result<String, AllocError> {
    let count = systems.len();
    let system = Arc::try_clone(system)?;
    systems.push(maker.share(system))?;
    format!(in alloc; "system {count}")
}

/// Lets a pass rise to a look, or tells what of it is older than the pass has seen.
fn risen_text<O: Origin>(
    alloc: Global,
    pass: &mut Pass,
    look: &Snapshot<O>,
) -> Result<String, AllocError> {
    match pass.rise_unless_older(look) {
        None => String::from_str(alloc, "risen"),
        Some(older) => format!(in alloc; "{older}"),
    }
}

/// The number and the node of a look that was looked at again, or why it could not be.
fn reviewed_text(
    alloc: Global,
    number: usize,
    node: i64,
    again: Result<bool, ViewFault>,
) -> Result<String, AllocError> {
    match again {
        Ok(_) => super::looks::look_text(alloc, number, node),
        Err(fault) => format!(in alloc; "{fault}"),
    }
}

/// At which length of the log, or version of a component, a pass has seen it.
fn seen_by(pass: &Pass, of: &str, nodes: &[&str]) -> Result<usize, CommandFault> {
    match of.as_bytes() {
        b"log" => {
            no_more(nodes)?;
            Ok(pass.length())
        }
        _ => Ok(pass.seen(component_of(of, nodes)?)),
    }
}
