//! Hands of the core machine.

ghost use Rattle.std.specs.Prelude.{◌≤◌};

use super::BookRows;
use super::books::MOST_ACTIONS;
use crate::answers::counts_text;
use crate::reading::{action_of, count_within, no_more, only_number};
use ioa_core::{Core, Event, Halt, interleave};
use ioa_rows::CommandFault;
use ioa_sharing::{MakerOf, Origin};
use ioa_system::System;
use ioa_values::Word;
use std::alloc::{AllocError, Global};
use std::slice;
use std::sync::ledger::Ledger;

/// The most hands.
const MOST_HANDS: usize = 1000;

impl<O: Origin, L: Ledger> BookRows<O, L> {
    /// Makes a core of the text.
    pub(super) fn begin_core(&mut self, words: &[&str]) -> Result<String, CommandFault> {
        match words {
            [hands, limit] => {
                let hands = count_within(
                    hands,
                    MOST_HANDS,
                    "a number of hands up to 1000 is wanted",
                )?;
                let limit = count_within(
                    limit,
                    MOST_ACTIONS,
                    "a number of actions up to 1000000 is wanted",
                )?;
                self.open_core(hands, limit)
            }
            _ => Err(CommandFault::Bad("core HANDS LIMIT is wanted")),
        }
    }

    /// Makes a core of the text, by the maker of the book or the core before it.
    fn open_core(&mut self, hands: usize, limit: usize) -> Result<String, CommandFault>
        requires { limit ≤ 1000000 }
    {
        match self.read()? {
            Some(refusal) => Ok(refusal),
            None => self.open_core_read(hands, limit),
        }
    }

    /// Makes a core of the system that was read.
    fn open_core_read(&mut self, hands: usize, limit: usize) -> Result<String, CommandFault>
        requires { limit ≤ 1000000 }
    {
        self.clear();
        match (&self.system, self.maker.take()) {
            (Some(system), Some(maker)) => {
                self.core = Some(core_of(self.alloc, maker, system, limit, hands)?);
                Ok(String::from_str(self.alloc, "a core")?)
            }
            _ => Err(CommandFault::Bad("there is no maker")),
        }
    }

    /// The reply to an event of a hand.
    pub(super) fn hand(&mut self, words: &[&str]) -> Result<String, CommandFault> {
        let event = event_of(self.alloc, self.constants(), words)?;
        match &mut self.core {
            Some(core) => reply_text(self.alloc, core, &event),
            None => Err(CommandFault::Bad("there is no core")),
        }
    }

    /// How many commits each hand has made.
    pub(super) fn counts(&self, words: &[&str]) -> Result<String, CommandFault> {
        no_more(words)?;
        match &self.core {
            Some(core) => Ok(counts_text(self.alloc, core.counts())?),
            None => Err(CommandFault::Bad("there is no core")),
        }
    }
}

/// The core of a system, behind a pointer.
fn core_of<O: Origin>(
    alloc: Global,
    maker: MakerOf<O>,
    system: &System,
    limit: usize,
    hands: usize,
) -> Result<Box<Core<O>>, AllocError>
    requires { limit ≤ 1000000 }
{
    let core = Core::new(alloc, maker, system, limit, hands)?;
    Ok(Box::new(alloc, core)?)
}

/// The reply to an event.
fn reply_text<O: Origin>(
    alloc: Global,
    core: &mut Core<O>,
    event: &Event,
) -> Result<String, CommandFault> {
    match interleave(alloc, core, slice::from_ref(event)) {
        Ok(replies) => match replies.as_slice() {
            [reply] => Ok(format!(in alloc; "{reply}")?),
            _ => Err(CommandFault::Bad("there is no reply")),
        },
        Err(Halt { .. }) => Err(CommandFault::Memory),
    }
}

/// The event that words are, in a text that declares these constants.
fn event_of(alloc: Global, constants: &[Word], words: &[&str]) -> Result<Event, CommandFault> {
    match words {
        [hand, name, rest @ ..] => event_named(alloc, constants, hand_of(hand)?, name, rest),
        _ => Err(CommandFault::Bad("hand HAND EVENT is wanted")),
    }
}

/// The number of a hand that a word is.
fn hand_of(word: &str) -> Result<usize, CommandFault> {
    match word.parse::<usize>() {
        Ok(hand) => Ok(hand),
        Err(_) => Err(CommandFault::Bad("the number of a hand, from 0, is wanted")),
    }
}

/// The event of a hand with a name, and with these words behind it.
fn event_named(
    alloc: Global,
    constants: &[Word],
    hand: usize,
    name: &str,
    words: &[&str],
) -> Result<Event, CommandFault> {
    match name.as_bytes() {
        b"look" => {
            let node = only_number(words)?;
            Ok(Event::Look { hand, node })
        }
        b"propose" => {
            let action = action_of(alloc, constants, words)?;
            Ok(Event::Propose { hand, action })
        }
        b"commit" => {
            no_more(words)?;
            Ok(Event::Commit { hand })
        }
        b"abandon" => {
            no_more(words)?;
            Ok(Event::Abandon { hand })
        }
        _ => Err(CommandFault::Bad("look, propose, commit or abandon is wanted")),
    }
}
