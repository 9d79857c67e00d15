//! Looks, and what they have read.

use super::BookRows;
use crate::reading::{component_of, count_of};
use ioa_actions::Component;
use ioa_book::{LookFault, Snapshot};
use ioa_rows::CommandFault;
use ioa_sharing::Origin;
use std::alloc::{AllocError, Global};
use std::sync::ledger::Ledger;

impl<O: Origin, L: Ledger> BookRows<O, L> {
    /// Looks at a node.
    pub(super) fn look(&mut self, node: i64) -> Result<String, CommandFault> {
        match self.book()?.look(self.alloc, node) {
            Ok(look) => Ok(self.keep_look(look)?),
            Err(fault) => Ok(format!(in self.alloc; "{fault}")?),
        }
    }

    /// Keeps a look, and tells its number and its node.
    pub(super) fn keep_look(&mut self, look: Snapshot<O>) -> Result<String, AllocError> {
        let number = self.looks.len();
        let node = look.node();
        self.looks.push(look)?;
        look_text(self.alloc, number, node)
    }

    /// Looks again at the node of a look, in its place.
    pub(super) fn again(&mut self, number: usize) -> Result<String, CommandFault> {
        match (&self.book, self.looks.get_mut(number)) {
            (Some(book), Some(look)) => {
                let node = look.node();
                Ok(again_text(self.alloc, number, node, book.look_again(look))?)
            }
            (None, _) => Err(CommandFault::Bad("there is no book")),
            (_, None) => Err(CommandFault::Bad("there is no such look")),
        }
    }

    /// How many components a look has read.
    pub(super) fn count(&self, number: usize) -> Result<String, CommandFault> {
        let mut count: usize = 0;
        for _ in self.look_at(number)?.reads() {
            count = count.saturating_add(1);
        }
        Ok(format!(in self.alloc; "{count}")?)
    }

    /// The look of a number.
    pub(super) fn look_at(&self, number: usize) -> Result<&Snapshot<O>, CommandFault> {
        match self.looks.get(number) {
            Some(look) => Ok(look),
            None => Err(CommandFault::Bad("there is no such look")),
        }
    }

    /// How long the log was at a look.
    pub(super) fn look_length(&self, number: usize) -> Result<String, CommandFault> {
        let length = self.look_at(number)?.length();
        Ok(format!(in self.alloc; "{length}")?)
    }

    /// The version that a look has read of a component.
    pub(super) fn version(&self, words: &[&str]) -> Result<String, CommandFault> {
        match words {
            [look, kind, nodes @ ..] => {
                self.version_of(count_of(look)?, component_of(kind, nodes)?)
            }
            _ => Err(CommandFault::Bad("a look and a component are wanted")),
        }
    }

    fn version_of(&self, number: usize, component: Component) -> Result<String, CommandFault> {
        match self.look_at(number)?.read_of(component) {
            Some(read) => {
                let version = read.version();
                Ok(format!(in self.alloc; "{version}")?)
            }
            None => Ok(String::from_str(self.alloc, "not read")?),
        }
    }

    /// Whether two looks have read equal configurations of a component.
    pub(super) fn same(&self, words: &[&str]) -> Result<String, CommandFault> {
        match words {
            [look, other, kind, nodes @ ..] => self.same_of(
                count_of(look)?,
                count_of(other)?,
                component_of(kind, nodes)?,
            ),
            _ => Err(CommandFault::Bad("two looks and a component are wanted")),
        }
    }

    fn same_of(
        &self,
        number: usize,
        other: usize,
        component: Component,
    ) -> Result<String, CommandFault> {
        let look = self.look_at(number)?;
        let other = self.look_at(other)?;
        Ok(String::from_str(self.alloc, same_text(look, other, component))?)
    }
}

/// Whether two looks have read equal configurations of a component, in words.
fn same_text<O: Origin>(
    look: &Snapshot<O>,
    other: &Snapshot<O>,
    component: Component,
) -> &'static str {
    match (look.read_of(component), other.read_of(component)) {
        (Some(read), Some(second)) if read.conf().equals(second.conf()) => "equal",
        (Some(_), Some(_)) => "different",
        _ => "not read",
    }
}

/// The number of a look, and its node.
pub(super) fn look_text(alloc: Global, number: usize, node: i64) -> Result<String, AllocError> {
    format!(in alloc; "look {number} at node {node}")
}

/// The same of a look that was looked at again, or why it could not be.
fn again_text(
    alloc: Global,
    number: usize,
    node: i64,
    again: Result<bool, LookFault>,
) -> Result<String, AllocError> {
    match again {
        Ok(_) => look_text(alloc, number, node),
        Err(fault) => format!(in alloc; "{fault}"),
    }
}
