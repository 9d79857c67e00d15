//! Texts, and books of their systems.

ghost use Rattle.std.specs.Prelude.{◌≤◌};

use super::BookRows;
use crate::answers::{execution_text, log_text};
use crate::reading::no_more;
use ioa_book::Book;
use ioa_check::check;
use ioa_rawlog::RawLog;
use ioa_rows::CommandFault;
use ioa_sections::CheckFault;
use ioa_sharing::{MakerOf, Origin};
use ioa_system::System;
use ioa_text_reader::parse;
use ioa_transitions::Entry;
use std::alloc::{AllocError, Global};
use std::sync::Arc;
use std::sync::ledger::Ledger;

/// The greatest limit of a book.
pub(super) const MOST_ACTIONS: usize = 1_000_000;

impl<O: Origin, L: Ledger> BookRows<O, L> {
    /// Adds a line to the text, or begins a new one if a book was made of this one. There is no answer.
    pub(super) fn add_line(&mut self, line: &str) -> Result<String, CommandFault> {
        if self.is_read {
            self.text = String::new(self.alloc);
            self.is_read = false;
        }
        self.text.push_str(line)?;
        self.text.push('\n')?;
        Ok(String::new(self.alloc))
    }

    /// Reads the text and keeps its system, or tells why it is refused.
    pub(super) fn read(&mut self) -> Result<Option<String>, AllocError> {
        self.is_read = true;
        match parse(self.alloc, &self.text) {
            Ok(source) => self.keep_checked(check(self.alloc, source.text())),
            Err(fault) => Ok(Some(format!(in self.alloc; "{fault}")?)),
        }
    }

    /// Keeps what the check of the text found, or tells why it is refused.
    fn keep_checked(
        &mut self,
        found: Result<System, CheckFault>,
    ) -> Result<Option<String>, AllocError> {
        match found {
            Ok(system) => {
                self.system = Some(Arc::new(self.alloc, system)?);
                Ok(None)
            }
            Err(fault) => Ok(Some(format!(in self.alloc; "{fault}")?)),
        }
    }

    /// Makes a book of the text, with no looks and no proposals.
    pub(super) fn begin(&mut self, limit: usize) -> Result<String, CommandFault> {
        self.looks = Vec::new(self.alloc);
        self.proposals = Vec::new(self.alloc);
        self.open(limit)
    }

    /// Makes a book of the text, by the maker of the book before it, which is taken apart.
    pub(super) fn open(&mut self, limit: usize) -> Result<String, CommandFault> {
        if limit > MOST_ACTIONS {
            return Err(CommandFault::Bad("the limit is above 1000000"));
        }
        match self.read()? {
            Some(refusal) => Ok(refusal),
            None => self.open_read(limit),
        }
    }

    /// Makes a book of the system that was read.
    fn open_read(&mut self, limit: usize) -> Result<String, CommandFault>
        requires { limit ≤ 1000000 }
    {
        self.clear();
        match (&self.system, self.maker.take()) {
            (Some(system), Some(maker)) => {
                self.book = Some(book_of(self.alloc, maker, system, limit)?);
                Ok(String::from_str(self.alloc, "a book")?)
            }
            _ => Err(CommandFault::Bad("there is no maker")),
        }
    }

    /// Takes the book and the core apart, and keeps their maker.
    pub(super) fn clear(&mut self) {
        drop(self.close());
        if let Some(core) = self.core.take() {
            let (_log, maker) = Box::into_inner(core).into_parts();
            self.maker = Some(maker);
        }
    }

    /// Takes the book apart, if there is one: keeps its maker, and gives what is recorded.
    fn close(&mut self) -> Option<RawLog<Entry>> {
        let book = self.book.take()?;
        let (log, maker) = Box::into_inner(book).into_parts();
        self.maker = Some(maker);
        Some(log)
    }

    /// The actions that are recorded.
    pub(super) fn log(&self, words: &[&str]) -> Result<String, CommandFault> {
        no_more(words)?;
        Ok(log_text(self.alloc, self.book()?.log())?)
    }

    /// Takes the book apart, and tells what it leaves.
    pub(super) fn end(&mut self, words: &[&str]) -> Result<String, CommandFault> {
        no_more(words)?;
        let states = self.book()?.states(self.alloc)?;
        match self.close() {
            Some(log) => Ok(execution_text(self.alloc, &log, &states)?),
            None => Err(CommandFault::Bad("there is no book")),
        }
    }
}

/// The book of a system, in which nothing is recorded.
fn book_of<O: Origin>(
    alloc: Global,
    maker: MakerOf<O>,
    system: &System,
    limit: usize,
) -> Result<Box<Book<O>>, AllocError>
    requires { limit ≤ 1000000 }
{
    let book = Book::new(alloc, maker, system, limit)?;
    Ok(Box::new(alloc, book)?)
}
