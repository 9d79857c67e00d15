//! What comes of looks.

use ioa_actions::Component;
use std::fmt;
use thiserror::Error;

/// What is older than it was seen.
#[derive(Clone, Copy, Debug, PartialEq, Eq)]
pub enum Aged {
    /// A component.
    Component(Component),
    /// The log.
    Length,
}

/// `Older` (54): what a book holds is older than what the worker has seen of it. So it is another book.
#[derive(Clone, Copy, Debug, PartialEq, Eq)]
pub struct Older {
    /// What is older.
    pub of: Aged,
    /// The version or the length that was seen.
    pub seen: usize,
    /// The version or the length that the book has.
    pub held: usize,
}

/// Why there is no look.
#[derive(Clone, Copy, Debug, PartialEq, Eq, Error)]
pub enum ViewFault {
    /// `Memory` (3): memory ran out.
    Memory,
    /// `Unknown` (53): there is no such node.
    Unknown,
    /// `Older` (54): a component that was looked at, or else the log, is older than it was seen.
    Older(Older),
}

impl fmt::Display for Aged {
    ghost use Rattle.std.specs.Prelude.{Some};
    ghost use Rattle.ioa_passes.specs.Texts.{aged_text};

    ghost output = { λ a. Some (aged_text a) };

    fn fmt<W: fmt::Write>(&self, f: &mut fmt::Formatter<W>) -> fmt::Result {
        match self {
            Aged::Component(component) => write!(f, "{component}"),
            Aged::Length => f.write_str("length"),
        }
    }
}

impl fmt::Display for Older {
    ghost use Rattle.std.specs.Prelude.{Some};
    ghost use Rattle.ioa_passes.specs.Texts.{older_text};

    ghost output = { λ o. Some (older_text o) };

    fn fmt<W: fmt::Write>(&self, f: &mut fmt::Formatter<W>) -> fmt::Result {
        let Older { of, seen, held } = self;
        write!(f, "54 Older {of}: seen {seen}, held {held}")
    }
}

impl fmt::Display for ViewFault {
    ghost use Rattle.std.specs.Prelude.{Some};
    ghost use Rattle.ioa_passes.specs.Texts.{view_fault_text};

    ghost output = { λ e. Some (view_fault_text e) };

    fn fmt<W: fmt::Write>(&self, f: &mut fmt::Formatter<W>) -> fmt::Result {
        match self {
            ViewFault::Memory => f.write_str("3 Memory"),
            ViewFault::Unknown => f.write_str("53 Unknown"),
            ViewFault::Older(older) => write!(f, "{older}"),
        }
    }
}
