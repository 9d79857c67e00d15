//! What carries out the commands of a script.

use std::alloc::AllocError;

/// Why a command has no answer.
#[derive(Clone, Copy, Debug, PartialEq, Eq)]
pub enum CommandFault {
    /// The program has no such command, or the command has other parts than it takes. The text says which.
    Bad(&'static str),
    /// Memory ran out.
    Memory,
}

impl From<AllocError> for CommandFault {
    ghost use Rattle.std.specs.Prelude.{◌≡◌};
    ghost use Rattle.ioa_rows.specs.declared.session.CommandFault.TheVariants.{Memory};

    ghost from_gives = { λ _ e. e ≡ Memory };

    fn from(_fault: AllocError) -> CommandFault {
        CommandFault::Memory
    }
}

/// A program of rows: what it keeps between its commands.
pub trait Session {
    /// What the program is for, its commands with their parts, and what they answer.
    fn help(&self) -> &'static str;

    /// Carries out a command, and gives the lines of its answer.
    fn answer(&mut self, command: &str) -> Result<String, CommandFault>;
}
