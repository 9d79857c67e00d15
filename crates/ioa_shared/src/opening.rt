//! What stands for one book, in the types of what holds it.

ghost use Rattle.std.specs.Prelude.{ℕ, []};
ghost use Rattle.ioa_system.specs.Systems as spec;
ghost use Rattle.ioa_system.specs.Systems.{SystemParts};

use ioa_sharing::Origin;
use std::marker::Brand;

/// Stands for one book, in the types of what holds it: for the maker that numbers what the book holds, and for the
/// system and the limit with which it is opened. So a contract can say of a book under a lock, which no caller knows,
/// that it begins at the start of this system. Nothing of it is there when the program runs.
pub trait Opening: Origin {
    ghost system: { SystemParts };

    ghost limit: { ℕ };
}

impl Opening for Brand {
    ghost system = { spec.system [] [] [] [] [] };

    ghost limit = { 0 };
}
