//! Names, and what the check finds by them: tables of declared words with their shapes, the names that an invariant
//! reads, the rules of an automaton, the state variables of a node's program, and the view of what a term may read,
//! which is three lists one behind the other.
//!
//! **A crate of its own**, since each table is made once and lent to all entries of an automaton, and since what runs
//! needs no table of names.
//!
//! **Must not know**: what declares a name, and where a term is written.
//!
//! **Laws**: `names_law`, `words_law`.
#![tactic(auto)]

mod laws;
mod outer;
mod programs;
mod readings;
mod rules;
mod scope;
mod table;
mod view;

pub use laws::names_law;
pub use programs::{NamedAutomaton, NamedProgram, named_program_numbered, programs_alone};
pub use readings::{ReadNames, Readings};
pub use rules::RuleTable;
pub use scope::Scope;
pub use table::NameTable;
pub use view::View;
