//! Words and values: the order and the text of values, sequences, finite sets and finite maps, whose copies share
//! what they hold, and the words by which most contracts say what a call returns.
//!
//! **A crate of its own**, since every other crate of the language sees a value as its plain data, whatever memory
//! it is kept in.
//!
//! **Must not know**: operators, and the names of the language.
//!
//! **Laws**: `canonical_law`, `maps_law`, `sets_law`.
#![tactic(auto)]

mod collections;
mod entry_tree;
mod finite_map;
mod finite_set;
mod item_kind;
mod laws;
mod names;
mod sequence;
mod tree;
mod value;
mod word;

pub use collections::unshare;
pub use finite_map::FiniteMap;
pub use finite_set::FiniteSet;
pub use item_kind::ItemKind;
pub use laws::{maps_law, sets_law};
pub use names::{Names, push_separator, push_shown, show};
pub use sequence::Sequence;
pub use value::{Value, ValueForm, copies};
pub use word::Word;
