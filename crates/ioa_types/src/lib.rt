//! The types that a text declares, their enumerations' constants, and the shapes of sorts.
//!
//! **A crate of its own**, since it is proved beside the sorts of terms.
//!
//! **Must not know**: terms, automata, and which declaration a type stands in.
//!
//! **Laws**: `declarations_law`, `text_types_law`, `types_law`.
#![tactic(auto)]

mod all_types;
mod height;
mod laws;
mod text_types;
mod types;

pub use all_types::AllTypes;
pub use height::{SHAPE_LIMIT, ShapeWithHeight};
pub use laws::{declarations_law, text_types_law, types_law};
pub use text_types::TextTypes;
pub use types::Types;
