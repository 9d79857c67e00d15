//! A text cut into tokens with their offsets, and tokens written as text: names, numbers, signs, reserved words and
//! left-out words.
//!
//! **A crate of its own**, since the characters of a text end here.
//!
//! **Must not know**: shapes, and programs.
#![tactic(auto)]

mod cut;
mod fault;
mod lexeme;
mod line;
mod mark;
mod prefixes;
mod table;
mod token;
mod written;

pub use cut::tokens;
pub use fault::CutFault;
pub use line::{cut_line, cut_line_into};
pub use mark::{LeftOut, Mark};
pub use token::{LocatedToken, Token, TokenWord};
pub use written::{Gap, push_mark, push_number, push_word};
