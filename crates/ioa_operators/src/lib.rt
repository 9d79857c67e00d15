//! What operators, functions and displays do with values, and the shapes of values: what sorts stand for, with
//! tuple types and enumerations written out.
//!
//! **A crate of its own**, since the meaning of one operator is proved apart from trees and from the order in which
//! parts are evaluated.
//!
//! **Must not know**: trees, and environments.
//!
//! **Laws**: `decision_law`.
#![tactic(auto)]

mod between;
mod displays;
mod fault;
mod fields;
mod functions;
mod laws;
mod lists;
mod maps;
mod numbers;
mod operator;
mod parts;
mod sets;
mod shape;
mod truths;

pub use between::{binary, unary};
pub use displays::display;
pub use fault::TermFault;
pub use fields::{field, replace_field};
pub use functions::{call, call_lent, call_three_lent, call_two_lent};
pub use laws::decision_law;
pub use lists::first_item;
pub use operator::{BinaryOperator, Function, UnaryOperator};
pub use shape::{DisplayForm, Shape, ShapeForm};
pub use truths::left_decision;
