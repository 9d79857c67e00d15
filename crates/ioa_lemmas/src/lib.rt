//! Lemmas on lists that name nothing of this project.
//!
//! **A crate of its own**, since any crate may cite them. It has no code.
//!
//! **Must not know**: this project.
#![tactic(auto)]
