//! What may go to another thread, and what several threads may look at: lemmas on actions, programs, systems, books and
//! receipts. It has no code.
//!
//! **A crate of its own**, since each of these lemmas is found by a small search over those of the types below, and
//! only who starts threads needs them.
//!
//! **Must not know**: threads.
#![tactic(auto)]
