//! The lines that wait, at most one of a node.

ghost use Rattle.std.specs.Prelude.{◌≡◌, find, position};
ghost use Rattle.ioa_tell_text.specs.Kept.{is_of, without};

use crate::waiting::Waiting;

/// Takes out what waits of a node, if something does.
pub(crate) fn taken_out(waiting: &mut Vec<Waiting>, node: i64) -> Option<Waiting>
    ensures found { result ≡ find (is_of node) waiting.old.items }
    ensures rest { waiting.new.items ≡ without (is_of node) waiting.old.items }
{
    match place_of(waiting, node) {
        None => None,
        Some(place) => Some(waiting.remove(place)),
    }
}

/// Where what waits of a node stands.
fn place_of(waiting: &[Waiting], node: i64) -> Option<usize>
    ensures { result ≡ position (is_of node) waiting.now }
{
    waiting.iter().position(|waiting| waiting.node == node)
}
