//! A law of actions: what a function ensures that does nothing.

ghost use Rattle.std.specs.Prelude.{◌≡◌, ℕ, ℤ, List};
ghost use Rattle.ioa_values.specs.Data.{Data};
ghost use Rattle.ioa_actions.specs.ActionParts.{input_at, locally_controlled_at, action_name, action_arguments};

use crate::action::Action;

/// The action that a name and arguments give at a node, as an input or as one that the node controls, has that name and
/// these arguments. The name and the arguments of a receive give it back as an input, and those of a send give it back
/// as an action that the node controls.
pub fn parts_law()
    ensures input_name { (k : ℤ) (name : List ℕ) (vs : List Data) → action_name (input_at k name vs) ≡ name }
    ensures input_arguments { (k : ℤ) (name : List ℕ) (vs : List Data) →
        action_arguments (input_at k name vs) ≡ vs }
    ensures controlled_name { (k : ℤ) (name : List ℕ) (vs : List Data) →
        action_name (locally_controlled_at k name vs) ≡ name }
    ensures controlled_arguments { (k : ℤ) (name : List ℕ) (vs : List Data) →
        action_arguments (locally_controlled_at k name vs) ≡ vs }
    ensures sent { (k i j : ℤ) (m : Data) →
        locally_controlled_at k (action_name (Action.Send m i j)) (action_arguments (Action.Send m i j))
        ≡ Action.Send m i j }
    ensures received { (k i j : ℤ) (m : Data) →
        input_at k (action_name (Action.Receive m i j)) (action_arguments (Action.Receive m i j))
        ≡ Action.Receive m i j }
{}
