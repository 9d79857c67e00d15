//! A law of node steps: the contract of a function that does nothing.

ghost use Rattle.std.specs.Prelude.{◌≡◌, Ok};
ghost use Rattle.ioa_actions.specs.declared.action.Action.{Action};
ghost use Rattle.ioa_system.specs.Declarations.{DeclaresOnce};
ghost use Rattle.ioa_system.specs.Parts.{Parts, PlainRule};
ghost use Rattle.ioa_transitions.specs.NodeAnswers.{pick_answer, redo_answer};
ghost use Rattle.ioa_transitions.specs.Entries.{PlainEntry};
ghost use Rattle.ioa_transitions.specs.NodeState.{NodeState};
ghost use Rattle.ioa_transitions.specs.NodeStep.{IsState, HasRule, IsNodeStep, FitsNodeStep};

/// From a state of a node the code gives a new configuration for an entry exactly if a step of the node by the entry
/// leads there (Lynch 8.1) and every number that this step meets lies within 64 bits. What is picked for an action is
/// an entry of it, which leads to the same if it is taken again. One rule of the program has an action at most, there
/// is one step by an entry at most, and this leads to a state of the node again.
pub fn node_step_law()
    ensures step { (c : NodeState) (e : PlainEntry) (d : NodeState) → IsState c → redo_answer c e ≡ Ok d
        → IsNodeStep e c d × FitsNodeStep e c }
    ensures answer { (c : NodeState) (e : PlainEntry) (d : NodeState) → IsState c → IsNodeStep e c d
        → FitsNodeStep e c → redo_answer c e ≡ Ok d }
    ensures again { (c : NodeState) (a : Action) (e : PlainEntry) (d : NodeState) → pick_answer c a ≡ Ok (e, d)
        → (e.action ≡ a) × (redo_answer c e ≡ Ok d) }
    ensures one_rule { (p : Parts) (a : Action) (r s : PlainRule) → DeclaresOnce p → HasRule p a r → HasRule p a s
        → r ≡ s }
    ensures one_step { (entry : PlainEntry) (c d e : NodeState) → IsState c → IsNodeStep entry c d
        → IsNodeStep entry c e → d ≡ e }
    ensures state { (e : PlainEntry) (c d : NodeState) → IsState c → IsNodeStep e c d → IsState d }
{}
