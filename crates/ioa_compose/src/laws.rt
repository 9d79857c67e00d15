//! Laws of executions. Each law is the contract of a function that does nothing.

ghost use Rattle.std.specs.Prelude.{◌≡◌, ◌↔◌, ◌||◌, ℤ, true, List, Option, Some, Ok};
ghost use Rattle.std.specs.List.{list_any};
ghost use Rattle.std.specs.Option.{is_some};
ghost use Rattle.ioa_actions.specs.ActionParts.{node_of};
ghost use Rattle.ioa_actions.specs.declared.component.Component.{Component};
ghost use Rattle.ioa_actions.specs.declared.action.Action.{Action};
ghost use Rattle.ioa_compose.specs.declared.configuration.Conf.{Conf};
ghost use Rattle.ioa_compose.specs.Participants.{participants_of, takes_part};
ghost use Rattle.ioa_actions.specs.ComponentOrder.{same_component};
ghost use Rattle.ioa_compose.specs.Steps.{IsStep};
ghost use Rattle.ioa_compose.specs.JointStep.{IsJointState, IsJointStep, FitsJointStep, AllHaveSteps, HasAnswer};
ghost use Rattle.ioa_transitions.specs.Entries.{PlainEntry};
ghost use Rattle.ioa_compose.specs.Composition.{changes_of, joint_answer, joint_pick, picks_of};
ghost use Rattle.ioa_compose.specs.Executions.{replay};
ghost use Rattle.ioa_system.specs.Declarations.{IsWellDeclared};
ghost use Rattle.ioa_system.specs.Systems.{SystemParts};
ghost use Rattle.ioa_compose.specs.Start.{start};
ghost use Rattle.ioa_compose.specs.IsStart.{IsStart};
ghost use Rattle.ioa_compose.specs.Automata.{IsExecution, ProjectsOnEach};
ghost use Rattle.ioa_compose.specs.Channels.{HandsOut, HandsOutFromEmpty, message_sent, message_received};
ghost use Rattle.ioa_compose.specs.Scripts.{TakesInOrder, stimulus_taken};

/// From a state of the composition the code gives a list of configurations for an entry exactly if a joint step by it
/// leads there and every number that the participants meet lies within 64 bits. In a joint step each component that has
/// the entry's action takes its own step, and all others stay (Lynch 8.2). There is one joint step by an entry at most,
/// and it leads to a state of the composition again. The code finds one if it finds a step of each component that has
/// the action.
pub fn joint_step_law()
    ensures step { (entry : PlainEntry) (confs next : List Conf) → IsJointState confs
        → joint_answer entry confs ≡ Ok next → IsJointStep IsStep entry confs next × FitsJointStep entry confs }
    ensures answer { (entry : PlainEntry) (confs next : List Conf) → IsJointState confs
        → IsJointStep IsStep entry confs next → FitsJointStep entry confs → joint_answer entry confs ≡ Ok next }
    ensures one { (entry : PlainEntry) (confs next other : List Conf) → IsJointState confs
        → IsJointStep IsStep entry confs next → IsJointStep IsStep entry confs other → next ≡ other }
    ensures state { (entry : PlainEntry) (confs next : List Conf) → IsJointState confs
        → IsJointStep IsStep entry confs next → IsJointState next }
    ensures enabled { (entry : PlainEntry) (confs : List Conf) → AllHaveSteps HasAnswer entry confs
        → (next : List Conf) × (joint_answer entry confs ≡ Ok next) }
{}

/// What is picked for an action is an entry of this action, and what is picked for its participants is what they come
/// to if the entry is taken again. The same is true of the whole composition.
pub fn pick_law()
    ensures parts { (action : Action) (reads : List (Option Conf)) (entry : PlainEntry) (changed : List Conf)
        → picks_of action reads ≡ Ok (entry, changed)
        → (entry.action ≡ action) × (changes_of entry reads ≡ Ok changed) }
    ensures joint { (action : Action) (confs : List Conf) (entry : PlainEntry) (next : List Conf)
        → joint_pick action confs ≡ Ok (entry, next)
        → (entry.action ≡ action) × (joint_answer entry confs ≡ Ok next) }
{}

/// The components that have an action in their signature are its participants (Lynch 8.2). An action is its own node's
/// and no other node's, a channel has exactly what is sent and what is received on it (Lynch 14.1), and a script what
/// is taken out of it.
pub fn signature_law()
    ensures participants { (k : Component) (action : Action) →
        takes_part k action ≡ list_any (same_component k) (participants_of action) }
    ensures nodes { (k : ℤ) (action : Action) → (takes_part (Component.Node k) action ≡ true) ↔ (k ≡ node_of action) }
    ensures channels { (i j : ℤ) (action : Action) → takes_part (Component.Channel i j) action
        ≡ (is_some (message_sent i j action) || is_some (message_received i j action)) }
    ensures scripts { (k : ℤ) (action : Action) →
        takes_part (Component.Script k) action ≡ is_some (stimulus_taken k action) }
{}

/// The start of a system that declares each thing once has each component of the system once and no other: each node
/// with its program and its initial values, each declared channel with an empty queue of its kind, and each declared
/// script with its stimuli (Lynch 8.1 and 14.1, and profile for scripts). It is a state of the composition.
pub fn start_law()
    ensures start { (s : SystemParts) → IsWellDeclared s → IsStart s (start s) }
    ensures state { (s : SystemParts) → IsWellDeclared s → IsJointState (start s) }
{}

/// A replay from a state of the composition is an execution of it (Lynch 8.1). An execution is a replay if every number
/// that its steps meet lies within 64 bits.
pub fn execution_law()
    ensures execution { (entries : List PlainEntry) (start confs : List Conf) → IsJointState start
        → replay entries start ≡ Some confs → IsExecution (IsJointStep IsStep) start entries confs }
    ensures replay { (entries : List PlainEntry) (start confs : List Conf) → IsJointState start
        → IsExecution (λ e s t. IsJointStep IsStep e s t × FitsJointStep e s) start entries confs
        → replay entries start ≡ Some confs }
{}

/// The projection of an execution on a component is an execution of that component. It ends in the configuration that
/// the component has at the end (Lynch 8.2). The same is true of a replay and the steps that the code finds.
pub fn projection_law()
    ensures execution { (entries : List PlainEntry) (start confs : List Conf) →
        IsExecution (IsJointStep IsStep) start entries confs → ProjectsOnEach IsStep start entries confs }
    ensures replay { (entries : List PlainEntry) (start confs : List Conf) → replay entries start ≡ Some confs
        → ProjectsOnEach HasAnswer start entries confs }
{}

/// In an execution each channel hands out its messages in the order in which they were sent and keeps the rest, or, if
/// it keeps no order, hands out and keeps each message as often as it was sent. The former is what Lynch 14.1 says: the
/// messages received are a prefix of the messages sent. The latter is profile, and so is that each script hands out its
/// stimuli in order.
pub fn delivery_law()
    ensures queued { (entries : List PlainEntry) (start confs : List Conf) →
        IsExecution (IsJointStep IsStep) start entries confs → HandsOut start entries confs }
    ensures from_empty { (entries : List PlainEntry) (start confs : List Conf) →
        IsExecution (IsJointStep IsStep) start entries confs → HandsOutFromEmpty start entries confs }
    ensures scripts { (entries : List PlainEntry) (start confs : List Conf) →
        IsExecution (IsJointStep IsStep) start entries confs → TakesInOrder start entries confs }
{}
