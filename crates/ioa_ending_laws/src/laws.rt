//! Laws of how nodes end: what functions ensure that do nothing.

ghost use Rattle.std.specs.Prelude.{◌≡◌, ◌≢◌, ◌↔◌, List, None, Some};
ghost use Rattle.ioa_actions.specs.StepFaults.{step_fault_text};
ghost use Rattle.ioa_actions.specs.declared.component.Component.{Component};
ghost use Rattle.ioa_actions.specs.declared.fault.StepFault.{StepFault};
ghost use Rattle.ioa_commits.specs.Refusals.{refusal_text};
ghost use Rattle.ioa_commits.specs.declared.outcome.CommitRefusal.{CommitRefusal};
ghost use Rattle.ioa_compose.specs.Composition.{find_conf};
ghost use Rattle.ioa_compose.specs.declared.configuration.Conf.{Conf};
ghost use Rattle.ioa_channels.specs.Queues.{QueueState};
ghost use Rattle.ioa_passes.specs.Texts.{view_fault_text};
ghost use Rattle.ioa_passes.specs.declared.outcome.ViewFault.{ViewFault};
ghost use Rattle.ioa_record.specs.declared.ending.Ending.{Ending};
ghost use Rattle.ioa_record.specs.declared.ending.NodeFault.{NodeFault};
ghost use Rattle.ioa_transitions.specs.NodeState.{NodeState};
ghost use Rattle.ioa_turns.specs.Faults.{fault_of_refusal, fault_of_step};
ghost use Rattle.ioa_turns.specs.NodeTurns.{PlainProgress};
ghost use Rattle.ioa_solo.specs.Fires.{fault_of_view};
ghost use Rattle.ioa_solo.specs.Meets.{met_in};
ghost use Rattle.ioa_ending_laws.specs.FaultNumbers.{BeginsWith, IsStale, numbered_fault};

/// A node before its first visit, by the configuration that is shown of its component (profile). If that has the
/// program that the worker has for the node, nothing about the node changes. If it has another one, or is a queue, the
/// node ends with `Differs (51)`, and if there is none, with `Unknown (53)`; nothing else about it changes.
pub fn met_law()
    ensures own { (cs : List Conf) (p : PlainProgress) (c : NodeState) →
        find_conf (Component.Node p.program.node) cs ≡ Some (Conf.Node c) → c.program ≡ p.program → met_in cs p ≡ p }
    ensures other { (cs : List Conf) (p : PlainProgress) (c : NodeState) →
        find_conf (Component.Node p.program.node) cs ≡ Some (Conf.Node c) → c.program ≢ p.program →
        met_in cs p ≡ record p { ending = Some (Ending.Fault NodeFault.Differs) } }
    ensures queue { (cs : List Conf) (p : PlainProgress) (q : QueueState) →
        find_conf (Component.Node p.program.node) cs ≡ Some (Conf.Queue q) →
        met_in cs p ≡ record p { ending = Some (Ending.Fault NodeFault.Differs) } }
    ensures missing { (cs : List Conf) (p : PlainProgress) → find_conf (Component.Node p.program.node) cs ≡ None →
        met_in cs p ≡ record p { ending = Some (Ending.Fault NodeFault.Unknown) } }
{}

/// What ends a node keeps its number and its name (profile): the text of a refusal, of a fault of a step and of a fault
/// of a look begins with those of the fault with which the node ends. So two refusals with different numbers never come
/// to one fault. A proposal that is `Stale (50)`, and no other refusal, ends no node, and neither does an action that
/// is `NotEnabled (40)`, and no other fault of a step.
pub fn faults_law()
    ensures refusal { (why : CommitRefusal) (f : NodeFault) → fault_of_refusal why ≡ Some f →
        BeginsWith (refusal_text why) (numbered_fault f) }
    ensures stale { (why : CommitRefusal) → (fault_of_refusal why ≡ None) ↔ IsStale why }
    ensures step { (fault : StepFault) (f : NodeFault) → fault_of_step fault ≡ Some f →
        step_fault_text fault ≡ numbered_fault f }
    ensures not_enabled { (fault : StepFault) → (fault_of_step fault ≡ None) ↔ (fault ≡ StepFault.NotEnabled) }
    ensures view { (fault : ViewFault) → BeginsWith (view_fault_text fault) (numbered_fault (fault_of_view fault)) }
    ensures differ { (f g : NodeFault) → numbered_fault f ≡ numbered_fault g → f ≡ g }
{}
