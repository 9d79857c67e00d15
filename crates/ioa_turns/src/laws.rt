//! Laws of turns. Each law is the contract of a function that does nothing.

ghost use Rattle.std.specs.Prelude.{◌≡◌, ℕ, ℤ, List, Some, None};
ghost use Rattle.ioa_compose.specs.Composition.{find_conf};
ghost use Rattle.ioa_system.specs.Parts.{Parts, PlainRule, rule_named};
ghost use Rattle.ioa_channels.specs.Queues.{QueueState, messages_of};
ghost use Rattle.ioa_compose.specs.declared.configuration.Conf.{Conf};
ghost use Rattle.ioa_values.specs.Collections.{value_at};
ghost use Rattle.ioa_values.specs.Data.{Data, number, sequence, items_of};
ghost use Rattle.ioa_terms.specs.Inboxes.{inbox_entries};
ghost use Rattle.ioa_actions.specs.ActionParts.{action_name, action_arguments};
ghost use Rattle.ioa_actions.specs.declared.component.Component.{Component};
ghost use Rattle.ioa_transitions.specs.NodeStep.{IsOfKind};
ghost use Rattle.ioa_turns.specs.Fired.{AreArgumentsFor, action_fired};
ghost use Rattle.ioa_turns.specs.Inboxes.{inboxes_in};

/// A fired action has the name and the arguments that it is fired with. It is of the kind of the node's entry of that
/// name (Lynch 8.1), if `send` and `receive` are entries of messages, as the check asks.
pub fn fired_law()
    ensures name { (p : Parts) (w : List ℕ) (vs : List Data) → action_name (action_fired p w vs) ≡ w }
    ensures arguments { (p : Parts) (w : List ℕ) (vs : List Data) → action_arguments (action_fired p w vs) ≡ vs }
    ensures kind { (p : Parts) (r : PlainRule) (w : List ℕ) (vs : List Data) →
        rule_named w p.automaton.rules ≡ Some r → AreArgumentsFor r.entry.kind w vs →
        IsOfKind (action_fired p w vs) r.entry.kind }
{}

/// What a schedule block reads as `inbox(i)` (profile). At node j it is the sequence of the messages that wait on the
/// channel from node i to node j, from the first to be taken to the last (Lynch 14.1). If there is no such channel, the
/// inboxes of node j have nothing at i.
pub fn inboxes_law()
    ensures waiting { (i j : ℤ) (cs : List Conf) (q : QueueState) (ms : List Data) →
        find_conf (Component.Channel i j) cs ≡ Some (Conf.Queue q) → messages_of q.items ≡ Some ms →
        value_at (number i) (inbox_entries (inboxes_in j cs)) ≡ Some (sequence (items_of ms)) }
    ensures no_channel { (i j : ℤ) (cs : List Conf) → find_conf (Component.Channel i j) cs ≡ None →
        value_at (number i) (inbox_entries (inboxes_in j cs)) ≡ None }
{}
