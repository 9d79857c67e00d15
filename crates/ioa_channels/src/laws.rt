//! Laws of queues: contracts of functions that do nothing.

ghost use Rattle.std.specs.Prelude.{◌≡◌, ◌↔◌, ◌+◌, Ok, List, [], ◌∷◌, ◌++◌, map};
ghost use Rattle.ioa_values.specs.Data.{Data};
ghost use Rattle.ioa_actions.specs.declared.action.Action.{Action};
ghost use Rattle.ioa_actions.specs.declared.component.ChannelKind.{ChannelKind};
ghost use Rattle.ioa_channels.specs.declared.queue.Item.{Item};
ghost use Rattle.ioa_channels.specs.Queues.{QueueState, queue_answer};
ghost use Rattle.ioa_channels.specs.QueueSteps.{IsQueueStep, ComesOut};
ghost use Rattle.ioa_channels.specs.HandedOut.{IsHandedOut, number_of};

/// The code gives a queue's new state exactly if a step of the queue leads to it (Lynch 14.1).
pub fn queue_step_law()
    ensures { (q : QueueState) (a : Action) (r : QueueState) → (queue_answer q a ≡ Ok r) ↔ IsQueueStep a q r }
{}

/// What is said of what a queue has handed out, by its kind, is so without a step, and a receive or a send in front of
/// other steps keeps it (Lynch 14.1, and profile for queues that keep no order). So an unordered channel that began
/// empty has handed out no message more often than it was sent.
pub fn handed_out_law()
    ensures nothing { (o : ChannelKind) (items : List Item) → IsHandedOut o items [] [] items }
    ensures receive { (o : ChannelKind) (m : Data) (q r : List Item) (sent received : List Data) (left : List Item) →
        ComesOut (Item.Message m) o q r → IsHandedOut o r sent received left →
        IsHandedOut o q sent (m ∷ received) left }
    ensures send { (o : ChannelKind) (m : Data) (q : List Item) (sent received : List Data) (left : List Item) →
        IsHandedOut o (q ++ Item.Message m ∷ []) sent received left → IsHandedOut o q (m ∷ sent) received left }
    ensures no_more_often { (m : Data) (sent received : List Data) (left : List Item) →
        IsHandedOut ChannelKind.Unordered [] sent received left →
        number_of (Item.Message m) (map Item.Message received) + number_of (Item.Message m) left
        ≡ number_of (Item.Message m) (map Item.Message sent) }
{}
