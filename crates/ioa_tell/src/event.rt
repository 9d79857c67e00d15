//! What is told of a run.

use ioa_actions::Action;
use ioa_compose::Conf;
use ioa_reasons::{Fault, Place, Reason, StatementPlace};
use ioa_record::Ending;
use ioa_terms::{Value, Word};
use ioa_transitions::Entry;

/// What is told of a run. Each event but the last ones bears the number of the actions that were taken before it.
#[derive(Clone, Copy)]
pub enum Event<'a> {
    /// An action was taken.
    Taken {
        /// How many actions were taken before.
        number: usize,
        /// The entry of the schedule.
        entry: &'a Entry,
        /// The node before the action.
        before: &'a Conf,
        /// The node after it.
        after: &'a Conf,
        /// The queue that took part after it, if one did.
        queue: Option<&'a Conf>,
    },
    /// A node fired an action that was not enabled.
    Missed {
        /// How many actions were taken before.
        number: usize,
        /// The action.
        action: &'a Action,
        /// Why it was not enabled.
        reason: Reason<'a>,
    },
    /// A node fired an action whose step met a fault at a part of a term. The node stops.
    Faulted {
        /// How many actions were taken before.
        number: usize,
        /// The action.
        action: &'a Action,
        /// Where the part is written.
        place: Place<'a>,
        /// The part, and why the step stops there.
        fault: Fault<'a>,
    },
    /// A node fired an action of which an argument is not of the sort of its parameter. The node stops.
    Unfit {
        /// How many actions were taken before.
        number: usize,
        /// The action.
        action: &'a Action,
        /// The name of the parameter.
        name: &'a Word,
        /// The argument.
        value: &'a Value,
    },
    /// A turn of a node's block met a fault at a part of a term. The node stops.
    Stuck {
        /// How many actions were taken before.
        number: usize,
        /// The node.
        node: i64,
        /// The statement in which the part is written.
        place: StatementPlace<'a>,
        /// The part, and why the turn stops there.
        fault: Fault<'a>,
    },
    /// A turn of a node ended with nothing fired, after as many statements as a turn has at most.
    Idle {
        /// How many actions were taken before.
        number: usize,
        /// The node.
        node: i64,
    },
    /// A node came to its end, and is not visited again.
    Stopped {
        /// How many actions were taken before.
        number: usize,
        /// The node.
        node: i64,
    },
    /// The ending of a node, once all is over.
    Ended {
        /// Where the node stands in the system, from 0 on.
        node: usize,
        /// Its ending.
        ending: Ending,
    },
}
