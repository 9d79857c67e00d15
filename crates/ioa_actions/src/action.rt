//! The actions of a system.

ghost use Rattle.std.specs.Prelude.{◌≡◌, ◌↔◌, [], ◌∷◌, IfOk, IsTrue};
ghost use Rattle.std.specs.Option.{option_copied, option_map};
ghost use Rattle.ioa_values.specs.Data.{number};
ghost use Rattle.ioa_actions.specs.ActionParts as parts;
ghost use Rattle.ioa_actions.specs.Actions.{same_node_action, same_action, node_action_cmp, action_cmp};
ghost use Rattle.ioa_actions.specs.ValuesOrder.{all_same};

use ioa_values::{Value, Word, copies};
use std::alloc::{AllocError, Global};
use std::cmp::Ordering;
use std::marker::Model;

/// The name of all sends (Lynch 14.1).
pub const SEND: &str = "send";

/// The name of all receives (Lynch 14.1).
pub const RECEIVE: &str = "receive";

/// The values of an action's arguments, in order. A contract sees them as a list. One value takes no memory of its own.
#[derive(Debug)]
pub struct Values {
    items: ValueList,
}

/// By hand, so that crates above do not prove again how the parts are let go (DECISIONS).
impl Drop for Values {
    #[inline(always)]
    fn drop(self) {
        let Values { items: _ } = self;
    }
}

/// How values are kept.
#[derive(Debug, Drop)]
enum ValueList {
    /// One, in place.
    One([Value; 1]),
    /// Any number.
    Many(Vec<Value>),
}

impl Model for Values {
    ghost use Rattle.std.specs.Prelude.{List};
    ghost use Rattle.std.specs.Coded.{coded_list};
    ghost use Rattle.ioa_values.specs.Data.{Data};
    ghost use Rattle.ioa_values.specs.DataCode.{data_code};
    ghost use Rattle.ioa_actions.specs.ValueLists.{listed};

    ghost Value = { List Data };

    ghost coded = { coded_list data_code };

    ghost view = { λ v. listed v.items };
}

impl Values {
    /// The values of a vector; takes no memory.
    pub fn from_vec(items: Vec<Value>) -> Self
        ensures { result ≡ items.items }
    {
        Values {
            items: ValueList::Many(items),
        }
    }

    /// Copies of values, each sharing its collections with the one copied.
    pub fn copied(alloc: Global, values: &[Value]) -> Result<Self, AllocError>
        ensures { IfOk result (λ v. v ≡ values.now) }
    {
        let items = match values {
            [value] => ValueList::One([value.try_copy()?]),
            _ => ValueList::Many(copies(alloc, values)?),
        };
        Ok(Values { items })
    }

    /// The values in order.
    pub fn as_slice(&self) -> &[Value]
        ensures { result.now ≡ self.now }
    {
        match &self.items {
            ValueList::One(value) => value.as_slice(),
            ValueList::Many(values) => values.as_slice(),
        }
    }

    /// The same values once more, each sharing its collections.
    pub fn try_copy(&self, alloc: Global) -> Result<Self, AllocError>
        ensures { IfOk result (λ v. v ≡ self.now) }
    {
        Values::copied(alloc, self.as_slice())
    }
}

impl PartialEq for Values {
    ghost use Rattle.ioa_actions.specs.ValuesOrder.{all_same, all_same_partial};

    ghost eq = { all_same };

    ghost laws = { all_same_partial };

    #[inline(always)]
    fn eq(&self, other: &Self) -> bool {
        are_same(self.as_slice(), other.as_slice())
    }
}

/// Whether values are the same, in order. Mostly there is one, or none.
#[inline(always)]
pub fn are_same(values: &[Value], others: &[Value]) -> bool
    ensures { result ≡ all_same values.now others.now }
{
    match (values, others) {
        ([], []) => true,
        ([value], [other]) => value.equals(other),
        _ => values == others,
    }
}

impl Eq for Values {
    ghost use Rattle.ioa_actions.specs.ValuesOrder.{all_same_equivalence};

    ghost laws = { all_same_equivalence };
}

impl PartialOrd for Values {
    ghost use Rattle.ioa_actions.specs.ValuesOrder.{list_partial_cmp, list_cmp_partial};

    ghost partial_cmp = { list_partial_cmp };

    ghost laws = { list_cmp_partial };

    fn partial_cmp(&self, other: &Self) -> Option<Ordering> {
        self.as_slice().partial_cmp(&other.as_slice())
    }
}

impl Ord for Values {
    ghost use Rattle.ioa_actions.specs.ValuesOrder.{list_cmp, list_cmp_total, list_cmp_agrees, list_cmp_ties};

    ghost cmp = { list_cmp };

    ghost total = { list_cmp_total };

    ghost matches_partial_cmp = { list_cmp_agrees };

    ghost matches_eq = { list_cmp_ties };

    fn cmp(&self, other: &Self) -> Ordering {
        self.as_slice().cmp(&other.as_slice())
    }
}

/// An action of one node, by its name. Actions are ordered by node, name and arguments.
#[derive(Debug, PartialEq, Eq, PartialOrd, Ord)]
pub struct NodeAction {
    /// The node.
    pub node: i64,
    /// The action's name.
    pub name: Word,
    /// The values of its arguments.
    pub arguments: Values,
}

/// By hand, so that crates above do not prove again how the parts are let go (DECISIONS).
impl Drop for NodeAction {
    #[inline(always)]
    fn drop(self) {
        let NodeAction {
            node: _,
            name: _,
            arguments: _,
        } = self;
    }
}

/// An action of a system (Lynch 8.1 and 14.1; stimuli are the profile's). Actions are ordered by kind,
/// in the order of the variants, and then by their parts from left to right.
#[derive(Debug, PartialEq, Eq, PartialOrd, Ord)]
pub enum Action {
    /// `send(m, i, j)`: node i puts message m into channel i -> j.
    Send {
        /// The message.
        message: Value,
        /// The node that sends it.
        from: i64,
        /// The node that it is meant for.
        to: i64,
    },
    /// `receive(m, i, j)`: channel i -> j hands message m to node j.
    Receive {
        /// The message.
        message: Value,
        /// The node that sent it.
        from: i64,
        /// The node that takes it.
        to: i64,
    },
    /// An output or internal action of a node.
    Local(NodeAction),
    /// An input of a node that its script puts in.
    Stimulus(NodeAction),
}

/// By hand, so that crates above do not prove again how the parts are let go (DECISIONS).
impl Drop for Action {
    #[inline(always)]
    fn drop(self) {
        match self {
            Action::Send {
                message: _,
                from: _,
                to: _,
            }
            | Action::Receive {
                message: _,
                from: _,
                to: _,
            }
            | Action::Local(_)
            | Action::Stimulus(_) => {}
        }
    }
}

impl NodeAction {
    /// The action of a node with this name and these arguments.
    pub fn new(
        alloc: Global,
        node: i64,
        name: &Word,
        arguments: Vec<Value>,
    ) -> Result<Self, AllocError>
        ensures { IfOk result (λ a. a ≡ parts.node_action node name.now arguments.items) }
    {
        Ok(NodeAction {
            node,
            name: name.try_copy(alloc)?,
            arguments: Values::from_vec(arguments),
        })
    }

    /// The same, with copies of these arguments.
    fn copied(
        alloc: Global,
        node: i64,
        name: &Word,
        arguments: &[Value],
    ) -> Result<Self, AllocError>
        ensures { IfOk result (λ a. a ≡ parts.node_action node name.now arguments.now) }
    {
        Ok(NodeAction {
            node,
            name: name.try_copy(alloc)?,
            arguments: Values::copied(alloc, arguments)?,
        })
    }

    /// Whether two actions are the same.
    #[tactic(auto, using(crate::proofs::SameActions::same_node_action_is))]
    pub fn equals(&self, other: &Self) -> bool
        ensures value { result ≡ same_node_action self.now other.now }
        ensures equality { IsTrue result ↔ (self.now ≡ other.now) }
    {
        self == other
    }

    /// How two actions compare: by node, by name and by arguments.
    pub fn compare(&self, other: &Self) -> Ordering
        ensures { result ≡ node_action_cmp self.now other.now }
    {
        self.cmp(other)
    }

    /// The same action once more, whose values share their collections with this one's.
    pub fn try_copy(&self, alloc: Global) -> Result<Self, AllocError>
        ensures { IfOk result (λ a. a ≡ self.now) }
    {
        let name = self.name.try_copy(alloc)?;
        let arguments = self.arguments.try_copy(alloc)?;
        Ok(NodeAction {
            node: self.node,
            name,
            arguments,
        })
    }
}

impl Action {
    /// The input of a node with this name and these arguments: a receive if they are its name, a message and two
    /// numbers, and else a stimulus (Lynch 8.1 and 14.1, and profile for stimuli).
    pub fn input_at(
        alloc: Global,
        node: i64,
        name: &Word,
        arguments: &[Value],
    ) -> Result<Self, AllocError>
        ensures { IfOk result (λ a. a ≡ parts.input_at node name.now arguments.now) }
    {
        if let Some((message, from, to)) = message_and_ends(arguments) {
            if name.spells(RECEIVE) {
                let message = message.try_copy()?;
                return Ok(Action::Receive { message, from, to });
            }
        }
        Ok(Action::Stimulus(NodeAction::copied(alloc, node, name, arguments)?))
    }

    /// The output or internal action of a node with this name and these arguments, which the node itself controls: a
    /// send if they are its name, a message and two numbers, and else a local action (Lynch 8.1 and 14.1).
    pub fn locally_controlled_at(
        alloc: Global,
        node: i64,
        name: &Word,
        arguments: &[Value],
    ) -> Result<Self, AllocError>
        ensures { IfOk result (λ a. a ≡ parts.locally_controlled_at node name.now arguments.now) }
    {
        if let Some((message, from, to)) = message_and_ends(arguments) {
            if name.spells(SEND) {
                let message = message.try_copy()?;
                return Ok(Action::Send { message, from, to });
            }
        }
        Ok(Action::Local(NodeAction::copied(alloc, node, name, arguments)?))
    }

    /// The node of the action: the sender of a send, and the receiver of a receive.
    #[inline(always)]
    pub fn node(&self) -> i64
        ensures { result ≡ parts.node_of self.now }
    {
        match self {
            Action::Send { from, .. } => *from,
            Action::Receive { to, .. } => *to,
            Action::Local(action) => action.node,
            Action::Stimulus(action) => action.node,
        }
    }

    /// The name of the action.
    pub fn name(&self) -> &str
        ensures { result.now ≡ parts.action_name self.now }
    {
        match self {
            Action::Send { .. } => SEND,
            Action::Receive { .. } => RECEIVE,
            Action::Local(action) => action.name.as_str(),
            Action::Stimulus(action) => action.name.as_str(),
        }
    }

    /// Copies of the action's arguments, in order: those of a send or a receive are its message, the sender and the
    /// receiver.
    pub fn arguments(&self, alloc: Global) -> Result<Vec<Value>, AllocError>
        ensures { IfOk result (λ v. v.items ≡ parts.action_arguments self.now) }
    {
        match self {
            Action::Send { message, from, to } | Action::Receive { message, from, to } => {
                message_arguments(alloc, message, *from, *to)
            }
            Action::Local(action) => copies(alloc, action.arguments.as_slice()),
            Action::Stimulus(action) => copies(alloc, action.arguments.as_slice()),
        }
    }

    /// The message, if the action is a send or a receive.
    pub fn message(&self) -> Option<&Value>
        ensures { option_copied result ≡ parts.message_of self.now }
    {
        match self {
            Action::Send { message, .. } => Some(message),
            Action::Receive { message, .. } => Some(message),
            Action::Local(_) => None,
            Action::Stimulus(_) => None,
        }
    }

    /// Whether two actions are the same.
    #[inline(always)]
    #[tactic(auto, using(crate::proofs::SameActions::same_action_is))]
    pub fn equals(&self, other: &Self) -> bool
        ensures value { result ≡ same_action self.now other.now }
        ensures equality { IsTrue result ↔ (self.now ≡ other.now) }
    {
        self.is_same(other)
    }

    /// Whether two actions have one kind and the same parts.
    #[inline(always)]
    fn is_same(&self, other: &Self) -> bool
        ensures { result ≡ same_action self.now other.now }
    {
        self == other
    }

    /// How two actions compare: by kind, and then by their parts from left to right.
    pub fn compare(&self, other: &Self) -> Ordering
        ensures { result ≡ action_cmp self.now other.now }
    {
        self.cmp(other)
    }

    /// The same action once more, whose values share their collections with this one's.
    pub fn try_copy(&self, alloc: Global) -> Result<Self, AllocError>
        ensures { IfOk result (λ a. a ≡ self.now) }
    {
        match self {
            Action::Send { message, from, to } => {
                let message = message.try_copy()?;
                Ok(Action::Send {
                    message,
                    from: *from,
                    to: *to,
                })
            }
            Action::Receive { message, from, to } => {
                let message = message.try_copy()?;
                Ok(Action::Receive {
                    message,
                    from: *from,
                    to: *to,
                })
            }
            Action::Local(action) => Ok(Action::Local(action.try_copy(alloc)?)),
            Action::Stimulus(action) => Ok(Action::Stimulus(action.try_copy(alloc)?)),
        }
    }
}

/// A message and the two ends of its channel, if the arguments are these.
fn message_and_ends(arguments: &[Value]) -> Option<(&Value, i64, i64)>
    ensures { option_map (λ p. (p.0.now, p.1, p.2)) result ≡ parts.message_and_ends arguments.now }
{
    match arguments {
        [message, from, to] => Some((message, from.as_number()?, to.as_number()?)),
        _ => None,
    }
}

/// The arguments of a send or a receive.
fn message_arguments(
    alloc: Global,
    message: &Value,
    from: i64,
    to: i64,
) -> Result<Vec<Value>, AllocError>
    ensures { IfOk result (λ v. v.items ≡ message.now ∷ number from ∷ number to ∷ []) }
{
    let mut arguments = Vec::new(alloc);
    arguments.push(message.try_copy()?)?;
    arguments.push(Value::number(from))?;
    arguments.push(Value::number(to))?;
    Ok(arguments)
}
