//! The turns of a node.

ghost use Rattle.std.specs.Prelude.{◌≡◌, [], IfOk, IfSome, OnErr, OnOk, Some, is_some, length, map, true};
ghost use Rattle.std.specs.Option.{option_copied, option_map};
ghost use Rattle.ioa_compose.specs.Composition as conf;
ghost use Rattle.ioa_values.specs.Outcome.{Answers};
ghost use Rattle.ioa_terms.specs.Inboxes.{inboxes_of};
ghost use Rattle.ioa_system.specs.InView.{block_own_names, block_statement, declared_names, scope_at};
ghost use Rattle.ioa_system.specs.Parts.{message_shape};
ghost use Rattle.ioa_schedules.specs.Controls.{todo_of};
ghost use Rattle.ioa_schedules.specs.Views.{StandsAt};
ghost use Rattle.ioa_turns.specs.Inboxes.{inbox_at, inbox_of, inboxes_in, inboxes_seen, one_or_none};
ghost use Rattle.ioa_turns.specs.NodeTurns as spec;
ghost use Rattle.ioa_turns.specs.NodeTurns.{arguments_in, block_of, end_of, kept_in, progress_of};
ghost use Rattle.ioa_commits.specs.Versions.{read_confs};

use crate::progress::Progress;
use ioa_actions::Component;
use ioa_book::Snapshot;
use ioa_compose::Conf;
use ioa_record::NodeFault;
use ioa_schedules::{Turn, View, next};
use ioa_sharing::Origin;
use ioa_system::Program;
use ioa_terms::{Inbox, LentValues, Name};
use ioa_transitions::NodeConf;
use ioa_values::Sequence;
use std::alloc::{AllocError, Global};

/// What the block of a node sees on a configuration of the node, if it sees these inboxes.
pub(crate) fn view_of<'a>(
    program: &'a Program,
    inboxes: Option<&'a [Inbox<'a>]>,
    conf: &'a NodeConf,
) -> View<'a>
    requires { length conf.now.variables ≡ length program.now.automaton.variables }
    ensures front { result.front.now ≡ [] }
    ensures names { result.names ≡ map Name.Word
        (scope_at block_statement (declared_names program.now.automaton) (block_own_names program.now.automaton)) }
    ensures inboxes { result.lent.inboxes ≡ inboxes.entry }
    ensures first { result.lent.first.now ≡ conf.now.variables }
    ensures second { result.lent.second.now ≡ program.now.arguments }
    ensures constants { result.constants.now ≡ program.now.automaton.constants }
    ensures given { length program.now.arguments ≡ length program.now.automaton.parameters }
{
    let automaton = program.automaton();
    View {
        front: &[],
        names: automaton.block_names(),
        lent: LentValues {
            inboxes,
            first: conf.variables(),
            second: program.arguments(),
        },
        constants: automaton.constants(),
    }
}

/// The inbox of a node that a configuration is, if it is one: a channel to the node, on which nothing but messages
/// waits. None of them is copied.
fn inbox_at(conf: &Conf, node: i64) -> Option<Inbox<'_>>
    ensures { inboxes_of (one_or_none result) ≡ inbox_at node conf.now }
{
    match conf {
        Conf::Node(_) => None,
        Conf::Queue(queue) => inbox_of(node, queue.messages()?, queue.component()),
    }
}

/// The inbox of a node that a component with these messages is, if it is a channel to the node.
fn inbox_of(node: i64, messages: &Sequence, component: Component) -> Option<Inbox<'_>>
    ensures { inboxes_of (one_or_none result) ≡ inbox_of node (Some messages.now) component }
{
    match component {
        Component::Channel { from, to } => {
            if to == node {
                Some(Inbox {
                    sender: from,
                    messages,
                })
            } else {
                None
            }
        }
        Component::Node(_) => None,
        Component::Script(_) => None,
    }
}

/// The inboxes of a node, in the order of what was read. No message is copied.
pub(crate) fn inboxes_to<O: Origin>(
    alloc: Global,
    snapshot: &Snapshot<O>,
    node: i64,
) -> Result<Vec<Inbox<'_>>, AllocError>
    ensures { IfOk result (λ v. inboxes_of v.items ≡ inboxes_in node (read_confs snapshot.now.reads)) }
{
    let mut inboxes = Vec::new(alloc);
    for read in snapshot.reads() {
        if let Some(inbox) = inbox_at(read.conf(), node) {
            inboxes.push(inbox)?;
        }
    }
    Ok(inboxes)
}

/// The inbox of a node, if at most one was read.
fn only_inbox<O: Origin>(snapshot: &Snapshot<O>, node: i64) -> Option<Option<Inbox<'_>>>
    ensures { IfSome result
        (λ o. inboxes_of (one_or_none o) ≡ inboxes_in node (read_confs snapshot.now.reads)) }
{
    let mut found = None;
    for read in snapshot.reads() {
        if let Some(inbox) = inbox_at(read.conf(), node) {
            if found.is_some() {
                return None;
            }
            found = Some(inbox);
        }
    }
    Some(found)
}

/// The configuration of a component, if it was read.
#[inline(always)]
pub(crate) fn find_conf<O: Origin>(snapshot: &Snapshot<O>, component: Component) -> Option<&Conf>
    ensures { option_copied result ≡ conf.find_conf component (read_confs snapshot.now.reads) }
{
    for read in snapshot.reads() {
        if component == read.component() {
            return Some(read.conf());
        }
    }
    None
}

/// The turn of a node on what a look at it has read (profile). `Unknown (53)` if it has read nothing of the node,
/// `Differs (51)` if what it has read can't be the node's, else the fault of its block, if that meets one. After a
/// fault the node is as it was.
#[inline(always)]
pub fn turn_of<'a, O: Origin>(
    alloc: Global,
    snapshot: &Snapshot<O>,
    node: &mut Progress<'a>,
) -> Result<Turn<'a>, NodeFault>
    ensures turn { Answers NodeFault.Memory (λ t. (end_of (arguments_in node.new) t, progress_of node.new))
        result (spec.turn_at (read_confs snapshot.now.reads) (progress_of node.old)) }
    ensures stands { IfOk result (StandsAt (progress_of node.new).todo) }
    ensures same_program { (progress_of node.new).program ≡ (progress_of node.old).program }
    ensures same_ending { node.new.ending ≡ node.old.ending }
    ensures kept { OnOk result (IfSome (kept_in node.new) (λ s. s ≡ block_of (progress_of node.old))) }
    ensures unchanged { OnErr result (progress_of node.new ≡ progress_of node.old) }
{
    match find_conf(snapshot, Component::Node(node.program.node())) {
        Some(Conf::Node(conf)) => turn_on(alloc, snapshot, conf, node),
        Some(Conf::Queue(_)) => Err(NodeFault::Differs),
        None => Err(NodeFault::Unknown),
    }
}

/// The turn of a node on a configuration, among those that were read.
#[inline(always)]
fn turn_on<'a, O: Origin>(
    alloc: Global,
    snapshot: &Snapshot<O>,
    conf: &NodeConf,
    node: &mut Progress<'a>,
) -> Result<Turn<'a>, NodeFault>
    ensures turn { Answers NodeFault.Memory (λ t. (end_of (arguments_in node.new) t, progress_of node.new))
        result (spec.turn_on (progress_of node.old) (inboxes_seen node.old.program.now (read_confs snapshot.now.reads))
        (Some (Conf.Node conf.now))) }
    ensures stands { IfOk result (StandsAt (todo_of node.new.control)) }
    ensures same_program { node.new.program.now ≡ node.old.program.now }
    ensures same_ending { node.new.ending ≡ node.old.ending }
    ensures kept { OnOk result (IfSome (kept_in node.new) (λ s. s ≡ block_of (progress_of node.old))) }
    ensures unchanged { OnErr result (progress_of node.new ≡ progress_of node.old) }
{
    if shows_program(node.program, conf) {
        turn_among(alloc, snapshot, conf, node)
    } else {
        Err(NodeFault::Differs)
    }
}

/// Whether a configuration may be one of a node with this program: it has a value for each state variable.
pub(crate) fn shows_program(program: &Program, conf: &NodeConf) -> bool
    ensures { result ≡ spec.shows_program program.now conf.now }
{
    conf.variables().len() == program.automaton().variables().len()
}

/// The turn of a node on a configuration that may be its own, among those that were read. Its inboxes are looked up
/// only if its automaton takes messages.
#[inline(always)]
fn turn_among<'a, O: Origin>(
    alloc: Global,
    snapshot: &Snapshot<O>,
    conf: &NodeConf,
    node: &mut Progress<'a>,
) -> Result<Turn<'a>, NodeFault>
    requires { length conf.now.variables ≡ length node.old.program.now.automaton.variables }
    ensures turn { Answers NodeFault.Memory (λ t. (end_of (arguments_in node.new) t, progress_of node.new))
        result (spec.block_turn (progress_of node.old)
        (inboxes_seen node.old.program.now (read_confs snapshot.now.reads)) conf.now.variables) }
    ensures stands { IfOk result (StandsAt (todo_of node.new.control)) }
    ensures same_program { node.new.program.now ≡ node.old.program.now }
    ensures same_ending { node.new.ending ≡ node.old.ending }
    ensures kept { OnOk result (IfSome (kept_in node.new) (λ s. s ≡ block_of (progress_of node.old))) }
    ensures unchanged { OnErr result (progress_of node.new ≡ progress_of node.old) }
{
    if node.program.automaton().takes_messages() {
        turn_by_inboxes(alloc, snapshot, conf, node)
    } else {
        block_turn(alloc, None, conf, node)
    }
}

/// The same of a node whose automaton takes messages. One inbox takes no memory.
#[inline(never)]
fn turn_by_inboxes<'a, O: Origin>(
    alloc: Global,
    snapshot: &Snapshot<O>,
    conf: &NodeConf,
    node: &mut Progress<'a>,
) -> Result<Turn<'a>, NodeFault>
    requires valued { length conf.now.variables ≡ length node.old.program.now.automaton.variables }
    requires takes { is_some (message_shape node.old.program.now.automaton.rules) ≡ true }
    ensures turn { Answers NodeFault.Memory (λ t. (end_of (arguments_in node.new) t, progress_of node.new))
        result (spec.block_turn (progress_of node.old)
        (Some (inboxes_in node.old.program.now.node (read_confs snapshot.now.reads))) conf.now.variables) }
    ensures stands { IfOk result (StandsAt (todo_of node.new.control)) }
    ensures same_program { node.new.program.now ≡ node.old.program.now }
    ensures same_ending { node.new.ending ≡ node.old.ending }
    ensures kept { OnOk result (IfSome (kept_in node.new) (λ s. s ≡ block_of (progress_of node.old))) }
    ensures unchanged { OnErr result (progress_of node.new ≡ progress_of node.old) }
{
    match only_inbox(snapshot, node.program.node()) {
        Some(Some(inbox)) => block_turn(alloc, Some([inbox].as_slice()), conf, node),
        Some(None) => block_turn(alloc, Some(&[]), conf, node),
        None => turn_by_all_inboxes(alloc, snapshot, conf, node),
    }
}

/// The same of a node that may have more inboxes than one.
#[inline(never)]
fn turn_by_all_inboxes<'a, O: Origin>(
    alloc: Global,
    snapshot: &Snapshot<O>,
    conf: &NodeConf,
    node: &mut Progress<'a>,
) -> Result<Turn<'a>, NodeFault>
    requires valued { length conf.now.variables ≡ length node.old.program.now.automaton.variables }
    requires takes { is_some (message_shape node.old.program.now.automaton.rules) ≡ true }
    ensures turn { Answers NodeFault.Memory (λ t. (end_of (arguments_in node.new) t, progress_of node.new))
        result (spec.block_turn (progress_of node.old)
        (Some (inboxes_in node.old.program.now.node (read_confs snapshot.now.reads))) conf.now.variables) }
    ensures stands { IfOk result (StandsAt (todo_of node.new.control)) }
    ensures same_program { node.new.program.now ≡ node.old.program.now }
    ensures same_ending { node.new.ending ≡ node.old.ending }
    ensures kept { OnOk result (IfSome (kept_in node.new) (λ s. s ≡ block_of (progress_of node.old))) }
    ensures unchanged { OnErr result (progress_of node.new ≡ progress_of node.old) }
{
    let Ok(inboxes) = inboxes_to(alloc, snapshot, node.program.node()) else {
        return Err(NodeFault::Memory);
    };
    block_turn(alloc, Some(inboxes.as_slice()), conf, node)
}

/// The turn of a node on a configuration that may be its own, if its block sees these inboxes.
#[inline(always)]
fn block_turn<'a>(
    alloc: Global,
    inboxes: Option<&[Inbox]>,
    conf: &NodeConf,
    node: &mut Progress<'a>,
) -> Result<Turn<'a>, NodeFault>
    requires valued { length conf.now.variables ≡ length node.old.program.now.automaton.variables }
    requires seen { is_some inboxes ≡ is_some (message_shape node.old.program.now.automaton.rules) }
    ensures turn { Answers NodeFault.Memory (λ t. (end_of (arguments_in node.new) t, progress_of node.new))
        result (spec.block_turn (progress_of node.old) (option_map (λ is. inboxes_of is.now) inboxes.entry)
        conf.now.variables) }
    ensures stands { IfOk result (StandsAt (todo_of node.new.control)) }
    ensures same_program { node.new.program.now ≡ node.old.program.now }
    ensures same_ending { node.new.ending ≡ node.old.ending }
    ensures kept { OnOk result (IfSome (kept_in node.new) (λ s. s ≡ block_of (progress_of node.old))) }
    ensures unchanged { OnErr result (progress_of node.new ≡ progress_of node.old) }
{
    let view = view_of(node.program, inboxes, conf);
    let turn = next(alloc, &mut node.control, &view)?;
    Ok(turn)
}
