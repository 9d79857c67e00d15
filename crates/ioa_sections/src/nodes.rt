//! The programs of nodes.

ghost use Rattle.std.specs.Prelude.{◌≡◌, ◌<◌, ◌^◌, [], IfOk, IfSome, find, length, map, pos, slice_get};
ghost use Rattle.std.specs.Option.{option_copied, option_map};
ghost use Rattle.std.specs.List.{list_any};
ghost use Rattle.ioa_values.specs.Outcome.{Answers};
ghost use Rattle.ioa_terms.specs.View.{term_of};
ghost use Rattle.ioa_terms.specs.Bindings.{names_of, same_word};
ghost use Rattle.ioa_source.specs.TextView.{declared_of, node_of, parameter_of, placement_of};
ghost use Rattle.ioa_system.specs.InView.{given_bindings};
ghost use Rattle.ioa_system.specs.ResolvedPrograms.{AreResolvedParameters, IsResolvedParameter};
ghost use Rattle.ioa_sorts.specs.Firings.{arguments_at};
ghost use Rattle.ioa_sections.specs.Distinct.{differ_from};
ghost use Rattle.ioa_sections.specs.Grounds.{HaveDeclaredShapes};
ghost use Rattle.ioa_sections.specs.Nodes as spec;
ghost use Rattle.ioa_sections.specs.Sections.{node_at, nodes_in};

use crate::checked::CheckedDeclarations;
use crate::values::{argument_values, check_constants, gives_number, variable_values};
use ioa_actions::{RECEIVE, SEND};
use ioa_names::{NameTable, NamedAutomaton, NamedProgram, View};
use ioa_refusals::Refusal;
use ioa_sorts::sort_arguments;
use ioa_source::{Declared, Node, Parameter, Placement};
use ioa_system::{CheckedAutomaton, Program, Rule};
use ioa_terms::{Callee, Checked, Env, NameLists, Shape, Term, Value, Word};
use ioa_types::AllTypes;
use std::alloc::{AllocError, Global};
use std::sync::Arc;

/// The greatest number of nodes.
pub const MOST_NODES: usize = 64;

/// The nodes of a system section, in the order of their declaration. `Limit` (31) if there are more than `MOST_NODES`,
/// `Twice` (21) if two have one number.
#[tactic(auto, unfolding(crate::specs::Nodes::at_most, crate::specs::Nodes::nodes_or))]
pub(crate) fn nodes_of<'a>(
    alloc: Global,
    placements: &'a Vec<Placement<(), (), ()>>,
) -> Result<Vec<&'a Node<(), (), ()>>, Refusal>
    ensures { Answers Refusal.Memory (λ ns. map node_at ns.items) result
        (spec.nodes_at (map placement_of placements.now.items)) }
{
    let nodes = all_nodes(alloc, placements)?;
    if nodes.len() > MOST_NODES {
        return Err(Refusal::Limit);
    }
    if !are_numbered_anew(&nodes) {
        return Err(Refusal::Twice);
    }
    Ok(nodes)
}

/// The nodes of a system section, in the order of their declaration.
fn all_nodes<'a>(
    alloc: Global,
    placements: &'a Vec<Placement<(), (), ()>>,
) -> Result<Vec<&'a Node<(), (), ()>>, AllocError>
    ensures { IfOk result (λ ns. map node_at ns.items ≡ nodes_in (map placement_of placements.now.items)) }
{
    let mut nodes: Vec<&'a Node<(), (), ()>> = Vec::new(alloc);
    for placement in placements {
        if let Placement::Node(node) = placement {
            nodes.push(node)?;
        }
    }
    Ok(nodes)
}

/// Whether no two nodes have one number.
fn are_numbered_anew(nodes: &[&Node<(), (), ()>]) -> bool
    ensures { result ≡ differ_from spec.same_number [] (map node_at nodes.now) }
{
    for position in 0..nodes.len() {
        let node = nodes[position];
        if is_node(&nodes[..position], node.number) {
            return false;
        }
    }
    true
}

/// Whether a number is that of a node.
fn is_node(nodes: &[&Node<(), (), ()>], number: i64) -> bool
    ensures { result ≡ list_any (spec.has_number number) (map node_at nodes.now) }
{
    nodes.iter().any(|node| node.number == number)
}

/// The node that has a number.
fn node_numbered<'a>(nodes: &[&'a Node<(), (), ()>], number: i64) -> Option<&'a Node<(), (), ()>>
    ensures { option_map node_at result ≡ find (spec.has_number number) (map node_at nodes.now) }
{
    for node in nodes {
        if node.number == number {
            return Some(node);
        }
    }
    None
}

/// The automaton that has a name.
fn automaton_named<'a>(automata: &'a Vec<NamedAutomaton>, name: &Word) -> Option<&'a NamedAutomaton>
    ensures { option_copied result ≡ spec.automaton_named name.now automata.now.items }
{
    for automaton in automata {
        if automaton.automaton().name() == name {
            return Some(automaton);
        }
    }
    None
}

/// The shapes of parameters.
fn shapes_of(alloc: Global, parameters: &[Declared<Shape>]) -> Result<Vec<Shape>, AllocError>
    ensures { IfOk result (λ ss. ss.items ≡ map (λ d. d.shape) (map declared_of parameters.now)) }
{
    let mut shapes = Vec::new(alloc);
    for parameter in parameters {
        let shape = parameter.shape.try_copy(alloc)?;
        shapes.push(shape)?;
    }
    Ok(shapes)
}

/// The values of the arguments of a node or of a script's call, each of the shape at its position, in a text of these
/// constants.
#[tactic(auto, unfolding(crate::specs::Nodes::given_at))]
pub(crate) fn given_values(
    alloc: Global,
    types: &AllTypes,
    shapes: &Vec<Shape>,
    arguments: &Vec<Term>,
) -> Result<Vec<Value>, Refusal>
    requires { HaveDeclaredShapes types.now.constants shapes.now.items }
    ensures values { Answers Refusal.Memory (λ vs. vs.items) result
        (spec.given_at types.now.constants shapes.now.items (map term_of arguments.now.items)) }
    ensures many { IfOk result (λ vs. length vs.items ≡ length shapes.now.items) }
{
    let terms = given_terms(alloc, types.types().constants(), shapes, arguments)?;
    let env = Env::with_constants(NameLists::one(&[]), &[], types.names().as_slice());
    argument_values(alloc, &env, shapes, &terms)
}

/// The terms that these values have, with slots and shapes.
fn given_terms(
    alloc: Global,
    constants: &NameTable,
    shapes: &Vec<Shape>,
    arguments: &Vec<Term>,
) -> Result<Vec<Checked>, Refusal>
    ensures { Answers Refusal.Memory (λ ts. map term_of ts.items) result
        (arguments_at constants.now shapes.now.items (map term_of arguments.now.items)) }
{
    let none = NameTable::new(alloc);
    let view = View::new(&none, &none, constants)?;
    sort_arguments(alloc, &view, shapes, arguments)
}

/// Whether a parameter is there and is the constant of a number.
fn is_constant_of(
    alloc: Global,
    env: &Env,
    parameter: Option<&Parameter<usize, Callee, Shape>>,
    number: i64,
) -> Result<bool, AllocError>
    requires { IfSome parameter (λ p. IsResolvedParameter (names_of env.now) (parameter_of p.now)) }
    ensures { IfOk result (λ b. b
        ≡ spec.is_constant_of env.now number (option_map parameter_of (option_copied parameter.entry))) }
{
    match parameter {
        None => Ok(false),
        Some(parameter) => match parameter {
            Parameter::Declared(_) => Ok(false),
            Parameter::Const(term) => gives_number(alloc, env, term, number),
        },
    }
}

/// Whether a parameter, if its entry has the name that asks for it, is the constant of a number.
fn is_own(
    alloc: Global,
    env: &Env,
    asked: bool,
    parameter: Option<&Parameter<usize, Callee, Shape>>,
    number: i64,
) -> Result<bool, AllocError>
    requires { IfSome parameter (λ p. IsResolvedParameter (names_of env.now) (parameter_of p.now)) }
    ensures { IfOk result (λ b. b
        ≡ spec.is_own env.now number asked (option_map parameter_of (option_copied parameter.entry))) }
{
    if asked {
        is_constant_of(alloc, env, parameter, number)
    } else {
        Ok(true)
    }
}

/// Whether an entry, if it is `send`, has the number of a node second.
fn sends_from(alloc: Global, env: &Env, rule: &Rule, number: i64) -> Result<bool, AllocError>
    requires { AreResolvedParameters (names_of env.now) rule.now.entry.parameters }
    ensures { IfOk result (λ b. b ≡ spec.is_own env.now number (same_word rule.now.entry.name SEND.now)
        (slice_get rule.now.entry.parameters 1)) }
{
    let is_send = rule.entry.name.as_str() == SEND;
    is_own(alloc, env, is_send, rule.entry.parameters.get(1), number)
}

/// Whether an entry, if it is `receive`, has the number of a node third.
fn receives_at(alloc: Global, env: &Env, rule: &Rule, number: i64) -> Result<bool, AllocError>
    requires { AreResolvedParameters (names_of env.now) rule.now.entry.parameters }
    ensures { IfOk result (λ b. b ≡ spec.is_own env.now number (same_word rule.now.entry.name RECEIVE.now)
        (slice_get rule.now.entry.parameters 2)) }
{
    let is_receive = rule.entry.name.as_str() == RECEIVE;
    is_own(alloc, env, is_receive, rule.entry.parameters.get(2), number)
}

/// Whether an entry may be on the node of a number.
fn is_at_home(alloc: Global, env: &Env, rule: &Rule, number: i64) -> Result<bool, AllocError>
    requires { AreResolvedParameters (names_of env.now) rule.now.entry.parameters }
    ensures { IfOk result (λ b. b ≡ spec.is_at_home env.now number rule.now) }
{
    let sends = sends_from(alloc, env, rule, number)?;
    let receives = receives_at(alloc, env, rule, number)?;
    Ok(sends && receives)
}

/// Passes if an entry may be on the node of a number, and each of its constants has a value. Else `BadArgument` (34).
#[tactic(auto, unfolding(crate::specs::Nodes::home_at))]
fn check_entry(alloc: Global, env: &Env, rule: &Rule, number: i64) -> Result<(), Refusal>
    requires { AreResolvedParameters (names_of env.now) rule.now.entry.parameters }
    ensures { Answers Refusal.Memory (λ x. x) result (spec.entry_on env.now number rule.now) }
{
    check_constants(alloc, env, &rule.entry.parameters)?;
    if is_at_home(alloc, env, rule, number)? {
        Ok(())
    } else {
        Err(Refusal::BadArgument)
    }
}

/// Passes if each entry of an automaton may be on the node of a number, whose parameters have these values.
fn check_entries(
    alloc: Global,
    automaton: &CheckedAutomaton,
    arguments: &Vec<Value>,
    number: i64,
) -> Result<(), Refusal>
    requires { length arguments.now.items ≡ length automaton.now.parameters }
    ensures { Answers Refusal.Memory (λ x. x) result
        (spec.entries_on (given_bindings automaton.now arguments.now.items) number automaton.now.rules) }
{
    let env = automaton.given_env(arguments);
    for rule in automaton.rules() {
        check_entry(alloc, &env, rule, number)?;
    }
    Ok(())
}

/// The values of the state variables of an automaton in the start state, on the node of a number, whose parameters have
/// these values.
#[tactic(auto, unfolding(crate::specs::Nodes::start_values))]
fn start_values(
    alloc: Global,
    automaton: &CheckedAutomaton,
    arguments: &Vec<Value>,
    number: i64,
) -> Result<Vec<Value>, Refusal>
    requires { length arguments.now.items ≡ length automaton.now.parameters }
    ensures values { Answers Refusal.Memory (λ vs. vs.items) result
        (spec.start_values number automaton.now arguments.now.items) }
    ensures many { IfOk result (λ vs. length vs.items ≡ length automaton.now.variables) }
{
    check_entries(alloc, automaton, arguments, number)?;
    let env = automaton.given_env(arguments);
    variable_values(alloc, &env, automaton.variables())
}

/// The first values of the variables of an automaton's schedule block, if its parameters have these values.
fn block_values(
    alloc: Global,
    automaton: &CheckedAutomaton,
    arguments: &Vec<Value>,
) -> Result<Vec<Value>, Refusal>
    requires { length arguments.now.items ≡ length automaton.now.parameters }
    ensures values { Answers Refusal.Memory (λ vs. vs.items) result
        (spec.variable_values (given_bindings automaton.now arguments.now.items) automaton.now.schedule.variables) }
    ensures many { IfOk result (λ vs. length vs.items ≡ length automaton.now.schedule.variables) }
{
    let env = automaton.given_env(arguments);
    variable_values(alloc, &env, automaton.schedule().variables.as_slice())
}

/// The program of the node of a number on which an automaton is placed, whose parameters have these values.
#[tactic(auto, unfolding(crate::specs::Nodes::program_of))]
fn program_of(
    alloc: Global,
    number: i64,
    automaton: &NamedAutomaton,
    arguments: Vec<Value>,
) -> Result<NamedProgram, Refusal>
    requires { length arguments.items ≡ length automaton.now.parameters }
    ensures { Answers Refusal.Memory (λ p. p) result
        (spec.program_of number automaton.now arguments.items) }
{
    let shared = Arc::try_clone(automaton.automaton())?;
    let initial = start_values(alloc, &shared, &arguments, number)?;
    let block = block_values(alloc, &shared, &arguments)?;
    let program = Program::new(number, shared, arguments, initial, block);
    Ok(NamedProgram::new(alloc, program, automaton)?)
}

/// The program of the node of a number on which an automaton is placed with these arguments.
#[tactic(auto, unfolding(crate::specs::Nodes::program_with))]
fn program_with(
    alloc: Global,
    types: &AllTypes,
    number: i64,
    arguments: &Vec<Term>,
    automaton: &NamedAutomaton,
) -> Result<NamedProgram, Refusal>
    requires { HaveDeclaredShapes types.now.constants (spec.parameter_shapes automaton.now) }
    ensures { Answers Refusal.Memory (λ p. p) result (spec.program_with types.now.constants number
        (map term_of arguments.now.items) automaton.now) }
{
    let shapes = shapes_of(alloc, automaton.automaton().parameters())?;
    let given = given_values(alloc, types, &shapes, arguments)?;
    program_of(alloc, number, automaton, given)
}

/// The program of a node, whose number is this one. `Unknown` (20) if its automaton is not declared.
#[tactic(auto, unfolding(crate::specs::Nodes::automaton_or))]
fn node_program(
    alloc: Global,
    declared: &CheckedDeclarations,
    number: i64,
    node: &Node<(), (), ()>,
) -> Result<NamedProgram, Refusal>
    ensures { Answers Refusal.Memory (λ p. p) result (spec.node_program declared.now.types.constants
        declared.now.automata number (node_of node.now)) }
{
    match automaton_named(declared.automata(), &node.automaton) {
        None => Err(Refusal::Unknown),
        Some(automaton) => {
            program_with(alloc, declared.types(), number, &node.arguments, automaton)
        }
    }
}

/// The program of the node of a number. `NodeGap` (30) if there is no such node.
#[tactic(auto, unfolding(crate::specs::Nodes::program_at))]
fn program_at(
    alloc: Global,
    declared: &CheckedDeclarations,
    nodes: &[&Node<(), (), ()>],
    number: i64,
) -> Result<NamedProgram, Refusal>
    ensures { Answers Refusal.Memory (λ p. p) result (spec.program_at declared.now.types.constants
        declared.now.automata number (find (spec.has_number number) (map node_at nodes.now))) }
{
    match node_numbered(nodes, number) {
        None => Err(Refusal::NodeGap),
        Some(node) => node_program(alloc, declared, number, node),
    }
}

/// The program of the node whose number is a position.
fn program_at_position(
    alloc: Global,
    declared: &CheckedDeclarations,
    nodes: &[&Node<(), (), ()>],
    position: usize,
) -> Result<NamedProgram, Refusal>
    requires { position < 2 ^ 63 }
    ensures { Answers Refusal.Memory (λ p. p) result (spec.program_at declared.now.types.constants
        declared.now.automata (pos position) (find (spec.has_number (pos position)) (map node_at nodes.now))) }
{
    program_at(alloc, declared, nodes, position as i64)
}

/// The programs of nodes, node 0 first.
pub(crate) fn programs_of(
    alloc: Global,
    declared: &CheckedDeclarations,
    nodes: &[&Node<(), (), ()>],
) -> Result<Vec<NamedProgram>, Refusal>
    ensures { Answers Refusal.Memory (λ ps. ps.items) result
        (spec.programs_at declared.now.types.constants declared.now.automata (map node_at nodes.now)) }
{
    let mut programs = Vec::new(alloc);
    for position in 0..nodes.len() {
        match program_at_position(alloc, declared, nodes, position) {
            Ok(program) => programs.push(program)?,
            Err(refusal) => return Err(refusal),
        }
    }
    Ok(programs)
}
