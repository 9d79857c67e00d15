//! The names in view at the sites of an automaton.

ghost use Rattle.std.specs.Prelude.{◌≡◌, IfOk, Some, map};
ghost use Rattle.std.specs.Option.{option_copied};
ghost use Rattle.ioa_operators.specs.Shapes.{integers, maps, sequences};
ghost use Rattle.ioa_terms.specs.Inboxes.{inboxes_word};
ghost use Rattle.ioa_values.specs.Outcome.{Answers};
ghost use Rattle.ioa_source.specs.TextView.{declared_of, parameter_of, variable_of};
ghost use Rattle.ioa_names.specs.NameTables.{with_names};
ghost use Rattle.ioa_automata.specs.NamesInView as spec;

use ioa_names::NameTable;
use ioa_refusals::Refusal;
use ioa_sort_rules::map_of;
use ioa_source::{Declared, Parameter, Variable};
use ioa_system::{Rule, message_shape};
use ioa_terms::{Callee, Shape, ShapeForm, Word, inboxes_word};
use std::alloc::{AllocError, Global};
use std::sync::Arc;

/// A declared name and its shape, with their own memory.
fn copy_declared(alloc: Global, declared: &Declared<Shape>) -> Result<(Word, Shape), AllocError>
    ensures name { IfOk result (λ d. d.0 ≡ declared.now.name) }
    ensures shape { IfOk result (λ d. d.1 ≡ declared.now.shape) }
{
    let name = declared.name.try_copy(alloc)?;
    let shape = declared.shape.try_copy(alloc)?;
    Ok((name, shape))
}

/// A table with one more declared name. `Twice` (21) if it is in the table.
fn with_declared(
    alloc: Global,
    table: NameTable,
    declared: &Declared<Shape>,
) -> Result<NameTable, Refusal>
    ensures { Answers Refusal.Memory (λ t. t) result
        (spec.with_declared table (declared_of declared.now)) }
{
    let (name, shape) = copy_declared(alloc, declared)?;
    table.with(alloc, name, shape)
}

/// A table with the names of an automaton's parameters behind it.
fn with_parameters(
    alloc: Global,
    table: NameTable,
    parameters: &Vec<Declared<Shape>>,
) -> Result<NameTable, Refusal>
    ensures { Answers Refusal.Memory (λ t. t) result
        (with_names table (spec.parameter_shapes (map declared_of parameters.now.items))) }
{
    let mut table = table;
    for parameter in parameters {
        table = with_declared(alloc, table, parameter)?;
    }
    Ok(table)
}

/// A table with the names of state variables behind it.
fn with_variables(
    alloc: Global,
    table: NameTable,
    variables: &Vec<Variable<usize, Callee, Shape>>,
) -> Result<NameTable, Refusal>
    ensures { Answers Refusal.Memory (λ t. t) result
        (with_names table (spec.variable_shapes (map variable_of variables.now.items))) }
{
    let mut table = table;
    for variable in variables {
        table = with_declared(alloc, table, &variable.declared)?;
    }
    Ok(table)
}

/// A table with the names of an entry's own parameters behind it.
fn with_own(
    alloc: Global,
    table: NameTable,
    parameters: &Vec<Parameter<usize, Callee, Shape>>,
) -> Result<NameTable, Refusal>
    ensures { Answers Refusal.Memory (λ t. t) result
        (with_names table (spec.own_shapes (map parameter_of parameters.now.items))) }
{
    let mut table = table;
    for parameter in parameters {
        if let Parameter::Declared(declared) = parameter {
            table = with_declared(alloc, table, declared)?;
        }
    }
    Ok(table)
}

/// The names of an automaton's parameters, which constants of entries and initial values read. `Twice` (21) if two of
/// them are the same, or one is a constant's.
pub(crate) fn given_names(
    alloc: Global,
    constants: &NameTable,
    parameters: &Vec<Declared<Shape>>,
) -> Result<NameTable, Refusal>
    ensures { Answers Refusal.Memory (λ t. t) result
        (spec.given_names_or constants.now (map declared_of parameters.now.items)) }
{
    let table = with_parameters(alloc, NameTable::new(alloc), parameters)?;
    table.pass_new(&NameTable::new(alloc), constants)
}

/// The names of an automaton's state variables and parameters, which its guards, effects and firings read. `Twice` (21)
/// if two of them are the same, or one is a constant's.
pub(crate) fn outer_names(
    alloc: Global,
    constants: &NameTable,
    parameters: &Vec<Declared<Shape>>,
    variables: &Vec<Variable<usize, Callee, Shape>>,
) -> Result<NameTable, Refusal>
    ensures { Answers Refusal.Memory (λ t. t) result
        (spec.outer_names_or constants.now (map declared_of parameters.now.items)
        (map variable_of variables.now.items)) }
{
    let table = with_variables(alloc, NameTable::new(alloc), variables)?;
    let table = with_parameters(alloc, table, parameters)?;
    table.pass_new(&NameTable::new(alloc), constants)
}

/// The names of an entry's own parameters. `Twice` (21) if two of them are the same, or one is a name outside or a
/// constant's.
pub(crate) fn own_names(
    alloc: Global,
    outer: &NameTable,
    constants: &NameTable,
    own: &Vec<Parameter<usize, Callee, Shape>>,
) -> Result<NameTable, Refusal>
    ensures { Answers Refusal.Memory (λ t. t) result
        (spec.own_names_or outer.now constants.now (map parameter_of own.now.items)) }
{
    let table = with_own(alloc, NameTable::new(alloc), own)?;
    table.pass_new(outer, constants)
}

/// A table with the inboxes behind it, if messages of a shape are taken. `Twice` (21) if their name is in the table,
/// which that of no text is.
fn with_inboxes(
    alloc: Global,
    table: NameTable,
    message: Option<&Shape>,
) -> Result<NameTable, Refusal>
    ensures { Answers Refusal.Memory (λ t. t) result
        (with_names table (spec.inbox_shapes_of (option_copied message.entry))) }
{
    match message {
        None => Ok(table),
        Some(message) => with_inboxes_of(alloc, table, message),
    }
}

/// A table with the inboxes behind it, for messages of this shape.
fn with_inboxes_of(alloc: Global, table: NameTable, message: &Shape) -> Result<NameTable, Refusal>
    ensures { Answers Refusal.Memory (λ t. t) result
        (with_names table (spec.inbox_shapes_of (Some message.now))) }
{
    let (word, shape) = named_inboxes(alloc, message)?;
    table.with(alloc, word, shape)
}

/// The name of the inboxes, and their shape, if messages have this shape.
fn named_inboxes(alloc: Global, message: &Shape) -> Result<(Word, Shape), AllocError>
    ensures word { IfOk result (λ n. n.0 ≡ inboxes_word) }
    ensures shape { IfOk result (λ n. n.1 ≡ maps integers (sequences message.now)) }
{
    let word = inboxes_word(alloc)?;
    let shape = shape_of_inboxes(alloc, message)?;
    Ok((word, shape))
}

/// The shape of the inboxes, if messages have this shape: a map from the numbers of nodes to sequences.
fn shape_of_inboxes(alloc: Global, message: &Shape) -> Result<Shape, AllocError>
    ensures { IfOk result (λ s. s ≡ maps integers (sequences message.now)) }
{
    let message = Arc::new(alloc, message.try_copy(alloc)?)?;
    let senders = Shape::of(ShapeForm::Integers);
    map_of(alloc, senders, Shape::of(ShapeForm::Sequences(message)))
}

/// The names that a schedule block alone reads: those of its variables, and that of the inboxes, if one of these rules
/// takes messages. `Twice` (21) if two of them are the same, or one is a name outside or a constant's.
pub(crate) fn block_names(
    alloc: Global,
    outer: &NameTable,
    constants: &NameTable,
    variables: &Vec<Variable<usize, Callee, Shape>>,
    rules: &[Rule],
) -> Result<NameTable, Refusal>
    ensures { Answers Refusal.Memory (λ t. t) result
        (spec.block_names_or outer.now constants.now (map variable_of variables.now.items) rules.now) }
{
    let table = with_variables(alloc, NameTable::new(alloc), variables)?;
    let table = with_inboxes(alloc, table, message_shape(rules))?;
    table.pass_new(outer, constants)
}
