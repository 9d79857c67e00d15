//! The shapes of what an invariant reads.

ghost use Rattle.std.specs.Prelude.{◌≡◌, IfOk, length, map};
ghost use Rattle.std.specs.List.{list_any};
ghost use Rattle.ioa_values.specs.Outcome.{Answers};
ghost use Rattle.std.specs.Option.{option_copied};
ghost use Rattle.ioa_operators.specs.Shapes.{sequences};
ghost use Rattle.ioa_invariants.specs.ReadShapes as spec;

use ioa_names::{NamedProgram, named_program_numbered};
use ioa_refusals::Refusal;
use ioa_source::Channel;
use ioa_system::message_shape;
use ioa_terms::{Name, Shape, ShapeForm, Word};
use std::alloc::{AllocError, Global};
use std::sync::Arc;

/// The shapes of what names read, one by one, if these are the programs of the nodes and these the channels. `Unknown`
/// (20) if there is no such node, variable or channel.
pub(crate) fn reading_shapes(
    alloc: Global,
    programs: &[NamedProgram],
    channels: &[Channel],
    names: &[Name],
) -> Result<Vec<Shape>, Refusal>
    ensures shapes { Answers Refusal.Memory (λ ss. ss.items) result
        (spec.reading_shapes programs.now channels.now names.now) }
    ensures many { IfOk result (λ ss. length ss.items ≡ length names.now) }
{
    let mut shapes = Vec::new(alloc);
    for name in names {
        let shape = reading_shape(alloc, programs, channels, name)?;
        shapes.push(shape)?;
    }
    Ok(shapes)
}

/// The shape of what a name reads.
fn reading_shape(
    alloc: Global,
    programs: &[NamedProgram],
    channels: &[Channel],
    name: &Name,
) -> Result<Shape, Refusal>
    ensures { Answers Refusal.Memory (λ s. s) result
        (spec.shape_or (spec.reading_shape programs.now channels.now name.now)) }
{
    match name {
        Name::Word(_) => Err(Refusal::Unknown),
        Name::Variable { name, node } => {
            variable_shape(alloc, name, named_program_numbered(programs, *node))
        }
        Name::Queue { from, to } => {
            if !has_channel(channels, *from, *to) {
                return Err(Refusal::Unknown);
            }
            queue_shape(alloc, named_program_numbered(programs, *to))
        }
    }
}

/// The declared shape of a state variable, if there is the node and it has the variable.
fn variable_shape(
    alloc: Global,
    name: &Word,
    program: Option<&NamedProgram>,
) -> Result<Shape, Refusal>
    ensures { Answers Refusal.Memory (λ s. s) result
        (spec.shape_or (spec.variable_shape name.now (option_copied program.entry))) }
{
    match program {
        None => Err(Refusal::Unknown),
        Some(program) => match program.variable_named(name) {
            None => Err(Refusal::Unknown),
            Some(variable) => Ok(variable.declared.shape.try_copy(alloc)?),
        },
    }
}

/// The shape of a queue, if there is the node that receives: sequences of the messages that it takes.
fn queue_shape(alloc: Global, program: Option<&NamedProgram>) -> Result<Shape, Refusal>
    ensures { Answers Refusal.Memory (λ s. s) result
        (spec.shape_or (spec.queue_shape (option_copied program.entry))) }
{
    match program {
        None => Err(Refusal::Unknown),
        Some(program) => match message_shape(program.program().automaton().rules()) {
            None => Err(Refusal::Unknown),
            Some(message) => Ok(sequences_of(alloc, message)?),
        },
    }
}

/// Sequences of values of a shape.
fn sequences_of(alloc: Global, item: &Shape) -> Result<Shape, AllocError>
    ensures { IfOk result (λ s. s ≡ sequences item.now) }
{
    let item = item.try_copy(alloc)?;
    Ok(Shape::of(ShapeForm::Sequences(Arc::new(alloc, item)?)))
}

/// Whether there is a channel from one node to another.
fn has_channel(channels: &[Channel], from: i64, to: i64) -> bool
    ensures { result ≡ list_any (spec.is_channel from to) channels.now }
{
    channels
        .iter()
        .any(|channel| channel.from == from && channel.to == to)
}
