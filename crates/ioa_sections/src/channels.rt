//! The channels between nodes.

ghost use Rattle.std.specs.Prelude.{◌≡◌, [], IfOk, IfSome, map, slice_get};
ghost use Rattle.std.specs.Option.{option_copied, option_map};
ghost use Rattle.std.specs.List.{list_any};
ghost use Rattle.ioa_values.specs.Outcome.{Answers};
ghost use Rattle.ioa_terms.specs.Bindings.{names_of};
ghost use Rattle.ioa_source.specs.TextView.{parameter_of, placement_of};
ghost use Rattle.ioa_system.specs.Declarations.{same_channel};
ghost use Rattle.ioa_system.specs.InView.{declared_names, entry_constant, names_at};
ghost use Rattle.ioa_system.specs.Parts.{rule_named};
ghost use Rattle.ioa_system.specs.ResolvedPrograms.{AreResolvedParameters, IsResolvedParameter};
ghost use Rattle.ioa_system.specs.Systems.{program_numbered};
ghost use Rattle.ioa_sections.specs.Channels as spec;
ghost use Rattle.ioa_sections.specs.Distinct.{differ_from};
ghost use Rattle.ioa_sections.specs.Sections.{channels_in};

use crate::values::gives_number;
use ioa_actions::{RECEIVE, SEND};
use ioa_names::{NamedProgram, named_program_numbered};
use ioa_refusals::Refusal;
use ioa_sort_rules::is_same_sort;
use ioa_source::{Channel, Parameter, Placement};
use ioa_system::{Program, Rule};
use ioa_terms::{Callee, Env, Shape};
use std::alloc::{AllocError, Global};

/// The greatest number of channels.
pub const MOST_CHANNELS: usize = 256;

/// The channels of a system section, in the order of their declaration. `Limit` (31) if there are more than
/// `MOST_CHANNELS`, `Twice` (21) if two are between the same nodes in the same direction.
#[tactic(auto, unfolding(crate::specs::Nodes::at_most, crate::specs::Channels::channels_or))]
pub(crate) fn channels_of(
    alloc: Global,
    placements: &Vec<Placement<(), (), ()>>,
) -> Result<Vec<Channel>, Refusal>
    ensures { Answers Refusal.Memory (λ cs. cs.items) result
        (spec.channels_at (map placement_of placements.now.items)) }
{
    let channels = all_channels(alloc, placements)?;
    if channels.len() > MOST_CHANNELS {
        return Err(Refusal::Limit);
    }
    if !are_new_channels(&channels) {
        return Err(Refusal::Twice);
    }
    Ok(channels)
}

/// The channels of a system section, in the order of their declaration.
fn all_channels(
    alloc: Global,
    placements: &Vec<Placement<(), (), ()>>,
) -> Result<Vec<Channel>, AllocError>
    ensures { IfOk result (λ cs. cs.items ≡ channels_in (map placement_of placements.now.items)) }
{
    let mut channels: Vec<Channel> = Vec::new(alloc);
    for placement in placements {
        if let Placement::Channel(channel) = placement {
            channels.push(*channel)?;
        }
    }
    Ok(channels)
}

/// Whether no two channels are between the same nodes in the same direction.
fn are_new_channels(channels: &[Channel]) -> bool
    ensures { result ≡ differ_from same_channel [] channels.now }
{
    for (position, channel) in channels.iter().enumerate() {
        if is_channel(&channels[..position], channel) {
            return false;
        }
    }
    true
}

/// Whether a channel is one of these.
fn is_channel(channels: &[Channel], channel: &Channel) -> bool
    ensures { result ≡ list_any (λ c. same_channel c channel.now) channels.now }
{
    channels.iter().any(|other| other.from == channel.from && other.to == channel.to)
}

/// The program of the node that has a number. `Unknown` (20) if there is no such node.
#[tactic(auto, unfolding(crate::specs::Channels::program_or))]
pub(crate) fn program_or(
    programs: &Vec<NamedProgram>,
    number: i64,
) -> Result<&NamedProgram, Refusal>
    ensures { Answers Refusal.Memory (λ p. p.now) result
        (spec.program_or (program_numbered number programs.now.items)) }
{
    match named_program_numbered(programs, number) {
        None => Err(Refusal::Unknown),
        Some(program) => Ok(program),
    }
}

/// Whether a parameter is there and takes a number: a constant takes its own value alone.
fn takes_number(
    alloc: Global,
    env: &Env,
    parameter: Option<&Parameter<usize, Callee, Shape>>,
    number: i64,
) -> Result<bool, AllocError>
    requires { IfSome parameter (λ p. IsResolvedParameter (names_of env.now) (parameter_of p.now)) }
    ensures { IfOk result (λ b. b
        ≡ spec.takes_number env.now number (option_map parameter_of (option_copied parameter.entry))) }
{
    match parameter {
        None => Ok(false),
        Some(parameter) => match parameter {
            Parameter::Declared(_) => Ok(true),
            Parameter::Const(term) => gives_number(alloc, env, term, number),
        },
    }
}

/// Whether a `receive` of a program takes messages from the node of a number.
fn takes_from(
    alloc: Global,
    program: &Program,
    rule: &Rule,
    number: i64,
) -> Result<bool, AllocError>
    requires { AreResolvedParameters (names_at entry_constant (declared_names program.now.automaton) [])
        rule.now.entry.parameters }
    ensures { IfOk result (λ b. b ≡ spec.takes_from program.now number rule.now) }
{
    let env = program.automaton().given_env(program.arguments());
    takes_second(alloc, &env, rule, number)
}

/// Whether the second parameter of a rule is there and takes a number.
fn takes_second(alloc: Global, env: &Env, rule: &Rule, number: i64) -> Result<bool, AllocError>
    requires { AreResolvedParameters (names_of env.now) rule.now.entry.parameters }
    ensures { IfOk result (λ b. b ≡ spec.takes_number env.now number (slice_get rule.now.entry.parameters 1)) }
{
    takes_number(alloc, env, rule.entry.parameters.get(1), number)
}

/// The `receive` of a program, if it takes messages from the node of a number. Else `InputMissing` (28).
#[tactic(auto, unfolding(crate::specs::Channels::input_or))]
fn input_or<'a>(alloc: Global, program: &'a Program, number: i64) -> Result<&'a Rule, Refusal>
    ensures { Answers Refusal.Memory (λ r. r.now) result
        (spec.input_or program.now number (rule_named RECEIVE.now program.now.automaton.rules)) }
{
    match program.automaton().rule_named(RECEIVE) {
        None => Err(Refusal::InputMissing),
        Some(rule) => {
            if takes_from(alloc, program, rule, number)? {
                Ok(rule)
            } else {
                Err(Refusal::InputMissing)
            }
        }
    }
}

/// Whether the messages of two rules are of one sort: they are the first arguments.
fn is_same_message(shapes: &Vec<Shape>, others: &Vec<Shape>) -> bool
    ensures { result ≡ spec.same_message shapes.now.items others.now.items }
{
    match shapes.get(0) {
        None => false,
        Some(shape) => match others.get(0) {
            None => false,
            Some(other) => is_same_sort(shape, other),
        },
    }
}

/// Passes if what a sender's rule sends, if it has one, is what the receiver's rule takes. Else `ChannelSorts` (27).
#[tactic(auto, unfolding(crate::specs::Channels::output_at))]
fn check_output(input: &Rule, output: Option<&Rule>) -> Result<(), Refusal>
    ensures { Answers Refusal.Memory (λ x. x) result (spec.output_at input.now (option_copied output.entry)) }
{
    match output {
        None => Ok(()),
        Some(rule) => {
            if is_same_message(&rule.shapes, &input.shapes) {
                Ok(())
            } else {
                Err(Refusal::ChannelSorts)
            }
        }
    }
}

/// Passes if a receiver takes what a sender sends, whose node has this number.
#[tactic(auto, unfolding(crate::specs::Channels::channel_to))]
fn check_receiver(
    alloc: Global,
    sender: &Program,
    receiver: &Program,
    number: i64,
) -> Result<(), Refusal>
    ensures { Answers Refusal.Memory (λ x. x) result (spec.channel_to sender.now receiver.now number) }
{
    let input = input_or(alloc, receiver, number)?;
    check_output(input, sender.automaton().rule_named(SEND))
}

/// Passes if the ends of a channel are nodes of these programs, and the receiver takes what the sender sends.
#[tactic(auto, unfolding(crate::specs::Channels::channel_between))]
fn check_ends(alloc: Global, programs: &Vec<NamedProgram>, channel: &Channel) -> Result<(), Refusal>
    ensures { Answers Refusal.Memory (λ x. x) result
        (spec.channel_between programs.now.items channel.now) }
{
    let sender = program_or(programs, channel.from)?;
    let receiver = program_or(programs, channel.to)?;
    check_receiver(alloc, sender.program(), receiver.program(), channel.from)
}

/// The same, if it is from one node to another. Else `SelfChannel` (29).
#[tactic(auto, unfolding(crate::specs::Channels::channel_at))]
fn check_channel(
    alloc: Global,
    programs: &Vec<NamedProgram>,
    channel: &Channel,
) -> Result<(), Refusal>
    ensures { Answers Refusal.Memory (λ x. x) result (spec.channel_at programs.now.items channel.now) }
{
    if channel.from == channel.to {
        return Err(Refusal::SelfChannel);
    }
    check_ends(alloc, programs, channel)
}

/// Passes if each channel does.
pub(crate) fn check_channels(
    alloc: Global,
    programs: &Vec<NamedProgram>,
    channels: &[Channel],
) -> Result<(), Refusal>
    ensures { Answers Refusal.Memory (λ x. x) result
        (spec.all_channels_at programs.now.items channels.now) }
{
    for channel in channels {
        check_channel(alloc, programs, channel)?;
    }
    Ok(())
}
