//! Where the names of invariants read.

ghost use Rattle.std.specs.Prelude.{◌≡◌, IfOk, Some, map, slice_get};
ghost use Rattle.std.specs.List.{position_from};
ghost use Rattle.std.specs.Option.{option_copied, option_map};
ghost use Rattle.ioa_source.specs.TextView.{variable_of};
ghost use Rattle.ioa_system.specs.InView.{variable_names};
ghost use Rattle.ioa_terms.specs.Bindings.{same_word, slot_in};
ghost use Rattle.ioa_compose.specs.Composition.{component_names, find_conf};
ghost use Rattle.ioa_actions.specs.ComponentOrder.{same_component};
ghost use Rattle.ioa_verdicts.specs.Readers.{listed};
ghost use Rattle.ioa_verdicts.specs.Places.{place_of, places_of, queue_place, slot_of, variable_place};
ghost use Rattle.ioa_verdicts.specs.Places.{variable_position};

use ioa_actions::Component;
use ioa_compose::Conf;
use ioa_course::Course;
use ioa_source::Variable;
use ioa_system::CheckedInvariant;
use ioa_terms::{Callee, Name, Shape, Word};
use std::alloc::{AllocError, Global};

/// Where a name reads. It is found once, and stays right: no step moves a component or changes a node's program.
#[derive(Clone, Copy, Debug)]
pub enum Place {
    /// There is nothing to be read.
    Nowhere,
    /// A state variable.
    Variable {
        /// The slot of its node.
        slot: usize,
        /// Its position among the variables of the node.
        position: usize,
    },
    /// The messages of the queue in a slot.
    Messages(usize),
}

/// Invariants, and where their names read.
#[derive(Clone, Copy)]
pub struct Placed<'a> {
    /// The invariants.
    pub invariants: &'a [CheckedInvariant],
    /// For each of them the places of its readings.
    pub places: &'a [Vec<Place>],
}

impl<'a> Placed<'a> {
    /// The places of the invariant of a number; none if there is no such invariant.
    pub fn places_at(&self, number: usize) -> &'a [Place]
        ensures { result.now ≡ listed (slice_get (map (λ ps. ps.items) self.now.places.now) number) }
    {
        places_in(self.places.get(number))
    }
}

/// The places in a list, if there is one.
fn places_in(places: Option<&Vec<Place>>) -> &[Place]
    ensures { result.now ≡ listed (option_map (λ ps. ps.items) (option_copied places.entry)) }
{
    match places {
        Some(places) => places.as_slice(),
        None => &[],
    }
}

/// Where the names of invariants read.
pub fn all_places(
    alloc: Global,
    course: &Course,
    invariants: &[CheckedInvariant],
) -> Result<Vec<Vec<Place>>, AllocError>
    ensures { IfOk result (λ p. map (λ ps. ps.items) p.items ≡ map (λ v. places_of v course.now) invariants.now) }
{
    let mut all = Vec::new(alloc);
    for invariant in invariants {
        all.push(places_of(alloc, course, invariant)?)?;
    }
    Ok(all)
}

/// Where the names of an invariant read.
fn places_of(
    alloc: Global,
    course: &Course,
    invariant: &CheckedInvariant,
) -> Result<Vec<Place>, AllocError>
    ensures { IfOk result (λ p. p.items ≡ places_of invariant.now course.now) }
{
    let mut places = Vec::new(alloc);
    for name in invariant.readings() {
        places.push(place_of(course, name))?;
    }
    Ok(places)
}

/// Where a name reads.
fn place_of(course: &Course, name: &Name) -> Place
    ensures { result ≡ place_of name.now course.now }
{
    match name {
        Name::Word(_) => Place::Nowhere,
        Name::Variable { name, node } => variable_place(course, name, node_numbered(node)),
        Name::Queue { from, to } => queue_place(course, channel_between(from, to)),
    }
}

/// The node of a number.
fn node_numbered(number: &i64) -> Component
    ensures { result ≡ Component.Node number.now }
{
    Component::Node(*number)
}

/// The channel from one node to another.
fn channel_between(from: &i64, to: &i64) -> Component
    ensures { result ≡ Component.Channel from.now to.now }
{
    Component::Channel {
        from: *from,
        to: *to,
    }
}

/// Where the messages of a channel are, if there is such a channel.
fn queue_place(course: &Course, channel: Component) -> Place
    ensures { result ≡ queue_place (slot_of channel course.now) }
{
    match course.slot_of(channel) {
        Some(slot) => Place::Messages(slot),
        None => Place::Nowhere,
    }
}

/// Where the variable of a name is at a node.
fn variable_place(course: &Course, name: &Word, node: Component) -> Place
    ensures { result ≡ variable_place (slot_of node course.now)
        (variable_position name.now (find_conf node course.now)) }
{
    match course.slot_of(node) {
        Some(slot) => place_in(slot, variable_position(conf_of(course, node), name)),
        None => Place::Nowhere,
    }
}

/// The place of a variable in a slot, by its position there, if it has one.
fn place_in(slot: usize, position: Option<usize>) -> Place
    ensures { result ≡ variable_place (Some slot) position }
{
    match position {
        Some(position) => Place::Variable { slot, position },
        None => Place::Nowhere,
    }
}

/// The configuration of a component, if there is one.
#[tactic(auto, using(crate::proofs::Found::found_at, crate::proofs::Found::found_nowhere))]
fn conf_of(course: &Course, component: Component) -> Option<&Conf>
    ensures { option_copied result ≡ find_conf component course.now }
{
    match course.slot_of(component) {
        Some(slot) => at_slot(course.confs(), slot),
        None => None,
    }
}

/// The configuration in a slot, if there is one.
pub fn at_slot(confs: &[Conf], slot: usize) -> Option<&Conf>
    ensures { option_copied result ≡ slice_get confs.now slot }
{
    confs.get(slot)
}

/// The position of the variable of a name at a node, if there is one.
fn variable_position(conf: Option<&Conf>, name: &Word) -> Option<usize>
    ensures { result ≡ variable_position name.now (option_copied conf.entry) }
{
    match conf {
        Some(Conf::Node(node)) => slot_named(node.program().automaton().variables(), name),
        Some(Conf::Queue(_)) | None => None,
    }
}

/// The slot of the variable of a name, if there is one.
fn slot_named(variables: &[Variable<usize, Callee, Shape>], name: &Word) -> Option<usize>
    ensures { result ≡ slot_in (Name.Word name.now) (map Name.Word (variable_names (map variable_of variables.now))) }
{
    place_named(variables, name)
}

/// The position of the variable of a name, if there is one.
fn place_named(variables: &[Variable<usize, Callee, Shape>], name: &Word) -> Option<usize>
    ensures { result ≡ position_from (λ v. same_word name.now v.declared.name) 0 variables.now }
{
    variables
        .iter()
        .position(|variable| *name == variable.declared.name)
}
