//! The walk over the system section.

use crate::asking::Ask;
use crate::cut::{Cut, blank};
use crate::halt::{Halt, bare};
use crate::heading::{Heading, given_of};
use crate::index::{NameIndex, index_of_automata, index_of_entries};
use crate::passed::Passed;
use crate::rules::shapes_taken;
use crate::sections::ChecksSections;
use crate::terms::pass_each;
use crate::unknown::Sought;
use ioa_actions::{ChannelKind, RECEIVE, SEND};
use ioa_names::{NameTable, View};
use ioa_refusals::Refusal;
use ioa_source::{Automaton, Call, Channel, Declaration, Node, Placement, ScriptDeclaration, Text};
use ioa_terms::{Kind, Shape, Term, Word};
use ioa_text_reader::{FrontFault, parse};
use ioa_tokens::Mark;
use ioa_walk::{Part, Span, Walk, one_token};
use std::alloc::{AllocError, Global};

/// The powers of two up to the number of nodes, channels and scripts that a section may have.
const POWERS: [usize; 9] = [256, 128, 64, 32, 16, 8, 4, 2, 1];

/// A refused system section.
#[derive(Drop)]
pub(crate) struct Section<'a, S> {
    /// What is looked for.
    pub ask: &'a Ask<'a>,
    /// The text.
    pub cut: Cut<'a>,
    /// Its tree.
    pub source: &'a Text<(), (), ()>,
    /// Who is asked about it.
    pub sections: &'a S,
}

/// The walk over a system section.
pub(crate) fn seek_section<S: ChecksSections>(
    walk: &mut Walk<'_>,
    section: &Section<'_, S>,
) -> Result<(), Halt> {
    let parts = parts_of(walk, section.ask.alloc, &section.source.system)?;
    seek_alone(section, &parts)?;
    seek_refused(section, &parts)
}

/// The walk to the first node, channel or script that is refused as was told whatever it places. They have these parts.
fn seek_alone<S: ChecksSections>(section: &Section<'_, S>, parts: &[Part]) -> Result<(), Halt> {
    let mut passed = Passed::new(section.ask.alloc);
    seek_each_alone(section, parts, &mut passed)
}

/// The same behind channels and scripts that were passed.
fn seek_each_alone<S: ChecksSections>(
    section: &Section<'_, S>,
    parts: &[Part],
    passed: &mut Passed,
) -> Result<(), Halt> {
    let placements = &section.source.system;
    for position in 0..placements.len().min(parts.len()) {
        if is_refused_alone(
            section,
            passed,
            &placements[..position],
            &placements[position],
        )? {
            return Err(bare(section.ask.alloc, parts[position]));
        }
    }
    Ok(())
}

/// Whether a placement behind others is refused as was told whatever it places.
fn is_refused_alone<S: ChecksSections>(
    section: &Section<'_, S>,
    passed: &mut Passed,
    before: &[Placement<(), (), ()>],
    placement: &Placement<(), (), ()>,
) -> Result<bool, AllocError> {
    match section.ask.told {
        Refusal::Twice => is_twice(passed, before, placement),
        Refusal::SelfChannel => Ok(is_to_itself(placement)),
        Refusal::NodeGap => Ok(is_gap(&section.source.system, placement)),
        Refusal::Limit => Ok(is_one_too_many(section, before, placement)),
        _ => Ok(false),
    }
}

/// The parts of nodes, channels and scripts.
fn parts_of(
    walk: &mut Walk<'_>,
    alloc: Global,
    placements: &Vec<Placement<(), (), ()>>,
) -> Result<Vec<Part>, Halt> {
    let mut parts = Vec::new(alloc);
    for placement in placements {
        let part = pass_placement(walk, placement)?;
        parts.push(part)?;
    }
    Ok(parts)
}

/// Passes a node, a channel or a script.
fn pass_placement(walk: &mut Walk<'_>, placement: &Placement<(), (), ()>) -> Result<Part, Halt> {
    match placement {
        Placement::Node(node) => {
            let first = walk.mark(Mark::Node)?;
            let _number = walk.number(node.number)?;
            let last = pass_call(walk, &node.automaton)?.last;
            Ok(Part { first, last })
        }
        Placement::Channel(channel) => {
            let first = walk.mark(Mark::Channel)?;
            let _from = walk.number(channel.from)?;
            let to = walk.number(channel.to)?;
            let last = pass_kind(walk, channel.kind, to)?;
            Ok(Part { first, last })
        }
        Placement::Script(script) => {
            let first = walk.mark(Mark::Script)?;
            let last = walk.number(script.node)?;
            let last = pass_calls(walk, last, &script.calls)?;
            Ok(Part { first, last })
        }
    }
}

/// Passes what says that a channel keeps no order. Returns the position of the channel's last token, which is this one
/// if it keeps its order.
fn pass_kind(walk: &mut Walk<'_>, kind: ChannelKind, before: usize) -> Result<usize, Halt> {
    match kind {
        ChannelKind::Ordered => Ok(before),
        ChannelKind::Unordered => Ok(walk.mark(Mark::Unordered)?),
    }
}

/// Passes a name with its arguments.
fn pass_call(walk: &mut Walk<'_>, name: &Word) -> Result<Part, Halt> {
    let first = walk.word(name)?;
    let last = walk.called(first)?;
    walk.go_behind(last);
    Ok(Part { first, last })
}

/// Passes the calls of a script. Returns the position of the last token, which is this one if there are none.
fn pass_calls(
    walk: &mut Walk<'_>,
    before: usize,
    calls: &Vec<Call<(), (), ()>>,
) -> Result<usize, Halt> {
    let mut last = before;
    for call in calls {
        last = pass_call(walk, &call.name)?.last;
    }
    Ok(last)
}

/// How many nodes there are.
fn count_of_nodes(placements: &[Placement<(), (), ()>]) -> usize {
    let mut count: usize = 0;
    for placement in placements {
        match placement {
            Placement::Node(_) => count = count.saturating_add(1),
            Placement::Channel(_) | Placement::Script(_) => {}
        }
    }
    count
}

/// How many channels there are.
fn count_of_channels(placements: &[Placement<(), (), ()>]) -> usize {
    let mut count: usize = 0;
    for placement in placements {
        match placement {
            Placement::Channel(_) => count = count.saturating_add(1),
            Placement::Node(_) | Placement::Script(_) => {}
        }
    }
    count
}

/// Whether a node has a number.
fn has_node(placements: &[Placement<(), (), ()>], number: i64) -> bool {
    for placement in placements {
        if is_node_of(placement, number) {
            return true;
        }
    }
    false
}

/// Whether a placement is the node of a number.
fn is_node_of(placement: &Placement<(), (), ()>, number: i64) -> bool {
    match placement {
        Placement::Node(node) => node.number == number,
        Placement::Channel(_) | Placement::Script(_) => false,
    }
}

/// Whether a channel with these ends is one of these.
pub(crate) fn has_channel(placements: &[Placement<(), (), ()>], from: i64, to: i64) -> bool {
    for placement in placements {
        match placement {
            Placement::Channel(other) => {
                if other.from == from && other.to == to {
                    return true;
                }
            }
            Placement::Node(_) | Placement::Script(_) => {}
        }
    }
    false
}

/// Whether a placement behind others is there twice.
fn is_twice(
    passed: &mut Passed,
    before: &[Placement<(), (), ()>],
    placement: &Placement<(), (), ()>,
) -> Result<bool, AllocError> {
    match placement {
        Placement::Node(node) => Ok(has_node(before, node.number)),
        Placement::Channel(channel) => Ok(!passed.add_channel(channel)?),
        Placement::Script(script) => Ok(!passed.add_script(script.node)?),
    }
}

/// Whether a placement is a channel from a node to itself.
fn is_to_itself(placement: &Placement<(), (), ()>) -> bool {
    match placement {
        Placement::Channel(channel) => channel.from == channel.to,
        Placement::Node(_) | Placement::Script(_) => false,
    }
}

/// Whether a placement behind others is one too many.
fn is_one_too_many<S: ChecksSections>(
    section: &Section<'_, S>,
    before: &[Placement<(), (), ()>],
    placement: &Placement<(), (), ()>,
) -> bool {
    match placement {
        Placement::Node(_) => count_of_nodes(before) >= section.sections.most_nodes(),
        Placement::Channel(_) => count_of_channels(before) >= section.sections.most_channels(),
        Placement::Script(_) => false,
    }
}

/// Whether a placement is a node whose number is none of those that the nodes of a section may have.
fn is_gap(placements: &[Placement<(), (), ()>], placement: &Placement<(), (), ()>) -> bool {
    match placement {
        Placement::Node(node) => !is_below(node.number, count_of_nodes(placements)),
        Placement::Channel(_) | Placement::Script(_) => false,
    }
}

/// Whether a number is one of so many from 0 on.
fn is_below(number: i64, count: usize) -> bool {
    match usize::try_from(number) {
        Ok(number) => number < count,
        Err(_) => false,
    }
}

/// The walk to the first node, channel or script, in the order of the check, that is refused as was told together with
/// those before it.
fn seek_refused<S: ChecksSections>(
    section: &Section<'_, S>,
    parts: &Vec<Part>,
) -> Result<(), Halt> {
    let order = order_of(section.ask.alloc, &section.source.system)?;
    match span_of_section(section) {
        None => Err(Halt::Lost),
        Some(span) => seek_first(section, parts, &order, span),
    }
}

/// The walk to the first placement of this order that is refused as was told together with those before it, in a
/// section that has this place.
fn seek_first<S: ChecksSections>(
    section: &Section<'_, S>,
    parts: &Vec<Part>,
    order: &Vec<usize>,
    span: Span,
) -> Result<(), Halt> {
    let mut good: usize = 0;
    for power in POWERS {
        let more = good.saturating_add(power);
        if more <= order.len() && !is_refused_with(section, parts, order, span, more)? {
            good = more;
        }
    }
    match order.get(good) {
        None => Ok(()),
        Some(position) => seek_at(section, parts, *position),
    }
}

/// The walk over the placement at a position, which is refused.
fn seek_at<S: ChecksSections>(
    section: &Section<'_, S>,
    parts: &Vec<Part>,
    position: usize,
) -> Result<(), Halt> {
    let Some(part) = parts.get(position) else {
        return Err(Halt::Lost);
    };
    let Some(placement) = section.source.system.get(position) else {
        return Err(Halt::Lost);
    };
    let mut walk = section.cut.walk_from(part.first);
    seek_placement(&mut walk, section, placement)?;
    Err(bare(section.ask.alloc, *part))
}

/// The positions of nodes, channels and scripts in the order in which the check goes: the nodes by their numbers, then
/// the channels, then the scripts.
fn order_of(
    alloc: Global,
    placements: &Vec<Placement<(), (), ()>>,
) -> Result<Vec<usize>, AllocError> {
    let mut order = Vec::new(alloc);
    for number in 0..count_of_nodes(placements) {
        if let Some(position) = position_of_node(placements, number) {
            order.push(position)?;
        }
    }
    for (position, placement) in placements.iter().enumerate() {
        if let Placement::Channel(_) = placement {
            order.push(position)?;
        }
    }
    for (position, placement) in placements.iter().enumerate() {
        if let Placement::Script(_) = placement {
            order.push(position)?;
        }
    }
    Ok(order)
}

/// The position of the node of a number.
fn position_of_node(placements: &[Placement<(), (), ()>], number: usize) -> Option<usize> {
    let number = i64::try_from(number).ok()?;
    for (position, placement) in placements.iter().enumerate() {
        if is_node_of(placement, number) {
            return Some(position);
        }
    }
    None
}

/// Whether the section that has this place is refused as was told with the first nodes, channels and scripts alone, so
/// many of this order.
fn is_refused_with<S: ChecksSections>(
    section: &Section<'_, S>,
    parts: &Vec<Part>,
    order: &Vec<usize>,
    span: Span,
    count: usize,
) -> Result<bool, AllocError> {
    let mut bytes = Vec::new(section.ask.alloc);
    let text = section.cut.text.as_bytes();
    bytes.extend_from_slice(text.get(span.offset..span.end).unwrap_or(&[]))?;
    for position in order.iter().skip(count) {
        leave_out(&mut bytes, section, parts, *position, span.offset);
    }
    match String::from_utf8(bytes) {
        Ok(text) => is_refused_so(section, text.as_str()),
        Err(_) => Ok(false),
    }
}

/// The place of the section, from its first word to the first invariant, or to the end of the text.
fn span_of_section<S: ChecksSections>(section: &Section<'_, S>) -> Option<Span> {
    let mut walk = section.cut.walk_from(0);
    let first = walk.mark(Mark::System).ok()?;
    let offset = section.cut.span(one_token(first))?.offset;
    let end = match walk.mark(Mark::Invariant) {
        Ok(behind) => section.cut.span(one_token(behind))?.offset,
        Err(_) => section.cut.text.len(),
    };
    Some(Span { offset, end })
}

/// Puts spaces in the place of a part of a section that begins at an offset.
fn leave_out<S: ChecksSections>(
    bytes: &mut Vec<u8>,
    section: &Section<'_, S>,
    parts: &Vec<Part>,
    position: usize,
    start: usize,
) {
    if let Some(part) = parts.get(position) {
        if let Some(span) = section.cut.span(*part) {
            let offset = span.offset.saturating_sub(start);
            let end = span.end.saturating_sub(start);
            blank(bytes, Span { offset, end });
        }
    }
}

/// Whether the system section that a text spells is refused as was told.
fn is_refused_so<S: ChecksSections>(
    section: &Section<'_, S>,
    text: &str,
) -> Result<bool, AllocError> {
    match parse(section.ask.alloc, text) {
        Err(FrontFault::Memory) => Err(AllocError),
        Err(_) => Ok(false),
        Ok(source) => refuses(section, &source.text().system),
    }
}

/// Whether a section of these nodes, channels and scripts is refused as was told.
fn refuses<S: ChecksSections>(
    section: &Section<'_, S>,
    placements: &Vec<Placement<(), (), ()>>,
) -> Result<bool, AllocError> {
    match section
        .sections
        .check_section(section.ask.alloc, placements)
    {
        Ok(()) => Ok(false),
        Err(Refusal::Memory) => Err(AllocError),
        Err(refusal) => Ok(refusal == section.ask.told),
    }
}

/// The walk over a node, a channel or a script that is refused.
fn seek_placement<S: ChecksSections>(
    walk: &mut Walk<'_>,
    section: &Section<'_, S>,
    placement: &Placement<(), (), ()>,
) -> Result<(), Halt> {
    match placement {
        Placement::Node(node) => seek_node(walk, section, node),
        Placement::Channel(channel) => seek_channel(walk, section, channel),
        Placement::Script(script) => seek_script(walk, section, script),
    }
}

/// The automaton of a name.
pub(crate) fn automaton_named<'a>(
    declarations: &'a [Declaration<(), (), ()>],
    name: &Word,
) -> Option<&'a Automaton<(), (), ()>> {
    for declaration in declarations {
        match declaration {
            Declaration::Type(_) => {}
            Declaration::Automaton(automaton) => {
                if automaton.name == *name {
                    return Some(automaton);
                }
            }
        }
    }
    None
}

/// The shapes of the parameters of an automaton.
fn parameter_shapes(ask: &Ask<'_>, automaton: &Automaton<(), (), ()>) -> Result<Vec<Shape>, Halt> {
    let mut shapes = Vec::new(ask.alloc);
    for parameter in &automaton.parameters {
        let shape = ask.shape_of(&parameter.sort)?;
        shapes.push(shape)?;
    }
    Ok(shapes)
}

/// The walk over arguments that read constants alone, at the places of these shapes. They have this part with the name
/// before them.
fn seek_given(
    walk: &mut Walk<'_>,
    ask: &Ask<'_>,
    shapes: &Vec<Shape>,
    name: &Word,
    arguments: &Vec<Term>,
    part: Part,
) -> Result<(), Halt> {
    let view = View::new(&ask.whole.none, &ask.whole.none, ask.constants)?;
    pass_each(walk, &ask.in_view(&view), arguments, shapes)?;
    ask.count_at(part, name, shapes.len(), arguments.len())?;
    walk.go_behind(part.last);
    Ok(())
}

/// The walk over a node.
fn seek_node<S: ChecksSections>(
    walk: &mut Walk<'_>,
    section: &Section<'_, S>,
    node: &Node<(), (), ()>,
) -> Result<(), Halt> {
    let _number = walk.number(node.number)?;
    let first = walk.word(&node.automaton)?;
    let last = walk.called(first)?;
    match automaton_named(&section.source.declarations, &node.automaton) {
        None => {
            let automata = index_of_automata(section.ask.alloc, &section.source.declarations)?;
            let sought = Sought::Automata(&automata);
            section
                .ask
                .unknown_at(one_token(first), sought, &node.automaton)
        }
        Some(automaton) => {
            let shapes = parameter_shapes(section.ask, automaton)?;
            seek_given(
                walk,
                section.ask,
                &shapes,
                &node.automaton,
                &node.arguments,
                Part { first, last },
            )
        }
    }
}

/// The walk over a channel.
fn seek_channel<S: ChecksSections>(
    walk: &mut Walk<'_>,
    section: &Section<'_, S>,
    channel: &Channel,
) -> Result<(), Halt> {
    let from = walk.number(channel.from)?;
    let to = walk.number(channel.to)?;
    if !has_node(&section.source.system, channel.from) {
        section.ask.told_at(Refusal::Unknown, one_token(from))?;
    }
    if !has_node(&section.source.system, channel.to) {
        section.ask.told_at(Refusal::Unknown, one_token(to))?;
    }
    Ok(())
}

/// The automaton that is placed on the node of a number.
pub(crate) fn automaton_of<'a>(
    source: &'a Text<(), (), ()>,
    number: i64,
) -> Option<&'a Automaton<(), (), ()>> {
    let name = program_of(&source.system, number)?;
    automaton_named(&source.declarations, name)
}

/// The name of the automaton that is placed on the node of a number.
pub(crate) fn program_of(placements: &[Placement<(), (), ()>], number: i64) -> Option<&Word> {
    for placement in placements {
        match placement {
            Placement::Node(node) => {
                if node.number == number {
                    return Some(&node.automaton);
                }
            }
            Placement::Channel(_) | Placement::Script(_) => {}
        }
    }
    None
}

/// The walk over a script.
fn seek_script<S: ChecksSections>(
    walk: &mut Walk<'_>,
    section: &Section<'_, S>,
    script: &ScriptDeclaration<(), (), ()>,
) -> Result<(), Halt> {
    let number = walk.number(script.node)?;
    match automaton_of(section.source, script.node) {
        None => section.ask.told_at(Refusal::Unknown, one_token(number)),
        Some(automaton) => {
            let given = given_of(section.ask, automaton)?;
            seek_script_of(walk, section.ask, automaton, &given, &script.calls)
        }
    }
}

/// The walk over the calls of a script at a node of an automaton whose parameters have these names.
fn seek_script_of(
    walk: &mut Walk<'_>,
    ask: &Ask<'_>,
    automaton: &Automaton<(), (), ()>,
    given: &NameTable,
    calls: &Vec<Call<(), (), ()>>,
) -> Result<(), Halt> {
    let entries = index_of_entries(ask.alloc, &automaton.signature)?;
    seek_calls_among(walk, ask, automaton, given, &entries, calls)
}

/// The same among entries of these names.
fn seek_calls_among(
    walk: &mut Walk<'_>,
    ask: &Ask<'_>,
    automaton: &Automaton<(), (), ()>,
    given: &NameTable,
    entries: &NameIndex,
    calls: &Vec<Call<(), (), ()>>,
) -> Result<(), Halt> {
    let transitions = NameIndex::new(ask.alloc);
    let heading = Heading {
        ask,
        automaton,
        given,
        outer: given,
        entries,
        transitions: &transitions,
    };
    seek_calls(walk, &heading, calls)
}

/// The walk over the calls of a script at a node of an automaton.
fn seek_calls(
    walk: &mut Walk<'_>,
    heading: &Heading<'_>,
    calls: &Vec<Call<(), (), ()>>,
) -> Result<(), Halt> {
    for call in calls {
        seek_call(walk, heading, call)?;
    }
    Ok(())
}

/// The walk over a call of a script.
fn seek_call(
    walk: &mut Walk<'_>,
    heading: &Heading<'_>,
    call: &Call<(), (), ()>,
) -> Result<(), Halt> {
    let first = walk.word(&call.name)?;
    let last = walk.called(first)?;
    let part = Part { first, last };
    if call.name.as_str() == SEND || call.name.as_str() == RECEIVE {
        heading.ask.told_at(Refusal::BadArgument, part)?;
    }
    match heading.entry_named(&call.name) {
        None => heading.ask.unknown_at(
            one_token(first),
            Sought::Entries(heading.entries),
            &call.name,
        ),
        Some(entry) => {
            if entry.kind != Kind::Input {
                heading.ask.told_at(Refusal::Unknown, one_token(first))?;
            }
            let shapes = shapes_taken(heading.ask, heading.given, entry)?;
            seek_given(
                walk,
                heading.ask,
                &shapes,
                &call.name,
                &call.arguments,
                part,
            )
        }
    }
}
