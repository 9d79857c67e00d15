//! Declarations, the placements of a system, and invariants.

ghost use Rattle.std.specs.Prelude.{◌≡◌, map};
ghost use Rattle.ioa_cursor.specs.Outcome.{Reads};
ghost use Rattle.ioa_source.specs.TextView.{form_of, type_of, declaration_of, node_of, script_of};
ghost use Rattle.ioa_source.specs.TextView.{placement_of, invariant_of};
ghost use Rattle.ioa_part_reader.specs.Reading as spec;

use crate::automaton::automaton;
use crate::call::{call, calls};
use crate::declared::{declared_names, words};
use ioa_actions::ChannelKind;
use ioa_cursor::{Tokens, Unread};
use ioa_source::{
    Channel, Declaration, Invariant, Node, Placement, ScriptDeclaration, TypeDeclaration, TypeForm,
};
use ioa_term_reader::{BRACKET_LIMIT, term};
use ioa_tokens::Mark;
use std::alloc::Global;

/// `enumeration` `of` Word {`,` Word}, or `tuple` `of` Declared {`,` Declared}
#[tactic(auto, unfolding(crate::specs::Reading::form, crate::specs::bind, crate::specs::choose))]
fn form(alloc: Global, tokens: &mut Tokens<'_>) -> Result<TypeForm<()>, Unread>
    ensures { Reads form_of (spec.form tokens.old) result tokens.new }
{
    if tokens.skip(Mark::Enumeration) {
        tokens.expect(Mark::Of)?;
        let constants = words(alloc, tokens)?;
        return Ok(TypeForm::Enumeration(constants));
    }
    tokens.expect(Mark::Tuple)?;
    tokens.expect(Mark::Of)?;
    let fields = declared_names(alloc, tokens, BRACKET_LIMIT)?;
    Ok(TypeForm::Tuple(fields))
}

/// Word `=` Form, after `type`
#[tactic(auto, unfolding(crate::specs::Reading::type_declaration, crate::specs::bind))]
fn type_declaration(alloc: Global, tokens: &mut Tokens<'_>) -> Result<TypeDeclaration<()>, Unread>
    ensures { Reads type_of (spec.type_declaration tokens.old) result tokens.new }
{
    let name = tokens.word(alloc)?;
    tokens.expect(Mark::Equal)?;
    let form = form(alloc, tokens)?;
    Ok(TypeDeclaration { name, form })
}

/// Whether a declaration begins.
#[tactic(auto, unfolding(crate::specs::Reading::at_declaration))]
fn at_declaration(tokens: &Tokens<'_>) -> bool
    ensures { result ≡ spec.at_declaration tokens.now }
{
    tokens.at(Mark::Type) || tokens.at(Mark::Automaton)
}

/// Type or Automaton
#[tactic(auto, unfolding(crate::specs::Reading::declaration, crate::specs::bind, crate::specs::choose))]
fn declaration(alloc: Global, tokens: &mut Tokens<'_>) -> Result<Declaration<(), (), ()>, Unread>
    ensures { Reads declaration_of (spec.declaration tokens.old) result tokens.new }
{
    if tokens.skip(Mark::Type) {
        let declared = type_declaration(alloc, tokens)?;
        return Ok(Declaration::Type(declared));
    }
    tokens.expect(Mark::Automaton)?;
    let declared = automaton(alloc, tokens)?;
    Ok(Declaration::Automaton(declared))
}

/// {Type or Automaton}. What follows is left. Refused as `Unexpected` (12) at the first token that no
/// declaration has there, as `LeftOut` (16) if that is a word that the profile leaves out, and as
/// `TooDeep` (14) if a tree would be more than 64 high or if too many brackets are opened. It is refused
/// as `Memory` (3) if no memory is left. Source: profile.
#[tactic(auto, unfolding(crate::specs::Reading::all_declarations))]
pub fn declarations(
    alloc: Global,
    tokens: &mut Tokens<'_>,
) -> Result<Vec<Declaration<(), (), ()>>, Unread>
    ensures { Reads (λ v. map declaration_of v.items) (spec.all_declarations tokens.old) result tokens.new }
{
    let mut declarations = Vec::new(alloc);
    for _turn in 0..tokens.len() {
        if !at_declaration(tokens) {
            return Ok(declarations);
        }
        declarations.push(declaration(alloc, tokens)?)?;
    }
    Ok(declarations)
}

/// Whether a placement comes next.
#[tactic(auto, unfolding(crate::specs::Reading::at_placement))]
fn at_placement(tokens: &Tokens<'_>) -> bool
    ensures { result ≡ spec.at_placement tokens.now }
{
    tokens.at(Mark::Node) || tokens.at(Mark::Channel) || tokens.at(Mark::Script)
}

/// Number `:` Call, after `node`
#[tactic(auto, unfolding(crate::specs::Reading::node, crate::specs::bind))]
fn node(alloc: Global, tokens: &mut Tokens<'_>) -> Result<Node<(), (), ()>, Unread>
    ensures { Reads node_of (spec.node tokens.old) result tokens.new }
{
    let number = tokens.number()?;
    tokens.expect(Mark::Colon)?;
    let placed = call(alloc, tokens)?;
    Ok(Node {
        number,
        automaton: placed.name,
        arguments: placed.arguments,
    })
}

/// The kind of a channel, by whether it is declared `unordered`.
fn channel_kind(is_unordered: bool) -> ChannelKind
    ensures { result ≡ spec.channel_kind is_unordered }
{
    if is_unordered {
        ChannelKind::Unordered
    } else {
        ChannelKind::Ordered
    }
}

/// Number `->` Number [`unordered`], after `channel`
#[tactic(auto, unfolding(crate::specs::Reading::channel, crate::specs::bind))]
fn channel(tokens: &mut Tokens<'_>) -> Result<Channel, Unread>
    ensures { Reads (λ c. c) (spec.channel tokens.old) result tokens.new }
{
    let from = tokens.number()?;
    tokens.expect(Mark::Arrow)?;
    let to = tokens.number()?;
    let kind = channel_kind(tokens.skip(Mark::Unordered));
    Ok(Channel { from, to, kind })
}

/// Number `:` Call {`,` Call}, after `script`
#[tactic(auto, unfolding(crate::specs::Reading::script, crate::specs::bind))]
fn script(alloc: Global, tokens: &mut Tokens<'_>) -> Result<ScriptDeclaration<(), (), ()>, Unread>
    ensures { Reads script_of (spec.script tokens.old) result tokens.new }
{
    let node = tokens.number()?;
    tokens.expect(Mark::Colon)?;
    let calls = calls(alloc, tokens)?;
    Ok(ScriptDeclaration { node, calls })
}

/// Node, Channel or Script
#[tactic(auto, unfolding(crate::specs::Reading::placement, crate::specs::bind, crate::specs::choose))]
fn one_placement(alloc: Global, tokens: &mut Tokens<'_>) -> Result<Placement<(), (), ()>, Unread>
    ensures { Reads placement_of (spec.placement tokens.old) result tokens.new }
{
    if tokens.skip(Mark::Node) {
        let node = node(alloc, tokens)?;
        return Ok(Placement::Node(node));
    }
    if tokens.skip(Mark::Channel) {
        let channel = channel(tokens)?;
        return Ok(Placement::Channel(channel));
    }
    tokens.expect(Mark::Script)?;
    let script = script(alloc, tokens)?;
    Ok(Placement::Script(script))
}

/// {Node or Channel or Script}. What follows is left. Refused as `Unexpected` (12) at the first token
/// that no placement has there, as `LeftOut` (16) if that is a word that the profile leaves out, and as
/// `TooDeep` (14) if a tree would be more than 64 high or if too many brackets are opened. It is refused
/// as `Memory` (3) if no memory is left. Source: profile.
#[tactic(auto, unfolding(crate::specs::Reading::all_placements))]
pub fn placements(
    alloc: Global,
    tokens: &mut Tokens<'_>,
) -> Result<Vec<Placement<(), (), ()>>, Unread>
    ensures { Reads (λ v. map placement_of v.items) (spec.all_placements tokens.old) result tokens.new }
{
    let mut placements = Vec::new(alloc);
    for _turn in 0..tokens.len() {
        if !at_placement(tokens) {
            return Ok(placements);
        }
        placements.push(one_placement(alloc, tokens)?)?;
    }
    Ok(placements)
}

/// `invariant` Word `:` Term
#[tactic(auto, unfolding(crate::specs::Reading::invariant, crate::specs::bind))]
fn one_invariant(alloc: Global, tokens: &mut Tokens<'_>) -> Result<Invariant<(), (), ()>, Unread>
    ensures { Reads invariant_of (spec.invariant tokens.old) result tokens.new }
{
    tokens.expect(Mark::Invariant)?;
    let name = tokens.word(alloc)?;
    tokens.expect(Mark::Colon)?;
    let term = term(alloc, tokens, BRACKET_LIMIT)?;
    Ok(Invariant {
        name,
        term: term.into_tree(),
    })
}

/// {Invariant}. What follows is left. Refused as `Unexpected` (12) at the first token that no invariant
/// has there, as `LeftOut` (16) if that is a word that the profile leaves out, and as `TooDeep` (14) if a
/// tree would be more than 64 high or if too many brackets are opened. It is refused as `Memory` (3) if no
/// memory is left. Source: profile.
#[tactic(auto, unfolding(crate::specs::Reading::all_invariants))]
pub fn invariants(
    alloc: Global,
    tokens: &mut Tokens<'_>,
) -> Result<Vec<Invariant<(), (), ()>>, Unread>
    ensures { Reads (λ v. map invariant_of v.items) (spec.all_invariants tokens.old) result tokens.new }
{
    let mut invariants = Vec::new(alloc);
    for _turn in 0..tokens.len() {
        if !tokens.at(Mark::Invariant) {
            return Ok(invariants);
        }
        invariants.push(one_invariant(alloc, tokens)?)?;
    }
    Ok(invariants)
}
