//! The culprit of a refused text.

ghost use Rattle.std.specs.Prelude.{◌≡◌, IfOk, IfSome, Ok};
ghost use Rattle.ioa_tokens.specs.Tokens as cutting;
ghost use Rattle.ioa_walk.specs.Places.{IsSpanIn};
ghost use Rattle.ioa_culprit.specs.Cuts.{AreTokensOf};

use crate::asking::{Ask, Whole};
use crate::automaton::seek_automaton;
use crate::cut::Cut;
use crate::halt::{Halt, halt_of};
use crate::invariant::seek_invariant;
use crate::section::{Section, seek_section};
use crate::sections::ChecksSections;
use crate::types::seek_type;
use ioa_names::NameTable;
use ioa_refusals::Refusal;
use ioa_source::{Declaration, Invariant, Text};
use ioa_tokens::{CutFault, LocatedToken, Mark, tokens};
use ioa_types::TextTypes;
use ioa_walk::{Part, Span, Walk, is_mark};
use std::alloc::{AllocError, Global};

/// The part of a text that is refused, and what is said of it.
#[derive(Debug, Drop)]
pub struct Spot {
    /// Its place.
    pub span: Span,
    /// What is found there, in words: which name is not known, or which sorts are there; nothing if that is not known.
    pub words: Vec<u8>,
}

/// What a search for the culprit of a text comes to.
#[derive(Debug, Drop)]
pub struct Search<'a> {
    /// The part that is refused, if one is found.
    pub spot: Option<Spot>,
    /// The tokens of the text, so that nobody has to cut it again.
    pub tokens: Vec<LocatedToken<'a>>,
}

/// Finds the smallest part of a refused declaration that is refused with the same number when it is asked alone, in the
/// names that are in view there. `source` is the tree of the text, and the check refused it so, in the top declaration
/// of this index. If no part is found with that number, there is none. `sections` is asked about parts of the system
/// section. Memory if none is left. Costs about what the check of the declaration costs, and for a fault of the section
/// some checks of it.
pub fn culprit<'a, S: ChecksSections>(
    alloc: Global,
    text: &'a str,
    source: &Text<(), (), ()>,
    index: usize,
    refusal: Refusal,
    sections: &S,
) -> Result<Search<'a>, AllocError>
    ensures found { IfOk result (λ s. IfSome s.spot (λ c. IsSpanIn text.now c.span)) }
    ensures cut { IfOk result (λ s. AreTokensOf text.now s.tokens.items) }
{
    let located = match tokens(alloc, text) {
        Ok(located) => located,
        Err(CutFault::Memory) => return Err(AllocError),
        Err(_) => {
            return Ok(Search {
                spot: None,
                tokens: Vec::new(alloc),
            });
        }
    };
    let spot = spot_among(alloc, text, &located, source, index, refusal, sections)?;
    Ok(Search {
        spot,
        tokens: located,
    })
}

/// The culprit of a text of these tokens.
fn spot_among<S: ChecksSections>(
    alloc: Global,
    text: &str,
    tokens: &[LocatedToken<'_>],
    source: &Text<(), (), ()>,
    index: usize,
    refusal: Refusal,
    sections: &S,
) -> Result<Option<Spot>, AllocError>
    requires { cutting.tokens text.now ≡ Ok tokens.now }
    ensures { IfOk result (λ found. IfSome found (λ c. IsSpanIn text.now c.span)) }
{
    let cut = Cut { text, tokens };
    match seek(alloc, cut, source, index, refusal, sections) {
        Ok(()) => Ok(None),
        Err(Halt::Found(part, words)) => Ok(culprit_at(&cut, part, words)),
        Err(Halt::Lost) => Ok(None),
        Err(Halt::Memory) => Err(AllocError),
    }
}

/// The place of a part with the brackets about it.
fn place_of(cut: &Cut<'_>, part: Part) -> Option<Span>
    requires { cutting.tokens cut.now.text.now ≡ Ok cut.now.tokens.now }
    ensures { IfSome result (IsSpanIn cut.now.text.now) }
{
    cut.span(cut.walk_from(0).balanced(part))
}

/// The culprit that a part is, of which this is said.
fn culprit_at(cut: &Cut<'_>, part: Part, words: Vec<u8>) -> Option<Spot>
    requires { cutting.tokens cut.now.text.now ≡ Ok cut.now.tokens.now }
    ensures { IfSome result (λ c. IsSpanIn cut.now.text.now c.span) }
{
    match place_of(cut, part) {
        None => None,
        Some(span) => Some(Spot { span, words }),
    }
}

/// Whether a token begins a top declaration.
fn begins_declaration(located: &LocatedToken<'_>) -> bool {
    is_mark(located, Mark::Type)
        || is_mark(located, Mark::Automaton)
        || is_mark(located, Mark::System)
        || is_mark(located, Mark::Invariant)
}

/// The position of the first token of the top declaration of an index.
fn start_of(tokens: &[LocatedToken<'_>], index: usize) -> Option<usize> {
    let mut before: usize = 0;
    for (position, located) in tokens.iter().enumerate() {
        if begins_declaration(located) {
            if before == index {
                return Some(position);
            }
            before = before.saturating_add(1);
        }
    }
    None
}

/// The types of declarations.
fn types_of(alloc: Global, declarations: &[Declaration<(), (), ()>]) -> Result<TextTypes, Halt> {
    let mut types = TextTypes::new(alloc);
    for declaration in declarations {
        match declaration {
            Declaration::Automaton(_) => {}
            Declaration::Type(declared) => match types.with(alloc, declared) {
                Ok(more) => types = more,
                Err(refusal) => return Err(halt_of(refusal)),
            },
        }
    }
    Ok(types)
}

/// The declarations before the one of an index.
fn declarations_before(
    declarations: &[Declaration<(), (), ()>],
    index: usize,
) -> &[Declaration<(), (), ()>] {
    if index < declarations.len() {
        &declarations[..index]
    } else {
        declarations
    }
}

/// The invariants before the one at a position.
fn invariants_before(
    invariants: &[Invariant<(), (), ()>],
    position: usize,
) -> &[Invariant<(), (), ()>] {
    if position < invariants.len() {
        &invariants[..position]
    } else {
        invariants
    }
}

/// The walk to the culprit.
fn seek<S: ChecksSections>(
    alloc: Global,
    cut: Cut<'_>,
    source: &Text<(), (), ()>,
    index: usize,
    told: Refusal,
    sections: &S,
) -> Result<(), Halt> {
    let whole = Whole {
        cut,
        source,
        none: NameTable::new(alloc),
    };
    seek_in(alloc, &whole, index, told, sections)
}

/// The walk to the culprit of a text.
fn seek_in<S: ChecksSections>(
    alloc: Global,
    whole: &Whole<'_>,
    index: usize,
    told: Refusal,
    sections: &S,
) -> Result<(), Halt> {
    let Some(start) = start_of(whole.cut.tokens, index) else {
        return Err(Halt::Lost);
    };
    let mut walk = whole.cut.walk_from(start);
    match whole.source.declarations.get(index) {
        Some(declaration) => seek_declaration(&mut walk, alloc, whole, index, declaration, told),
        None => seek_behind(&mut walk, alloc, whole, index, told, sections),
    }
}

/// The walk over a type or an automaton that has this index.
fn seek_declaration(
    walk: &mut Walk<'_>,
    alloc: Global,
    whole: &Whole<'_>,
    index: usize,
    declaration: &Declaration<(), (), ()>,
    told: Refusal,
) -> Result<(), Halt> {
    let before = declarations_before(&whole.source.declarations, index);
    match declaration {
        Declaration::Type(declared) => {
            let types = types_of(alloc, before)?;
            seek_type(walk, &ask_of(alloc, whole, &types, told), declared)
        }
        Declaration::Automaton(automaton) => {
            let types = types_of(alloc, &whole.source.declarations)?;
            seek_automaton(walk, &ask_of(alloc, whole, &types, told), before, automaton)
        }
    }
}

/// What is looked for in a text of these types.
fn ask_of<'a>(alloc: Global, whole: &'a Whole<'a>, types: &'a TextTypes, told: Refusal) -> Ask<'a> {
    Ask {
        alloc,
        told,
        types: types.types(),
        constants: types.constants(),
        whole,
    }
}

/// The walk over the system section or an invariant behind it.
fn seek_behind<S: ChecksSections>(
    walk: &mut Walk<'_>,
    alloc: Global,
    whole: &Whole<'_>,
    index: usize,
    told: Refusal,
    sections: &S,
) -> Result<(), Halt> {
    let types = types_of(alloc, &whole.source.declarations)?;
    let ask = ask_of(alloc, whole, &types, told);
    let behind = index.saturating_sub(whole.source.declarations.len());
    match behind.checked_sub(1) {
        None => seek_section_of(walk, &ask, whole, sections),
        Some(position) => seek_invariant_at(walk, &ask, whole, position),
    }
}

/// The walk over the system section of a text whose declarations are good.
fn seek_section_of<S: ChecksSections>(
    walk: &mut Walk<'_>,
    ask: &Ask<'_>,
    whole: &Whole<'_>,
    sections: &S,
) -> Result<(), Halt> {
    let section = Section {
        ask,
        cut: whole.cut,
        source: whole.source,
        sections,
    };
    seek_section(walk, &section)
}

/// The walk over the invariant at a position, of a text whose system section is good.
fn seek_invariant_at(
    walk: &mut Walk<'_>,
    ask: &Ask<'_>,
    whole: &Whole<'_>,
    position: usize,
) -> Result<(), Halt> {
    let invariants = &whole.source.invariants;
    match invariants.get(position) {
        None => Err(Halt::Lost),
        Some(invariant) => {
            seek_invariant(
                walk,
                ask,
                invariants_before(invariants, position),
                invariant,
            )
        }
    }
}
