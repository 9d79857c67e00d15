//! The reader of terms, by precedence climbing: an operand, and then what it goes on with, as far as
//! the levels of the operators allow it.

ghost use Rattle.std.specs.Prelude.{◌≡◌, map};
ghost use Rattle.ioa_cursor.specs.Outcome.{Reads};
ghost use Rattle.ioa_source.specs.Heights.{height_limit};
ghost use Rattle.ioa_term_reader.specs.Levels as levels;
ghost use Rattle.ioa_term_reader.specs.Reading as spec;
ghost use Rattle.ioa_terms.specs.View.{term_of};

use crate::after::After;
use crate::built::Built;
use crate::levels::{
    ATOM_LEVEL, LOOSEST_LEVEL, accepted_after, level_of, prefix_level, prefix_of, right_level,
};
use ioa_cursor::{Tokens, Unread};
use ioa_source::HEIGHT_LIMIT;
use ioa_terms::{BinaryOperator, DisplayForm, Term, UnaryOperator};
use ioa_tokens::Mark;
use ioa_values::Word;
use std::alloc::Global;

/// How many brackets may be open at once, of all kinds. Source: profile.
pub const BRACKET_LIMIT: usize = 128;

/// How deep a term within the limits goes: each part of it is less high, or in one bracket more.
const DEPTH_LIMIT: usize = HEIGHT_LIMIT + BRACKET_LIMIT;

/// How far a term may go: `depth` is how deep its parts may be read, `room` how many brackets more may
/// be opened, and `least` the loosest level of an operator outside brackets.
#[derive(Clone, Copy)]
struct Bounds {
    depth: usize,
    room: usize,
    least: usize,
}

/// The refusals of a term at its first token: as a token that no term has there, and as too deep.
#[derive(Drop)]
struct Refusals {
    unexpected: Unread,
    deep: Unread,
}

/// A term that was read, and the tightest level that it has.
#[derive(Drop)]
struct TermAtLevel {
    level: usize,
    built: Built<Term>,
}

impl TermAtLevel {
    /// A term that is as tight as a number.
    fn atom(built: Built<Term>) -> Self
        ensures level { result.level ≡ levels.atom_level }
        ensures term { result.built ≡ built }
    {
        TermAtLevel {
            level: ATOM_LEVEL,
            built,
        }
    }
}

/// A term. `room` is how many brackets more may be opened. Refused as `Unexpected` (12) at the first
/// token that no term has there, as `LeftOut` (16) if that is a word that the profile leaves out, and as
/// `TooDeep` (14) if the tree would be more than 64 high or if too many brackets are opened. It is
/// refused as `Memory` if no memory is left. Source: profile.
#[tactic(auto, unfolding(crate::specs::Reading::term))]
pub fn term(alloc: Global, tokens: &mut Tokens<'_>, room: usize) -> Result<Built<Term>, Unread>
    ensures { Reads (λ b. term_of b.tree) (spec.term room tokens.old) result tokens.new }
{
    let bounds = Bounds {
        depth: DEPTH_LIMIT,
        room,
        least: LOOSEST_LEVEL,
    };
    read(alloc, tokens, bounds)
}

/// Whether a term of level `least` at the loosest begins.
fn begins_term(tokens: &Tokens<'_>, least: usize) -> bool {
    match tokens.peek_mark() {
        Some(Mark::True | Mark::False) => true,
        Some(Mark::OpenRound | Mark::OpenBrace | Mark::OpenSquare) => true,
        Some(mark) => match prefix_of(mark) {
            Some(operator) => least <= prefix_level(operator),
            None => false,
        },
        None => tokens.at_word() || tokens.at_number(),
    }
}

/// A term of level `least` at the loosest; each part of it is read one deeper.
#[cycle(terms)]
#[tactic(auto, unfolding(crate::specs::Reading::read, crate::specs::bind))]
fn read(alloc: Global, tokens: &mut Tokens<'_>, bounds: Bounds) -> Result<Built<Term>, Unread>
    ensures { Reads (λ b. term_of b.tree)
        (spec.read bounds.depth bounds.room bounds.least tokens.old) result tokens.new }
{
    if bounds.depth == 0 {
        let begins = begins_term(tokens, bounds.least);
        return Err(tokens.refusal_at_depth(begins));
    }
    let deeper = Bounds {
        depth: bounds.depth - 1,
        ..bounds
    };
    let first = operand(alloc, tokens, deeper)?;
    climb(alloc, tokens, deeper, first)
}

/// A term with all that it goes on with: each turn makes it higher.
#[cycle(terms)]
fn climb(
    alloc: Global,
    tokens: &mut Tokens<'_>,
    bounds: Bounds,
    first: TermAtLevel,
) -> Result<Built<Term>, Unread>
    ensures { Reads (λ b. term_of b.tree)
        (spec.climb (spec.read bounds.depth) height_limit bounds.room bounds.least first.level
        (term_of first.built.tree) tokens.old) result tokens.new }
{
    let mut most = first.level;
    let mut left = first.built;
    for _turn in 0..HEIGHT_LIMIT {
        match accepted_after(tokens, bounds.least, most) {
            None => return Ok(left),
            Some(after) => {
                let deep = tokens.too_deep();
                tokens.advance();
                left = extended_term(alloc, tokens, bounds, left, after, deep)?;
                most = level_of(after);
            }
        }
    }
    Ok(left)
}

/// A term that goes on, behind the mark. `deep` is the refusal of a tree that is too high.
#[cycle(terms)]
#[tactic(auto, unfolding(crate::specs::Reading::extended_term, crate::specs::bind, crate::specs::choose))]
fn extended_term(
    alloc: Global,
    tokens: &mut Tokens<'_>,
    bounds: Bounds,
    left: Built<Term>,
    after: After,
    deep: Unread,
) -> Result<Built<Term>, Unread>
    ensures { Reads (λ b. term_of b.tree)
        (spec.extended_term (spec.read bounds.depth) bounds.room (term_of left.tree) after tokens.old)
        result tokens.new }
{
    match after {
        After::Infix(operator) => {
            let least = right_level(operator);
            let right = read(alloc, tokens, Bounds { least, ..bounds })?;
            Built::two(alloc, operator, left, right, deep)
        }
        After::Field => {
            let name = tokens.word(alloc)?;
            Built::field(alloc, left, name, deep)
        }
        After::Key => {
            if bounds.room == 0 {
                return Err(deep);
            }
            let inside = Bounds {
                room: bounds.room - 1,
                least: LOOSEST_LEVEL,
                ..bounds
            };
            let key = read(alloc, tokens, inside)?;
            tokens.expect(Mark::CloseSquare)?;
            Built::two(alloc, BinaryOperator::At, left, key, deep)
        }
    }
}

/// A term up to its first operator between two terms, and without `.f` or `[k]` behind it.
#[cycle(terms)]
#[tactic(auto, unfolding(crate::specs::Reading::operand, crate::specs::bind, crate::specs::choose))]
fn operand(alloc: Global, tokens: &mut Tokens<'_>, bounds: Bounds) -> Result<TermAtLevel, Unread>
    ensures { Reads (λ t. (t.level, term_of t.built.tree))
        (spec.operand (spec.read bounds.depth) bounds.room bounds.least tokens.old) result tokens.new }
{
    let deep = tokens.too_deep();
    if tokens.at_number() {
        let number = tokens.number()?;
        return Ok(TermAtLevel::atom(Built::number(number)));
    }
    if tokens.at_word() {
        let name = tokens.word(alloc)?;
        return word_term(alloc, tokens, bounds, name, deep);
    }
    let unexpected = tokens.refusal();
    match tokens.peek_mark() {
        None => Err(unexpected),
        Some(mark) => {
            tokens.advance();
            marked_term(alloc, tokens, bounds, mark, Refusals { unexpected, deep })
        }
    }
}

/// [`@` Number], behind a word that opens no bracket.
#[tactic(auto, unfolding(crate::specs::Reading::name_term, crate::specs::bind, crate::specs::choose))]
fn name_term(tokens: &mut Tokens<'_>, name: Word) -> Result<TermAtLevel, Unread>
    ensures { Reads (λ t. (t.level, term_of t.built.tree)) (spec.name_term name tokens.old) result tokens.new }
{
    if tokens.skip(Mark::AtSign) {
        let node = tokens.number()?;
        Ok(TermAtLevel::atom(Built::variable(name, node)))
    } else {
        Ok(TermAtLevel::atom(Built::name(name)))
    }
}

/// [`(` Term {`,` Term} `)`] or [`@` Number], behind the word of a name or a call.
#[cycle(terms)]
#[tactic(auto, unfolding(crate::specs::Reading::word_term, crate::specs::choose))]
fn word_term(
    alloc: Global,
    tokens: &mut Tokens<'_>,
    bounds: Bounds,
    name: Word,
    deep: Unread,
) -> Result<TermAtLevel, Unread>
    ensures { Reads (λ t. (t.level, term_of t.built.tree))
        (spec.word_term (spec.read bounds.depth) bounds.room name tokens.old) result tokens.new }
{
    if tokens.skip(Mark::OpenRound) {
        call_term(alloc, tokens, bounds, name, deep)
    } else {
        name_term(tokens, name)
    }
}

/// What a mark begins, behind it. `refusals` are those at the mark.
#[cycle(terms)]
#[tactic(auto, unfolding(crate::specs::Reading::marked_term))]
fn marked_term(
    alloc: Global,
    tokens: &mut Tokens<'_>,
    bounds: Bounds,
    mark: Mark,
    refusals: Refusals,
) -> Result<TermAtLevel, Unread>
    ensures { Reads (λ t. (t.level, term_of t.built.tree))
        (spec.marked_term (spec.read bounds.depth) bounds.room bounds.least mark tokens.old) result tokens.new }
{
    match mark {
        Mark::True => Ok(TermAtLevel::atom(Built::truth(true))),
        Mark::False => Ok(TermAtLevel::atom(Built::truth(false))),
        Mark::OpenRound => bracketed_term(alloc, tokens, bounds, refusals.deep),
        Mark::OpenBrace => braced_term(alloc, tokens, bounds, refusals.deep),
        Mark::OpenSquare => {
            let (form, close) = (DisplayForm::Brackets, Mark::CloseSquare);
            display_term(alloc, tokens, bounds, form, close, refusals.deep)
        }
        _ => operator_term(alloc, tokens, bounds, mark, refusals),
    }
}

/// A term that an operator begins, behind the operator's mark.
#[cycle(terms)]
#[tactic(auto, unfolding(crate::specs::Reading::operator_term, crate::specs::bind))]
fn operator_term(
    alloc: Global,
    tokens: &mut Tokens<'_>,
    bounds: Bounds,
    mark: Mark,
    refusals: Refusals,
) -> Result<TermAtLevel, Unread>
    ensures { Reads (λ t. (t.level, term_of t.built.tree))
        (spec.operator_term (spec.read bounds.depth) bounds.room bounds.least mark tokens.old)
        result tokens.new }
{
    match prefix_of(mark) {
        Some(operator) => prefixed_term(alloc, tokens, bounds, operator, refusals),
        None => Err(refusals.unexpected),
    }
}

/// A term of an operator's level, behind the operator.
#[cycle(terms)]
#[tactic(auto, unfolding(crate::specs::Reading::prefixed_term, crate::specs::bind, crate::specs::choose))]
fn prefixed_term(
    alloc: Global,
    tokens: &mut Tokens<'_>,
    bounds: Bounds,
    operator: UnaryOperator,
    refusals: Refusals,
) -> Result<TermAtLevel, Unread>
    ensures { Reads (λ t. (t.level, term_of t.built.tree))
        (spec.prefixed_term (spec.read bounds.depth) bounds.room bounds.least operator tokens.old)
        result tokens.new }
{
    let level = prefix_level(operator);
    if level < bounds.least {
        return Err(refusals.unexpected);
    }
    let inner = Bounds {
        least: level,
        ..bounds
    };
    let part = read(alloc, tokens, inner)?;
    let built = Built::one(alloc, operator, part, refusals.deep)?;
    Ok(TermAtLevel { level, built })
}

/// Term `)`, behind the first bracket.
#[cycle(terms)]
#[tactic(auto, unfolding(crate::specs::Reading::bracketed_term, crate::specs::bind, crate::specs::choose))]
fn bracketed_term(
    alloc: Global,
    tokens: &mut Tokens<'_>,
    bounds: Bounds,
    deep: Unread,
) -> Result<TermAtLevel, Unread>
    ensures { Reads (λ t. (t.level, term_of t.built.tree))
        (spec.bracketed_term (spec.read bounds.depth) bounds.room tokens.old) result tokens.new }
{
    if bounds.room == 0 {
        return Err(deep);
    }
    let inside = Bounds {
        room: bounds.room - 1,
        least: LOOSEST_LEVEL,
        ..bounds
    };
    let inner = read(alloc, tokens, inside)?;
    tokens.expect(Mark::CloseRound)?;
    Ok(TermAtLevel::atom(inner))
}

/// [Term {`,` Term}] `}`, behind the first bracket.
#[cycle(terms)]
#[tactic(auto, unfolding(crate::specs::Reading::braced_term, crate::specs::choose))]
fn braced_term(
    alloc: Global,
    tokens: &mut Tokens<'_>,
    bounds: Bounds,
    deep: Unread,
) -> Result<TermAtLevel, Unread>
    ensures { Reads (λ t. (t.level, term_of t.built.tree))
        (spec.braced_term (spec.read bounds.depth) bounds.room tokens.old) result tokens.new }
{
    if bounds.room == 0 {
        return Err(deep);
    }
    if tokens.skip(Mark::CloseBrace) {
        return Ok(TermAtLevel::atom(Built::empty(alloc)));
    }
    let (form, close) = (DisplayForm::Braces, Mark::CloseBrace);
    display_term(alloc, tokens, bounds, form, close, deep)
}

/// Term {`,` Term} and a bracket, behind the first bracket of a display.
#[cycle(terms)]
#[tactic(auto, unfolding(crate::specs::Reading::display_term, crate::specs::bind, crate::specs::choose))]
fn display_term(
    alloc: Global,
    tokens: &mut Tokens<'_>,
    bounds: Bounds,
    form: DisplayForm,
    close: Mark,
    deep: Unread,
) -> Result<TermAtLevel, Unread>
    ensures { Reads (λ t. (t.level, term_of t.built.tree))
        (spec.display_term (spec.read bounds.depth) form close bounds.room tokens.old) result tokens.new }
{
    if bounds.room == 0 {
        return Err(deep);
    }
    let inside = Bounds {
        room: bounds.room - 1,
        ..bounds
    };
    let parts = terms_in(alloc, tokens, inside)?;
    tokens.expect(close)?;
    let built = Built::display(form, parts, deep)?;
    Ok(TermAtLevel::atom(built))
}

/// Term {`,` Term} `)`, behind the word and the first bracket of a call.
#[cycle(terms)]
#[tactic(auto, unfolding(crate::specs::Reading::call_term, crate::specs::bind, crate::specs::choose))]
fn call_term(
    alloc: Global,
    tokens: &mut Tokens<'_>,
    bounds: Bounds,
    name: Word,
    deep: Unread,
) -> Result<TermAtLevel, Unread>
    ensures { Reads (λ t. (t.level, term_of t.built.tree))
        (spec.call_term (spec.read bounds.depth) bounds.room name tokens.old) result tokens.new }
{
    if bounds.room == 0 {
        return Err(deep);
    }
    let inside = Bounds {
        room: bounds.room - 1,
        ..bounds
    };
    let parts = terms_in(alloc, tokens, inside)?;
    tokens.expect(Mark::CloseRound)?;
    let built = Built::called(name, parts, deep)?;
    Ok(TermAtLevel::atom(built))
}

/// Term {`,` Term}
#[cycle(terms)]
#[tactic(auto, unfolding(crate::specs::Reading::terms_in, crate::specs::bind))]
fn terms_in(
    alloc: Global,
    tokens: &mut Tokens<'_>,
    bounds: Bounds,
) -> Result<Built<Vec<Term>>, Unread>
    ensures { Reads (λ b. map term_of b.tree.items)
        (spec.terms_in (spec.read bounds.depth) bounds.room tokens.old) result tokens.new }
{
    let each = Bounds {
        least: LOOSEST_LEVEL,
        ..bounds
    };
    let first = read(alloc, tokens, each)?;
    let mut terms = Built::none(alloc).with_next(first)?;
    for _turn in 0..tokens.len() {
        if !tokens.skip(Mark::Comma) {
            return Ok(terms);
        }
        let next = read(alloc, tokens, each)?;
        terms = terms.with_next(next)?;
    }
    Ok(terms)
}
