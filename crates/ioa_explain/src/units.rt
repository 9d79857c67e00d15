//! What is left out of a text with a part that is refused, so that the rest can be asked: the smallest item, statement
//! or declaration about the part without which the text can be read.

use ioa_tokens::{LocatedToken, Mark, Token};

/// How many lists of statements stand in each other at most.
const MOST_LISTS: usize = 64;

/// Tokens from one position up to another.
#[derive(Clone, Copy, Debug, PartialEq, Eq)]
pub(crate) struct Extent {
    /// The position of the first one.
    pub from: usize,
    /// The position behind the last one.
    pub to: usize,
}

/// What is left out.
#[derive(Clone, Copy, Debug, PartialEq, Eq)]
pub(crate) struct Unit {
    /// Its tokens.
    pub extent: Extent,
    /// Those of them that are names which it declares.
    pub names: Extent,
}

/// Some tokens that declare no name.
fn nameless(from: usize, to: usize) -> Unit {
    Unit {
        extent: Extent { from, to },
        names: Extent { from, to: from },
    }
}

/// Some tokens, one of which is a name that they declare.
fn named(from: usize, to: usize, name: usize) -> Unit {
    Unit {
        extent: Extent { from, to },
        names: Extent {
            from: name,
            to: name.saturating_add(1),
        },
    }
}

/// Whether a sign or a reserved word stands at a position.
fn is_at(tokens: &[LocatedToken<'_>], position: usize, mark: Mark) -> bool {
    match mark_at(tokens, position) {
        Some(found) => found == mark,
        None => false,
    }
}

/// The sign or the reserved word at a position, if one stands there.
fn mark_at(tokens: &[LocatedToken<'_>], position: usize) -> Option<Mark> {
    match &tokens.get(position)?.token {
        Token::Mark(mark) => Some(*mark),
        Token::Word(_) | Token::Number(_) | Token::LeftOut(_) => None,
    }
}

/// Whether a name stands at a position.
fn is_word_at(tokens: &[LocatedToken<'_>], position: usize) -> bool {
    match tokens.get(position) {
        None => false,
        Some(located) => matches!(&located.token, Token::Word(_)),
    }
}

/// Whether a top declaration begins with a token.
pub(crate) fn starts_declaration(located: &LocatedToken<'_>) -> bool {
    match &located.token {
        Token::Mark(mark) => Stop::Declaration.has(*mark),
        Token::Word(_) | Token::Number(_) | Token::LeftOut(_) => false,
    }
}

/// A set of signs and reserved words at which a search ends.
#[derive(Clone, Copy, Debug, PartialEq, Eq)]
enum Stop {
    /// How a top declaration begins.
    Declaration,
    /// How a part of an automaton begins.
    Section,
    /// How a line of the system section begins.
    Placement,
    /// What kind an action has.
    Kind,
    /// This one.
    Just(Mark),
}

impl Stop {
    /// Whether a sign or a reserved word is in the set.
    fn has(self, mark: Mark) -> bool {
        match self {
            Stop::Declaration => matches!(
                mark,
                Mark::Type | Mark::Automaton | Mark::System | Mark::Invariant
            ),
            Stop::Section => matches!(
                mark,
                Mark::Signature | Mark::States | Mark::Transitions | Mark::Schedule
            ),
            Stop::Placement => matches!(mark, Mark::Node | Mark::Channel | Mark::Script),
            Stop::Kind => matches!(mark, Mark::Input | Mark::Output | Mark::Internal),
            Stop::Just(wanted) => mark == wanted,
        }
    }

    /// Whether what stands at a position is in the set.
    fn is_at(self, tokens: &[LocatedToken<'_>], position: usize) -> bool {
        match mark_at(tokens, position) {
            Some(mark) => self.has(mark),
            None => false,
        }
    }

    /// The first position between two of one that is in the set, or else the end.
    fn first(self, tokens: &[LocatedToken<'_>], from: usize, to: usize) -> usize {
        for position in from..to {
            if self.is_at(tokens, position) {
                return position;
            }
        }
        to
    }

    /// The last position up to one, and not before another, of what is in the set.
    fn last(self, tokens: &[LocatedToken<'_>], from: usize, position: usize) -> Option<usize> {
        for back in 0..position.saturating_add(1).saturating_sub(from) {
            let at = position.saturating_sub(back);
            if self.is_at(tokens, at) {
                return Some(at);
            }
        }
        None
    }
}

/// What is left out if the part is refused that begins at a position; nothing if the text can't be read without it.
pub(crate) fn unit_at(tokens: &[LocatedToken<'_>], position: usize) -> Option<Unit> {
    let from = Stop::Declaration.last(tokens, 0, position)?;
    let to = Stop::Declaration.first(tokens, from.saturating_add(1), tokens.len());
    match mark_at(tokens, from)? {
        Mark::Type => Some(type_unit(tokens, from, to)),
        Mark::Automaton => automaton_unit(tokens, from, to, position),
        Mark::System => placement_unit(tokens, from, to, position),
        Mark::Invariant => Some(nameless(from, to)),
        _ => None,
    }
}

/// A type. An enumeration declares its constants too.
fn type_unit(tokens: &[LocatedToken<'_>], from: usize, to: usize) -> Unit {
    if Stop::Just(Mark::Enumeration).first(tokens, from, to) < to {
        return Unit {
            extent: Extent { from, to },
            names: Extent { from, to },
        };
    }
    named(from, to, from.saturating_add(1))
}

/// A channel or a script. Other things depend on a node.
fn placement_unit(
    tokens: &[LocatedToken<'_>],
    from: usize,
    to: usize,
    position: usize,
) -> Option<Unit> {
    let begin = Stop::Placement.last(tokens, from, position)?;
    if is_at(tokens, begin, Mark::Node) {
        return None;
    }
    let end = Stop::Placement.first(tokens, begin.saturating_add(1), to);
    Some(nameless(begin, end))
}

/// A part of an automaton, or the automaton if the part is one of its head.
fn automaton_unit(
    tokens: &[LocatedToken<'_>],
    from: usize,
    to: usize,
    position: usize,
) -> Option<Unit> {
    let schedule = Stop::Just(Mark::Schedule).first(tokens, from, to);
    if schedule <= position {
        return block_unit(tokens, schedule, to, position);
    }
    let Some(section) = Stop::Section.last(tokens, from, position) else {
        return Some(named(from, to, from.saturating_add(1)));
    };
    let begin = section.saturating_add(1);
    let end = Stop::Section.first(tokens, begin, to);
    match mark_at(tokens, section)? {
        Mark::Signature => entry_unit(tokens, begin, end, position),
        Mark::States => Some(variable_unit(tokens, begin, end, position)),
        Mark::Transitions => transition_unit(tokens, begin, end, position),
        _ => None,
    }
}

/// A variable or a statement of a schedule block.
fn block_unit(
    tokens: &[LocatedToken<'_>],
    from: usize,
    to: usize,
    position: usize,
) -> Option<Unit> {
    let begin = Stop::Just(Mark::Do).first(tokens, from, to);
    if position < begin {
        return Some(variable_unit(tokens, from.saturating_add(2), begin, position));
    }
    let first = begin.saturating_add(1);
    let end = Stop::Just(Mark::Od).last(tokens, from, to.saturating_sub(1))?;
    let whole = Extent {
        from: first,
        to: end,
    };
    statement_unit(tokens, whole, first, position)
}

/// How many brackets, `if` and `while` are open behind a token, if so many were before it.
fn depth_behind(tokens: &[LocatedToken<'_>], position: usize, depth: usize) -> usize {
    match mark_at(tokens, position) {
        Some(Mark::OpenRound | Mark::OpenSquare | Mark::OpenBrace | Mark::If | Mark::While) =>
            depth.saturating_add(1),
        Some(Mark::CloseRound | Mark::CloseSquare | Mark::CloseBrace | Mark::Fi | Mark::Od) =>
            depth.saturating_sub(1),
        _ => depth,
    }
}

/// The first position between two, in no brackets, that has a sign or one of the kinds; else the end.
fn next_outside(tokens: &[LocatedToken<'_>], from: usize, to: usize, stops: [Stop; 2]) -> usize {
    let mut depth: usize = 0;
    for position in from..to {
        if depth == 0 && (stops[0].is_at(tokens, position) || stops[1].is_at(tokens, position)) {
            return position;
        }
        depth = depth_behind(tokens, position, depth);
    }
    to
}

/// The item about a position, of those between two positions with stops between them.
fn item_about(
    tokens: &[LocatedToken<'_>],
    region: Extent,
    position: usize,
    stops: [Stop; 2],
) -> Extent {
    let mut from = region.from;
    for _turn in region.from..region.to {
        let to = next_outside(tokens, from, region.to, stops);
        if position < to || to >= region.to {
            return Extent { from, to };
        }
        from = to.saturating_add(1);
    }
    region
}

/// A variable, with the comma behind it or else before it. The only one goes with `states`.
fn variable_unit(tokens: &[LocatedToken<'_>], from: usize, to: usize, position: usize) -> Unit {
    let comma = Stop::Just(Mark::Comma);
    let item = item_about(tokens, Extent { from, to }, position, [comma, comma]);
    if item.from > from || item.to >= to {
        return named(item.from.saturating_sub(1), item.to, item.from);
    }
    named(item.from, item.to.saturating_add(1), item.from)
}

/// An entry, with a comma. The only one of a kind goes with the word of the kind.
fn entry_unit(
    tokens: &[LocatedToken<'_>],
    from: usize,
    to: usize,
    position: usize,
) -> Option<Unit> {
    let stops = [Stop::Just(Mark::Comma), Stop::Kind];
    let item = item_about(tokens, Extent { from, to }, position, stops);
    let before = item.from.checked_sub(1)?;
    let behind = item.to.saturating_add(1);
    let has_comma = item.to < to && is_at(tokens, item.to, Mark::Comma);
    if is_at(tokens, before, Mark::Comma) {
        return Some(named(before, item.to, item.from));
    }
    if has_comma && behind < to && is_word_at(tokens, behind) {
        return Some(named(item.from, behind, item.from));
    }
    if has_comma {
        return Some(named(before, behind, item.from));
    }
    Some(named(before, item.to, item.from))
}

/// A transition, its guard, or a statement of its effect.
fn transition_unit(
    tokens: &[LocatedToken<'_>],
    from: usize,
    to: usize,
    position: usize,
) -> Option<Unit> {
    let begin = Stop::Kind.last(tokens, from, position)?;
    let end = Stop::Kind.first(tokens, begin.saturating_add(1), to);
    let guard = Stop::Just(Mark::Pre).first(tokens, begin, end);
    let effect = Stop::Just(Mark::Eff).first(tokens, begin, end);
    if effect < position {
        let whole = Extent {
            from: effect.saturating_add(1),
            to: end,
        };
        return statement_unit(tokens, whole, effect, position);
    }
    if guard < position {
        return Some(nameless(guard, effect));
    }
    Some(named(begin, end, begin.saturating_add(1)))
}

/// The innermost statement about a position that is not the only one of its list, with a `;`; or else the only one of
/// the outermost list, with what stands from a position on before the list.
fn statement_unit(
    tokens: &[LocatedToken<'_>],
    whole: Extent,
    header: usize,
    position: usize,
) -> Option<Unit> {
    let mut found = nameless(header, whole.to);
    let mut region = whole;
    for _turn in 0..MOST_LISTS {
        let semicolon = Stop::Just(Mark::Semicolon);
        let item = item_about(tokens, region, position, [semicolon, semicolon]);
        if let Some(unit) = one_of_several(item, region) {
            found = unit;
        }
        match list_about(tokens, item, position) {
            Some(inner) => region = inner,
            None => return Some(found),
        }
    }
    Some(found)
}

/// A statement with a `;`, if it is not the only one of its list.
fn one_of_several(item: Extent, region: Extent) -> Option<Unit> {
    let behind = item.to.saturating_add(1);
    if item.from > region.from {
        return Some(nameless(item.from.saturating_sub(1), item.to));
    }
    if behind < region.to {
        return Some(nameless(item.from, behind));
    }
    None
}

/// The list of statements about a position, inside an `if` or a `while`.
fn list_about(tokens: &[LocatedToken<'_>], item: Extent, position: usize) -> Option<Extent> {
    let first = mark_at(tokens, item.from)?;
    if first != Mark::If && first != Mark::While {
        return None;
    }
    let mut depth: usize = 0;
    let mut from = None;
    for at in item.from..item.to {
        let behind = depth_behind(tokens, at, depth);
        if depth == 1 && (ends_list(tokens, at) || behind == 0) && position < at {
            return list_from(from, position, at);
        }
        if depth == 1 && begins_list(tokens, at) {
            from = Some(at.saturating_add(1));
        } else if depth == 1 && ends_list(tokens, at) {
            from = None;
        }
        depth = behind;
    }
    None
}

/// The list that begins at a position and ends at another, if it has a third one.
fn list_from(from: Option<usize>, position: usize, to: usize) -> Option<Extent> {
    let from = from?;
    if from <= position {
        Some(Extent { from, to })
    } else {
        None
    }
}

/// Whether a list of statements begins behind a token.
fn begins_list(tokens: &[LocatedToken<'_>], position: usize) -> bool {
    is_at(tokens, position, Mark::Then)
        || is_at(tokens, position, Mark::Else)
        || is_at(tokens, position, Mark::Do)
}

/// Whether a list of statements ends at a token, and another part of the same statement follows.
fn ends_list(tokens: &[LocatedToken<'_>], position: usize) -> bool {
    is_at(tokens, position, Mark::ElseIf) || is_at(tokens, position, Mark::Else)
}
