//! The gap before each piece of a text.

ghost use Rattle.std.specs.Prelude.{◌≡◌, true};
ghost use Rattle.std.specs.Option.{option_map};
ghost use Rattle.ioa_tokens.specs.Written.{may_follow};
ghost use Rattle.ioa_front.specs.Pieces.{piece_token};
ghost use Rattle.ioa_front.specs.Printed.{may_begin};
ghost use Rattle.ioa_front.specs.Touching as spec;

use crate::piece::Piece;
use ioa_tokens::{Gap, Mark};

/// How far the parts of a declaration and the nodes, channels and scripts of the system are indented.
const PART: usize = 2;

/// How far entries, variables, transitions and the parts of a schedule are indented.
const ITEM: usize = 4;

/// How far a guard and an effect are indented.
const INNER: usize = 6;

/// How far the statements of an effect are indented.
const DEEPEST: usize = 8;

/// How much further the statements of an arm and those behind a `do` are indented.
const STEP: usize = 2;

/// What decides the gap before the next piece of a text.
#[derive(Drop)]
pub(crate) struct Layout {
    /// Whether state variables are declared, each in a line of its own.
    in_states: bool,
    /// Whether a schedule is written. Its variables are in one line.
    in_schedule: bool,
    /// Whether the test of a `while` is written.
    in_test: bool,
    /// How many brackets are open.
    depth: usize,
    /// How far statements are indented.
    indent: usize,
    /// Whether the last piece is an operator before a term.
    behind_prefix: bool,
}

impl Layout {
    /// The beginning of a text.
    pub(crate) fn new() -> Self {
        Layout {
            in_states: false,
            in_schedule: false,
            in_test: false,
            depth: 0,
            indent: 0,
            behind_prefix: false,
        }
    }

    /// The gap between a piece and the one before it, if there is one. Two pieces are joined only if they
    /// are still two tokens then.
    pub(crate) fn gap(&self, before: Option<Piece<'_>>, after: Piece<'_>) -> Gap
        ensures { may_begin (option_map piece_token before.entry) (result, piece_token after.entry) ≡ true }
    {
        match before {
            None => Gap::Joined,
            Some(before) => self.gap_between(before, after),
        }
    }

    /// The gap between two pieces.
    fn gap_between(&self, before: Piece<'_>, after: Piece<'_>) -> Gap
        ensures { may_follow (piece_token before.entry) (result, piece_token after.entry) ≡ true }
    {
        match self.line(before, after) {
            Some(indent) => Gap::NewLine(indent),
            None => self.gap_within(before, after),
        }
    }

    /// The gap between two pieces of a line.
    fn gap_within(&self, before: Piece<'_>, after: Piece<'_>) -> Gap
        ensures { may_follow (piece_token before.entry) (result, piece_token after.entry) ≡ true }
    {
        if self.is_close(before, after) {
            closest_gap(before, after)
        } else {
            Gap::Spaced
        }
    }

    /// Goes past a piece, which comes after `before`.
    pub(crate) fn pass(&mut self, before: Option<Piece<'_>>, piece: Piece<'_>) {
        self.behind_prefix = is_prefix(piece) && !is_behind_term(before);
        if let Piece::Mark(mark) = piece {
            self.pass_mark(mark);
        }
    }

    /// Goes past a sign or a reserved word.
    fn pass_mark(&mut self, mark: Mark) {
        match mark {
            Mark::OpenRound | Mark::OpenSquare | Mark::OpenBrace => {
                self.depth = self.depth.saturating_add(1);
            }
            Mark::CloseRound | Mark::CloseSquare | Mark::CloseBrace => {
                self.depth = self.depth.saturating_sub(1);
            }
            Mark::States => self.in_states = !self.in_schedule,
            Mark::Transitions => self.in_states = false,
            Mark::Schedule => {
                self.in_states = false;
                self.in_schedule = true;
                self.indent = ITEM;
            }
            Mark::Automaton | Mark::Type | Mark::System => {
                self.in_states = false;
                self.in_schedule = false;
            }
            Mark::Eff => self.indent = DEEPEST,
            Mark::While => self.in_test = true,
            Mark::Do => {
                self.in_test = false;
                self.indent = self.indent.saturating_add(STEP);
            }
            Mark::Then => self.indent = self.indent.saturating_add(STEP),
            Mark::ElseIf | Mark::Fi | Mark::Od => self.indent = self.indent.saturating_sub(STEP),
            _ => {}
        }
    }

    /// How far the second of two pieces is indented, if it begins a line. The piece itself counts first:
    /// an `od` right behind a `do` is under it.
    fn line(&self, before: Piece<'_>, after: Piece<'_>) -> Option<usize> {
        match self.line_before(before, after) {
            Some(indent) => Some(indent),
            None => self.line_behind(before),
        }
    }

    /// How far the next piece is indented, if a line ends after this one.
    fn line_behind(&self, piece: Piece<'_>) -> Option<usize> {
        match piece {
            Piece::Mark(Mark::States | Mark::Comma) if self.in_states && self.depth == 0 => {
                Some(ITEM)
            }
            Piece::Mark(Mark::Eff | Mark::Do | Mark::Semicolon | Mark::Then | Mark::Else) => {
                Some(self.indent)
            }
            _ => None,
        }
    }

    /// How far the second of two pieces is indented, if it always begins a line.
    fn line_before(&self, before: Piece<'_>, after: Piece<'_>) -> Option<usize> {
        match after {
            Piece::Mark(Mark::Type | Mark::Automaton | Mark::System | Mark::Invariant) => Some(0),
            Piece::Mark(Mark::States) if self.in_schedule => Some(ITEM),
            Piece::Mark(Mark::Signature | Mark::States | Mark::Transitions | Mark::Schedule) => {
                Some(PART)
            }
            Piece::Mark(Mark::Node | Mark::Channel | Mark::Script) => Some(PART),
            Piece::Mark(Mark::Input | Mark::Output | Mark::Internal) if !is_fire(before) => {
                Some(ITEM)
            }
            Piece::Mark(Mark::Pre | Mark::Eff) => Some(INNER),
            Piece::Mark(Mark::Do) if !self.in_test => Some(self.indent),
            Piece::Mark(Mark::ElseIf | Mark::Else | Mark::Fi | Mark::Od) => {
                Some(self.indent.saturating_sub(STEP))
            }
            _ => None,
        }
    }

    /// Whether there is no space between two pieces of a line.
    fn is_close(&self, before: Piece<'_>, after: Piece<'_>) -> bool {
        self.behind_prefix
            || precedes_any(before)
            || is_part_end(after)
            || (is_opening(after) && ends_term(before))
    }
}

/// No gap between two pieces, or a space if they would run together.
#[tactic(auto, using(crate::proofs::Touching::touches_may))]
fn closest_gap(before: Piece<'_>, after: Piece<'_>) -> Gap
    ensures { may_follow (piece_token before.entry) (result, piece_token after.entry) ≡ true }
{
    if touches(before, after) {
        Gap::Joined
    } else {
        Gap::Spaced
    }
}

/// Whether the second of two pieces may follow the first without a gap.
fn touches(before: Piece<'_>, after: Piece<'_>) -> bool
    ensures { result ≡ spec.touches (piece_token before.entry) (piece_token after.entry) }
{
    follows_any(after) || precedes_any(before) || (is_prefix(before) && is_plain(after))
}

/// Whether a piece may follow any other without a gap.
fn follows_any(piece: Piece<'_>) -> bool
    ensures { result ≡ spec.follows_any (piece_token piece.entry) }
{
    is_opening(piece) || is_part_end(piece)
}

/// Whether a piece is a bracket that opens.
fn is_opening(piece: Piece<'_>) -> bool
    ensures { result ≡ spec.is_opening (piece_token piece.entry) }
{
    match piece {
        Piece::Mark(Mark::OpenRound | Mark::OpenSquare | Mark::OpenBrace) => true,
        _ => false,
    }
}

/// Whether there is no space before a piece: a bracket that closes, a sign that ends a part, or the sign of
/// `x@k`.
fn is_part_end(piece: Piece<'_>) -> bool
    ensures { result ≡ spec.is_part_end (piece_token piece.entry) }
{
    match piece {
        Piece::Mark(Mark::CloseRound | Mark::CloseSquare | Mark::CloseBrace) => true,
        Piece::Mark(Mark::Dot | Mark::Comma | Mark::Semicolon | Mark::Colon) => true,
        Piece::Mark(Mark::AtSign) => true,
        _ => false,
    }
}

/// Whether there is no space after a piece.
fn precedes_any(piece: Piece<'_>) -> bool
    ensures { result ≡ spec.precedes_any (piece_token piece.entry) }
{
    match piece {
        Piece::Mark(Mark::OpenRound | Mark::OpenSquare | Mark::OpenBrace) => true,
        Piece::Mark(Mark::Dot | Mark::AtSign) => true,
        _ => false,
    }
}

/// Whether a piece may be an operator before a term.
fn is_prefix(piece: Piece<'_>) -> bool
    ensures { result ≡ spec.is_prefix (piece_token piece.entry) }
{
    match piece {
        Piece::Mark(Mark::Minus | Mark::Not) => true,
        _ => false,
    }
}

/// Whether a piece is a name, a number or a truth value.
fn is_plain(piece: Piece<'_>) -> bool
    ensures { result ≡ spec.is_plain (piece_token piece.entry) }
{
    match piece {
        Piece::Word(_) | Piece::Number(_) => true,
        Piece::Mark(Mark::True | Mark::False) => true,
        _ => false,
    }
}

/// Whether a term, or the word of a sort with parts, ends with a piece.
fn ends_term(piece: Piece<'_>) -> bool {
    match piece {
        Piece::Mark(Mark::CloseRound | Mark::CloseSquare | Mark::CloseBrace) => true,
        Piece::Mark(Mark::Seq | Mark::Set | Mark::Map) => true,
        _ => is_plain(piece),
    }
}

/// Whether there is a piece, and a term ends with it.
fn is_behind_term(before: Option<Piece<'_>>) -> bool {
    match before {
        None => false,
        Some(piece) => ends_term(piece),
    }
}

/// Whether a piece is the word of a firing.
fn is_fire(piece: Piece<'_>) -> bool {
    match piece {
        Piece::Mark(Mark::Fire) => true,
        _ => false,
    }
}
