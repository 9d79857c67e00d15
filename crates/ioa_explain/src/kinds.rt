//! Kinds of tokens, and groups of them that have a name.

use ioa_tokens::Mark;

/// A kind of token, or the end of a text.
#[derive(Clone, Copy, Debug, PartialEq, Eq)]
pub(crate) enum Kind {
    /// A sign or a reserved word.
    Mark(Mark),
    /// A name.
    Word,
    /// A number.
    Number,
    /// The end of the text.
    End,
}

/// The kinds of tokens that texts can have, and the end, in the order in which they are told.
pub(crate) static KINDS: [Kind; 75] = [
    Kind::Mark(Mark::Comma),
    Kind::Mark(Mark::Semicolon),
    Kind::Mark(Mark::Colon),
    Kind::Mark(Mark::Assign),
    Kind::Mark(Mark::Dot),
    Kind::Mark(Mark::AtSign),
    Kind::Mark(Mark::Arrow),
    Kind::Mark(Mark::OpenRound),
    Kind::Mark(Mark::CloseRound),
    Kind::Mark(Mark::OpenSquare),
    Kind::Mark(Mark::CloseSquare),
    Kind::Mark(Mark::OpenBrace),
    Kind::Mark(Mark::CloseBrace),
    Kind::Mark(Mark::Equivalent),
    Kind::Mark(Mark::Implies),
    Kind::Mark(Mark::Or),
    Kind::Mark(Mark::And),
    Kind::Mark(Mark::Not),
    Kind::Mark(Mark::Equal),
    Kind::Mark(Mark::NotEqual),
    Kind::Mark(Mark::Less),
    Kind::Mark(Mark::AtMost),
    Kind::Mark(Mark::Greater),
    Kind::Mark(Mark::AtLeast),
    Kind::Mark(Mark::Member),
    Kind::Mark(Mark::Prepend),
    Kind::Mark(Mark::Append),
    Kind::Mark(Mark::Concatenate),
    Kind::Mark(Mark::Plus),
    Kind::Mark(Mark::Minus),
    Kind::Mark(Mark::Times),
    Kind::Mark(Mark::Type),
    Kind::Mark(Mark::Enumeration),
    Kind::Mark(Mark::Tuple),
    Kind::Mark(Mark::Of),
    Kind::Mark(Mark::Automaton),
    Kind::Mark(Mark::Signature),
    Kind::Mark(Mark::Input),
    Kind::Mark(Mark::Output),
    Kind::Mark(Mark::Internal),
    Kind::Mark(Mark::Const),
    Kind::Mark(Mark::Where),
    Kind::Mark(Mark::States),
    Kind::Mark(Mark::Transitions),
    Kind::Mark(Mark::Pre),
    Kind::Mark(Mark::Eff),
    Kind::Mark(Mark::Choose),
    Kind::Mark(Mark::Yield),
    Kind::Mark(Mark::Schedule),
    Kind::Mark(Mark::If),
    Kind::Mark(Mark::Then),
    Kind::Mark(Mark::ElseIf),
    Kind::Mark(Mark::Else),
    Kind::Mark(Mark::Fi),
    Kind::Mark(Mark::While),
    Kind::Mark(Mark::Do),
    Kind::Mark(Mark::Od),
    Kind::Mark(Mark::Fire),
    Kind::Mark(Mark::True),
    Kind::Mark(Mark::False),
    Kind::Mark(Mark::Bool),
    Kind::Mark(Mark::Int),
    Kind::Mark(Mark::Nat),
    Kind::Mark(Mark::Seq),
    Kind::Mark(Mark::Set),
    Kind::Mark(Mark::Map),
    Kind::Mark(Mark::System),
    Kind::Mark(Mark::Node),
    Kind::Mark(Mark::Channel),
    Kind::Mark(Mark::Unordered),
    Kind::Mark(Mark::Script),
    Kind::Mark(Mark::Invariant),
    Kind::Word,
    Kind::Number,
    Kind::End,
];

/// Kinds that have one name together.
#[derive(Clone, Copy, Debug, PartialEq, Eq)]
pub(crate) enum Group {
    /// How a term begins.
    Term,
    /// How a term begins that is part of another: there a `~` stands in brackets alone.
    Operand,
    /// The operators between two terms.
    Operator,
    /// Those of them that are no comparison.
    NoComparison,
    /// What stands behind a term that has parts.
    BehindTerm,
    /// How a sort begins.
    Sort,
    /// How a statement of a schedule begins.
    BlockStatement,
    /// How a statement of an effect begins.
    Statement,
    /// How a declaration begins that stands before the system section, and the section.
    Declaration,
    /// How a line of the system section begins.
    Placement,
}

/// The groups, in the order in which they are told.
pub(crate) static GROUPS: [Group; 10] = [
    Group::Term,
    Group::Operand,
    Group::Operator,
    Group::NoComparison,
    Group::BehindTerm,
    Group::Sort,
    Group::BlockStatement,
    Group::Statement,
    Group::Declaration,
    Group::Placement,
];

impl Group {
    /// What its kinds are called.
    pub(crate) fn name(self) -> &'static str {
        match self {
            Group::Term => "a term",
            Group::Operand => "a term that begins with no `~`",
            Group::Operator => "an operator between two terms",
            Group::NoComparison => "an operator that compares nothing",
            Group::BehindTerm => "`.` or `[` behind a term",
            Group::Sort => "a sort",
            Group::BlockStatement => "a statement of a schedule",
            Group::Statement => "a statement",
            Group::Declaration => "a type, an automaton or `system`",
            Group::Placement => "a node, a channel or a script",
        }
    }

    /// Whether a kind is one of the group.
    pub(crate) fn has(self, kind: Kind) -> bool {
        match kind {
            Kind::Mark(mark) => self.has_mark(mark),
            Kind::Word => self.has_word(),
            Kind::Number => matches!(self, Group::Term | Group::Operand),
            Kind::End => false,
        }
    }

    /// Whether names are of the group.
    fn has_word(self) -> bool {
        match self {
            Group::Term | Group::Operand | Group::Sort | Group::BlockStatement | Group::Statement =>
                true,
            Group::Operator
            | Group::NoComparison
            | Group::BehindTerm
            | Group::Declaration
            | Group::Placement => false,
        }
    }

    /// Whether a sign or a reserved word is one of the group.
    fn has_mark(self, mark: Mark) -> bool {
        match self {
            Group::Term => begins_operand(mark) || mark == Mark::Not,
            Group::Operand => begins_operand(mark),
            Group::Operator => compares(mark) || is_other_operator(mark),
            Group::NoComparison => is_other_operator(mark),
            Group::BehindTerm => matches!(mark, Mark::Dot | Mark::OpenSquare),
            Group::Sort => begins_sort(mark),
            Group::BlockStatement => matches!(mark, Mark::If | Mark::While | Mark::Fire),
            Group::Statement => mark == Mark::If,
            Group::Declaration => matches!(mark, Mark::Type | Mark::Automaton | Mark::System),
            Group::Placement => matches!(mark, Mark::Node | Mark::Channel | Mark::Script),
        }
    }
}

/// Whether a term that is part of another may begin with a mark.
fn begins_operand(mark: Mark) -> bool {
    matches!(
        mark,
        Mark::True
            | Mark::False
            | Mark::OpenRound
            | Mark::OpenSquare
            | Mark::OpenBrace
            | Mark::Minus
    )
}

/// Whether a mark is a comparison.
fn compares(mark: Mark) -> bool {
    matches!(
        mark,
        Mark::Equal
            | Mark::NotEqual
            | Mark::Less
            | Mark::AtMost
            | Mark::Greater
            | Mark::AtLeast
            | Mark::Member
    )
}

/// Whether a mark is an operator between two terms that is no comparison.
fn is_other_operator(mark: Mark) -> bool {
    matches!(
        mark,
        Mark::Equivalent
            | Mark::Implies
            | Mark::Or
            | Mark::And
            | Mark::Prepend
            | Mark::Append
            | Mark::Concatenate
            | Mark::Plus
            | Mark::Minus
            | Mark::Times
    )
}

/// Whether a sort may begin with a reserved word.
fn begins_sort(mark: Mark) -> bool {
    matches!(
        mark,
        Mark::Bool | Mark::Int | Mark::Nat | Mark::Seq | Mark::Set | Mark::Map
    )
}
