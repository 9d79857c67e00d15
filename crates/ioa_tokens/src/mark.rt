//! The signs and the reserved words of the language, and the words that it leaves out.

ghost use Rattle.std.specs.Prelude.{◌≡◌};
ghost use Rattle.ioa_tokens.specs.Tables as spec;

use crate::table::{left_out_text, mark_text};
use std::fmt;

/// A sign or a reserved word of the language. Source: profile.
#[derive(Clone, Copy, Debug, PartialEq, Eq)]
pub enum Mark {
    /// `<=>`
    Equivalent,
    /// `/\`
    And,
    /// `\/`
    Or,
    /// `\in`
    Member,
    /// `~=`
    NotEqual,
    /// `=>`
    Implies,
    /// `<=`
    AtMost,
    /// `>=`
    AtLeast,
    /// `->`
    Arrow,
    /// `-|`
    Prepend,
    /// `|-`
    Append,
    /// `||`
    Concatenate,
    /// `:=`
    Assign,
    /// `~`
    Not,
    /// `=`
    Equal,
    /// `<`
    Less,
    /// `>`
    Greater,
    /// `+`
    Plus,
    /// `-`
    Minus,
    /// `*`
    Times,
    /// `.`
    Dot,
    /// `,`
    Comma,
    /// `;`
    Semicolon,
    /// `:`
    Colon,
    /// `(`
    OpenRound,
    /// `)`
    CloseRound,
    /// `[`
    OpenSquare,
    /// `]`
    CloseSquare,
    /// `{`
    OpenBrace,
    /// `}`
    CloseBrace,
    /// `@`
    AtSign,
    /// `automaton`
    Automaton,
    /// `signature`
    Signature,
    /// `states`
    States,
    /// `transitions`
    Transitions,
    /// `schedule`
    Schedule,
    /// `input`
    Input,
    /// `output`
    Output,
    /// `internal`
    Internal,
    /// `const`
    Const,
    /// `where`
    Where,
    /// `pre`
    Pre,
    /// `eff`
    Eff,
    /// `if`
    If,
    /// `then`
    Then,
    /// `elseif`
    ElseIf,
    /// `else`
    Else,
    /// `fi`
    Fi,
    /// `while`
    While,
    /// `do`
    Do,
    /// `od`
    Od,
    /// `fire`
    Fire,
    /// `type`
    Type,
    /// `enumeration`
    Enumeration,
    /// `tuple`
    Tuple,
    /// `of`
    Of,
    /// `true`
    True,
    /// `false`
    False,
    /// `system`
    System,
    /// `node`
    Node,
    /// `channel`
    Channel,
    /// `script`
    Script,
    /// `invariant`
    Invariant,
    /// `yield`
    Yield,
    /// `unordered`
    Unordered,
    /// `choose`
    Choose,
    /// `Bool`
    Bool,
    /// `Int`
    Int,
    /// `Nat`
    Nat,
    /// `Seq`
    Seq,
    /// `Set`
    Set,
    /// `Map`
    Map,
}

impl Mark {
    /// How the sign or the reserved word is written.
    pub fn as_str(self) -> &'static str
        ensures { result.now ≡ spec.mark_text self }
    {
        mark_text(self)
    }
}

/// A word of the I/O automata language that the profile leaves out. It is no name either: a text that
/// uses it is refused and not misread. Source: profile.
#[derive(Clone, Copy, Debug, PartialEq, Eq)]
pub enum LeftOut {
    /// `uses`
    Uses,
    /// `assumes`
    Assumes,
    /// `components`
    Components,
    /// `hidden`
    Hidden,
    /// `tasks`
    Tasks,
    /// `for`
    For,
    /// `local`
    Local,
    /// `so`
    So,
    /// `forward`
    Forward,
    /// `backward`
    Backward,
    /// `Array`
    Array,
    /// `Mset`
    Mset,
    /// `Null`
    Null,
    /// `String`
    String,
    /// `Char`
    Char,
    /// `Real`
    Real,
    /// `\A`
    ForAll,
    /// `\E`
    Exists,
}

impl fmt::Display for LeftOut {
    ghost use Rattle.std.specs.Prelude.{Some};
    ghost use Rattle.ioa_tokens.specs.Tables.{left_out_text};

    ghost output = { λ word. Some (left_out_text word) };

    fn fmt<W: fmt::Write>(&self, f: &mut fmt::Formatter<W>) -> fmt::Result {
        f.write_str(left_out_text(*self))
    }
}
