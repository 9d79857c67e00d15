//! How the signs and the words of the language are written: the only place where their texts are.

ghost use Rattle.std.specs.Prelude.{◌≡◌, nat_eq};
ghost use Rattle.std.specs.List.{starts_with};
ghost use Rattle.std.specs.Map.{lookup, lookup_entry};
ghost use Rattle.std.specs.Option.{option_map};
ghost use Rattle.std.specs.Str.{bytes_eq};
ghost use Rattle.ioa_tokens.specs.Tables as spec;

use crate::mark::{LeftOut, Mark};

/// The signs, except `\in`, which is written with letters. A sign comes before each shorter one that it
/// begins with.
static SIGNS: [(&str, Mark); 30] = [
    ("<=>", Mark::Equivalent),
    ("/\\", Mark::And),
    ("\\/", Mark::Or),
    ("~=", Mark::NotEqual),
    ("=>", Mark::Implies),
    ("<=", Mark::AtMost),
    (">=", Mark::AtLeast),
    ("->", Mark::Arrow),
    ("-|", Mark::Prepend),
    ("|-", Mark::Append),
    ("||", Mark::Concatenate),
    (":=", Mark::Assign),
    ("~", Mark::Not),
    ("=", Mark::Equal),
    ("<", Mark::Less),
    (">", Mark::Greater),
    ("+", Mark::Plus),
    ("-", Mark::Minus),
    ("*", Mark::Times),
    (".", Mark::Dot),
    (",", Mark::Comma),
    (";", Mark::Semicolon),
    (":", Mark::Colon),
    ("(", Mark::OpenRound),
    (")", Mark::CloseRound),
    ("[", Mark::OpenSquare),
    ("]", Mark::CloseSquare),
    ("{", Mark::OpenBrace),
    ("}", Mark::CloseBrace),
    ("@", Mark::AtSign),
];

/// The reserved words, and the sign that is written with letters.
static RESERVED: [(&str, Mark); 42] = [
    ("automaton", Mark::Automaton),
    ("signature", Mark::Signature),
    ("states", Mark::States),
    ("transitions", Mark::Transitions),
    ("schedule", Mark::Schedule),
    ("input", Mark::Input),
    ("output", Mark::Output),
    ("internal", Mark::Internal),
    ("const", Mark::Const),
    ("where", Mark::Where),
    ("pre", Mark::Pre),
    ("eff", Mark::Eff),
    ("if", Mark::If),
    ("then", Mark::Then),
    ("elseif", Mark::ElseIf),
    ("else", Mark::Else),
    ("fi", Mark::Fi),
    ("while", Mark::While),
    ("do", Mark::Do),
    ("od", Mark::Od),
    ("fire", Mark::Fire),
    ("type", Mark::Type),
    ("enumeration", Mark::Enumeration),
    ("tuple", Mark::Tuple),
    ("of", Mark::Of),
    ("true", Mark::True),
    ("false", Mark::False),
    ("system", Mark::System),
    ("node", Mark::Node),
    ("channel", Mark::Channel),
    ("script", Mark::Script),
    ("invariant", Mark::Invariant),
    ("yield", Mark::Yield),
    ("unordered", Mark::Unordered),
    ("choose", Mark::Choose),
    ("Bool", Mark::Bool),
    ("Int", Mark::Int),
    ("Nat", Mark::Nat),
    ("Seq", Mark::Seq),
    ("Set", Mark::Set),
    ("Map", Mark::Map),
    ("\\in", Mark::Member),
];

/// The words that the profile leaves out.
static LEFT_OUT: [(&str, LeftOut); 18] = [
    ("uses", LeftOut::Uses),
    ("assumes", LeftOut::Assumes),
    ("components", LeftOut::Components),
    ("hidden", LeftOut::Hidden),
    ("tasks", LeftOut::Tasks),
    ("for", LeftOut::For),
    ("local", LeftOut::Local),
    ("so", LeftOut::So),
    ("forward", LeftOut::Forward),
    ("backward", LeftOut::Backward),
    ("Array", LeftOut::Array),
    ("Mset", LeftOut::Mset),
    ("Null", LeftOut::Null),
    ("String", LeftOut::String),
    ("Char", LeftOut::Char),
    ("Real", LeftOut::Real),
    ("\\A", LeftOut::ForAll),
    ("\\E", LeftOut::Exists),
];

/// Whether a text begins with a spelling. Mostly the first byte tells.
#[inline(always)]
fn begins_with(text: &[u8], spelling: &[u8]) -> bool
    ensures { result ≡ starts_with nat_eq text.now spelling.now }
{
    match (text, spelling) {
        ([first, ..], [wanted, ..]) if first != wanted => false,
        _ => text.starts_with(spelling),
    }
}

/// Whether a word is a spelling. Mostly its length tells.
#[inline(always)]
fn is_same(word: &[u8], spelling: &[u8]) -> bool
    ensures { result ≡ bytes_eq word.now spelling.now }
{
    if word.len() != spelling.len() {
        return false;
    }
    word == spelling
}

/// The first row of a table that a text begins with.
fn row_at_head<T: Copy>(table: &[(&'static str, T)], text: &[u8]) -> Option<(&'static str, T)>
    ensures { option_map spec.spelled_row result
        ≡ lookup_entry (starts_with nat_eq text.now) (spec.spelled_rows table.now) }
{
    for (spelling, meaning) in table {
        if begins_with(text, spelling.as_bytes()) {
            return Some((*spelling, *meaning));
        }
    }
    None
}

/// The meaning of the first row of a table that is a word, if there is one.
fn meaning<T: Copy>(table: &[(&str, T)], word: &[u8]) -> Option<T>
    ensures { result ≡ lookup (bytes_eq word.now) (spec.spelled_rows table.now) }
{
    for (spelling, meaning) in table {
        if is_same(word, spelling.as_bytes()) {
            return Some(*meaning);
        }
    }
    None
}

/// The longest sign that a text begins with, and how it is written.
#[tactic(auto, unfolding(crate::specs::Tables::signs))]
pub(crate) fn sign_at(text: &[u8]) -> Option<(&'static str, Mark)>
    ensures { option_map spec.spelled_row result ≡ spec.sign_at_head text.now }
{
    row_at_head(&SIGNS, text)
}

/// The mark of a reserved word.
#[tactic(auto, unfolding(crate::specs::Tables::reserved))]
pub(crate) fn reserved_word(word: &[u8]) -> Option<Mark>
    ensures { result ≡ spec.reserved_word word.now }
{
    meaning(&RESERVED, word)
}

/// The left-out word of these bytes.
#[tactic(auto, unfolding(crate::specs::Tables::left_out_words))]
pub(crate) fn left_out_word(word: &[u8]) -> Option<LeftOut>
    ensures { result ≡ spec.left_out_word word.now }
{
    meaning(&LEFT_OUT, word)
}

/// The text of the first row of a table with this meaning, if there is one.
fn text_of<T: Copy + PartialEq>(table: &[(&'static str, T)], wanted: T) -> Option<&'static str>
    ensures { option_map (λ text. text.now) result
        ≡ spec.first_text (λ m. T.eq m wanted) (spec.spelled_rows table.now) }
{
    for (text, meaning) in table {
        if *meaning == wanted {
            return Some(*text);
        }
    }
    None
}

/// How a sign or a reserved word is written. Each has a row, so the empty text is never returned.
#[tactic(auto, unfolding(crate::specs::Tables::mark_text, crate::specs::Tables::signs, crate::specs::Tables::reserved))]
pub(crate) fn mark_text(mark: Mark) -> &'static str
    ensures { result.now ≡ spec.mark_text mark }
{
    text_of(&SIGNS, mark)
        .or(text_of(&RESERVED, mark))
        .unwrap_or("")
}

/// How a left-out word is written. Each has a row, so the empty text is never returned.
#[tactic(auto, unfolding(crate::specs::Tables::left_out_text, crate::specs::Tables::left_out_words))]
pub(crate) fn left_out_text(word: LeftOut) -> &'static str
    ensures { result.now ≡ spec.left_out_text word }
{
    text_of(&LEFT_OUT, word).unwrap_or("")
}
