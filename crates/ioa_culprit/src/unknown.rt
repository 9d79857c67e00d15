//! What is found in the place of a name that is not in view, in words.

use crate::asking::Whole;
use crate::index::NameIndex;
use crate::near::is_near;
use crate::roles::role_of;
use ioa_names::View;
use ioa_refusals::Refusal;
use ioa_source::Sort;
use ioa_terms::Word;
use ioa_tokens::{LocatedToken, Token};
use ioa_types::Types;
use std::alloc::{AllocError, Global};

/// How many near names are told at most.
const MOST_NEAR: usize = 3;

/// The names of the functions that terms call.
static FUNCTIONS: [&str; 13] = [
    "head", "tail", "len", "size", "div", "mod", "insert", "delete", "union", "update", "remove",
    "defined", "inbox",
];

/// Among which names one was sought, and not found.
#[derive(Clone, Copy)]
pub(crate) enum Sought<'a> {
    /// Those that a term may read.
    View(&'a View<'a>),
    /// The variables that may be assigned: the first names in view, so many.
    Variables(&'a View<'a>, usize),
    /// The entries of an automaton.
    Entries(&'a NameIndex),
    /// The types that are declared before.
    Types(&'a Types),
    /// The automata of the text.
    Automata(&'a NameIndex),
    /// The state variables of a node.
    States(&'a NameIndex),
    /// The functions that terms call.
    Functions,
}

impl<'a> Sought<'a> {
    /// What a name would be that is found.
    fn what(self) -> &'static str {
        match self {
            Sought::View(_) => "in view here",
            Sought::Variables(_, _) => "a variable that is assigned here",
            Sought::Entries(_) => "an action of this automaton",
            Sought::Types(_) => "a type that is declared before",
            Sought::Automata(_) => "an automaton of the text",
            Sought::States(_) => "a state variable of that node",
            Sought::Functions => "a function",
        }
    }

    /// Whether a name is one of them.
    fn has(self, alloc: Global, name: &Word) -> Result<bool, AllocError> {
        match self {
            Sought::View(view) => Ok(view.find_variable(name, usize::MAX).is_some()),
            Sought::Variables(view, count) => Ok(view.find_variable(name, count).is_some()),
            Sought::Entries(index) | Sought::Automata(index) | Sought::States(index) => {
                Ok(index.position_of(name).is_some())
            }
            Sought::Types(types) => is_type(alloc, types, name),
            Sought::Functions => Ok(false),
        }
    }
}

/// Whether a type of a name was declared before.
pub(crate) fn is_type(alloc: Global, types: &Types, name: &Word) -> Result<bool, AllocError> {
    let sort = Sort::Named(name.try_copy(alloc)?);
    match types.shape_of(alloc, &sort) {
        Ok(_) => Ok(true),
        Err(Refusal::Memory) => Err(AllocError),
        Err(_) => Ok(false),
    }
}

/// What is said of a name that was sought, and not found: near names that would be, or else what it is elsewhere.
pub(crate) fn unknown_words(
    alloc: Global,
    whole: &Whole<'_>,
    sought: Sought<'_>,
    name: &Word,
) -> Result<Vec<u8>, AllocError> {
    let mut words = Vec::new(alloc);
    push_quoted(&mut words, name.as_str())?;
    words.extend_from_slice(b" is not ")?;
    words.extend_from_slice(sought.what().as_bytes())?;
    let bare = words.len();
    push_near(alloc, &mut words, whole.cut.tokens, sought, name)?;
    if words.len() == bare {
        push_elsewhere(&mut words, whole, name)?;
    }
    Ok(words)
}

/// What is said of a new name that is in view.
pub(crate) fn taken_words(alloc: Global, name: &Word) -> Result<Vec<u8>, AllocError> {
    let mut words = Vec::new(alloc);
    push_quoted(&mut words, name.as_str())?;
    words.extend_from_slice(b" is in view here already")?;
    Ok(words)
}

/// Adds a name as texts quote it.
pub(crate) fn push_quoted(words: &mut Vec<u8>, name: &str) -> Result<(), AllocError> {
    words.extend_from_slice(b"`")?;
    words.extend_from_slice(name.as_bytes())?;
    words.extend_from_slice(b"`")
}

/// Adds the names near one among those that were sought, if there are any.
fn push_near(
    alloc: Global,
    words: &mut Vec<u8>,
    tokens: &[LocatedToken<'_>],
    sought: Sought<'_>,
    name: &Word,
) -> Result<(), AllocError> {
    match sought {
        Sought::Functions => push_functions(words, name),
        _ => {
            let near = near_names(alloc, tokens, sought, name)?;
            push_names(words, &near)
        }
    }
}

/// Adds near names.
fn push_names(words: &mut Vec<u8>, near: &[Word]) -> Result<(), AllocError> {
    for (position, name) in near.iter().enumerate() {
        push_another(words, position == 0, name.as_str())?;
    }
    Ok(())
}

/// Adds a near name, the first one or another.
fn push_another(words: &mut Vec<u8>, is_first: bool, name: &str) -> Result<(), AllocError> {
    if is_first {
        words.extend_from_slice(b"; near it: ")?;
    } else {
        words.extend_from_slice(b", ")?;
    }
    push_quoted(words, name)
}

/// Adds the functions whose names are near a name.
fn push_functions(words: &mut Vec<u8>, name: &Word) -> Result<(), AllocError> {
    let mut is_first = true;
    for function in FUNCTIONS.iter() {
        if is_near(name.as_str().as_bytes(), function.as_bytes()) {
            push_another(words, is_first, function)?;
            is_first = false;
        }
    }
    Ok(())
}

/// The names near one, among those that were sought, in the order of the text.
fn near_names(
    alloc: Global,
    tokens: &[LocatedToken<'_>],
    sought: Sought<'_>,
    name: &Word,
) -> Result<Vec<Word>, AllocError> {
    let mut near = Vec::new(alloc);
    for located in tokens {
        if near.len() < MOST_NEAR {
            push_if_near(alloc, &mut near, &located.token, sought, name)?;
        }
    }
    Ok(near)
}

/// Adds what a token names, if it is near a name, one of those that were sought, and new.
fn push_if_near(
    alloc: Global,
    near: &mut Vec<Word>,
    token: &Token<'_>,
    sought: Sought<'_>,
    name: &Word,
) -> Result<(), AllocError> {
    match token {
        Token::Word(word) => {
            let bytes = word.as_bytes();
            if is_near(name.as_str().as_bytes(), bytes) {
                let word = Word::from_ascii(alloc, bytes)?;
                push_if_sought(alloc, near, sought, word)?;
            }
            Ok(())
        }
        Token::Number(_) | Token::Mark(_) | Token::LeftOut(_) => Ok(()),
    }
}

/// Adds a name that is one of those that were sought, and new.
fn push_if_sought(
    alloc: Global,
    near: &mut Vec<Word>,
    sought: Sought<'_>,
    name: Word,
) -> Result<(), AllocError> {
    let found = sought.has(alloc, &name)?;
    if found && !near.contains(&name) {
        near.push(name)?;
    }
    Ok(())
}

/// Adds what a name is elsewhere in the text, if it is anything.
fn push_elsewhere(words: &mut Vec<u8>, whole: &Whole<'_>, name: &Word) -> Result<(), AllocError> {
    match role_of(whole.source, name) {
        None => Ok(()),
        Some(found) => {
            words.extend_from_slice(b"; it is ")?;
            words.extend_from_slice(found.what.as_bytes())?;
            push_owner(words, found.owner)
        }
    }
}

/// Adds the name of a declaration behind a blank, if there is one.
fn push_owner(words: &mut Vec<u8>, owner: Option<&Word>) -> Result<(), AllocError> {
    match owner {
        None => Ok(()),
        Some(owner) => {
            words.extend_from_slice(b" ")?;
            words.extend_from_slice(owner.as_str().as_bytes())
        }
    }
}
