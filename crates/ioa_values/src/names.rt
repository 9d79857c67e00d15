//! Values as text.

ghost use Rattle.std.specs.Prelude.{◌≡◌, ◌++◌, IfOk, OnOk, [], string_bytes, codes, get_or};
ghost use Rattle.std.specs.Fmt.{signed_decimal};
ghost use Rattle.ioa_values.specs.Data.{items_of, entries_of};
ghost use Rattle.ioa_values.specs.Canonical.{IsCanonical};
ghost use Rattle.ioa_values.specs.Outcome.{Writes};
ghost use Rattle.ioa_values.specs.Text.{text, texts, entry_texts, with_commas, separator};

use crate::finite_map::FiniteMap;
use crate::finite_set::FiniteSet;
use crate::sequence::Sequence;
use crate::value::{Value, ValueForm};
use crate::word::Word;
use std::alloc::{AllocError, Global};
use std::marker::Model;

/// The names of the text's constants, in the order of their declaration: a constant is its index
/// among them. A contract sees the list of the names.
#[derive(Debug)]
pub struct Names {
    words: Vec<Word>,
}

/// By hand, so that crates above do not prove again how the parts are let go (DECISIONS).
impl Drop for Names {
    fn drop(self) {
        let Names { words: _ } = self;
    }
}

impl Model for Names {
    ghost use Rattle.std.specs.Prelude.{ℕ, List};

    ghost Value = { List (List ℕ) };

    ghost view = { λ n. n.words.items };
}

impl Names {
    /// The names of the constants of a text, in the order of their declaration.
    pub fn new(words: Vec<Word>) -> Self
        ensures { result ≡ words.items }
    {
        Names { words }
    }

    /// No names: of a text that declares no constants.
    pub fn none(alloc: Global) -> Self
        ensures { result ≡ [] }
    {
        Names {
            words: Vec::new(alloc),
        }
    }

    /// The names in order.
    pub fn as_slice(&self) -> &[Word]
        ensures { result.now ≡ self.now }
    {
        self.words.as_slice()
    }
}

/// The text of a value (profile): a number is decimal with `-` for a negative one, a truth value is
/// `true` or `false`, a constant is its name, a tuple is `[a, b]`, a sequence or a set `{a, b}`, and a
/// map `{k -> v, l -> w}`. A constant without a name has no text. If the text is written, every set and
/// every map in the value, at any depth, ascends, and the text has their members and entries in that order.
/// If memory runs out, nothing is said of what lies inside the value.
pub fn show(alloc: Global, names: &Names, value: &Value) -> Result<String, AllocError>
    ensures text { IfOk result (λ s. string_bytes s ≡ text names.now value.now) }
    ensures ascending { IsCanonical value.now }
{
    let mut output = String::new(alloc);
    push_shown(&mut output, names, value)?;
    Ok(output)
}

/// Writes the text of a value behind what is already written. If memory runs out, a part of the text
/// may have been written.
pub fn push_shown(output: &mut String, names: &Names, value: &Value) -> Result<(), AllocError>
    ensures text { OnOk result (Writes output.old output.new (text names.now value.now)) }
    ensures ascending { IsCanonical value.now }
{
    value.canonical_law();
    push_value(output, names, value)
}

/// Writes the text of a value.
#[cycle(showing)]
#[tactic(auto, using(crate::proofs::Falls::most_items))]
fn push_value(output: &mut String, names: &Names, value: &Value) -> Result<(), AllocError>
    ensures { OnOk result (Writes output.old output.new (text names.now value.now)) }
{
    match &value.form {
        ValueForm::Number(n) => push_number(output, *n),
        ValueForm::Truth(b) => output.push_str(if *b { "true" } else { "false" }),
        ValueForm::Constant(index) => push_name(output, names, *index),
        ValueForm::Tuple(parts) => push_tuple(output, names, parts),
        ValueForm::Sequence(items) => push_sequence(output, names, items),
        ValueForm::Set(members) => push_set(output, names, members),
        ValueForm::Map(entries) => push_map(output, names, entries),
    }
}

/// Writes a number.
fn push_number(output: &mut String, n: i64) -> Result<(), AllocError>
    ensures { OnOk result (Writes output.old output.new (signed_decimal n)) }
{
    write!(output, "{n}")?;
    Ok(())
}

/// Writes the name of the constant of an index, if it has a name.
fn push_name(output: &mut String, names: &Names, index: usize) -> Result<(), AllocError>
    ensures { OnOk result (Writes output.old output.new (get_or names.now index [])) }
{
    match names.as_slice().get(index) {
        Some(word) => output.push_str(word.as_str()),
        None => Ok(()),
    }
}

/// Writes a tuple.
#[cycle(showing)]
fn push_tuple(output: &mut String, names: &Names, parts: &Vec<Value>) -> Result<(), AllocError>
    ensures { OnOk result (Writes output.old output.new
        (codes "[" ++ with_commas (texts names.now (items_of parts.now.items)) ++ codes "]")) }
{
    output.push_str("[")?;
    push_values(output, names, parts)?;
    output.push_str("]")
}

/// Writes values with commas between them.
#[cycle(showing)]
fn push_values(output: &mut String, names: &Names, values: &Vec<Value>) -> Result<(), AllocError>
    ensures { OnOk result (Writes output.old output.new
        (with_commas (texts names.now (items_of values.now.items)))) }
{
    for (position, value) in values.iter().enumerate() {
        push_separator(output, position)?;
        push_value(output, names, value)?;
    }
    Ok(())
}

/// Writes a sequence.
#[cycle(showing)]
fn push_sequence(output: &mut String, names: &Names, items: &Sequence) -> Result<(), AllocError>
    ensures { OnOk result (Writes output.old output.new
        (codes "{" ++ with_commas (texts names.now (items_of items.now)) ++ codes "}")) }
{
    output.push_str("{")?;
    push_items(output, names, items)?;
    output.push_str("}")
}

/// Writes items with commas between them.
#[cycle(showing)]
fn push_items(output: &mut String, names: &Names, items: &Sequence) -> Result<(), AllocError>
    ensures { OnOk result (Writes output.old output.new
        (with_commas (texts names.now (items_of items.now)))) }
{
    for position in 0..items.len() {
        push_separator(output, position)?;
        push_value(output, names, items.at(position))?;
    }
    Ok(())
}

/// Writes a set.
#[cycle(showing)]
fn push_set(output: &mut String, names: &Names, members: &FiniteSet) -> Result<(), AllocError>
    ensures { OnOk result (Writes output.old output.new
        (codes "{" ++ with_commas (texts names.now (items_of members.now)) ++ codes "}")) }
{
    output.push_str("{")?;
    push_members(output, names, members)?;
    output.push_str("}")
}

/// Writes members with commas between them.
#[cycle(showing)]
fn push_members(output: &mut String, names: &Names, members: &FiniteSet) -> Result<(), AllocError>
    ensures { OnOk result (Writes output.old output.new
        (with_commas (texts names.now (items_of members.now)))) }
{
    for position in 0..members.len() {
        push_separator(output, position)?;
        push_value(output, names, members.at(position))?;
    }
    Ok(())
}

/// Writes a map.
#[cycle(showing)]
fn push_map(output: &mut String, names: &Names, entries: &FiniteMap) -> Result<(), AllocError>
    ensures { OnOk result (Writes output.old output.new
        (codes "{" ++ with_commas (entry_texts names.now (entries_of entries.now)) ++ codes "}")) }
{
    output.push_str("{")?;
    push_entries(output, names, entries)?;
    output.push_str("}")
}

/// Writes entries with commas between them.
#[cycle(showing)]
fn push_entries(output: &mut String, names: &Names, entries: &FiniteMap) -> Result<(), AllocError>
    ensures { OnOk result (Writes output.old output.new
        (with_commas (entry_texts names.now (entries_of entries.now)))) }
{
    for position in 0..entries.len() {
        let (key, value) = entries.at(position);
        push_separator(output, position)?;
        push_value(output, names, key)?;
        output.push_str(" -> ")?;
        push_value(output, names, value)?;
    }
    Ok(())
}

/// Writes what separates the text at a position from the one before it: a comma and a space, but
/// nothing in front of the first.
pub fn push_separator(output: &mut String, position: usize) -> Result<(), AllocError>
    ensures { OnOk result (Writes output.old output.new (separator position)) }
{
    if position > 0 {
        output.push_str(", ")?;
    }
    Ok(())
}
