//! Values, written on a paper.

ghost use Rattle.std.specs.Prelude.{◌≡◌, ◌++◌, [], codes, get_or};
ghost use Rattle.ioa_values.specs.Data.{items_of, entries_of};
ghost use Rattle.ioa_values.specs.Text.{text, texts, entry_texts, with_commas, separator, truth_text};
ghost use Rattle.ioa_paper.specs.Papers.{and_text};

use crate::paper::Paper;
use ioa_streams::Out;
use ioa_values::{FiniteMap, FiniteSet, Names, Sequence, Value, ValueForm};

/// Writes the text of a value.
#[cycle(putting)]
#[tactic(auto, using(ioa_values::proofs::Falls::most_items))]
pub fn put_value<O: Out>(paper: &mut Paper<'_, O>, names: &Names, value: &Value)
    ensures { paper.new ≡ and_text paper.old (text names.now value.now) }
{
    match &value.form {
        ValueForm::Number(n) => paper.put_number(*n),
        ValueForm::Truth(b) => put_truth(paper, *b),
        ValueForm::Constant(index) => put_name(paper, names, *index),
        ValueForm::Tuple(parts) => put_tuple(paper, names, parts),
        ValueForm::Sequence(items) => put_sequence(paper, names, items),
        ValueForm::Set(members) => put_set(paper, names, members),
        ValueForm::Map(entries) => put_map(paper, names, entries),
    }
}

/// Writes a truth value.
fn put_truth<O: Out>(paper: &mut Paper<'_, O>, truth: bool)
    ensures { paper.new ≡ and_text paper.old (truth_text truth) }
{
    paper.put(if truth { "true" } else { "false" });
}

/// Writes the name of the constant of an index, if it has a name.
fn put_name<O: Out>(paper: &mut Paper<'_, O>, names: &Names, index: usize)
    ensures { paper.new ≡ and_text paper.old (get_or names.now index []) }
{
    if let Some(word) = names.as_slice().get(index) {
        paper.put(word.as_str());
    }
}

/// Writes a tuple.
#[cycle(putting)]
fn put_tuple<O: Out>(paper: &mut Paper<'_, O>, names: &Names, parts: &Vec<Value>)
    ensures { paper.new ≡ and_text paper.old
        (codes "[" ++ with_commas (texts names.now (items_of parts.now.items)) ++ codes "]") }
{
    paper.put("[");
    put_values(paper, names, parts);
    paper.put("]");
}

/// Writes values with commas between them.
#[cycle(putting)]
fn put_values<O: Out>(paper: &mut Paper<'_, O>, names: &Names, values: &Vec<Value>)
    ensures { paper.new ≡ and_text paper.old (with_commas (texts names.now (items_of values.now.items))) }
{
    for (position, value) in values.iter().enumerate() {
        put_separator(paper, position);
        put_value(paper, names, value);
    }
}

/// Writes a sequence.
#[cycle(putting)]
fn put_sequence<O: Out>(paper: &mut Paper<'_, O>, names: &Names, items: &Sequence)
    ensures { paper.new ≡ and_text paper.old
        (codes "{" ++ with_commas (texts names.now (items_of items.now)) ++ codes "}") }
{
    paper.put("{");
    put_items(paper, names, items);
    paper.put("}");
}

/// Writes items with commas between them.
#[cycle(putting)]
fn put_items<O: Out>(paper: &mut Paper<'_, O>, names: &Names, items: &Sequence)
    ensures { paper.new ≡ and_text paper.old (with_commas (texts names.now (items_of items.now))) }
{
    for position in 0..items.len() {
        put_separator(paper, position);
        put_value(paper, names, items.at(position));
    }
}

/// Writes a set.
#[cycle(putting)]
fn put_set<O: Out>(paper: &mut Paper<'_, O>, names: &Names, members: &FiniteSet)
    ensures { paper.new ≡ and_text paper.old
        (codes "{" ++ with_commas (texts names.now (items_of members.now)) ++ codes "}") }
{
    paper.put("{");
    put_members(paper, names, members);
    paper.put("}");
}

/// Writes members with commas between them.
#[cycle(putting)]
fn put_members<O: Out>(paper: &mut Paper<'_, O>, names: &Names, members: &FiniteSet)
    ensures { paper.new ≡ and_text paper.old (with_commas (texts names.now (items_of members.now))) }
{
    for position in 0..members.len() {
        put_separator(paper, position);
        put_value(paper, names, members.at(position));
    }
}

/// Writes a map.
#[cycle(putting)]
fn put_map<O: Out>(paper: &mut Paper<'_, O>, names: &Names, entries: &FiniteMap)
    ensures { paper.new ≡ and_text paper.old
        (codes "{" ++ with_commas (entry_texts names.now (entries_of entries.now)) ++ codes "}") }
{
    paper.put("{");
    put_entries(paper, names, entries);
    paper.put("}");
}

/// Writes entries with commas between them.
#[cycle(putting)]
fn put_entries<O: Out>(paper: &mut Paper<'_, O>, names: &Names, entries: &FiniteMap)
    ensures { paper.new ≡ and_text paper.old (with_commas (entry_texts names.now (entries_of entries.now))) }
{
    for position in 0..entries.len() {
        let (key, value) = entries.at(position);
        put_separator(paper, position);
        put_value(paper, names, key);
        paper.put(" -> ");
        put_value(paper, names, value);
    }
}

/// Writes what separates the text at a position from the one before it: a comma and a space, but nothing in front of
/// the first.
pub fn put_separator<O: Out>(paper: &mut Paper<'_, O>, position: usize)
    ensures { paper.new ≡ and_text paper.old (separator position) }
{
    if position > 0 {
        paper.put(", ");
    }
}
