//! Values in the informal trace format.

ghost use Rattle.std.specs.Prelude.{◌≡◌, ◌++◌, [], codes, get_or};
ghost use Rattle.ioa_values.specs.Data.{items_of, entries_of};
ghost use Rattle.ioa_values.specs.Text.{truth_text, with_commas};
ghost use Rattle.ioa_paper.specs.Papers.{and_text};
ghost use Rattle.ioa_show.specs.Json.{entry_jsons, integer_json, json, jsons};

use ioa_paper::{Paper, put_separator};
use ioa_streams::Out;
use ioa_values::{FiniteMap, FiniteSet, Names, Sequence, Value, ValueForm};

/// Writes a value.
#[cycle(writing)]
#[tactic(auto, using(ioa_values::proofs::Falls::most_items))]
pub fn put_json<O: Out>(paper: &mut Paper<'_, O>, names: &Names, value: &Value)
    ensures { paper.new ≡ and_text paper.old (json names.now value.now) }
{
    match &value.form {
        ValueForm::Number(n) => put_integer(paper, *n),
        ValueForm::Truth(b) => put_truth(paper, *b),
        ValueForm::Constant(index) => put_constant(paper, names, *index),
        ValueForm::Tuple(parts) => put_tuple(paper, names, parts),
        ValueForm::Sequence(items) => put_sequence(paper, names, items),
        ValueForm::Set(members) => put_set(paper, names, members),
        ValueForm::Map(entries) => put_map(paper, names, entries),
    }
}

/// Writes a number.
fn put_integer<O: Out>(paper: &mut Paper<'_, O>, n: i64)
    ensures { paper.new ≡ and_text paper.old (integer_json n) }
{
    paper.put("{\"#bigint\":\"");
    paper.put_number(n);
    paper.put("\"}");
}

/// Writes a truth value.
fn put_truth<O: Out>(paper: &mut Paper<'_, O>, truth: bool)
    ensures { paper.new ≡ and_text paper.old (truth_text truth) }
{
    paper.put(if truth { "true" } else { "false" });
}

/// Writes the name of the constant of an index as a string, the empty one if it has no name.
fn put_constant<O: Out>(paper: &mut Paper<'_, O>, names: &Names, index: usize)
    ensures { paper.new ≡ and_text paper.old (codes "\"" ++ (get_or names.now index [] ++ codes "\"")) }
{
    paper.put("\"");
    put_name(paper, names, index);
    paper.put("\"");
}

/// Writes the name of the constant of an index, if it has a name.
fn put_name<O: Out>(paper: &mut Paper<'_, O>, names: &Names, index: usize)
    ensures { paper.new ≡ and_text paper.old (get_or names.now index []) }
{
    if let Some(word) = names.as_slice().get(index) {
        paper.put(word.as_str());
    }
}

/// Writes a tuple.
#[cycle(writing)]
pub fn put_tuple<O: Out>(paper: &mut Paper<'_, O>, names: &Names, parts: &Vec<Value>)
    ensures { paper.new ≡ and_text paper.old
        (codes "{\"#tup\":[" ++ with_commas (jsons names.now (items_of parts.now.items)) ++ codes "]}") }
{
    paper.put("{\"#tup\":[");
    put_values(paper, names, parts);
    paper.put("]}");
}

/// Writes values with commas between them.
#[cycle(writing)]
fn put_values<O: Out>(paper: &mut Paper<'_, O>, names: &Names, values: &Vec<Value>)
    ensures { paper.new ≡ and_text paper.old (with_commas (jsons names.now (items_of values.now.items))) }
{
    for (position, value) in values.iter().enumerate() {
        put_separator(paper, position);
        put_json(paper, names, value);
    }
}

/// Writes a sequence.
#[cycle(writing)]
pub fn put_sequence<O: Out>(paper: &mut Paper<'_, O>, names: &Names, items: &Sequence)
    ensures { paper.new ≡ and_text paper.old
        (codes "[" ++ with_commas (jsons names.now (items_of items.now)) ++ codes "]") }
{
    paper.put("[");
    put_items(paper, names, items);
    paper.put("]");
}

/// Writes items with commas between them.
#[cycle(writing)]
fn put_items<O: Out>(paper: &mut Paper<'_, O>, names: &Names, items: &Sequence)
    ensures { paper.new ≡ and_text paper.old (with_commas (jsons names.now (items_of items.now))) }
{
    for position in 0..items.len() {
        put_separator(paper, position);
        put_json(paper, names, items.at(position));
    }
}

/// Writes a set.
#[cycle(writing)]
fn put_set<O: Out>(paper: &mut Paper<'_, O>, names: &Names, members: &FiniteSet)
    ensures { paper.new ≡ and_text paper.old
        (codes "{\"#set\":[" ++ with_commas (jsons names.now (items_of members.now)) ++ codes "]}") }
{
    paper.put("{\"#set\":[");
    put_members(paper, names, members);
    paper.put("]}");
}

/// Writes members with commas between them.
#[cycle(writing)]
fn put_members<O: Out>(paper: &mut Paper<'_, O>, names: &Names, members: &FiniteSet)
    ensures { paper.new ≡ and_text paper.old (with_commas (jsons names.now (items_of members.now))) }
{
    for position in 0..members.len() {
        put_separator(paper, position);
        put_json(paper, names, members.at(position));
    }
}

/// Writes a map.
#[cycle(writing)]
fn put_map<O: Out>(paper: &mut Paper<'_, O>, names: &Names, entries: &FiniteMap)
    ensures { paper.new ≡ and_text paper.old
        (codes "{\"#map\":[" ++ with_commas (entry_jsons names.now (entries_of entries.now)) ++ codes "]}") }
{
    paper.put("{\"#map\":[");
    put_entries(paper, names, entries);
    paper.put("]}");
}

/// Writes entries with commas between them.
#[cycle(writing)]
fn put_entries<O: Out>(paper: &mut Paper<'_, O>, names: &Names, entries: &FiniteMap)
    ensures { paper.new ≡ and_text paper.old
        (with_commas (entry_jsons names.now (entries_of entries.now))) }
{
    for position in 0..entries.len() {
        let (key, value) = entries.at(position);
        put_separator(paper, position);
        paper.put("[");
        put_json(paper, names, key);
        paper.put(", ");
        put_json(paper, names, value);
        paper.put("]");
    }
}
