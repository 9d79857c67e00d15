//! Values in the informal trace format, by their shapes.

ghost use Rattle.std.specs.Prelude.{◌≡◌, ◌++◌, codes, if◌then◌else◌};
ghost use Rattle.ioa_values.specs.Data.{entries_of, items_of, tuple};
ghost use Rattle.ioa_values.specs.Text.{with_commas};
ghost use Rattle.ioa_operators.specs.Shapes.{shapes_of};
ghost use Rattle.ioa_paper.specs.Papers.{and_text};
ghost use Rattle.ioa_show.specs.Json.{as_many, field_key, field_start, fields_json, json, shaped_entries};
ghost use Rattle.ioa_show.specs.Json.{shaped_json, shaped_jsons};

use crate::state_values::{put_json, put_tuple};
use ioa_paper::{Paper, put_separator};
use ioa_streams::Out;
use ioa_terms::{Shape, ShapeForm};
use ioa_values::{FiniteMap, FiniteSet, Names, Sequence, Value, ValueForm, Word};

/// Writes a value by its shape; by another shape than its own, as it is written without one.
#[cycle(shaping)]
#[tactic(auto, using(ioa_values::proofs::Falls::most_items))]
pub fn put_shaped<O: Out>(paper: &mut Paper<'_, O>, names: &Names, value: &Value, shape: &Shape)
    ensures { paper.new ≡ and_text paper.old (shaped_json names.now shape.now value.now) }
{
    match &value.form {
        ValueForm::Number(_) | ValueForm::Truth(_) | ValueForm::Constant(_) => {
            put_json(paper, names, value)
        }
        ValueForm::Tuple(parts) => match &shape.form {
            ShapeForm::Tuples(_, fields, shapes) => put_record(paper, names, parts, fields, shapes),
            _ => put_json(paper, names, value),
        },
        ValueForm::Sequence(items) => match &shape.form {
            ShapeForm::Sequences(shape) => put_sequence_of(paper, names, items, shape),
            _ => put_json(paper, names, value),
        },
        ValueForm::Set(members) => match &shape.form {
            ShapeForm::Sets(shape) => put_set_of(paper, names, members, shape),
            _ => put_json(paper, names, value),
        },
        ValueForm::Map(entries) => match &shape.form {
            ShapeForm::Maps(keys, values) => put_map_of(paper, names, entries, keys, values),
            _ => put_json(paper, names, value),
        },
    }
}

/// Writes a tuple with the names and the shapes of its fields as a record, if there are as many.
#[cycle(shaping)]
fn put_record<O: Out>(
    paper: &mut Paper<'_, O>,
    names: &Names,
    parts: &Vec<Value>,
    fields: &Vec<Word>,
    shapes: &Vec<Shape>,
)
    ensures { paper.new ≡ and_text paper.old
        (if as_many (items_of parts.now.items) fields.now.items (shapes_of shapes.now.items)
        then codes "{" ++ (fields_json names.now 0 (items_of parts.now.items) fields.now.items
        (shapes_of shapes.now.items) ++ codes "}")
        else json names.now (tuple (items_of parts.now.items))) }
{
    if are_as_many(parts, fields, shapes) {
        paper.put("{");
        put_fields(paper, names, parts, fields, shapes);
        paper.put("}");
    } else {
        put_tuple(paper, names, parts);
    }
}

/// Whether there are as many values, names and shapes.
#[tactic(auto, using(crate::proofs::Fields::counted))]
fn are_as_many(parts: &Vec<Value>, fields: &Vec<Word>, shapes: &Vec<Shape>) -> bool
    ensures { result ≡ as_many (items_of parts.now.items) fields.now.items (shapes_of shapes.now.items) }
{
    parts.len() == fields.len() && parts.len() == shapes.len()
}

/// Writes the fields of a tuple.
#[cycle(shaping)]
fn put_fields<O: Out>(
    paper: &mut Paper<'_, O>,
    names: &Names,
    parts: &Vec<Value>,
    fields: &Vec<Word>,
    shapes: &Vec<Shape>,
)
    ensures { paper.new ≡ and_text paper.old
        (fields_json names.now 0 (items_of parts.now.items) fields.now.items (shapes_of shapes.now.items)) }
{
    for (position, part) in parts.iter().enumerate() {
        let Some(field) = fields.get(position) else {
            return;
        };
        let Some(shape) = shapes.get(position) else {
            return;
        };
        put_key(paper, position, field.as_str());
        put_shaped(paper, names, part, shape);
    }
}

/// Writes the name of the field at a position, as far as its value.
fn put_key<O: Out>(paper: &mut Paper<'_, O>, position: usize, name: &str)
    ensures { paper.new ≡ and_text paper.old (field_key position name.now) }
{
    put_quote(paper, position);
    paper.put(name);
    paper.put("\":");
}

/// Writes what stands in front of the name of the field at a position.
fn put_quote<O: Out>(paper: &mut Paper<'_, O>, position: usize)
    ensures { paper.new ≡ and_text paper.old (field_start position) }
{
    paper.put(if position > 0 { ",\"" } else { "\"" });
}

/// Writes a sequence of items of a shape.
#[cycle(shaping)]
pub fn put_sequence_of<O: Out>(
    paper: &mut Paper<'_, O>,
    names: &Names,
    items: &Sequence,
    shape: &Shape,
)
    ensures { paper.new ≡ and_text paper.old
        (codes "[" ++ with_commas (shaped_jsons names.now shape.now (items_of items.now)) ++ codes "]") }
{
    paper.put("[");
    put_items(paper, names, items, shape);
    paper.put("]");
}

/// Writes items of a shape with commas between them.
#[cycle(shaping)]
fn put_items<O: Out>(paper: &mut Paper<'_, O>, names: &Names, items: &Sequence, shape: &Shape)
    ensures { paper.new ≡ and_text paper.old
        (with_commas (shaped_jsons names.now shape.now (items_of items.now))) }
{
    for position in 0..items.len() {
        put_separator(paper, position);
        put_shaped(paper, names, items.at(position), shape);
    }
}

/// Writes a set of members of a shape.
#[cycle(shaping)]
fn put_set_of<O: Out>(paper: &mut Paper<'_, O>, names: &Names, members: &FiniteSet, shape: &Shape)
    ensures { paper.new ≡ and_text paper.old
        (codes "{\"#set\":[" ++ with_commas (shaped_jsons names.now shape.now (items_of members.now))
        ++ codes "]}") }
{
    paper.put("{\"#set\":[");
    put_members(paper, names, members, shape);
    paper.put("]}");
}

/// Writes members of a shape with commas between them.
#[cycle(shaping)]
fn put_members<O: Out>(paper: &mut Paper<'_, O>, names: &Names, members: &FiniteSet, shape: &Shape)
    ensures { paper.new ≡ and_text paper.old
        (with_commas (shaped_jsons names.now shape.now (items_of members.now))) }
{
    for position in 0..members.len() {
        put_separator(paper, position);
        put_shaped(paper, names, members.at(position), shape);
    }
}

/// Writes a map of keys and values of two shapes.
#[cycle(shaping)]
fn put_map_of<O: Out>(
    paper: &mut Paper<'_, O>,
    names: &Names,
    entries: &FiniteMap,
    keys: &Shape,
    values: &Shape,
)
    ensures { paper.new ≡ and_text paper.old
        (codes "{\"#map\":["
        ++ with_commas (shaped_entries names.now keys.now values.now (entries_of entries.now)) ++ codes "]}") }
{
    paper.put("{\"#map\":[");
    put_entries(paper, names, entries, keys, values);
    paper.put("]}");
}

/// Writes entries of two shapes with commas between them.
#[cycle(shaping)]
fn put_entries<O: Out>(
    paper: &mut Paper<'_, O>,
    names: &Names,
    entries: &FiniteMap,
    keys: &Shape,
    values: &Shape,
)
    ensures { paper.new ≡ and_text paper.old
        (with_commas (shaped_entries names.now keys.now values.now (entries_of entries.now))) }
{
    for position in 0..entries.len() {
        let (key, value) = entries.at(position);
        put_separator(paper, position);
        paper.put("[");
        put_shaped(paper, names, key, keys);
        paper.put(", ");
        put_shaped(paper, names, value, values);
        paper.put("]");
    }
}
