//! The reader of values.

ghost use Rattle.std.specs.Prelude.{◌≡◌, [], Some, None};
ghost use Rattle.ioa_cursor.specs.Outcome.{Reads};
ghost use Rattle.ioa_cursor.specs.Reading.{several_more, skip};
ghost use Rattle.ioa_operators.specs.Shapes.{shapes_of};
ghost use Rattle.ioa_tokens.specs.declared.mark.Mark.TheVariants as mark;
ghost use Rattle.ioa_value_reader.specs.Grammar as grammar;
ghost use Rattle.ioa_value_reader.specs.Outcome.{ReadsIfThere};
ghost use Rattle.ioa_value_reader.specs.Reading as spec;

use crate::ascent::{ascends, keys_ascend};
use ioa_cursor::{Tokens, Unread};
use ioa_operators::{Shape, ShapeForm};
use ioa_tokens::Mark;
use ioa_values::{FiniteMap, FiniteSet, Names, Sequence, Value, Word};
use std::alloc::{AllocError, Global};

/// Reads a value of a shape. A negative number is read where a natural is asked for, and what follows the value is
/// left. Returns `None` if the next tokens spell no value of the shape; it is not said how far it read then. Asks for
/// memory for constants and collections alone.
pub fn read_value(
    alloc: Global,
    names: &Names,
    shape: &Shape,
    tokens: &mut Tokens<'_>,
) -> Result<Option<Value>, AllocError>
    ensures { ReadsIfThere (spec.read_value names.now shape.now tokens.old) result tokens.new }
{
    match read(alloc, names, shape, tokens) {
        Ok(value) => Ok(Some(value)),
        Err(Unread::Memory) => Err(AllocError),
        Err(Unread::Unexpected(_) | Unread::TooDeep(_) | Unread::LeftOut(_, _)) => Ok(None),
    }
}

/// Minus the amount of a number.
fn minus_amount(number: i64) -> i64
    ensures { result ≡ grammar.minus_amount number }
{
    if number < 0 { number } else { -number }
}

/// Number or `-` Number.
#[tactic(auto, unfolding(crate::specs::Reading::read_number, crate::specs::bind, crate::specs::choose))]
fn read_number(tokens: &mut Tokens<'_>) -> Result<Value, Unread>
    ensures { Reads (λ v. v) (spec.read_number tokens.old) result tokens.new }
{
    if tokens.skip(Mark::Minus) {
        let number = tokens.number()?;
        return Ok(Value::number(minus_amount(number)));
    }
    let number = tokens.number()?;
    if number < 0 {
        Err(tokens.refusal())
    } else {
        Ok(Value::number(number))
    }
}

/// `true` or `false`.
#[tactic(auto, unfolding(crate::specs::Reading::read_truth, crate::specs::bind, crate::specs::choose))]
fn read_truth(tokens: &mut Tokens<'_>) -> Result<Value, Unread>
    ensures { Reads (λ v. v) (spec.read_truth tokens.old) result tokens.new }
{
    if tokens.skip(Mark::True) {
        return Ok(Value::truth(true));
    }
    tokens.expect(Mark::False)?;
    Ok(Value::truth(false))
}

/// The constant of a name: the first one that has it.
fn constant_named(names: &[Word], name: &Word) -> Option<usize>
    ensures { result ≡ grammar.constant_named names.now name.now }
{
    names.iter().position(|other| name == other)
}

/// The constant of a name, if it is one of those from an index on.
#[tactic(auto, unfolding(crate::specs::Reading::constant_among, crate::specs::bind, crate::specs::choose))]
fn constant_among(names: &[Word], from: usize, many: usize, name: &Word) -> Option<usize>
    ensures { result ≡ spec.constant_among names.now from many name.now }
{
    let index = constant_named(names, name)?;
    if from <= index && index - from < many {
        Some(index)
    } else {
        None
    }
}

/// The name of one of the constants from an index on.
#[tactic(auto, unfolding(crate::specs::Reading::read_constant, crate::specs::bind))]
fn read_constant(
    alloc: Global,
    names: &Names,
    from: usize,
    many: usize,
    tokens: &mut Tokens<'_>,
) -> Result<Value, Unread>
    ensures { Reads (λ v. v) (spec.read_constant names.now from many tokens.old) result tokens.new }
{
    let name = tokens.word(alloc)?;
    match constant_among(names.as_slice(), from, many, &name) {
        Some(index) => Ok(Value::constant(index)),
        None => Err(tokens.refusal()),
    }
}

/// A value of a shape.
#[cycle(reading)]
#[tactic(auto, unfolding(crate::specs::Reading::read_value, crate::specs::bind, crate::specs::choose))]
fn read(
    alloc: Global,
    names: &Names,
    shape: &Shape,
    tokens: &mut Tokens<'_>,
) -> Result<Value, Unread>
    ensures { Reads (λ v. v) (spec.read_value names.now shape.now tokens.old) result tokens.new }
{
    match &shape.form {
        ShapeForm::Truths => read_truth(tokens),
        ShapeForm::Integers => read_number(tokens),
        ShapeForm::Naturals => read_number(tokens),
        ShapeForm::Constants(_, from, many) => read_constant(alloc, names, *from, *many, tokens),
        ShapeForm::Tuples(_, _, shapes) => {
            tokens.expect(Mark::OpenSquare)?;
            let parts = read_parts(alloc, names, shapes, tokens)?;
            tokens.expect(Mark::CloseSquare)?;
            tuple_of(alloc, parts, tokens)
        }
        ShapeForm::Sequences(items) => {
            let items = read_items(alloc, names, items, tokens)?;
            Ok(Value::sequence(Sequence::from_vec(alloc, items)?))
        }
        ShapeForm::Sets(members) => {
            let members = read_items(alloc, names, members, tokens)?;
            set_of(alloc, members, tokens)
        }
        ShapeForm::Maps(keys, values) => {
            let entries = read_entries(alloc, names, keys, values, tokens)?;
            map_of(alloc, entries, tokens)
        }
    }
}

/// A value of each shape, with commas between.
#[cycle(reading)]
fn read_parts(
    alloc: Global,
    names: &Names,
    shapes: &Vec<Shape>,
    tokens: &mut Tokens<'_>,
) -> Result<Vec<Value>, Unread>
    ensures { Reads (λ v. v.items)
        (spec.read_parts names.now (shapes_of shapes.now.items) [] tokens.old) result tokens.new }
{
    let mut parts = Vec::new(alloc);
    for shape in shapes {
        expect_between(&parts, tokens)?;
        let part = read(alloc, names, shape, tokens)?;
        parts.push(part)?;
    }
    Ok(parts)
}

/// The comma in front of a part behind those that are done.
#[tactic(auto, unfolding(crate::specs::Reading::between))]
fn expect_between(parts: &Vec<Value>, tokens: &mut Tokens<'_>) -> Result<(), Unread>
    ensures { Reads (λ u. u) (spec.between parts.now.items tokens.old) result tokens.new }
{
    match parts.as_slice() {
        [] => Ok(()),
        [_, ..] => tokens.expect(Mark::Comma),
    }
}

/// The tuple of parts, if there is a part.
#[tactic(auto, unfolding(crate::specs::choose))]
fn tuple_of(alloc: Global, parts: Vec<Value>, tokens: &Tokens<'_>) -> Result<Value, Unread>
    ensures { Reads (λ v. v) (spec.as_tuple (parts.items, tokens.now)) result tokens.now }
{
    if parts.is_empty() {
        return Err(tokens.refusal());
    }
    Ok(Value::tuple(alloc, parts)?)
}

/// The set of members, if they ascend.
#[tactic(auto, using(crate::proofs::Ascents::ascends_told), unfolding(crate::specs::choose))]
fn set_of(alloc: Global, members: Vec<Value>, tokens: &Tokens<'_>) -> Result<Value, Unread>
    ensures { Reads (λ v. v) (spec.as_set (members.items, tokens.now)) result tokens.now }
{
    if ascends(&members) {
        Ok(Value::set(FiniteSet::of_ascending(alloc, &members)?))
    } else {
        Err(tokens.refusal())
    }
}

/// The map of entries, if their keys ascend.
#[tactic(auto, using(crate::proofs::Ascents::ascends_told), unfolding(crate::specs::choose))]
fn map_of(alloc: Global, entries: Vec<(Value, Value)>, tokens: &Tokens<'_>) -> Result<Value, Unread>
    ensures { Reads (λ v. v) (spec.as_map (entries.items, tokens.now)) result tokens.now }
{
    if keys_ascend(&entries) {
        Ok(Value::map(FiniteMap::of_ascending(alloc, &entries)?))
    } else {
        Err(tokens.refusal())
    }
}

/// [Value {`,` Value}] between braces.
#[cycle(reading)]
#[tactic(auto, unfolding(crate::specs::Reading::in_braces, crate::specs::bind, crate::specs::choose))]
fn read_items(
    alloc: Global,
    names: &Names,
    shape: &Shape,
    tokens: &mut Tokens<'_>,
) -> Result<Vec<Value>, Unread>
    ensures { Reads (λ v. v.items)
        (spec.in_braces (spec.read_value names.now shape.now) tokens.old) result tokens.new }
{
    tokens.expect(Mark::OpenBrace)?;
    if tokens.skip(Mark::CloseBrace) {
        return Ok(Vec::new(alloc));
    }
    let items = read_more_items(alloc, names, shape, tokens)?;
    tokens.expect(Mark::CloseBrace)?;
    Ok(items)
}

/// Value {`,` Value}
#[cycle(reading)]
#[tactic(auto, unfolding(crate::specs::bind))]
fn read_more_items(
    alloc: Global,
    names: &Names,
    shape: &Shape,
    tokens: &mut Tokens<'_>,
) -> Result<Vec<Value>, Unread>
    ensures { Reads (λ v. v.items)
        (several_more (skip mark.Comma) (spec.read_value names.now shape.now) [] tokens.old) result tokens.new }
{
    let first = read(alloc, names, shape, tokens)?;
    let mut items = Vec::new(alloc);
    items.push(first)?;
    for _turn in 0..tokens.len() {
        if !tokens.skip(Mark::Comma) {
            return Ok(items);
        }
        let next = read(alloc, names, shape, tokens)?;
        items.push(next)?;
    }
    Ok(items)
}

/// A key, `->` and its value.
#[cycle(reading)]
#[tactic(auto, unfolding(crate::specs::Reading::read_entry, crate::specs::bind))]
fn read_entry(
    alloc: Global,
    names: &Names,
    keys: &Shape,
    values: &Shape,
    tokens: &mut Tokens<'_>,
) -> Result<(Value, Value), Unread>
    ensures { Reads (λ e. e)
        (spec.read_entry (spec.read_value names.now keys.now) (spec.read_value names.now values.now) tokens.old)
        result tokens.new }
{
    let key = read(alloc, names, keys, tokens)?;
    tokens.expect(Mark::Arrow)?;
    let value = read(alloc, names, values, tokens)?;
    Ok((key, value))
}

/// [Entry {`,` Entry}] between braces.
#[cycle(reading)]
#[tactic(auto, unfolding(crate::specs::Reading::in_braces, crate::specs::bind, crate::specs::choose))]
fn read_entries(
    alloc: Global,
    names: &Names,
    keys: &Shape,
    values: &Shape,
    tokens: &mut Tokens<'_>,
) -> Result<Vec<(Value, Value)>, Unread>
    ensures { Reads (λ v. v.items)
        (spec.in_braces
        (spec.read_entry (spec.read_value names.now keys.now) (spec.read_value names.now values.now)) tokens.old)
        result tokens.new }
{
    tokens.expect(Mark::OpenBrace)?;
    if tokens.skip(Mark::CloseBrace) {
        return Ok(Vec::new(alloc));
    }
    let entries = read_more_entries(alloc, names, keys, values, tokens)?;
    tokens.expect(Mark::CloseBrace)?;
    Ok(entries)
}

/// Entry {`,` Entry}
#[cycle(reading)]
#[tactic(auto, unfolding(crate::specs::bind))]
fn read_more_entries(
    alloc: Global,
    names: &Names,
    keys: &Shape,
    values: &Shape,
    tokens: &mut Tokens<'_>,
) -> Result<Vec<(Value, Value)>, Unread>
    ensures { Reads (λ v. v.items)
        (several_more (skip mark.Comma)
        (spec.read_entry (spec.read_value names.now keys.now) (spec.read_value names.now values.now)) [] tokens.old)
        result tokens.new }
{
    let first = read_entry(alloc, names, keys, values, tokens)?;
    let mut entries = Vec::new(alloc);
    entries.push(first)?;
    for _turn in 0..tokens.len() {
        if !tokens.skip(Mark::Comma) {
            return Ok(entries);
        }
        let next = read_entry(alloc, names, keys, values, tokens)?;
        entries.push(next)?;
    }
    Ok(entries)
}
