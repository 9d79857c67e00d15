//! What the type of values keeps of their numbers.

ghost use Rattle.std.specs.Prelude.{◌≡◌, true};
ghost use Rattle.std.specs.List.{AllByRecursion};
ghost use Rattle.ioa_values.specs.Data.{fits};
ghost use Rattle.ioa_printed_lines.specs.TextSystems.{IsBounded};
ghost use Rattle.ioa_runtime_values.specs.RuntimeValues.{IsBoundedEntry};

use ioa_values::{FiniteMap, FiniteSet, Sequence, Value, ValueForm};

/// Each number in a value, at any depth, lies in 64 bits. Does nothing.
#[cycle(bounded)]
#[tactic(auto, using(ioa_values::proofs::Falls::most_items, crate::proofs::BoundedLists::are_bounded, crate::proofs::BoundedLists::are_entries_bounded,))]
pub fn bounded_law(value: &Value)
    ensures { IsBounded value.now }
{
    match &value.form {
        ValueForm::Number(n) => number_law(*n),
        ValueForm::Truth(_) => {}
        ValueForm::Constant(_) => {}
        ValueForm::Tuple(parts) => bounded_values(parts),
        ValueForm::Sequence(items) => bounded_items(items),
        ValueForm::Set(members) => bounded_members(members),
        ValueForm::Map(entries) => bounded_entries(entries),
    }
}

/// A number of the code lies in 64 bits. Does nothing.
fn number_law(n: i64)
    ensures { fits n ≡ true }
{}

/// The same of each value of a list.
#[cycle(bounded)]
fn bounded_values(values: &Vec<Value>)
    ensures { AllByRecursion IsBounded values.now.items }
{
    for value in values {
        bounded_law(value);
    }
}

/// The same of each item of a sequence.
#[cycle(bounded)]
fn bounded_items(items: &Sequence)
    ensures { AllByRecursion IsBounded items.now }
{
    for position in 0..items.len() {
        bounded_law(items.at(position));
    }
}

/// The same of each member of a set.
#[cycle(bounded)]
fn bounded_members(members: &FiniteSet)
    ensures { AllByRecursion IsBounded members.now }
{
    for position in 0..members.len() {
        bounded_law(members.at(position));
    }
}

/// The same of each key and each value of a map.
#[cycle(bounded)]
fn bounded_entries(entries: &FiniteMap)
    ensures { AllByRecursion IsBoundedEntry entries.now }
{
    for position in 0..entries.len() {
        let (key, value) = entries.at(position);
        bounded_law(key);
        bounded_law(value);
    }
}
