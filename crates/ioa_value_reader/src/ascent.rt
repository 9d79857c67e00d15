//! Whether values ascend, each before the next one.

ghost use Rattle.std.specs.Prelude.{◌≡◌, IsTrue};
ghost use Rattle.ioa_values.specs.Collections.{IsAscending, keys_of};
ghost use Rattle.ioa_value_reader.specs.Ascent.{ascends, ascends_behind};

use ioa_values::Value;
use std::cmp::Ordering;

/// Whether values ascend. Costs one comparison a value.
#[tactic(auto, unfolding(crate::specs::Ascent::ascends))]
pub(crate) fn ascends(values: &[Value]) -> bool
    ensures { result ≡ ascends values.now }
{
    match values {
        [] => true,
        [first, others @ ..] => ascends_behind(first, others),
    }
}

/// Whether values ascend that come behind a value.
fn ascends_behind(first: &Value, others: &[Value]) -> bool
    ensures { result ≡ ascends_behind first.now others.now }
{
    let mut last = first;
    for value in others {
        match last.cmp(value) {
            Ordering::Less => last = value,
            Ordering::Equal => return false,
            Ordering::Greater => return false,
        }
    }
    true
}

/// Whether the keys of entries ascend. Costs one comparison an entry.
#[tactic(auto, unfolding(crate::specs::Ascent::ascends))]
pub(crate) fn keys_ascend(entries: &[(Value, Value)]) -> bool
    ensures { result ≡ ascends (keys_of entries.now) }
{
    match entries {
        [] => true,
        [first, others @ ..] => keys_ascend_behind(&first.0, others),
    }
}

/// Whether the keys of entries ascend that come behind a key.
fn keys_ascend_behind(first: &Value, others: &[(Value, Value)]) -> bool
    ensures { result ≡ ascends_behind first.now (keys_of others.now) }
{
    let mut last = first;
    for entry in others {
        match last.cmp(&entry.0) {
            Ordering::Less => last = &entry.0,
            Ordering::Equal => return false,
            Ordering::Greater => return false,
        }
    }
    true
}
