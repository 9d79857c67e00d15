//! What is known of all items of a sequence, of all members of a set, and of all keys and all values of a map.

ghost use Rattle.std.specs.Prelude.{◌≡◌, true};
ghost use Rattle.ioa_values.specs.Collections.{keys_of, values_of};
ghost use Rattle.ioa_values.specs.ItemKinds.{AreOfKind, common_kind, is_of_kind};

use crate::value::{Value, ValueForm};

/// What is known of all items of a sequence, so that a test of all of them need not look at each. A value has room for
/// two beside a tree, so the index of a constant is only known if it lies below 65,536.
#[derive(Clone, Copy, Debug)]
pub enum ItemKind {
    /// There is none.
    Nothing,
    /// Each is a truth value.
    Truths,
    /// Each is a whole number, and none is negative.
    Naturals,
    /// Each is a whole number.
    Integers,
    /// Each is a constant, with an index from the first one to the second.
    Constants(u16, u16),
    /// Nothing is known of them.
    Any,
}

impl ItemKind {
    /// What is known of one value.
    pub(crate) fn of(value: &Value) -> Self
        ensures { is_of_kind result value.now ≡ true }
    {
        match &value.form {
            ValueForm::Number(n) => {
                if 0 <= *n {
                    ItemKind::Naturals
                } else {
                    ItemKind::Integers
                }
            }
            ValueForm::Truth(_) => ItemKind::Truths,
            ValueForm::Constant(index) => match u16::try_from(*index) {
                Ok(index) => ItemKind::Constants(index, index),
                Err(_) => ItemKind::Any,
            },
            _ => ItemKind::Any,
        }
    }

    /// What is known of the items of two sequences.
    pub(crate) fn join(self, other: Self) -> Self
        ensures { result ≡ common_kind self other }
    {
        match (self, other) {
            (ItemKind::Nothing, _) => other,
            (_, ItemKind::Nothing) => self,
            (ItemKind::Truths, ItemKind::Truths) => ItemKind::Truths,
            (ItemKind::Naturals, ItemKind::Naturals) => ItemKind::Naturals,
            (ItemKind::Naturals, ItemKind::Integers) => ItemKind::Integers,
            (ItemKind::Integers, ItemKind::Naturals) => ItemKind::Integers,
            (ItemKind::Integers, ItemKind::Integers) => ItemKind::Integers,
            (ItemKind::Constants(least, greatest), ItemKind::Constants(first, last)) => {
                ItemKind::Constants(least.min(first), greatest.max(last))
            }
            _ => ItemKind::Any,
        }
    }

    /// What is known of the values of a list.
    pub(crate) fn of_all(values: &Vec<Value>) -> Self
        ensures { AreOfKind result values.now.items }
    {
        let mut kind = ItemKind::Nothing;
        for value in values {
            kind = kind.join(ItemKind::of(value));
        }
        kind
    }

    /// What is known of the keys of a list of entries.
    pub(crate) fn of_keys(entries: &Vec<(Value, Value)>) -> Self
        ensures { AreOfKind result (keys_of entries.now.items) }
    {
        let mut kind = ItemKind::Nothing;
        for (key, _) in entries {
            kind = kind.join(ItemKind::of(key));
        }
        kind
    }

    /// What is known of the values of a list of entries.
    pub(crate) fn of_values(entries: &Vec<(Value, Value)>) -> Self
        ensures { AreOfKind result (values_of entries.now.items) }
    {
        let mut kind = ItemKind::Nothing;
        for (_, value) in entries {
            kind = kind.join(ItemKind::of(value));
        }
        kind
    }
}
